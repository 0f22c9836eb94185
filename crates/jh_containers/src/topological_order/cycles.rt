ghost use Rattle.std.specs.Prelude.{◌≡◌, ◌<◌, ℕ, true, false, map, Some, length, slice_get, IfOk};
ghost use Rattle.jh_containers.specs.declared.transitive_closure.facts.Fact.{Fact};
ghost use Rattle.jh_containers.specs.transitive_closure.Spreads.{IsIn};
ghost use Rattle.jh_containers.specs.topological_order.Orders.{reads_of, Reaches, start_of};

use crate::topological_order::done::Done;
use crate::topological_order::ordering::reads_of;
use crate::transitive_closure::{Fact, FactList, spread};
use jh_name::{NoMemory, Row};
use std::alloc::Global;

/// That each of some things is reached.
fn starts(alloc: Global, things: &[usize]) -> Result<Vec<Fact>, NoMemory>
    ensures { IfOk result (λ made. made.items ≡ map start_of things.now) }
{
    let mut made = Vec::new(alloc);
    for thing in things {
        made.push(Fact {
            of: *thing,
            what: 0,
        })?;
    }
    Ok(made)
}

/// Whether something is so of a thing.
fn is_of(facts: &FactList, thing: usize) -> bool
    ensures yes { result ≡ true → (f : Fact) × IsIn facts.now f × (f.of ≡ thing) }
    ensures no { result ≡ false → (f : Fact) → IsIn facts.now f → f.of ≡ thing → ⊥ }
{
    for index in 0..facts.len() {
        if facts.at(index).of == thing {
            return true;
        }
    }
    false
}

/// Whether a thing reads itself, directly or through others.
fn reads_itself(alloc: Global, reads: &[Row<usize>], thing: usize) -> Result<bool, NoMemory>
    ensures yes { IfOk result (λ itself. itself ≡ true → Reaches reads.now thing thing) }
    ensures no { IfOk result (λ itself. itself ≡ false → Reaches reads.now thing thing → ⊥) }
{
    let started = starts(alloc, reads_of(reads, thing))?;
    let reached = spread(alloc, started.as_slice(), reads)?;
    Ok(is_of(&reached, thing))
}

/// Whether a thing reads itself, directly or through others. Those of an order, which do not, are answered at once.
pub fn is_cyclic(
    alloc: Global,
    reads: &[Row<usize>],
    order: &Done,
    thing: usize,
) -> Result<bool, NoMemory>
    requires sound { (x : ℕ) → IsIn order.now x → Reaches reads.now x x → ⊥ }
    ensures yes { IfOk result (λ cyclic. cyclic ≡ true → Reaches reads.now thing thing) }
    ensures no { IfOk result (λ cyclic. cyclic ≡ false → Reaches reads.now thing thing → ⊥) }
{
    if order.has(thing) {
        return Ok(false);
    }
    reads_itself(alloc, reads, thing)
}
