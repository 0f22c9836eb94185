ghost use Rattle.std.specs.Prelude.{◌≡◌, ◌⊎◌, ◌↔◌, ℕ, Some, slice_get, IfOk, OnOk};
ghost use Rattle.jh_containers.specs.declared.transitive_closure.facts.Fact.{Fact};
ghost use Rattle.jh_containers.specs.transitive_closure.Spreads.{IsIn, Spreads, passed_to};

use crate::transitive_closure::facts::{Fact, FactList};
use jh_name::{NoMemory, Row};
use std::alloc::Global;

/// Adds facts.
fn add_all(list: &mut FactList, facts: &[Fact]) -> Result<(), NoMemory>
    ensures added { OnOk result ((f : Fact) → IsIn facts.now f → IsIn list.new f) }
    ensures only { OnOk result ((f : Fact) → IsIn list.new f → IsIn facts.now f ⊎ IsIn list.old f) }
{
    for fact in facts {
        list.add(*fact)?;
    }
    Ok(())
}

/// The things to which what is so of a thing is passed on.
fn passed_to(edges: &[Row<usize>], of: usize) -> &[usize]
    ensures { result.now ≡ passed_to edges.now of }
{
    match edges.get(of) {
        None => &[],
        Some(row) => row.items(),
    }
}

/// Adds that something is so of each of some things.
fn pass_on(list: &mut FactList, what: usize, to: &[usize]) -> Result<(), NoMemory>
    ensures added { OnOk result ((m : ℕ) → IsIn to.now m → IsIn list.new (record { of = m; what = what })) }
    ensures keeps { (place : ℕ) (f : Fact) → slice_get list.old place ≡ Some f → slice_get list.new place ≡ Some f }
    ensures only { (f : Fact) → IsIn list.new f → (IsIn to.now f.of × (f.what ≡ what)) ⊎ IsIn list.old f }
{
    for of in to {
        list.add(Fact { of: *of, what })?;
    }
    Ok(())
}

/// All facts that are given or passed on, each once: where something is so of a thing, it is so of each thing in
/// the row of that number. The time is in proportion to the answer and to the edges that its facts pass.
pub fn spread(alloc: Global, facts: &[Fact], edges: &[Row<usize>]) -> Result<FactList, NoMemory>
    ensures exact { IfOk result (λ made. (f : Fact) → IsIn made f ↔ Spreads facts.now edges.now f) }
{
    let mut list = FactList::new(alloc);
    add_all(&mut list, facts)?;
    let mut at = 0;
    for _turn in 0..u64::MAX {
        if at >= list.len() {
            return Ok(list);
        }
        let fact = list.at(at);
        pass_on(&mut list, fact.what, passed_to(edges, fact.of))?;
        at += 1;
    }
    Err(NoMemory)
}
