ghost use Rattle.std.specs.Prelude.{◌≡◌, ◌<◌, ◌↔◌, ◌⊎◌, ◌≢◌, ℕ, IfOk, IsTrue, OnOk, Some, length, slice_get};
ghost use Rattle.jh_closure.specs.congruence_closure.Nodes.{Follows, Has};
ghost use Rattle.jh_closure.specs.declared.congruence_closure.equation.Equation.{Equation};

use jh_closure::congruence_closure::{Closure, Equation};
use jh_name::NoMemory;
use std::alloc::Global;

/// The equation at a place.
fn asked_at(asked: &[Equation], place: usize) -> Equation
    requires { place < length asked.now }
    ensures { slice_get asked.now place ≡ Some result }
{
    asked[place]
}

/// Adds a number where the equality of two nodes follows.
fn add_where(
    closure: &Closure,
    equation: Equation,
    number: usize,
    listed: &mut Vec<usize>,
) -> Result<(), NoMemory>
    requires left { equation.left < length closure.now.nodes }
    requires right { equation.right < length closure.now.nodes }
    ensures added { OnOk result (Follows closure.now.nodes closure.now.said equation.left equation.right → Has listed.new.items number) }
    ensures keeps { OnOk result ((i : ℕ) → Has listed.old.items i → Has listed.new.items i) }
    ensures only { OnOk result ((i : ℕ) → Has listed.new.items i → Has listed.old.items i ⊎ ((number ≡ i) × Follows closure.now.nodes closure.now.said equation.left equation.right)) }
{
    if closure.same(equation.left, equation.right) {
        listed.push(number)?;
    }
    Ok(())
}

/// The numbers of the equations that follow.
pub(crate) fn following(
    alloc: Global,
    closure: &Closure,
    asked: &[Equation],
) -> Result<Vec<usize>, NoMemory>
    requires left { (e : Equation) → Has asked.now e → e.left < length closure.now.nodes }
    requires right { (e : Equation) → Has asked.now e → e.right < length closure.now.nodes }
    ensures all { IfOk result (λ listed. (i : ℕ) (e : Equation) → slice_get asked.now i ≡ Some e → Follows closure.now.nodes closure.now.said e.left e.right → Has listed.items i) }
    ensures only { IfOk result (λ listed. (i : ℕ) (e : Equation) → Has listed.items i → slice_get asked.now i ≡ Some e → Follows closure.now.nodes closure.now.said e.left e.right) }
    ensures inside { IfOk result (λ listed. (i : ℕ) → Has listed.items i → i < length asked.now) }
{
    let mut listed = Vec::new(alloc);
    for place in 0..asked.len() {
        add_where(closure, asked_at(asked, place), place, &mut listed)?;
    }
    Ok(listed)
}
