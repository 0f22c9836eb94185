ghost use Rattle.std.specs.Prelude.{◌≤◌, ℕ, IfNone, IfOk, IfSome};
ghost use Rattle.jh_digits.specs.systems.Solution.{HasColumns, IsSolution, spelled};
ghost use Rattle.jh_digits.specs.systems.Nodes.{node_count, node_limit};
ghost use Rattle.jh_digits.specs.systems.Answers.{IfNoSolution, IfSolution, IfTooLarge};

use crate::systems::System;
use crate::systems::system::{Digits, Solved};
use jh_name::NoMemory;

/// What is said of a system of at most the limit's nodes, where this was found: digits that solve it, or none where there
/// are none.
pub fn told(_system: &System, found: Result<Option<Digits>, NoMemory>) -> Solved
    requires small { node_count _system.now ≤ node_limit }
    requires columns { IfOk found (λ found. IfSome found (λ digits. HasColumns _system.now.columns digits.layers)) }
    requires solution { IfOk found (λ found. IfSome found (λ digits. IsSolution _system.now (spelled digits.layers))) }
    requires none { IfOk found (λ found. IfNone found ((v : ℕ → ℕ) → ¬ IsSolution _system.now v)) }
    ensures solution { IfSolution _system.now result }
    ensures no_solution { IfNoSolution _system.now result }
    ensures too_large { IfTooLarge _system.now result }
{
    match found {
        Ok(Some(digits)) => Solved::Solution(digits),
        Ok(None) => Solved::NoSolution,
        Err(_) => Solved::Memory,
    }
}
