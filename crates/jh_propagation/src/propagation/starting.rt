ghost use Rattle.std.specs.Prelude.{◌≡◌, ◌<◌, ◌↔◌, [], ℕ, IfOk, length};
ghost use Rattle.jh_closure.specs.congruence_closure.Nodes.{Has};
ghost use Rattle.jh_arena.specs.table.Nodes.{nodes};
ghost use Rattle.jh_propagation.specs.propagation.Branches.{IsBranch};
ghost use Rattle.jh_propagation.specs.propagation.Problems.{IsProblem};

use crate::propagation::{Branch, Problem};
use crate::trail::Trail;
use jh_cong::classes::Classes;
use jh_name::NoMemory;
use std::alloc::Global;

/// So many places.
fn places(alloc: Global, count: usize) -> Result<Vec<usize>, NoMemory>
    ensures { IfOk result (λ made. (j : ℕ) → Has made.items j ↔ (j < count)) }
{
    let mut made = Vec::new(alloc);
    for place in 0..count {
        made.push(place)?;
    }
    Ok(made)
}

/// A branch in which nothing is decided, over classes that were told nothing.
pub fn begin(problem: &Problem, classes: Classes) -> Result<Branch, NoMemory>
    requires problem { IsProblem (nodes classes.table) problem.now }
    requires said { classes.said ≡ [] }
    ensures branch { IfOk result (λ made. IsBranch problem.now [] made) }
    ensures classes { IfOk result (λ made. made.classes ≡ classes) }
    ensures decisions { IfOk result (λ made. made.decisions.items ≡ []) }
    ensures trail { IfOk result (λ made. made.trail ≡ []) }
{
    let alloc = classes.table().alloc();
    let waiting = places(alloc, problem.instances.as_slice().len())?;
    Ok(Branch {
        decisions: Vec::new(alloc),
        classes,
        trail: Trail::new(alloc),
        reasons: Vec::new(alloc),
        waiting,
        head: 0,
    })
}
