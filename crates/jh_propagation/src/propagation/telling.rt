ghost use Rattle.std.specs.Prelude.{◌≡◌, [], ℕ, IfNone, IfOk, IfSome, OnOk, drop, length, take};
ghost use Rattle.jh_closure.specs.congruence_closure.Nodes.{Has};
ghost use Rattle.jh_arena.specs.table.Nodes.{nodes};
ghost use Rattle.jh_cong.specs.classes.Saying.{IsUnmet};
ghost use Rattle.jh_propagation.specs.declared.trail.decided.Decided.{Decided};
ghost use Rattle.jh_propagation.specs.propagation.Branches.{IsBranch};
ghost use Rattle.jh_propagation.specs.propagation.Closings.{AreUnmet};
ghost use Rattle.jh_propagation.specs.propagation.Problems.{IsProblem};
ghost use Rattle.jh_propagation.specs.propagation.Speaking.{AreSpoken};

use crate::propagation::speaking::spoken;
use crate::propagation::{Branch, Problem};
use crate::trail::Trail;
use jh_arena::table::Table;
use jh_cong::classes::{CongError, Said};
use jh_name::{NoMemory, Row};

/// What the classes are to be told of the literals of the trail from a place on.
pub(crate) fn spoken_from(
    problem: &Problem,
    table: &Table,
    trail: &Trail,
    start: usize,
) -> Result<Vec<Said>, NoMemory>
    requires problem { IsProblem (nodes table.now) problem.now }
    requires atoms { (d : Decided) → Has trail.now d → Has problem.now.ground.atoms d.atom }
    ensures { IfOk result (λ made. AreSpoken (nodes table.now) (nodes problem.now.table) (drop start trail.now) made.items) }
{
    let mut batch = Vec::new(table.alloc());
    for place in start..trail.len() {
        batch.push(spoken(table, problem, trail.literal(place)))?;
    }
    Ok(batch)
}

/// What the classes are to be told of the literals that they don't know yet.
fn untold(problem: &Problem, branch: &Branch) -> Result<Vec<Said>, NoMemory>
    requires branch { IsBranch problem.now [] branch.now }
    ensures { IfOk result (λ made. AreSpoken (nodes branch.now.classes.table) (nodes problem.now.table) (drop (length branch.now.classes.said) branch.now.trail) made.items) }
{
    spoken_from(
        problem,
        branch.classes.table(),
        &branch.trail,
        branch.classes.len(),
    )
}

/// Tells the classes all literals that they don't know yet. Where no structure meets them, the answer has places of literals that
/// none meets, and the classes are as they were.
pub(crate) fn tell(problem: &Problem, branch: &mut Branch) -> Result<Option<Row<usize>>, NoMemory>
    requires branch { IsBranch problem.now [] branch.old }
    ensures branch { OnOk result (IsBranch problem.now [] branch.new) }
    ensures told { IfOk result (λ found. IfNone found (length branch.new.classes.said ≡ length branch.new.trail)) }
    ensures met { IfOk result (λ found. IfNone found (IsUnmet (nodes branch.new.classes.table) branch.new.classes.said → ⊥)) }
    ensures grows { IfOk result (λ found. IfNone found (take (length branch.old.classes.said) branch.new.classes.said ≡ branch.old.classes.said)) }
    ensures unmet { IfOk result (λ found. IfSome found (λ places. AreUnmet (nodes problem.now.table) branch.new.trail places)) }
    ensures table { branch.new.classes.table ≡ branch.old.classes.table }
    ensures trail { branch.new.trail ≡ branch.old.trail }
    ensures reasons { branch.new.reasons.items ≡ branch.old.reasons.items }
    ensures waiting { branch.new.waiting.items ≡ branch.old.waiting.items }
    ensures head { branch.new.head ≡ branch.old.head }
    ensures decisions { branch.new.decisions.items ≡ branch.old.decisions.items }
{
    let alloc = branch.classes.table().alloc();
    let batch = untold(problem, branch)?;
    match branch.classes.assert(alloc, batch.as_slice()) {
        Ok(()) => Ok(None),
        Err(CongError::Conflict(places)) => Ok(Some(places)),
        Err(CongError::Memory) => Err(NoMemory),
    }
}
