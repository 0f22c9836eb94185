ghost use Rattle.std.specs.Prelude.{◌≡◌, [], ℕ, OnOk, take};
ghost use Rattle.jh_closure.specs.congruence_closure.Nodes.{Has};
ghost use Rattle.jh_arena.specs.table.Nodes.{nodes};
ghost use Rattle.jh_models.specs.ground_models.GroundModel.{IsMet};
ghost use Rattle.jh_propagation.specs.declared.trail.decided.Decided.{Decided};
ghost use Rattle.jh_propagation.specs.trail.Saying.{literals_at};
ghost use Rattle.jh_propagation.specs.propagation.Branches.{IsBranch, parts_of};
ghost use Rattle.jh_propagation.specs.propagation.Levels.{IsLevel};
ghost use Rattle.jh_propagation.specs.propagation.Problems.{IsProblem};
ghost use Rattle.jh_propagation.specs.propagation.Speaking.{AreSpoken};

use crate::propagation::telling::spoken_from;
use crate::propagation::{Branch, Problem};
use jh_cong::classes::CongError;
use jh_name::NoMemory;

/// Leaves the first decisions and the first literals of the trail. No instance waits, and the classes know nothing.
fn shorten(branch: &mut Branch, count: usize, at: usize)
    ensures decisions { branch.new.decisions.items ≡ take count branch.old.decisions.items }
    ensures trail { branch.new.trail ≡ take at branch.old.trail }
    ensures reasons { branch.new.reasons.items ≡ take at branch.old.reasons.items }
    ensures waiting { branch.new.waiting.items ≡ [] }
    ensures head { branch.new.head ≡ 0 }
    ensures classes { branch.new.classes ≡ record { table = branch.old.classes.table; said = [] } }
{
    branch.decisions.truncate(count);
    branch.trail.truncate(at);
    branch.reasons.truncate(at);
    branch.waiting.clear();
    branch.head = 0;
    branch.classes.undo(0);
}

/// Tells the classes, which know nothing, the trail, which some structure meets.
fn tell_again(problem: &Problem, branch: &mut Branch) -> Result<(), NoMemory>
    requires problem { IsProblem (nodes branch.old.classes.table) problem.now }
    requires atoms { (d : Decided) → Has branch.old.trail d → Has problem.now.ground.atoms d.atom }
    requires said { branch.old.classes.said ≡ [] }
    requires met { IsMet (literals_at (nodes problem.now.table) branch.old.trail) }
    ensures spoken { OnOk result (AreSpoken (nodes branch.old.classes.table) (nodes problem.now.table) branch.old.trail branch.new.classes.said) }
    ensures table { branch.new.classes.table ≡ branch.old.classes.table }
    ensures trail { branch.new.trail ≡ branch.old.trail }
    ensures reasons { branch.new.reasons ≡ branch.old.reasons }
    ensures waiting { branch.new.waiting ≡ branch.old.waiting }
    ensures head { branch.new.head ≡ branch.old.head }
    ensures decisions { branch.new.decisions ≡ branch.old.decisions }
{
    let table = branch.classes.table();
    let alloc = table.alloc();
    let said = spoken_from(problem, table, &branch.trail, 0)?;
    match branch.classes.assert(alloc, said.as_slice()) {
        Ok(()) => Ok(()),
        Err(CongError::Conflict(_)) => unreachable!(),
        Err(CongError::Memory) => Err(NoMemory),
    }
}

/// Takes a branch back to what it was before a decision: so many decisions are left, and so many literals of its trail. The time
/// is in proportion to these literals and what follows from them by equality.
pub fn cut(problem: &Problem, branch: &mut Branch, count: usize, at: usize) -> Result<(), NoMemory>
    requires problem { IsProblem (nodes branch.old.classes.table) problem.now }
    requires level { IsLevel problem.now (parts_of branch.old) count at }
    ensures branch { OnOk result (IsBranch problem.now [] branch.new) }
    ensures decisions { OnOk result (branch.new.decisions.items ≡ take count branch.old.decisions.items) }
    ensures trail { OnOk result (branch.new.trail ≡ take at branch.old.trail) }
    ensures reasons { OnOk result (branch.new.reasons.items ≡ take at branch.old.reasons.items) }
    ensures table { OnOk result (branch.new.classes.table ≡ branch.old.classes.table) }
{
    shorten(branch, count, at);
    tell_again(problem, branch)
}
