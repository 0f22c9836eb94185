ghost use Rattle.std.specs.Prelude.{◌≡◌, ◌<◌, [], ℕ, Bool, IfNone, IfSome, OnOk, Some, false, length, slice_get};
ghost use Rattle.jh_closure.specs.congruence_closure.Nodes.{Has};
ghost use Rattle.jh_arena.specs.table.Nodes.{nodes};
ghost use Rattle.jh_models.specs.ground_models.Atoms.{is_equality};
ghost use Rattle.jh_propagation.specs.trail.Listing.{IsUndecided, decided};
ghost use Rattle.jh_propagation.specs.trail.Saying.{truth_at};
ghost use Rattle.jh_propagation.specs.propagation.Branches.{IsBranch, IsLonger, Moved};
ghost use Rattle.jh_propagation.specs.propagation.Resting.{IsResting, IsUntold};
ghost use Rattle.jh_propagation.specs.propagation.Speaking.{IsTold, MayFollow};

use crate::propagation::branch::push;
use crate::propagation::speaking::named_sides;
use crate::propagation::{Branch, Problem, Reason};
use crate::trail::Decided;
use jh_name::NoMemory;

/// Whether it follows by equality that an atom that is no equation holds, or that it doesn't.
fn truth_follows(problem: &Problem, branch: &Branch, atom: usize) -> Option<bool>
    requires branch { IsBranch problem.now [] branch.now }
    requires atom { Has problem.now.ground.atoms atom }
    requires no_equation { is_equality (truth_at (nodes problem.now.table) atom) ≡ false }
    ensures some { IfSome result (λ holds. MayFollow (nodes problem.now.table) (decided atom holds) × IsTold (nodes branch.now.classes.table) (nodes problem.now.table) branch.now.classes.said (decided atom holds)) }
    ensures none { IfNone result ((holds : Bool) → IsUntold (nodes branch.now.classes.table) (nodes problem.now.table) branch.now.classes.said (decided atom holds)) }
{
    let name = problem.name(atom);
    if branch.classes.same(name, problem.yes) {
        Some(true)
    } else if branch.classes.same(name, problem.no) {
        Some(false)
    } else {
        None
    }
}

/// Whether it follows by equality that an atom holds, or that it doesn't. That an equation doesn't hold isn't asked.
fn follows(problem: &Problem, branch: &Branch, atom: usize) -> Option<bool>
    requires branch { IsBranch problem.now [] branch.now }
    requires atom { Has problem.now.ground.atoms atom }
    ensures some { IfSome result (λ holds. MayFollow (nodes problem.now.table) (decided atom holds) × IsTold (nodes branch.now.classes.table) (nodes problem.now.table) branch.now.classes.said (decided atom holds)) }
    ensures none { IfNone result ((holds : Bool) → MayFollow (nodes problem.now.table) (decided atom holds) → IsUntold (nodes branch.now.classes.table) (nodes problem.now.table) branch.now.classes.said (decided atom holds)) }
{
    match named_sides(branch.classes.table(), problem, atom) {
        Some((left, right)) => {
            if branch.classes.same(left, right) {
                Some(true)
            } else {
                None
            }
        }
        None => truth_follows(problem, branch, atom),
    }
}

/// Puts the literal of an atom that isn't decided to the trail where it follows by equality.
fn follow_new(problem: &Problem, branch: &mut Branch, atom: usize) -> Result<(), NoMemory>
    requires branch { IsBranch problem.now [] branch.old }
    requires atom { Has problem.now.ground.atoms atom }
    requires undecided { IsUndecided branch.old.trail atom }
    ensures branch { OnOk result (IsBranch problem.now [] branch.new) }
    ensures followed { OnOk result (IsResting problem.now branch.new atom) }
    ensures moved { OnOk result (Moved problem.now branch.old branch.new) }
    ensures longer { OnOk result (IsLonger branch.old branch.new) }
    ensures kept { OnOk result ((k : ℕ) → IsResting problem.now branch.old k → IsResting problem.now branch.new k) }
    ensures classes { OnOk result (branch.new.classes ≡ branch.old.classes) }
    ensures head { OnOk result (branch.new.head ≡ branch.old.head) }
    ensures decisions { OnOk result (branch.new.decisions.items ≡ branch.old.decisions.items) }
{
    match follows(problem, branch, atom) {
        Some(holds) => {
            let count = branch.classes.len();
            push(
                problem,
                branch,
                Decided { atom, holds },
                Reason::Equality(count),
            )
        }
        None => Ok(()),
    }
}

/// Puts the literal of an atom to the trail where it follows by equality and isn't decided yet.
fn follow_one(problem: &Problem, branch: &mut Branch, atom: usize) -> Result<(), NoMemory>
    requires branch { IsBranch problem.now [] branch.old }
    requires atom { Has problem.now.ground.atoms atom }
    ensures branch { OnOk result (IsBranch problem.now [] branch.new) }
    ensures followed { OnOk result (IsResting problem.now branch.new atom) }
    ensures moved { OnOk result (Moved problem.now branch.old branch.new) }
    ensures longer { OnOk result (IsLonger branch.old branch.new) }
    ensures kept { OnOk result ((k : ℕ) → IsResting problem.now branch.old k → IsResting problem.now branch.new k) }
    ensures classes { OnOk result (branch.new.classes ≡ branch.old.classes) }
    ensures head { OnOk result (branch.new.head ≡ branch.old.head) }
    ensures decisions { OnOk result (branch.new.decisions.items ≡ branch.old.decisions.items) }
{
    match branch.trail.said(atom) {
        Some(_holds) => Ok(()),
        None => follow_new(problem, branch, atom),
    }
}

/// The atom at a place of a list.
fn atom_at(atoms: &[usize], index: usize) -> usize
    requires { index < length atoms.now }
    ensures { slice_get atoms.now index ≡ Some result }
{
    atoms[index]
}

/// Puts the literals to the trail that follow by equality from what the classes were told.
pub(crate) fn follow(problem: &Problem, branch: &mut Branch) -> Result<(), NoMemory>
    requires branch { IsBranch problem.now [] branch.old }
    ensures branch { OnOk result (IsBranch problem.now [] branch.new) }
    ensures followed { OnOk result ((k : ℕ) → Has problem.now.ground.atoms k → IsResting problem.now branch.new k) }
    ensures moved { OnOk result (Moved problem.now branch.old branch.new) }
    ensures longer { OnOk result (IsLonger branch.old branch.new) }
    ensures classes { OnOk result (branch.new.classes ≡ branch.old.classes) }
    ensures head { OnOk result (branch.new.head ≡ branch.old.head) }
    ensures decisions { OnOk result (branch.new.decisions.items ≡ branch.old.decisions.items) }
{
    let atoms = problem.ground.atoms();
    for index in 0..atoms.len() {
        follow_one(problem, branch, atom_at(atoms, index))?;
    }
    Ok(())
}
