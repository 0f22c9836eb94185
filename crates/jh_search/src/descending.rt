ghost use Rattle.std.specs.Prelude.{◌≡◌, ◌<◌, [], ℕ, IfNone, IfOk, IfSome, OnOk, drop};
ghost use Rattle.jh_closure.specs.congruence_closure.Nodes.{Has};
ghost use Rattle.jh_arena.specs.table.Nodes.{nodes};
ghost use Rattle.jh_models.specs.ground_models.Fixpoints.{IsFixpoint};
ghost use Rattle.jh_models.specs.ground_models.GroundModel.{IsGroundModel};
ghost use Rattle.jh_propagation.specs.trail.Listing.{IsUndecided};
ghost use Rattle.jh_propagation.specs.trail.Saying.{literals_at};
ghost use Rattle.jh_propagation.specs.propagation.Branches.{IsBranch, IsSaid, undecided_count};
ghost use Rattle.jh_propagation.specs.propagation.Problems.{instances_in};
ghost use Rattle.jh_propagation.specs.propagation.Resting.{IsAtRest};
ghost use Rattle.jh_search.specs.Searches.{IsAtLeaf, IsSearching};

use crate::deciding::{any_undecided, choose, denied};
use crate::turn::{Searching, Turn};
use crate::weights::Weights;
use jh_models::backjumping::search_goes_on;
use jh_models::ground_models::{fixpoint_is_open, whole_fixpoint_is_model};
use jh_name::NoMemory;
use jh_propagation::propagation::{Branch, Cause, Problem, decide, propagate_on};

/// The atom to decide next, where one isn't decided. Each atom before the index is decided.
fn next_atom(
    problem: &Problem,
    branch: &Branch,
    weights: &mut Weights,
    start: &mut usize,
) -> Result<Option<usize>, NoMemory>
    requires branch { IsBranch problem.now [] branch.now }
    ensures some { IfOk result (λ found. IfSome found (λ k. Has problem.now.ground.atoms k × IsUndecided branch.now.trail k)) }
    ensures none { IfOk result (λ found. IfNone found ((k : ℕ) → Has problem.now.ground.atoms k → IsSaid branch.now.trail k)) }
{
    match choose(problem, branch, weights)? {
        Some(atom) => Ok(Some(atom)),
        None => Ok(any_undecided(problem, branch, start)),
    }
}

/// Decides an atom: at first that it doesn't hold.
fn take(problem: &Problem, searching: &mut Searching, atom: usize) -> Result<(), NoMemory>
    requires searching { IsSearching problem.now searching.old }
    requires fixpoint { IsFixpoint (instances_in (nodes problem.now.table) problem.now) (literals_at (nodes problem.now.table) searching.old.branch.decisions.items) (literals_at (nodes problem.now.table) searching.old.branch.trail) }
    requires over { drop searching.old.branch.head searching.old.branch.waiting.items ≡ [] }
    requires atom { Has problem.now.ground.atoms atom }
    requires undecided { IsUndecided searching.old.branch.trail atom }
    ensures searching { OnOk result (IsSearching problem.now searching.new) }
    ensures table { OnOk result (searching.new.branch.classes.table ≡ searching.old.branch.classes.table) }
    ensures closed { OnOk result (searching.new.closed.items ≡ searching.old.closed.items) }
    ensures count { OnOk result (undecided_count problem.now searching.new.branch < undecided_count problem.now searching.old.branch) }
    ensures rested { OnOk result (IsAtRest problem.now searching.old.branch → IsAtRest problem.now searching.new.branch) }
{
    search_goes_on();
    fixpoint_is_open();
    problem.table.nodes_differ();
    let alloc = searching.branch.classes.table().alloc();
    let literal = denied(atom);
    let at = searching.branch.trail.len();
    decide(problem, &mut searching.branch, literal)?;
    searching.path.push(Turn {
        literal,
        at,
        is_second: false,
        needs: Vec::new(alloc),
    })?;
    Ok(())
}

/// Decides atoms until the branch is closed, or each atom is decided.
pub(crate) fn descend(
    problem: &Problem,
    searching: &mut Searching,
) -> Result<Option<Cause>, NoMemory>
    requires { IsSearching problem.now searching.old }
    ensures leaf { IfOk result (λ found. IfSome found (λ cause. IsAtLeaf problem.now searching.new cause)) }
    ensures model { IfOk result (λ found. IfNone found (IsGroundModel (instances_in (nodes problem.now.table) problem.now) (literals_at (nodes problem.now.table) searching.new.branch.trail))) }
    ensures table { OnOk result (searching.new.branch.classes.table ≡ searching.old.branch.classes.table) }
    ensures closed { OnOk result (searching.new.closed.items ≡ searching.old.closed.items) }
{
    whole_fixpoint_is_model();
    let mut rested = false;
    let mut start = 0;
    loop {
        if let Some(cause) = propagate_on(problem, &mut searching.branch, rested)? {
            return Ok(Some(cause));
        }
        match next_atom(
            problem,
            &searching.branch,
            &mut searching.weights,
            &mut start,
        )? {
            Some(atom) => take(problem, searching, atom)?,
            None => return Ok(None),
        }
        rested = true;
    }
}
