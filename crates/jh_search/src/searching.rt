ghost use Rattle.std.specs.Prelude.{◌≡◌, ◌<◌, ◌≤◌, ◌+◌, [], IfNone, IfOk, IfSome, OnOk, Some, length, slice_get};
ghost use Rattle.jh_arena.specs.table.Nodes.{nodes};
ghost use Rattle.jh_propagation.specs.propagation.Problems.{IsProblem};
ghost use Rattle.jh_search.specs.Outcomes.{IsFound, IsLeft};
ghost use Rattle.jh_search.specs.Paths.{decisions_of};
ghost use Rattle.jh_propagation.specs.propagation.Branches.{parts_of};
ghost use Rattle.jh_search.specs.Levels.{AreLevels};
ghost use Rattle.jh_search.specs.Searches.{IsAtLeaf, IsBehind, IsGoingBack, IsSearching};

use crate::closing::close;
use crate::descending::descend;
use crate::returning::go_back;
use crate::turn::{Found, Retreat, Searching, Turn};
use crate::weights::Weights;
use jh_cong::classes::Classes;
use jh_models::backjumping::search_goes_on;
use jh_name::NoMemory;
use jh_propagation::propagation::{Cause, Problem, begin, cut, decide};
use jh_propagation::trail::Decided;

/// The turn at a place.
fn turn_at(path: &[Turn], place: usize) -> &Turn
    requires { place < length path.now }
    ensures { slice_get path.now place ≡ Some result.now }
{
    &path[place]
}

/// Takes the branch back to the decision that was turned round, and decides the other side.
fn resume(problem: &Problem, searching: &mut Searching) -> Result<(), NoMemory>
    requires { IsBehind problem.now searching.old }
    ensures searching { OnOk result (IsSearching problem.now searching.new) }
    ensures table { OnOk result (searching.new.branch.classes.table ≡ searching.old.branch.classes.table) }
    ensures closed { OnOk result (searching.new.closed.items ≡ searching.old.closed.items) }
{
    searching.branch.trail.decides_once();
    let path = searching.path.as_slice();
    let count = path.len() - 1;
    let turn = turn_at(path, count);
    let literal = turn.literal;
    let at = turn.at;
    cut(problem, &mut searching.branch, count, at)?;
    decide(problem, &mut searching.branch, literal)
}

/// A search that begins, in which nothing is decided yet.
pub fn start_search(problem: &Problem, classes: Classes) -> Result<Searching, NoMemory>
    requires problem { IsProblem (nodes classes.table) problem.now }
    requires said { classes.said ≡ [] }
    ensures searching { IfOk result (λ made. IsSearching problem.now made) }
    ensures path { IfOk result (λ made. made.path.items ≡ []) }
    ensures closed { IfOk result (λ made. made.closed.items ≡ []) }
    ensures table { IfOk result (λ made. made.branch.classes.table ≡ classes.table) }
{
    search_goes_on();
    let alloc = classes.table().alloc();
    let weights = Weights::none(alloc, problem)?;
    Ok(Searching {
        branch: begin(problem, classes)?,
        path: Vec::new(alloc),
        closed: Vec::new(alloc),
        weights,
    })
}

/// Goes back from a closed branch to the next one, where there is one.
fn leave(
    problem: &Problem,
    searching: &mut Searching,
    needs: Vec<Decided>,
    leaves: usize,
) -> Result<Retreat, NoMemory>
    requires back { IsGoingBack (nodes problem.now.table) problem.now searching.old.path.items searching.old.closed.items needs.items }
    requires room { length searching.old.closed.items ≤ leaves }
    requires problem { IsProblem (nodes searching.old.branch.classes.table) problem.now }
    requires path { searching.old.branch.decisions.items ≡ decisions_of searching.old.path.items }
    requires levels { AreLevels problem.now (parts_of searching.old.branch) searching.old.path.items }
    ensures left { IfOk result (λ back. IsLeft problem.now leaves searching.new back) }
    ensures table { OnOk result (searching.new.branch.classes.table ≡ searching.old.branch.classes.table) }
    ensures closed { OnOk result (searching.new.closed.items ≡ searching.old.closed.items) }
{
    let alloc = searching.branch.classes.table().alloc();
    let count = searching.closed.as_slice().len();
    match go_back(alloc, &mut searching.path, needs, count, leaves)? {
        Retreat::Turned => {
            resume(problem, searching)?;
            Ok(Retreat::Turned)
        }
        Retreat::Finished => Ok(Retreat::Finished),
        Retreat::Spent => Ok(Retreat::Spent),
    }
}

/// Closes the branch of the search, and goes back from it.
fn turn_back(
    problem: &Problem,
    searching: &mut Searching,
    cause: &Cause,
    leaves: usize,
) -> Result<Retreat, NoMemory>
    requires leaf { IsAtLeaf problem.now searching.old cause.now }
    requires room { length searching.old.closed.items < leaves }
    ensures left { IfOk result (λ back. IsLeft problem.now leaves searching.new back) }
    ensures table { OnOk result (searching.new.branch.classes.table ≡ searching.old.branch.classes.table) }
    ensures count { OnOk result (length searching.new.closed.items ≡ length searching.old.closed.items + 1) }
{
    let needs = close(problem, searching, cause)?;
    leave(problem, searching, needs, leaves)
}

/// Goes down to the end of a branch, and back from it where it is closed: the search ends there, or goes on.
fn turn(
    problem: &Problem,
    searching: &mut Searching,
    leaves: usize,
) -> Result<Option<Found>, NoMemory>
    requires searching { IsSearching problem.now searching.old }
    requires room { length searching.old.closed.items < leaves }
    ensures ended { IfOk result (λ found. IfSome found (λ end. IsFound problem.now leaves searching.new end)) }
    ensures goes_on { IfOk result (λ found. IfNone found (IsSearching problem.now searching.new)) }
    ensures few { IfOk result (λ found. IfNone found (length searching.new.closed.items < leaves)) }
    ensures count { IfOk result (λ found. IfNone found (length searching.new.closed.items ≡ length searching.old.closed.items + 1)) }
    ensures table { OnOk result (searching.new.branch.classes.table ≡ searching.old.branch.classes.table) }
{
    match descend(problem, searching)? {
        None => Ok(Some(Found::Model)),
        Some(cause) => {
            match turn_back(problem, searching, &cause, leaves)? {
                Retreat::Finished => Ok(Some(Found::NoModel)),
                Retreat::Spent => Ok(Some(Found::Spent)),
                Retreat::Turned => Ok(None),
            }
        }
    }
}

/// Searches on for a ground model of the instances, and gives up where so many branches are closed. After want of memory the search
/// is of no use.
pub fn search(
    problem: &Problem,
    searching: &mut Searching,
    leaves: usize,
) -> Result<Found, NoMemory>
    requires searching { IsSearching problem.now searching.old }
    requires room { length searching.old.closed.items < leaves }
    ensures ended { IfOk result (λ end. IsFound problem.now leaves searching.new end) }
    ensures table { OnOk result (searching.new.branch.classes.table ≡ searching.old.branch.classes.table) }
{
    loop {
        if let Some(end) = turn(problem, searching, leaves)? {
            return Ok(end);
        }
    }
}
