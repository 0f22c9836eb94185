ghost use Rattle.std.specs.Prelude.{◌≡◌, ◌<◌, ◌≤◌, [], ℕ, List, IfNone, IfOk, IfSome, OnOk, drop, false, length, take, true};
ghost use Rattle.jh_arena.specs.table.Nodes.{nodes};
ghost use Rattle.jh_cong.specs.classes.Saying.{CanBeSaid, Entails, IsUnmet};
ghost use Rattle.jh_models.specs.ground_models.Fixpoints.{IsFixpoint};
ghost use Rattle.jh_propagation.specs.trail.Saying.{literals_at};
ghost use Rattle.jh_propagation.specs.propagation.Branches.{IsBranch, IsLonger, undecided_count};
ghost use Rattle.jh_propagation.specs.propagation.Closings.{IsCause};
ghost use Rattle.jh_propagation.specs.propagation.Passing.{GoesOn, IsFixed, IsMore, IsPassed};
ghost use Rattle.jh_propagation.specs.propagation.Problems.{instances_in};
ghost use Rattle.jh_propagation.specs.propagation.Resting.{IsAtRest};

use crate::propagation::following::follow;
use crate::propagation::settling::settle;
use crate::propagation::telling::tell;
use crate::propagation::{Branch, Cause, Problem};
use jh_name::NoMemory;

/// What a pass over all rules comes to.
#[derive(Drop)]
enum Passed {
    Closed(Cause),
    More,
    Fixed,
}

/// Whether a branch was at rest, and nothing more follows than from the first so many literals that the classes were told.
fn is_quiet(branch: &Branch, rested: bool, known: usize) -> bool
    ensures rested { result ≡ true → rested ≡ true }
    ensures enough { result ≡ true → (a b : ℕ) → CanBeSaid (nodes branch.now.classes.table) a b → Entails (nodes branch.now.classes.table) branch.now.classes.said a b → Entails (nodes branch.now.classes.table) (take known branch.now.classes.said) a b }
{
    if !rested {
        return false;
    }
    let enough = branch.classes.enough();
    if enough > known {
        return false;
    }
    true
}

/// Puts to the trail what follows by equality, where nothing waits and the classes know the whole trail. The answer is whether
/// nothing was put. Where it is known that the branch is at rest nothing is looked at.
fn is_fixed(problem: &Problem, branch: &mut Branch, quiet: bool) -> Result<bool, NoMemory>
    requires branch { IsBranch problem.now [] branch.old }
    requires over { drop branch.old.head branch.old.waiting.items ≡ [] }
    requires told { length branch.old.classes.said ≡ length branch.old.trail }
    requires met { IsUnmet (nodes branch.old.classes.table) branch.old.classes.said → ⊥ }
    requires quiet { quiet ≡ true → IsAtRest problem.now branch.old }
    ensures goes { OnOk result (GoesOn problem.now branch.old branch.new) }
    ensures fixed { IfOk result (λ fixed. fixed ≡ true → IsFixed problem.now branch.new) }
    ensures more { IfOk result (λ fixed. fixed ≡ false → IsMore problem.now branch.old branch.new) }
{
    if quiet {
        return Ok(true);
    }
    let count = branch.trail.len();
    follow(problem, branch)?;
    Ok(branch.trail.len() == count)
}

/// Looks at the instances that wait, tells the classes what was found, and puts to the trail what follows by equality.
fn pass(problem: &Problem, branch: &mut Branch, rested: bool) -> Result<Passed, NoMemory>
    requires branch { IsBranch problem.now [] branch.old }
    requires rested { rested ≡ true → IsAtRest problem.now branch.old }
    ensures { IfOk result (λ passed. IsPassed problem.now branch.old branch.new passed) }
{
    let known = branch.classes.len();
    if let Some(place) = settle(problem, branch)? {
        return Ok(Passed::Closed(Cause::Instance(place)));
    }
    if let Some(places) = tell(problem, branch)? {
        return Ok(Passed::Closed(Cause::Equality(places)));
    }
    let quiet = is_quiet(branch, rested, known);
    if is_fixed(problem, branch, quiet)? {
        Ok(Passed::Fixed)
    } else {
        Ok(Passed::More)
    }
}

/// Adds to the trail all that propagation adds to the decisions. The answer is why the branch is closed, where it is; where it
/// isn't, nothing more can be added, and the branch is at rest. Where it is known to be at rest before, all atoms are looked at only
/// once more follows.
pub fn propagate_on(
    problem: &Problem,
    branch: &mut Branch,
    rested: bool,
) -> Result<Option<Cause>, NoMemory>
    requires branch { IsBranch problem.now [] branch.old }
    requires rested { rested ≡ true → IsAtRest problem.now branch.old }
    ensures fixpoint { IfOk result (λ found. IfNone found (IsFixpoint (instances_in (nodes problem.now.table) problem.now) (literals_at (nodes problem.now.table) branch.new.decisions.items) (literals_at (nodes problem.now.table) branch.new.trail))) }
    ensures branch { IfOk result (λ found. IfNone found (IsBranch problem.now [] branch.new)) }
    ensures over { IfOk result (λ found. IfNone found (drop branch.new.head branch.new.waiting.items ≡ [])) }
    ensures rested { IfOk result (λ found. IfNone found (IsAtRest problem.now branch.new)) }
    ensures cause { IfOk result (λ found. IfSome found (λ cause. IsCause (nodes problem.now.table) problem.now branch.new.trail cause)) }
    ensures closed { IfOk result (λ found. IfSome found (λ cause. (busy : List ℕ) × IsBranch problem.now busy branch.new)) }
    ensures table { OnOk result (branch.new.classes.table ≡ branch.old.classes.table) }
    ensures decisions { OnOk result (branch.new.decisions.items ≡ branch.old.decisions.items) }
    ensures longer { OnOk result (IsLonger branch.old branch.new) }
    ensures count { OnOk result (undecided_count problem.now branch.new ≤ undecided_count problem.now branch.old) }
{
    let mut rested = rested;
    loop {
        match pass(problem, branch, rested)? {
            Passed::Closed(cause) => return Ok(Some(cause)),
            Passed::More => rested = true,
            Passed::Fixed => return Ok(None),
        }
    }
}
