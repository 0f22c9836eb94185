ghost use Rattle.std.specs.Prelude.{◌≡◌, ◌⊎◌, ◌<◌, ◌≤◌, ◌++◌, [], ◌∷◌, List, IfNone, IfOk, IfSome, OnOk, Some, length, slice_get};
ghost use Rattle.jh_form.specs.Tree.{ValueTree};
ghost use Rattle.jh_closure.specs.congruence_closure.Nodes.{Has};
ghost use Rattle.jh_propagation.specs.declared.trail.decided.Decided.{Decided};
ghost use Rattle.jh_propagation.specs.declared.propagation.problem.Problem.{Problem};
ghost use Rattle.jh_search.specs.Joining.{AreJoined};
ghost use Rattle.jh_search.specs.Searches.{IsGoingBack, IsRetreat, IsStepBack};
ghost use Rattle.jh_search.specs.Levels.{IsTurnedFrom};
ghost use Rattle.jh_search.specs.declared.turn.ClosedBranch.{ClosedBranch};
ghost use Rattle.jh_search.specs.declared.turn.Retreat.TheVariants as retreat;
ghost use Rattle.jh_search.specs.declared.turn.Turn.{Turn};

use crate::turn::{Retreat, Turn};
use jh_explanations::{has, is_one};
use jh_models::backjumping::search_goes_back;
use jh_name::NoMemory;
use jh_propagation::trail::{Decided, opposite};
use std::alloc::Global;

/// Adds a literal of the first list unless it is the one that is left out.
fn add(made: &mut Vec<Decided>, item: Decided, out: Decided) -> Result<(), NoMemory>
    ensures only { OnOk result ((k : Decided) → Has made.new.items k → ((item ≡ k) × (out ≡ k → ⊥)) ⊎ Has made.old.items k) }
    ensures first { OnOk result ((out ≡ item) ⊎ Has made.new.items item) }
    ensures keeps { OnOk result ((k : Decided) → Has made.old.items k → Has made.new.items k) }
{
    if !is_one(item, out) {
        made.push(item)?;
    }
    Ok(())
}

/// The literal at a place.
fn literal_at(list: &[Decided], place: usize) -> Decided
    requires { place < length list.now }
    ensures { slice_get list.now place ≡ Some result }
{
    list[place]
}

/// The first list without a literal, and with the second one.
fn joined(
    alloc: Global,
    needs: &[Decided],
    literal: Decided,
    more: &[Decided],
) -> Result<Vec<Decided>, NoMemory>
    ensures { IfOk result (λ made. AreJoined needs.now literal more.now made.items) }
{
    let mut made = Vec::from_slice(alloc, more)?;
    for place in 0..needs.len() {
        add(&mut made, literal_at(needs, place), literal)?;
    }
    Ok(made)
}

/// Goes back over the newest decision, unless it is a first side that is needed: then it is turned round, or the budget is spent.
fn step_back(
    alloc: Global,
    path: &mut Vec<Turn>,
    turn: Turn,
    needs: &mut Vec<Decided>,
    count: usize,
    leaves: usize,
) -> Result<Option<Retreat>, NoMemory>
    requires { count ≤ leaves }
    ensures back { IfOk result (λ back. (ts : List ValueTree) (p : Problem) (closed : List ClosedBranch) → length closed ≡ count → IsGoingBack ts p (path.old.items ++ turn ∷ []) closed needs.old.items → IsStepBack ts p path.new.items closed needs.new.items leaves back) }
    ensures path { IfOk result (λ back. IfNone back (path.new.items ≡ path.old.items)) }
    ensures turned { IfOk result (λ back. back ≡ Some retreat.Turned → (after : Turn) × ((path.new.items ≡ path.old.items ++ after ∷ []) × ((after.literal.atom ≡ turn.literal.atom) × (after.at ≡ turn.at)))) }
{
    search_goes_back();
    if !has(needs.as_slice(), turn.literal) {
        return Ok(None);
    }
    if turn.is_second {
        *needs = joined(alloc, needs.as_slice(), turn.literal, turn.needs.as_slice())?;
        return Ok(None);
    }
    if count >= leaves {
        return Ok(Some(Retreat::Spent));
    }
    let rest = joined(alloc, needs.as_slice(), turn.literal, &[])?;
    path.push(Turn {
        literal: opposite(turn.literal),
        at: turn.at,
        is_second: true,
        needs: rest,
    })?;
    Ok(Some(Retreat::Turned))
}

/// Takes the newest decision off the path.
fn newest(path: &mut Vec<Turn>) -> Option<Turn>
    ensures some { IfSome result (λ turn. path.old.items ≡ path.new.items ++ turn ∷ []) }
    ensures none { IfNone result (path.old.items ≡ []) }
{
    path.pop()
}

/// Goes back to the newest decision that is needed and whose other side wasn't searched, and turns it round.
pub(crate) fn go_back(
    alloc: Global,
    path: &mut Vec<Turn>,
    needs: Vec<Decided>,
    count: usize,
    leaves: usize,
) -> Result<Retreat, NoMemory>
    requires { count ≤ leaves }
    ensures retreat { IfOk result (λ back. (ts : List ValueTree) (p : Problem) (closed : List ClosedBranch) → length closed ≡ count → IsGoingBack ts p path.old.items closed needs.items → IsRetreat ts p path.new.items closed leaves back) }
    ensures turned { IfOk result (λ back. back ≡ retreat.Turned → IsTurnedFrom path.old.items path.new.items) }
{
    search_goes_back();
    let mut needs = needs;
    while let Some(turn) = newest(path) {
        if let Some(back) = step_back(alloc, path, turn, &mut needs, count, leaves)? {
            return Ok(back);
        }
    }
    Ok(Retreat::Finished)
}
