ghost use Rattle.std.specs.Prelude.{◌≡◌, ◌<◌, ◌≤◌, ℕ, IfNone, IfOk, IfSome, Some, false, length, slice_get, true};
ghost use Rattle.jh_closure.specs.congruence_closure.Nodes.{Follows, Has};
ghost use Rattle.jh_arena.specs.table.Nodes.{nodes};
ghost use Rattle.jh_cong.specs.classes.Saying.{IsUnmet, picked};
ghost use Rattle.jh_cong.specs.classes.States.{AreDenied, AreListed, AreSeparate, IsLooked, IsState, IsTold};
ghost use Rattle.jh_cong.specs.declared.classes.literal.Said.{Said};
ghost use Rattle.jh_closure.specs.declared.congruence_closure.equation.Equation.{Equation};

use crate::classes::Said;
use crate::classes::state::State;
use jh_closure::congruence_closure::{Closure, Equation};
use jh_name::NoMemory;
use std::alloc::Global;

/// The pair at a place.
fn pair_at(pairs: &[Equation], place: usize) -> Equation
    requires { place < length pairs.now }
    ensures { slice_get pairs.now place ≡ Some result }
{
    pairs[place]
}

/// The literal at a place.
pub(crate) fn said_at(said: &[Said], place: usize) -> Said
    requires { place < length said.now }
    ensures { slice_get said.now place ≡ Some result }
{
    said[place]
}

/// The first of the pairs that are apart from the start whose nodes are equal.
fn first_apart(closure: &Closure, pairs: &[Equation]) -> Option<Equation>
    requires left { (e : Equation) → Has pairs.now e → e.left < length closure.now.nodes }
    requires right { (e : Equation) → Has pairs.now e → e.right < length closure.now.nodes }
    ensures some { IfSome result (λ e. Has pairs.now e × Follows closure.now.nodes closure.now.said e.left e.right) }
    ensures none { IfNone result (AreSeparate closure.now.nodes closure.now.said pairs.now) }
{
    for place in 0..pairs.len() {
        let pair = pair_at(pairs, place);
        if closure.same(pair.left, pair.right) {
            return Some(pair);
        }
    }
    None
}

/// Whether a literal says that two nodes differ that are equal.
fn is_broken(closure: &Closure, said: Said) -> bool
    requires left { said.left < length closure.now.nodes }
    requires right { said.right < length closure.now.nodes }
    ensures broken { result ≡ true → (said.holds ≡ false) × Follows closure.now.nodes closure.now.said said.left said.right }
    ensures kept { result ≡ false → said.holds ≡ false → Follows closure.now.nodes closure.now.said said.left said.right → ⊥ }
{
    !said.holds && closure.same(said.left, said.right)
}

/// Whether there is a literal of this number that says that two nodes differ that are equal.
fn is_broken_at(closure: &Closure, said: &[Said], place: usize) -> bool
    requires left { (e : Said) → Has said.now e → e.left < length closure.now.nodes }
    requires right { (e : Said) → Has said.now e → e.right < length closure.now.nodes }
    ensures inside { result ≡ true → place < length said.now }
    ensures broken { result ≡ true → (e : Said) → slice_get said.now place ≡ Some e → (e.holds ≡ false) × Follows closure.now.nodes closure.now.said e.left e.right }
    ensures kept { result ≡ false → (e : Said) → slice_get said.now place ≡ Some e → e.holds ≡ false → Follows closure.now.nodes closure.now.said e.left e.right → ⊥ }
{
    if place >= said.len() {
        return false;
    }
    is_broken(closure, said_at(said, place))
}

/// The number at a place.
pub(crate) fn number_at(numbers: &[usize], place: usize) -> usize
    requires { place < length numbers.now }
    ensures { slice_get numbers.now place ≡ Some result }
{
    numbers[place]
}

/// The number of the first literal that says that two nodes differ that are equal, of those whose numbers are listed.
fn first_broken(closure: &Closure, said: &[Said], denied: &[usize]) -> Option<usize>
    requires left { (e : Said) → Has said.now e → e.left < length closure.now.nodes }
    requires right { (e : Said) → Has said.now e → e.right < length closure.now.nodes }
    requires listed { AreListed said.now denied.now }
    ensures inside { IfSome result (λ k. k < length said.now) }
    ensures some { IfSome result (λ k. (e : Said) → slice_get said.now k ≡ Some e → (e.holds ≡ false) × Follows closure.now.nodes closure.now.said e.left e.right) }
    ensures none { IfNone result (AreDenied closure.now.nodes closure.now.said said.now) }
{
    for index in 0..denied.len() {
        let place = number_at(denied, index);
        if is_broken_at(closure, said, place) {
            return Some(place);
        }
    }
    None
}

/// The number of the first literal that says that two nodes differ that are equal, where none of the first so many does.
fn first_new(closure: &Closure, said: &[Said], start: usize) -> Option<usize>
    requires left { (e : Said) → Has said.now e → e.left < length closure.now.nodes }
    requires right { (e : Said) → Has said.now e → e.right < length closure.now.nodes }
    requires count { start ≤ length said.now }
    requires before { (k : ℕ) (e : Said) → k < start → slice_get said.now k ≡ Some e → e.holds ≡ false → Follows closure.now.nodes closure.now.said e.left e.right → ⊥ }
    ensures inside { IfSome result (λ k. k < length said.now) }
    ensures some { IfSome result (λ k. (e : Said) → slice_get said.now k ≡ Some e → (e.holds ≡ false) × Follows closure.now.nodes closure.now.said e.left e.right) }
    ensures none { IfNone result (AreDenied closure.now.nodes closure.now.said said.now) }
{
    for place in start..said.len() {
        if is_broken_at(closure, said, place) {
            return Some(place);
        }
    }
    None
}

/// The first of the pairs that are apart from the start whose nodes are equal. Where nothing more follows since the first so many
/// literals were looked at, there is none.
fn apart_since(state: &State, count: usize) -> Option<Equation>
    requires told { IsTold state.now }
    requires looked { state.now.enough ≤ count → IsLooked state.now count }
    ensures some { IfSome result (λ e. Has state.now.apart.items e × Follows state.now.closure.nodes state.now.closure.said e.left e.right) }
    ensures none { IfNone result (AreSeparate state.now.closure.nodes state.now.closure.said state.now.apart.items) }
{
    if state.enough <= count {
        return None;
    }
    first_apart(&state.closure, state.apart.as_slice())
}

/// The number of the first literal that says that two nodes differ that are equal. Where nothing more follows since the first so
/// many literals were looked at, only those behind them are looked at.
fn broken_since(state: &State, count: usize) -> Option<usize>
    requires told { IsTold state.now }
    requires looked { state.now.enough ≤ count → IsLooked state.now count }
    ensures inside { IfSome result (λ k. k < length state.now.said.items) }
    ensures some { IfSome result (λ k. (e : Said) → slice_get state.now.said.items k ≡ Some e → (e.holds ≡ false) × Follows state.now.closure.nodes state.now.closure.said e.left e.right) }
    ensures none { IfNone result (AreDenied state.now.closure.nodes state.now.closure.said state.now.said.items) }
{
    if state.enough <= count {
        return first_new(&state.closure, state.said.as_slice(), count);
    }
    first_broken(
        &state.closure,
        state.said.as_slice(),
        state.denied.as_slice(),
    )
}

/// The numbers of literals that no structure meets: of those by which two nodes are equal, and of that which says that they
/// differ.
fn broken_reason(
    alloc: Global,
    state: &State,
    number: usize,
    said: Said,
) -> Result<Option<Vec<usize>>, NoMemory>
    requires told { IsTold state.now }
    requires here { slice_get state.now.said.items number ≡ Some said }
    requires denied { said.holds ≡ false }
    requires follows { Follows state.now.closure.nodes state.now.closure.said said.left said.right }
    ensures some { IfOk result (λ found. IfSome found (λ listed. IsUnmet (nodes state.now.table) (picked state.now.said.items listed.items))) }
    ensures numbers { IfOk result (λ found. IfSome found (λ listed. (i : ℕ) → Has listed.items i → i < length state.now.said.items)) }
    ensures none { IfOk result (λ found. IfNone found ⊥) }
{
    match state.closure.explain(alloc, said.left, said.right)? {
        Some(mut listed) => {
            listed.push(number)?;
            Ok(Some(listed))
        }
        None => Ok(None),
    }
}

/// The numbers of literals that no structure meets. None comes exactly where some structure meets all. The first so many were looked
/// at before.
pub(crate) fn reason(
    alloc: Global,
    state: &State,
    count: usize,
) -> Result<Option<Vec<usize>>, NoMemory>
    requires told { IsTold state.now }
    requires looked { state.now.enough ≤ count → IsLooked state.now count }
    ensures unmet { IfOk result (λ found. IfSome found (λ listed. IsUnmet (nodes state.now.table) (picked state.now.said.items listed.items))) }
    ensures numbers { IfOk result (λ found. IfSome found (λ listed. (i : ℕ) → Has listed.items i → i < length state.now.said.items)) }
    ensures met { IfOk result (λ found. IfNone found (IsState state.now)) }
{
    match apart_since(state, count) {
        Some(pair) => state.closure.explain(alloc, pair.left, pair.right),
        None => match broken_since(state, count) {
            Some(number) => broken_reason(
                alloc,
                state,
                number,
                said_at(state.said.as_slice(), number),
            ),
            None => Ok(None),
        },
    }
}
