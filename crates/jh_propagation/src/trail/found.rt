ghost use Rattle.std.specs.Prelude.{◌≡◌, ◌↔◌, [], ◌∷◌, IfOk, IsTrue, None, Some};
ghost use Rattle.jh_propagation.specs.trail.Looks.{AreCommon, items_in, list_in};

use crate::trail::Decided;
use crate::trail::sets::{common, has};
use jh_name::NoMemory;
use std::alloc::Global;
use std::slice::from_ref;

/// What is found of an instance: that it is false, or what it forces. No list is made where that is at most one literal.
#[derive(Drop)]
pub(crate) enum Found {
    False,
    Nothing,
    One(Decided),
    Many(Vec<Decided>),
}

/// The literals that are forced; none where the instance is false.
pub(crate) fn items(found: &Found) -> &[Decided]
    ensures { result.now ≡ items_in found.now }
{
    match found {
        Found::False => &[],
        Found::Nothing => &[],
        Found::One(literal) => from_ref(literal),
        Found::Many(list) => list.as_slice(),
    }
}

/// Whether the instance is false.
pub(crate) fn is_false(found: &Found) -> bool
    ensures { IsTrue result ↔ (list_in found.now ≡ None) }
{
    match found {
        Found::False => true,
        Found::Nothing => false,
        Found::One(_) => false,
        Found::Many(_) => false,
    }
}

/// Whether the instance isn't false, and nothing is forced.
pub(crate) fn is_nothing(found: &Found) -> bool
    ensures { IsTrue result → list_in found.now ≡ Some [] }
{
    match found {
        Found::False => false,
        Found::Nothing => true,
        Found::One(_) => false,
        Found::Many(_) => false,
    }
}

/// These literals are forced.
pub(crate) fn listed(list: Vec<Decided>) -> Found
    ensures { list_in result ≡ Some list.items }
{
    if list.is_empty() {
        Found::Nothing
    } else {
        Found::Many(list)
    }
}

/// The literals that are forced by both.
pub(crate) fn shared(alloc: Global, left: &Found, right: &Found) -> Result<Found, NoMemory>
    ensures common { IfOk result (λ made. AreCommon (items_in left.now) (items_in right.now) (items_in made)) }
    ensures listed { IfOk result (λ made. list_in made ≡ Some (items_in made)) }
{
    match left {
        Found::One(literal) => Ok(one_of(*literal, items(right))),
        _ => Ok(listed(common(alloc, items(left), items(right))?)),
    }
}

/// The literal, where it stands in a list, and else nothing.
fn one_of(literal: Decided, list: &[Decided]) -> Found
    ensures common { AreCommon (literal ∷ []) list.now (items_in result) }
    ensures listed { list_in result ≡ Some (items_in result) }
{
    if has(list, literal) {
        Found::One(literal)
    } else {
        Found::Nothing
    }
}
