ghost use Rattle.std.specs.Prelude.{◌≡◌, get_or, slice_get, []};
ghost use Rattle.jh_boxed_calls.specs.interpretations.Interps.{IsSlot};

use crate::interpretations::interp::{
    Interp, first_members, first_numbers, first_objects, first_of, first_sets, first_truths,
};
use jh_name::{Name, Row};

/// What lists say of a name: its values at each sort, and as a field those at each kind.
#[derive(Clone, Copy)]
pub(crate) struct Slot<'a> {
    pub(crate) object: u32,
    pub(crate) number: i128,
    pub(crate) truth: bool,
    pub(crate) set: &'a [u32],
    pub(crate) objects: &'a [u32],
    pub(crate) numbers: &'a [i128],
    pub(crate) truths: &'a [bool],
    pub(crate) sets: &'a [Row<u32>],
}

/// What lists say of a name.
pub(crate) fn slot_of<'a>(interp: &'a Interp, name: &Name) -> Slot<'a>
    ensures { IsSlot interp.now name.now result }
{
    Slot {
        object: first_of(interp.objects.items(), name, 0),
        number: first_of(interp.ints.items(), name, 0),
        truth: first_of(interp.truths.items(), name, false),
        set: first_members(interp.sets.items(), name),
        objects: first_objects(interp.fields.items(), name),
        numbers: first_numbers(interp.fields.items(), name),
        truths: first_truths(interp.fields.items(), name),
        sets: first_sets(interp.fields.items(), name),
    }
}

/// The value at a place, or a default behind the last.
pub(crate) fn value_at<T: Copy>(values: &[T], at: u32, default: T) -> T
    ensures { result ≡ get_or values.now at default }
{
    match values.get(at as usize) {
        Some(value) => *value,
        None => default,
    }
}

/// The members of the set at a place, or none behind the last.
pub(crate) fn members_at<'a>(values: &'a [Row<u32>], at: u32) -> &'a [u32]
    ensures { result.now ≡ get_or values.now at [] }
{
    match values.get(at as usize) {
        Some(members) => members.items(),
        None => &[],
    }
}

/// The slot at a place, if there is one.
pub(crate) fn slot_at<'a>(slots: &[Slot<'a>], place: usize) -> Option<Slot<'a>>
    ensures { result ≡ slice_get slots.now place }
{
    slots.get(place).copied()
}
