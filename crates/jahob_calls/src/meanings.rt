//! Calls that find what formulas mean.

ghost use Rattle.std.specs.Prelude.{◌≡◌, true};

use crate::Called;
use jh_boxed_calls::interpretations::{Interp, member, number, object, truth};
use jh_form::{Formula, IntTerm, SetTerm, Term};
use jh_name::Row;
use std::alloc::Global;

/// The interpretation whose one object is null and which names nothing.
fn empty(alloc: Global) -> Interp {
    Interp {
        greatest: 0,
        objects: Row::of(Vec::new(alloc)),
        ints: Row::of(Vec::new(alloc)),
        truths: Row::of(Vec::new(alloc)),
        sets: Row::of(Vec::new(alloc)),
        fields: Row::of(Vec::new(alloc)),
    }
}

/// Makes them.
pub fn all_called(alloc: Global) -> [Called; 4] {
    let interp = empty(alloc);
    if !interp.is_inside() || !interp.has_all(&[]) {
        return [Called::of("is_inside", false); 4];
    }
    [
        Called::of("truth", truth(alloc, &interp, &Formula::True, &[]).is_ok()),
        Called::of(
            "member",
            member(alloc, &interp, 0, &SetTerm::Univ, &[]).is_ok(),
        ),
        Called::of(
            "number",
            number(alloc, &interp, &IntTerm::Const(1), &[]).is_ok(),
        ),
        Called::of("object", object(alloc, &interp, &Term::Null, &[]).is_ok()),
    ]
}
