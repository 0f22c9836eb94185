ghost use Rattle.jh_fca.specs.local_form.Laws.{LocalHasShape, LocalIsValid};

use crate::elimination::{eliminated_has_shape, eliminated_may_stand};
use jh_approx::jh_reach::axioms_are_true;

/// Where the local form of a sequent is valid, so is the sequent. It is a law, and does nothing.
pub fn local_is_valid()
    ensures { LocalIsValid }
{
    axioms_are_true();
    eliminated_may_stand();
}

/// The local form of a sequent has local shape: no updates, no operations on sets, and fields that are names. It is a
/// law, and does nothing.
pub fn local_has_shape()
    ensures { LocalHasShape }
{
    eliminated_has_shape();
}
