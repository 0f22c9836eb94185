ghost use Rattle.jh_fca.specs.elimination.Laws.{EliminatedHasShape, EliminatedIsExact, EliminatedIsValid, EliminatedMayStand};

/// Where the sequent without its derived fields is valid, so is the sequent, whatever the constraints of the fields say. It is a
/// law, and does nothing.
pub fn eliminated_is_valid()
    ensures { EliminatedIsValid }
{}

/// In each interpretation in which the hypotheses of a sequent are true, those are that it has without its derived fields, and where
/// its goal without them is true, so is the goal. It is a law, and does nothing.
pub fn eliminated_may_stand()
    ensures { EliminatedMayStand }
{}

/// A sequent of local shape keeps it while its derived fields are eliminated. It is a law, and does nothing.
pub fn eliminated_has_shape()
    ensures { EliminatedHasShape }
{}

/// Where each constraint is deterministic at the step of its field, and the field stands in no update and no comprehension, the
/// sequent is valid exactly where the one without its derived fields is. It is a law, and does nothing.
pub fn eliminated_is_exact()
    ensures { EliminatedIsExact }
{}
