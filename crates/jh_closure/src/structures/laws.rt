ghost use Rattle.jh_closure.specs.structures.Literals.{MoreIsNotMet};

/// Literals that no structure meets aren't met with more literals beside them. It is a law, and does nothing.
pub fn more_is_not_met()
    ensures { MoreIsNotMet }
{}
