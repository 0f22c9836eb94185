ghost use Rattle.jh_derivation_rules.specs.Laws.{ClosesGivesValid, ClosesOrFails};

use jh_reach::axioms_are_true;

/// A derivation that closes a sequent shows that it is valid. It is a law, and does nothing.
pub fn closing_shows_validity()
    ensures { ClosesGivesValid }
{
    axioms_are_true();
}

/// A derivation that closes has no first step that fails, and one that doesn't close fails at one step alone. It is
/// a law, and does nothing.
pub fn closing_is_exact()
    ensures { ClosesOrFails }
{}
