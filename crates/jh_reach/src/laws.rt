ghost use Rattle.jh_reach.specs.Truths.{AxiomsAreTrue};

/// Each axiom of a backbone is true in every interpretation in which its changed member is that update. It is a
/// law, and does nothing.
pub fn axioms_are_true()
    ensures { AxiomsAreTrue }
{}
