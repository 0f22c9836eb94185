ghost use Rattle.jh_guard.specs.Laws.{ChecksAreExact};

/// The checks of an expression are true in a state exactly where it has a value there, which is that of its term. It
/// is a law, and does nothing.
pub fn checks_are_exact()
    ensures { ChecksAreExact }
{}
