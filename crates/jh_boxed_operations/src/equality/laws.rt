ghost use Rattle.jh_boxed_operations.specs.equality.Laws.{EqualityIsDecided};

/// The test by which definitions tell trees apart is true exactly where two trees are one. It is a law, and does nothing.
pub fn equality_is_decided()
    ensures { EqualityIsDecided }
{}
