ghost use Rattle.jh_wp.specs.Laws.{IsWeakest};

/// A weakest precondition is true exactly where all guarded runs end well. It is a law, and does nothing.
pub fn wp_is_weakest()
    ensures { IsWeakest }
{}
