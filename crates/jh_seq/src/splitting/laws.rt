ghost use Rattle.jh_seq.specs.splitting.Laws.{SplitIsExact};

/// The sequents of a formula are all valid exactly where the formula is. It is a law, and does nothing.
pub fn split_is_exact()
    ensures { SplitIsExact }
{}
