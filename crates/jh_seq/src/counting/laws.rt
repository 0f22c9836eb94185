ghost use Rattle.jh_seq.specs.counting.Laws.{CountedIsExact};

/// The sequents of a weakest precondition are as many as are counted by cases on the command. It is a law, and does
/// nothing.
pub fn counted_is_exact()
    ensures { CountedIsExact }
{}
