ghost use Rattle.jh_logic.specs.source.Laws.{AcceptedIsSound, AcceptedMeetsPremises};

/// The lowered program of a source that is accepted fits, its contracts speak of what they may, and its methods may write
/// what their bodies write. It is a law, and does nothing.
pub fn accepted_meets_premises()
    ensures { AcceptedMeetsPremises }
{}

/// A source that is accepted is sound where the formulas of all its methods are valid. It is a law, and does nothing.
pub fn accepted_is_sound()
    ensures { AcceptedIsSound }
{}
