ghost use Rattle.jh_propagation.specs.trail.Laws.{DecidedIsSettled, ForcedStands, MoreSayMore, OthersSayNothing};

/// What literals make false or true, more literals make so. It is a law, and does nothing.
pub fn more_say_more()
    ensures { MoreSayMore }
{}

/// A literal whose atom doesn't stand in an instance doesn't make it false. It is a law, and does nothing.
pub fn others_say_nothing()
    ensures { OthersSayNothing }
{}

/// Where one more literal makes an instance false that wasn't, its atom stands there. It is a law, and does nothing.
pub fn forced_stands()
    ensures { ForcedStands }
{}

/// Where each atom of an instance is decided, the instance is false or true. It is a law, and does nothing.
pub fn decided_is_settled()
    ensures { DecidedIsSettled }
{}
