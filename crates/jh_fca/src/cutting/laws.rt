ghost use Rattle.jh_fca.specs.cutting.Laws.{CutMayStand};

/// Where what is left of a goal is true, so is the goal; where a hypothesis is true, so is what is left of it. It is a law,
/// and does nothing.
pub fn cut_may_stand()
    ensures { CutMayStand }
{}
