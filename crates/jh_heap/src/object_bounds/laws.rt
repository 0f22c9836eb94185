ghost use Rattle.jh_heap.specs.object_bounds.Inside.{ReadIsInside};

/// Each object in what a heap text spells is one of those from 0 to the greatest. It is a law, and does nothing.
pub fn what_is_read_is_inside()
    ensures { ReadIsInside }
{}
