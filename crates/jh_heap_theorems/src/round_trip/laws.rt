ghost use Rattle.jh_heap_theorems.specs.round_trip.Written.{ReadIsHeap, WrittenIsRead};

/// What is written of a heap of a program is read as that heap, where its greatest object is at most 255 and the method
/// that is to run has neither `this` nor parameters. It is a law, and does nothing.
pub fn what_is_written_is_read()
    ensures { WrittenIsRead }
{}

/// What a heap text spells is a heap of the program, and its arguments are such of the method. It is a law, and does
/// nothing.
pub fn what_is_read_is_a_heap()
    ensures { ReadIsHeap }
{}
