ghost use Rattle.jh_heap_theorems.specs.program_fits.Laws.{SpelledFits};

use jh_logic::text::{spelled_has_shape, spelled_is_placed, spelled_is_written};

/// A program that a text spells and that breaks no type rule meets what the laws of heap texts ask of a program and of a method:
/// `crate::round_trip::what_is_written_is_read` and `what_is_read_is_a_heap`. It is a law, and does nothing.
pub fn what_is_spelled_fits()
    ensures { SpelledFits }
{
    spelled_has_shape();
    spelled_is_placed();
    spelled_is_written();
}
