ghost use Rattle.jh_obligations.specs.program_sequents.Laws.{LittleIsNotMuch, OneIsFirst, OwedIsLittle, OwedIsOne, OwedIsSound};

use jh_outline::jh_logic::source::accepted_is_sound;
use jh_seq::splitting::split_is_exact;

/// A source that is accepted is sound where all sequents of its methods are valid. It is a law, and does nothing.
pub fn owed_is_sound()
    ensures { OwedIsSound }
{
    accepted_is_sound();
    split_is_exact();
}

/// There is one list of sequents that the methods of a source owe. It is a law, and does nothing.
pub fn owed_is_one()
    ensures { OwedIsOne }
{}

/// Where the methods of a source owe a list of sequents none has too many; there is at most one first method that has,
/// with one number. It is a law, and does nothing.
pub fn too_many_is_exact()
    ensures little { OwedIsLittle }
    ensures much { LittleIsNotMuch }
    ensures first { OneIsFirst }
{}
