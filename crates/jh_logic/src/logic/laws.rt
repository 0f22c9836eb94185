ghost use Rattle.jh_logic.specs.logic.Laws.{ValidMakesSound};

/// The program of a source is sound where its code and contracts are as the type rules leave them and the formulas of all
/// its methods are valid. It is a law, and does nothing.
pub fn valid_makes_sound()
    ensures { ValidMakesSound }
{}
