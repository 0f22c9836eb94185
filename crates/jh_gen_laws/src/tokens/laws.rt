ghost use Rattle.jh_gen_laws.specs.tokens.Laws.{MadeIsCut};

/// A made source is cut into tokens of these kinds. It is a law, and does nothing.
pub fn made_is_cut()
    ensures { MadeIsCut }
{}
