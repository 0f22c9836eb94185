ghost use Rattle.jh_gen_laws.specs.spelling.Laws.{MadeIsSpelled};

/// The tokens of a made source spell a made program. It is a law, and does nothing.
pub fn made_is_spelled()
    ensures { MadeIsSpelled }
{}
