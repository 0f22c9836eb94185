ghost use Rattle.jh_gen_laws.specs.sequent_count.Laws.{MadeOwesFew};

/// No method of a program that a made source spells has more than 2,000 sequents. It is a law, and does nothing.
pub fn made_owes_few()
    ensures { MadeOwesFew }
{}
