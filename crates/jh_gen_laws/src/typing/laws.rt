ghost use Rattle.jh_gen_laws.specs.typing.Laws.{MadeIsAcyclic, MadeIsTyped};

/// A program that a made source spells breaks no type rule. It is a law, and does nothing.
pub fn made_is_typed()
    ensures { MadeIsTyped }
{}

/// It has no cyclic variable, since it defines none. It is a law, and does nothing.
pub fn made_is_acyclic()
    ensures { MadeIsAcyclic }
{}
