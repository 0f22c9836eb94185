ghost use Rattle.jh_logic.specs.text.Laws.{SpelledHasShape, SpelledIsAccepted, SpelledIsPlaced, SpelledIsWritten};

/// A program that tokens spell has the shape of a source, where the tokens are as the lexer makes them. It is a law, and
/// does nothing.
pub fn spelled_has_shape()
    ensures { SpelledHasShape }
{}

/// The names of its classes, and those of the members of each class, stand at places of their own. It is a law, and does
/// nothing.
pub fn spelled_is_placed()
    ensures { SpelledIsPlaced }
{}

/// The names that it declares are words of the tokens, and those of the fields of a class, as those of its variables, stand at places
/// of their own. It is a law, and does nothing.
pub fn spelled_is_written()
    ensures { SpelledIsWritten }
{}

/// It is accepted where it breaks no type rule. It is a law, and does nothing.
pub fn spelled_is_accepted()
    ensures { SpelledIsAccepted }
{}
