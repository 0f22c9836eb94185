ghost use Rattle.jh_prove.specs.trivial.Laws.{TrivialIsValid};

/// A trivial sequent is valid. It is a law, and does nothing.
pub fn trivial_is_valid()
    ensures { TrivialIsValid }
{}
