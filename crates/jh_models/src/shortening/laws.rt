ghost use Rattle.jh_models.specs.shortening.Laws.{MostIsKept, ShorteningIsExact};

/// Gone through in order, the most is kept of a list without a literal. It is a law, and does nothing.
pub fn most_is_kept()
    ensures { MostIsKept }
{}

/// An explanation of which each decision was tried has none that isn't needed. It is a law, and does nothing.
pub fn shortening_is_exact()
    ensures { ShorteningIsExact }
{}
