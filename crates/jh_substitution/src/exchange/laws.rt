ghost use Rattle.jh_substitution.specs.exchange.Laws.{ExchangeUnderKeepsMeaning, VariedKeepsMeaning};

/// Exchanging one value for another keeps what a formula means under objects under which both have one meaning. It is a law,
/// and does nothing.
pub fn exchange_under_keeps_meaning()
    ensures { ExchangeUnderKeepsMeaning }
{}

/// A formula in which the variable of one more binder stands for a term means what the formula means, where the variable is
/// the object of the term. It is a law, and does nothing.
pub fn varied_keeps_meaning()
    ensures { VariedKeepsMeaning }
{}
