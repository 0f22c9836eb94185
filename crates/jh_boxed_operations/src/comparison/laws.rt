ghost use Rattle.jh_boxed_operations.specs.comparison.Exchanged.{ExchangeKeepsMeaning};

/// Exchanging some occurrences of a closed value for another of the same meaning keeps the meaning. It
/// is a law, and does nothing.
pub fn exchange_keeps_meaning()
    ensures { ExchangeKeepsMeaning }
{}
