ghost use Rattle.jh_normal_forms.specs.set_opening.Laws.{OpeningKeepsMeaning};

/// A formula with its sets opened means what it means. It is a law, and does nothing.
pub fn opening_keeps_meaning()
    ensures { OpeningKeepsMeaning }
{}
