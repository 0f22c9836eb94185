ghost use Rattle.jh_normal_forms.specs.idle_updates.Laws.{DroppingKeepsMeaning};

/// A formula without the updates that change nothing means what it means. It is a law, and does nothing.
pub fn dropping_keeps_meaning()
    ensures { DroppingKeepsMeaning }
{}
