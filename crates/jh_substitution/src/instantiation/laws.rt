ghost use Rattle.jh_substitution.specs.instantiation.Laws.{PutKeepsMeaning};

/// A body with a term for its binder's variable means what the body means with the term's object for it. It is a law, and
/// does nothing.
pub fn put_keeps_meaning()
    ensures { PutKeepsMeaning }
{}
