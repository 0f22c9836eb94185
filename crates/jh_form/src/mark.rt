use jh_name::{Name, Place, Row};

/// Why a fact or a check stands where it does.
#[derive(Clone, Copy, PartialEq, Eq, Hash)]
pub enum MarkKind {
    /// A receiver is not null.
    Null,
    /// A precondition holds at a call.
    Pre,
    /// A postcondition holds at the return.
    Post,
    /// An invariant of the file.
    Inv,
    /// A loop's invariant holds when the loop is reached.
    LoopEntry,
    /// A loop's invariant holds after its body.
    LoopKept,
    /// Only what a method names was changed.
    Frame,
    /// An assertion.
    Assert,
    /// A note, which is a fact from there on.
    Note,
    /// A fact that is assumed.
    Fact,
}

/// The label of a part of a formula. It changes no meaning.
#[derive(PartialEq, Eq, Hash, Drop)]
pub struct Mark {
    pub kind: MarkKind,
    /// Where the source states the part.
    pub place: Place,
    /// The name that the source gives it.
    pub name: Option<Name>,
    /// The names of the facts that alone are to be used for it; none where all are.
    pub from: Row<Name>,
}
