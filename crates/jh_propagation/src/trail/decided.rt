ghost use Rattle.std.specs.Prelude.{◌≡◌, ◌↔◌, IsTrue};
ghost use Rattle.jh_propagation.specs.trail.Saying.{opposite_of};

/// A literal over nodes of a table: a formula by the number of its node, and whether it is said to hold.
#[derive(Clone, Copy, PartialEq, Eq)]
pub struct Decided {
    pub atom: usize,
    pub holds: bool,
}

/// The literal that says the contrary.
pub fn opposite(literal: Decided) -> Decided
    ensures { result ≡ opposite_of literal }
{
    Decided {
        atom: literal.atom,
        holds: !literal.holds,
    }
}

/// Whether two literals are one.
pub(crate) fn is_one(left: Decided, right: Decided) -> bool
    ensures { IsTrue result ↔ (left ≡ right) }
{
    left.atom == right.atom && left.holds == right.holds
}
