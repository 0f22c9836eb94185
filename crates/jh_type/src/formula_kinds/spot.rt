ghost use Rattle.std.specs.Prelude.{◌≡◌};
ghost use Rattle.jh_type.specs.formula_kinds.Standing as standing;

use jh_name::Kind;

/// What a formula may say, beside what its scope says: whether `old` may stand, and the kind of `result` where
/// that may stand and has one.
#[derive(Clone, Copy, PartialEq, Eq)]
pub struct Spot {
    pub old: bool,
    pub result: Option<Option<Kind>>,
}

impl Spot {
    /// What may be said under `old`.
    pub fn in_old(self) -> Spot
        ensures { result ≡ standing.in_old self }
    {
        Spot { old: false, ..self }
    }
}
