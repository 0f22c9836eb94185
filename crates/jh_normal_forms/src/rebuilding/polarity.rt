#![tactic(auto, unfolding(crate::specs::rebuilding::Built::turned))]

ghost use Rattle.std.specs.Prelude.{◌≡◌};
ghost use Rattle.jh_normal_forms.specs.rebuilding.Built.{turned};

/// How a part stands in the whole: positive where a stronger part makes the whole stronger, negative where
/// it makes the whole weaker, and both where only a part of the same meaning will do.
#[derive(Clone, Copy, PartialEq, Eq, Hash)]
pub enum Polarity {
    Positive,
    Negative,
    Both,
}

impl Polarity {
    /// The polarity under a negation.
    pub fn turned(self) -> Polarity
        ensures { result ≡ turned self }
    {
        match self {
            Polarity::Positive => Polarity::Negative,
            Polarity::Negative => Polarity::Positive,
            Polarity::Both => Polarity::Both,
        }
    }
}
