#![tactic(auto, unfolding(crate::specs::rebuilding::Walking::sign))]

ghost use Rattle.std.specs.Prelude.{◌≡◌};
ghost use Rattle.jh_normal_forms.specs.rebuilding.Walking.{sign};

use crate::rebuilding::Polarity;
use jh_arena::table::Shape;

/// How the part of this number stands.
pub fn sign(shape: Shape, polarity: Polarity, index: usize) -> Polarity
    ensures { result ≡ sign shape polarity index }
{
    match shape {
        Shape::Negation(_) => polarity.turned(),
        Shape::And(_, _) => polarity,
        Shape::Or(_, _) => polarity,
        Shape::Implies(_, _) => if index == 0 {
            polarity.turned()
        } else {
            polarity
        },
        Shape::All(_) => polarity,
        Shape::Ex(_) => polarity,
        Shape::Mark(_, _) => polarity,
        _ => Polarity::Both,
    }
}
