ghost use Rattle.std.specs.Prelude.{◌≡◌};
ghost use Rattle.jh_substitution.specs.rewriting.Leaf.{is_leaf};

use jh_arena::table::Shape;

/// Whether a shape is a free name or a bound variable.
#[tactic(auto, unfolding(crate::specs::rewriting::Leaf::is_leaf))]
pub fn is_leaf(shape: Shape) -> bool
    ensures { result ≡ is_leaf shape }
{
    match shape {
        Shape::Bound(_) => true,
        Shape::FreeObject(_) => true,
        Shape::FreeNumber(_) => true,
        Shape::FreeTruth(_) => true,
        Shape::FreeSet(_) => true,
        Shape::FreeField(_) => true,
        _ => false,
    }
}
