#![tactic(auto, unfolding(crate::specs::sequent_count::Forms::form_of))]

ghost use Rattle.std.specs.Prelude.{◌≡◌};
ghost use Rattle.jh_weakest.specs.sequent_count.Forms.{form_of};

use jh_arena::table::Shape;

/// What a formula asks as a goal: two goals of its parts, one of them, one under a label, those of `tree`, a truth
/// name, True, or itself alone.
#[derive(Clone, Copy)]
pub(crate) enum Form {
    Both(usize, usize),
    Part(usize),
    Labelled(usize),
    Forest,
    Name,
    Truth,
    Alone,
}

/// The form of a formula of this shape.
pub(crate) fn form_of(shape: Shape) -> Form
    ensures { result ≡ form_of shape }
{
    match shape {
        Shape::And(left, right) => Form::Both(left, right),
        Shape::Iff(left, right) => Form::Both(right, left),
        Shape::Implies(_, right) => Form::Part(right),
        Shape::All(body) => Form::Part(body),
        Shape::Mark(_, inside) => Form::Labelled(inside),
        Shape::Tree(_) => Form::Forest,
        Shape::FreeTruth(_) => Form::Name,
        Shape::True => Form::Truth,
        _ => Form::Alone,
    }
}
