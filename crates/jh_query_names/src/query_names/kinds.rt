ghost use Rattle.std.specs.Prelude.{◌≡◌};
ghost use Rattle.jh_query_names.specs.query_names.Kinds as spec;

use jh_arena::table::Shape;

/// What a shape is where names are gathered.
#[derive(Clone, Copy, PartialEq, Eq)]
pub enum Kind {
    /// It has a name itself.
    Name,
    /// The names of its parts are its names.
    Parts,
    /// It has none.
    Nothing,
}

/// Where the names of what has this shape are.
#[tactic(auto, unfolding(crate::specs::query_names::Kinds::kind_of))]
pub(crate) fn kind_of(shape: Shape) -> Kind
    ensures { result ≡ spec.kind_of shape }
{
    match shape {
        Shape::Bound(_) => Kind::Name,
        Shape::FreeObject(_) => Kind::Name,
        Shape::Null => Kind::Name,
        Shape::ReadObject(_, _) => Kind::Name,
        Shape::FreeNumber(_) => Kind::Name,
        Shape::ReadNumber(_, _) => Kind::Name,
        Shape::FreeSet(_) => Kind::Name,
        Shape::ReadSet(_, _) => Kind::Name,
        Shape::Compr(_) => Kind::Name,
        Shape::FreeTruth(_) => Kind::Name,
        Shape::ReadTruth(_, _) => Kind::Name,
        Shape::FreeField(_) => Kind::Nothing,
        Shape::Update(_, _, _) => Kind::Nothing,
        Shape::All(_) => Kind::Nothing,
        Shape::Ex(_) => Kind::Nothing,
        Shape::Reach(_, _, _) => Kind::Nothing,
        Shape::Tree(_) => Kind::Nothing,
        Shape::Mark(_, _) => Kind::Nothing,
        _ => Kind::Parts,
    }
}
