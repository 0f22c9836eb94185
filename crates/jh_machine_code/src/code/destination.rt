use jh_name::Place;
use jh_operands::ObjectExpr;

/// Where a value goes: nowhere, to a parameter, a local or a static, or to a field of an object, with the place of the
/// object's first token. Names stand by their numbers in a run.
#[derive(Drop)]
pub enum Destination {
    Nowhere,
    Name(usize),
    Field(usize, ObjectExpr, Place),
}
