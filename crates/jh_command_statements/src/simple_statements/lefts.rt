#![tactic(auto, using(crate::proofs::simple_statements::LeftSteps::left_steps, jh_arena::proofs::table::PartSteps::part_steps, jh_arena::proofs::table::Listed::growth_steps))]

ghost use Rattle.std.specs.Prelude.{◌≡◌, ◌<◌, true, length, IfOk, slice_get};
ghost use Rattle.jh_arena.specs.table.Entries.{is_field, is_object, the_name, the_field, the_object, the_value};
ghost use Rattle.jh_arena.specs.table.Nodes.{nodes};
ghost use Rattle.jh_semantics.specs.LoweredStmts.{a_name, ghost_target};
ghost use Rattle.jh_command_statements.specs.simple_statements.Ghosts.{read_target, left_in, object_stands};

use crate::simple_statements::ghosts::Left;
use jh_arena::table::{Shape, Table};
use jh_name::{Kind, Name, NoMemory};

/// The name of a number.
fn name_of(table: &Table, number: usize) -> Result<Name, NoMemory>
    requires { number < length table.now.pools.names }
    ensures { IfOk result (λ made. made ≡ the_name (slice_get table.now.pools.names number)) }
{
    table.name_at(number).copy(table.alloc())
}

/// A left side that is a name.
fn name_left(table: &Table, kind: Kind, number: usize) -> Result<Left, NoMemory>
    requires { number < length table.now.pools.names }
    ensures target { IfOk result (λ made. left_in table.now made ≡ a_name kind (the_name (slice_get table.now.pools.names number))) }
    ensures object { IfOk result (λ made. object_stands table.now made ≡ true) }
{
    let name = name_of(table, number)?;
    Ok(Left::Name(kind, name))
}

/// A left side that is a read of a field; none where the field isn't a name.
fn read_left(table: &Table, kind: Kind, field: usize, object: usize) -> Result<Left, NoMemory>
    requires field { is_field (slice_get (nodes table.now) field) ≡ true }
    requires object { is_object (slice_get (nodes table.now) object) ≡ true }
    ensures target { IfOk result (λ made. left_in table.now made ≡ read_target kind (the_field (slice_get (nodes table.now) field)) (the_object (slice_get (nodes table.now) object))) }
    ensures object { IfOk result (λ made. object_stands table.now made ≡ true) }
{
    match table.shape(field) {
        Shape::FreeField(number) => {
            let name = name_of(table, number)?;
            Ok(Left::Read(kind, name, object))
        }
        _ => Ok(Left::Nothing),
    }
}

/// The left side of a ghost assignment, by the node of its value.
pub fn left_of(table: &Table, node: usize) -> Result<Left, NoMemory>
    requires { node < length (nodes table.now) }
    ensures target { IfOk result (λ made. left_in table.now made ≡ ghost_target (the_value (slice_get (nodes table.now) node))) }
    ensures object { IfOk result (λ made. object_stands table.now made ≡ true) }
{
    match table.shape(node) {
        Shape::FreeObject(number) => name_left(table, Kind::Obj, number),
        Shape::FreeNumber(number) => name_left(table, Kind::Int, number),
        Shape::FreeTruth(number) => name_left(table, Kind::Bool, number),
        Shape::FreeSet(number) => name_left(table, Kind::Set, number),
        Shape::ReadObject(field, object) => read_left(table, Kind::Obj, field, object),
        Shape::ReadNumber(field, object) => read_left(table, Kind::Int, field, object),
        Shape::ReadTruth(field, object) => read_left(table, Kind::Bool, field, object),
        Shape::ReadSet(field, object) => read_left(table, Kind::Set, field, object),
        _ => Ok(Left::Nothing),
    }
}
