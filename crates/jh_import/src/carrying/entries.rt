#![tactic(auto, unfolding(jh_arena::specs::table::Nodes::fits, crate::specs::carrying::Carried::HasEntry, crate::specs::carrying::Carried::renamed))]

ghost use Rattle.std.specs.Prelude.{◌≡◌, ◌<◌, IfOk, true, length, slice_get};
ghost use Rattle.jh_arena.specs.table.Growth.{Extends};
ghost use Rattle.jh_arena.specs.table.Nodes.{nodes, fits_in};
ghost use Rattle.jh_import.specs.carrying.Carried.{IsRenamed};

use jh_arena::table::{Shape, Table};
use jh_name::NoMemory;

/// The number in one table of a name of another.
fn name(from: &Table, into: &mut Table, number: usize) -> Result<usize, NoMemory>
    requires { number < length from.now.pools.names }
    ensures number { IfOk result (λ made. slice_get into.new.pools.names made ≡ slice_get from.now.pools.names number) }
    ensures grows { Extends into.old into.new }
    ensures nodes { nodes into.new ≡ nodes into.old }
{
    into.name(from.name_at(number))
}

/// The number in one table of a label of another.
fn mark(from: &Table, into: &mut Table, number: usize) -> Result<usize, NoMemory>
    requires { number < length from.now.pools.marks }
    ensures number { IfOk result (λ made. slice_get into.new.pools.marks made ≡ slice_get from.now.pools.marks number) }
    ensures grows { Extends into.old into.new }
    ensures nodes { nodes into.new ≡ nodes into.old }
{
    into.mark(from.mark_at(number))
}

/// The shape of one table with the number that its name or label has in another, to which it is added where it is new.
pub fn renamed(from: &Table, into: &mut Table, shape: Shape) -> Result<Shape, NoMemory>
    requires fits { fits_in from.now shape ≡ true }
    ensures renamed { IfOk result (λ made. IsRenamed from.now.pools into.new.pools shape made) }
    ensures grows { Extends into.old into.new }
    ensures nodes { nodes into.new ≡ nodes into.old }
{
    match shape {
        Shape::FreeObject(number) => Ok(Shape::FreeObject(name(from, into, number)?)),
        Shape::FreeNumber(number) => Ok(Shape::FreeNumber(name(from, into, number)?)),
        Shape::FreeTruth(number) => Ok(Shape::FreeTruth(name(from, into, number)?)),
        Shape::FreeSet(number) => Ok(Shape::FreeSet(name(from, into, number)?)),
        Shape::FreeField(number) => Ok(Shape::FreeField(name(from, into, number)?)),
        Shape::Mark(number, part) => Ok(Shape::Mark(mark(from, into, number)?, part)),
        _ => Ok(shape),
    }
}
