ghost use Rattle.std.specs.Prelude.{◌≡◌, IfOk, true, length, slice_get, Some};
ghost use Rattle.jh_arena.specs.table.Growth.{Extends};
ghost use Rattle.jh_arena.specs.table.Nodes.{nodes, fits_in};
ghost use Rattle.jh_arena.specs.table.Parts.{parts, has_list};
ghost use Rattle.jh_import.specs.carrying.Carried.{IsPlaced};

use crate::carrying::entries::renamed;
use jh_arena::table::{Shape, Table};
use jh_name::NoMemory;

/// The number of a list of fields, where the shape has one.
fn list_of(into: &mut Table, shape: Shape, fields: &[usize]) -> Result<usize, NoMemory>
    ensures listed { IfOk result (λ number. has_list shape ≡ true → slice_get into.new.pools.lists number ≡ Some fields.now) }
    ensures grows { Extends into.old into.new }
    ensures nodes { nodes into.new ≡ nodes into.old }
{
    match shape.list() {
        Some(_) => into.list(fields),
        None => Ok(0),
    }
}

/// The shape of one table over parts of another, as many as it has and in the same order. Its name, its label and its
/// list of fields are added to the other table's pools where they are new.
pub fn placed(
    from: &Table,
    into: &mut Table,
    shape: Shape,
    given: &[usize],
) -> Result<Shape, NoMemory>
    requires fits { fits_in from.now shape ≡ true }
    requires counted { length given.now ≡ length (parts from.now.pools.lists shape) }
    ensures placed { IfOk result (λ made. IsPlaced from.now.pools into.new.pools given.now shape made) }
    ensures grows { Extends into.old into.new }
    ensures nodes { nodes into.new ≡ nodes into.old }
{
    let fields = given.len() - shape.own().count();
    let list = list_of(into, shape, &given[..fields])?;
    let named = renamed(from, into, shape)?;
    Ok(named.put(list, &given[fields..]))
}
