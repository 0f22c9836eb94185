ghost use Rattle.std.specs.Prelude.{◌≡◌, ◌<◌, true, IfOk, Some, length, slice_get};
ghost use Rattle.jh_form.specs.Sorts.{tree_sort};
ghost use Rattle.jh_arena.specs.table.Entries.{the_value};
ghost use Rattle.jh_arena.specs.table.Growth.{Extends};
ghost use Rattle.jh_arena.specs.table.Nodes.{nodes};
ghost use Rattle.jh_substitution.specs.rewriting.Leaf.{free_shape};
ghost use Rattle.jh_substitution.specs.rewriting.Substitution.{IsReady};

use jh_arena::table::{Shape, Table};
use jh_name::{Name, NoMemory, Sort};

/// A free name by its number in a table, its node at the sort of a value, and the node of the value that is
/// put for it. `replacement` makes one.
#[derive(Clone, Copy)]
pub struct Instead {
    pub name: usize,
    pub leaf: usize,
    pub value: usize,
}

/// The shape of a free name of a sort.
#[tactic(auto, unfolding(crate::specs::rewriting::Leaf::free_shape))]
fn free_name(name: usize, sort: Sort) -> Shape
    ensures { result ≡ free_shape name sort }
{
    match sort {
        Sort::Obj => Shape::FreeObject(name),
        Sort::Int => Shape::FreeNumber(name),
        Sort::Bool => Shape::FreeTruth(name),
        Sort::Set => Shape::FreeSet(name),
        Sort::Field => Shape::FreeField(name),
    }
}

/// The value for the name, at the value's sort. The name and its node are added to the table where they are
/// new.
pub fn replacement(table: &mut Table, name: &Name, value: usize) -> Result<Instead, NoMemory>
    requires value { value < length (nodes table.old) }
    ensures ready { IfOk result (λ made. IsReady made.name made.leaf made.value table.new) }
    ensures name { IfOk result (λ made. slice_get table.new.pools.names made.name ≡ Some name.now) }
    ensures value { IfOk result (λ made. made.value ≡ value) }
    ensures grows { Extends table.old table.new }
{
    let sort = table.sort(value);
    let number = table.name(name)?;
    let leaf = table.make(free_name(number, sort))?;
    Ok(Instead {
        name: number,
        leaf,
        value,
    })
}
