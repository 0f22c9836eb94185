#![tactic(auto, using(crate::proofs::makers::Steps::leaf_steps))]

ghost use Rattle.std.specs.Prelude.{◌≡◌, IfOk, Some, slice_get};
ghost use Rattle.jh_form.specs.Tree.{of_object, of_number, of_truth, of_set, of_field};
ghost use Rattle.jh_form.specs.Tree as t;
ghost use Rattle.jh_arena.specs.table.Growth.{Extends};
ghost use Rattle.jh_arena.specs.table.Nodes.{nodes};

use crate::table::{Shape, Table};
use jh_boxed::jh_name::{Name, NoMemory};

/// The node of a bound variable, which is the number of binders between it and its own.
pub fn bound(table: &mut Table, number: u32) -> Result<usize, NoMemory>
    ensures node { IfOk result (λ made. slice_get (nodes table.new) made ≡ Some (of_object (t.bound number))) }
    ensures grows { Extends table.old table.new }
{
    table.make(Shape::Bound(number))
}

/// The node of a free name for an object.
pub fn free_object(table: &mut Table, name: &Name) -> Result<usize, NoMemory>
    ensures node { IfOk result (λ made. slice_get (nodes table.new) made ≡ Some (of_object (t.free_object name.now))) }
    ensures grows { Extends table.old table.new }
{
    let number = table.name(name)?;
    table.make(Shape::FreeObject(number))
}

/// The node of a free name for a number.
pub fn free_number(table: &mut Table, name: &Name) -> Result<usize, NoMemory>
    ensures node { IfOk result (λ made. slice_get (nodes table.new) made ≡ Some (of_number (t.free_number name.now))) }
    ensures grows { Extends table.old table.new }
{
    let number = table.name(name)?;
    table.make(Shape::FreeNumber(number))
}

/// The node of a free name for a truth.
pub fn free_truth(table: &mut Table, name: &Name) -> Result<usize, NoMemory>
    ensures node { IfOk result (λ made. slice_get (nodes table.new) made ≡ Some (of_truth (t.free_truth name.now))) }
    ensures grows { Extends table.old table.new }
{
    let number = table.name(name)?;
    table.make(Shape::FreeTruth(number))
}

/// The node of a free name for a set.
pub fn free_set(table: &mut Table, name: &Name) -> Result<usize, NoMemory>
    ensures node { IfOk result (λ made. slice_get (nodes table.new) made ≡ Some (of_set (t.free_set name.now))) }
    ensures grows { Extends table.old table.new }
{
    let number = table.name(name)?;
    table.make(Shape::FreeSet(number))
}

/// The node of a free name for a field.
pub fn free_field(table: &mut Table, name: &Name) -> Result<usize, NoMemory>
    ensures node { IfOk result (λ made. slice_get (nodes table.new) made ≡ Some (of_field (t.free_field name.now))) }
    ensures grows { Extends table.old table.new }
{
    let number = table.name(name)?;
    table.make(Shape::FreeField(number))
}
