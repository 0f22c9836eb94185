#![tactic(auto, using(crate::proofs::terms::TermSteps::name_steps, jh_arena::proofs::table::Listed::growth_steps))]

ghost use Rattle.std.specs.Prelude.{◌≡◌, IfOk, Some, slice_get};
ghost use Rattle.jh_form.specs.Tree.{of_object, of_number, of_truth, of_field};
ghost use Rattle.jh_form.specs.Tree as t;
ghost use Rattle.jh_arena.specs.table.Growth.{Extends};
ghost use Rattle.jh_arena.specs.table.Nodes.{nodes};
ghost use Rattle.jh_semantics.specs.State.{named};

use jh_arena::table::{Shape, Table};
use jh_name::{Name, NoMemory, name};

/// The number, in the table's pool of names, of the name of this text at turn 0.
fn number_of_text(table: &mut Table, text: &str) -> Result<usize, NoMemory>
    ensures number { IfOk result (λ number. slice_get table.new.pools.names number ≡ Some (named text.now)) }
    ensures grows { Extends table.old table.new }
{
    let plain = name(table.alloc(), text, 0)?;
    table.name(&plain)
}

/// The number, in the table's pool of names, of the name of a name's text at turn 0, as which code speaks of it.
fn number_of_name(table: &mut Table, name: &Name) -> Result<usize, NoMemory>
    ensures number { IfOk result (λ number. slice_get table.new.pools.names number ≡ Some (named name.now.text)) }
    ensures grows { Extends table.old table.new }
{
    if name.turn() == 0 {
        table.name(name)
    } else {
        number_of_text(table, name.text())
    }
}

/// The node of the object of a name.
pub fn object_node(table: &mut Table, name: &Name) -> Result<usize, NoMemory>
    ensures node { IfOk result (λ made. slice_get (nodes table.new) made ≡ Some (of_object (t.free_object (named name.now.text)))) }
    ensures grows { Extends table.old table.new }
{
    let number = number_of_name(table, name)?;
    table.make(Shape::FreeObject(number))
}

/// The node of the object of a text.
pub fn object_of_text(table: &mut Table, text: &str) -> Result<usize, NoMemory>
    ensures node { IfOk result (λ made. slice_get (nodes table.new) made ≡ Some (of_object (t.free_object (named text.now)))) }
    ensures grows { Extends table.old table.new }
{
    let number = number_of_text(table, text)?;
    table.make(Shape::FreeObject(number))
}

/// The node of the number of a name.
pub fn number_node(table: &mut Table, name: &Name) -> Result<usize, NoMemory>
    ensures node { IfOk result (λ made. slice_get (nodes table.new) made ≡ Some (of_number (t.free_number (named name.now.text)))) }
    ensures grows { Extends table.old table.new }
{
    let number = number_of_name(table, name)?;
    table.make(Shape::FreeNumber(number))
}

/// The node of the truth of a name.
pub fn truth_node(table: &mut Table, name: &Name) -> Result<usize, NoMemory>
    ensures node { IfOk result (λ made. slice_get (nodes table.new) made ≡ Some (of_truth (t.free_truth (named name.now.text)))) }
    ensures grows { Extends table.old table.new }
{
    let number = number_of_name(table, name)?;
    table.make(Shape::FreeTruth(number))
}

/// The node of the field of a name.
pub fn field_node(table: &mut Table, name: &Name) -> Result<usize, NoMemory>
    ensures node { IfOk result (λ made. slice_get (nodes table.new) made ≡ Some (of_field (t.free_field (named name.now.text)))) }
    ensures grows { Extends table.old table.new }
{
    let number = number_of_name(table, name)?;
    table.make(Shape::FreeField(number))
}
