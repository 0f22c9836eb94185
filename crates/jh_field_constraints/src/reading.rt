ghost use Rattle.std.specs.Prelude.{◌≡◌, ◌<◌, ◌||◌, List, true, IfOk, length, slice_get};
ghost use Rattle.jh_name.specs.declared.naming.Name.{Name};
ghost use Rattle.jh_form.specs.Tree.{TermTree, FieldTree};
ghost use Rattle.jh_form.specs.Tree as t;
ghost use Rattle.jh_arena.specs.table.Entries.{is_truth, the_truth};
ghost use Rattle.jh_arena.specs.table.Nodes.{nodes};
ghost use Rattle.jh_fca.specs.elimination.Reads.{is_read, holds_read, formula_reads};
ghost use Rattle.jh_fca.specs.elimination.Exchanged.{terms_once};
ghost use Rattle.jh_field_constraints.specs.Standing.{IsTerm, AreTerms, AreReads};
ghost use Rattle.jh_field_constraints.specs.Reading.{is_object_read, IsLocalAtom};

use crate::naming::is_name;
use jh_arena::table::{Shape, Table};
use jh_name::{Name, NoMemory};
use jh_normal_forms::parts::{NodeList, Order, PartTest};

/// Asks for the reads of a field, at any sort.
#[derive(Drop)]
struct Reads<'a> {
    name: &'a Name,
}

impl PartTest for Reads<'_> {
    ghost test = { λ test. is_read test.name.now };

    fn asks(&self, table: &Table, node: usize) -> bool {
        match table.shape(node) {
            Shape::ReadObject(field, _) => is_name(table, field, self.name),
            Shape::ReadNumber(field, _) => is_name(table, field, self.name),
            Shape::ReadTruth(field, _) => is_name(table, field, self.name),
            Shape::ReadSet(field, _) => is_name(table, field, self.name),
            _ => false,
        }
    }
}

/// Asks for the reads of a field that give objects.
#[derive(Drop)]
struct ObjectReads<'a> {
    name: &'a Name,
}

impl PartTest for ObjectReads<'_> {
    ghost test = { λ test. is_object_read test.name.now };

    fn asks(&self, table: &Table, node: usize) -> bool {
        match table.shape(node) {
            Shape::ReadObject(field, _) => is_name(table, field, self.name),
            _ => false,
        }
    }
}

/// Whether a formula reads a field.
fn holds_read(table: &Table, name: &Name, formula: usize) -> Result<bool, NoMemory>
    requires formula { is_truth (slice_get (nodes table.now) formula) ≡ true }
    ensures { IfOk result (λ holds. holds ≡ holds_read name.now (the_truth (slice_get (nodes table.now) formula))) }
{
    let mut list = NodeList::new(table.alloc());
    list.add_parts(table, &Reads { name }, Order::InnerFirst, formula)?;
    Ok(list.len() != 0)
}

/// Whether one of two is so.
fn either(left: bool, right: bool) -> bool
    ensures { result ≡ (left || right) }
{
    left || right
}

/// Whether one of two formulas reads a field.
pub(crate) fn either_reads(table: &Table, name: &Name, a: usize, b: usize) -> Result<bool, NoMemory>
    requires a { is_truth (slice_get (nodes table.now) a) ≡ true }
    requires b { is_truth (slice_get (nodes table.now) b) ≡ true }
    ensures { IfOk result (λ holds. holds ≡ (holds_read name.now (the_truth (slice_get (nodes table.now) a)) || holds_read name.now (the_truth (slice_get (nodes table.now) b)))) }
{
    let left = holds_read(table, name, a)?;
    let right = holds_read(table, name, b)?;
    Ok(either(left, right))
}

/// The term at which a read reads.
fn object_of(table: &Table, read: usize) -> usize
    requires inside { read < length (nodes table.now) }
    ensures { (g : FieldTree) (a : TermTree) → IsTerm table.now read (t.read_object g a) → IsTerm table.now result a }
{
    match table.shape(read) {
        Shape::ReadObject(_, at) => at,
        _ => read,
    }
}

/// The terms at which the reads of a list read.
fn objects_of(table: &Table, list: &NodeList) -> Result<Vec<usize>, NoMemory>
    requires list { (f : Name) × (reads : List TermTree) × AreReads table.now f list.now reads }
    ensures { IfOk result (λ made. (f : Name) (reads : List TermTree) → AreReads table.now f list.now reads → AreTerms table.now made.items reads) }
{
    let mut made = Vec::new(table.alloc());
    for place in 0..list.len() {
        made.push(object_of(table, list.at(place)))?;
    }
    Ok(made)
}

/// The terms at which an atom of local shape reads a field that gives objects, each once, those inside a read before that of the read.
pub(crate) fn reads_of(table: &Table, name: &Name, atom: usize) -> Result<Vec<usize>, NoMemory>
    requires atom { IsLocalAtom (nodes table.now) atom }
    ensures { IfOk result (λ made. AreTerms table.now made.items (terms_once (formula_reads (the_truth (slice_get (nodes table.now) atom)) name.now))) }
{
    table.nodes_differ();
    let mut list = NodeList::new(table.alloc());
    list.add_parts(table, &ObjectReads { name }, Order::InnerFirst, atom)?;
    objects_of(table, &list)
}
