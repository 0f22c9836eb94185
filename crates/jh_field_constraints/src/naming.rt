#![tactic(auto, unfolding(jh_fca::specs::elimination::Constraints::other_than))]

ghost use Rattle.std.specs.Prelude.{◌≡◌, ◌<◌, true, Some, length, slice_get};
ghost use Rattle.jh_name.specs.declared.naming.Name.{Name};
ghost use Rattle.jh_arena.specs.table.Entries.{is_field, is_object, the_field, the_object};
ghost use Rattle.jh_arena.specs.table.Nodes.{nodes};
ghost use Rattle.jh_fca.specs.elimination.Constraints.{is_name, is_variable, other_than};
ghost use Rattle.jh_field_constraints.specs.Standing.{IsNamed};

use jh_arena::table::{Shape, Table};
use jh_boxed::NameTest;
use jh_boxed_operations::substitution::names_are_one;
use jh_name::{Name, Sort};

/// The test of a free name that says that it isn't the field of this name.
#[derive(Drop)]
pub(crate) struct OtherThan<'a> {
    pub(crate) name: &'a Name,
}

impl NameTest for OtherThan<'_> {
    ghost test = { λ other x s. other_than other.name.now x s };

    fn passes(&self, name: &Name, sort: Sort) -> bool {
        match sort {
            Sort::Field => !names_are_one(name, self.name),
            Sort::Obj => true,
            Sort::Int => true,
            Sort::Bool => true,
            Sort::Set => true,
        }
    }
}

/// Whether a field is this name.
pub(crate) fn is_name(table: &Table, field: usize, name: &Name) -> bool
    requires field { is_field (slice_get (nodes table.now) field) ≡ true }
    ensures { result ≡ is_name name.now (the_field (slice_get (nodes table.now) field)) }
{
    match table.shape(field) {
        Shape::FreeField(number) => names_are_one(table.name_at(number), name),
        _ => false,
    }
}

/// Whether a term is the bound variable of this number.
pub(crate) fn is_variable(table: &Table, number: u32, term: usize) -> bool
    requires term { is_object (slice_get (nodes table.now) term) ≡ true }
    ensures { result ≡ is_variable number (the_object (slice_get (nodes table.now) term)) }
{
    match table.shape(term) {
        Shape::Bound(other) => other == number,
        _ => false,
    }
}

/// The name that a field is.
pub(crate) fn name_of(table: &Table, field: usize) -> &Name
    requires field { (f : Name) × IsNamed table.now field f }
    ensures { (f : Name) → IsNamed table.now field f → result.now ≡ f }
{
    match table.shape(field) {
        Shape::FreeField(number) => table.name_at(number),
        _ => unreachable!(),
    }
}

/// The node at a place.
pub(crate) fn node_at(row: &[usize], place: usize) -> usize
    requires { place < length row.now }
    ensures { slice_get row.now place ≡ Some result }
{
    row[place]
}
