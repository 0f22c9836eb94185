#![tactic(auto, unfolding(crate::specs::parts::Asked::is_update_shape, crate::specs::parts::Asked::is_field_list_shape, crate::specs::parts::Asked::is_free_name_shape))]

ghost use Rattle.std.specs.Prelude.{◌≡◌};
ghost use Rattle.jh_normal_forms.specs.parts.Asked.{is_closed_object, is_update, is_field_list, is_free_name, is_update_shape, is_field_list_shape, is_free_name_shape};

use crate::parts::PartTest;
use jh_arena::table::{Shape, Table};
use jh_name::Sort;

/// Asks for the terms for objects that have no loose bound variable.
#[derive(Clone, Copy)]
pub struct ClosedObjects;

impl PartTest for ClosedObjects {
    ghost test = { λ test. is_closed_object };

    fn asks(&self, table: &Table, node: usize) -> bool {
        match table.sort(node) {
            Sort::Obj => table.is_closed(node),
            _ => false,
        }
    }
}

/// Asks for the updates of fields.
#[derive(Clone, Copy)]
pub struct Updates;

impl PartTest for Updates {
    ghost test = { λ test. is_update };

    fn asks(&self, table: &Table, node: usize) -> bool {
        is_update(table.shape(node))
    }
}

/// Asks for the formulas that speak of a list of fields: that an object is reached along them, and that they are a
/// forest.
#[derive(Clone, Copy)]
pub struct FieldLists;

impl PartTest for FieldLists {
    ghost test = { λ test. is_field_list };

    fn asks(&self, table: &Table, node: usize) -> bool {
        is_field_list(table.shape(node))
    }
}

/// Asks for the free names, each at its sort: the shape of a node that is found says both.
#[derive(Clone, Copy)]
pub struct FreeNames;

impl PartTest for FreeNames {
    ghost test = { λ test. is_free_name };

    fn asks(&self, table: &Table, node: usize) -> bool {
        is_free_name(table.shape(node))
    }
}

fn is_update(shape: Shape) -> bool
    ensures { result ≡ is_update_shape shape }
{
    match shape {
        Shape::Update(_, _, _) => true,
        _ => false,
    }
}

fn is_field_list(shape: Shape) -> bool
    ensures { result ≡ is_field_list_shape shape }
{
    match shape {
        Shape::Reach(_, _, _) => true,
        Shape::Tree(_) => true,
        _ => false,
    }
}

fn is_free_name(shape: Shape) -> bool
    ensures { result ≡ is_free_name_shape shape }
{
    match shape {
        Shape::FreeObject(_) => true,
        Shape::FreeNumber(_) => true,
        Shape::FreeTruth(_) => true,
        Shape::FreeSet(_) => true,
        Shape::FreeField(_) => true,
        _ => false,
    }
}
