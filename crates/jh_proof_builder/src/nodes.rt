#![tactic(auto, using(crate::proofs::Sorts::sort_steps))]

ghost use Rattle.std.specs.Prelude.{◌≡◌, ◌<◌, IsTrue, true, length, slice_get};
ghost use Rattle.jh_form.specs.Closed.{is_closed_term};
ghost use Rattle.jh_arena.specs.table.Entries.{is_field, is_number, is_object, is_set, is_truth, the_object};
ghost use Rattle.jh_arena.specs.table.Nodes.{fits_in, nodes};

use jh_arena::table::{Shape, Table};
use jh_name::Sort;

/// The shape of a node, and that of null where no node has this number. It takes no memory.
pub fn shape_of(table: &Table, node: usize) -> Shape
    ensures { fits_in table.now result ≡ true }
{
    if node < table.len() {
        table.shape(node)
    } else {
        Shape::Null
    }
}

/// Whether a number is that of the node of a formula. It takes no memory.
pub fn is_formula(table: &Table, node: usize) -> bool
    ensures { IsTrue result → is_truth (slice_get (nodes table.now) node) ≡ true }
{
    if node >= table.len() {
        return false;
    }
    match table.sort(node) {
        Sort::Bool => true,
        _ => false,
    }
}

/// Whether two numbers are those of nodes of formulas.
pub(crate) fn are_formulas(table: &Table, a: usize, b: usize) -> bool
    ensures first { IsTrue result → is_truth (slice_get (nodes table.now) a) ≡ true }
    ensures second { IsTrue result → is_truth (slice_get (nodes table.now) b) ≡ true }
{
    if is_formula(table, a) {
        is_formula(table, b)
    } else {
        false
    }
}

/// Whether a number is that of the node of a term for an object. It takes no memory.
pub fn is_object(table: &Table, node: usize) -> bool
    ensures { IsTrue result → is_object (slice_get (nodes table.now) node) ≡ true }
{
    if node >= table.len() {
        return false;
    }
    match table.sort(node) {
        Sort::Obj => true,
        _ => false,
    }
}

/// Whether two numbers are those of nodes of terms for objects.
pub(crate) fn are_objects(table: &Table, a: usize, b: usize) -> bool
    ensures first { IsTrue result → is_object (slice_get (nodes table.now) a) ≡ true }
    ensures second { IsTrue result → is_object (slice_get (nodes table.now) b) ≡ true }
{
    if is_object(table, a) {
        is_object(table, b)
    } else {
        false
    }
}

/// Whether a number is that of the node of a term for a number.
pub(crate) fn is_number(table: &Table, node: usize) -> bool
    ensures { IsTrue result → is_number (slice_get (nodes table.now) node) ≡ true }
{
    if node >= table.len() {
        return false;
    }
    match table.sort(node) {
        Sort::Int => true,
        _ => false,
    }
}

/// Whether a number is that of the node of a set.
pub(crate) fn is_set(table: &Table, node: usize) -> bool
    ensures { IsTrue result → is_set (slice_get (nodes table.now) node) ≡ true }
{
    if node >= table.len() {
        return false;
    }
    match table.sort(node) {
        Sort::Set => true,
        _ => false,
    }
}

/// Whether a number is that of the node of a field.
pub(crate) fn is_field(table: &Table, node: usize) -> bool
    ensures { IsTrue result → is_field (slice_get (nodes table.now) node) ≡ true }
{
    if node >= table.len() {
        return false;
    }
    match table.sort(node) {
        Sort::Field => true,
        _ => false,
    }
}

/// Whether a number is that of the node of a closed term for an object.
pub(crate) fn is_closed_object(table: &Table, node: usize) -> bool
    ensures object { IsTrue result → is_object (slice_get (nodes table.now) node) ≡ true }
    ensures closed { IsTrue result → is_closed_term (the_object (slice_get (nodes table.now) node)) 0 ≡ true }
{
    if node >= table.len() {
        return false;
    }
    if is_object(table, node) {
        table.is_closed(node)
    } else {
        false
    }
}
