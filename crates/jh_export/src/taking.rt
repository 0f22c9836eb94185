ghost use Rattle.std.specs.Prelude.{◌≡◌, ◌<◌, ◌↔◌, IsTrue, true, IfOk, length, slice_get};
ghost use Rattle.jh_form.specs.Bare.{term_tree, int_tree, set_tree, field_tree, value_tree, formula_tree};
ghost use Rattle.jh_arena.specs.table.Entries.{is_object, is_number, is_set, is_field, is_truth, the_object, the_number, the_set, the_field, the_truth, the_value};
ghost use Rattle.jh_arena.specs.table.Nodes.{nodes};
ghost use Rattle.jh_export.specs.Room.{IsSmall};

use crate::making::{formula_box, make_field, make_int, make_set, make_term, value_box};
use jh_arena::table::{MOST_LEVELS, Table};
use jh_form::{FieldTerm, Formula, IntTerm, SetTerm, Term, Value};
use jh_name::NoMemory;

/// The most nodes of a tree that is taken out of a table: 2^26.
pub const MOST_NODES: u64 = 1 << 26;

/// Whether the tree of a node is small enough to be made.
fn has_room(table: &Table, node: usize) -> bool
    requires { node < length (nodes table.now) }
    ensures { IsTrue result ↔ IsSmall (the_value (slice_get (nodes table.now) node)) }
{
    table.size(node) <= MOST_NODES && table.depth(node) <= MOST_LEVELS
}

/// The value of a node of any sort. The answer is want of memory where the tree has more than
/// MOST_NODES nodes or nests deeper than MOST_LEVELS. Parts are counted wherever they stand, so a few
/// nodes of a table may be such a tree; it is answered at once, and no part of it is made. Else the
/// time is in proportion to the tree's nodes.
pub fn boxed_value(table: &Table, node: usize) -> Result<Value, NoMemory>
    requires { node < length (nodes table.now) }
    ensures small { IfOk result (λ made. IsSmall (the_value (slice_get (nodes table.now) node))) }
    ensures tree { IfOk result (λ made. value_tree made ≡ the_value (slice_get (nodes table.now) node)) }
{
    if has_room(table, node) {
        let made = value_box(table, node)?;
        Ok(Box::into_inner(made))
    } else {
        Err(NoMemory)
    }
}

/// The term of a node for an object. The answer is want of memory where the tree has more than MOST_NODES
/// nodes or nests deeper than MOST_LEVELS, as for `value`. Else the time is in proportion to the tree's
/// nodes.
#[tactic(auto, using(crate::proofs::Places::inside_steps))]
pub fn boxed_term(table: &Table, node: usize) -> Result<Term, NoMemory>
    requires { is_object (slice_get (nodes table.now) node) ≡ true }
    ensures small { IfOk result (λ made. IsSmall (the_value (slice_get (nodes table.now) node))) }
    ensures tree { IfOk result (λ made. term_tree made ≡ the_object (slice_get (nodes table.now) node)) }
{
    if has_room(table, node) {
        make_term(table, node)
    } else {
        Err(NoMemory)
    }
}

/// The term of a node for a number. The answer is want of memory where the tree has more than MOST_NODES
/// nodes or nests deeper than MOST_LEVELS, as for `value`. Else the time is in proportion to the tree's
/// nodes.
#[tactic(auto, using(crate::proofs::Places::inside_steps))]
pub fn boxed_int(table: &Table, node: usize) -> Result<IntTerm, NoMemory>
    requires { is_number (slice_get (nodes table.now) node) ≡ true }
    ensures small { IfOk result (λ made. IsSmall (the_value (slice_get (nodes table.now) node))) }
    ensures tree { IfOk result (λ made. int_tree made ≡ the_number (slice_get (nodes table.now) node)) }
{
    if has_room(table, node) {
        make_int(table, node)
    } else {
        Err(NoMemory)
    }
}

/// The term of a node for a set. The answer is want of memory where the tree has more than MOST_NODES
/// nodes or nests deeper than MOST_LEVELS, as for `value`. Else the time is in proportion to the tree's
/// nodes.
#[tactic(auto, using(crate::proofs::Places::inside_steps))]
pub fn boxed_set(table: &Table, node: usize) -> Result<SetTerm, NoMemory>
    requires { is_set (slice_get (nodes table.now) node) ≡ true }
    ensures small { IfOk result (λ made. IsSmall (the_value (slice_get (nodes table.now) node))) }
    ensures tree { IfOk result (λ made. set_tree made ≡ the_set (slice_get (nodes table.now) node)) }
{
    if has_room(table, node) {
        make_set(table, node)
    } else {
        Err(NoMemory)
    }
}

/// The field of a node. The answer is want of memory where the tree has more than MOST_NODES
/// nodes or nests deeper than MOST_LEVELS, as for `value`. Else the time is in proportion to the tree's
/// nodes.
#[tactic(auto, using(crate::proofs::Places::inside_steps))]
pub fn boxed_field(table: &Table, node: usize) -> Result<FieldTerm, NoMemory>
    requires { is_field (slice_get (nodes table.now) node) ≡ true }
    ensures small { IfOk result (λ made. IsSmall (the_value (slice_get (nodes table.now) node))) }
    ensures tree { IfOk result (λ made. field_tree made ≡ the_field (slice_get (nodes table.now) node)) }
{
    if has_room(table, node) {
        make_field(table, node)
    } else {
        Err(NoMemory)
    }
}

/// The formula of a node. The answer is want of memory where the tree has more than MOST_NODES
/// nodes or nests deeper than MOST_LEVELS, as for `value`. Else the time is in proportion to the tree's
/// nodes.
#[tactic(auto, using(crate::proofs::Places::inside_steps))]
pub fn boxed_formula(table: &Table, node: usize) -> Result<Formula, NoMemory>
    requires { is_truth (slice_get (nodes table.now) node) ≡ true }
    ensures small { IfOk result (λ made. IsSmall (the_value (slice_get (nodes table.now) node))) }
    ensures tree { IfOk result (λ made. formula_tree made ≡ the_truth (slice_get (nodes table.now) node)) }
{
    if has_room(table, node) {
        let made = formula_box(table, node)?;
        Ok(Box::into_inner(made))
    } else {
        Err(NoMemory)
    }
}
