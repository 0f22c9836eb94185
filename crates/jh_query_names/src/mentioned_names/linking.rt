ghost use Rattle.std.specs.Prelude.{◌≡◌, ◌<◌, ◌==◌, IfOk, length, slice_get, filter, true};
ghost use Rattle.std.specs.List.{list_any};
ghost use Rattle.jh_arena.specs.table.Nodes.{nodes};
ghost use Rattle.jh_query_names.specs.query_names.Kinds.{value_at};
ghost use Rattle.jh_approx.specs.definition.Links as spec;
ghost use Rattle.jh_query_names.specs.mentioned_names.Linking as linking;
ghost use Rattle.jh_query_names.specs.mentioned_names.Notes.{AreInside};

use jh_arena::table::{Shape, Table};
use jh_name::{Name, NoMemory, Row, Sort};
use std::alloc::Global;

/// Whether a text has a dot.
fn has_dot(text: &[u8]) -> bool
    ensures { result ≡ list_any (λ b. b == 46) text.now }
{
    text.iter().any(|byte| *byte == 46)
}

/// Whether a free set is `alloc` or the set of the objects of a class: its text has no dot.
#[tactic(auto, unfolding(jh_approx::specs::definition::Links::is_class_set))]
pub fn is_class_set(name: &Name) -> bool
    ensures { result ≡ spec.is_class_set name.now }
{
    !has_dot(name.text().as_bytes())
}

/// Whether names of a sort link hypotheses, but class sets and null.
#[tactic(auto, unfolding(crate::specs::mentioned_names::Linking::sort_links))]
fn sort_links(few: bool, sort: Sort) -> bool
    ensures { result ≡ linking.sort_links few sort }
{
    match sort {
        Sort::Obj => !few,
        Sort::Int => true,
        Sort::Bool => !few,
        Sort::Set => true,
        Sort::Field => false,
    }
}

/// Whether a name links hypotheses: a set but a class set, or a number, and where the goal has few such names also a
/// flag, or an object but null.
fn is_link(table: &Table, few: bool, node: usize) -> bool
    requires { node < length (nodes table.now) }
    ensures { result ≡ linking.linking few (value_at (nodes table.now) node) }
{
    match table.shape(node) {
        Shape::FreeSet(name) => !is_class_set(table.name_at(name)),
        Shape::Null => false,
        _ => sort_links(few, table.sort(node)),
    }
}

/// The node at a place.
fn node_at(row: &[usize], place: usize) -> usize
    requires { place < length row.now }
    ensures { slice_get row.now place ≡ Some result }
{
    row[place]
}

/// Whether one of the names is a set or a number that links hypotheses.
pub fn has_links(table: &Table, row: &[usize]) -> bool
    requires { AreInside (nodes table.now) row.now }
    ensures { result ≡ list_any (λ n. linking.linking true (value_at (nodes table.now) n)) row.now }
{
    for place in 0..row.len() {
        if is_link(table, true, node_at(row, place)) {
            return true;
        }
    }
    false
}

/// The names that link hypotheses.
pub fn links(alloc: Global, table: &Table, few: bool, row: &[usize]) -> Result<Row<usize>, NoMemory>
    requires { AreInside (nodes table.now) row.now }
    ensures { IfOk result (λ made. made ≡ filter (λ n. linking.linking few (value_at (nodes table.now) n)) row.now) }
{
    let mut kept = Vec::new(alloc);
    for place in 0..row.len() {
        let node = node_at(row, place);
        if is_link(table, few, node) {
            kept.push(node)?;
        }
    }
    Ok(Row::of(kept))
}
