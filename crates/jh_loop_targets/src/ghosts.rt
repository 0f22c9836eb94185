#![tactic(auto, using(jh_arena::proofs::table::PartSteps::part_steps))]

ghost use Rattle.std.specs.Prelude.{◌≡◌, ◌<◌, length, option_map, slice_get, true};
ghost use Rattle.jh_arena.specs.table.Entries.{is_field, the_field, the_value};
ghost use Rattle.jh_arena.specs.table.Nodes.{nodes};
ghost use Rattle.jh_loop_targets.specs.Telling.{field_text, ghost_text, node_of, value_at};

use jh_arena::table::{Shape, Table};

/// The text of the name that a field is.
fn field_name(table: &Table, field: usize) -> Option<&str>
    requires { is_field (slice_get (nodes table.now) field) ≡ true }
    ensures { option_map (λ x. x.now) result ≡ field_text (the_field (slice_get (nodes table.now) field)) }
{
    match table.shape(field) {
        Shape::FreeField(number) => Some(table.name_at(number).text()),
        _ => None,
    }
}

/// The text of what a ghost assignment writes, by the node of its left side.
fn text_at(table: &Table, node: usize) -> Option<&str>
    requires { node < length (nodes table.now) }
    ensures { option_map (λ x. x.now) result ≡ ghost_text (the_value (slice_get (nodes table.now) node)) }
{
    match table.shape(node) {
        Shape::FreeObject(number) => Some(table.name_at(number).text()),
        Shape::FreeNumber(number) => Some(table.name_at(number).text()),
        Shape::FreeTruth(number) => Some(table.name_at(number).text()),
        Shape::FreeSet(number) => Some(table.name_at(number).text()),
        Shape::ReadObject(field, _object) => field_name(table, field),
        Shape::ReadNumber(field, _object) => field_name(table, field),
        Shape::ReadTruth(field, _object) => field_name(table, field),
        Shape::ReadSet(field, _object) => field_name(table, field),
        _ => None,
    }
}

/// The node of the formula of a number, where there is one.
fn node_at(formulas: &[Option<usize>], number: u32) -> Option<usize>
    ensures { result ≡ node_of formulas.now number }
{
    match formulas.get(number as usize) {
        None => None,
        Some(node) => *node,
    }
}

/// The text of what a ghost assignment writes, by the node of its left side where there is one.
fn text_of_node(table: &Table, node: Option<usize>) -> Option<&str>
    ensures { option_map (λ x. x.now) result ≡ ghost_text (value_at table.now node) }
{
    match node {
        None => None,
        Some(node) => {
            if node < table.len() {
                text_at(table, node)
            } else {
                None
            }
        }
    }
}

/// The text of what a ghost assignment writes, by the number of its left side.
pub fn text_written<'a>(
    table: &'a Table,
    formulas: &[Option<usize>],
    number: u32,
) -> Option<&'a str>
    ensures { option_map (λ x. x.now) result ≡ ghost_text (value_at table.now (node_of formulas.now number)) }
{
    text_of_node(table, node_at(formulas, number))
}
