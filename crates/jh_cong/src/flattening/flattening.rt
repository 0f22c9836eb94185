ghost use Rattle.std.specs.Prelude.{◌≡◌, ◌<◌, ℕ, IfOk, OnOk, Some, length, slice_get, true};
ghost use Rattle.jh_arena.specs.table.Nodes.{nodes, fits_in};
ghost use Rattle.jh_arena.specs.table.Parts.{ArePartsBelow, list_parts};
ghost use Rattle.jh_cong.specs.flattening.Flattening.{Flattens};
ghost use Rattle.jh_cong.specs.flattening.Plain.{AddsHelpers, AreBehind, AreMade, IsMade, IsPlain, flat, sort_at};

use crate::flattening::flat::{Flat, OWN, REACH, TREE, flat_of, update_of};
use crate::flattening::helpers::{add_chain, add_factor, add_number, add_pair};
use jh_arena::table::{Shape, Table};
use jh_closure::congruence_closure::Node;
use jh_name::NoMemory;
use std::alloc::Global;

/// The fields of a shape's list.
fn fields_of(table: &Table, shape: Shape) -> &[usize]
    requires { fits_in table.now shape ≡ true }
    ensures { result.now ≡ list_parts table.now.pools.lists shape }
{
    match shape.list() {
        Some(list) => table.list_at(list),
        None => &[],
    }
}

/// The plain node at a place.
fn made_at(made: &[Node], place: usize) -> Node
    requires { place < length made.now }
    ensures { slice_get made.now place ≡ Some result }
{
    made[place]
}

/// The plain node of a shape, where those of its parts are made.
fn plain_of_shape(
    table: &Table,
    made: &[Node],
    helpers: &mut Vec<Node>,
    count: usize,
    number: usize,
    shape: Shape,
) -> Result<Node, NoMemory>
    requires count { count ≡ length (nodes table.now) }
    requires number { number < count }
    requires made { length made.now ≡ number }
    requires fits { fits_in table.now shape ≡ true }
    requires below { ArePartsBelow number table.now.pools.lists shape }
    ensures plain { IfOk result (λ node. IsPlain count made.now helpers.new.items (sort_at table.now) (list_parts table.now.pools.lists shape) number (flat shape) node) }
    ensures adds { OnOk result (AddsHelpers count helpers.old.items helpers.new.items) }
{
    match flat_of(shape) {
        Flat::Leaf => {
            let own = add_number(helpers, count, number)?;
            Ok(Node::Apply(OWN, own, own))
        }
        Flat::Unary(operation, part) => Ok(Node::Apply(operation, part, part)),
        Flat::Binary(operation, left, right) => Ok(Node::Apply(operation, left, right)),
        Flat::Scaled(operation, factor, part) => {
            let given = add_factor(helpers, count, factor)?;
            Ok(Node::Apply(operation, given, part))
        }
        Flat::Updated(field, at, value) => {
            let operation = update_of(table.sort(value));
            let stored = add_pair(helpers, count, at, value)?;
            Ok(Node::Apply(operation, field, stored))
        }
        Flat::Reaches(from, to) => {
            let chain = add_chain(helpers, count, fields_of(table, shape))?;
            let ends = add_pair(helpers, count, from, to)?;
            Ok(Node::Apply(REACH, chain, ends))
        }
        Flat::Listed => {
            let fields = add_chain(helpers, count, fields_of(table, shape))?;
            Ok(Node::Apply(TREE, fields, fields))
        }
        Flat::Same(part) => Ok(made_at(made, part)),
    }
}

/// The plain node of a node, where those of the nodes before it are made.
fn plain_of(
    table: &Table,
    made: &[Node],
    helpers: &mut Vec<Node>,
    number: usize,
) -> Result<Node, NoMemory>
    requires number { number < length (nodes table.now) }
    requires made { length made.now ≡ number }
    ensures made { IfOk result (λ node. IsMade table.now made.now helpers.new.items number node) }
    ensures adds { OnOk result (AddsHelpers (length (nodes table.now)) helpers.old.items helpers.new.items) }
{
    let count = table.len();
    let shape = table.shape(number);
    plain_of_shape(table, made, helpers, count, number, shape)
}

/// Makes the plain nodes and their helpers.
fn fill(table: &Table, made: &mut Vec<Node>, helpers: &mut Vec<Node>) -> Result<(), NoMemory>
    requires made { length made.old.items ≡ 0 }
    requires behind { AreBehind (length (nodes table.now)) helpers.old.items }
    ensures made { OnOk result (AreMade table.now made.new.items helpers.new.items) }
    ensures count { OnOk result (length made.new.items ≡ length (nodes table.now)) }
    ensures behind { OnOk result (AreBehind (length (nodes table.now)) helpers.new.items) }
{
    for number in 0..table.len() {
        let node = plain_of(table, made.as_slice(), helpers, number)?;
        made.push(node)?;
    }
    Ok(())
}

/// The nodes of a table as plain nodes, each under its own number, with helpers behind them. Labels are passed over.
pub fn flattened(alloc: Global, table: &Table) -> Result<Vec<Node>, NoMemory>
    ensures { IfOk result (λ made. Flattens (nodes table.now) made.items) }
{
    table.nodes_differ();
    let mut made = Vec::new(alloc);
    let mut helpers = Vec::new(alloc);
    fill(table, &mut made, &mut helpers)?;
    made.extend_from_slice(helpers.as_slice())?;
    Ok(made)
}
