ghost use Rattle.std.specs.Prelude.{◌≡◌, ◌<◌, true, OnOk, Some, [], ◌∷◌, length, slice_get};
ghost use Rattle.jh_arena.specs.table.Nodes.{nodes, tree_in, fits_in};
ghost use Rattle.jh_arena.specs.table.Own.{own_list};
ghost use Rattle.jh_arena.specs.table.Parts.{ArePartsBelow};
ghost use Rattle.jh_query_names.specs.query_names.Gathered.{value_names, with_names};
ghost use Rattle.jh_query_names.specs.query_names.Kinds.{value_at, names_at};
ghost use Rattle.jh_query_names.specs.query_names.Finding.{AreBelow, IsFound, values_at};

use crate::query_names::found::Found;
use crate::query_names::kinds::{Kind, kind_of};
use jh_arena::table::{Own, Shape, Table};
use jh_name::NoMemory;

/// Adds the names of a node, where it wasn't seen before.
#[cycle(gathering)]
fn gather_node(table: &Table, found: &mut Found, node: usize) -> Result<(), NoMemory>
    requires node { node < length (nodes table.now) }
    requires found { IsFound (nodes table.now) found.old.names.keys found.old.seen.keys }
    ensures names { OnOk result (values_at (nodes table.now) found.new.names.keys ≡ with_names (values_at (nodes table.now) found.old.names.keys) (value_names (value_at (nodes table.now) node))) }
    ensures found { OnOk result (IsFound (nodes table.now) found.new.names.keys found.new.seen.keys) }
{
    let seen = found.has_seen(node);
    if seen {
        return Ok(());
    }
    let shape = table.shape(node);
    gather_shape(table, found, node, shape)?;
    found.see(node)
}

/// Adds the names of a node by its shape.
#[cycle(gathering)]
fn gather_shape(table: &Table, found: &mut Found, node: usize, shape: Shape) -> Result<(), NoMemory>
    requires there { slice_get (nodes table.now) node ≡ Some (tree_in table.now shape) }
    requires fits { fits_in table.now shape ≡ true }
    requires below { ArePartsBelow node table.now.pools.lists shape }
    requires found { IsFound (nodes table.now) found.old.names.keys found.old.seen.keys }
    ensures names { OnOk result (values_at (nodes table.now) found.new.names.keys ≡ with_names (values_at (nodes table.now) found.old.names.keys) (value_names (value_at (nodes table.now) node))) }
    ensures found { OnOk result (IsFound (nodes table.now) found.new.names.keys found.new.seen.keys) }
{
    table.nodes_differ();
    match kind_of(shape) {
        Kind::Name => found.note(node),
        Kind::Parts => gather_parts(table, found, node, shape.own()),
        Kind::Nothing => Ok(()),
    }
}

/// Adds the names of parts, one behind another.
#[cycle(gathering)]
fn gather_parts(table: &Table, found: &mut Found, node: usize, own: Own) -> Result<(), NoMemory>
    requires node { node < length (nodes table.now) }
    requires below { AreBelow node (own_list own) }
    requires found { IsFound (nodes table.now) found.old.names.keys found.old.seen.keys }
    ensures names { OnOk result (values_at (nodes table.now) found.new.names.keys ≡ with_names (values_at (nodes table.now) found.old.names.keys) (names_at (nodes table.now) (own_list own))) }
    ensures found { OnOk result (IsFound (nodes table.now) found.new.names.keys found.new.seen.keys) }
{
    match own {
        Own::None => Ok(()),
        Own::One(a) => gather_node(table, found, a),
        Own::Two(a, b) => gather_two(table, found, node, a, b),
        Own::Three(a, b, c) => {
            gather_two(table, found, node, a, b)?;
            gather_node(table, found, c)
        }
    }
}

/// Adds the names of two nodes, one behind the other.
#[cycle(gathering)]
fn gather_two(
    table: &Table,
    found: &mut Found,
    node: usize,
    a: usize,
    b: usize,
) -> Result<(), NoMemory>
    requires node { node < length (nodes table.now) }
    requires below { (a < node) × (b < node) }
    requires found { IsFound (nodes table.now) found.old.names.keys found.old.seen.keys }
    ensures names { OnOk result (values_at (nodes table.now) found.new.names.keys ≡ with_names (values_at (nodes table.now) found.old.names.keys) (names_at (nodes table.now) (a ∷ b ∷ []))) }
    ensures found { OnOk result (IsFound (nodes table.now) found.new.names.keys found.new.seen.keys) }
{
    gather_node(table, found, a)?;
    gather_node(table, found, b)
}

/// Adds the names of a value: the sets, elements, numbers and flags of which a query speaks, each where it stands first. Each
/// node is looked at once, however often it stands in what was gathered.
pub fn gather(table: &Table, found: &mut Found, node: usize) -> Result<(), NoMemory>
    requires node { node < length (nodes table.now) }
    requires found { IsFound (nodes table.now) found.old.names.keys found.old.seen.keys }
    ensures names { OnOk result (values_at (nodes table.now) found.new.names.keys ≡ with_names (values_at (nodes table.now) found.old.names.keys) (value_names (value_at (nodes table.now) node))) }
    ensures found { OnOk result (IsFound (nodes table.now) found.new.names.keys found.new.seen.keys) }
{
    if !table.is_shallow(node) {
        return Err(NoMemory);
    }
    gather_node(table, found, node)
}
