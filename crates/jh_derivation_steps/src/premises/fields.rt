ghost use Rattle.std.specs.Prelude.{◌≡◌, ◌<◌, ◌&&◌, true, List, IfOk, Some, length, nat_eq, nat_le, slice_get};
ghost use Rattle.std.specs.List.{list_any};
ghost use Rattle.jh_form.specs.Tree.{FieldTree};
ghost use Rattle.jh_arena.specs.table.Nodes.{nodes};
ghost use Rattle.jh_reach.specs.Standing.{AreFields};
ghost use Rattle.jh_derivation_rules.specs.Cited.{members, has_axioms};
ghost use Rattle.jh_derivation_steps.specs.premises.Apart.{all_apart};
ghost use Rattle.jh_derivation_steps.specs.premises.Nodes.{formula_at, forest_fields, IsForest};

use jh_arena::table::{Shape, Table};
use jh_name::NoMemory;

/// The item at a place of a list, where there is one.
pub fn item_at(items: &[usize], place: usize) -> Option<usize>
    ensures { result ≡ slice_get items.now place }
{
    items.get(place).copied()
}

/// Whether a node is one of these.
fn is_among(node: usize, others: &[usize]) -> bool
    ensures { result ≡ list_any (nat_eq node) others.now }
{
    others.iter().any(|other| node == *other)
}

/// Whether no two of these nodes are one.
fn all_differ(fields: &[usize]) -> bool
    ensures { result ≡ all_apart fields.now }
{
    for place in 0..fields.len() {
        if is_among(fields[place], &fields[place + 1..]) {
            return false;
        }
    }
    true
}

/// Whether there are one to four.
fn is_short(fields: &[usize]) -> bool
    ensures { result ≡ (nat_le 1 (length fields.now) && nat_le (length fields.now) 4) }
{
    1 <= fields.len() && fields.len() <= 4
}

/// Whether steps may cite axioms of a list of fields: it has one to four, and no two are the same.
pub fn has_axioms(table: &Table, fields: &[usize]) -> bool
    ensures { (fs : List FieldTree) → AreFields table.now fields.now fs → result ≡ has_axioms fs }
{
    table.nodes_differ();
    is_short(fields) && all_differ(fields)
}

/// The nodes of a list of fields.
fn copied(table: &Table, list: usize) -> Result<Vec<usize>, NoMemory>
    requires { list < length table.now.pools.lists }
    ensures { IfOk result (λ made. slice_get table.now.pools.lists list ≡ Some made.items) }
{
    let mut made = Vec::new(table.alloc());
    made.extend_from_slice(table.list_at(list))?;
    Ok(made)
}

/// The nodes of the fields that a node says to be a forest.
pub fn fields_of(table: &Table, node: usize) -> Result<Vec<usize>, NoMemory>
    requires { IsForest (nodes table.now) node }
    ensures { IfOk result (λ made. AreFields table.now made.items (members (forest_fields (formula_at (nodes table.now) node)))) }
{
    match table.shape(node) {
        Shape::Tree(list) => copied(table, list),
        _ => Err(NoMemory),
    }
}
