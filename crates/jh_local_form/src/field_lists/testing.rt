ghost use Rattle.std.specs.Prelude.{◌≡◌, ◌<◌, ◌&&◌, not, true, IfSome, List, Some, None, length, nat_eq, nat_le, position, slice_get};
ghost use Rattle.std.specs.List.{list_any};
ghost use Rattle.jh_form.specs.Tree.{FieldTree, of_field};
ghost use Rattle.jh_arena.specs.table.Entries.{are_fields, is_field, the_field};
ghost use Rattle.jh_arena.specs.table.Nodes.{nodes};
ghost use Rattle.jh_reach.specs.Standing.{AreFields};
ghost use Rattle.jh_fca.specs.local_form.Chains.{are_different_names, has_axioms};
ghost use Rattle.jh_local_form.specs.field_lists.Testing.{is_free_field, all_apart};

use jh_arena::table::{Shape, Table};

/// Whether a field is a name.
fn is_name(table: &Table, field: usize) -> bool
    requires { is_field (slice_get (nodes table.now) field) ≡ true }
    ensures { result ≡ is_free_field (the_field (slice_get (nodes table.now) field)) }
{
    match table.shape(field) {
        Shape::FreeField(_) => true,
        _ => false,
    }
}

/// Whether a node is one of these.
fn is_among(node: usize, others: &[usize]) -> bool
    ensures { result ≡ list_any (nat_eq node) others.now }
{
    others.iter().any(|other| node == *other)
}

/// Whether each field is a name, and none is another's.
fn all_differ(table: &Table, fields: &[usize]) -> bool
    requires { are_fields (nodes table.now) fields.now ≡ true }
    ensures { result ≡ all_apart (nodes table.now) fields.now }
{
    for place in 0..fields.len() {
        let field = fields[place];
        if !is_name(table, field) || is_among(field, &fields[place + 1..]) {
            return false;
        }
    }
    true
}

/// Whether there are one to four.
fn is_short(fields: &[usize]) -> bool
    ensures { result ≡ (nat_le 1 (length fields.now) && nat_le (length fields.now) 4) }
{
    1 <= fields.len() && fields.len() <= 4
}

/// Whether axioms are given for a list of fields: it has one to four, different names.
pub(crate) fn has_axioms(table: &Table, fields: &[usize]) -> bool
    requires { are_fields (nodes table.now) fields.now ≡ true }
    ensures { (fs : List FieldTree) → AreFields table.now fields.now fs → result ≡ has_axioms fs }
{
    table.nodes_differ();
    is_short(fields) && all_differ(table, fields)
}

/// The place of a field in a list, or none where it isn't there.
pub(crate) fn place_of(fields: &[usize], field: usize) -> Option<usize>
    ensures { result ≡ position (nat_eq field) fields.now }
{
    fields.iter().position(|other| field == *other)
}
