ghost use Rattle.std.specs.Prelude.{◌≡◌, ◌<◌, true, IfOk, length, nat_eq, slice_get};
ghost use Rattle.std.specs.List.{position_or_len};
ghost use Rattle.jh_arena.specs.table.Entries.{is_number, is_object, is_set, is_truth};
ghost use Rattle.jh_arena.specs.table.Nodes.{nodes};
ghost use Rattle.jh_approx.specs.definition.Names.{place_in};
ghost use Rattle.jh_query_names.specs.query_names.Finding.{AreBelow, values_at};
ghost use Rattle.jh_query_names.specs.query_names.Kinds.{value_at};
ghost use Rattle.jh_query_names.specs.name_lists.Lists.{AreListed};
ghost use Rattle.jh_abstraction.specs.translation.Telling.{element_place, flag_place, number_place, set_place};

use indexmap::IndexSet;
use jh_arena::table::Table;
use jh_name::NoMemory;
use jh_query_names::name_lists::Listed;

/// A count as a query has it; want of memory beyond u32.
pub(crate) fn small(count: usize) -> Result<u32, NoMemory>
    ensures { IfOk result (λ made. made ≡ count) }
{
    match u32::try_from(count) {
        Ok(made) => Ok(made),
        Err(_) => Err(NoMemory),
    }
}

/// The place of a node in a list of nodes; how many there are, where it isn't there.
fn place_or_len(list: &IndexSet<usize>, node: usize) -> usize
    ensures { result ≡ position_or_len (nat_eq node) list.now.keys }
{
    match list.get_index_of(&node) {
        Some(place) => place,
        None => list.len(),
    }
}

/// The place of a name in a list of names, by their nodes.
pub(crate) fn place_of(table: &Table, list: &IndexSet<usize>, node: usize) -> Result<u32, NoMemory>
    requires node { node < length (nodes table.now) }
    requires list { AreBelow (length (nodes table.now)) list.now.keys }
    ensures { IfOk result (λ place. place ≡ place_in (values_at (nodes table.now) list.now.keys) (value_at (nodes table.now) node)) }
{
    table.nodes_differ();
    small(place_or_len(list, node))
}

/// The place of an element.
#[tactic(auto, using(jh_export::proofs::Places::inside_steps))]
pub(crate) fn place_of_element(table: &Table, names: &Listed, node: usize) -> Result<u32, NoMemory>
    requires names { AreListed (nodes table.now) names.now }
    requires object { is_object (slice_get (nodes table.now) node) ≡ true }
    ensures { IfOk result (λ place. place ≡ element_place (nodes table.now) names.now node) }
{
    place_of(table, &names.elements, node)
}

/// The place of a set that has a name.
#[tactic(auto, using(jh_export::proofs::Places::inside_steps))]
pub(crate) fn place_of_set(table: &Table, names: &Listed, node: usize) -> Result<u32, NoMemory>
    requires names { AreListed (nodes table.now) names.now }
    requires set { is_set (slice_get (nodes table.now) node) ≡ true }
    ensures { IfOk result (λ place. place ≡ set_place (nodes table.now) names.now node) }
{
    place_of(table, &names.sets, node)
}

/// The place of a number that has a name.
#[tactic(auto, using(jh_export::proofs::Places::inside_steps))]
pub(crate) fn place_of_number(table: &Table, names: &Listed, node: usize) -> Result<u32, NoMemory>
    requires names { AreListed (nodes table.now) names.now }
    requires number { is_number (slice_get (nodes table.now) node) ≡ true }
    ensures { IfOk result (λ place. place ≡ number_place (nodes table.now) names.now node) }
{
    place_of(table, &names.numbers, node)
}

/// The place of a flag.
#[tactic(auto, using(jh_export::proofs::Places::inside_steps))]
pub(crate) fn place_of_flag(table: &Table, names: &Listed, node: usize) -> Result<u32, NoMemory>
    requires names { AreListed (nodes table.now) names.now }
    requires truth { is_truth (slice_get (nodes table.now) node) ≡ true }
    ensures { IfOk result (λ place. place ≡ flag_place (nodes table.now) names.now node) }
{
    place_of(table, &names.flags, node)
}
