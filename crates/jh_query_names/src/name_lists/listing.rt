ghost use Rattle.std.specs.Prelude.{◌≡◌, true, IfOk, OnOk, Some, [], ◌∷◌, ◌++◌, nat_eq, slice_get};
ghost use Rattle.std.specs.List.{IsDistinct, flat_map};
ghost use Rattle.jh_form.specs.Tree.{of_object};
ghost use Rattle.jh_form.specs.Tree as t;
ghost use Rattle.jh_arena.specs.table.Entries.{is_truth, the_truth};
ghost use Rattle.jh_arena.specs.table.Growth.{Extends};
ghost use Rattle.jh_arena.specs.table.Nodes.{nodes};
ghost use Rattle.jh_arena.specs.makers.Joined.{are_truths, truths_at};
ghost use Rattle.jh_approx.specs.definition.Names.{names, listed};
ghost use Rattle.jh_query_names.specs.query_names.Gathered.{with_names};
ghost use Rattle.jh_query_names.specs.query_names.Finding.{IsFound, values_at};
ghost use Rattle.jh_query_names.specs.name_lists.Lists.{AreListed, lists_of};

use crate::name_lists::listed::Listed;
use crate::name_lists::sorting::add_all;
use crate::query_names::{Found, gather};
use jh_arena::makers::null;
use jh_arena::table::Table;
use jh_name::NoMemory;
use std::alloc::Global;

/// Adds the names of a formula.
fn gather_truth(table: &Table, found: &mut Found, node: usize) -> Result<(), NoMemory>
    requires node { is_truth (slice_get (nodes table.now) node) ≡ true }
    requires found { IsFound (nodes table.now) found.old.names.keys found.old.seen.keys }
    ensures names { OnOk result (values_at (nodes table.now) found.new.names.keys ≡ with_names (values_at (nodes table.now) found.old.names.keys) (names (the_truth (slice_get (nodes table.now) node)))) }
    ensures found { OnOk result (IsFound (nodes table.now) found.new.names.keys found.new.seen.keys) }
{
    gather(table, found, node)
}

/// Adds the names of formulas, one behind another.
fn gather_truths(table: &Table, found: &mut Found, facts: &[usize]) -> Result<(), NoMemory>
    requires facts { are_truths (nodes table.now) facts.now ≡ true }
    requires found { IsFound (nodes table.now) found.old.names.keys found.old.seen.keys }
    ensures names { OnOk result (values_at (nodes table.now) found.new.names.keys ≡ with_names (values_at (nodes table.now) found.old.names.keys) (flat_map names (truths_at (nodes table.now) facts.now))) }
    ensures found { OnOk result (IsFound (nodes table.now) found.new.names.keys found.new.seen.keys) }
{
    for fact in facts {
        gather_truth(table, found, *fact)?;
    }
    Ok(())
}

/// Adds null, and the names of facts and of a goal.
fn gather_all(
    table: &Table,
    found: &mut Found,
    null: usize,
    facts: &[usize],
    goal: usize,
) -> Result<(), NoMemory>
    requires null { slice_get (nodes table.now) null ≡ Some (of_object t.null) }
    requires facts { are_truths (nodes table.now) facts.now ≡ true }
    requires goal { is_truth (slice_get (nodes table.now) goal) ≡ true }
    requires found { IsFound (nodes table.now) found.old.names.keys found.old.seen.keys }
    ensures names { OnOk result (values_at (nodes table.now) found.new.names.keys ≡ with_names (values_at (nodes table.now) found.old.names.keys) (of_object t.null ∷ (flat_map names (truths_at (nodes table.now) facts.now) ++ names (the_truth (slice_get (nodes table.now) goal))))) }
    ensures found { OnOk result (IsFound (nodes table.now) found.new.names.keys found.new.seen.keys) }
{
    gather(table, found, null)?;
    gather_truths(table, found, facts)?;
    gather_truth(table, found, goal)
}

/// Each node stands once in its list. It is a law, and changes nothing.
fn each_once(listed: &Listed)
    ensures sets { IsDistinct nat_eq listed.now.sets.keys }
    ensures elements { IsDistinct nat_eq listed.now.elements.keys }
    ensures numbers { IsDistinct nat_eq listed.now.numbers.keys }
    ensures flags { IsDistinct nat_eq listed.now.flags.keys }
{
    let _sets = listed.sets.len();
    let _elements = listed.elements.len();
    let _numbers = listed.numbers.len();
    let _flags = listed.flags.len();
}

/// The names of facts and of a goal by sort, where null has a node.
fn names_with(
    alloc: Global,
    table: &Table,
    null: usize,
    facts: &[usize],
    goal: usize,
) -> Result<Listed, NoMemory>
    requires null { slice_get (nodes table.now) null ≡ Some (of_object t.null) }
    requires facts { are_truths (nodes table.now) facts.now ≡ true }
    requires goal { is_truth (slice_get (nodes table.now) goal) ≡ true }
    ensures names { IfOk result (λ made. lists_of (nodes table.now) made ≡ listed (flat_map names (truths_at (nodes table.now) facts.now) ++ names (the_truth (slice_get (nodes table.now) goal)))) }
    ensures stand { IfOk result (λ made. AreListed (nodes table.now) made) }
{
    let mut found = Found::new(alloc);
    gather_all(table, &mut found, null, facts, goal)?;
    let mut listed = Listed::empty(alloc);
    add_all(table, found.names.as_slice(), &mut listed)?;
    table.nodes_differ();
    each_once(&listed);
    Ok(listed)
}

/// The nodes of the names of facts and of a goal, by sort: those of the facts, in their order, stand before those of the goal.
/// What the table held stays in its place, after any answer; at most null is added to it. Each node is looked at once, however
/// often it stands in the facts and the goal. The answer is want of memory where one of them nests deeper than MOST_LEVELS.
pub fn names_of(
    alloc: Global,
    table: &mut Table,
    facts: &[usize],
    goal: usize,
) -> Result<Listed, NoMemory>
    requires facts { are_truths (nodes table.old) facts.now ≡ true }
    requires goal { is_truth (slice_get (nodes table.old) goal) ≡ true }
    ensures names { IfOk result (λ made. lists_of (nodes table.new) made ≡ listed (flat_map names (truths_at (nodes table.new) facts.now) ++ names (the_truth (slice_get (nodes table.new) goal)))) }
    ensures stand { IfOk result (λ made. AreListed (nodes table.new) made) }
    ensures grows { Extends table.old table.new }
{
    let null = null(table)?;
    names_with(alloc, table, null, facts, goal)
}
