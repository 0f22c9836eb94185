ghost use Rattle.std.specs.Prelude.{◌≡◌, ◌<◌, IfOk, OnOk, length, slice_get, true, false, Some};
ghost use Rattle.jh_form.specs.Tree.{of_truth};
ghost use Rattle.jh_arena.specs.table.Entries.{is_truth, the_truth, the_value};
ghost use Rattle.jh_arena.specs.table.Growth.{Grows, Extends};
ghost use Rattle.jh_arena.specs.table.Nodes.{nodes};
ghost use Rattle.jh_approx.specs.definition.Shown.{shown};
ghost use Rattle.jh_approx.specs.definition.Names.{without_repeats};
ghost use Rattle.jh_query_names.specs.query_names.Gathered.{value_names};
ghost use Rattle.jh_query_names.specs.visible_part.Memos.{found as found_shown};
ghost use Rattle.jh_query_names.specs.visible_part.Showing.{HoldsShown};
ghost use Rattle.jh_query_names.specs.mentioned_names.Notes.{AreTrees, AreFree, IsNoteAt, IsNoted, IsRight};

use crate::mentioned_names::memo::{Memo, Note};
use crate::query_names::{Found, gather};
use crate::visible_part::shown;
use jh_arena::table::Table;
use jh_name::{NoMemory, Row};
use jh_normal_forms::parts::{FreeNames, NodeList, Order};
use std::alloc::Global;

/// The items of a slice as a row.
fn row_of(alloc: Global, items: &[usize]) -> Result<Row<usize>, NoMemory>
    ensures { IfOk result (λ made. made ≡ items.now) }
{
    let mut copied = Vec::new(alloc);
    copied.extend_from_slice(items)?;
    Ok(Row::of(copied))
}

/// The nodes of the names that a query has for the parts of a value, each once, where it stands first.
pub fn names_of(alloc: Global, table: &Table, node: usize) -> Result<Row<usize>, NoMemory>
    requires { node < length (nodes table.now) }
    ensures { IfOk result (λ made. AreTrees (nodes table.now) made (without_repeats (value_names (the_value (slice_get (nodes table.now) node))))) }
{
    let mut found = Found::new(alloc);
    gather(table, &mut found, node)?;
    row_of(alloc, found.names.as_slice())
}

/// The nodes of the free names that stand in a value, each once.
pub fn free_names(alloc: Global, table: &Table, node: usize) -> Result<NodeList, NoMemory>
    requires { node < length (nodes table.now) }
    ensures { IfOk result (λ made. AreFree (nodes table.now) (the_value (slice_get (nodes table.now) node)) made) }
{
    let mut list = NodeList::new(alloc);
    list.add_parts(table, &FreeNames, Order::OuterFirst, node)?;
    Ok(list)
}

/// The nodes of a list as a row.
fn row_of_list(alloc: Global, list: &NodeList) -> Result<Row<usize>, NoMemory>
    ensures { IfOk result (λ made. made ≡ list.now) }
{
    let mut items = Vec::new(alloc);
    for place in 0..list.len() {
        items.push(list.at(place))?;
    }
    Ok(Row::of(items))
}

/// The same as a row.
fn free_row(alloc: Global, table: &Table, node: usize) -> Result<Row<usize>, NoMemory>
    requires { node < length (nodes table.now) }
    ensures { IfOk result (λ made. AreFree (nodes table.now) (the_value (slice_get (nodes table.now) node)) made) }
{
    let list = free_names(alloc, table, node)?;
    row_of_list(alloc, &list)
}

/// The note of a fact of which this is shown.
fn note_over(alloc: Global, table: &Table, fact: usize, said: usize) -> Result<Note, NoMemory>
    requires fact { is_truth (slice_get (nodes table.now) fact) ≡ true }
    requires said { slice_get (nodes table.now) said ≡ Some (of_truth (shown (the_truth (slice_get (nodes table.now) fact)) false)) }
    ensures { IfOk result (λ made. IsNoteAt (nodes table.now) fact made) }
{
    let names = names_of(alloc, table, said)?;
    let free = free_row(alloc, table, fact)?;
    Ok(Note {
        shown: said,
        names,
        free,
    })
}

/// The note of a fact.
fn note_of(
    alloc: Global,
    table: &mut Table,
    memo: &mut crate::visible_part::Memo,
    fact: usize,
) -> Result<Note, NoMemory>
    requires fact { is_truth (slice_get (nodes table.old) fact) ≡ true }
    requires memo { HoldsShown (nodes table.old) (found_shown memo.old.answers) }
    ensures note { IfOk result (λ made. IsNoteAt (nodes table.new) fact made) }
    ensures memo { OnOk result (HoldsShown (nodes table.new) (found_shown memo.new.answers)) }
    ensures grows { Extends table.old table.new }
{
    let said = shown(table, memo, fact, false)?;
    note_over(alloc, table, fact, said)
}

/// The place of the note of a fact, which is made where there is none. What was noted stays, and what the table held
/// stays in its place, after any answer. Each fact is looked at once. The answer is want of memory where a tree nests
/// deeper than MOST_LEVELS.
pub fn mention(
    alloc: Global,
    table: &mut Table,
    memo: &mut Memo,
    fact: usize,
) -> Result<usize, NoMemory>
    requires fact { is_truth (slice_get (nodes table.old) fact) ≡ true }
    requires memo { IsRight (nodes table.old) memo.old }
    ensures noted { IfOk result (λ place. IsNoted (nodes table.new) memo.new.notes.items fact place) }
    ensures memo { OnOk result (IsRight (nodes table.new) memo.new) }
    ensures stays { OnOk result (Grows memo.old.notes.items memo.new.notes.items) }
    ensures grows { Extends table.old table.new }
{
    match memo.find(fact) {
        Some(place) => Ok(place),
        None => {
            let note = note_of(alloc, table, &mut memo.shown, fact)?;
            let place = memo.add(fact, note)?;
            Ok(place)
        }
    }
}
