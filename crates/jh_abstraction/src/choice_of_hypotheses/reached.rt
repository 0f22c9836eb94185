ghost use Rattle.std.specs.Prelude.{◌≡◌, ◌<◌, IfOk, ℕ, map, Some, length, slice_get};
ghost use Rattle.jh_arena.specs.table.Nodes.{nodes};
ghost use Rattle.jh_query_names.specs.mentioned_names.Notes.{AreInside};
ghost use Rattle.jh_query_names.specs.declared.mentioned_names.memo.Note.{Note};
ghost use Rattle.jh_abstraction.specs.choice_of_hypotheses.Choosing.{AreReached, AreRowsInside, linking_row};

use jh_arena::table::Table;
use jh_containers::connected_component::{Known, reach};
use jh_name::{NoMemory, Row};
use jh_query_names::mentioned_names::{Note, has_links, links};
use std::alloc::Global;

/// The note at a place.
pub(crate) fn note_at(notes: &[Note], place: usize) -> &Note
    requires { place < length notes.now }
    ensures { slice_get notes.now place ≡ Some result.now }
{
    &notes[place]
}

/// The number at a place.
pub(crate) fn number_at(numbers: &[usize], place: usize) -> usize
    requires { place < length numbers.now }
    ensures { slice_get numbers.now place ≡ Some result }
{
    numbers[place]
}

/// The linking names of each fact.
fn rows_of(
    alloc: Global,
    table: &Table,
    few: bool,
    notes: &[Note],
    places: &[usize],
) -> Result<Vec<Row<usize>>, NoMemory>
    requires { AreRowsInside (nodes table.now) notes.now places.now }
    ensures { IfOk result (λ made. made.items ≡ map (linking_row (nodes table.now) few notes.now) places.now) }
{
    let mut rows = Vec::new(alloc);
    for place in 0..places.len() {
        let note = note_at(notes, number_at(places, place));
        let row = links(alloc, table, few, note.names.items())?;
        rows.push(row)?;
    }
    Ok(rows)
}

/// The names that are reached from those of a goal along the facts.
pub(crate) fn reached(
    alloc: Global,
    table: &Table,
    notes: &[Note],
    places: &[usize],
    names: &[usize],
) -> Result<Known, NoMemory>
    requires rows { AreRowsInside (nodes table.now) notes.now places.now }
    requires names { AreInside (nodes table.now) names.now }
    ensures { IfOk result (λ made. AreReached (nodes table.now) notes.now places.now names.now made.numbers.keys) }
{
    let few = has_links(table, names);
    let start = links(alloc, table, few, names)?;
    let rows = rows_of(alloc, table, few, notes, places)?;
    reach(alloc, start.items(), rows.as_slice())
}
