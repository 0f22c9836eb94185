ghost use Rattle.std.specs.Prelude.{◌≡◌, ℕ, true, List, [], if◌then◌else◌, IfOk, OnOk};
ghost use Rattle.jh_containers.specs.connected_component.Reaching as spec;

use crate::connected_component::index::{Index, index_of};
use indexmap::IndexSet;
use jh_name::{NoMemory, Row};
use std::alloc::Global;

/// Numbers, each once.
#[derive(Drop)]
pub struct Known {
    pub numbers: IndexSet<usize>,
}

/// Whether a row has one of the numbers.
pub fn shares(row: &[usize], known: &Known) -> bool
    ensures { result ≡ spec.shares row.now known.now.numbers.keys }
{
    row.iter().any(|number| known.numbers.contains(number))
}

/// No numbers.
fn none(alloc: Global) -> Known
    ensures { result.numbers.keys ≡ [] }
{
    Known {
        numbers: IndexSet::new(alloc),
    }
}

/// Adds the numbers of a row.
fn add_all(known: &mut Known, row: &[usize]) -> Result<(), NoMemory>
    ensures { OnOk result (known.new.numbers.keys ≡ spec.with_row known.old.numbers.keys row.now) }
{
    for number in row {
        known.numbers.insert(*number)?;
    }
    Ok(())
}

/// Adds the numbers of a row that has one of those that are known.
fn take_in(known: &mut Known, row: &[usize]) -> Result<(), NoMemory>
    ensures { OnOk result (known.new.numbers.keys ≡ (if spec.shares row.now known.old.numbers.keys then spec.with_row known.old.numbers.keys row.now else known.old.numbers.keys)) }
{
    let shared = shares(row, known);
    if shared { add_all(known, row) } else { Ok(()) }
}

/// Adds the numbers of each row that has one of those that are known by then.
fn pass(known: &mut Known, rows: &[Row<usize>]) -> Result<(), NoMemory>
    ensures { OnOk result (known.new.numbers.keys ≡ spec.passed rows.now known.old.numbers.keys) }
{
    for row in rows {
        take_in(known, row.items())?;
    }
    Ok(())
}

/// Adds the numbers of the row at a place, where it has one of those that are known.
fn take_at(known: &mut Known, rows: &[Row<usize>], place: usize) -> Result<(), NoMemory>
    ensures { OnOk result (spec.IsMore rows.now known.old.numbers.keys known.new.numbers.keys) }
{
    if place < rows.len() {
        take_in(known, rows[place].items())
    } else {
        Ok(())
    }
}

/// Adds the numbers of the row at a place, where it wasn't taken in before.
fn take_once(
    known: &mut Known,
    taken: &mut Known,
    rows: &[Row<usize>],
    place: usize,
) -> Result<(), NoMemory>
    ensures { OnOk result (spec.IsMore rows.now known.old.numbers.keys known.new.numbers.keys) }
{
    let is_new = taken.numbers.insert(place)?;
    if is_new {
        take_at(known, rows, place)
    } else {
        Ok(())
    }
}

/// Adds the numbers of the rows at some places, of those that weren't taken in before.
fn take_new(
    known: &mut Known,
    taken: &mut Known,
    rows: &[Row<usize>],
    places: &[usize],
) -> Result<(), NoMemory>
    ensures { OnOk result (spec.IsMore rows.now known.old.numbers.keys known.new.numbers.keys) }
{
    for place in places {
        take_once(known, taken, rows, *place)?;
    }
    Ok(())
}

/// Adds what is reached from each of the numbers that are known, one after another, by the rows that an index has for it.
fn follow(
    alloc: Global,
    known: &mut Known,
    rows: &[Row<usize>],
    index: &Index,
) -> Result<(), NoMemory>
    ensures { OnOk result (spec.IsMore rows.now known.old.numbers.keys known.new.numbers.keys) }
{
    let mut taken = none(alloc);
    let mut at = 0;
    for _turn in 0..u64::MAX {
        if at >= known.numbers.len() {
            return Ok(());
        }
        let number = known.numbers[at];
        take_new(known, &mut taken, rows, index.rows_with(number))?;
        at += 1;
    }
    Ok(())
}

/// The numbers that are given, with what is reached from them by an index of the rows.
fn begin(alloc: Global, start: &[usize], rows: &[Row<usize>]) -> Result<Known, NoMemory>
    ensures sound { IfOk result (λ made. (n : ℕ) → spec.has made.numbers.keys n ≡ true → spec.Reached rows.now start.now n) }
    ensures start { IfOk result (λ made. (n : ℕ) → spec.has start.now n ≡ true → spec.has made.numbers.keys n ≡ true) }
{
    let mut known = none(alloc);
    add_all(&mut known, start)?;
    let index = index_of(alloc, rows)?;
    follow(alloc, &mut known, rows, &index)?;
    Ok(known)
}

/// The numbers that are reached from some along rows: those of a row are reached where one of them is. They are followed by an
/// index of the rows; then the rows are gone over until nothing is added, so nothing hangs on what the index has.
pub fn reach(alloc: Global, start: &[usize], rows: &[Row<usize>]) -> Result<Known, NoMemory>
    ensures { IfOk result (λ made. spec.IsReach rows.now start.now made.numbers.keys) }
{
    let mut known = begin(alloc, start, rows)?;
    for _turn in 0..u64::MAX {
        let before = known.numbers.len();
        pass(&mut known, rows)?;
        let after = known.numbers.len();
        if after == before {
            return Ok(known);
        }
    }
    Err(NoMemory)
}
