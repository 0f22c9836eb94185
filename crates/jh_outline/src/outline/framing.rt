ghost use Rattle.std.specs.Prelude.{◌≡◌, ◌<◌, ◌&&◌, ◌||◌, ◌+◌, ℕ, false, not, nat_eq, length, IfOk};
ghost use Rattle.std.specs.List.{list_any};
ghost use Rattle.jh_effects.specs.written_state.Chosen.{places_below};
ghost use Rattle.jh_outline.specs.outline.Framing.{mark_at, is_framed};

use jh_name::{NoMemory, Row};
use std::alloc::Global;

/// So many marks, none of which is set.
fn no_marks(alloc: Global, count: usize) -> Result<Vec<bool>, NoMemory>
    ensures marks { IfOk result (λ made. (j : ℕ) → mark_at made.items j ≡ false) }
    ensures count { IfOk result (λ made. length made.items ≡ count) }
{
    let mut marks = Vec::new(alloc);
    for _place in 0..count {
        marks.push(false)?;
    }
    Ok(marks)
}

/// Sets the mark at a place, where there is one.
fn set_mark(marks: &mut Vec<bool>, place: usize)
    ensures marks { (j : ℕ) → j < length marks.old.items → mark_at marks.new.items j ≡ (nat_eq j place || mark_at marks.old.items j) }
    ensures count { length marks.new.items ≡ length marks.old.items }
{
    if place < marks.len() {
        marks[place] = true;
    }
}

/// Marks of which those at some places are set.
fn marks_of(alloc: Global, places: &[usize], count: usize) -> Result<Vec<bool>, NoMemory>
    ensures marks { IfOk result (λ made. (j : ℕ) → j < count → mark_at made.items j ≡ list_any (nat_eq j) places.now) }
    ensures count { IfOk result (λ made. length made.items ≡ count) }
{
    let mut marks = no_marks(alloc, count)?;
    for place in places {
        set_mark(&mut marks, *place);
    }
    Ok(marks)
}

/// Whether the first mark at a place is set, and the second isn't.
fn is_alone(first: &[bool], second: &[bool], place: usize) -> bool
    requires within { place < length first.now }
    requires reach { place < length second.now }
    ensures { result ≡ (mark_at first.now place && not (mark_at second.now place)) }
{
    first[place] && !second[place]
}

/// Of so many members those that are among the places of what is written, and not of what is named, where so many sets
/// come before the members.
pub fn framed_row(
    alloc: Global,
    written: &[usize],
    modified: &[usize],
    sets: usize,
    members: usize,
) -> Result<Row<usize>, NoMemory>
    ensures { IfOk result (λ made. made ≡ places_below (is_framed written.now modified.now sets) members) }
{
    let count = match sets.checked_add(members) {
        None => return Err(NoMemory),
        Some(count) => count,
    };
    let first = marks_of(alloc, written, count)?;
    let second = marks_of(alloc, modified, count)?;
    let mut row = Vec::new(alloc);
    for member in 0..members {
        if is_alone(first.as_slice(), second.as_slice(), sets + member) {
            row.push(member)?;
        }
    }
    Ok(Row::of(row))
}
