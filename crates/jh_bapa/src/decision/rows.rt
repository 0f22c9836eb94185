#![tactic(auto, unfolding(jh_query::specs::queries::Bare::set_tree, jh_query::specs::queries::Bare::num_tree, jh_query::specs::queries::Bare::cond_tree))]

ghost use Rattle.std.specs.Prelude.{◌≡◌, ℕ, true, ◌+◌, ◌<◌, ◌≤◌, ◌++◌, IfOk, false, if◌then◌else◌, length, neg_ℤ, pos, slice_index_or, unsigned_abs};
ghost use Rattle.std.specs.List.{All};
ghost use Rattle.jh_query.specs.queries.Bare.{cond_tree};
ghost use Rattle.jh_query.specs.queries.Sides.{side_tree};
ghost use Rattle.jh_query.specs.queries.Truth.{read_number};
ghost use Rattle.jh_query.specs.queries.Linear.{number_factor, rest_factor};
ghost use Rattle.jh_bapa.specs.decision.Lists.{listed, pairs, zeros};
ghost use Rattle.jh_bapa.specs.decision.Cases.{is_case_of, line_of};
ghost use Rattle.jh_bapa.specs.decision.Counted.{IsFit, IsSlight, Narrow, has_divisor};
ghost use Rattle.jh_bapa.specs.decision.Lining.{frame, line_tree, slack_list};
ghost use Rattle.jh_bapa.specs.decision.Systems.{entries_of, line_entries, line_right, number_entry, rest_entry, rights_of, row_of, slack_count, slack_total};

use crate::decision::lines::{Line, Slacks, line_of, slack_count};
use jh_name::NoMemory;
use jh_query::partial_truth::Atom;
use jh_query::queries::{Side, Spot};
use jh_query_branching::{number_factor, rest_factor, right_of};
use std::alloc::Global;

/// What stands over all rows: how many numbers there are, where the elements stand, which regions have no
/// rest, and how many columns the atoms add.
#[derive(Clone, Copy)]
pub(crate) struct Layout<'a> {
    pub(crate) numbers: u32,
    pub(crate) spots: &'a [Spot],
    pub(crate) empty: &'a [bool],
    pub(crate) total: usize,
}

/// The entry of the rest of a region.
fn rest_entry(side: &Side<'_>, region: u64, is_empty: bool) -> i64
    requires { Narrow (rest_factor region) (side_tree side.now) }
    ensures { result ≡ (if is_empty then pos 0 else read_number (rest_factor region) (side_tree side.now)) }
{
    if is_empty {
        0
    } else {
        rest_factor(side, region)
    }
}

/// A negated number.
fn negated(number: i64) -> i64
    requires { unsigned_abs number ≤ 67108864 }
    ensures { result ≡ neg_ℤ number }
{
    -number
}

/// Adds the entries of the rests.
fn push_rests(entries: &mut Vec<i64>, side: &Side<'_>, empty: &[bool]) -> Result<(), NoMemory>
    requires { (r : ℕ) → r < length empty.now → Narrow (rest_factor r) (side_tree side.now) }
    ensures { IfOk result (λ x. entries.new.items ≡ entries.old.items ++ listed (length empty.now) (rest_entry (λ r. slice_index_or empty.now r false) (side_tree side.now))) }
{
    for region in 0..empty.len() {
        entries.push(rest_entry(side, region as u64, empty[region]))?;
    }
    Ok(())
}

/// Adds the entries of the numbers, as plus and minus.
fn push_numbers(entries: &mut Vec<i64>, side: &Side<'_>, numbers: u32) -> Result<(), NoMemory>
    requires { (n : ℕ) → n < numbers → Narrow (number_factor n) (side_tree side.now) }
    ensures { IfOk result (λ x. entries.new.items ≡ entries.old.items ++ pairs numbers (number_entry (side_tree side.now))) }
{
    for number in 0..numbers {
        let entry = number_factor(side, number);
        entries.push(entry)?;
        entries.push(negated(entry))?;
    }
    Ok(())
}

/// Adds the entries of columns that a row has no part in.
fn push_zeros(entries: &mut Vec<i64>, count: usize) -> Result<(), NoMemory>
    ensures { IfOk result (λ x. entries.new.items ≡ entries.old.items ++ zeros count) }
{
    for _column in 0..count {
        entries.push(0)?;
    }
    Ok(())
}

/// Adds the entries of slacks.
fn push_slacks(entries: &mut Vec<i64>, slacks: Slacks) -> Result<(), NoMemory>
    ensures { IfOk result (λ x. entries.new.items ≡ entries.old.items ++ slack_list slacks) }
{
    match slacks {
        Slacks::One(first) => entries.push(first)?,
        Slacks::Two(first, second) => {
            entries.push(first)?;
            entries.push(second)?;
        }
    }
    Ok(())
}

/// Adds the row of an equation whose slacks have the columns from a place on.
fn push_row(
    entries: &mut Vec<i64>,
    layout: Layout<'_>,
    line: &Line<'_>,
    place: usize,
) -> Result<(), NoMemory>
    requires slight { IsSlight (frame layout) (line_tree line.now) }
    requires room { place + length (slack_list line.now.slacks) ≤ layout.total }
    ensures { IfOk result (λ x. entries.new.items ≡ entries.old.items ++ row_of (frame layout.entry) place (line_tree line.now)) }
{
    push_rests(entries, &line.side, layout.empty)?;
    push_numbers(entries, &line.side, layout.numbers)?;
    push_zeros(entries, place)?;
    push_slacks(entries, line.slacks)?;
    push_zeros(entries, layout.total - (place + slack_count(line)))
}

/// Adds the row of an atom whose slacks have the columns from a place on, if it has one, and its right side. How many
/// slacks there are.
fn push_atom(
    entries: &mut Vec<i64>,
    right: &mut Vec<i64>,
    layout: Layout<'_>,
    atom: &Atom<'_>,
    place: usize,
) -> Result<usize, NoMemory>
    requires fit { IsFit (frame layout) atom.now }
    requires room { place + slack_count (cond_tree atom.now.cond.now) atom.now.case ≤ layout.total }
    ensures entries { IfOk result (λ x. entries.new.items ≡ entries.old.items ++ line_entries (frame layout.entry) place (line_of (cond_tree atom.now.cond.now) atom.now.case)) }
    ensures right { IfOk result (λ x. right.new.items ≡ right.old.items ++ line_right (frame layout.entry) (line_of (cond_tree atom.now.cond.now) atom.now.case)) }
    ensures count { IfOk result (λ count. count ≡ slack_count (cond_tree atom.now.cond.now) atom.now.case) }
    ensures few { IfOk result (λ count. length right.new.items ≤ length right.old.items + count) }
{
    let Some(line) = line_of(atom) else {
        return Ok(0);
    };
    push_row(entries, layout, &line, place)?;
    right.push(right_of(&line.side, line.added, layout.spots))?;
    Ok(slack_count(&line))
}

/// The entries of all rows, and their right sides.
#[derive(Drop)]
pub(crate) struct Rows {
    pub(crate) entries: Vec<i64>,
    pub(crate) right: Vec<i64>,
}

/// The rows of all atoms.
pub(crate) fn rows_of(
    alloc: Global,
    layout: Layout<'_>,
    atoms: &[Atom<'_>],
) -> Result<Rows, NoMemory>
    requires fit { All (IsFit (frame layout)) atoms.now }
    requires total { slack_total atoms.now ≡ layout.total }
    ensures entries { IfOk result (λ rows. rows.entries.items ≡ entries_of (frame layout.entry) 0 atoms.now) }
    ensures right { IfOk result (λ rows. rows.right.items ≡ rights_of (frame layout.entry) atoms.now) }
    ensures few { IfOk result (λ rows. length rows.right.items ≤ layout.entry.total) }
{
    let mut entries = Vec::new(alloc);
    let mut right = Vec::new(alloc);
    let mut place = 0usize;
    for atom in atoms {
        place += push_atom(&mut entries, &mut right, layout, atom, place)?;
    }
    Ok(Rows { entries, right })
}

/// How many columns the atoms add.
pub(crate) fn slack_total(atoms: &[Atom<'_>]) -> usize
    requires fit { All (λ a. (is_case_of (cond_tree a.cond.now) a.case ≡ true) × (has_divisor (cond_tree a.cond.now) ≡ true)) atoms.now }
    requires few { slack_total atoms.now ≤ 67108864 }
    ensures { result ≡ slack_total atoms.now }
{
    let mut total = 0usize;
    for atom in atoms {
        total += match line_of(atom) {
            Some(line) => slack_count(&line),
            None => 0,
        };
    }
    total
}
