ghost use Rattle.std.specs.Prelude.{◌≡◌, not, ◌++◌, ◌∷◌, ◌==◌, [], List, ℕ, string_bytes, OnOk, IfOk};
ghost use Rattle.std.specs.List.{list_all};
ghost use Rattle.jh_query.specs.queries.Sizing.{spelled};
ghost use Rattle.jh_report.specs.causes.Causes as spec;
ghost use Rattle.jh_report.specs.causes.Pieces.{Holds};

use crate::causes::digits::add_digits;
use crate::causes::pieces::Pieces;
use jh_name::{NoMemory, Row};
use jh_query::queries::{Sizes, Spot, Whole};
use std::alloc::Global;

/// Whether all digits are 0.
fn are_zeros(digits: &[bool]) -> bool
    ensures { result ≡ list_all not digits.now }
{
    digits.iter().all(|digit| !*digit)
}

/// Whether digits spell 0.
fn is_zero(digits: &[bool]) -> bool
    ensures { result ≡ (spelled digits.now == 0) }
{
    are_zeros(digits)
}

/// Adds a region with an object that is no element.
fn add_region(
    alloc: Global,
    pieces: &mut Pieces,
    number: usize,
    digits: &[bool],
) -> Result<(), NoMemory>
    ensures { OnOk result ((ps : List (List ℕ)) → Holds pieces.old ps → Holds pieces.new (ps ++ spec.region_pieces number digits.now)) }
{
    if is_zero(digits) {
        return Ok(());
    }
    let mut piece = String::new(alloc);
    write!(piece, "region {number} rest ")?;
    add_digits(&mut piece, digits)?;
    pieces.add(piece.as_str())
}

/// Adds an element.
fn add_element(
    alloc: Global,
    pieces: &mut Pieces,
    number: usize,
    spot: Spot,
) -> Result<(), NoMemory>
    ensures { OnOk result ((ps : List (List ℕ)) → Holds pieces.old ps → Holds pieces.new (ps ++ spec.element_pieces number spot)) }
{
    let class = spot.class;
    let region = spot.region;
    let mut piece = String::new(alloc);
    write!(piece, "element {number} class {class} region {region}")?;
    pieces.add(piece.as_str())
}

/// Adds a number.
fn add_number(
    alloc: Global,
    pieces: &mut Pieces,
    number: usize,
    whole: &Whole,
) -> Result<(), NoMemory>
    ensures { OnOk result ((ps : List (List ℕ)) → Holds pieces.old ps → Holds pieces.new (ps ++ spec.number_pieces number whole.now)) }
{
    let mut piece = String::new(alloc);
    write!(piece, "number {number} ")?;
    add_digits(&mut piece, whole.plus.items())?;
    piece.push_str(" - ")?;
    add_digits(&mut piece, whole.minus.items())?;
    pieces.add(piece.as_str())
}

fn truth_word(truth: bool) -> &'static str
    ensures { result.now ≡ spec.truth_word truth }
{
    if truth { "true" } else { "false" }
}

/// Adds a flag.
fn add_flag(alloc: Global, pieces: &mut Pieces, number: usize, flag: bool) -> Result<(), NoMemory>
    ensures { OnOk result ((ps : List (List ℕ)) → Holds pieces.old ps → Holds pieces.new (ps ++ spec.flag_pieces number flag)) }
{
    let word = truth_word(flag);
    let mut piece = String::new(alloc);
    write!(piece, "flag {number} {word}")?;
    pieces.add(piece.as_str())
}

fn add_regions(alloc: Global, pieces: &mut Pieces, rest: &[Row<bool>]) -> Result<(), NoMemory>
    ensures { OnOk result ((ps : List (List ℕ)) → Holds pieces.old ps → Holds pieces.new (ps ++ spec.numbered spec.region_pieces 0 rest.now)) }
{
    for number in 0..rest.len() {
        add_region(alloc, pieces, number, rest[number].items())?;
    }
    Ok(())
}

fn add_elements(alloc: Global, pieces: &mut Pieces, spots: &[Spot]) -> Result<(), NoMemory>
    ensures { OnOk result ((ps : List (List ℕ)) → Holds pieces.old ps → Holds pieces.new (ps ++ spec.numbered spec.element_pieces 0 spots.now)) }
{
    for number in 0..spots.len() {
        add_element(alloc, pieces, number, spots[number])?;
    }
    Ok(())
}

fn add_numbers(alloc: Global, pieces: &mut Pieces, numbers: &[Whole]) -> Result<(), NoMemory>
    ensures { OnOk result ((ps : List (List ℕ)) → Holds pieces.old ps → Holds pieces.new (ps ++ spec.numbered spec.number_pieces 0 numbers.now)) }
{
    for number in 0..numbers.len() {
        add_number(alloc, pieces, number, &numbers[number])?;
    }
    Ok(())
}

fn add_flags(alloc: Global, pieces: &mut Pieces, flags: &[bool]) -> Result<(), NoMemory>
    ensures { OnOk result ((ps : List (List ℕ)) → Holds pieces.old ps → Holds pieces.new (ps ++ spec.numbered spec.flag_pieces 0 flags.now)) }
{
    for number in 0..flags.len() {
        add_flag(alloc, pieces, number, flags[number])?;
    }
    Ok(())
}

/// The pieces of sizes.
fn pieces_of(alloc: Global, sizes: &Sizes) -> Result<Pieces, NoMemory>
    ensures { IfOk result (λ made. Holds made (spec.sizes_pieces sizes.now)) }
{
    let mut pieces = Pieces::new(alloc);
    add_regions(alloc, &mut pieces, sizes.rest.items())?;
    add_elements(alloc, &mut pieces, sizes.spots.items())?;
    add_numbers(alloc, &mut pieces, sizes.numbers.items())?;
    add_flags(alloc, &mut pieces, sizes.flags.items())?;
    Ok(pieces)
}

/// Adds the line for a sequent whose query is refuted by sizes: regions with an object that is no element, elements,
/// numbers and flags.
pub fn add_refuted(alloc: Global, text: &mut String, sizes: &Sizes) -> Result<(), NoMemory>
    ensures { OnOk result (string_bytes text.new ≡ string_bytes text.old ++ spec.refuted_line sizes.now) }
{
    let pieces = pieces_of(alloc, sizes)?;
    let joined = pieces.text.as_str();
    writeln!(text, "  bapa refuted: {joined}")?;
    Ok(())
}
