#![tactic(auto, using(crate::proofs::decision::Spelling::spelling_steps))]

ghost use Rattle.std.specs.Prelude.{◌≡◌, ◌+◌, ◌*◌, ◌≤◌, ◌-ℤ◌, IfOk, false, if◌then◌else◌, length, map, pos, slice_index_or};
ghost use Rattle.jh_digits.specs.solver.Solution as system;
ghost use Rattle.jh_query.specs.queries.Bare.{query_tree};
ghost use Rattle.jh_query.specs.queries.Sizing.{sizing_of, spelled, whole_value};
ghost use Rattle.jh_bapa.specs.decision.Lists.{listed};
ghost use Rattle.jh_bapa.specs.decision.Cases.{flag_chosen};
ghost use Rattle.jh_bapa.specs.decision.Systems.{said};

use crate::decision::hoping::flag_chosen;
use jh_digits::solver::Digits;
use jh_name::{NoMemory, Row};
use jh_query::partial_truth::Atom;
use jh_query::queries::Whole;
use std::alloc::Global;

/// A digit of a layer.
fn digit_at(layer: &[bool], column: usize) -> bool
    ensures { result ≡ slice_index_or layer.now column false }
{
    match layer.get(column) {
        Some(digit) => *digit,
        None => false,
    }
}

/// The digits of a column, layer by layer.
fn column_of(alloc: Global, layers: &[Row<bool>], column: usize) -> Result<Row<bool>, NoMemory>
    ensures { IfOk result (λ row. row ≡ map (λ layer. slice_index_or layer column false) layers.now) }
{
    let mut row = Vec::new(alloc);
    for layer in layers {
        row.push(digit_at(layer.items(), column))?;
    }
    Ok(Row::of(row))
}

/// The digits of a column.
fn digits_at(alloc: Global, digits: &Digits, column: usize) -> Result<Row<bool>, NoMemory>
    ensures { IfOk result (λ row. spelled row ≡ system.spelled digits.now.layers column) }
{
    let row = column_of(alloc, digits.layers.items(), column)?;
    Ok(row)
}

/// The digits of the rest of a region, which may be empty.
fn rest_at(
    alloc: Global,
    digits: &Digits,
    region: usize,
    is_empty: bool,
) -> Result<Row<bool>, NoMemory>
    ensures { IfOk result (λ row. spelled row ≡ (if is_empty then 0 else system.spelled digits.now.layers region)) }
{
    if is_empty {
        Ok(Row::of(Vec::new(alloc)))
    } else {
        digits_at(alloc, digits, region)
    }
}

/// The digits of the rests of all regions.
pub(crate) fn rests_of(
    alloc: Global,
    digits: &Digits,
    empty: &[bool],
) -> Result<Row<Row<bool>>, NoMemory>
    ensures { IfOk result (λ rests. map spelled rests ≡ listed (length empty.now) (λ r. if slice_index_or empty.now r false then 0 else system.spelled digits.now.layers r)) }
{
    let mut rests = Vec::new(alloc);
    for region in 0..empty.len() {
        let rest = rest_at(alloc, digits, region, empty[region])?;
        rests.push(rest)?;
    }
    Ok(Row::of(rests))
}

/// A number whose plus and minus stand in a column and in the next one.
fn number_at(alloc: Global, digits: &Digits, column: usize) -> Result<Whole, NoMemory>
    requires { column ≤ 67108864 }
    ensures { IfOk result (λ whole. whole_value whole ≡ pos (system.spelled digits.now.layers column) -ℤ pos (system.spelled digits.now.layers (column + 1))) }
{
    let plus = digits_at(alloc, digits, column)?;
    let minus = digits_at(alloc, digits, column + 1)?;
    Ok(Whole { plus, minus })
}

/// The numbers, whose columns begin at a place.
pub(crate) fn numbers_of(
    alloc: Global,
    digits: &Digits,
    start: usize,
    numbers: u32,
) -> Result<Row<Whole>, NoMemory>
    requires { start + 2 * numbers ≤ 67108864 }
    ensures { IfOk result (λ wholes. map whole_value wholes ≡ listed numbers (λ l. pos (system.spelled digits.now.layers (start + 2 * l)) -ℤ pos (system.spelled digits.now.layers (start + (2 * l + 1))))) }
{
    let mut wholes = Vec::new(alloc);
    for number in 0..numbers as usize {
        let whole = number_at(alloc, digits, start + 2 * number)?;
        wholes.push(whole)?;
    }
    Ok(Row::of(wholes))
}

/// The flags.
pub(crate) fn flags_of(alloc: Global, atoms: &[Atom<'_>], flags: u32) -> Result<Row<bool>, NoMemory>
    ensures { IfOk result (λ row. row ≡ listed flags (flag_chosen atoms.now)) }
{
    let mut row = Vec::new(alloc);
    for flag in 0..flags {
        row.push(flag_chosen(atoms, flag))?;
    }
    Ok(Row::of(row))
}
