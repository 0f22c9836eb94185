ghost use Rattle.std.specs.Prelude.{◌≡◌, ◌+◌, ◌*◌, ◌^◌, ◌≤◌, IfNone, IfOk, IfSome, Some, false, length};
ghost use Rattle.std.specs.List.{All, list_any};
ghost use Rattle.jh_digits.specs.solver.Solution as system;
ghost use Rattle.jh_query.specs.queries.Bare.{cond_tree, query_tree};
ghost use Rattle.jh_query.specs.queries.Named.{IsWellFormed};
ghost use Rattle.jh_query.specs.queries.Sizing.{sizing_of};
ghost use Rattle.jh_query.specs.partial_truth.Judged.{TellsQuery, query_told};
ghost use Rattle.jh_bapa.specs.decision.Lists.{listed};
ghost use Rattle.jh_bapa.specs.decision.Cases.{conds_of, is_hopeless};
ghost use Rattle.jh_bapa.specs.decision.Counted.{IsFit};
ghost use Rattle.jh_bapa.specs.decision.Made.{IsSystemOf};
ghost use Rattle.jh_bapa.specs.decision.Systems.{frame_of, is_empty, said, slack_total};
ghost use Rattle.jh_bapa.specs.decision.Searching.{IsCasing, IsPlacement, NoneLeft, Refutes};
ghost use Rattle.jh_bapa.specs.decision.Within.{IsWithin};

use crate::decision::hoping::are_hopeless;
use crate::decision::reading::{flags_of, numbers_of, rests_of};
use crate::decision::rows::{Layout, rows_of, slack_total};
use crate::decision::sets::{empty_regions, needs_of};
use jh_digits::solver::{Digits, Solved, System, solve};
use jh_name::{NoMemory, Row};
use jh_query::partial_truth::Atom;
use jh_query::queries::{Query, Sizes, Spot};
use std::alloc::Global;

/// The digit system of a placement and of the chosen cases.
fn system_of(
    alloc: Global,
    query: &Query,
    atoms: &[Atom<'_>],
    spots: &[Spot],
    empty: &[bool],
) -> Result<System, NoMemory>
    requires sets { query.now.sets ≤ 6 }
    requires empty { empty.now ≡ listed (2 ^ query.now.sets) (is_empty atoms.now) }
    requires fit { All (IsFit (frame_of (query_tree query.now) atoms.now spots.now)) atoms.now }
    requires few { 2 ^ query.now.sets + (2 * query.now.numbers + slack_total atoms.now) ≤ 67108863 }
    ensures { IfOk result (λ made. IsSystemOf (query_tree query.now) atoms.now spots.now made) }
{
    let total = slack_total(atoms);
    let layout = Layout {
        numbers: query.numbers,
        spots,
        empty,
        total,
    };
    let rows = rows_of(alloc, layout, atoms)?;
    let needs = needs_of(alloc, atoms, spots, empty)?;
    Ok(System {
        rows: rows.right.len() as u32,
        columns: empty.len() as u32 + (2 * query.numbers + total as u32),
        entries: Row::of(rows.entries),
        right: Row::of(rows.right),
        needs,
    })
}

/// The sizes that a solution says.
fn sizes_of(
    alloc: Global,
    query: &Query,
    atoms: &[Atom<'_>],
    spots: &[Spot],
    empty: &[bool],
    digits: &Digits,
) -> Result<Sizes, NoMemory>
    requires empty { empty.now ≡ listed (2 ^ query.now.sets) (is_empty atoms.now) }
    requires few { length empty.now + 2 * query.now.numbers ≤ 67108864 }
    ensures { IfOk result (λ sizes. sizing_of sizes ≡ said (query_tree query.now) atoms.now spots.now (system.spelled digits.now.layers)) }
{
    let rest = rests_of(alloc, digits, empty)?;
    let numbers = numbers_of(alloc, digits, empty.len(), query.numbers)?;
    let flags = flags_of(alloc, atoms, query.flags)?;
    let spots = Row::of(Vec::from_slice(alloc, spots)?);
    Ok(Sizes {
        rest,
        spots,
        numbers,
        flags,
    })
}

/// Sizes for a placement and the chosen cases, where there are any: none of the atoms is hopeless.
fn solve_hopeful(
    alloc: Global,
    query: &Query,
    atoms: &[Atom<'_>],
    spots: &[Spot],
    empty: &[bool],
) -> Result<Option<Sizes>, NoMemory>
    requires formed { IsWellFormed (query_tree query.now) }
    requires within { IsWithin (query_tree query.now) }
    requires casing { IsCasing (query_tree query.now) (conds_of atoms.now) }
    requires placement { IsPlacement query.now.sets spots.now }
    requires full { length spots.now ≡ query.now.elements }
    requires untrue { TellsQuery (Some false) spots.now atoms.now (query_tree query.now) }
    requires told { query_told spots.now atoms.now (query_tree query.now) ≡ Some false }
    requires hopeful { list_any (λ a. is_hopeless atoms.now spots.now (cond_tree a.cond.now) a.case) atoms.now ≡ false }
    requires empty { empty.now ≡ listed (2 ^ query.now.sets) (is_empty atoms.now) }
    ensures none { IfOk result (λ found. IfNone found (NoneLeft (query_tree query.now) spots.now atoms.now)) }
    ensures some { IfOk result (λ found. IfSome found (λ sizes. Refutes (query_tree query.now) (sizing_of sizes))) }
{
    let made = system_of(alloc, query, atoms, spots, empty)?;
    match solve(alloc, &made) {
        Solved::Solution(digits) => {
            Ok(Some(sizes_of(alloc, query, atoms, spots, empty, &digits)?))
        }
        Solved::NoSolution => Ok(None),
        // No system of a query within the limits is too large: this never comes.
        Solved::TooLarge(_) => Ok(None),
        Solved::Memory => Err(NoMemory),
    }
}

/// Sizes for a placement and the chosen cases, where there are any.
pub(crate) fn solve_case(
    alloc: Global,
    query: &Query,
    atoms: &[Atom<'_>],
    spots: &[Spot],
) -> Result<Option<Sizes>, NoMemory>
    requires formed { IsWellFormed (query_tree query.now) }
    requires within { IsWithin (query_tree query.now) }
    requires casing { IsCasing (query_tree query.now) (conds_of atoms.now) }
    requires placement { IsPlacement query.now.sets spots.now }
    requires full { length spots.now ≡ query.now.elements }
    requires untrue { TellsQuery (Some false) spots.now atoms.now (query_tree query.now) }
    requires told { query_told spots.now atoms.now (query_tree query.now) ≡ Some false }
    ensures none { IfOk result (λ found. IfNone found (NoneLeft (query_tree query.now) spots.now atoms.now)) }
    ensures some { IfOk result (λ found. IfSome found (λ sizes. Refutes (query_tree query.now) (sizing_of sizes))) }
{
    if are_hopeless(atoms, spots) {
        return Ok(None);
    }
    let empty = empty_regions(alloc, query.sets, atoms)?;
    solve_hopeful(alloc, query, atoms, spots, &empty)
}
