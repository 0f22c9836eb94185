ghost use Rattle.std.specs.Prelude.{◌≡◌, ◌^◌, ◌++◌, ◌∷◌, ◌<◌, ◌≤◌, [], IfNone, IfOk, IfSome, length};
ghost use Rattle.jh_query.specs.queries.Bare.{query_tree};
ghost use Rattle.jh_query.specs.queries.Named.{IsWellFormed};
ghost use Rattle.jh_query.specs.queries.Sizing.{sizing_of};
ghost use Rattle.jh_bapa.specs.decision.Cases.{conds_of};
ghost use Rattle.jh_bapa.specs.decision.Searching.{IsCasing, IsPlacement, NoneLeft, Refutes};
ghost use Rattle.jh_bapa.specs.decision.Standing.{NewTried, OldTried};
ghost use Rattle.jh_bapa.specs.decision.Within.{IsWithin};

use crate::decision::splitting::split;
use crate::decision::spoiling::are_spoiled;
use jh_name::NoMemory;
use jh_query::partial_truth::{Atom, judge_query};
use jh_query::queries::{Query, Sizes, Spot, is_first, spot_of};
use jh_query_branching::new_spot;
use std::alloc::Global;

/// Sizes that refute the query, where the first elements stand and the next one stands at a spot.
#[cycle(place)]
fn place_at(
    alloc: Global,
    query: &Query,
    atoms: &mut Vec<Atom<'_>>,
    spots: &mut Vec<Spot>,
    spot: Spot,
) -> Result<Option<Sizes>, NoMemory>
    requires formed { IsWellFormed (query_tree query.now) }
    requires within { IsWithin (query_tree query.now) }
    requires casing { IsCasing (query_tree query.now) (conds_of atoms.old.items) }
    requires placement { IsPlacement query.now.sets (spots.old.items ++ spot ∷ []) }
    requires room { length spots.old.items < query.now.elements }
    ensures none { IfOk result (λ found. IfNone found (NoneLeft (query_tree query.now) (spots.old.items ++ spot ∷ []) atoms.old.items)) }
    ensures atoms { IfOk result (λ found. IfNone found (atoms.new.items ≡ atoms.old.items)) }
    ensures spots { IfOk result (λ found. IfNone found (spots.new.items ≡ spots.old.items)) }
    ensures some { IfOk result (λ found. IfSome found (λ sizes. Refutes (query_tree query.now) (sizing_of sizes))) }
{
    spots.push(spot)?;
    if are_spoiled(query.hyps.items(), spots) {
        let _spot = spots.pop();
        return Ok(None);
    }
    if let Some(true) = judge_query(query, spots, atoms) {
        let _spot = spots.pop();
        return Ok(None);
    }
    let found = place(alloc, query, atoms, spots)?;
    let _spot = spots.pop();
    Ok(found)
}

/// Sizes that refute the query, where the first elements stand and the next one is one of them.
#[cycle(place)]
fn place_old(
    alloc: Global,
    query: &Query,
    atoms: &mut Vec<Atom<'_>>,
    spots: &mut Vec<Spot>,
) -> Result<Option<Sizes>, NoMemory>
    requires formed { IsWellFormed (query_tree query.now) }
    requires within { IsWithin (query_tree query.now) }
    requires casing { IsCasing (query_tree query.now) (conds_of atoms.old.items) }
    requires placement { IsPlacement query.now.sets spots.old.items }
    requires room { length spots.old.items < query.now.elements }
    ensures none { IfOk result (λ found. IfNone found (OldTried (query_tree query.now) spots.old.items atoms.old.items (length spots.old.items))) }
    ensures atoms { IfOk result (λ found. IfNone found (atoms.new.items ≡ atoms.old.items)) }
    ensures spots { IfOk result (λ found. IfNone found (spots.new.items ≡ spots.old.items)) }
    ensures some { IfOk result (λ found. IfSome found (λ sizes. Refutes (query_tree query.now) (sizing_of sizes))) }
{
    for element in 0..spots.len() {
        if is_first(spots, element) {
            let spot = spot_of(spots, element);
            let found = place_at(alloc, query, atoms, spots, spot)?;
            if found.is_some() {
                return Ok(found);
            }
        }
    }
    Ok(None)
}

/// How many regions so many sets have.
fn region_count(sets: u32) -> u64
    requires { sets ≤ 6 }
    ensures { result ≡ 2 ^ sets }
{
    1 << sets
}

/// Sizes that refute the query, where the first elements stand and the next one is an object of its own.
#[cycle(place)]
fn place_new(
    alloc: Global,
    query: &Query,
    atoms: &mut Vec<Atom<'_>>,
    spots: &mut Vec<Spot>,
) -> Result<Option<Sizes>, NoMemory>
    requires formed { IsWellFormed (query_tree query.now) }
    requires within { IsWithin (query_tree query.now) }
    requires casing { IsCasing (query_tree query.now) (conds_of atoms.old.items) }
    requires placement { IsPlacement query.now.sets spots.old.items }
    requires room { length spots.old.items < query.now.elements }
    ensures none { IfOk result (λ found. IfNone found (NewTried (query_tree query.now) spots.old.items atoms.old.items (2 ^ query.now.sets))) }
    ensures atoms { IfOk result (λ found. IfNone found (atoms.new.items ≡ atoms.old.items)) }
    ensures spots { IfOk result (λ found. IfNone found (spots.new.items ≡ spots.old.items)) }
    ensures some { IfOk result (λ found. IfSome found (λ sizes. Refutes (query_tree query.now) (sizing_of sizes))) }
{
    for region in 0..region_count(query.sets) {
        let spot = new_spot(spots, region);
        let found = place_at(alloc, query, atoms, spots, spot)?;
        if found.is_some() {
            return Ok(found);
        }
    }
    Ok(None)
}

/// Sizes that refute the query, where the first elements stand, but not all.
#[cycle(place)]
fn place_next(
    alloc: Global,
    query: &Query,
    atoms: &mut Vec<Atom<'_>>,
    spots: &mut Vec<Spot>,
) -> Result<Option<Sizes>, NoMemory>
    requires formed { IsWellFormed (query_tree query.now) }
    requires within { IsWithin (query_tree query.now) }
    requires casing { IsCasing (query_tree query.now) (conds_of atoms.old.items) }
    requires placement { IsPlacement query.now.sets spots.old.items }
    requires room { length spots.old.items < query.now.elements }
    ensures none { IfOk result (λ found. IfNone found (NoneLeft (query_tree query.now) spots.old.items atoms.old.items)) }
    ensures atoms { IfOk result (λ found. IfNone found (atoms.new.items ≡ atoms.old.items)) }
    ensures spots { IfOk result (λ found. IfNone found (spots.new.items ≡ spots.old.items)) }
    ensures some { IfOk result (λ found. IfSome found (λ sizes. Refutes (query_tree query.now) (sizing_of sizes))) }
{
    let found = place_old(alloc, query, atoms, spots)?;
    if found.is_some() {
        return Ok(found);
    }
    let last = place_new(alloc, query, atoms, spots)?;
    Ok(last)
}

/// Sizes that refute the query, where the first elements stand.
#[cycle(place)]
pub(crate) fn place(
    alloc: Global,
    query: &Query,
    atoms: &mut Vec<Atom<'_>>,
    spots: &mut Vec<Spot>,
) -> Result<Option<Sizes>, NoMemory>
    requires formed { IsWellFormed (query_tree query.now) }
    requires within { IsWithin (query_tree query.now) }
    requires casing { IsCasing (query_tree query.now) (conds_of atoms.old.items) }
    requires placement { IsPlacement query.now.sets spots.old.items }
    requires room { length spots.old.items ≤ query.now.elements }
    ensures none { IfOk result (λ found. IfNone found (NoneLeft (query_tree query.now) spots.old.items atoms.old.items)) }
    ensures atoms { IfOk result (λ found. IfNone found (atoms.new.items ≡ atoms.old.items)) }
    ensures spots { IfOk result (λ found. IfNone found (spots.new.items ≡ spots.old.items)) }
    ensures some { IfOk result (λ found. IfSome found (λ sizes. Refutes (query_tree query.now) (sizing_of sizes))) }
{
    if spots.len() == query.elements as usize {
        return split(alloc, query, atoms, spots);
    }
    place_next(alloc, query, atoms, spots)
}
