#![tactic(auto, unfolding(jh_query::specs::queries::Bare::set_tree, jh_query::specs::queries::Bare::num_tree, jh_query::specs::queries::Bare::cond_tree))]

ghost use Rattle.std.specs.Prelude.{◌≡◌, ◌<◌, IfNone, IfOk, IfSome, None, false, length, slice_index_or, true};
ghost use Rattle.jh_query.specs.queries.Bare.{cond_tree, query_tree};
ghost use Rattle.jh_query.specs.queries.Named.{IsWellFormed};
ghost use Rattle.jh_query.specs.queries.Sizing.{sizing_of};
ghost use Rattle.jh_bapa.specs.decision.Cases.{conds_of, is_hopeless};
ghost use Rattle.jh_query.specs.declared.partial_truth.casing.Atom.{Atom};
ghost use Rattle.jh_bapa.specs.decision.Searching.{IsCasing, IsPlacement, NoneLeft, Refutes, is_open, with_case};
ghost use Rattle.jh_bapa.specs.decision.Standing.{opens_at};
ghost use Rattle.jh_bapa.specs.decision.Within.{IsWithin};

use crate::decision::flagging::{are_flags_vain, open_flags};
use crate::decision::hoping::is_hopeless;
use crate::decision::judging::open_query;
use crate::decision::solving::solve_case;
use jh_name::NoMemory;
use jh_query::partial_truth::{Atom, Case, judge_query};
use jh_query::queries::{Query, Sizes, Spot};
use jh_query_branching::{case_at, case_count};
use std::alloc::Global;

/// The atom at a place.
fn atom_at<'a>(atoms: &[Atom<'a>], place: usize) -> Atom<'a>
    requires { place < length atoms.now }
    ensures { result ≡ slice_index_or atoms.now place result }
{
    atoms[place]
}

/// Gives an atom a case.
fn choose(atoms: &mut Vec<Atom<'_>>, place: usize, case: Case)
    requires { place < length atoms.old.items }
    ensures { atoms.new.items ≡ with_case atoms.old.items place case }
{
    let atom = atom_at(atoms, place);
    atoms[place] = Atom {
        cond: atom.cond,
        case,
    };
}

/// Whether no sizes with these places can meet the atom at a place in its case.
fn is_hopeless_at(atoms: &[Atom<'_>], spots: &[Spot], place: usize) -> bool
    requires { place < length atoms.now }
    ensures { (a : Atom) → a ≡ slice_index_or atoms.now place a → result ≡ is_hopeless atoms.now spots.now (cond_tree a.cond.now) a.case }
{
    let atom = atoms[place];
    is_hopeless(atoms, spots, &atom)
}

/// How many flags are tried by words at least. Fewer are split one by one.
const MANY_FLAGS: usize = 8;

/// Whether nothing but many flags is open, and the query is true whatever they are.
fn is_true_by_flags(query: &Query, spots: &[Spot], atoms: &[Atom<'_>]) -> bool
    ensures { result ≡ true → NoneLeft (query_tree query.now) spots.now atoms.now }
{
    if query.flags > 32 || open_flags(atoms) < MANY_FLAGS {
        return false;
    }
    are_flags_vain(query, spots, atoms)
}

/// Sizes of a placement that refute the query, with cases for the open atoms on which it hangs.
#[cycle(split)]
pub(crate) fn split(
    alloc: Global,
    query: &Query,
    atoms: &mut Vec<Atom<'_>>,
    spots: &[Spot],
) -> Result<Option<Sizes>, NoMemory>
    requires formed { IsWellFormed (query_tree query.now) }
    requires within { IsWithin (query_tree query.now) }
    requires casing { IsCasing (query_tree query.now) (conds_of atoms.old.items) }
    requires placement { IsPlacement query.now.sets spots.now }
    requires full { length spots.now ≡ query.now.elements }
    ensures none { IfOk result (λ found. IfNone found (NoneLeft (query_tree query.now) spots.now atoms.old.items)) }
    ensures kept { IfOk result (λ found. IfNone found (atoms.new.items ≡ atoms.old.items)) }
    ensures some { IfOk result (λ found. IfSome found (λ sizes. Refutes (query_tree query.now) (sizing_of sizes))) }
{
    match judge_query(query, spots, atoms) {
        Some(true) => Ok(None),
        Some(false) => solve_case(alloc, query, atoms, spots),
        None => {
            if is_true_by_flags(query, spots, atoms) {
                return Ok(None);
            }
            match open_query(query, spots, atoms) {
                Some(place) => split_atom(alloc, query, atoms, spots, place),
                None => Ok(None),
            }
        }
    }
}

/// Sizes that refute the query, with a case of an atom, and with cases for the open atoms on which it then hangs.
#[cycle(split)]
fn split_case(
    alloc: Global,
    query: &Query,
    atoms: &mut Vec<Atom<'_>>,
    spots: &[Spot],
    place: usize,
    case: Case,
) -> Result<Option<Sizes>, NoMemory>
    requires formed { IsWellFormed (query_tree query.now) }
    requires within { IsWithin (query_tree query.now) }
    requires casing { IsCasing (query_tree query.now) (conds_of atoms.old.items) }
    requires placement { IsPlacement query.now.sets spots.now }
    requires full { length spots.now ≡ query.now.elements }
    requires inside { place < length atoms.old.items }
    requires chosen { is_open case ≡ false }
    ensures none { IfOk result (λ found. IfNone found (NoneLeft (query_tree query.now) spots.now (with_case atoms.old.items place case))) }
    ensures kept { IfOk result (λ found. IfNone found (atoms.new.items ≡ with_case atoms.old.items place case)) }
    ensures some { IfOk result (λ found. IfSome found (λ sizes. Refutes (query_tree query.now) (sizing_of sizes))) }
{
    choose(atoms, place, case);
    if is_hopeless_at(atoms, spots, place) {
        return Ok(None);
    }
    split(alloc, query, atoms, spots)
}

/// Sizes that refute the query, with one of the cases of an atom.
#[cycle(split)]
fn split_atom(
    alloc: Global,
    query: &Query,
    atoms: &mut Vec<Atom<'_>>,
    spots: &[Spot],
    place: usize,
) -> Result<Option<Sizes>, NoMemory>
    requires formed { IsWellFormed (query_tree query.now) }
    requires within { IsWithin (query_tree query.now) }
    requires casing { IsCasing (query_tree query.now) (conds_of atoms.old.items) }
    requires placement { IsPlacement query.now.sets spots.now }
    requires full { length spots.now ≡ query.now.elements }
    requires unset { opens_at atoms.old.items place ≡ true }
    ensures none { IfOk result (λ found. IfNone found (NoneLeft (query_tree query.now) spots.now atoms.old.items)) }
    ensures kept { IfOk result (λ found. IfNone found (atoms.new.items ≡ atoms.old.items)) }
    ensures some { IfOk result (λ found. IfSome found (λ sizes. Refutes (query_tree query.now) (sizing_of sizes))) }
{
    let atom = atom_at(atoms, place);
    let cond = atom.cond;
    for number in 0..case_count(cond) {
        let found = split_case(alloc, query, atoms, spots, place, case_at(cond, number))?;
        if found.is_some() {
            return Ok(found);
        }
    }
    choose(atoms, place, Case::Open);
    Ok(None)
}
