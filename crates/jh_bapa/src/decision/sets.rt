#![tactic(auto, unfolding(jh_query::specs::queries::Bare::set_tree, jh_query::specs::queries::Bare::num_tree, jh_query::specs::queries::Bare::cond_tree))]

ghost use Rattle.std.specs.Prelude.{◌≡◌, ◌^◌, ◌≤◌, ◌&&◌, IfOk, false, length, not, slice_index_or};
ghost use Rattle.jh_form.specs.Meaning.{agree};
ghost use Rattle.jh_query.specs.queries.Truth.{implied};
ghost use Rattle.jh_query.specs.queries.Bare.{cond_tree};
ghost use Rattle.jh_bapa.specs.decision.Lists.{listed, picks};
ghost use Rattle.jh_bapa.specs.decision.Cases.{class_differs, classes_differ, rest_differs};
ghost use Rattle.jh_bapa.specs.decision.Systems.{empties, is_empty, needs_of, wants};

use jh_name::{NoMemory, Row};
use jh_query::partial_truth::{Atom, Case};
use jh_query::queries::{Cond, Spot, class_lies, rest_lies};
use std::alloc::Global;

/// Whether two truths are not the same.
fn differ(left: bool, right: bool) -> bool
    ensures { result ≡ not (agree left right) }
{
    left != right
}

/// Whether the first is true and the second isn't.
fn leaves(left: bool, right: bool) -> bool
    ensures { result ≡ not (implied left right) }
{
    left && !right
}

/// Whether a rest in a region keeps a set atom from being true.
fn rest_differs(cond: &Cond, region: u64) -> bool
    ensures { result ≡ rest_differs region (cond_tree cond.now) }
{
    match cond {
        Cond::EqualSet(left, right) => differ(rest_lies(left, region), rest_lies(right, region)),
        Cond::Within(left, right) => leaves(rest_lies(left, region), rest_lies(right, region)),
        Cond::True
        | Cond::False
        | Cond::Flag(_)
        | Cond::SameElement(_, _)
        | Cond::In(_, _)
        | Cond::EqualNum(_, _)
        | Cond::LessNum(_, _)
        | Cond::Divides(_, _)
        | Cond::Not(_)
        | Cond::And(_, _)
        | Cond::Or(_, _)
        | Cond::Implies(_, _)
        | Cond::Iff(_, _) => false,
    }
}

/// Whether the class of an element keeps a set atom from being true.
fn class_differs(cond: &Cond, element: usize, spots: &[Spot]) -> bool
    ensures { result ≡ class_differs spots.now element (cond_tree cond.now) }
{
    match cond {
        Cond::EqualSet(left, right) => differ(
            class_lies(left, element, spots),
            class_lies(right, element, spots),
        ),
        Cond::Within(left, right) => leaves(
            class_lies(left, element, spots),
            class_lies(right, element, spots),
        ),
        Cond::True
        | Cond::False
        | Cond::Flag(_)
        | Cond::SameElement(_, _)
        | Cond::In(_, _)
        | Cond::EqualNum(_, _)
        | Cond::LessNum(_, _)
        | Cond::Divides(_, _)
        | Cond::Not(_)
        | Cond::And(_, _)
        | Cond::Or(_, _)
        | Cond::Implies(_, _)
        | Cond::Iff(_, _) => false,
    }
}

/// Whether a class of the placement keeps a set atom from being true.
pub(crate) fn classes_differ(cond: &Cond, spots: &[Spot]) -> bool
    ensures { result ≡ classes_differ spots.now (cond_tree cond.now) }
{
    let mut any = false;
    for element in 0..spots.len() {
        any = any || class_differs(cond, element, spots);
    }
    any
}

/// Whether an atom, if it is true, allows no rest in a region.
fn empties(atom: &Atom<'_>, region: u64) -> bool
    ensures { result ≡ empties region (cond_tree atom.now.cond.now) atom.now.case }
{
    match atom.case {
        Case::True => rest_differs(atom.cond, region),
        Case::Open | Case::False | Case::Greater | Case::Remainder(_) => false,
    }
}

/// Whether a set atom that is true allows no rest in a region.
fn is_empty(atoms: &[Atom<'_>], region: u64) -> bool
    ensures { result ≡ is_empty atoms.now region }
{
    let mut any = false;
    for atom in atoms {
        any = any || empties(atom, region);
    }
    any
}

/// For each region whether it has no rest: where a set atom that is true would be false.
pub(crate) fn empty_regions(
    alloc: Global,
    sets: u32,
    atoms: &[Atom<'_>],
) -> Result<Vec<bool>, NoMemory>
    requires { sets ≤ 6 }
    ensures { IfOk result (λ empty. empty.items ≡ listed (2 ^ sets) (is_empty atoms.now)) }
{
    let mut empty = Vec::new(alloc);
    for region in 0..1u64 << sets {
        empty.push(is_empty(atoms, region))?;
    }
    Ok(empty)
}

/// Whether an atom is a set atom that is false, and no class makes it so.
fn wants(atom: &Atom<'_>, spots: &[Spot]) -> bool
    ensures { result ≡ wants spots.now (cond_tree atom.now.cond.now) atom.now.case }
{
    match atom.case {
        Case::False => match atom.cond {
            Cond::EqualSet(_, _) | Cond::Within(_, _) => !classes_differ(atom.cond, spots),
            Cond::True
            | Cond::False
            | Cond::Flag(_)
            | Cond::SameElement(_, _)
            | Cond::In(_, _)
            | Cond::EqualNum(_, _)
            | Cond::LessNum(_, _)
            | Cond::Divides(_, _)
            | Cond::Not(_)
            | Cond::And(_, _)
            | Cond::Or(_, _)
            | Cond::Implies(_, _)
            | Cond::Iff(_, _) => false,
        },
        Case::Open | Case::True | Case::Greater | Case::Remainder(_) => false,
    }
}

/// The regions of which one has a rest where a set atom is false, if no class makes it so.
fn need_of(alloc: Global, cond: &Cond, empty: &[bool]) -> Result<Row<u32>, NoMemory>
    requires { length empty.now ≤ 64 }
    ensures { IfOk result (λ need. need ≡ picks (length empty.now) (λ r. not (slice_index_or empty.now r false) && rest_differs r (cond_tree cond.now))) }
{
    let mut need = Vec::new(alloc);
    for region in 0..empty.len() {
        if !empty[region] && rest_differs(cond, region as u64) {
            need.push(region as u32)?;
        }
    }
    Ok(Row::of(need))
}

/// The needs of all set atoms that are false.
pub(crate) fn needs_of(
    alloc: Global,
    atoms: &[Atom<'_>],
    spots: &[Spot],
    empty: &[bool],
) -> Result<Row<Row<u32>>, NoMemory>
    requires few { length empty.now ≤ 64 }
    ensures { IfOk result (λ needs. needs ≡ needs_of (length empty.now) (λ r. slice_index_or empty.now r false) spots.now atoms.now) }
{
    let mut needs = Vec::new(alloc);
    for atom in atoms {
        if wants(atom, spots) {
            let need = need_of(alloc, atom.cond, empty)?;
            needs.push(need)?;
        }
    }
    Ok(Row::of(needs))
}
