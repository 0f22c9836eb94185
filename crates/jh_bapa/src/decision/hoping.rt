#![tactic(auto, unfolding(jh_query::specs::queries::Bare::cond_tree))]

ghost use Rattle.std.specs.Prelude.{◌≡◌};
ghost use Rattle.std.specs.List.{list_any};
ghost use Rattle.jh_query.specs.queries.Bare.{cond_tree};
ghost use Rattle.jh_bapa.specs.decision.Cases.{flag_chosen, is_against, is_case_of, is_chosen_flag, is_contrary, is_hopeless};

use crate::decision::sets::classes_differ;
use jh_query::partial_truth::{Atom, Case};
use jh_query::queries::{Cond, Spot};

/// Whether an atom may have its case.
fn is_case_of(atom: &Atom<'_>) -> bool
    ensures { result ≡ is_case_of (cond_tree atom.now.cond.now) atom.now.case }
{
    match atom.case {
        Case::Open => true,
        Case::True | Case::False => match atom.cond {
            Cond::Divides(_, _) => false,
            Cond::True
            | Cond::False
            | Cond::Flag(_)
            | Cond::SameElement(_, _)
            | Cond::In(_, _)
            | Cond::EqualSet(_, _)
            | Cond::Within(_, _)
            | Cond::EqualNum(_, _)
            | Cond::LessNum(_, _)
            | Cond::Not(_)
            | Cond::And(_, _)
            | Cond::Or(_, _)
            | Cond::Implies(_, _)
            | Cond::Iff(_, _) => true,
        },
        Case::Greater => match atom.cond {
            Cond::EqualNum(_, _) => true,
            Cond::True
            | Cond::False
            | Cond::Flag(_)
            | Cond::SameElement(_, _)
            | Cond::In(_, _)
            | Cond::EqualSet(_, _)
            | Cond::Within(_, _)
            | Cond::LessNum(_, _)
            | Cond::Divides(_, _)
            | Cond::Not(_)
            | Cond::And(_, _)
            | Cond::Or(_, _)
            | Cond::Implies(_, _)
            | Cond::Iff(_, _) => false,
        },
        Case::Remainder(remainder) => match atom.cond {
            Cond::Divides(factor, _) => remainder < factor.unsigned_abs(),
            Cond::True
            | Cond::False
            | Cond::Flag(_)
            | Cond::SameElement(_, _)
            | Cond::In(_, _)
            | Cond::EqualSet(_, _)
            | Cond::Within(_, _)
            | Cond::EqualNum(_, _)
            | Cond::LessNum(_, _)
            | Cond::Not(_)
            | Cond::And(_, _)
            | Cond::Or(_, _)
            | Cond::Implies(_, _)
            | Cond::Iff(_, _) => false,
        },
    }
}

/// Whether an atom is a flag that is chosen to be true.
fn is_chosen_flag(atom: &Atom<'_>, flag: u32) -> bool
    ensures { result ≡ is_chosen_flag flag (cond_tree atom.now.cond.now) atom.now.case }
{
    match atom.case {
        Case::True => match atom.cond {
            Cond::Flag(other) => *other == flag,
            Cond::True
            | Cond::False
            | Cond::SameElement(_, _)
            | Cond::In(_, _)
            | Cond::EqualSet(_, _)
            | Cond::Within(_, _)
            | Cond::EqualNum(_, _)
            | Cond::LessNum(_, _)
            | Cond::Divides(_, _)
            | Cond::Not(_)
            | Cond::And(_, _)
            | Cond::Or(_, _)
            | Cond::Implies(_, _)
            | Cond::Iff(_, _) => false,
        },
        Case::Open | Case::False | Case::Greater | Case::Remainder(_) => false,
    }
}

/// Whether a flag is chosen to be true.
pub(crate) fn flag_chosen(atoms: &[Atom<'_>], flag: u32) -> bool
    ensures { result ≡ flag_chosen atoms.now flag }
{
    let mut any = false;
    for atom in atoms {
        any = any || is_chosen_flag(atom, flag);
    }
    any
}

/// Whether a condition is a flag that is chosen to be true.
fn is_contrary(atoms: &[Atom<'_>], cond: &Cond) -> bool
    ensures { result ≡ is_contrary atoms.now (cond_tree cond.now) }
{
    match cond {
        Cond::Flag(flag) => flag_chosen(atoms, *flag),
        Cond::True
        | Cond::False
        | Cond::SameElement(_, _)
        | Cond::In(_, _)
        | Cond::EqualSet(_, _)
        | Cond::Within(_, _)
        | Cond::EqualNum(_, _)
        | Cond::LessNum(_, _)
        | Cond::Divides(_, _)
        | Cond::Not(_)
        | Cond::And(_, _)
        | Cond::Or(_, _)
        | Cond::Implies(_, _)
        | Cond::Iff(_, _) => false,
    }
}

/// Whether the places of the elements or another atom keep an atom from its case.
fn is_against(atoms: &[Atom<'_>], spots: &[Spot], atom: &Atom<'_>) -> bool
    ensures { result ≡ is_against atoms.now spots.now (cond_tree atom.now.cond.now) atom.now.case }
{
    match atom.case {
        Case::True => classes_differ(atom.cond, spots),
        Case::False => is_contrary(atoms, atom.cond),
        Case::Open | Case::Greater | Case::Remainder(_) => false,
    }
}

/// Whether no sizes with these places can meet an atom in its case.
pub(crate) fn is_hopeless(atoms: &[Atom<'_>], spots: &[Spot], atom: &Atom<'_>) -> bool
    ensures { result ≡ is_hopeless atoms.now spots.now (cond_tree atom.now.cond.now) atom.now.case }
{
    !is_case_of(atom) || is_against(atoms, spots, atom)
}

/// Whether no sizes with these places can meet one of the atoms.
pub(crate) fn are_hopeless(atoms: &[Atom<'_>], spots: &[Spot]) -> bool
    ensures { result ≡ list_any (λ a. is_hopeless atoms.now spots.now (cond_tree a.cond.now) a.case) atoms.now }
{
    let mut any = false;
    for atom in atoms {
        any = any || is_hopeless(atoms, spots, atom);
    }
    any
}
