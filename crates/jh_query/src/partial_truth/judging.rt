#![tactic(auto, using(crate::proofs::queries::Steps::tree_steps, crate::proofs::partial_truth::Tellings::telling_steps))]

ghost use Rattle.std.specs.Prelude.{◌≡◌, List, IfSome, Some, length, map, true};
ghost use Rattle.jh_query.specs.declared.queries.sizes.Spot.{Spot};
ghost use Rattle.jh_query.specs.queries.Bare.{cond_tree, query_tree, set_tree};
ghost use Rattle.jh_query.specs.queries.Tree as t;
ghost use Rattle.jh_query.specs.partial_truth.Judged.{Tells, TellsAll, TellsQuery, agree_told, all_told, both_told, chosen, names_below, one_told, other_told, query_told, told};

use crate::partial_truth::casing::{Atom, case_truth};
use crate::queries::{Cond, Query, SetExpr, Spot, class_lies, same_atom, spot_of};

/// Whether the elements that a set names are below a number.
fn names_below(set: &SetExpr, count: usize) -> bool
    ensures { result ≡ names_below count (set_tree set.now) }
{
    match set {
        SetExpr::Var(_) | SetExpr::Empty | SetExpr::All => true,
        SetExpr::One(element) => (*element as usize) < count,
        SetExpr::Union(left, right) => names_below(left, count) && names_below(right, count),
        SetExpr::Inter(left, right) => names_below(left, count) && names_below(right, count),
        SetExpr::Diff(left, right) => names_below(left, count) && names_below(right, count),
        SetExpr::Compl(inner) => names_below(inner, count),
    }
}

/// The truth of an atom in its case, where it is one of these and chosen.
fn chosen_truth(atoms: &[Atom<'_>], cond: &Cond) -> Option<bool>
    ensures tells { (spots : List Spot) → Tells result spots atoms.now (cond_tree cond.now) }
    ensures exact { result ≡ chosen atoms.now (cond_tree cond.now) }
{
    for place in 0..atoms.len() {
        let atom = atoms[place];
        if same_atom(atom.cond, cond) {
            return case_truth(atom.case);
        }
    }
    None
}

/// Whether two elements are one object, where both stand.
fn is_same(left: u32, right: u32, spots: &[Spot], atoms: &[Atom<'_>]) -> Option<bool>
    ensures tells { Tells result spots.now atoms.now (t.same_element left right) }
    ensures exact { result ≡ told spots.now atoms.now (t.same_element left right) }
{
    if (left as usize) < spots.len() && (right as usize) < spots.len() {
        Some(spot_of(spots, left as usize).class == spot_of(spots, right as usize).class)
    } else {
        None
    }
}

/// Whether an element is in a set, where all that is named stands.
fn is_member(element: u32, set: &SetExpr, spots: &[Spot], atoms: &[Atom<'_>]) -> Option<bool>
    ensures tells { Tells result spots.now atoms.now (t.member element (set_tree set.now)) }
    ensures exact { result ≡ told spots.now atoms.now (t.member element (set_tree set.now)) }
{
    if (element as usize) < spots.len() && names_below(set, spots.len()) {
        Some(class_lies(set, element as usize, spots))
    } else {
        None
    }
}

/// Whether both are true.
fn both(left: Option<bool>, right: Option<bool>) -> Option<bool>
    ensures { result ≡ both_told left right }
{
    match left {
        Some(true) => right,
        Some(false) => Some(false),
        None => match right {
            Some(false) => Some(false),
            Some(true) | None => None,
        },
    }
}

/// Whether one is true.
fn one(left: Option<bool>, right: Option<bool>) -> Option<bool>
    ensures { result ≡ one_told left right }
{
    match left {
        Some(true) => Some(true),
        Some(false) => right,
        None => match right {
            Some(true) => Some(true),
            Some(false) | None => None,
        },
    }
}

/// The other truth.
fn other(truth: Option<bool>) -> Option<bool>
    ensures { result ≡ other_told truth }
{
    match truth {
        Some(truth) => Some(!truth),
        None => None,
    }
}

/// Whether both are the same.
fn agree(left: Option<bool>, right: Option<bool>) -> Option<bool>
    ensures { result ≡ agree_told left right }
{
    match left {
        Some(true) => right,
        Some(false) => other(right),
        None => None,
    }
}

/// The truth of a condition under all sizes that agree with the places of the first elements and with the
/// cases that are chosen, as far as it is known.
pub fn judge(cond: &Cond, spots: &[Spot], atoms: &[Atom<'_>]) -> Option<bool>
    ensures tells { Tells result spots.now atoms.now (cond_tree cond.now) }
    ensures exact { result ≡ told spots.now atoms.now (cond_tree cond.now) }
{
    match cond {
        Cond::True => Some(true),
        Cond::False => Some(false),
        Cond::SameElement(left, right) => is_same(*left, *right, spots, atoms),
        Cond::In(element, set) => is_member(*element, set, spots, atoms),
        Cond::Flag(_)
        | Cond::EqualSet(_, _)
        | Cond::Within(_, _)
        | Cond::EqualNum(_, _)
        | Cond::LessNum(_, _)
        | Cond::Divides(_, _) => chosen_truth(atoms, cond),
        Cond::Not(inner) => other(judge(inner, spots, atoms)),
        Cond::And(left, right) => both(judge(left, spots, atoms), judge(right, spots, atoms)),
        Cond::Or(left, right) => one(judge(left, spots, atoms), judge(right, spots, atoms)),
        Cond::Implies(left, right) => {
            one(other(judge(left, spots, atoms)), judge(right, spots, atoms))
        }
        Cond::Iff(left, right) => agree(judge(left, spots, atoms), judge(right, spots, atoms)),
    }
}

/// Whether all of several conditions are true, as far as it is known.
fn judge_several(conds: &[Cond], spots: &[Spot], atoms: &[Atom<'_>]) -> Option<bool>
    ensures tells { TellsAll result spots.now atoms.now (map cond_tree conds.now) }
    ensures exact { result ≡ all_told spots.now atoms.now (Some true) (map cond_tree conds.now) }
{
    let mut all = Some(true);
    for cond in conds {
        all = both(all, judge(cond, spots, atoms));
    }
    all
}

/// The truth of a query under all sizes that agree with the places of the first elements and with the cases
/// that are chosen, as far as it is known.
pub fn judge_query(query: &Query, spots: &[Spot], atoms: &[Atom<'_>]) -> Option<bool>
    ensures tells { TellsQuery result spots.now atoms.now (query_tree query.now) }
    ensures exact { result ≡ query_told spots.now atoms.now (query_tree query.now) }
{
    let premise = judge_several(query.hyps.items(), spots, atoms);
    one(other(premise), judge(&query.goal, spots, atoms))
}
