#![tactic(auto, unfolding(jh_query::specs::queries::Bare::set_tree, jh_query::specs::queries::Bare::num_tree, jh_query::specs::queries::Bare::cond_tree))]

ghost use Rattle.std.specs.Prelude.{◌≡◌, map};
ghost use Rattle.std.specs.List.{list_any};
ghost use Rattle.jh_query.specs.queries.Bare.{cond_tree, set_tree};
ghost use Rattle.jh_query.specs.partial_truth.Judged.{names_below};
ghost use Rattle.jh_bapa.specs.decision.Spoiled.{is_spoiled};

use crate::decision::sets::classes_differ;
use jh_query::queries::{Cond, SetExpr, Spot};

/// Whether a set names only elements below a number.
fn names_below(set: &SetExpr, count: usize) -> bool
    ensures { result ≡ names_below count (set_tree set.now) }
{
    match set {
        SetExpr::Var(_) | SetExpr::Empty | SetExpr::All => true,
        SetExpr::One(element) => (*element as usize) < count,
        SetExpr::Union(left, right) | SetExpr::Inter(left, right) | SetExpr::Diff(left, right) => {
            names_below(left, count) && names_below(right, count)
        }
        SetExpr::Compl(inner) => names_below(inner, count),
    }
}

/// Whether the places of the first elements make a condition on sets false.
fn is_spoiled(cond: &Cond, spots: &[Spot]) -> bool
    ensures { result ≡ is_spoiled spots.now (cond_tree cond.now) }
{
    match cond {
        Cond::EqualSet(left, right) | Cond::Within(left, right) => {
            names_below(left, spots.len())
                && names_below(right, spots.len())
                && classes_differ(cond, spots)
        }
        Cond::And(left, right) => is_spoiled(left, spots) || is_spoiled(right, spots),
        Cond::True
        | Cond::False
        | Cond::Flag(_)
        | Cond::SameElement(_, _)
        | Cond::In(_, _)
        | Cond::EqualNum(_, _)
        | Cond::LessNum(_, _)
        | Cond::Divides(_, _)
        | Cond::Not(_)
        | Cond::Or(_, _)
        | Cond::Implies(_, _)
        | Cond::Iff(_, _) => false,
    }
}

/// Whether the places of the first elements make one of several conditions on sets false.
pub(crate) fn are_spoiled(conds: &[Cond], spots: &[Spot]) -> bool
    ensures { result ≡ list_any (is_spoiled spots.now) (map cond_tree conds.now) }
{
    let mut any = false;
    for cond in conds {
        any = any || is_spoiled(cond, spots);
    }
    any
}
