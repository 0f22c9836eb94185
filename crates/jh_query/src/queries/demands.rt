#![tactic(auto, using(crate::proofs::queries::Steps::tree_steps, crate::proofs::queries::Others::other_steps))]

ghost use Rattle.std.specs.Prelude.{◌≡◌, ◌||◌, map, not, true, false};
ghost use Rattle.std.specs.List.{list_any};
ghost use Rattle.jh_query.specs.queries.Bare.{cond_tree, query_tree};
ghost use Rattle.jh_query.specs.queries.Size.{asserts, demanded, says};

use crate::queries::matching::same_atom;
use crate::queries::{Cond, Query};

/// What a query wants of an atom.
#[derive(Clone, Copy)]
pub enum Demand {
    True,
    False,
    /// Either.
    Loose,
}

/// Whether a condition is an atom, or its negation.
fn says(cond: &Cond, atom: &Cond, truth: bool) -> bool
    ensures { result ≡ says truth (cond_tree atom.now) (cond_tree cond.now) }
{
    if truth {
        same_atom(atom, cond)
    } else {
        match cond {
            Cond::Not(inner) => same_atom(atom, inner),
            _ => false,
        }
    }
}

/// Whether a part of a conjunction is an atom, or its negation.
fn asserts(cond: &Cond, atom: &Cond, truth: bool) -> bool
    ensures { result ≡ asserts truth (cond_tree atom.now) (cond_tree cond.now) }
{
    match cond {
        Cond::And(left, right) => asserts(left, atom, truth) || asserts(right, atom, truth),
        _ => says(cond, atom, truth),
    }
}

/// Whether a part of a hypothesis is an atom, or its negation.
fn are_asserting(conds: &[Cond], atom: &Cond, truth: bool) -> bool
    ensures { result ≡ list_any (asserts truth (cond_tree atom.now)) (map cond_tree conds.now) }
{
    let mut any = false;
    for cond in conds {
        any = any || asserts(cond, atom, truth);
    }
    any
}

/// Whether the hypotheses want that an atom is so, or the goal that it isn't.
fn is_wanted(query: &Query, atom: &Cond, truth: bool) -> bool
    ensures { result ≡ list_any (asserts truth (cond_tree atom.now)) (query_tree query.now).hyps || says (not truth) (cond_tree atom.now) (query_tree query.now).goal }
{
    are_asserting(query.hyps.items(), atom, truth) || says(&query.goal, atom, !truth)
}

/// What a query wants of an atom.
pub fn demanded(query: &Query, atom: &Cond) -> Demand
    ensures { result ≡ demanded (query_tree query.now) (cond_tree atom.now) }
{
    if is_wanted(query, atom, true) {
        Demand::True
    } else if is_wanted(query, atom, false) {
        Demand::False
    } else {
        Demand::Loose
    }
}
