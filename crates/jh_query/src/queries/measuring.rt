#![tactic(auto, using(jh_containers::proofs::capped_counts::Ceilings::capped_steps, crate::proofs::queries::Tallying::tally_steps), unfolding(crate::specs::queries::Bare::set_tree, crate::specs::queries::Bare::num_tree, crate::specs::queries::Bare::cond_tree))]

ghost use Rattle.std.specs.Prelude.{◌≡◌, ◌+◌, ◌<◌, ◌≤◌, ◌∷◌, [], MatchOption, drop, false, length, map, true, unsigned_abs};
ghost use Rattle.std.specs.List.{flat_map};
ghost use Rattle.jh_query.specs.queries.Bare.{cond_tree, query_tree};
ghost use Rattle.jh_query.specs.queries.Tree.{QueryTree};
ghost use Rattle.jh_query.specs.queries.Later.{later_atoms};
ghost use Rattle.jh_query.specs.queries.Tallies.{IsTally, fresh, joined};
ghost use Rattle.jh_query.specs.queries.Size.{atom_weight, atoms, atoms_of, capped, cases, distinct, is_small_atom, places, query_size, remainder_cases, slacks, three_cases, two_cases};

use crate::queries::atoms::{Later, is_later};
use crate::queries::demands::{Demand, demanded};
use crate::queries::rows::atom_bound;
use crate::queries::{Cond, Query};
use jh_containers::capped_counts::{column_count, plus, times};

fn three_cases(demand: Demand) -> u128
    ensures { result ≡ three_cases demand }
{
    match demand {
        Demand::True => 1,
        Demand::False => 2,
        Demand::Loose => 3,
    }
}

fn two_cases(demand: Demand) -> u128
    ensures { result ≡ two_cases demand }
{
    match demand {
        Demand::Loose => 2,
        Demand::True | Demand::False => 1,
    }
}

fn remainder_cases(demand: Demand, factor: u64) -> u128
    ensures { result ≡ remainder_cases demand factor }
{
    match demand {
        Demand::True => 1,
        Demand::False => u128::from(factor.saturating_sub(1).max(1)),
        Demand::Loose => u128::from(factor.max(2)),
    }
}

/// How many cases an atom has, by what is wanted of it.
fn cases(demand: Demand, atom: &Cond) -> u128
    ensures { result ≡ cases demand (cond_tree atom.now) }
{
    match atom {
        Cond::EqualSet(_, _) | Cond::Within(_, _) | Cond::EqualNum(_, _) => three_cases(demand),
        Cond::LessNum(_, _) | Cond::Flag(_) => two_cases(demand),
        Cond::Divides(factor, _) => remainder_cases(demand, factor.unsigned_abs()),
        Cond::True
        | Cond::False
        | Cond::SameElement(_, _)
        | Cond::In(_, _)
        | Cond::Not(_)
        | Cond::And(_, _)
        | Cond::Or(_, _)
        | Cond::Implies(_, _)
        | Cond::Iff(_, _) => 1,
    }
}

/// How many columns an atom adds.
fn slacks(atom: &Cond) -> u128
    ensures { result ≡ slacks (cond_tree atom.now) }
{
    match atom {
        Cond::EqualNum(_, _) | Cond::LessNum(_, _) => 1,
        Cond::Divides(_, _) => 2,
        Cond::True
        | Cond::False
        | Cond::Flag(_)
        | Cond::SameElement(_, _)
        | Cond::In(_, _)
        | Cond::EqualSet(_, _)
        | Cond::Within(_, _)
        | Cond::Not(_)
        | Cond::And(_, _)
        | Cond::Or(_, _)
        | Cond::Implies(_, _)
        | Cond::Iff(_, _) => 0,
    }
}

/// The cases of an atom times its bound, or `None` where a factor or the constant leaves `i128`.
fn atom_weight(query: &Query, atom: &Cond) -> Option<u128>
    requires { query.now.sets ≤ 16 }
    ensures { MatchOption result (is_small_atom (query_tree query.now) (cond_tree atom.now) ≡ false)
        (λ weight. (is_small_atom (query_tree query.now) (cond_tree atom.now) ≡ true) × (weight ≡ capped (atom_weight (query_tree query.now) (cond_tree atom.now)))) }
{
    let bound = atom_bound(query, atom)?;
    Some(times(cases(demanded(query, atom), atom), bound))
}

/// What the different atoms of a part of a query come to.
#[derive(Clone, Copy)]
pub(crate) struct Tally {
    /// The product of their weights.
    pub(crate) product: u128,
    /// How many columns they add.
    pub(crate) slacks: u128,
}

/// What two parts come to.
fn joined(left: Option<Tally>, right: Option<Tally>) -> Option<Tally>
    ensures { result ≡ joined left right }
{
    let left = left?;
    let right = right?;
    Some(Tally {
        product: times(left.product, right.product),
        slacks: plus(left.slacks, right.slacks),
    })
}

/// What no atom comes to.
fn nothing() -> Option<Tally>
    ensures { (q : QueryTree) → IsTally q result [] }
{
    Some(Tally {
        product: 1,
        slacks: 0,
    })
}

/// What an atom comes to.
fn tally_atom(query: &Query, atom: &Cond) -> Option<Tally>
    requires { query.now.sets ≤ 16 }
    ensures { IsTally (query_tree query.now) result (cond_tree atom.now ∷ []) }
{
    Some(Tally {
        product: atom_weight(query, atom)?,
        slacks: slacks(atom),
    })
}

/// What an atom comes to where it doesn't stand again behind.
fn tally_here(query: &Query, atom: &Cond, later: &Later<'_>) -> Option<Tally>
    requires { query.now.sets ≤ 16 }
    ensures { IsTally (query_tree query.now) result (fresh (cond_tree atom.now ∷ []) (later_atoms later.now)) }
{
    if is_later(later, atom) {
        nothing()
    } else {
        tally_atom(query, atom)
    }
}

/// What the different atoms of a condition come to that don't stand again behind.
fn tally_cond(query: &Query, cond: &Cond, later: &Later<'_>) -> Option<Tally>
    requires { query.now.sets ≤ 16 }
    ensures { IsTally (query_tree query.now) result (fresh (atoms (cond_tree cond.now)) (later_atoms later.now)) }
{
    match cond {
        Cond::True | Cond::False => nothing(),
        Cond::Not(inner) => tally_cond(query, inner, later),
        Cond::And(left, right)
        | Cond::Or(left, right)
        | Cond::Implies(left, right)
        | Cond::Iff(left, right) => joined(
            tally_cond(query, left, &Later::One(right, &*later)),
            tally_cond(query, right, later),
        ),
        Cond::Flag(_)
        | Cond::SameElement(_, _)
        | Cond::In(_, _)
        | Cond::EqualSet(_, _)
        | Cond::Within(_, _)
        | Cond::EqualNum(_, _)
        | Cond::LessNum(_, _)
        | Cond::Divides(_, _) => tally_here(query, cond, later),
    }
}

/// What the different atoms of the condition at a place and of those behind it come to, of what those behind it do.
fn tally_from(
    query: &Query,
    conds: &[Cond],
    at: usize,
    behind: Option<Tally>,
    later: &Later<'_>,
) -> Option<Tally>
    requires sets { query.now.sets ≤ 16 }
    requires at { at < length conds.now }
    requires behind { IsTally (query_tree query.now) behind (fresh (flat_map atoms (map cond_tree (drop (at + 1) conds.now))) (later_atoms later.now)) }
    ensures { IsTally (query_tree query.now) result (fresh (flat_map atoms (map cond_tree (drop at conds.now))) (later_atoms later.now)) }
{
    let rest = &conds[at + 1..];
    joined(
        tally_cond(query, &conds[at], &Later::Several(rest, &*later)),
        behind,
    )
}

/// What the different atoms of several conditions come to that don't stand again behind. It goes from the last one to the
/// first, without recursion, since there may be as many as a source has room for.
fn tally_several(query: &Query, conds: &[Cond], later: &Later<'_>) -> Option<Tally>
    requires { query.now.sets ≤ 16 }
    ensures { IsTally (query_tree query.now) result (fresh (flat_map atoms (map cond_tree conds.now)) (later_atoms later.now)) }
{
    let mut tally = nothing();
    for behind in 0..conds.len() {
        let at = conds.len() - 1 - behind;
        tally = tally_from(query, conds, at, tally, later);
    }
    tally
}

/// What all different atoms of a query come to.
fn tally_all(query: &Query) -> Option<Tally>
    requires { query.now.sets ≤ 16 }
    ensures { IsTally (query_tree query.now) result (distinct (atoms_of (query_tree query.now))) }
{
    let hyps = tally_several(
        query,
        query.hyps.items(),
        &Later::One(&query.goal, &Later::Nothing),
    );
    joined(hyps, tally_cond(query, &query.goal, &Later::Nothing))
}

/// The places of all elements.
fn places(sets: u32, elements: u32) -> u128
    requires { sets ≤ 16 }
    ensures { result ≡ capped (places sets elements) }
{
    let mut product = 1u128;
    for element in 0..elements {
        product = times(product, (1u128 << sets) + element as u128);
    }
    product
}

/// The size of a query: what bounds the work of deciding it, or the greatest `u128` where it is more, where
/// there are more than 16 sets, or where a factor or a constant of a number leaves `i128`.
pub fn size(query: &Query) -> u128
    ensures { result ≡ query_size (query_tree query.now) }
{
    if query.sets > 16 {
        return u128::MAX;
    }
    match tally_all(query) {
        Some(tally) => {
            let columns = column_count(query.sets, query.numbers, tally.slacks);
            let cases = times(places(query.sets, query.elements), tally.product);
            times(cases, plus(columns, 1))
        }
        None => u128::MAX,
    }
}
