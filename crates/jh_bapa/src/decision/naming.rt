#![tactic(auto, unfolding(jh_query::specs::queries::Bare::set_tree, jh_query::specs::queries::Bare::num_tree, jh_query::specs::queries::Bare::cond_tree))]

ghost use Rattle.std.specs.Prelude.{◌≡◌, ◌↔◌, IsTrue, map};
ghost use Rattle.std.specs.List.{list_all};
ghost use Rattle.jh_query.specs.queries.Bare.{cond_tree, num_tree, query_tree, set_tree};
ghost use Rattle.jh_query.specs.queries.Named.{IsWellFormed, cond_named, is_divisor, num_named, room_of, set_named};

use jh_query::queries::{Cond, Num, Query, SetExpr};

/// Whether a set names only sets and elements of a query.
fn set_named(query: &Query, set: &SetExpr) -> bool
    ensures { result ≡ set_named (room_of (query_tree query.now)) (set_tree set.now) }
{
    match set {
        SetExpr::Var(set) => *set < query.sets,
        SetExpr::Empty | SetExpr::All => true,
        SetExpr::One(element) => *element < query.elements,
        SetExpr::Union(left, right) | SetExpr::Inter(left, right) | SetExpr::Diff(left, right) => {
            set_named(query, left) && set_named(query, right)
        }
        SetExpr::Compl(inner) => set_named(query, inner),
    }
}

/// Whether a number names only sets, elements and numbers of a query.
fn num_named(query: &Query, number: &Num) -> bool
    ensures { result ≡ num_named (room_of (query_tree query.now)) (num_tree number.now) }
{
    match number {
        Num::Const(_) => true,
        Num::Var(number) => *number < query.numbers,
        Num::Add(left, right) | Num::Sub(left, right) => {
            num_named(query, left) && num_named(query, right)
        }
        Num::Neg(inner) | Num::Scale(_, inner) => num_named(query, inner),
        Num::Card(set) => set_named(query, set),
    }
}

/// Whether a constant is 1 or more.
fn is_divisor(factor: i64) -> bool
    ensures { result ≡ is_divisor factor }
{
    factor > 0
}

/// Whether a condition names only what a query has, and divides by 1 or more.
fn cond_named(query: &Query, cond: &Cond) -> bool
    ensures { result ≡ cond_named (room_of (query_tree query.now)) (cond_tree cond.now) }
{
    match cond {
        Cond::True | Cond::False => true,
        Cond::Flag(flag) => *flag < query.flags,
        Cond::SameElement(left, right) => *left < query.elements && *right < query.elements,
        Cond::In(element, set) => *element < query.elements && set_named(query, set),
        Cond::EqualSet(left, right) | Cond::Within(left, right) => {
            set_named(query, left) && set_named(query, right)
        }
        Cond::EqualNum(left, right) | Cond::LessNum(left, right) => {
            num_named(query, left) && num_named(query, right)
        }
        Cond::Divides(factor, number) => is_divisor(*factor) && num_named(query, number),
        Cond::Not(inner) => cond_named(query, inner),
        Cond::And(left, right)
        | Cond::Or(left, right)
        | Cond::Implies(left, right)
        | Cond::Iff(left, right) => cond_named(query, left) && cond_named(query, right),
    }
}

/// Whether conditions name only what a query has, and divide by 1 or more.
fn conds_named(query: &Query, conds: &[Cond]) -> bool
    ensures { result ≡ list_all (cond_named (room_of (query_tree query.now))) (map cond_tree conds.now) }
{
    let mut all = true;
    for cond in conds {
        all = all && cond_named(query, cond);
    }
    all
}

/// Whether a query may be decided: it names only its own sets, elements, numbers and flags, has an element 0, and
/// divides by 1 or more.
pub fn is_well_formed(query: &Query) -> bool
    ensures { IsTrue result ↔ IsWellFormed (query_tree query.now) }
{
    0 < query.elements && conds_named(query, query.hyps.items()) && cond_named(query, &query.goal)
}
