#![tactic(auto, unfolding(jh_query::specs::queries::Bare::set_tree, jh_query::specs::queries::Bare::num_tree, jh_query::specs::queries::Bare::cond_tree))]

ghost use Rattle.std.specs.Prelude.{◌≡◌};
ghost use Rattle.jh_query.specs.queries.Bare.{cond_tree};
ghost use Rattle.jh_query_branching.specs.Branches.{case_at, case_count, truth_case};

use jh_query::partial_truth::Case;
use jh_query::queries::Cond;

/// The number of cases of an atom.
pub fn case_count(cond: &Cond) -> u64
    ensures { result ≡ case_count (cond_tree cond.now) }
{
    match cond {
        Cond::EqualNum(_, _) => 3,
        Cond::Divides(factor, _) => factor.unsigned_abs(),
        Cond::True
        | Cond::False
        | Cond::Flag(_)
        | Cond::SameElement(_, _)
        | Cond::In(_, _)
        | Cond::EqualSet(_, _)
        | Cond::Within(_, _)
        | Cond::LessNum(_, _)
        | Cond::Not(_)
        | Cond::And(_, _)
        | Cond::Or(_, _)
        | Cond::Implies(_, _)
        | Cond::Iff(_, _) => 2,
    }
}

/// The case with a number, where it isn't a remainder.
fn truth_case(number: u64) -> Case
    ensures { result ≡ truth_case number }
{
    if number == 0 {
        Case::True
    } else if number == 1 {
        Case::False
    } else {
        Case::Greater
    }
}

/// A case of an atom by its number.
pub fn case_at(cond: &Cond, number: u64) -> Case
    ensures { result ≡ case_at (cond_tree cond.now) number }
{
    match cond {
        Cond::Divides(_, _) => Case::Remainder(number),
        Cond::True
        | Cond::False
        | Cond::Flag(_)
        | Cond::SameElement(_, _)
        | Cond::In(_, _)
        | Cond::EqualSet(_, _)
        | Cond::Within(_, _)
        | Cond::EqualNum(_, _)
        | Cond::LessNum(_, _)
        | Cond::Not(_)
        | Cond::And(_, _)
        | Cond::Or(_, _)
        | Cond::Implies(_, _)
        | Cond::Iff(_, _) => truth_case(number),
    }
}
