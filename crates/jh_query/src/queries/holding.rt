#![tactic(auto, using(crate::proofs::queries::Values::value_steps), unfolding(crate::specs::queries::Bare::set_tree, crate::specs::queries::Bare::num_tree, crate::specs::queries::Bare::cond_tree))]

ghost use Rattle.std.specs.Prelude.{◌≡◌, ◌==◌, IfSome, map, slice_index_or, false, int_lt, option_map};
ghost use Rattle.std.specs.Ordering.{int_eq};
ghost use Rattle.std.specs.List.{list_all};
ghost use Rattle.jh_form.specs.Meaning.{divides_number};
ghost use Rattle.jh_query.specs.queries.Bare.{num_tree, cond_tree, query_tree};
ghost use Rattle.jh_query.specs.queries.Fitting.{both_of};
ghost use Rattle.jh_query.specs.queries.Sizing.{sizing_of};
ghost use Rattle.jh_query.specs.queries.Truth.{holds, number_value, query_true, spot_of};

use crate::queries::counting::{Comparison, compares, number_at, set_size};
use crate::queries::inside::{class_lies, spot_of};
use crate::queries::reading::{difference, negated, scaled, sum};
use crate::queries::{Cond, Num, Query, Sizes, Spot};

/// What a number is, or `None` where it or a part of it leaves `i128`.
fn number_value(number: &Num, sizes: &Sizes) -> Option<i128>
    ensures { IfSome result (λ value. value ≡ number_value (sizing_of sizes.now) (num_tree number.now)) }
{
    match number {
        Num::Const(constant) => Some(i128::from(*constant)),
        Num::Var(number) => number_at(sizes.numbers.items(), *number),
        Num::Add(left, right) => sum(number_value(left, sizes), number_value(right, sizes)),
        Num::Sub(left, right) => {
            difference(number_value(left, sizes), number_value(right, sizes))
        }
        Num::Neg(inner) => negated(number_value(inner, sizes)),
        Num::Scale(factor, inner) => scaled(*factor, number_value(inner, sizes)),
        Num::Card(set) => set_size(set, sizes),
    }
}

/// Whether a constant divides a number.
fn divides(factor: i64, number: i128) -> bool
    ensures { result ≡ divides_number factor number }
{
    let factor = factor.unsigned_abs() as u128;
    let number = number.unsigned_abs();
    if factor == 0 {
        number == 0
    } else {
        number % factor == 0
    }
}

/// Whether two elements are one object.
fn is_same(left: u32, right: u32, spots: &[Spot]) -> bool
    ensures { result ≡ (spot_of spots.now left).class == (spot_of spots.now right).class }
{
    spot_of(spots, left as usize).class == spot_of(spots, right as usize).class
}

/// A flag of the sizes; where there is no such flag, it is false.
fn flag_at(flags: &[bool], flag: u32) -> bool
    ensures { result ≡ slice_index_or flags.now flag false }
{
    match flags.get(flag as usize) {
        Some(flag) => *flag,
        None => false,
    }
}

/// Whether two numbers are equal.
fn is_equal(left: Option<i128>, right: Option<i128>) -> Option<bool>
    ensures { result ≡ both_of int_eq left right }
{
    Some(left? == right?)
}

/// Whether a number is below another.
fn is_less(left: Option<i128>, right: Option<i128>) -> Option<bool>
    ensures { result ≡ both_of int_lt left right }
{
    Some(left? < right?)
}

/// Whether a constant divides a number that may have left `i128`.
fn is_divided(factor: i64, number: Option<i128>) -> Option<bool>
    ensures { result ≡ option_map (divides_number factor) number }
{
    Some(divides(factor, number?))
}

/// The truth of a condition, or `None` where a number in it leaves `i128`.
fn holds(cond: &Cond, sizes: &Sizes) -> Option<bool>
    ensures { IfSome result (λ truth. truth ≡ holds (sizing_of sizes.now) (cond_tree cond.now)) }
{
    match cond {
        Cond::True => Some(true),
        Cond::False => Some(false),
        Cond::Flag(flag) => Some(flag_at(sizes.flags.items(), *flag)),
        Cond::SameElement(left, right) => Some(is_same(*left, *right, sizes.spots.items())),
        Cond::In(element, set) => { Some(class_lies(set, *element as usize, sizes.spots.items())) }
        Cond::EqualSet(left, right) => Some(compares(Comparison::Equal, left, right, sizes)),
        Cond::Within(left, right) => Some(compares(Comparison::Within, left, right, sizes)),
        Cond::EqualNum(left, right) => {
            is_equal(number_value(left, sizes), number_value(right, sizes))
        }
        Cond::LessNum(left, right) => {
            is_less(number_value(left, sizes), number_value(right, sizes))
        }
        Cond::Divides(factor, number) => is_divided(*factor, number_value(number, sizes)),
        Cond::Not(inner) => Some(!holds(inner, sizes)?),
        Cond::And(left, right) => Some(holds(left, sizes)? && holds(right, sizes)?),
        Cond::Or(left, right) => Some(holds(left, sizes)? || holds(right, sizes)?),
        Cond::Implies(left, right) => Some(!holds(left, sizes)? || holds(right, sizes)?),
        Cond::Iff(left, right) => Some(holds(left, sizes)? == holds(right, sizes)?),
    }
}

/// Whether all conditions are true, or `None` where a number in them leaves `i128`.
fn are_true(conds: &[Cond], sizes: &Sizes) -> Option<bool>
    ensures { IfSome result (λ truth. truth ≡ list_all (holds (sizing_of sizes.now)) (map cond_tree conds.now)) }
{
    let mut all = true;
    for cond in conds {
        all = holds(cond, sizes)? && all;
    }
    Some(all)
}

/// Whether a query is true under sizes, or `None` where a number in it leaves `i128`.
pub fn is_true(query: &Query, sizes: &Sizes) -> Option<bool>
    ensures { IfSome result (λ truth. truth ≡ query_true (query_tree query.now) (sizing_of sizes.now)) }
{
    let premise = are_true(query.hyps.items(), sizes)?;
    let goal = holds(&query.goal, sizes)?;
    Some(!premise || goal)
}
