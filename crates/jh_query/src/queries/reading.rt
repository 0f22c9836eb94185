#![tactic(auto, using(crate::proofs::queries::Fitting::some_fitted), unfolding(crate::specs::queries::Bare::set_tree, crate::specs::queries::Bare::num_tree, crate::specs::queries::Bare::cond_tree))]

ghost use Rattle.std.specs.Prelude.{◌≡◌, ◌+ℤ◌, ◌-ℤ◌, ◌*ℤ◌, neg_ℤ, pos, if◌then◌else◌};
ghost use Rattle.jh_query.specs.queries.Bare.{num_tree, set_tree};
ghost use Rattle.jh_query.specs.queries.Fitting.{fitted, both_fitted, fitted_of, checked_number};
ghost use Rattle.jh_query.specs.queries.Linear.{picked};

use crate::queries::counting::classes_inside;
use crate::queries::inside::rest_lies;
use crate::queries::{Num, SetExpr, Spot};

/// What is picked of a number that is a sum over the rests of regions and over numbers.
#[derive(Clone, Copy)]
pub enum Part<'a> {
    /// The factor of the rest of a region.
    Rest(u64),
    /// The factor of a number.
    Number(u32),
    /// What is left where all rests and numbers are 0, and there are no elements.
    Constant,
    /// What is left where all rests and numbers are 0, and the elements stand here.
    Placed(&'a [Spot]),
}

/// A sum.
pub(crate) fn sum(left: Option<i128>, right: Option<i128>) -> Option<i128>
    ensures { result ≡ both_fitted (λ x y. x +ℤ y) left right }
{
    left?.checked_add(right?)
}

/// A difference.
pub(crate) fn difference(left: Option<i128>, right: Option<i128>) -> Option<i128>
    ensures { result ≡ both_fitted (λ x y. x -ℤ y) left right }
{
    left?.checked_sub(right?)
}

/// A negated number.
pub(crate) fn negated(number: Option<i128>) -> Option<i128>
    ensures { result ≡ fitted_of neg_ℤ number }
{
    number?.checked_neg()
}

/// A constant times a number.
pub(crate) fn scaled(factor: i64, number: Option<i128>) -> Option<i128>
    ensures { result ≡ fitted_of (λ x. factor *ℤ x) number }
{
    i128::from(factor).checked_mul(number?)
}

/// 1 where it is so, and else 0.
fn one_if(is_so: bool) -> i128
    ensures { result ≡ (if is_so then pos 1 else pos 0) }
{
    if is_so { 1 } else { 0 }
}

/// The part of a constant.
fn of_constant(part: Part<'_>, constant: i64) -> Option<i128>
    ensures { result ≡ fitted ((picked part.entry).constant constant) }
{
    match part {
        Part::Constant | Part::Placed(_) => Some(i128::from(constant)),
        Part::Rest(_) | Part::Number(_) => Some(0),
    }
}

/// The part of a number.
fn of_number(part: Part<'_>, number: u32) -> Option<i128>
    ensures { result ≡ fitted ((picked part.entry).number number) }
{
    match part {
        Part::Number(other) => Some(one_if(number == other)),
        _ => Some(0),
    }
}

/// The part of the number of objects in a set.
fn of_card(part: Part<'_>, set: &SetExpr) -> Option<i128>
    ensures { result ≡ fitted ((picked part.entry).card (set_tree set.now)) }
{
    match part {
        Part::Rest(region) => Some(one_if(rest_lies(set, region))),
        Part::Placed(spots) => Some(classes_inside(set, spots) as i128),
        Part::Number(_) | Part::Constant => Some(0),
    }
}

/// A part of a number, or `None` where it or the same part of an operand leaves `i128`.
pub fn part_of(number: &Num, part: Part<'_>) -> Option<i128>
    ensures { result ≡ checked_number (picked part.entry) (num_tree number.now) }
{
    match number {
        Num::Const(constant) => of_constant(part, *constant),
        Num::Var(number) => of_number(part, *number),
        Num::Add(left, right) => sum(part_of(left, part), part_of(right, part)),
        Num::Sub(left, right) => difference(part_of(left, part), part_of(right, part)),
        Num::Neg(inner) => negated(part_of(inner, part)),
        Num::Scale(factor, inner) => scaled(*factor, part_of(inner, part)),
        Num::Card(set) => of_card(part, set),
    }
}
