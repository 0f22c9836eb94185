#![tactic(auto, using(jh_query::proofs::queries::Fitting::some_fitted), unfolding(jh_query::specs::queries::Bare::set_tree, jh_query::specs::queries::Bare::num_tree, jh_query::specs::queries::Bare::cond_tree))]

ghost use Rattle.std.specs.Prelude.{◌≡◌, ◌+ℤ◌, ◌-ℤ◌, ◌*ℤ◌, neg_ℤ, pos};
ghost use Rattle.std.specs.Ordering.{int_eq};
ghost use Rattle.jh_query.specs.queries.Bare.{num_tree};
ghost use Rattle.jh_query.specs.queries.Fitting.{both_fitted, fitted_of};
ghost use Rattle.jh_query.specs.queries.Sides.{side_tree};
ghost use Rattle.jh_query_branching.specs.Branches.{checked_moved};

use jh_query::queries::{Num, Side, Spot, classes_inside};

/// A sum.
fn sum(left: Option<i128>, right: Option<i128>) -> Option<i128>
    ensures { result ≡ both_fitted (λ x y. x +ℤ y) left right }
{
    left?.checked_add(right?)
}

/// A difference.
fn difference(left: Option<i128>, right: Option<i128>) -> Option<i128>
    ensures { result ≡ both_fitted (λ x y. x -ℤ y) left right }
{
    left?.checked_sub(right?)
}

/// A negated number.
fn negated(number: Option<i128>) -> Option<i128>
    ensures { result ≡ fitted_of neg_ℤ number }
{
    number?.checked_neg()
}

/// A constant times a number.
fn scaled(factor: i64, number: Option<i128>) -> Option<i128>
    ensures { result ≡ fitted_of (λ x. factor *ℤ x) number }
{
    i128::from(factor).checked_mul(number?)
}

/// Whether a number is 0.
fn is_nought(number: &i64) -> bool
    ensures { result ≡ int_eq number.now (pos 0) }
{
    *number == 0
}

/// What the classes of a placement add to a number, or `None` where it or a part of it leaves `i128`. Where a factor is
/// 0, its operand isn't looked at, as it may be of any size.
fn moved(number: &Num, spots: &[Spot]) -> Option<i128>
    ensures { result ≡ checked_moved spots.now (num_tree number.now) }
{
    match number {
        Num::Const(_) | Num::Var(_) => Some(0),
        Num::Add(left, right) => sum(moved(left, spots), moved(right, spots)),
        Num::Sub(left, right) => difference(moved(left, spots), moved(right, spots)),
        Num::Neg(inner) => negated(moved(inner, spots)),
        Num::Scale(factor, inner) => {
            if is_nought(factor) {
                Some(0)
            } else {
                scaled(*factor, moved(inner, spots))
            }
        }
        Num::Card(set) => Some(classes_inside(set, spots) as i128),
    }
}

/// What the classes of a placement add to a side.
pub(crate) fn moved_side(side: &Side<'_>, spots: &[Spot]) -> Option<i128>
    ensures { result ≡ checked_moved spots.now (side_tree side.now) }
{
    match side {
        Side::Alone(number) => moved(number, spots),
        Side::Difference(left, right) => difference(moved(left, spots), moved(right, spots)),
    }
}
