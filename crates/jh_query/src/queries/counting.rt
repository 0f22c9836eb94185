#![tactic(auto, unfolding(crate::specs::queries::Bare::set_tree, crate::specs::queries::Bare::num_tree, crate::specs::queries::Bare::cond_tree))]

ghost use Rattle.std.specs.Prelude.{◌≡◌, ◌+◌, ◌≤◌, ◌==◌, ◌&&◌, ◌||◌, if◌then◌else◌, IfSome, length, map, pos, slice_index_or};
ghost use Rattle.std.specs.List.{list_any};
ghost use Rattle.jh_form.specs.Meaning.{all_below, count_below};
ghost use Rattle.jh_query.specs.queries.Bare.{set_tree};
ghost use Rattle.jh_query.specs.queries.Comparing.{test_of};
ghost use Rattle.jh_query.specs.queries.Sizing.{sizing_of, spelled, whole_value};
ghost use Rattle.jh_query.specs.queries.Truth.{class_lies, classes_in, compares, is_first, rest_lies, set_size, sum_below};

use crate::queries::inside::{class_lies, rest_lies, spot_of};
use crate::queries::{SetExpr, Sizes, Spot, Whole};
use jh_name::Row;

/// 1 for the digit 1, and else 0.
fn digit_value(digit: bool) -> u128
    ensures { result ≡ (if digit then 1 else 0) }
{
    if digit { 1 } else { 0 }
}

/// What digits spell, the least first, or `None` where a `u128` doesn't hold it.
fn spelled(digits: &[bool]) -> Option<u128>
    ensures { IfSome result (λ number. number ≡ spelled digits.now) }
{
    let mut number = 0u128;
    let mut place = digits.len();
    while place > 0 {
        place -= 1;
        number = number
            .checked_mul(2)?
            .checked_add(digit_value(digits[place]))?;
    }
    Some(number)
}

/// Whether there is a digit 1.
fn has_one(digits: &[bool]) -> bool
    ensures { result ≡ list_any (λ digit. digit) digits.now }
{
    digits.iter().any(|digit| *digit)
}

/// Whether all digits are 0.
fn is_nought(digits: &[bool]) -> bool
    ensures { result ≡ (spelled digits.now == 0) }
{
    !has_one(digits)
}

/// A number that is not below 0, where `i128` holds it.
fn signed(number: u128) -> Option<i128>
    ensures { IfSome result (λ value. value ≡ pos number) }
{
    if number < 1 << 127 {
        Some(number as i128)
    } else {
        None
    }
}

/// What a whole number is, or `None` where a part of it leaves `i128`.
fn whole_value(number: &Whole) -> Option<i128>
    ensures { IfSome result (λ value. value ≡ whole_value number.now) }
{
    let plus = signed(spelled(number.plus.items())?)?;
    let minus = signed(spelled(number.minus.items())?)?;
    plus.checked_sub(minus)
}

/// A number of the sizes; where there is no such number, 0.
pub(crate) fn number_at(numbers: &[Whole], number: u32) -> Option<i128>
    ensures { IfSome result (λ value. value ≡ slice_index_or (map whole_value numbers.now) number (pos 0)) }
{
    match numbers.get(number as usize) {
        Some(whole) => whole_value(whole),
        None => Some(0),
    }
}

/// Whether no element before this one is of its class.
pub fn is_first(spots: &[Spot], element: usize) -> bool
    ensures { result ≡ is_first spots.now element }
{
    let class = spot_of(spots, element).class;
    let mut is_found = false;
    for other in 0..element {
        is_found = is_found || spot_of(spots, other).class == class;
    }
    !is_found
}

/// How many classes lie inside a set.
pub fn classes_inside(set: &SetExpr, spots: &[Spot]) -> usize
    ensures value { result ≡ classes_in spots.now (set_tree set.now) }
    ensures bound { result ≤ length spots.now }
{
    let mut count = 0usize;
    for element in 0..spots.len() {
        if is_first(spots, element) && class_lies(set, element, spots) {
            count += 1;
        }
    }
    count
}

/// How many objects inside a set are no element, or `None` where a `u128` doesn't hold it.
fn rests_inside(set: &SetExpr, rest: &[Row<bool>]) -> Option<u128>
    ensures { IfSome result (λ sum. sum ≡ sum_below (length rest.now) (λ r. if rest_lies r (set_tree set.now) then slice_index_or (map spelled rest.now) r 0 else 0)) }
{
    let mut sum = 0u128;
    for (region, digits) in rest.iter().enumerate() {
        if rest_lies(set, region as u64) {
            sum = sum.checked_add(spelled(digits.items())?)?;
        }
    }
    Some(sum)
}

/// How many objects are in a set, or `None` where that leaves `i128`.
pub(crate) fn set_size(set: &SetExpr, sizes: &Sizes) -> Option<i128>
    ensures { IfSome result (λ size. size ≡ pos (set_size (sizing_of sizes.now) (set_tree set.now))) }
{
    let rests = rests_inside(set, sizes.rest.items())?;
    let classes = classes_inside(set, sizes.spots.items());
    signed(rests.checked_add(classes as u128)?)
}

/// How two sets are compared.
#[derive(Clone, Copy)]
pub(crate) enum Comparison {
    /// The same objects are in both.
    Equal,
    /// Each object of the first is in the second.
    Within,
}

/// Whether a comparison allows that an object is in one set and in the other.
fn allows(comparison: Comparison, left: bool, right: bool) -> bool
    ensures { result ≡ test_of comparison left right }
{
    match comparison {
        Comparison::Equal => left == right,
        Comparison::Within => !left || right,
    }
}

/// Whether all classes pass a comparison.
fn classes_pass(comparison: Comparison, left: &SetExpr, right: &SetExpr, spots: &[Spot]) -> bool
    ensures { result ≡ all_below (length spots.now) (λ i. test_of comparison (class_lies spots.now i (set_tree left.now)) (class_lies spots.now i (set_tree right.now))) }
{
    let mut all = true;
    for element in 0..spots.len() {
        let is_left = class_lies(left, element, spots);
        all = all && allows(comparison, is_left, class_lies(right, element, spots));
    }
    all
}

/// Whether all rests that have objects pass a comparison.
fn rests_pass(comparison: Comparison, left: &SetExpr, right: &SetExpr, rest: &[Row<bool>]) -> bool
    ensures { result ≡ all_below (length rest.now) (λ r. slice_index_or (map spelled rest.now) r 0 == 0 || test_of comparison (rest_lies r (set_tree left.now)) (rest_lies r (set_tree right.now))) }
{
    let mut all = true;
    for (region, digits) in rest.iter().enumerate() {
        let is_left = rest_lies(left, region as u64);
        let is_right = rest_lies(right, region as u64);
        all = all && (is_nought(digits.items()) || allows(comparison, is_left, is_right));
    }
    all
}

/// Whether two sets pass a comparison.
pub(crate) fn compares(
    comparison: Comparison,
    left: &SetExpr,
    right: &SetExpr,
    sizes: &Sizes,
) -> bool
    ensures { result ≡ compares (sizing_of sizes.now) (test_of comparison) (set_tree left.now) (set_tree right.now) }
{
    let classes = classes_pass(comparison, left, right, sizes.spots.items());
    classes && rests_pass(comparison, left, right, sizes.rest.items())
}
