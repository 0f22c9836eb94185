#![tactic(auto, using(jh_containers::proofs::capped_counts::Ceilings::capped_steps), unfolding(crate::specs::queries::Bare::set_tree, crate::specs::queries::Bare::num_tree, crate::specs::queries::Bare::cond_tree))]

ghost use Rattle.std.specs.Prelude.{◌≡◌, ◌+◌, ◌*◌, ◌^◌, ◌≤◌, MatchOption, false, is_some, true, unsigned_abs};
ghost use Rattle.jh_query.specs.queries.Truth.{read_number};
ghost use Rattle.jh_form.specs.Meaning.{all_below};
ghost use Rattle.jh_query.specs.queries.Bare.{cond_tree, num_tree, query_tree};
ghost use Rattle.jh_query.specs.queries.Fitting.{checked_number};
ghost use Rattle.jh_query.specs.queries.Linear.{number_factor, picked, rest_factor};
ghost use Rattle.jh_query.specs.queries.Sides.{side_tree};
ghost use Rattle.jh_query.specs.queries.Size.{atom_bound, capped, card_weight, fits_at, is_small, is_small_atom, number_weight, rest_weight, row_bound};

use crate::queries::reading::{Part, difference, part_of};
use crate::queries::{Cond, Num, Query};
use jh_containers::capped_counts::{plus, times};

/// A number atom brought to one side.
#[derive(Clone, Copy)]
pub enum Side<'a> {
    Alone(&'a Num),
    Difference(&'a Num, &'a Num),
}

/// A part of a side, or `None` where it or the same part of an operand leaves `i128`.
pub fn part_of_side(side: &Side<'_>, part: Part<'_>) -> Option<i128>
    ensures { result ≡ checked_number (picked part.entry) (side_tree side.now) }
{
    match side {
        Side::Alone(number) => part_of(number, part),
        Side::Difference(left, right) => difference(part_of(left, part), part_of(right, part)),
    }
}

/// The sum of the absolute values of the numbers by which sizes of sets are multiplied.
fn card_weight(number: &Num) -> u128
    ensures { result ≡ capped (card_weight (num_tree number.now)) }
{
    match number {
        Num::Const(_) | Num::Var(_) => 0,
        Num::Add(left, right) | Num::Sub(left, right) => {
            plus(card_weight(left), card_weight(right))
        }
        Num::Neg(inner) => card_weight(inner),
        Num::Scale(factor, inner) => times(factor.unsigned_abs() as u128, card_weight(inner)),
        Num::Card(_) => 1,
    }
}

/// The same sum over a side.
fn side_card_weight(side: &Side<'_>) -> u128
    ensures { result ≡ capped (card_weight (side_tree side.now)) }
{
    match side {
        Side::Alone(number) => card_weight(number),
        Side::Difference(left, right) => plus(card_weight(left), card_weight(right)),
    }
}

/// The absolute value of a part of a side, or `None` as `part_of_side` has it.
fn part_weight(side: &Side<'_>, part: Part<'_>) -> Option<u128>
    ensures { MatchOption result (is_some (checked_number (picked part.entry) (side_tree side.now)) ≡ false)
        (λ weight. (is_some (checked_number (picked part.entry) (side_tree side.now)) ≡ true) × (weight ≡ capped (unsigned_abs (read_number (picked part.entry) (side_tree side.now))))) }
{
    Some(part_of_side(side, part)?.unsigned_abs())
}

/// The sum of the absolute values of the factors of rests, or `None` where one leaves `i128`.
fn rest_weight(side: &Side<'_>, sets: u32) -> Option<u128>
    requires { sets ≤ 16 }
    ensures { MatchOption result (all_below (2 ^ sets) (fits_at rest_factor (side_tree side.now)) ≡ false)
        (λ sum. (all_below (2 ^ sets) (fits_at rest_factor (side_tree side.now)) ≡ true) × (sum ≡ capped (rest_weight sets (side_tree side.now)))) }
{
    let mut sum = 0u128;
    for region in 0..1u64 << sets {
        let Some(weight) = part_weight(side, Part::Rest(region)) else {
            return None;
        };
        sum = plus(sum, weight);
    }
    Some(sum)
}

/// The sum of the absolute values of the factors of numbers, or `None` where one leaves `i128`.
fn number_weight(side: &Side<'_>, numbers: u32) -> Option<u128>
    ensures { MatchOption result (all_below numbers (fits_at number_factor (side_tree side.now)) ≡ false)
        (λ sum. (all_below numbers (fits_at number_factor (side_tree side.now)) ≡ true) × (sum ≡ capped (number_weight numbers (side_tree side.now)))) }
{
    let mut sum = 0u128;
    for number in 0..numbers {
        let Some(weight) = part_weight(side, Part::Number(number)) else {
            return None;
        };
        sum = plus(sum, weight);
    }
    Some(sum)
}

/// Twice the most that a right side and twice the factors come to, and one.
fn bound(constant: u128, cards: u128, rests: u128, numbers: u128, added: u128) -> u128
    ensures { result ≡ capped (2 * ((constant + cards + added) + 2 * (rests + 2 * numbers + added)) + 1) }
{
    let right = plus(plus(constant, cards), added);
    let factors = plus(plus(rests, times(2, numbers)), added);
    plus(times(2, plus(right, times(2, factors))), 1)
}

/// How many remainders the row of a side has at most, or `None` where a factor or the constant leaves
/// `i128`.
fn row_bound(query: &Query, side: &Side<'_>, added: u128) -> Option<u128>
    requires { query.now.sets ≤ 16 }
    ensures { MatchOption result (is_small (query_tree query.now) (side_tree side.now) ≡ false)
        (λ bound. (is_small (query_tree query.now) (side_tree side.now) ≡ true) × (bound ≡ capped (row_bound (query_tree query.now) added (side_tree side.now)))) }
{
    let rests = rest_weight(side, query.sets)?;
    let numbers = number_weight(side, query.numbers)?;
    let constant = part_weight(side, Part::Constant)?;
    let cards = times(query.elements as u128, side_card_weight(side));
    Some(bound(constant, cards, rests, numbers, added))
}

/// How many remainders the row of an atom has at most, and 1 where it has none; or `None` where a
/// factor or the constant leaves `i128`.
pub(crate) fn atom_bound(query: &Query, atom: &Cond) -> Option<u128>
    requires { query.now.sets ≤ 16 }
    ensures { MatchOption result (is_small_atom (query_tree query.now) (cond_tree atom.now) ≡ false)
        (λ bound. (is_small_atom (query_tree query.now) (cond_tree atom.now) ≡ true) × (bound ≡ capped (atom_bound (query_tree query.now) (cond_tree atom.now)))) }
{
    match atom {
        Cond::EqualNum(left, right) | Cond::LessNum(left, right) => {
            row_bound(query, &Side::Difference(left, right), 1)
        }
        Cond::Divides(factor, number) => {
            row_bound(
                query,
                &Side::Alone(number),
                2 * factor.unsigned_abs() as u128,
            )
        }
        Cond::True
        | Cond::False
        | Cond::Flag(_)
        | Cond::SameElement(_, _)
        | Cond::In(_, _)
        | Cond::EqualSet(_, _)
        | Cond::Within(_, _)
        | Cond::Not(_)
        | Cond::And(_, _)
        | Cond::Or(_, _)
        | Cond::Implies(_, _)
        | Cond::Iff(_, _) => Some(1),
    }
}
