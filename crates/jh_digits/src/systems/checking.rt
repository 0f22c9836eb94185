ghost use Rattle.std.specs.Prelude.{◌≡◌, ◌↔◌, ◌<◌, ◌≤◌, ◌^◌, ℕ, length, IsTrue, slice_index_or, false};
ghost use Rattle.jh_digits.specs.systems.Solution.{entry_of, right_of, need_of, IsWellFormed, IsSolution, IsMet, HasColumns, weighted, spelled};
ghost use Rattle.jh_digits.specs.systems.Totals.{plus_total, minus_total, digit};

use crate::systems::System;
use crate::systems::entries::{minus_entry, minus_right, plus_entry, plus_right};
use crate::systems::system::Digits;
use jh_name::Row;

/// The sum of the positive factors of a row whose columns have a digit 1 in a layer.
fn plus_sum(system: &System, row: usize, layer: &[bool]) -> u128
    requires formed { IsWellFormed system.now }
    requires row { row < system.now.rows }
    requires columns { length layer.now ≡ system.now.columns }
    ensures value { result ≡ plus_total (entry_of system.now row) (digit layer.now) system.now.columns }
    ensures bound { result ≤ 2 ^ 95 }
{
    let mut sum = 0u128;
    for (column, digit) in layer.iter().enumerate() {
        if *digit {
            sum += plus_entry(system, row, column) as u128;
        }
    }
    sum
}

/// The sum of the negated negative factors of a row whose columns have a digit 1 in a layer.
fn minus_sum(system: &System, row: usize, layer: &[bool]) -> u128
    requires formed { IsWellFormed system.now }
    requires row { row < system.now.rows }
    requires columns { length layer.now ≡ system.now.columns }
    ensures value { result ≡ minus_total (entry_of system.now row) (digit layer.now) system.now.columns }
    ensures bound { result ≤ 2 ^ 95 }
{
    let mut sum = 0u128;
    for (column, digit) in layer.iter().enumerate() {
        if *digit {
            sum += minus_entry(system, row, column) as u128;
        }
    }
    sum
}

/// Whether a row is equal to its right side at the numbers that the layers spell. The two sides are
/// compared digit by digit, with what each carries over, so that no number is added up.
fn is_row_equal(system: &System, row: usize, layers: &[Row<bool>]) -> bool
    requires formed { IsWellFormed system.now }
    requires row { row < system.now.rows }
    requires columns { HasColumns system.now.columns layers.now }
    ensures { IsTrue result ↔ (weighted (entry_of system.now row) (spelled layers.now) system.now.columns ≡ right_of system.now row) }
{
    let mut left = minus_right(system, row) as u128;
    let mut right = plus_right(system, row) as u128;
    for layer in layers {
        left += plus_sum(system, row, layer.items());
        right += minus_sum(system, row, layer.items());
        if left % 2 != right % 2 {
            return false;
        }
        left /= 2;
        right /= 2;
    }
    left == right
}

/// The digit of a column in a layer; there is none past the end.
fn digit_at(layer: &[bool], column: usize) -> bool
    ensures { result ≡ slice_index_or layer.now column false }
{
    match layer.get(column) {
        Some(digit) => *digit,
        None => false,
    }
}

/// Whether all digits of a column are 0.
fn is_zero(layers: &[Row<bool>], column: usize) -> bool
    ensures { IsTrue result ↔ (spelled layers.now column ≡ 0) }
{
    for layer in layers {
        if digit_at(layer.items(), column) {
            return false;
        }
    }
    true
}

/// Whether some column of a need has a digit 1.
fn is_need_met(need: &[u32], layers: &[Row<bool>]) -> bool
    ensures { IsTrue result ↔ IsMet need.now (spelled layers.now) }
{
    for column in need {
        if !is_zero(layers, *column as usize) {
            return true;
        }
    }
    false
}

/// Whether each row is equal to its right side.
fn are_rows_equal(system: &System, layers: &[Row<bool>]) -> bool
    requires formed { IsWellFormed system.now }
    requires columns { HasColumns system.now.columns layers.now }
    ensures { IsTrue result ↔ ((i : ℕ) → i < system.now.rows → weighted (entry_of system.now i) (spelled layers.now) system.now.columns ≡ right_of system.now i) }
{
    for row in 0..system.rows as usize {
        if !is_row_equal(system, row, layers) {
            return false;
        }
    }
    true
}

/// Whether each need is met.
fn are_needs_met(system: &System, layers: &[Row<bool>]) -> bool
    ensures { IsTrue result ↔ ((k : ℕ) → k < length system.now.needs → IsMet (need_of system.now k) (spelled layers.now)) }
{
    for need in system.needs.items() {
        if !is_need_met(need.items(), layers) {
            return false;
        }
    }
    true
}

/// Whether the numbers that the digits spell solve the system.
pub fn holds(system: &System, digits: &Digits) -> bool
    requires formed { IsWellFormed system.now }
    requires columns { HasColumns system.now.columns digits.now.layers }
    ensures { IsTrue result ↔ IsSolution system.now (spelled digits.now.layers) }
{
    let layers = digits.layers.items();
    are_rows_equal(system, layers) && are_needs_met(system, layers)
}
