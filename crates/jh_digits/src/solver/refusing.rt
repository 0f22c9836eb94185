ghost use Rattle.std.specs.Prelude.{◌≡◌, ◌<◌, ◌≤◌, ◌^◌, ℕ, true};
ghost use Prim.Native.Nat.{◌∣◌};
ghost use Rattle.std.specs.Int.{IsGcd};
ghost use Rattle.jh_digits.specs.systems.Solution.{entry_of, IsWellFormed, IsSolution};
ghost use Rattle.jh_digits.specs.systems.Answers.{IsUnequal};
ghost use Rattle.jh_digits.specs.systems.Nodes.{plus, minus};

use crate::solver::System;
use crate::solver::counting::{negative_sum, positive_sum};
use crate::systems::{minus_entry, minus_right, plus_entry, plus_right};

/// The greatest common divisor of two numbers.
fn gcd(left: u64, right: u64) -> u64
    ensures { IsGcd left right result }
{
    let mut first = left;
    let mut second = right;
    while second != 0 {
        let rest = first % second;
        first = second;
        second = rest;
    }
    first
}

/// The greatest number that divides all factors of a row; 0 where they are all 0.
fn divisor(system: &System, row: usize) -> u64
    requires formed { IsWellFormed system.now }
    requires row { row < system.now.rows }
    ensures plus { (j : ℕ) → j < system.now.columns → result ∣ plus (entry_of system.now row j) }
    ensures minus { (j : ℕ) → j < system.now.columns → result ∣ minus (entry_of system.now row j) }
{
    let mut common = 0u64;
    for column in 0..system.columns as usize {
        let plus = gcd(common, plus_entry(system, row, column));
        common = gcd(plus, minus_entry(system, row, column));
    }
    common
}

/// Whether a number does not divide another.
fn leaves(divisor: u64, number: u64) -> bool
    ensures { result ≡ true → ¬ (divisor ∣ number) }
{
    if divisor == 0 {
        number != 0
    } else {
        number % divisor != 0
    }
}

/// Whether no numbers make a row equal to its right side, since a number divides all of its factors and not that.
fn is_divided(system: &System, row: usize) -> bool
    requires formed { IsWellFormed system.now }
    requires row { row < system.now.rows }
    ensures { result ≡ true → IsUnequal system.now row }
{
    let common = divisor(system, row);
    if leaves(common, plus_right(system, row)) {
        return true;
    }
    leaves(common, minus_right(system, row))
}

/// Whether no numbers make a row equal to its right side, since that is positive and no factor is.
fn lacks_positive(system: &System, row: usize) -> bool
    requires formed { IsWellFormed system.now }
    requires row { row < system.now.rows }
    ensures { result ≡ true → IsUnequal system.now row }
{
    if plus_right(system, row) == 0 {
        return false;
    }
    positive_sum(system, row) == 0
}

/// Whether no numbers make a row equal to its right side, since that is negative and no factor is.
fn lacks_negative(system: &System, row: usize) -> bool
    requires formed { IsWellFormed system.now }
    requires row { row < system.now.rows }
    ensures { result ≡ true → IsUnequal system.now row }
{
    if minus_right(system, row) == 0 {
        return false;
    }
    negative_sum(system, row) == 0
}

/// Whether a row is refused at once.
fn is_row_refused(system: &System, row: usize) -> bool
    requires formed { IsWellFormed system.now }
    requires row { row < system.now.rows }
    ensures { result ≡ true → IsUnequal system.now row }
{
    if lacks_positive(system, row) || lacks_negative(system, row) {
        return true;
    }
    is_divided(system, row)
}

/// Whether some row is refused at once, by signs or by a divisor.
pub(crate) fn is_refused(system: &System) -> bool
    requires formed { IsWellFormed system.now }
    ensures { result ≡ true → (v : ℕ → ℕ) → ¬ IsSolution system.now v }
{
    for row in 0..system.rows as usize {
        if is_row_refused(system, row) {
            return true;
        }
    }
    false
}
