ghost use Rattle.std.specs.Prelude.{◌≡◌, ◌<◌, ◌≤◌, ◌^◌};
ghost use Rattle.jh_digits.specs.systems.Solution.{entry_of, right_of, IsWellFormed};
ghost use Rattle.jh_digits.specs.systems.Nodes.{plus, minus};

use crate::systems::System;

/// The factor of a column in a row.
fn entry(system: &System, row: usize, column: usize) -> i64
    requires formed { IsWellFormed system.now }
    requires row { row < system.now.rows }
    requires column { column < system.now.columns }
    ensures { result ≡ entry_of system.now row column }
{
    system.entries.items()[row * system.columns as usize + column]
}

/// The right side of a row.
fn right(system: &System, row: usize) -> i64
    requires formed { IsWellFormed system.now }
    requires row { row < system.now.rows }
    ensures { result ≡ right_of system.now row }
{
    system.right.items()[row]
}

/// A number where it is positive, and else 0.
fn plus_part(number: i64) -> u64
    ensures value { result ≡ plus number }
    ensures bound { result < 2 ^ 63 }
{
    if number > 0 { number as u64 } else { 0 }
}

/// The negated number where it is negative, and else 0.
fn minus_part(number: i64) -> u64
    ensures value { result ≡ minus number }
    ensures bound { result ≤ 2 ^ 63 }
{
    if number < 0 { number.unsigned_abs() } else { 0 }
}

/// The positive part of a factor.
pub fn plus_entry(system: &System, row: usize, column: usize) -> u64
    requires formed { IsWellFormed system.now }
    requires row { row < system.now.rows }
    requires column { column < system.now.columns }
    ensures value { result ≡ plus (entry_of system.now row column) }
    ensures bound { result ≤ 2 ^ 63 }
{
    plus_part(entry(system, row, column))
}

/// The negated negative part of a factor.
pub fn minus_entry(system: &System, row: usize, column: usize) -> u64
    requires formed { IsWellFormed system.now }
    requires row { row < system.now.rows }
    requires column { column < system.now.columns }
    ensures value { result ≡ minus (entry_of system.now row column) }
    ensures bound { result ≤ 2 ^ 63 }
{
    minus_part(entry(system, row, column))
}

/// The positive part of a right side.
pub fn plus_right(system: &System, row: usize) -> u64
    requires formed { IsWellFormed system.now }
    requires row { row < system.now.rows }
    ensures value { result ≡ plus (right_of system.now row) }
    ensures bound { result ≤ 2 ^ 63 }
{
    plus_part(right(system, row))
}

/// The negated negative part of a right side.
pub fn minus_right(system: &System, row: usize) -> u64
    requires formed { IsWellFormed system.now }
    requires row { row < system.now.rows }
    ensures value { result ≡ minus (right_of system.now row) }
    ensures bound { result ≤ 2 ^ 63 }
{
    minus_part(right(system, row))
}
