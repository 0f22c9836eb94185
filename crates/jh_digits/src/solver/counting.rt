ghost use Rattle.std.specs.Prelude.{◌≡◌, ◌<◌, ◌≤◌, ◌*◌, ◌+◌, ◌^◌, length, min};
ghost use Rattle.jh_digits.specs.systems.Solution.{entry_of, IsWellFormed};
ghost use Rattle.jh_digits.specs.systems.Nodes.{positive, negative, width_of, node_count, count_max};
ghost use Rattle.jh_digits.specs.solver.Cells.{row_depth};

use crate::solver::System;
use crate::systems::{minus_entry, minus_right, plus_entry, plus_right};

/// The sum of a row's positive factors.
pub(crate) fn positive_sum(system: &System, row: usize) -> u128
    requires formed { IsWellFormed system.now }
    requires row { row < system.now.rows }
    ensures value { result ≡ positive (entry_of system.now row) system.now.columns }
    ensures bound { result ≤ 2 ^ 95 }
{
    let mut sum = 0u128;
    for column in 0..system.columns as usize {
        sum += plus_entry(system, row, column) as u128;
    }
    sum
}

/// The sum of a row's negated negative factors.
pub(crate) fn negative_sum(system: &System, row: usize) -> u128
    requires formed { IsWellFormed system.now }
    requires row { row < system.now.rows }
    ensures value { result ≡ negative (entry_of system.now row) system.now.columns }
    ensures bound { result ≤ 2 ^ 95 }
{
    let mut sum = 0u128;
    for column in 0..system.columns as usize {
        sum += minus_entry(system, row, column) as u128;
    }
    sum
}

/// How many remainders of a row are within its bounds.
pub(crate) fn row_width(system: &System, row: usize) -> u128
    requires formed { IsWellFormed system.now }
    requires row { row < system.now.rows }
    ensures { result ≡ width_of system.now row }
{
    let positive = positive_sum(system, row);
    let negative = negative_sum(system, row);
    let above = (plus_right(system, row) as u128).max(negative);
    let below = (minus_right(system, row) as u128).max(positive);
    above + below + 1 + positive + negative
}

/// How far the remainders of a row may lie below 0.
pub(crate) fn row_depth(system: &System, row: usize) -> u128
    requires formed { IsWellFormed system.now }
    requires row { row < system.now.rows }
    ensures { result ≡ row_depth system.now row }
{
    let positive = positive_sum(system, row);
    (minus_right(system, row) as u128).max(positive) + positive
}

/// The columns at work times the sets of needs.
fn bare_nodes(system: &System) -> u128
    ensures value { result ≡ min ((system.now.columns + 1) * 2 ^ length system.now.needs) count_max }
{
    let mut count = system.columns as u128 + 1;
    for _ in 0..system.needs.items().len() {
        count = count.saturating_mul(2);
    }
    count
}

/// How many nodes a system has, or the greatest `u128` where there are more.
pub fn nodes(system: &System) -> u128
    requires { IsWellFormed system.now }
    ensures { result ≡ min (node_count system.now) count_max }
{
    let mut count = bare_nodes(system);
    for row in 0..system.rows as usize {
        count = count.saturating_mul(row_width(system, row));
    }
    count
}
