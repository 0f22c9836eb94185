ghost use Rattle.std.specs.Prelude.{◌≡◌, ◌≢◌, ◌<◌, ◌≤◌, ℕ, true, false};
ghost use Rattle.jh_digits.specs.systems.Solution.{IsWellFormed};
ghost use Rattle.jh_digits.specs.solver.Cells.{cell_count, IsSpace};
ghost use Rattle.jh_digits.specs.solver.Table.{mark_of, marks_left, IsTable};

use crate::solver::System;
use crate::solver::following::{Node, visit};
use crate::solver::space::Space;
use std::collections::VecDeque;

/// Visits the nodes of a column. Whether one of them was followed.
fn sweep_column(
    system: &System,
    space: &Space,
    table: &mut [u8],
    queue: &mut VecDeque<Node>,
    column: usize,
) -> bool
    requires formed { IsWellFormed system.now }
    requires space { IsSpace system.now space.now }
    requires table { IsTable system.now table.old }
    requires column { column ≤ system.now.columns }
    ensures table { IsTable system.now table.new }
    ensures fewer { result ≡ true → marks_left table.new < marks_left table.old }
    ensures same { result ≡ false → table.new ≡ table.old }
    ensures followed { result ≡ false → (c : ℕ) → c < cell_count system.now → mark_of system.now table.old column c ≢ 0 → 128 ≤ mark_of system.now table.old column c }
{
    let mut changed = false;
    for cell in 0..space.cells {
        if visit(system, space, table, queue, column, cell) {
            changed = true;
        }
    }
    changed
}

/// Visits all nodes, the first column first, so that one sweep goes on by a whole layer. Whether one of them was
/// followed.
pub(crate) fn sweep(
    system: &System,
    space: &Space,
    table: &mut [u8],
    queue: &mut VecDeque<Node>,
) -> bool
    requires formed { IsWellFormed system.now }
    requires space { IsSpace system.now space.now }
    requires table { IsTable system.now table.old }
    ensures table { IsTable system.now table.new }
    ensures fewer { result ≡ true → marks_left table.new < marks_left table.old }
    ensures same { result ≡ false → table.new ≡ table.old }
    ensures followed { result ≡ false → (j c : ℕ) → j ≤ system.now.columns → c < cell_count system.now → mark_of system.now table.old j c ≢ 0 → 128 ≤ mark_of system.now table.old j c }
{
    let mut changed = false;
    for column in 0..system.columns as usize + 1 {
        if sweep_column(system, space, table, queue, column) {
            changed = true;
        }
    }
    changed
}
