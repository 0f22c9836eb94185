ghost use Rattle.std.specs.Prelude.{◌≡◌, ◌<◌, ◌≤◌, ◌≢◌, ℕ, true, false};
ghost use Rattle.jh_digits.specs.systems.Solution.{IsWellFormed, IsSolution};
ghost use Rattle.jh_digits.specs.solver.Cells.{IsSpace};
ghost use Rattle.jh_digits.specs.solver.Table.{marks_left, IsTable};

use crate::solver::System;
use crate::solver::following::{Node, visit};
use crate::solver::marking::{end_cell, mark_at};
use crate::solver::space::Space;
use crate::solver::sweeping::sweep;
use std::collections::VecDeque;

/// Visits a node of the queue.
fn visit_node(
    system: &System,
    space: &Space,
    table: &mut [u8],
    queue: &mut VecDeque<Node>,
    node: Node,
)
    requires formed { IsWellFormed system.now }
    requires space { IsSpace system.now space.now }
    requires table { IsTable system.now table.old }
    ensures table { IsTable system.now table.new }
    ensures fewer { marks_left table.new ≤ marks_left table.old }
{
    if node.column <= system.columns as usize && node.cell < space.cells {
        let _ = visit(system, space, table, queue, node.column, node.cell);
    }
}

/// Goes on from the nodes in the queue, the nearest first, until the end is reached or none is left.
fn explore(system: &System, space: &Space, table: &mut [u8], queue: &mut VecDeque<Node>, end: usize)
    requires formed { IsWellFormed system.now }
    requires space { IsSpace system.now space.now }
    requires table { IsTable system.now table.old }
    ensures table { IsTable system.now table.new }
    ensures fewer { marks_left table.new ≤ marks_left table.old }
{
    for _ in 0..table.len() {
        let node = match queue.pop_front() {
            Some(node) => node,
            None => return,
        };
        visit_node(system, space, table, queue, node);
        if end < table.len() && table[end] != 0 {
            return;
        }
    }
}

/// Goes on until the end is reached, or a sweep finds no node to follow. Whether the end is reached.
pub(crate) fn is_end_reached(
    system: &System,
    space: &Space,
    table: &mut [u8],
    queue: &mut VecDeque<Node>,
) -> bool
    requires formed { IsWellFormed system.now }
    requires space { IsSpace system.now space.now }
    requires table { IsTable system.now table.old }
    ensures table { IsTable system.now table.new }
    ensures none { result ≡ false → (v : ℕ → ℕ) → ¬ IsSolution system.now v }
{
    let end = end_cell(system, space);
    explore(system, space, table, queue, end);
    while mark_at(system, space, table, 0, end) == 0 {
        if !sweep(system, space, table, queue) {
            return false;
        }
        explore(system, space, table, queue, end);
    }
    true
}
