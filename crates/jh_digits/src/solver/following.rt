ghost use Rattle.std.specs.Prelude.{◌≡◌, ◌≢◌, ◌<◌, ◌≤◌, true, false};
ghost use Rattle.jh_digits.specs.systems.Solution.{IsWellFormed};
ghost use Rattle.jh_digits.specs.solver.Cells.{cell_count, IsSpace};
ghost use Rattle.jh_digits.specs.solver.Table.{mark_of, marks_left, IsTable, IsFollowed, Adds};

use crate::solver::System;
use crate::solver::marking::{finish, halve_cell, mark_at, reach, take_cell};
use crate::solver::space::Space;
use std::collections::VecDeque;

/// A column at work, and a cell.
#[derive(Clone, Copy)]
pub(crate) struct Node {
    pub(crate) column: usize,
    pub(crate) cell: usize,
}

/// How many nodes wait in the queue at most. The others are found by sweeps.
const QUEUE_LIMIT: usize = 1 << 20;

/// The last layer that a mark tells from the layers behind it.
const LAST_LAYER: u8 = 127;

/// Marks a node as reached, and puts it into the queue if it was not and there is room. The queue only saves sweeps.
fn offer(
    system: &System,
    space: &Space,
    table: &mut [u8],
    queue: &mut VecDeque<Node>,
    node: Node,
    mark: u8,
)
    requires space { IsSpace system.now space.now }
    requires table { IsTable system.now table.old }
    requires column { node.column ≤ system.now.columns }
    requires cell { node.cell < cell_count system.now }
    requires mark { mark ≢ 0 }
    requires waiting { mark < 128 }
    ensures adds { Adds system.now table.old table.new }
    ensures reached { mark_of system.now table.new node.column node.cell ≢ 0 }
{
    let is_new = reach(system, space, table, node.column, node.cell, mark);
    if is_new && queue.len() < QUEUE_LIMIT {
        let _ = queue.push_back(node);
    }
}

/// Offers the nodes to which a node before the last column leads.
fn follow_column(
    system: &System,
    space: &Space,
    table: &mut [u8],
    queue: &mut VecDeque<Node>,
    node: Node,
    mark: u8,
)
    requires formed { IsWellFormed system.now }
    requires space { IsSpace system.now space.now }
    requires table { IsTable system.now table.old }
    requires column { node.column < system.now.columns }
    requires cell { node.cell < cell_count system.now }
    requires mark { mark ≢ 0 }
    requires waiting { mark < 128 }
    ensures adds { Adds system.now table.old table.new }
    ensures followed { IsFollowed system.now table.new node.column node.cell }
{
    let column = node.column + 1;
    let cell = node.cell;
    offer(system, space, table, queue, Node { column, cell }, mark);
    if let Some(taken) = take_cell(system, space, node.column, cell) {
        let node = Node {
            column,
            cell: taken,
        };
        offer(system, space, table, queue, node, mark);
    }
}

/// The mark of a node in the next layer.
fn next_mark(mark: u8) -> u8
    ensures reached { result ≢ 0 }
    ensures waiting { result < 128 }
{
    if mark < LAST_LAYER {
        mark + 1
    } else {
        LAST_LAYER
    }
}

/// Offers the node to which a node behind the last column leads.
fn follow_last(
    system: &System,
    space: &Space,
    table: &mut [u8],
    queue: &mut VecDeque<Node>,
    node: Node,
    mark: u8,
)
    requires formed { IsWellFormed system.now }
    requires space { IsSpace system.now space.now }
    requires table { IsTable system.now table.old }
    requires column { node.column ≡ system.now.columns }
    requires cell { node.cell < cell_count system.now }
    ensures adds { Adds system.now table.old table.new }
    ensures followed { IsFollowed system.now table.new node.column node.cell }
{
    if let Some(cell) = halve_cell(system, space, node.cell) {
        let node = Node { column: 0, cell };
        offer(system, space, table, queue, node, next_mark(mark));
    }
}

/// Marks the nodes to which a node leads as reached, and the node as followed.
fn expand(
    system: &System,
    space: &Space,
    table: &mut [u8],
    queue: &mut VecDeque<Node>,
    node: Node,
    mark: u8,
)
    requires formed { IsWellFormed system.now }
    requires space { IsSpace system.now space.now }
    requires table { IsTable system.now table.old }
    requires column { node.column ≤ system.now.columns }
    requires cell { node.cell < cell_count system.now }
    requires mark { mark ≡ mark_of system.now table.old node.column node.cell }
    requires reached { mark ≢ 0 }
    requires waiting { mark < 128 }
    ensures table { IsTable system.now table.new }
    ensures fewer { marks_left table.new < marks_left table.old }
{
    if node.column < system.columns as usize {
        follow_column(system, space, table, queue, node, mark);
    } else {
        follow_last(system, space, table, queue, node, mark);
    }
    finish(system, space, table, node.column, node.cell);
}

/// Follows a node if it was reached and not followed. Whether that is so.
pub(crate) fn visit(
    system: &System,
    space: &Space,
    table: &mut [u8],
    queue: &mut VecDeque<Node>,
    column: usize,
    cell: usize,
) -> bool
    requires formed { IsWellFormed system.now }
    requires space { IsSpace system.now space.now }
    requires table { IsTable system.now table.old }
    requires column { column ≤ system.now.columns }
    requires cell { cell < cell_count system.now }
    ensures table { IsTable system.now table.new }
    ensures fewer { result ≡ true → marks_left table.new < marks_left table.old }
    ensures same { result ≡ false → table.new ≡ table.old }
    ensures followed { result ≡ false → mark_of system.now table.old column cell ≢ 0 → 128 ≤ mark_of system.now table.old column cell }
{
    let mark = mark_at(system, space, table, column, cell);
    if mark == 0 || mark > LAST_LAYER {
        return false;
    }
    expand(system, space, table, queue, Node { column, cell }, mark);
    true
}
