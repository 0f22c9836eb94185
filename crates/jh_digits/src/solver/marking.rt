ghost use Rattle.std.specs.Prelude.{◌≡◌, ◌≢◌, ◌<◌, ◌≤◌, ◌*◌, ◌+◌, length, suc, IfSome, IfNone, slice_set};
ghost use Rattle.jh_digits.specs.systems.Solution.{IsWellFormed};
ghost use Rattle.jh_digits.specs.solver.Cells.{cell_count, IsSpace};
ghost use Rattle.jh_digits.specs.solver.Closed.{start_of, end_of};
ghost use Rattle.jh_digits.specs.solver.Table.{node_of, mark_of, taken_of, halved_of, CanTake, CanHalve, marks_left, IsTable, IsFollowed, Adds};

use crate::solver::System;
use crate::solver::space::{Space, Step, cell_after};

/// What is added to the mark of a node whose steps were followed.
pub(crate) const FOLLOWED: u8 = 128;

/// The mark of a node.
pub(crate) fn mark_at(
    system: &System,
    space: &Space,
    table: &[u8],
    column: usize,
    cell: usize,
) -> u8
    requires space { IsSpace system.now space.now }
    requires count { length table.now ≡ (system.now.columns + 1) * cell_count system.now }
    requires column { column ≤ system.now.columns }
    requires cell { cell < cell_count system.now }
    ensures { result ≡ mark_of system.now table.now column cell }
{
    table[column * space.cells + cell]
}

/// Sets the mark of a node.
fn put_mark(system: &System, space: &Space, table: &mut [u8], column: usize, cell: usize, mark: u8)
    requires space { IsSpace system.now space.now }
    requires count { length table.old ≡ (system.now.columns + 1) * cell_count system.now }
    requires column { column ≤ system.now.columns }
    requires cell { cell < cell_count system.now }
    ensures { table.new ≡ slice_set table.old (node_of system.now column cell) mark }
{
    table[column * space.cells + cell] = mark;
}

/// The cell after a digit 1 at a column, or none where that leads out of the bounds.
pub(crate) fn take_cell(system: &System, space: &Space, column: usize, cell: usize) -> Option<usize>
    requires formed { IsWellFormed system.now }
    requires space { IsSpace system.now space.now }
    requires column { column < system.now.columns }
    ensures within { IfSome result (λ next. next < cell_count system.now) }
    ensures some { IfSome result (λ next. next ≡ taken_of system.now column cell) }
    ensures can { IfSome result (λ next. CanTake system.now column cell) }
    ensures none { IfNone result (¬ CanTake system.now column cell) }
{
    cell_after(system, space, Step::Take(column), cell)
}

/// The cell in the next layer, or none where a remainder is odd or leaves the bounds.
pub(crate) fn halve_cell(system: &System, space: &Space, cell: usize) -> Option<usize>
    requires formed { IsWellFormed system.now }
    requires space { IsSpace system.now space.now }
    ensures within { IfSome result (λ next. next < cell_count system.now) }
    ensures some { IfSome result (λ next. next ≡ halved_of system.now cell) }
    ensures can { IfSome result (λ next. CanHalve system.now cell) }
    ensures none { IfNone result (¬ CanHalve system.now cell) }
{
    cell_after(system, space, Step::Halve, cell)
}

/// The cell in which a search begins.
pub(crate) fn start_cell(system: &System, space: &Space) -> usize
    requires formed { IsWellFormed system.now }
    requires space { IsSpace system.now space.now }
    ensures value { result ≡ start_of system.now }
    ensures within { result < cell_count system.now }
{
    cell_after(system, space, Step::Start, 0).unwrap()
}

/// The cell in which a search ends.
pub(crate) fn end_cell(system: &System, space: &Space) -> usize
    requires formed { IsWellFormed system.now }
    requires space { IsSpace system.now space.now }
    ensures value { result ≡ end_of system.now }
    ensures within { result < cell_count system.now }
{
    cell_after(system, space, Step::End, 0).unwrap()
}

/// Marks a node as reached if it was not. Whether it was not.
pub(crate) fn reach(
    system: &System,
    space: &Space,
    table: &mut [u8],
    column: usize,
    cell: usize,
    mark: u8,
) -> bool
    requires space { IsSpace system.now space.now }
    requires table { IsTable system.now table.old }
    requires column { column ≤ system.now.columns }
    requires cell { cell < cell_count system.now }
    requires mark { mark ≢ 0 }
    requires waiting { mark < 128 }
    ensures adds { Adds system.now table.old table.new }
    ensures reached { mark_of system.now table.new column cell ≢ 0 }
{
    let is_new = mark_at(system, space, table, column, cell) == 0;
    if is_new {
        put_mark(system, space, table, column, cell, mark);
    }
    is_new
}

/// Marks a reached node whose steps all lead to reached nodes as followed.
pub(crate) fn finish(system: &System, space: &Space, table: &mut [u8], column: usize, cell: usize)
    requires space { IsSpace system.now space.now }
    requires table { IsTable system.now table.old }
    requires column { column ≤ system.now.columns }
    requires cell { cell < cell_count system.now }
    requires reached { mark_of system.now table.old column cell ≢ 0 }
    requires waiting { mark_of system.now table.old column cell < 128 }
    requires followed { IsFollowed system.now table.old column cell }
    ensures table { IsTable system.now table.new }
    ensures fewer { marks_left table.new < marks_left table.old }
{
    let mark = mark_at(system, space, table, column, cell);
    put_mark(system, space, table, column, cell, mark + FOLLOWED);
}
