ghost use Rattle.std.specs.Prelude.{◌≡◌, ◌==◌, ◌<◌, ◌≤◌, ◌%◌, ◌^◌, length, IfSome, IfNone, slice_index};
ghost use Rattle.std.specs.List.{list_any};
ghost use Rattle.jh_digits.specs.systems.Solution.{IsWellFormed, need_of};
ghost use Rattle.jh_digits.specs.systems.Nodes.{node_limit, width_of};
ghost use Rattle.jh_digits.specs.solver.Cells.{names, row_after, flags_of, after, radix, row_depth, coordinates, coordinate, next_of, IsInRange, cell_of, cell_count, StepFits, IsSpace};

use crate::solver::System;
use crate::systems::{minus_entry, minus_right, plus_entry, plus_right};

/// What leads from one cell to another.
#[derive(Clone, Copy)]
pub(crate) enum Step {
    /// To the cell in which a search begins, from any.
    Start,
    /// To the cell in which a search ends, from any.
    End,
    /// A digit 1 at this column.
    Take(usize),
    /// To the next layer of digits.
    Halve,
}

/// The widths and depths of the coordinates of a system's cells, and how many cells there are.
#[derive(Drop)]
pub(crate) struct Space {
    pub(crate) widths: Vec<u64>,
    pub(crate) depths: Vec<u64>,
    /// For each column the needs that name it: need k is the bit of weight 2 to the power k.
    pub(crate) masks: Vec<u64>,
    /// 2 to the power of the number of needs.
    pub(crate) flags: u64,
    pub(crate) cells: usize,
}

/// The coordinates of the needs after a step, as bits.
fn flags_after(system: &System, space: &Space, step: Step, cell: u64) -> u64
    requires space { IsSpace system.now space.now }
    requires step { StepFits system.now step }
    ensures { result ≡ flags_of system.now step cell }
{
    let flags = cell & (space.flags - 1);
    match step {
        Step::Start => 0,
        Step::End => space.flags - 1,
        Step::Take(column) => flags | space.masks[column],
        Step::Halve => flags,
    }
}

/// The coordinate of a row after a step.
fn row_after(system: &System, step: Step, row: usize, depth: u64, width: u64, raised: u64) -> u64
    requires formed { IsWellFormed system.now }
    requires row { row < system.now.rows }
    requires step { StepFits system.now step }
    requires depth { depth ≡ row_depth system.now row }
    requires width { width ≡ width_of system.now row }
    requires small { width ≤ node_limit }
    requires raised { raised < width }
    ensures { result ≡ row_after system.now step row raised }
{
    match step {
        Step::Start => depth + plus_right(system, row) - minus_right(system, row),
        Step::End => depth,
        Step::Take(column) => {
            let plus = plus_entry(system, row, column);
            let sum = raised + minus_entry(system, row, column);
            if plus <= sum { sum - plus } else { width }
        }
        Step::Halve => {
            let sum = raised + depth;
            if sum % 2 == 0 { sum / 2 } else { width }
        }
    }
}

/// The coordinate of a row after a step, by its place among all coordinates.
fn coordinate_after(system: &System, space: &Space, step: Step, place: usize, value: u64) -> u64
    requires formed { IsWellFormed system.now }
    requires space { IsSpace system.now space.now }
    requires step { StepFits system.now step }
    requires row { length system.now.needs ≤ place }
    requires place { place < coordinates system.now }
    requires value { value < radix system.now place }
    ensures { result ≡ after system.now step place value }
{
    let needs = system.needs.items().len();
    let depths = space.depths.as_slice();
    let widths = space.widths.as_slice();
    row_after(
        system,
        step,
        place - needs,
        depths[place],
        widths[place],
        value,
    )
}

/// The cell to which a step leads, or none where it leads out of the bounds.
pub(crate) fn cell_after(system: &System, space: &Space, step: Step, cell: usize) -> Option<usize>
    requires formed { IsWellFormed system.now }
    requires space { IsSpace system.now space.now }
    requires step { StepFits system.now step }
    ensures within { IfSome result (λ c. c < cell_count system.now) }
    ensures some { IfSome result (λ c. c ≡ cell_of system.now (next_of system.now step cell)) }
    ensures range { IfSome result (λ c. IsInRange system.now (next_of system.now step cell)) }
    ensures none { IfNone result (¬ IsInRange system.now (next_of system.now step cell)) }
{
    let needs = system.needs.items().len();
    let widths = space.widths.as_slice();
    let mut rest = cell as u64 >> needs;
    let mut made = flags_after(system, space, step, cell as u64);
    let mut scale = space.flags;
    for place in needs..widths.len() {
        let width = widths[place];
        let next = coordinate_after(system, space, step, place, rest % width);
        if next >= width {
            return None;
        }
        made += next * scale;
        scale *= width;
        rest /= width;
    }
    Some(made as usize)
}
