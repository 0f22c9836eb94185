ghost use Rattle.std.specs.Prelude.{◌≡◌, ◌↔◌, ◌<◌, ◌≤◌, IsTrue, IfOk};
ghost use Rattle.jh_digits.specs.systems.Solution.{IsWellFormed, IsSolution, HasColumns, spelled};
ghost use Rattle.jh_digits.specs.solver.Cells.{cell_count, IsSpace};

use crate::solver::System;
use crate::solver::marking::{FOLLOWED, end_cell, halve_cell, take_cell};
use crate::solver::space::Space;
use crate::systems::{Digits, holds, minus_entry, plus_entry};
use jh_name::{NoMemory, Row};
use std::alloc::Global;

/// In which layer a node was reached, counted from 1; 0 where it was not.
fn layer_at(space: &Space, table: &[u8], column: usize, cell: u64) -> u8 {
    if cell >= space.cells as u64 {
        return 0;
    }
    let node = column
        .saturating_mul(space.cells)
        .saturating_add(cell as usize);
    match table.get(node) {
        Some(mark) => *mark % FOLLOWED,
        None => 0,
    }
}

/// By how much a digit 1 at a column raises what a cell holds of the rows.
fn raise_of(system: &System, space: &Space, column: usize) -> u64
    requires formed { IsWellFormed system.now }
    requires column { column < system.now.columns }
{
    let needs = system.needs.items().len();
    let mut raise = 0u64;
    let mut scale = 1u64;
    for row in 0..system.rows as usize {
        let step = minus_entry(system, row, column).wrapping_sub(plus_entry(system, row, column));
        raise = raise.wrapping_add(step.wrapping_mul(scale));
        let width = space.widths.get(needs.saturating_add(row)).copied();
        scale = scale.wrapping_mul(width.unwrap_or(0));
    }
    raise
}

/// A cell that was reached in this layer, from which a digit 1 at a column leads to a cell.
fn cell_before(
    system: &System,
    space: &Space,
    table: &[u8],
    column: usize,
    cell: usize,
    layer: u8,
) -> Option<usize>
    requires formed { IsWellFormed system.now }
    requires space { IsSpace system.now space.now }
    requires column { column < system.now.columns }
{
    let flags = space.flags;
    let rows = (cell as u64).checked_div(flags).unwrap_or(0);
    let raised = rows.wrapping_sub(raise_of(system, space, column));
    let above = raised.wrapping_mul(flags);
    for flag in 0..flags {
        let before = above.wrapping_add(flag);
        if layer_at(space, table, column, before) == layer
            && take_cell(system, space, column, before as usize) == Some(cell)
        {
            return Some(before as usize);
        }
    }
    None
}

/// The coordinate before halving, if there is one.
fn doubled(place: usize, needs: usize, depth: u64, value: u64) -> u64 {
    if place < needs {
        value
    } else {
        value.wrapping_mul(2).wrapping_sub(depth)
    }
}

/// The cell that was reached in this layer behind the last column, from which halving leads to a cell.
fn cell_doubled(
    system: &System,
    space: &Space,
    table: &[u8],
    cell: usize,
    layer: u8,
) -> Option<usize>
    requires formed { IsWellFormed system.now }
    requires space { IsSpace system.now space.now }
{
    let needs = system.needs.items().len();
    let mut rest = cell as u64;
    let mut before = 0u64;
    let mut scale = 1u64;
    for place in 0..space.widths.len() {
        let width = space.widths.get(place).copied().unwrap_or(0);
        let depth = space.depths.get(place).copied().unwrap_or(0);
        let value = rest.checked_rem(width)?;
        let next = doubled(place, needs, depth, value);
        before = before.wrapping_add(next.wrapping_mul(scale));
        scale = scale.wrapping_mul(width);
        rest = rest.checked_div(width)?;
    }
    if layer_at(space, table, system.columns as usize, before) == layer
        && halve_cell(system, space, before as usize) == Some(cell)
    {
        Some(before as usize)
    } else {
        None
    }
}

/// A layer of digits, and the cell from which it leads on.
#[derive(Drop)]
struct Layer {
    digits: Vec<bool>,
    cell: usize,
}

/// The digits of a layer that leads to a cell of the next one.
fn layer_before(
    alloc: Global,
    system: &System,
    space: &Space,
    table: &[u8],
    cell: usize,
    layer: u8,
) -> Result<Option<Layer>, NoMemory>
    requires formed { IsWellFormed system.now }
    requires space { IsSpace system.now space.now }
{
    let columns = system.columns as usize;
    let mut digits = vec![in alloc; false; columns]?;
    let Some(last) = cell_doubled(system, space, table, cell, layer) else {
        return Ok(None);
    };
    let mut cell = last;
    for passed in 0..columns {
        let column = columns - 1 - passed;
        if layer_at(space, table, column, cell as u64) != layer {
            let Some(before) = cell_before(system, space, table, column, cell, layer) else {
                return Ok(None);
            };
            cell = before;
            if let Some(digit) = digits.get_mut(column) {
                *digit = true;
            }
        }
    }
    Ok(Some(Layer { digits, cell }))
}

/// The layers of digits that lead to the end, as far as the marks tell them.
fn layers_of(
    alloc: Global,
    system: &System,
    space: &Space,
    table: &[u8],
) -> Result<Vec<Row<bool>>, NoMemory>
    requires formed { IsWellFormed system.now }
    requires space { IsSpace system.now space.now }
{
    let mut layers = Vec::new(alloc);
    let mut cell = end_cell(system, space);
    let last = layer_at(space, table, 0, cell as u64);
    for passed in 1..last {
        let Some(layer) = layer_before(alloc, system, space, table, cell, last - passed)? else {
            break;
        };
        cell = layer.cell;
        layers.push(Row::of(layer.digits))?;
    }
    layers.reverse();
    Ok(layers)
}

/// Whether each layer has a digit for each column.
fn has_columns(layers: &[Row<bool>], columns: usize) -> bool
    ensures { IsTrue result ↔ HasColumns columns layers.now }
{
    for layer in layers {
        if layer.items().len() != columns {
            return false;
        }
    }
    true
}

/// The digits on the way to the end, which are a solution. Marks tell the layers up to the 126th, and a smallest solution
/// of a system of at most the limit's nodes has at most 27 digits; where a way were longer, it would be said that memory
/// ran out.
pub(crate) fn trace(
    alloc: Global,
    system: &System,
    space: &Space,
    table: &[u8],
) -> Result<Digits, NoMemory>
    requires formed { IsWellFormed system.now }
    requires space { IsSpace system.now space.now }
    ensures columns { IfOk result (λ digits. HasColumns system.now.columns digits.layers) }
    ensures solution { IfOk result (λ digits. IsSolution system.now (spelled digits.layers)) }
{
    let layers = Row::of(layers_of(alloc, system, space, table)?);
    let is_whole = has_columns(layers.items(), system.columns as usize);
    let digits = Digits { layers };
    if is_whole && holds(system, &digits) {
        Ok(digits)
    } else {
        Err(NoMemory)
    }
}
