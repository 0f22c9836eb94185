ghost use Rattle.std.specs.Prelude.{◌≡◌, ◌<◌, ◌≤◌, ◌^◌, ℕ, IfOk, if◌then◌else◌, length, slice_index};
ghost use Rattle.jh_digits.specs.systems.Solution.{need_of, IsWellFormed};
ghost use Rattle.jh_digits.specs.systems.Nodes.{node_limit, node_count};
ghost use Rattle.jh_digits.specs.solver.Cells.{names, radix, depth, coordinates, cell_count, mask_of, IsSpace};

use crate::solver::System;
use crate::solver::counting::{row_depth, row_width};
use crate::solver::space::Space;
use jh_name::NoMemory;
use std::alloc::Global;

/// Whether a need names a column.
fn is_named(need: &[u32], column: usize) -> bool
    ensures { result ≡ names need.now column }
{
    need.iter().any(|named| *named as usize == column)
}

/// Whether a need of a system names a column.
fn names_at(system: &System, need: usize, column: usize) -> bool
    requires { need < length system.now.needs }
    ensures { result ≡ names (need_of system.now need) column }
{
    is_named(system.needs.items()[need].items(), column)
}

/// 2 to the power of the number of needs.
fn flag_count(system: &System) -> u64
    requires { length system.now.needs ≤ 26 }
    ensures { result ≡ 2 ^ length system.now.needs }
{
    1 << system.needs.items().len()
}

/// A bit, if it is wanted.
fn bit_if(is_wanted: bool, bit: u64) -> u64
    ensures value { result ≡ (if is_wanted then bit else 0) }
    ensures bound { result ≤ bit }
{
    if is_wanted { bit } else { 0 }
}

/// The needs that name a column, as bits.
fn mask_at(system: &System, column: usize) -> u64
    requires { length system.now.needs ≤ 26 }
    ensures { result ≡ mask_of system.now column }
{
    let mut mask = 0u64;
    let mut bit = 1u64;
    for place in 0..system.needs.items().len() {
        mask += bit_if(names_at(system, place, column), bit);
        bit *= 2;
    }
    mask
}

/// For each column the needs that name it, as bits.
fn masks_of(alloc: Global, system: &System) -> Result<Vec<u64>, NoMemory>
    requires { length system.now.needs ≤ 26 }
    ensures count { IfOk result (λ masks. length masks.items ≡ system.now.columns) }
    ensures masks { IfOk result (λ masks. (j : ℕ) → j < system.now.columns → slice_index masks.items j ≡ mask_of system.now j) }
{
    let mut masks = Vec::new(alloc);
    for column in 0..system.columns as usize {
        masks.push(mask_at(system, column))?;
    }
    Ok(masks)
}

/// How many values a coordinate has.
fn width_at(system: &System, place: usize) -> u64
    requires formed { IsWellFormed system.now }
    requires place { place < coordinates system.now }
    requires small { cell_count system.now ≤ node_limit }
    ensures { result ≡ radix system.now place }
{
    let needs = system.needs.items().len();
    if place < needs {
        2
    } else {
        row_width(system, place - needs) as u64
    }
}

/// By how much a coordinate is raised.
fn depth_at(system: &System, place: usize) -> u64
    requires formed { IsWellFormed system.now }
    requires place { place < coordinates system.now }
    requires small { cell_count system.now ≤ node_limit }
    ensures { result ≡ depth system.now place }
{
    let needs = system.needs.items().len();
    if place < needs {
        0
    } else {
        row_depth(system, place - needs) as u64
    }
}

/// The widths and depths of all coordinates, and the masks of all columns.
pub(crate) fn space_of(alloc: Global, system: &System) -> Result<Space, NoMemory>
    requires formed { IsWellFormed system.now }
    requires small { node_count system.now ≤ node_limit }
    ensures { IfOk result (IsSpace system.now) }
{
    let mut widths = Vec::new(alloc);
    let mut depths = Vec::new(alloc);
    let mut cells = 1usize;
    let places = system.needs.items().len() + system.rows as usize;
    for place in 0..places {
        let width = width_at(system, place);
        widths.push(width)?;
        depths.push(depth_at(system, place))?;
        cells *= width as usize;
    }
    let masks = masks_of(alloc, system)?;
    Ok(Space {
        widths,
        depths,
        masks,
        flags: flag_count(system),
        cells,
    })
}
