ghost use Rattle.std.specs.Prelude.{◌≤◌, ◌+◌, ◌*◌, ℕ, IfOk, IfSome, IfNone};
ghost use Rattle.jh_digits.specs.systems.Solution.{IsWellFormed, IsSolution, HasColumns, spelled};
ghost use Rattle.jh_digits.specs.systems.Nodes.{node_count, node_limit};
ghost use Rattle.jh_digits.specs.solver.Cells.{IsSpace};
ghost use Rattle.jh_digits.specs.solver.Table.{IsTable};
ghost use Rattle.jh_digits.specs.systems.Answers.{IfSolution, IfNoSolution, IfTooLarge};

use crate::solver::System;
use crate::solver::counting::nodes;
use crate::solver::exploring::is_end_reached;
use crate::solver::following::Node;
use crate::solver::marking::start_cell;
use crate::solver::refusing::is_refused;
use crate::solver::space::Space;
use crate::solver::tables::space_of;
use crate::solver::tracing::trace;
use crate::systems::{Digits, Solved, told};
use jh_name::NoMemory;
use std::alloc::Global;
use std::collections::VecDeque;

/// The most nodes that `solve` looks through.
const NODE_LIMIT: u128 = 67_108_864;

/// The table in which the start is reached.
fn first_table(alloc: Global, system: &System, space: &Space) -> Result<Vec<u8>, NoMemory>
    requires formed { IsWellFormed system.now }
    requires space { IsSpace system.now space.now }
    ensures { IfOk result (λ table. IsTable system.now table.items) }
{
    let count = (system.columns as usize + 1) * space.cells;
    let mut table = vec![in alloc; 0u8; count]?;
    table[start_cell(system, space)] = 1;
    Ok(table)
}

/// Digits that solve a system of at most the limit's nodes, or none where there are none.
fn search(alloc: Global, system: &System) -> Result<Option<Digits>, NoMemory>
    requires formed { IsWellFormed system.now }
    requires small { node_count system.now ≤ node_limit }
    ensures columns { IfOk result (λ found. IfSome found (λ digits. HasColumns system.now.columns digits.layers)) }
    ensures solution { IfOk result (λ found. IfSome found (λ digits. IsSolution system.now (spelled digits.layers))) }
    ensures none { IfOk result (λ found. IfNone found ((v : ℕ → ℕ) → ¬ IsSolution system.now v)) }
{
    let space = space_of(alloc, system)?;
    let mut table = first_table(alloc, system, &space)?;
    let mut queue = VecDeque::new(alloc);
    let start = Node {
        column: 0,
        cell: start_cell(system, &space),
    };
    queue.push_back(start)?;
    if is_end_reached(system, &space, &mut table, &mut queue) {
        Ok(Some(trace(alloc, system, &space, &table)?))
    } else {
        Ok(None)
    }
}

/// Solves a system of at most 67,108,864 nodes by a search through its nodes: digits that `holds`
/// accepts, or `NoSolution` exactly where no natural numbers solve it. `TooLarge` comes exactly
/// where there are more nodes, with the answer of `nodes`.
pub fn solve(alloc: Global, system: &System) -> Solved
    requires { IsWellFormed system.now }
    ensures solution { IfSolution system.now result }
    ensures no_solution { IfNoSolution system.now result }
    ensures too_large { IfTooLarge system.now result }
{
    let count = nodes(system);
    if count > NODE_LIMIT {
        return Solved::TooLarge(count);
    }
    if is_refused(system) {
        return Solved::NoSolution;
    }
    told(system, search(alloc, system))
}
