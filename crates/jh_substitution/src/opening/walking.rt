#![tactic(auto, using(jh_arena::proofs::table::Listed::growth_steps))]

ghost use Rattle.std.specs.Prelude.{◌≡◌, ◌+◌, ◌<◌, ℕ, true, false, Some, IfOk, length, slice_get};
ghost use Rattle.jh_arena.specs.table.Entries.{is_object};
ghost use Rattle.jh_arena.specs.table.Growth.{Extends};
ghost use Rattle.jh_arena.specs.table.Nodes.{nodes};
ghost use Rattle.jh_arena.specs.table.Parts.{parts, binders};
ghost use Rattle.jh_substitution.specs.opening.Openings.{AreOpened, IsInner, IsOpened};

use crate::opening::leaves::{is_leaf, leaf};
use jh_arena::table::{Shape, Table};
use jh_name::NoMemory;

/// The number of binders passed below a shape.
fn below(depth: u32, shape: Shape) -> Result<u32, NoMemory>
    ensures { IfOk result (λ below. below ≡ depth + binders shape) }
{
    match depth.checked_add(shape.binders()) {
        Some(below) => Ok(below),
        None => Err(NoMemory),
    }
}

/// The node of a shape over the answers for its parts.
fn remade(
    table: &mut Table,
    with: usize,
    node: usize,
    shape: Shape,
    depth: u32,
    answers: &[usize],
) -> Result<usize, NoMemory>
    requires inner { IsInner table.old node shape }
    requires with { is_object (slice_get (nodes table.old) with) ≡ true }
    requires answers { AreOpened table.old with (depth + binders shape) (parts table.old.pools.lists shape) answers.now }
    ensures node { IfOk result (λ made. IsOpened table.new with node depth made) }
    ensures grows { Extends table.old table.new }
{
    let made = table.with_parts(shape, answers)?;
    table.make(made)
}

/// The node of the tree of a node with the term in it. A part without a loose variable stays.
#[cycle(put)]
pub(crate) fn put(
    table: &mut Table,
    with: usize,
    node: usize,
    depth: u32,
) -> Result<usize, NoMemory>
    requires inside { node < length (nodes table.old) }
    requires with { is_object (slice_get (nodes table.old) with) ≡ true }
    ensures node { IfOk result (λ made. IsOpened table.new with node depth made) }
    ensures grows { Extends table.old table.new }
{
    let shape = table.shape(node);
    if table.loose(node) <= depth as u64 {
        return Ok(node);
    }
    if is_leaf(shape) {
        return leaf(table, with, node, shape, depth);
    }
    put_inner(table, with, node, shape, depth)
}

/// The same of a node that has parts.
#[cycle(put)]
fn put_inner(
    table: &mut Table,
    with: usize,
    node: usize,
    shape: Shape,
    depth: u32,
) -> Result<usize, NoMemory>
    requires inner { IsInner table.old node shape }
    requires with { is_object (slice_get (nodes table.old) with) ≡ true }
    ensures node { IfOk result (λ made. IsOpened table.new with node depth made) }
    ensures grows { Extends table.old table.new }
{
    let below = below(depth, shape)?;
    let count = table.count(shape);
    if count == 1 {
        put_single(table, with, node, shape, depth, below)
    } else if count == 2 {
        put_both(table, with, node, shape, depth, below)
    } else {
        put_each(table, with, node, shape, depth, below)
    }
}

/// The answer for a part of a node.
#[cycle(put)]
fn put_part(
    table: &mut Table,
    with: usize,
    node: usize,
    shape: Shape,
    below: u32,
    index: usize,
) -> Result<usize, NoMemory>
    requires inner { IsInner table.old node shape }
    requires with { is_object (slice_get (nodes table.old) with) ≡ true }
    requires within { index < length (parts table.old.pools.lists shape) }
    ensures part { IfOk result (λ made. (p : ℕ) → slice_get (parts table.old.pools.lists shape) index ≡ Some p → IsOpened table.new with p below made) }
    ensures grows { Extends table.old table.new }
{
    let part = table.part(shape, index);
    put(table, with, part, below)
}

/// The node over the answer for the only part of a node.
#[cycle(put)]
fn put_single(
    table: &mut Table,
    with: usize,
    node: usize,
    shape: Shape,
    depth: u32,
    below: u32,
) -> Result<usize, NoMemory>
    requires inner { IsInner table.old node shape }
    requires with { is_object (slice_get (nodes table.old) with) ≡ true }
    requires below { below ≡ depth + binders shape }
    requires one { length (parts table.old.pools.lists shape) ≡ 1 }
    ensures node { IfOk result (λ made. IsOpened table.new with node depth made) }
    ensures grows { Extends table.old table.new }
{
    let part = put_part(table, with, node, shape, below, 0)?;
    remade(table, with, node, shape, depth, &[part])
}

/// The node over the answers for the two parts of a node.
#[cycle(put)]
fn put_both(
    table: &mut Table,
    with: usize,
    node: usize,
    shape: Shape,
    depth: u32,
    below: u32,
) -> Result<usize, NoMemory>
    requires inner { IsInner table.old node shape }
    requires with { is_object (slice_get (nodes table.old) with) ≡ true }
    requires below { below ≡ depth + binders shape }
    requires two { length (parts table.old.pools.lists shape) ≡ 2 }
    ensures node { IfOk result (λ made. IsOpened table.new with node depth made) }
    ensures grows { Extends table.old table.new }
{
    let left = put_part(table, with, node, shape, below, 0)?;
    let right = put_part(table, with, node, shape, below, 1)?;
    remade(table, with, node, shape, depth, &[left, right])
}

/// The node over the answers for all parts of a node.
#[cycle(put)]
fn put_each(
    table: &mut Table,
    with: usize,
    node: usize,
    shape: Shape,
    depth: u32,
    below: u32,
) -> Result<usize, NoMemory>
    requires inner { IsInner table.old node shape }
    requires with { is_object (slice_get (nodes table.old) with) ≡ true }
    requires below { below ≡ depth + binders shape }
    ensures node { IfOk result (λ made. IsOpened table.new with node depth made) }
    ensures grows { Extends table.old table.new }
{
    let mut answers = Vec::new(table.alloc());
    for index in 0..table.count(shape) {
        let answer = put_part(table, with, node, shape, below, index)?;
        answers.push(answer)?;
    }
    remade(table, with, node, shape, depth, answers.as_slice())
}
