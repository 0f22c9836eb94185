ghost use Rattle.std.specs.Prelude.{◌≡◌, ◌<◌, ◌≤◌, true, ℕ, Some, IfOk, OnOk, length, slice_get};
ghost use Rattle.jh_arena.specs.jh_boxed.Sizes.{value_depth};
ghost use Rattle.jh_arena.specs.table.Entries.{the_value};
ghost use Rattle.jh_arena.specs.table.Growth.{Extends};
ghost use Rattle.jh_arena.specs.table.Nodes.{nodes, tree_in, fits_in};
ghost use Rattle.jh_arena.specs.table.Parts.{ArePartsBelow};
ghost use Rattle.jh_import.specs.carrying.Carried.{IsCarried, HoldsCarried};
ghost use Rattle.jh_import.specs.carrying.Memos.{found};

use crate::carrying::memo::Memo;
use crate::carrying::placing::placed;
use jh_arena::table::{Shape, Table};
use jh_name::NoMemory;

/// The answer for a node that was met before, or else that of its shape, which is noted.
#[cycle(carried)]
fn carried(from: &Table, into: &mut Table, memo: &mut Memo, node: usize) -> Result<usize, NoMemory>
    requires inside { node < length (nodes from.now) }
    requires memo { HoldsCarried (nodes from.now) (nodes into.old) (found memo.old.answers) }
    ensures node { IfOk result (λ made. IsCarried (nodes from.now) (nodes into.new) node made) }
    ensures grows { Extends into.old into.new }
    ensures memo { OnOk result (HoldsCarried (nodes from.now) (nodes into.new) (found memo.new.answers)) }
{
    match memo.known(node) {
        Some(answer) => Ok(answer),
        None => {
            let shape = from.shape(node);
            let answer = carried_parts(from, into, memo, node, shape)?;
            memo.note(node, answer)?;
            Ok(answer)
        }
    }
}

/// The shape of a node over the answers for its parts.
#[cycle(carried)]
fn carried_parts(
    from: &Table,
    into: &mut Table,
    memo: &mut Memo,
    node: usize,
    shape: Shape,
) -> Result<usize, NoMemory>
    requires there { slice_get (nodes from.now) node ≡ Some (tree_in from.now shape) }
    requires fits { fits_in from.now shape ≡ true }
    requires below { ArePartsBelow node from.now.pools.lists shape }
    requires memo { HoldsCarried (nodes from.now) (nodes into.old) (found memo.old.answers) }
    ensures node { IfOk result (λ made. IsCarried (nodes from.now) (nodes into.new) node made) }
    ensures grows { Extends into.old into.new }
    ensures memo { OnOk result (HoldsCarried (nodes from.now) (nodes into.new) (found memo.new.answers)) }
{
    let mut answers = Vec::new(into.alloc());
    for index in 0..from.count(shape) {
        let part = from.part(shape, index);
        let answer = carried(from, into, memo, part)?;
        answers.push(answer)?;
    }
    let made = placed(from, into, shape, answers.as_slice())?;
    into.make(made)
}

/// The node of one table that is the tree of a node of another. What the table held stays in its place, after any
/// answer. The time is in proportion to the parts, each counted once, however often it stands in the tree. The answer
/// is want of memory where the tree nests deeper than MOST_LEVELS; no part of it is looked at then.
pub fn carry(from: &Table, into: &mut Table, node: usize) -> Result<usize, NoMemory>
    requires inside { node < length (nodes from.now) }
    ensures tree { IfOk result (λ made. slice_get (nodes into.new) made ≡ slice_get (nodes from.now) node) }
    ensures shallow { IfOk result (λ made. value_depth (the_value (slice_get (nodes from.now) node)) ≤ 10001) }
    ensures grows { Extends into.old into.new }
{
    if !from.is_shallow(node) {
        return Err(NoMemory);
    }
    let mut memo = Memo::new(into.alloc());
    carried(from, into, &mut memo, node)
}

/// The answer for a node, where answers for others may be known.
fn carry_next(
    from: &Table,
    into: &mut Table,
    memo: &mut Memo,
    node: usize,
) -> Result<usize, NoMemory>
    requires inside { node < length (nodes from.now) }
    requires memo { HoldsCarried (nodes from.now) (nodes into.old) (found memo.old.answers) }
    ensures node { IfOk result (λ made. IsCarried (nodes from.now) (nodes into.new) node made) }
    ensures grows { Extends into.old into.new }
    ensures memo { OnOk result (HoldsCarried (nodes from.now) (nodes into.new) (found memo.new.answers)) }
{
    if !from.is_shallow(node) {
        return Err(NoMemory);
    }
    carried(from, into, memo, node)
}

/// The number at a place of a list.
fn node_at(list: &[usize], place: usize) -> usize
    requires { place < length list.now }
    ensures { slice_get list.now place ≡ Some result }
{
    list[place]
}

/// The nodes of one table that are the trees of nodes of another, in their order. What the table held stays in its place, after any
/// answer. The time is in proportion to the parts of all, each counted once, however often it stands in the trees. The answer is want
/// of memory where a tree nests deeper than MOST_LEVELS.
pub fn carry_all(from: &Table, into: &mut Table, list: &[usize]) -> Result<Vec<usize>, NoMemory>
    requires inside { (place node : ℕ) → slice_get list.now place ≡ Some node → node < length (nodes from.now) }
    ensures long { IfOk result (λ made. length made.items ≡ length list.now) }
    ensures each { IfOk result (λ made. (place node answer : ℕ) → slice_get list.now place ≡ Some node → slice_get made.items place ≡ Some answer → slice_get (nodes into.new) answer ≡ slice_get (nodes from.now) node) }
    ensures grows { Extends into.old into.new }
{
    let mut memo = Memo::new(into.alloc());
    let mut answers = Vec::new(into.alloc());
    for place in 0..list.len() {
        let answer = carry_next(from, into, &mut memo, node_at(list, place))?;
        answers.push(answer)?;
    }
    Ok(answers)
}
