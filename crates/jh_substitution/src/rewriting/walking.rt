ghost use Rattle.std.specs.Prelude.{◌≡◌, ◌+◌, ◌<◌, ◌≤◌, true, false, Some, None, IfOk, OnOk, length, slice_get};
ghost use Rattle.jh_boxed.specs.Sizes.{value_depth};
ghost use Rattle.jh_arena.specs.table.Entries.{the_value};
ghost use Rattle.jh_arena.specs.table.Growth.{Extends};
ghost use Rattle.jh_arena.specs.table.Nodes.{nodes, tree_in, fits_in};
ghost use Rattle.jh_arena.specs.table.Parts.{parts, binders, ArePartsBelow};
ghost use Rattle.jh_substitution.specs.rewriting.Walks.{IsRewritten, AllRewritten, Holds, KeepsMeaning};
ghost use Rattle.jh_substitution.specs.rewriting.Leaf.{is_leaf};
ghost use Rattle.jh_substitution.specs.rewriting.Memos.{found};
ghost use Rattle.jh_substitution.specs.rewriting.Rewritten.{rewritten_value};

use crate::rewriting::leaves::is_leaf;
use crate::rewriting::memo::{Key, Memo};
use crate::rewriting::rules::LeafRules;
use jh_arena::table::{Shape, Table};
use jh_name::NoMemory;

/// The number of binders passed below a shape.
fn below(depth: u32, shape: Shape) -> Result<u32, NoMemory>
    ensures { IfOk result (λ below. below ≡ depth + binders shape) }
{
    match depth.checked_add(shape.binders()) {
        Some(below) => Ok(below),
        None => Err(NoMemory),
    }
}

/// The answer for a node: a leaf's rule, what stands for the whole of it, or else the answer for its
/// parts. Only these are noted, so that what is left alone takes no room.
#[cycle(rewritten)]
fn rewritten<R: LeafRules>(
    table: &mut Table,
    rules: &R,
    memo: &mut Memo,
    node: usize,
    depth: u32,
) -> Result<usize, NoMemory>
    requires inside { node < length (nodes table.old) }
    requires memo { Holds (R.ready rules.now) (R.rewriting rules.now) table.old (found memo.old.answers) }
    ensures node { IfOk result (λ made. IsRewritten (R.rewriting rules.now table.new) (nodes table.new) node depth made) }
    ensures grows { Extends table.old table.new }
    ensures memo { OnOk result (Holds (R.ready rules.now) (R.rewriting rules.now) table.new (found memo.new.answers)) }
{
    let shape = table.shape(node);
    if is_leaf(shape) {
        return rules.leaf(table, node, shape, depth);
    }
    match rules.whole(table, node, shape, depth)? {
        Some(whole) => Ok(whole),
        None => rewritten_inner(table, rules, memo, node, shape, depth),
    }
}

/// The answer for a node, for which nothing stands as a whole: the one that was noted, or else the one
/// from its parts.
#[cycle(rewritten)]
fn rewritten_inner<R: LeafRules>(
    table: &mut Table,
    rules: &R,
    memo: &mut Memo,
    node: usize,
    shape: Shape,
    depth: u32,
) -> Result<usize, NoMemory>
    requires there { slice_get (nodes table.old) node ≡ Some (tree_in table.old shape) }
    requires fits { fits_in table.old shape ≡ true }
    requires below { ArePartsBelow node table.old.pools.lists shape }
    requires inner { is_leaf shape ≡ false }
    requires alone { (R.rewriting rules.now table.old).whole_at (tree_in table.old shape) depth ≡ None }
    requires memo { Holds (R.ready rules.now) (R.rewriting rules.now) table.old (found memo.old.answers) }
    ensures node { IfOk result (λ made. IsRewritten (R.rewriting rules.now table.new) (nodes table.new) node depth made) }
    ensures grows { Extends table.old table.new }
    ensures memo { OnOk result (Holds (R.ready rules.now) (R.rewriting rules.now) table.new (found memo.new.answers)) }
{
    let key = Key { node, depth };
    match memo.known(key) {
        Some(answer) => Ok(answer),
        None => {
            let answer = rewritten_parts(table, rules, memo, node, shape, depth)?;
            memo.note(key, answer)?;
            Ok(answer)
        }
    }
}

/// The shape of a node, for which nothing stands as a whole, with the answers for its parts.
#[cycle(rewritten)]
fn rewritten_parts<R: LeafRules>(
    table: &mut Table,
    rules: &R,
    memo: &mut Memo,
    node: usize,
    shape: Shape,
    depth: u32,
) -> Result<usize, NoMemory>
    requires there { slice_get (nodes table.old) node ≡ Some (tree_in table.old shape) }
    requires fits { fits_in table.old shape ≡ true }
    requires below { ArePartsBelow node table.old.pools.lists shape }
    requires inner { is_leaf shape ≡ false }
    requires alone { (R.rewriting rules.now table.old).whole_at (tree_in table.old shape) depth ≡ None }
    requires memo { Holds (R.ready rules.now) (R.rewriting rules.now) table.old (found memo.old.answers) }
    ensures node { IfOk result (λ made. IsRewritten (R.rewriting rules.now table.new) (nodes table.new) node depth made) }
    ensures grows { Extends table.old table.new }
    ensures memo { OnOk result (Holds (R.ready rules.now) (R.rewriting rules.now) table.new (found memo.new.answers)) }
{
    let below = below(depth, shape)?;
    let mut answers = Vec::new(table.alloc());
    for index in 0..table.count(shape) {
        let part = table.part(shape, index);
        let answer = rewritten(table, rules, memo, part, below)?;
        answers.push(answer)?;
    }
    let made = table.with_parts(shape, answers.as_slice())?;
    table.make(made)
}

/// The node of the tree of a node in which each leaf, and each whole part that has one, is exchanged for
/// what stands for it by the rules, where `depth` binders count as passed. What the table held stays in
/// its place, after any answer. The time is in proportion to the parts that are met, each counted once for
/// each depth at which it is. The answer is want of memory where a depth leaves u32, and where the tree
/// nests deeper than MOST_LEVELS; no part of it is looked at then.
pub fn walked<R: LeafRules>(
    table: &mut Table,
    rules: &R,
    node: usize,
    depth: u32,
) -> Result<usize, NoMemory>
    requires inside { node < length (nodes table.old) }
    requires ready { R.ready rules.now table.old }
    ensures tree { IfOk result (λ made. slice_get (nodes table.new) made ≡ Some (rewritten_value (the_value (slice_get (nodes table.old) node)) (R.rewriting rules.now table.old) depth)) }
    ensures meaning { IfOk result (λ made. KeepsMeaning (R.rewriting rules.now table.old) depth (slice_get (nodes table.old) node) (slice_get (nodes table.new) made)) }
    ensures shallow { IfOk result (λ made. value_depth (the_value (slice_get (nodes table.old) node)) ≤ 10001) }
    ensures grows { Extends table.old table.new }
{
    if !table.is_shallow(node) {
        return Err(NoMemory);
    }
    let mut memo = Memo::new(table.alloc());
    rewritten(table, rules, &mut memo, node, depth)
}
