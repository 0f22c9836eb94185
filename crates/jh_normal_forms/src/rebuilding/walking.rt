ghost use Rattle.std.specs.Prelude.{◌≡◌, ◌<◌, ◌≤◌, true, Some, IfOk, OnOk, length, slice_get};
ghost use Rattle.jh_boxed.specs.Sizes.{value_depth};
ghost use Rattle.jh_arena.specs.table.Entries.{the_value};
ghost use Rattle.jh_arena.specs.table.Growth.{Extends};
ghost use Rattle.jh_arena.specs.table.Nodes.{nodes, tree_in, fits_in};
ghost use Rattle.jh_arena.specs.table.Parts.{ArePartsBelow};
ghost use Rattle.jh_normal_forms.specs.rebuilding.Walking.{IsBuilt, HoldsBuilt, built_at};
ghost use Rattle.jh_normal_forms.specs.rebuilding.Memos.{found};
ghost use Rattle.jh_normal_forms.specs.rebuilding.Sound.{MayStand};

use crate::rebuilding::Polarity;
use crate::rebuilding::memo::{Key, Memo};
use crate::rebuilding::rules::BuildRules;
use crate::rebuilding::sign::sign;
use jh_arena::table::{Shape, Table};
use jh_name::NoMemory;

/// The answer for a node that was met before at such a place, or else that of its shape, which is noted.
#[cycle(built)]
fn built<B: BuildRules>(
    table: &mut Table,
    rules: &B,
    memo: &mut Memo,
    node: usize,
    polarity: Polarity,
) -> Result<usize, NoMemory>
    requires inside { node < length (nodes table.old) }
    requires memo { HoldsBuilt (B.rule rules.now) (nodes table.old) (found memo.old.answers) }
    ensures node { IfOk result (λ made. IsBuilt (B.rule rules.now) (nodes table.new) node polarity made) }
    ensures grows { Extends table.old table.new }
    ensures memo { OnOk result (HoldsBuilt (B.rule rules.now) (nodes table.new) (found memo.new.answers)) }
{
    let key = Key { node, polarity };
    match memo.known(key) {
        Some(answer) => Ok(answer),
        None => {
            let shape = table.shape(node);
            let answer = built_parts(table, rules, memo, node, shape, polarity)?;
            memo.note(key, answer)?;
            Ok(answer)
        }
    }
}

/// What the rule makes of a shape over the answers for its parts.
#[cycle(built)]
fn built_parts<B: BuildRules>(
    table: &mut Table,
    rules: &B,
    memo: &mut Memo,
    node: usize,
    shape: Shape,
    polarity: Polarity,
) -> Result<usize, NoMemory>
    requires there { slice_get (nodes table.old) node ≡ Some (tree_in table.old shape) }
    requires fits { fits_in table.old shape ≡ true }
    requires below { ArePartsBelow node table.old.pools.lists shape }
    requires memo { HoldsBuilt (B.rule rules.now) (nodes table.old) (found memo.old.answers) }
    ensures node { IfOk result (λ made. IsBuilt (B.rule rules.now) (nodes table.new) node polarity made) }
    ensures grows { Extends table.old table.new }
    ensures memo { OnOk result (HoldsBuilt (B.rule rules.now) (nodes table.new) (found memo.new.answers)) }
{
    let mut answers = Vec::new(table.alloc());
    for index in 0..table.count(shape) {
        let part = table.part(shape, index);
        let stands = sign(shape, polarity, index);
        let answer = built(table, rules, memo, part, stands)?;
        answers.push(answer)?;
    }
    let made = table.with_parts(shape, answers.as_slice())?;
    rules.made(table, made, polarity)
}

/// The node of the tree of a node made anew from below by the rules, where the whole stands so. What the
/// table held stays in its place, after any answer. Where the rules are sound, a formula that stands
/// positive is answered by one that implies it, a negative one by one that it implies, and one that stands
/// both ways by one of the same meaning. The time is in proportion to the parts, each counted once for
/// each polarity at which it is met. The answer is want of memory where the tree nests deeper than
/// MOST_LEVELS; no part of it is looked at then.
pub fn rebuild<B: BuildRules>(
    table: &mut Table,
    rules: &B,
    node: usize,
    polarity: Polarity,
) -> Result<usize, NoMemory>
    requires inside { node < length (nodes table.old) }
    ensures tree { IfOk result (λ made. slice_get (nodes table.new) made ≡ Some (built_at (the_value (slice_get (nodes table.old) node)) (B.rule rules.now) polarity)) }
    ensures meaning { IfOk result (λ made. MayStand (B.rule rules.now) polarity (slice_get (nodes table.old) node) (slice_get (nodes table.new) made)) }
    ensures shallow { IfOk result (λ made. value_depth (the_value (slice_get (nodes table.old) node)) ≤ 10001) }
    ensures grows { Extends table.old table.new }
{
    if !table.is_shallow(node) {
        return Err(NoMemory);
    }
    let mut memo = Memo::new(table.alloc());
    built(table, rules, &mut memo, node, polarity)
}
