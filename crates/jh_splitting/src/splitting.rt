ghost use Rattle.std.specs.Prelude.{◌≡◌, ◌↔◌, [], List, ℕ, true, IfOk, OnOk, None, slice_get};
ghost use Rattle.jh_name.specs.declared.place.MethodId.{MethodId};
ghost use Rattle.jh_arena.specs.table.Entries.{is_truth, the_truth};
ghost use Rattle.jh_arena.specs.table.Growth.{Extends};
ghost use Rattle.jh_arena.specs.table.Nodes.{nodes};
ghost use Rattle.jh_seq.specs.splitting.Laws.{AllValid, IsTautology};
ghost use Rattle.jh_seq.specs.splitting.Split.{split_of};
ghost use Rattle.jh_seq.specs.sequent.Sequents.{HypTree};
ghost use Rattle.jh_arena.specs.table.Entries.{Listing};
ghost use Rattle.jh_splitting.specs.Pairs.{ArePaired};
ghost use Rattle.jh_splitting.specs.Standing.{AreHyps, AreSequents, IsHyp};
ghost use Rattle.jh_splitting.specs.Numbering.{IsFirst};

use crate::facts::Facts;
use crate::goals::{Goal, split_one};
use crate::lists::Lists;
use crate::sequent::{NodeHyp, NodeSequent};
use jh_arena::table::Table;
use jh_containers::shared_lists::Chains;
use jh_name::{MethodId, NoMemory};
use jh_seq::splitting::split_is_exact;
use std::alloc::Global;

/// The sequents of a formula of a method. Hypotheses that come from one assumption are shared.
#[derive(Drop)]
pub struct Sequents {
    pub method: MethodId,
    pub hyps: Chains<NodeHyp>,
    pub sequents: Vec<NodeSequent>,
}

impl Sequents {
    /// The hypotheses of a list, the first one first.
    pub fn hyps(&self, alloc: Global, list: Option<usize>) -> Result<Vec<NodeHyp>, NoMemory>
        ensures { (t : Listing) (hs : List HypTree) → AreHyps t self.now.hyps list hs → IfOk result (λ made. ArePaired (IsHyp t) made.items hs) }
    {
        let mut hyps = self.hyps.items(alloc, list)?;
        hyps.reverse();
        Ok(hyps)
    }
}

/// The turn of the first constant of the sequents of a formula.
fn first_turn(table: &Table, node: usize) -> Result<u32, NoMemory>
    requires there { is_truth (slice_get (nodes table.now) node) ≡ true }
    ensures { IfOk result (λ first. IsFirst (the_truth (slice_get (nodes table.now) node)) first) }
{
    let first = table.next_turn(node).max(1);
    match u32::try_from(first) {
        Ok(first) => Ok(first),
        Err(_) => Err(NoMemory),
    }
}

/// The sequents of a formula, in the order of the definition; their constants are free in the formula, and all of them
/// are valid exactly where the formula is. What the table
/// held stays in its place, after any answer. The time is in proportion to the goals and facts that are met on the way
/// to all sequents, each counted where it stands. The answer is want of memory where a turn leaves u32, and where what
/// is put at a binder's place goes deeper than a walk over the table does.
pub fn split_in(table: &mut Table, method: MethodId, node: usize) -> Result<Sequents, NoMemory>
    requires there { is_truth (slice_get (nodes table.old) node) ≡ true }
    ensures sequents { IfOk result (λ made. (k : ℕ) × IsFirst (the_truth (slice_get (nodes table.old) node)) k × AreSequents table.new made.hyps made.method made.sequents.items (split_of method (the_truth (slice_get (nodes table.old) node)) k)) }
    ensures exact { (k : ℕ) → IsFirst (the_truth (slice_get (nodes table.old) node)) k → AllValid (split_of method (the_truth (slice_get (nodes table.old) node)) k) ↔ IsTautology (the_truth (slice_get (nodes table.old) node)) }
    ensures of_method { IfOk result (λ made. made.method ≡ method) }
    ensures grows { Extends table.old table.new }
{
    split_is_exact();
    let next = first_turn(table, node)?;
    let mut lists = Lists::new(table.alloc());
    let mut made = Vec::new(table.alloc());
    split_all(table, &mut lists, &mut made, node, next)?;
    let Lists { hyps, binders: _ } = lists;
    Ok(Sequents {
        method,
        hyps,
        sequents: made,
    })
}

/// The same into lists and sequents of which there are none yet.
fn split_all(
    table: &mut Table,
    lists: &mut Lists,
    made: &mut Vec<NodeSequent>,
    node: usize,
    next: u32,
) -> Result<(), NoMemory>
    requires there { is_truth (slice_get (nodes table.old) node) ≡ true }
    requires none { made.old.items ≡ [] }
    ensures sequents { OnOk result ((method : MethodId) → AreSequents table.new lists.new.hyps method made.new.items (split_of method (the_truth (slice_get (nodes table.old) node)) next)) }
    ensures grows { Extends table.old table.new }
{
    let mut waiting = Vec::new(table.alloc());
    waiting.push(Goal {
        node,
        mark: None,
        binders: None,
        facts: Facts { hyps: None, next },
    })?;
    for _turn in 0..u64::MAX {
        match waiting.pop() {
            None => return Ok(()),
            Some(goal) => split_one(table, lists, &mut waiting, made, goal)?,
        }
    }
    Err(NoMemory)
}
