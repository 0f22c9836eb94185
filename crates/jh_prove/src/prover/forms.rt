ghost use Rattle.std.specs.Prelude.{IfOk};
ghost use Rattle.jh_local.specs.jh_local_form.local_sequents.Forming.{IsFormed};
ghost use Rattle.jh_seq.specs.sequent.Sequents.{SequentTree};
ghost use Rattle.jh_splitting.specs.Standing.{IsSequent};
ghost use Rattle.jh_arena.specs.table.Growth.{Extends};
ghost use Rattle.jh_arena.specs.table.Nodes.{nodes};
ghost use Rattle.jh_prove.specs.prover.Memos.{found};
ghost use Rattle.jh_prove.specs.prover.Right.{local_form};
ghost use Rattle.jh_prove.specs.prover.Unlabelled.{HoldsUnlabelled, IsUnlabelled};

use crate::prover::memo::Memo;
use crate::prover::unlabelling::{facts_without_labels, without_labels};
use jh_arena::table::Table;
use jh_local::jh_local_form::local_sequents::{LocalForm, local_of};
use jh_name::NoMemory;
use jh_splitting::{NodeSequent, Sequents};
use std::alloc::Global;

/// The local form of a sequent, over the node of its goal without labels.
fn form_for_goal(
    alloc: Global,
    table: &mut Table,
    memo: &mut Memo,
    sequents: &Sequents,
    sequent: NodeSequent,
    goal: usize,
) -> Result<LocalForm, NoMemory>
    requires sequent { (s : SequentTree) × IsSequent table.old sequents.now.hyps sequents.now.method sequent s }
    requires memo { HoldsUnlabelled (nodes table.old) (found memo.old.answers) }
    requires goal { IsUnlabelled (nodes table.old) sequent.goal goal }
    ensures form { IfOk result (λ made. (s : SequentTree) → IsSequent table.old sequents.now.hyps sequents.now.method sequent s → IsFormed table.new made (local_form s)) }
    ensures grows { Extends table.old table.new }
{
    let hyps = sequents.hyps(alloc, sequent.hyps)?;
    let facts = facts_without_labels(table, memo, hyps.as_slice())?;
    local_of(table, hyps.as_slice(), sequent.mark, facts.as_slice(), goal)
}

/// The local form of a sequent, whether the sequent is evident or not: what the ground search goes over. What the table held stays in
/// its place, after any answer. The answer is want of memory where a formula nests deeper than MOST_LEVELS, and where a turn of a
/// name or a number of a bound variable leaves u32.
pub fn local_form_of_sequent(
    alloc: Global,
    table: &mut Table,
    sequents: &Sequents,
    sequent: NodeSequent,
) -> Result<LocalForm, NoMemory>
    requires { (s : SequentTree) × IsSequent table.old sequents.now.hyps sequents.now.method sequent s }
    ensures form { IfOk result (λ made. (s : SequentTree) → IsSequent table.old sequents.now.hyps sequents.now.method sequent s → IsFormed table.new made (local_form s)) }
    ensures grows { Extends table.old table.new }
{
    let mut memo = Memo::new(alloc);
    let goal = without_labels(table, &mut memo, sequent.goal)?;
    form_for_goal(alloc, table, &mut memo, sequents, sequent, goal)
}
