ghost use Rattle.std.specs.Prelude.{◌≡◌, IfOk};
ghost use Rattle.jh_approx.specs.definition.Regions.{bapa_of};
ghost use Rattle.jh_query.specs.queries.Bare.{query_tree};
ghost use Rattle.jh_seq.specs.sequent.Sequents.{SequentTree};
ghost use Rattle.jh_splitting.specs.Standing.{IsSequent};
ghost use Rattle.jh_arena.specs.table.Growth.{Extends};
ghost use Rattle.jh_arena.specs.table.Nodes.{nodes};
ghost use Rattle.jh_prove.specs.prover.Memos.{found};
ghost use Rattle.jh_prove.specs.prover.Unlabelled.{HoldsUnlabelled, IsUnlabelled};

use crate::prover::memo::Memo;
use crate::prover::regions::{Asked, query_of};
use crate::prover::unlabelling::{facts_without_labels, without_labels};
use jh_arena::table::Table;
use jh_local::jh_query_names::mentioned_names::Memo as Seen;
use jh_name::NoMemory;
use jh_query::queries::Query;
use jh_splitting::{NodeSequent, Sequents};
use std::alloc::Global;

/// The query of a sequent, over the node of its goal without labels.
fn query_for_goal(
    alloc: Global,
    table: &mut Table,
    memo: &mut Memo,
    sequents: &Sequents,
    sequent: NodeSequent,
    goal: usize,
) -> Result<Query, NoMemory>
    requires sequent { (s : SequentTree) × IsSequent table.old sequents.now.hyps sequents.now.method sequent s }
    requires memo { HoldsUnlabelled (nodes table.old) (found memo.old.answers) }
    requires goal { IsUnlabelled (nodes table.old) sequent.goal goal }
    ensures query { IfOk result (λ made. (s : SequentTree) → IsSequent table.old sequents.now.hyps sequents.now.method sequent s → query_tree made ≡ bapa_of s) }
    ensures grows { Extends table.old table.new }
{
    let hyps = sequents.hyps(alloc, sequent.hyps)?;
    let facts = facts_without_labels(table, memo, hyps.as_slice())?;
    let asked = Asked {
        hyps: hyps.as_slice(),
        label: sequent.mark,
        facts: facts.as_slice(),
        goal,
    };
    let mut seen = Seen::new(alloc);
    query_of(alloc, table, &mut seen, asked)
}

/// The query of a sequent, whether it is evident or not. What the table held stays in its place, after any answer. The answer is
/// want of memory where a formula nests deeper than MOST_LEVELS, and where the query has more than 1,048,576 parts. What one call
/// finds of a hypothesis no other call knows: for all sequents of a method call `answers`.
pub fn query_of_sequent(
    alloc: Global,
    table: &mut Table,
    sequents: &Sequents,
    sequent: NodeSequent,
) -> Result<Query, NoMemory>
    requires { (s : SequentTree) × IsSequent table.old sequents.now.hyps sequents.now.method sequent s }
    ensures query { IfOk result (λ made. (s : SequentTree) → IsSequent table.old sequents.now.hyps sequents.now.method sequent s → query_tree made ≡ bapa_of s) }
    ensures grows { Extends table.old table.new }
{
    let mut memo = Memo::new(alloc);
    let goal = without_labels(table, &mut memo, sequent.goal)?;
    query_for_goal(alloc, table, &mut memo, sequents, sequent, goal)
}
