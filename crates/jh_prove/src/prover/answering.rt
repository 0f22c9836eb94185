ghost use Rattle.std.specs.Prelude.{◌≡◌, ◌<◌, List, [], length, Some, IfOk, OnOk, slice_get};
ghost use Rattle.jh_arena.specs.table.Growth.{Extends};
ghost use Rattle.jh_arena.specs.table.Nodes.{nodes};
ghost use Rattle.jh_seq.specs.sequent.Sequents.{SequentTree};
ghost use Rattle.jh_splitting.specs.Standing.{IsSequent, AreSequents};
ghost use Rattle.jh_prove.specs.prover.Memos.{found};
ghost use Rattle.jh_prove.specs.prover.Right.{Right, AllRight};
ghost use Rattle.jh_prove.specs.prover.Unlabelled.{IsUnlabelled, HoldsUnlabelled};
ghost use Rattle.jh_approx.specs.definition.Regions.{unlabelled};
ghost use Rattle.jh_local.specs.jh_abstraction.choice_of_hypotheses.Asking.{IsAsked};
ghost use Rattle.jh_local.specs.jh_query_names.mentioned_names.Notes.{IsRight};

use crate::prover::answer::Answer;
use crate::prover::memo::Memo;
use crate::prover::regions::{Asked, by_regions};
use crate::prover::searching::by_search;
use crate::prover::unlabelling::{facts_without_labels, without_labels};
use crate::trivial::{is_evident, is_trivial};
use jh_arena::table::Table;
use jh_bapa::answers::Regional;
use jh_local::Searched;
use jh_local::jh_query_names::mentioned_names::Memo as Seen;
use jh_name::NoMemory;
use jh_name::options::Options;
use jh_splitting::{NodeSequent, Sequents};
use std::alloc::Global;

/// What is said of a sequent over nodes without labels: at sight, or else by regions, or else by the search for a ground model.
fn answer_over(
    alloc: Global,
    table: &mut Table,
    options: Options,
    seen: &mut Seen,
    asked: Asked<'_>,
) -> Result<Answer, NoMemory>
    requires leaves { 0 < options.leaves }
    requires sequent { (s : SequentTree) × IsAsked table.old asked.hyps.now asked.label asked.facts.now asked.goal (unlabelled s) }
    requires seen { IsRight (nodes table.old) seen.old }
    ensures right { IfOk result (λ made. (s : SequentTree) → IsAsked table.old asked.entry.hyps.now asked.entry.label asked.entry.facts.now asked.entry.goal (unlabelled s) → Right options s made) }
    ensures seen { OnOk result (IsRight (nodes table.new) seen.new) }
    ensures grows { Extends table.old table.new }
{
    if is_trivial(table, asked.facts, asked.goal) {
        return Ok(Answer::Trivial);
    }
    match by_regions(alloc, table, seen, asked)? {
        Regional::Proved(query) => Ok(Answer::Bapa(query)),
        Regional::Unproved(bapa) => match by_search(table, options, asked)? {
            Searched::Proved(derivation) => Ok(Answer::Local(derivation)),
            Searched::Unproved(local) => Ok(Answer::Unproved { bapa, local }),
        },
    }
}

/// What is said of a sequent, over the node of its goal without labels.
fn answer_for_goal(
    alloc: Global,
    table: &mut Table,
    options: Options,
    memo: &mut Memo,
    seen: &mut Seen,
    sequents: &Sequents,
    sequent: NodeSequent,
    goal: usize,
) -> Result<Answer, NoMemory>
    requires leaves { 0 < options.leaves }
    requires sequent { (s : SequentTree) × IsSequent table.old sequents.now.hyps sequents.now.method sequent s }
    requires memo { HoldsUnlabelled (nodes table.old) (found memo.old.answers) }
    requires seen { IsRight (nodes table.old) seen.old }
    requires goal { IsUnlabelled (nodes table.old) sequent.goal goal }
    ensures right { IfOk result (λ made. (s : SequentTree) → IsSequent table.old sequents.now.hyps sequents.now.method sequent s → Right options s made) }
    ensures memo { OnOk result (HoldsUnlabelled (nodes table.new) (found memo.new.answers)) }
    ensures seen { OnOk result (IsRight (nodes table.new) seen.new) }
    ensures grows { Extends table.old table.new }
{
    let hyps = sequents.hyps(alloc, sequent.hyps)?;
    let facts = facts_without_labels(table, memo, hyps.as_slice())?;
    let asked = Asked {
        hyps: hyps.as_slice(),
        label: sequent.mark,
        facts: facts.as_slice(),
        goal,
    };
    answer_over(alloc, table, options, seen, asked)
}

/// What is said of a sequent. Its hypotheses are looked at where its goal isn't evident.
fn answer_to(
    alloc: Global,
    table: &mut Table,
    options: Options,
    memo: &mut Memo,
    seen: &mut Seen,
    sequents: &Sequents,
    sequent: NodeSequent,
) -> Result<Answer, NoMemory>
    requires leaves { 0 < options.leaves }
    requires sequent { (s : SequentTree) × IsSequent table.old sequents.now.hyps sequents.now.method sequent s }
    requires memo { HoldsUnlabelled (nodes table.old) (found memo.old.answers) }
    requires seen { IsRight (nodes table.old) seen.old }
    ensures right { IfOk result (λ made. (s : SequentTree) → IsSequent table.old sequents.now.hyps sequents.now.method sequent s → Right options s made) }
    ensures memo { OnOk result (HoldsUnlabelled (nodes table.new) (found memo.new.answers)) }
    ensures seen { OnOk result (IsRight (nodes table.new) seen.new) }
    ensures grows { Extends table.old table.new }
{
    let goal = without_labels(table, memo, sequent.goal)?;
    if is_evident(table, goal) {
        return Ok(Answer::Trivial);
    }
    answer_for_goal(alloc, table, options, memo, seen, sequents, sequent, goal)
}

/// The sequent at a place.
fn sequent_at(sequents: &Sequents, place: usize) -> NodeSequent
    requires { place < length sequents.now.sequents.items }
    ensures { slice_get sequents.now.sequents.items place ≡ Some result }
{
    sequents.sequents[place]
}

/// Adds what is said of each sequent of a method, in their order.
fn add_answers(
    alloc: Global,
    table: &mut Table,
    options: Options,
    memo: &mut Memo,
    seen: &mut Seen,
    sequents: &Sequents,
    made: &mut Vec<Answer>,
) -> Result<(), NoMemory>
    requires leaves { 0 < options.leaves }
    requires sequents { (ss : List SequentTree) × AreSequents table.old sequents.now.hyps sequents.now.method sequents.now.sequents.items ss }
    requires memo { HoldsUnlabelled (nodes table.old) (found memo.old.answers) }
    requires seen { IsRight (nodes table.old) seen.old }
    requires made { made.old.items ≡ [] }
    ensures right { OnOk result ((ss : List SequentTree) → AreSequents table.old sequents.now.hyps sequents.now.method sequents.now.sequents.items ss → AllRight options ss made.new.items) }
    ensures grows { Extends table.old table.new }
{
    for place in 0..sequents.sequents.len() {
        let sequent = sequent_at(sequents, place);
        let answer = answer_to(alloc, table, options, memo, seen, sequents, sequent)?;
        made.push(answer)?;
    }
    Ok(())
}

/// What is said of each sequent of a method, in their order: at sight, or else by regions, or else by the search for a ground model
/// of the instances of its local form. What the table held stays in its place, after any answer. Labels are taken off each node
/// once, and what a query can say of a fact, with its names, is found once, however many sequents it stands in; beside that the
/// time is in proportion to the hypotheses, counted for each sequent whose goal isn't evident, and to what is decided and searched.
/// The answer is want of memory where a formula nests deeper than MOST_LEVELS, where a query has more than 1,048,576 parts, where a
/// fact of a local form has more than MOST_NODES nodes, each counted where it stands, and where a turn of a name leaves u32.
pub fn answers(
    alloc: Global,
    table: &mut Table,
    options: Options,
    sequents: &Sequents,
) -> Result<Vec<Answer>, NoMemory>
    requires leaves { 0 < options.leaves }
    requires sequents { (ss : List SequentTree) × AreSequents table.old sequents.now.hyps sequents.now.method sequents.now.sequents.items ss }
    ensures right { IfOk result (λ made. (ss : List SequentTree) → AreSequents table.old sequents.now.hyps sequents.now.method sequents.now.sequents.items ss → AllRight options ss made.items) }
    ensures grows { Extends table.old table.new }
{
    let mut memo = Memo::new(alloc);
    let mut seen = Seen::new(alloc);
    let mut made = Vec::new(alloc);
    add_answers(
        alloc, table, options, &mut memo, &mut seen, sequents, &mut made,
    )?;
    Ok(made)
}
