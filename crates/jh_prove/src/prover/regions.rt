ghost use Rattle.std.specs.Prelude.{◌≡◌, IfOk, OnOk};
ghost use Rattle.jh_approx.specs.definition.Regions.{bapa_of, unlabelled};
ghost use Rattle.jh_local.specs.jh_abstraction.choice_of_hypotheses.Asking.{IsAsked};
ghost use Rattle.jh_local.specs.jh_query_names.mentioned_names.Notes.{IsRight};
ghost use Rattle.jh_query.specs.queries.Bare.{query_tree};
ghost use Rattle.jh_seq.specs.sequent.Sequents.{SequentTree};
ghost use Rattle.jh_arena.specs.table.Growth.{Extends};
ghost use Rattle.jh_arena.specs.table.Nodes.{nodes};
ghost use Rattle.jh_prove.specs.prover.Right.{IsRegional};

use jh_approx::definition::queries_are_well_formed;
use jh_arena::table::Table;
use jh_bapa::answers::{Regional, answer_of};
use jh_local::jh_abstraction::choice_of_hypotheses::kept_facts;
use jh_local::jh_abstraction::translation::query_from;
use jh_local::jh_query_names::mentioned_names::Memo;
use jh_local::jh_query_names::visible_part::shown;
use jh_name::NoMemory;
use jh_query::queries::Query;
use jh_splitting::NodeHyp;
use std::alloc::Global;

/// A sequent over the nodes of its formulas without labels: its hypotheses with the nodes of their facts, its label by number, and
/// the node of its goal.
#[derive(Clone, Copy)]
pub(crate) struct Asked<'a> {
    pub(crate) hyps: &'a [NodeHyp],
    pub(crate) label: Option<usize>,
    pub(crate) facts: &'a [usize],
    pub(crate) goal: usize,
}

/// The query of a sequent.
pub(crate) fn query_of(
    alloc: Global,
    table: &mut Table,
    seen: &mut Memo,
    asked: Asked<'_>,
) -> Result<Query, NoMemory>
    requires sequent { (s : SequentTree) × IsAsked table.old asked.hyps.now asked.label asked.facts.now asked.goal (unlabelled s) }
    requires seen { IsRight (nodes table.old) seen.old }
    ensures query { IfOk result (λ made. (s : SequentTree) → IsAsked table.old asked.entry.hyps.now asked.entry.label asked.entry.facts.now asked.entry.goal (unlabelled s) → query_tree made ≡ bapa_of s) }
    ensures seen { OnOk result (IsRight (nodes table.new) seen.new) }
    ensures grows { Extends table.old table.new }
{
    let kept = kept_facts(
        alloc,
        table,
        seen,
        asked.hyps,
        asked.label,
        asked.facts,
        asked.goal,
    )?;
    let goal = shown(table, &mut seen.shown, asked.goal, true)?;
    query_from(alloc, table, kept.as_slice(), goal)
}

/// What regions say of a sequent.
pub(crate) fn by_regions(
    alloc: Global,
    table: &mut Table,
    seen: &mut Memo,
    asked: Asked<'_>,
) -> Result<Regional, NoMemory>
    requires sequent { (s : SequentTree) × IsAsked table.old asked.hyps.now asked.label asked.facts.now asked.goal (unlabelled s) }
    requires seen { IsRight (nodes table.old) seen.old }
    ensures decided { IfOk result (λ made. (s : SequentTree) → IsAsked table.old asked.entry.hyps.now asked.entry.label asked.entry.facts.now asked.entry.goal (unlabelled s) → IsRegional (bapa_of s) made) }
    ensures seen { OnOk result (IsRight (nodes table.new) seen.new) }
    ensures grows { Extends table.old table.new }
{
    queries_are_well_formed();
    let query = query_of(alloc, table, seen, asked)?;
    answer_of(alloc, query)
}
