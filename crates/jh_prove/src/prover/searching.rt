ghost use Rattle.std.specs.Prelude.{◌<◌, IfOk};
ghost use Rattle.jh_approx.specs.definition.Regions.{unlabelled};
ghost use Rattle.jh_local.specs.jh_abstraction.choice_of_hypotheses.Asking.{IsAsked};
ghost use Rattle.jh_seq.specs.sequent.Sequents.{SequentTree};
ghost use Rattle.jh_arena.specs.table.Growth.{Extends};
ghost use Rattle.jh_prove.specs.prover.Right.{IsTried};

use crate::prover::regions::Asked;
use jh_arena::table::Table;
use jh_local::jh_local_form::local_sequents::local_of;
use jh_local::{Searched, search_instances};
use jh_name::NoMemory;
use jh_name::options::Options;

/// What the search for a ground model says of a sequent.
pub(crate) fn by_search(
    table: &mut Table,
    options: Options,
    asked: Asked<'_>,
) -> Result<Searched, NoMemory>
    requires sequent { (s : SequentTree) × IsAsked table.old asked.hyps.now asked.label asked.facts.now asked.goal (unlabelled s) }
    requires leaves { 0 < options.leaves }
    ensures tried { IfOk result (λ made. (s : SequentTree) → IsAsked table.old asked.entry.hyps.now asked.entry.label asked.entry.facts.now asked.entry.goal (unlabelled s) → IsTried options s made) }
    ensures grows { Extends table.old table.new }
{
    let form = local_of(table, asked.hyps, asked.label, asked.facts, asked.goal)?;
    search_instances(table, &form, options.rounds, options.leaves as usize)
}
