ghost use Rattle.std.specs.Prelude.{◌≡◌, ◌<◌, List, true, length, Some, IfOk, OnOk, slice_get};
ghost use Rattle.jh_arena.specs.table.Entries.{is_truth};
ghost use Rattle.jh_arena.specs.table.Growth.{Extends};
ghost use Rattle.jh_arena.specs.table.Nodes.{nodes};
ghost use Rattle.jh_prove.specs.prover.Memos.{found};
ghost use Rattle.jh_prove.specs.prover.Unlabelled.{IsUnlabelled, HoldsUnlabelled, AreFacts, AreUnlabelled};

use crate::prover::memo::Memo;
use jh_approx::jh_normal_forms::negation_normal_form::unlabelled;
use jh_arena::table::Table;
use jh_name::NoMemory;
use jh_splitting::NodeHyp;

/// The node of a formula without labels, made anew.
fn made_without_labels(table: &mut Table, node: usize) -> Result<usize, NoMemory>
    requires { is_truth (slice_get (nodes table.old) node) ≡ true }
    ensures node { IfOk result (IsUnlabelled (nodes table.new) node) }
    ensures grows { Extends table.old table.new }
{
    unlabelled(table, node)
}

/// The node of a formula without labels. They are taken off once for each node.
pub(crate) fn without_labels(
    table: &mut Table,
    memo: &mut Memo,
    node: usize,
) -> Result<usize, NoMemory>
    requires node { is_truth (slice_get (nodes table.old) node) ≡ true }
    requires memo { HoldsUnlabelled (nodes table.old) (found memo.old.answers) }
    ensures node { IfOk result (IsUnlabelled (nodes table.new) node) }
    ensures memo { OnOk result (HoldsUnlabelled (nodes table.new) (found memo.new.answers)) }
    ensures grows { Extends table.old table.new }
{
    match memo.known(node) {
        Some(answer) => Ok(answer),
        None => {
            let answer = made_without_labels(table, node)?;
            memo.note(node, answer)?;
            Ok(answer)
        }
    }
}

/// The hypothesis at a place.
fn hyp_at(hyps: &[NodeHyp], place: usize) -> NodeHyp
    requires { place < length hyps.now }
    ensures { slice_get hyps.now place ≡ Some result }
{
    hyps[place]
}

/// The nodes of the facts of hypotheses without labels.
pub(crate) fn facts_without_labels(
    table: &mut Table,
    memo: &mut Memo,
    hyps: &[NodeHyp],
) -> Result<Vec<usize>, NoMemory>
    requires hyps { AreFacts table.old hyps.now }
    requires memo { HoldsUnlabelled (nodes table.old) (found memo.old.answers) }
    ensures facts { IfOk result (λ made. AreUnlabelled (nodes table.new) hyps.now made.items) }
    ensures memo { OnOk result (HoldsUnlabelled (nodes table.new) (found memo.new.answers)) }
    ensures grows { Extends table.old table.new }
{
    let mut facts = Vec::new(table.alloc());
    for place in 0..hyps.len() {
        let hyp = hyp_at(hyps, place);
        let fact = without_labels(table, memo, hyp.fact)?;
        facts.push(fact)?;
    }
    Ok(facts)
}
