ghost use Rattle.std.specs.Prelude.{◌≡◌, ◌<◌, ◌++◌, ◌∷◌, [], if◌then◌else◌, map, ℕ, IfOk, OnOk, Option, Some, length, slice_get};
ghost use Rattle.jh_form.specs.declared.mark.Mark.{Mark};
ghost use Rattle.jh_seq.specs.sequent.Sequents.{HypTree, SequentTree};
ghost use Rattle.jh_seq.specs.splitting.Split.{mark_of};
ghost use Rattle.jh_abstraction.specs.jh_splitting.Standing.{IsLabel};
ghost use Rattle.jh_reach.specs.Standing.{AreFormulas};
ghost use Rattle.jh_abstraction.specs.choice_of_hypotheses.Asking.{HasName, IsAsked};
ghost use Rattle.jh_fca.specs.local_form.Chosen.{is_chosen, chosen};
ghost use Rattle.jh_local_form.specs.local_sequents.Forming.{IsFormed};

use crate::local_sequents::each::node_at;
use crate::local_sequents::forming::LocalForm;
use crate::local_sequents::labels::is_chosen;
use jh_abstraction::jh_splitting::NodeHyp;
use jh_arena::table::Table;
use jh_name::{NoMemory, Row};

/// The hypothesis at a place.
fn hyp_at(hyps: &[NodeHyp], place: usize) -> NodeHyp
    requires { place < length hyps.now }
    ensures { slice_get hyps.now place ≡ Some result }
{
    hyps[place]
}

/// Adds a fact, where its hypothesis is chosen.
fn add_chosen(
    table: &Table,
    label: Option<usize>,
    hyp: NodeHyp,
    fact: usize,
    chosen: &mut Vec<usize>,
) -> Result<(), NoMemory>
    requires label { (mark : Option Mark) × IsLabel table.now label mark }
    requires hyp { (h : HypTree) × HasName table.now hyp h }
    ensures chosen { OnOk result ((mark : Option Mark) (h : HypTree) → IsLabel table.now label mark → HasName table.now hyp h → chosen.new.items ≡ (if is_chosen (mark_of mark).from h then chosen.old.items ++ fact ∷ [] else chosen.old.items)) }
{
    if !is_chosen(table, label, hyp.mark) {
        return Ok(());
    }
    chosen.push(fact)?;
    Ok(())
}

/// The facts of the hypotheses that are chosen.
fn chosen_facts(
    table: &Table,
    hyps: &[NodeHyp],
    label: Option<usize>,
    facts: &[usize],
) -> Result<Vec<usize>, NoMemory>
    requires { (goal : ℕ) × (s : SequentTree) × IsAsked table.now hyps.now label facts.now goal s }
    ensures { IfOk result (λ made. (goal : ℕ) (s : SequentTree) → IsAsked table.now hyps.now label facts.now goal s → AreFormulas table.now made.items (map (λ h. h.fact) (chosen s).hyps)) }
{
    let mut made = Vec::new(table.alloc());
    for place in 0..hyps.len() {
        add_chosen(
            table,
            label,
            hyp_at(hyps, place),
            node_at(facts, place),
            &mut made,
        )?;
    }
    Ok(made)
}

/// The facts of the hypotheses that are chosen, and the goal.
pub(crate) fn chosen(
    table: &Table,
    hyps: &[NodeHyp],
    label: Option<usize>,
    facts: &[usize],
    goal: usize,
) -> Result<LocalForm, NoMemory>
    requires { (s : SequentTree) × IsAsked table.now hyps.now label facts.now goal s }
    ensures { IfOk result (λ made. (s : SequentTree) → IsAsked table.now hyps.now label facts.now goal s → IsFormed table.now made (chosen s)) }
{
    let made = chosen_facts(table, hyps, label, facts)?;
    Ok(LocalForm {
        facts: Row::of(made),
        goal,
    })
}
