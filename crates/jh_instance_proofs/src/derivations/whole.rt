ghost use Rattle.std.specs.Prelude.{IfOk};
ghost use Rattle.jh_local_form.specs.local_sequents.Forming.{IsFormed};
ghost use Rattle.jh_seq.specs.sequent.Sequents.{SequentTree};
ghost use Rattle.jh_derivation_rules.specs.Closes.{ClosesSequent};
ghost use Rattle.jh_derivation_rules.specs.Steps.{steps_of};
ghost use Rattle.jh_instance_proofs.specs.derivations.Nesting.{OperandsNestWithin};

use crate::derivations::answering::closing;
use crate::derivations::writing::derivation_of;
use jh_arena::table::Table;
use jh_derivation_rules::Derivation;
use jh_instantiation::instances::NodeEntries;
use jh_local_form::local_sequents::LocalForm;
use jh_name::NoMemory;
use jh_refutation_proofs::jh_propagation::propagation::Problem;
use jh_refutation_proofs::jh_search::Searching;

/// A derivation that closes the sequent of a local form, whose formulas are nodes of this table, where a search of this problem closed all
/// branches: the problem is posed of the instances among these entries. What is written is followed before it is handed out. The answer is
/// want of memory where it doesn't close the sequent, where an operand of it nests deeper than MOST_NESTED, and where its operands have
/// more than 4,194,304 nodes in all, each counted where it stands.
pub fn derived(
    table: &Table,
    form: &LocalForm,
    entries: &NodeEntries,
    problem: Problem,
    searching: Searching,
) -> Result<Derivation, NoMemory>
    ensures closes { IfOk result (λ made. (s : SequentTree) → IsFormed table.now form.now s → ClosesSequent (steps_of made) s) }
    ensures nests { IfOk result (λ made. OperandsNestWithin 4096 (steps_of made)) }
{
    let derivation = derivation_of(table, form, entries, problem, searching)?;
    closing(table, form, derivation)
}
