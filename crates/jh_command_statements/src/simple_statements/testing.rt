#![tactic(auto, using(crate::proofs::simple_statements::CheckedSteps::checked_steps, jh_arena::proofs::table::Listed::growth_steps))]

ghost use Rattle.std.specs.Prelude.{◌≡◌, IfOk, OnOk, Some, slice_get};
ghost use Rattle.jh_form.specs.Tree.{of_truth};
ghost use Rattle.jh_arena.specs.table.Growth.{Extends};
ghost use Rattle.jh_arena.specs.table.Nodes.{nodes};
ghost use Rattle.jh_guard.specs.Terms.{truth_formula, truth_checks};
ghost use Rattle.jh_guard.specs.Steps as steps;
ghost use Rattle.jh_semantics.specs.typed_code.Codes.{truth_code};
ghost use Rattle.jh_state_facts.specs.changes.Added.{AddsCommands};

use crate::checks::assert_checks;
use jh_arena::table::Table;
use jh_command_terms::command::Command;
use jh_command_terms::terms::{CheckNode, truth_term};
use jh_name::NoMemory;
use jh_semantics::typed_code::TruthCode;

/// Adds the checks of the test of a branch or a loop, and answers the node of its formula.
pub fn push_test(
    table: &mut Table,
    commands: &mut Vec<Command>,
    test: &TruthCode,
) -> Result<usize, NoMemory>
    ensures node { IfOk result (λ made. slice_get (nodes table.new) made ≡ Some (of_truth (truth_formula (truth_code test.now)))) }
    ensures commands { OnOk result (AddsCommands table.new commands.old.items commands.new.items (steps.assert_checks (truth_checks (truth_code test.now)))) }
    ensures grows { Extends table.old table.new }
{
    let mut checks: Vec<CheckNode> = Vec::new(table.alloc());
    let made = truth_term(table, &mut checks, test)?;
    assert_checks(table, commands, checks.as_slice())?;
    Ok(made)
}
