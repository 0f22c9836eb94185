#![tactic(auto, using(crate::proofs::commands::OutlinedSteps::outlined_steps, jh_arena::proofs::table::Listed::growth_steps))]

ghost use Rattle.std.specs.Prelude.{◌≡◌, ◌∷◌, ◌++◌, true, map, filter, codes, IfOk, OnOk, Some, slice_get};
ghost use Rattle.jh_form.specs.Tree.{of_truth};
ghost use Rattle.jh_arena.specs.table.Entries.{is_truth};
ghost use Rattle.jh_arena.specs.table.Growth.{Extends};
ghost use Rattle.jh_arena.specs.table.Nodes.{nodes};
ghost use Rattle.jh_guard.specs.Items.{sorted_item, is_of_objects};
ghost use Rattle.jh_guard.specs.Terms.{truth_formula};
ghost use Rattle.jh_guard.specs.Steps as steps;
ghost use Rattle.jh_semantics.specs.typed_code.Codes.{truth_code};
ghost use Rattle.jh_semantics.specs.typed_code.Statements.{claim_in, code_in};
ghost use Rattle.jh_state_facts.specs.changes.Added.{AddsCommands, sorted_in};
ghost use Rattle.jh_method_commands.specs.environment.Outlines.{source_of};
ghost use Rattle.jh_method_commands.specs.commands.Made as made;

use crate::commands::forming::formed_node;
use crate::environment::Outline;
use jh_arena::table::Table;
use jh_call_commands::jh_command_statements::checks::{assert_claims, assume_claims};
use jh_call_commands::jh_command_statements::simple_statements::push_test;
use jh_call_commands::jh_command_terms::command::Command;
use jh_call_commands::jh_havoc::push_state;
use jh_form::MarkKind;
use jh_loop_targets::{Changed, Told, changed_by};
use jh_name::{NoMemory, Place};
use jh_semantics::typed_code::{Claim, Code, TruthCode};
use jh_state_facts::well_formedness::Known;

/// The node of the test of a loop, and the turn that is free for its body.
#[derive(Clone, Copy)]
pub(crate) struct Head {
    pub(crate) test: usize,
    pub(crate) next: u32,
}

/// The names that a loop changes, and the sets of objects among the state that it may write.
fn changed_in<'a>(
    table: &Table,
    outline: &Outline<'a>,
    scope: &[Known<'a>],
    body: &'a Code,
) -> Result<Changed<'a>, NoMemory>
    requires { made.Outlined table.now outline.now }
    ensures names { IfOk result (λ found. sorted_in found.names.items ≡ made.changed_in outline.now scope.now (code_in (source_of outline.now) body.now)) }
    ensures sets { IfOk result (λ found. sorted_in found.sets.items ≡ map sorted_item (filter is_of_objects (made.written_in outline.now (code_in (source_of outline.now) body.now)))) }
{
    let told = Told {
        states: outline.state,
        sets: outline.classes.len() + 2,
        numbers: outline.numbers,
        rows: outline.written,
        formulas: outline.formulas,
    };
    changed_by(table, &told, scope, body)
}

/// Adds that what a loop changes takes any value, in a state that is well formed and in which sets only grew. Answers the
/// turn that is free for its body.
fn push_any(
    table: &mut Table,
    commands: &mut Vec<Command>,
    outline: &Outline<'_>,
    this: Option<usize>,
    scope: &[Known<'_>],
    place: Place,
    body: &Code,
    turn: u32,
) -> Result<u32, NoMemory>
    requires { made.Outlined table.old outline.now }
    ensures commands { OnOk result (AddsCommands table.new commands.old.items commands.new.items (steps.changed (made.changed_in outline.now scope.now (code_in (source_of outline.now) body.now)) turn ++ (steps.assume_named (codes "wf") place (made.formed_in outline.now this scope.now) ∷ steps.growth turn (made.written_in outline.now (code_in (source_of outline.now) body.now))))) }
    ensures next { IfOk result (λ next. next ≡ steps.after_changed (made.changed_in outline.now scope.now (code_in (source_of outline.now) body.now)) turn) }
    ensures grows { Extends table.old table.new }
{
    let changed = changed_in(table, outline, scope, body)?;
    let formed = formed_node(table, outline, this, scope)?;
    push_state(
        table,
        commands,
        changed.names.as_slice(),
        changed.sets.as_slice(),
        place,
        formed,
        turn,
    )
}

/// Adds what comes before the condition of a loop, and the checks of the condition.
pub(crate) fn push_head(
    table: &mut Table,
    commands: &mut Vec<Command>,
    outline: &Outline<'_>,
    this: Option<usize>,
    scope: &[Known<'_>],
    place: Place,
    invariants: &[Claim],
    test: &TruthCode,
    body: &Code,
    turn: u32,
) -> Result<Head, NoMemory>
    requires { made.Outlined table.old outline.now }
    ensures test { IfOk result (λ head. slice_get (nodes table.new) head.test ≡ Some (of_truth (truth_formula (truth_code test.now)))) }
    ensures next { IfOk result (λ head. head.next ≡ steps.after_changed (made.changed_in outline.now scope.now (code_in (source_of outline.now) body.now)) turn) }
    ensures commands { OnOk result (AddsCommands table.new commands.old.items commands.new.items (made.head_commands outline.now this scope.now place (map (claim_in (source_of outline.now)) invariants.now) (truth_code test.now) (code_in (source_of outline.now) body.now) turn)) }
    ensures grows { Extends table.old table.new }
    ensures outlined { OnOk result (made.Outlined table.new outline.now) }
    ensures truth { IfOk result (λ head. is_truth (slice_get (nodes table.new) head.test) ≡ true) }
{
    assert_claims(
        table,
        commands,
        outline.formulas,
        MarkKind::LoopEntry,
        invariants,
    )?;
    let next = push_any(table, commands, outline, this, scope, place, body, turn)?;
    assume_claims(table, commands, outline.formulas, invariants)?;
    let test = push_test(table, commands, test)?;
    Ok(Head { test, next })
}
