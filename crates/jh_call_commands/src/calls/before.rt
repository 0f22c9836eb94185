#![tactic(auto, using(jh_state_facts::proofs::changes::AddedSteps::added_steps, jh_arena::proofs::table::Listed::growth_steps))]

ghost use Rattle.std.specs.Prelude.{◌≡◌, ◌++◌, ◌∷◌, [], Bool, map, option_map, IfOk, OnOk};
ghost use Rattle.jh_ast.specs.Programs.{ProgramTree};
ghost use Rattle.jh_form.specs.declared.mark.MarkKind.TheVariants as kind;
ghost use Rattle.jh_form.specs.Tree.{FormulaTree};
ghost use Rattle.jh_form.specs.Tree as t;
ghost use Rattle.jh_arena.specs.table.Growth.{Extends};
ghost use Rattle.jh_wp.specs.Command as w;
ghost use Rattle.jh_semantics.specs.Code.{Text};
ghost use Rattle.jh_semantics.specs.Program.{Program};
ghost use Rattle.jh_semantics.specs.Entry.{owed};
ghost use Rattle.jh_guard.specs.Writes.{Writes};
ghost use Rattle.jh_guard.specs.Steps as steps;
ghost use Rattle.jh_guard.specs.Terms as terms;
ghost use Rattle.jh_guard.specs.Calls as guard;
ghost use Rattle.jh_semantics.specs.typed_code.Codes.{object_code, any_code};
ghost use Rattle.jh_semantics.specs.typed_code.Statements.{target_in, local_in, claim_in, method_in};
ghost use Rattle.jh_command_terms.specs.terms.Checks.{IsReceiver};
ghost use Rattle.jh_state_facts.specs.changes.Added.{AddsCommands};
ghost use Rattle.jh_havoc.specs.jh_command_statements.checks.Told.{AreFormulas};
ghost use Rattle.jh_call_commands.specs.contract_instances.Calling.{AreTexts, name_at};
ghost use Rattle.jh_call_commands.specs.calls.Called.{IsCalled, IsKept, AreValues, callee_of};
ghost use Rattle.jh_call_commands.specs.calls.TurnsOf.{turns_in};

use crate::calls::called::{Called, Surroundings};
use crate::calls::contracts::{calling_of, renamed_claim};
use crate::calls::keeping::{keep_args, keep_receiver, keep_target};
use crate::calls::terms::{Kept, call_terms};
use crate::calls::turns::Turns;
use crate::contract_instances::Calling;
use jh_arena::table::Table;
use jh_command_terms::command::Command;
use jh_command_terms::terms::CheckNode;
use jh_form::MarkKind;
use jh_havoc::jh_command_statements::checks::{assert_bare, assert_checks, assert_claims};
use jh_name::{NoMemory, Place};
use jh_semantics::typed_code::{CallCode, Claim};

/// Adds the checks of a call, and answers the nodes of what it keeps.
fn push_checked(
    table: &mut Table,
    commands: &mut Vec<Command>,
    call: &CallCode,
) -> Result<Kept, NoMemory>
    ensures target { IfOk result (λ made. IsReceiver table.new made.target (target_in call.now.target)) }
    ensures receiver { IfOk result (λ made. IsKept table.new made.receiver (option_map object_code call.now.receiver)) }
    ensures args { IfOk result (λ made. AreValues table.new made.args.items (map terms.value_term (map any_code call.now.args))) }
    ensures commands { OnOk result (AddsCommands table.new commands.old.items commands.new.items (steps.assert_checks (steps.target_checks (target_in call.now.target) ++ guard.receiver_value_checks (option_map object_code call.now.receiver) ++ guard.all_checks (map any_code call.now.args) ++ guard.called_checks (option_map object_code call.now.receiver) call.now.receiver_place))) }
    ensures grows { Extends table.old table.new }
{
    let mut checks: Vec<CheckNode> = Vec::new(table.alloc());
    let kept = call_terms(table, &mut checks, call)?;
    assert_checks(table, commands, checks.as_slice())?;
    Ok(kept)
}

/// Adds the checks of a call, and that what it keeps goes into fresh names.
fn push_kept(
    table: &mut Table,
    commands: &mut Vec<Command>,
    call: &CallCode,
    called: &Called<'_>,
    turns: &Turns,
) -> Result<(), NoMemory>
    ensures commands { OnOk result (AddsCommands table.new commands.old.items commands.new.items (steps.assert_checks (steps.target_checks (target_in call.now.target) ++ guard.receiver_value_checks (option_map object_code call.now.receiver) ++ guard.all_checks (map any_code call.now.args) ++ guard.called_checks (option_map object_code call.now.receiver) call.now.receiver_place) ++ guard.keep_receiver (option_map object_code call.now.receiver) turns.now.receiver ++ guard.keep_args (map local_in called.now.method.now.params) (map any_code call.now.args) turns.now.args ++ guard.keep_target (target_in call.now.target) turns.now.target)) }
    ensures grows { Extends table.old table.new }
{
    let kept = push_checked(table, commands, call)?;
    keep_receiver(table, commands, kept.receiver, turns.receiver)?;
    keep_args(
        table,
        commands,
        called.method.params.items(),
        kept.args.as_slice(),
        turns.args,
    )?;
    keep_target(table, commands, kept.target, turns.target)
}

/// Adds that `requires` is asserted, with the names that it has at a call.
fn push_claimed(
    table: &mut Table,
    commands: &mut Vec<Command>,
    formulas: &[Option<usize>],
    claim: &Claim,
    calling: Calling<'_>,
    place: Place,
) -> Result<(), NoMemory>
    ensures commands { OnOk result ((p : ProgramTree) (f : FormulaTree → FormulaTree) → AreFormulas p table.old formulas.now → ((a : FormulaTree) → guard.renamed_by (name_at calling.entry) a ≡ f a) → AddsCommands table.new commands.old.items commands.new.items (w.assert (t.mark (steps.mark_without_name kind.Pre place) (f (claim_in p claim.now).formula)) ∷ [])) }
    ensures grows { Extends table.old table.new }
{
    let goal = renamed_claim(table, formulas, claim, calling)?;
    assert_bare(table, commands, MarkKind::Pre, place, goal)
}

/// Adds that `requires` of the method that is called is asserted, where it has one.
fn push_requires(
    table: &mut Table,
    commands: &mut Vec<Command>,
    formulas: &[Option<usize>],
    called: &Called<'_>,
    turns: &Turns,
    place: Place,
) -> Result<(), NoMemory>
    ensures commands { OnOk result ((p : ProgramTree) (test : Text → Bool) → AreFormulas p table.old formulas.now → AreTexts test called.now.written.now → AddsCommands table.new commands.old.items commands.new.items (guard.assert_requires (guard.at_call (turns_in turns.now) (map local_in called.now.method.now.params) test) place (option_map (claim_in p) called.now.method.now.pre))) }
    ensures grows { Extends table.old table.new }
{
    match &called.method.pre {
        None => Ok(()),
        Some(claim) => {
            let calling = calling_of(called, turns);
            push_claimed(table, commands, formulas, claim, calling, place)
        }
    }
}

/// Adds that the invariants are asserted before a call of a public method.
fn push_owed(
    table: &mut Table,
    commands: &mut Vec<Command>,
    around: &Surroundings<'_>,
    called: &Called<'_>,
) -> Result<(), NoMemory>
    ensures commands { OnOk result ((p : ProgramTree) (g : Program) → AreFormulas p table.old around.now.formulas.now → g.invariants ≡ map (claim_in p) around.now.invariants.now → AddsCommands table.new commands.old.items commands.new.items (steps.assert_claims kind.Inv (owed g (method_in p called.now.method.now)))) }
    ensures grows { Extends table.old table.new }
{
    if !called.method.is_public {
        return Ok(());
    }
    assert_claims(
        table,
        commands,
        around.formulas,
        MarkKind::Inv,
        around.invariants,
    )
}

/// Adds what comes before a call: receiver and arguments are checked and kept; `requires` and, of a public method, the
/// invariants are asserted.
pub(crate) fn push_before(
    table: &mut Table,
    commands: &mut Vec<Command>,
    around: &Surroundings<'_>,
    call: &CallCode,
    called: &Called<'_>,
    turns: &Turns,
) -> Result<(), NoMemory>
    ensures commands { OnOk result ((p : ProgramTree) (g : Program) (ws : Writes) (wf : FormulaTree) → IsCalled p g ws (callee_of call.now) table.old around.now called.now → AddsCommands table.new commands.old.items commands.new.items (guard.before_call g ws wf call.now.place (target_in call.now.target) (option_map object_code call.now.receiver) call.now.receiver_place (callee_of call.now) (method_in p called.now.method.now) (map any_code call.now.args) (turns_in turns.now))) }
    ensures grows { Extends table.old table.new }
{
    push_kept(table, commands, call, called, turns)?;
    push_requires(table, commands, around.formulas, called, turns, call.place)?;
    push_owed(table, commands, around, called)
}
