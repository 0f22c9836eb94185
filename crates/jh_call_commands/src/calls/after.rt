#![tactic(auto, using(jh_state_facts::proofs::changes::AddedSteps::added_steps, jh_arena::proofs::table::Listed::growth_steps))]

ghost use Rattle.std.specs.Prelude.{◌≡◌, ◌<◌, ◌∷◌, [], ℕ, Bool, true, List, map, length, option_map, codes, OnOk, Some, slice_get};
ghost use Rattle.jh_ast.specs.Programs.{ProgramTree};
ghost use Rattle.jh_form.specs.Tree.{FormulaTree, of_truth};
ghost use Rattle.jh_form.specs.Tree as t;
ghost use Rattle.jh_arena.specs.table.Entries.{is_truth};
ghost use Rattle.jh_arena.specs.table.Growth.{Extends};
ghost use Rattle.jh_arena.specs.table.Nodes.{nodes};
ghost use Rattle.jh_wp.specs.Command as w;
ghost use Rattle.jh_semantics.specs.Code.{Text};
ghost use Rattle.jh_semantics.specs.Program.{Program};
ghost use Rattle.jh_semantics.specs.WellFormed.{lies_in};
ghost use Rattle.jh_guard.specs.Writes.{Writes};
ghost use Rattle.jh_guard.specs.Frames as frames;
ghost use Rattle.jh_guard.specs.Steps as steps;
ghost use Rattle.jh_guard.specs.Calls as guard;
ghost use Rattle.jh_semantics.specs.typed_code.Statements.{target_in, local_in, claim_in, method_in};
ghost use Rattle.jh_state_facts.specs.schemas.Meant.{name_in};
ghost use Rattle.jh_state_facts.specs.well_formedness.Facts.{AreFacts};
ghost use Rattle.jh_state_facts.specs.changes.Added.{AddsCommands, chosen};
ghost use Rattle.jh_havoc.specs.jh_command_statements.checks.Told.{AreFormulas};
ghost use Rattle.jh_call_commands.specs.contract_instances.Calling.{AreTexts, name_at};
ghost use Rattle.jh_call_commands.specs.calls.Called.{IsCalled, callee_of};
ghost use Rattle.jh_call_commands.specs.calls.TurnsOf.{turns_in};

use crate::calls::called::{Called, Surroundings};
use crate::calls::contracts::{calling_of, renamed_claim};
use crate::calls::results::put_result;
use crate::calls::turns::Turns;
use crate::contract_instances::{Calling, is_among};
use jh_arena::table::Table;
use jh_command_terms::command::Command;
use jh_havoc::jh_command_statements::checks::{assume_fact, assume_named};
use jh_havoc::{push_owed, push_state};
use jh_name::{NoMemory, Place, Text};
use jh_rules::Ty;
use jh_semantics::typed_code::{CallCode, Claim};
use jh_state_facts::changes::{SortedName, push_frames};
use jh_state_facts::schemas::Named;
use jh_state_facts::well_formedness::push_lies;

/// The fact at a place.
fn fact_at(facts: &[usize], place: usize) -> usize
    requires { place < length facts.now }
    ensures { slice_get facts.now place ≡ Some result }
{
    facts[place]
}

/// Adds that formulas are facts from there on, one after another.
fn assume_facts(table: &Table, commands: &mut Vec<Command>, facts: &[usize]) -> Result<(), NoMemory>
    ensures { OnOk result ((fs : List FormulaTree) → AreFacts table.now facts.now fs → AddsCommands table.now commands.old.items commands.new.items (map (λ f. w.assume f) fs)) }
{
    for place in 0..facts.len() {
        assume_fact(table, commands, fact_at(facts, place))?;
    }
    Ok(())
}

/// The set of all objects that there were at a call.
fn old_alloc<'a>(written: &[SortedName<'_>], turn: u32) -> Named<'a>
    ensures { (test : Text → Bool) → AreTexts test written.now → t.free_set (name_in result) ≡ guard.old_alloc test turn }
{
    let turn = if is_among(written, "alloc") { turn } else { 0 };
    Named {
        text: "alloc",
        turn,
    }
}

/// Adds the frame facts of the members that the method that is called may write and that its `modifies` doesn't name.
fn push_framed(
    table: &mut Table,
    commands: &mut Vec<Command>,
    around: &Surroundings<'_>,
    called: &Called<'_>,
    turn: u32,
) -> Result<(), NoMemory>
    ensures commands { OnOk result ((classes : List (List ℕ)) (test : Text → Bool) → AreTexts test called.now.written.now → AddsCommands table.new commands.old.items commands.new.items (map (λ f. w.assume f) (map (frames.frame_fact (guard.old_alloc test turn) turn) (chosen classes around.now.members.now called.now.framed.now)))) }
    ensures grows { Extends table.old table.new }
{
    let mut facts: Vec<usize> = Vec::new(table.alloc());
    let old = old_alloc(called.written, turn);
    push_frames(table, &mut facts, old, around.members, called.framed, turn)?;
    assume_facts(table, commands, facts.as_slice())
}

/// Adds that `ensures` is a fact, with the names that it has at a call.
fn push_claimed(
    table: &mut Table,
    commands: &mut Vec<Command>,
    formulas: &[Option<usize>],
    claim: &Claim,
    calling: Calling<'_>,
) -> Result<(), NoMemory>
    ensures commands { OnOk result ((p : ProgramTree) (f : FormulaTree → FormulaTree) → AreFormulas p table.old formulas.now → ((a : FormulaTree) → guard.renamed_by (name_at calling.entry) a ≡ f a) → AddsCommands table.new commands.old.items commands.new.items (steps.assume_named (codes "post") claim.now.place (f (claim_in p claim.now).formula) ∷ [])) }
    ensures grows { Extends table.old table.new }
{
    let fact = renamed_claim(table, formulas, claim, calling)?;
    assume_named(table, commands, "post", claim.place, fact)
}

/// Adds that `ensures` of the method that is called is a fact, where it has one.
fn push_ensures(
    table: &mut Table,
    commands: &mut Vec<Command>,
    formulas: &[Option<usize>],
    called: &Called<'_>,
    turns: &Turns,
) -> Result<(), NoMemory>
    ensures commands { OnOk result ((p : ProgramTree) (test : Text → Bool) → AreFormulas p table.old formulas.now → AreTexts test called.now.written.now → AddsCommands table.new commands.old.items commands.new.items (guard.assume_ensures (guard.at_call (turns_in turns.now) (map local_in called.now.method.now.params) test) (option_map (claim_in p) called.now.method.now.post))) }
    ensures grows { Extends table.old table.new }
{
    match &called.method.post {
        None => Ok(()),
        Some(claim) => {
            let calling = calling_of(called, turns);
            push_claimed(table, commands, formulas, claim, calling)
        }
    }
}

/// Adds that the result of a call lies in its type.
fn push_typed(
    table: &mut Table,
    commands: &mut Vec<Command>,
    classes: &[Text],
    ty: Ty,
    turn: u32,
) -> Result<(), NoMemory>
    ensures commands { OnOk result (AddsCommands table.new commands.old.items commands.new.items (map (λ f. w.assume f) (lies_in classes.now ty (t.free_object (steps.fresh guard.result_text turn))))) }
    ensures grows { Extends table.old table.new }
{
    let mut facts: Vec<usize> = Vec::new(table.alloc());
    let named = Named {
        text: "result",
        turn,
    };
    push_lies(table, &mut facts, classes, ty, named)?;
    assume_facts(table, commands, facts.as_slice())
}

/// Adds what is known after a call by the contract of the method, and that its result goes to its target.
pub(crate) fn push_after(
    table: &mut Table,
    commands: &mut Vec<Command>,
    around: &Surroundings<'_>,
    call: &CallCode,
    called: &Called<'_>,
    turns: &Turns,
    well_formed: usize,
) -> Result<(), NoMemory>
    requires { is_truth (slice_get (nodes table.old) well_formed) ≡ true }
    ensures commands { OnOk result ((p : ProgramTree) (g : Program) (ws : Writes) (wf : FormulaTree) → IsCalled p g ws (callee_of call.now) table.old around.now called.now → slice_get (nodes table.old) well_formed ≡ Some (of_truth wf) → AddsCommands table.new commands.old.items commands.new.items (guard.after_call g ws wf call.now.place (target_in call.now.target) (callee_of call.now) (method_in p called.now.method.now) (turns_in turns.now))) }
    ensures grows { Extends table.old table.new }
{
    let method = called.method;
    push_state(
        table,
        commands,
        called.written,
        called.sets,
        call.place,
        well_formed,
        turns.copies,
    )?;
    push_framed(table, commands, around, called, turns.copies)?;
    push_ensures(table, commands, around.formulas, called, turns)?;
    push_owed(table, commands, around.formulas, around.invariants, method)?;
    push_typed(table, commands, around.classes, method.result, turns.result)?;
    put_result(
        table,
        commands,
        &call.target,
        turns.target,
        method.result,
        turns.result,
    )
}
