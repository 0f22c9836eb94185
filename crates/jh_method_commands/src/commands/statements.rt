#![tactic(auto, using(crate::proofs::commands::SideSteps::side_steps, crate::proofs::commands::OutlinedSteps::outlined_steps, jh_arena::proofs::table::Listed::growth_steps))]

ghost use Rattle.std.specs.Prelude.{◌≡◌, ◌∷◌, ◌++◌, [], true, map, IfOk, OnOk, Some, codes, slice_get};
ghost use Rattle.jh_form.specs.Tree.{FormulaTree, of_truth};
ghost use Rattle.jh_form.specs.Tree as t;
ghost use Rattle.jh_arena.specs.table.Entries.{Listing, is_truth};
ghost use Rattle.jh_arena.specs.table.Growth.{Extends};
ghost use Rattle.jh_arena.specs.table.Nodes.{nodes};
ghost use Rattle.jh_wp.specs.Command.{CommandTree};
ghost use Rattle.jh_wp.specs.Command as w;
ghost use Rattle.jh_form.specs.declared.mark.MarkKind.TheVariants as kind;
ghost use Rattle.jh_guard.specs.Steps as steps;
ghost use Rattle.jh_guard.specs.Terms.{truth_formula, truth_checks};
ghost use Rattle.jh_semantics.specs.typed_code.Codes.{truth_code};
ghost use Rattle.jh_semantics.specs.typed_code.Statements.{claim_in, code_in, codes_in};
ghost use Rattle.jh_state_facts.specs.changes.Added.{AddsCommands};
ghost use Rattle.jh_method_commands.specs.environment.Outlines.{source_of};
ghost use Rattle.jh_method_commands.specs.commands.Made as made;
ghost use Rattle.jh_method_commands.specs.commands.Sides.{IsCommand};

use crate::commands::calling::push_call;
use crate::commands::loops::push_head;
use crate::commands::scope::declare;
use crate::commands::sides::{Side, entered, left, passed_by, push_choice, sequence};
use crate::environment::Outline;
use jh_arena::table::Table;
use jh_call_commands::jh_command_statements::checks::{assert_claim, assume_claim};
use jh_call_commands::jh_command_statements::simple_statements::{
    push_assign, push_ghost, push_new, push_return, push_test,
};
use jh_call_commands::jh_command_terms::command::Command;
use jh_form::MarkKind;
use jh_name::{NoMemory, Place};
use jh_semantics::typed_code::{Claim, Code, TruthCode};
use jh_state_facts::well_formedness::Known;
use std::alloc::Global;

/// Adds that a formula of the source is asserted, and is a fact from there on.
fn push_note(
    table: &mut Table,
    commands: &mut Vec<Command>,
    outline: &Outline<'_>,
    claim: &Claim,
) -> Result<(), NoMemory>
    requires { made.Outlined table.old outline.now }
    ensures commands { OnOk result (AddsCommands table.new commands.old.items commands.new.items (steps.assert_claim kind.Note (claim_in (source_of outline.now) claim.now) ∷ w.assume (steps.claim_fact (claim_in (source_of outline.now) claim.now)) ∷ [])) }
    ensures grows { Extends table.old table.new }
{
    assert_claim(table, commands, outline.formulas, MarkKind::Note, claim)?;
    assume_claim(table, commands, outline.formulas, claim)
}

/// Adds the checks of a test, and answers the node of its formula.
fn tested(
    table: &mut Table,
    commands: &mut Vec<Command>,
    outline: &Outline<'_>,
    test: &TruthCode,
) -> Result<usize, NoMemory>
    requires { made.Outlined table.old outline.now }
    ensures outlined { OnOk result (made.Outlined table.new outline.now) }
    ensures truth { IfOk result (λ node. is_truth (slice_get (nodes table.new) node) ≡ true) }
    ensures node { IfOk result (λ node. slice_get (nodes table.new) node ≡ Some (of_truth (truth_formula (truth_code test.now)))) }
    ensures commands { OnOk result (AddsCommands table.new commands.old.items commands.new.items (steps.assert_checks (truth_checks (truth_code test.now)))) }
    ensures grows { Extends table.old table.new }
{
    let _formulas = outline.formulas.len();
    push_test(table, commands, test)
}

/// Adds what comes behind the body of a loop: its invariants are asserted, and no run goes on.
fn push_kept(
    table: &mut Table,
    commands: &mut Vec<Command>,
    outline: &Outline<'_>,
    invariants: &[Claim],
) -> Result<(), NoMemory>
    requires { made.Outlined table.old outline.now }
    ensures commands { OnOk result (AddsCommands table.new commands.old.items commands.new.items (steps.assert_claims kind.LoopKept (map (claim_in (source_of outline.now)) invariants.now) ++ w.stop ∷ [])) }
    ensures grows { Extends table.old table.new }
{
    jh_call_commands::jh_havoc::push_kept(table, commands, outline.formulas, invariants)
}

/// Adds the choice between two sides, and answers the turn that is free behind the second.
fn push_sides(
    alloc: Global,
    commands: &mut Vec<Command>,
    first: Side,
    second: Side,
) -> Result<u32, NoMemory>
    ensures commands { OnOk result ((t : Listing) (a b : CommandTree) → IsCommand t first.command a → IsCommand t second.command b → AddsCommands t commands.old.items commands.new.items (w.choice a b ∷ [])) }
    ensures next { IfOk result (λ next. next ≡ second.next) }
{
    let Side {
        command: first,
        next: _first_next,
    } = first;
    let Side {
        command: second,
        next,
    } = second;
    push_choice(alloc, commands, first, second)?;
    Ok(next)
}

/// Adds the choice between a turn of a loop and its end, and answers the turn that is free behind the body.
fn push_end(
    table: &mut Table,
    commands: &mut Vec<Command>,
    place: Place,
    test: usize,
    body: Side,
) -> Result<u32, NoMemory>
    requires { is_truth (slice_get (nodes table.old) test) ≡ true }
    ensures commands { OnOk result ((f : FormulaTree) (a : CommandTree) → slice_get (nodes table.old) test ≡ Some (of_truth f) → IsCommand table.old body.command a → AddsCommands table.new commands.old.items commands.new.items (w.choice a (steps.assume_named (codes "cond") place (t.negation f)) ∷ [])) }
    ensures next { IfOk result (λ next. next ≡ body.next) }
    ensures grows { Extends table.old table.new }
{
    let Side { command, next } = body;
    let end = left(table, place, test)?;
    push_choice(table.alloc(), commands, command, end)?;
    Ok(next)
}

/// Adds the commands of statements one after another, with these locals in scope, where the turns from one on are free.
/// `this` is the class of `this`, where there is one. Answers the turn that is free behind them; want of memory where
/// there is none.
#[cycle(push_one)]
pub fn push_all<'a>(
    table: &mut Table,
    commands: &mut Vec<Command>,
    outline: &Outline<'_>,
    this: Option<usize>,
    scope: &mut Vec<Known<'a>>,
    stmts: &'a [Code],
    turn: u32,
) -> Result<u32, NoMemory>
    requires { made.Outlined table.old outline.now }
    ensures commands { OnOk result (AddsCommands table.new commands.old.items commands.new.items (made.all_commands outline.now this scope.old.items (codes_in (source_of outline.now) stmts.now) turn)) }
    ensures next { IfOk result (λ next. next ≡ made.turn_behind_all outline.now this scope.old.items (codes_in (source_of outline.now) stmts.now) turn) }
    ensures scope { OnOk result (scope.new.items ≡ scope.old.items) }
    ensures grows { Extends table.old table.new }
{
    let outer = scope.as_slice().len();
    let mut next = turn;
    for stmt in stmts {
        next = push_one(table, commands, outline, this, scope, stmt, next)?;
        declare(scope, stmt)?;
    }
    scope.truncate(outer);
    Ok(next)
}

/// The side of a branch where its test holds.
#[cycle(push_one)]
fn first_side<'a>(
    table: &mut Table,
    outline: &Outline<'_>,
    this: Option<usize>,
    scope: &mut Vec<Known<'a>>,
    place: Place,
    test: usize,
    code: &'a Code,
    turn: u32,
) -> Result<Side, NoMemory>
    requires outline { made.Outlined table.old outline.now }
    requires test { is_truth (slice_get (nodes table.old) test) ≡ true }
    ensures command { IfOk result (λ side. (f : FormulaTree) → slice_get (nodes table.old) test ≡ Some (of_truth f) → IsCommand table.new side.command (steps.sequence (steps.assume_named (codes "cond") place f ∷ made.commands_of outline.now this scope.old.items (code_in (source_of outline.now) code.now) turn))) }
    ensures next { IfOk result (λ side. side.next ≡ made.turn_behind outline.now this scope.old.items (code_in (source_of outline.now) code.now) turn) }
    ensures scope { OnOk result (scope.new.items ≡ scope.old.items) }
    ensures grows { Extends table.old table.new }
    ensures outlined { OnOk result (made.Outlined table.new outline.now) }
    ensures still { OnOk result (is_truth (slice_get (nodes table.new) test) ≡ true) }
{
    let mut commands = entered(table, place, test)?;
    let next = push_one(table, &mut commands, outline, this, scope, code, turn)?;
    Ok(Side {
        command: sequence(commands),
        next,
    })
}

/// The side of a branch where its test doesn't hold.
#[cycle(push_one)]
fn second_side<'a>(
    table: &mut Table,
    outline: &Outline<'_>,
    this: Option<usize>,
    scope: &mut Vec<Known<'a>>,
    place: Place,
    test: usize,
    stmts: &'a [Code],
    turn: u32,
) -> Result<Side, NoMemory>
    requires outline { made.Outlined table.old outline.now }
    requires test { is_truth (slice_get (nodes table.old) test) ≡ true }
    ensures command { IfOk result (λ side. (f : FormulaTree) → slice_get (nodes table.old) test ≡ Some (of_truth f) → IsCommand table.new side.command (steps.sequence (steps.assume_named (codes "cond") place (t.negation f) ∷ made.all_commands outline.now this scope.old.items (codes_in (source_of outline.now) stmts.now) turn))) }
    ensures next { IfOk result (λ side. side.next ≡ made.turn_behind_all outline.now this scope.old.items (codes_in (source_of outline.now) stmts.now) turn) }
    ensures scope { OnOk result (scope.new.items ≡ scope.old.items) }
    ensures grows { Extends table.old table.new }
{
    let mut commands = passed_by(table, place, test)?;
    let next = push_all(table, &mut commands, outline, this, scope, stmts, turn)?;
    Ok(Side {
        command: sequence(commands),
        next,
    })
}

/// A turn of a loop.
#[cycle(push_one)]
fn loop_side<'a>(
    table: &mut Table,
    outline: &Outline<'_>,
    this: Option<usize>,
    scope: &mut Vec<Known<'a>>,
    place: Place,
    test: usize,
    invariants: &[Claim],
    code: &'a Code,
    turn: u32,
) -> Result<Side, NoMemory>
    requires outline { made.Outlined table.old outline.now }
    requires test { is_truth (slice_get (nodes table.old) test) ≡ true }
    ensures command { IfOk result (λ side. (f : FormulaTree) → slice_get (nodes table.old) test ≡ Some (of_truth f) → IsCommand table.new side.command (steps.sequence (steps.assume_named (codes "cond") place f ∷ made.commands_of outline.now this scope.old.items (code_in (source_of outline.now) code.now) turn ++ steps.assert_claims kind.LoopKept (map (claim_in (source_of outline.now)) invariants.now) ++ w.stop ∷ []))) }
    ensures next { IfOk result (λ side. side.next ≡ made.turn_behind outline.now this scope.old.items (code_in (source_of outline.now) code.now) turn) }
    ensures scope { OnOk result (scope.new.items ≡ scope.old.items) }
    ensures grows { Extends table.old table.new }
    ensures still { OnOk result (is_truth (slice_get (nodes table.new) test) ≡ true) }
{
    let mut commands = entered(table, place, test)?;
    let next = push_one(table, &mut commands, outline, this, scope, code, turn)?;
    push_kept(table, &mut commands, outline, invariants)?;
    Ok(Side {
        command: sequence(commands),
        next,
    })
}

/// Adds the commands of a statement.
#[cycle(push_one)]
fn push_one<'a>(
    table: &mut Table,
    commands: &mut Vec<Command>,
    outline: &Outline<'_>,
    this: Option<usize>,
    scope: &mut Vec<Known<'a>>,
    code: &'a Code,
    turn: u32,
) -> Result<u32, NoMemory>
    requires { made.Outlined table.old outline.now }
    ensures commands { OnOk result (AddsCommands table.new commands.old.items commands.new.items (made.commands_of outline.now this scope.old.items (code_in (source_of outline.now) code.now) turn)) }
    ensures next { IfOk result (λ next. next ≡ made.turn_behind outline.now this scope.old.items (code_in (source_of outline.now) code.now) turn) }
    ensures scope { OnOk result (scope.new.items ≡ scope.old.items) }
    ensures grows { Extends table.old table.new }
{
    match code {
        Code::Empty => Ok(turn),
        Code::Block(stmts) => push_all(table, commands, outline, this, scope, stmts.items(), turn),
        Code::Assign(target, value) => {
            push_assign(table, commands, target, value)?;
            Ok(turn)
        }
        Code::New(_, target, class) => push_new(table, commands, target, class.text(), turn),
        Code::Call(call) => push_call(table, commands, outline, this, scope.as_slice(), call, turn),
        Code::Branch(place, test, first, second) => {
            let test = tested(table, commands, outline, test)?;
            let first = first_side(table, outline, this, scope, *place, test, first, turn)?;
            let second = second_side(
                table,
                outline,
                this,
                scope,
                *place,
                test,
                second.items(),
                first.next,
            )?;
            push_sides(table.alloc(), commands, first, second)
        }
        Code::Loop(place, invariants, test, body) => {
            let head = push_head(
                table,
                commands,
                outline,
                this,
                scope.as_slice(),
                *place,
                invariants.items(),
                test,
                body,
                turn,
            )?;
            let body = loop_side(
                table,
                outline,
                this,
                scope,
                *place,
                head.test,
                invariants.items(),
                body,
                head.next,
            )?;
            push_end(table, commands, *place, head.test, body)
        }
        Code::Return(value) => {
            push_return(table, commands, value)?;
            Ok(turn)
        }
        Code::Assert(claim) => {
            assert_claim(table, commands, outline.formulas, MarkKind::Assert, claim)?;
            Ok(turn)
        }
        Code::Note(claim) => {
            push_note(table, commands, outline, claim)?;
            Ok(turn)
        }
        Code::Ghost(place, target, _, value) => {
            push_ghost(table, commands, outline.formulas, *place, *target, *value)?;
            Ok(turn)
        }
    }
}
