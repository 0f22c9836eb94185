#![tactic(auto, using(crate::proofs::commands::OutlinedSteps::outlined_steps, jh_state_facts::proofs::well_formedness::FactSteps::fact_steps, jh_arena::proofs::table::Listed::growth_steps))]

ghost use Rattle.std.specs.Prelude.{◌≡◌, ◌∷◌, ◌++◌, [], map, option_map, IfOk, OnOk, Some, slice_get};
ghost use Rattle.jh_form.specs.Tree.{of_truth};
ghost use Rattle.jh_arena.specs.table.Entries.{Listing};
ghost use Rattle.jh_arena.specs.table.Growth.{Extends};
ghost use Rattle.jh_arena.specs.table.Nodes.{nodes};
ghost use Rattle.jh_vars.specs.Written.{Callee};
ghost use Rattle.jh_guard.specs.Methods as methods;
ghost use Rattle.jh_semantics.specs.typed_code.Statements.{claim_in, local_in, method_in};
ghost use Rattle.jh_state_facts.specs.well_formedness.States.{local_of};
ghost use Rattle.jh_state_facts.specs.changes.Added.{AddsCommands};
ghost use Rattle.jh_method_commands.specs.commands.Made as made;
ghost use Rattle.jh_method_commands.specs.environment.Outlines.{IsOutline, IsCallable, callee_of, program_in, writes_in, source_of};
ghost use Rattle.jh_method_commands.specs.commands.Sides.{IsCommand};

use crate::commands::forming::formed_node;
use crate::commands::returning::returned_node;
use crate::commands::sides::{push_leave, sequence};
use crate::commands::statements::push_all;
use crate::environment::{Callable, Outline};
use jh_arena::table::Table;
use jh_call_commands::jh_command_statements::checks::{assume_named, formula_node};
use jh_call_commands::jh_command_terms::command::Command;
use jh_call_commands::jh_havoc::push_owed;
use jh_name::NoMemory;
use jh_rules::Ty;
use jh_semantics::typed_code::{Claim, Local, MethodCode};
use jh_state_facts::changes::push_copies;
use jh_state_facts::well_formedness::Known;
use std::alloc::Global;

/// The command of a method, and the node of the formula that has to be true after it and where it is left.
#[derive(Drop)]
pub struct MethodCommand {
    pub body: Command,
    pub returned: usize,
}

/// Adds a parameter.
fn push_param<'a>(scope: &mut Vec<Known<'a>>, param: &'a Local) -> Result<(), NoMemory>
    ensures { OnOk result (map local_of scope.new.items ≡ map local_of scope.old.items ++ local_in param.now ∷ []) }
{
    scope.push(Known {
        text: param.name.text(),
        ty: param.ty,
    })?;
    Ok(())
}

/// The parameters of a method, as the locals that are in scope at its entry.
fn params_of<'a>(alloc: Global, params: &'a [Local]) -> Result<Vec<Known<'a>>, NoMemory>
    ensures { IfOk result (λ made. map local_of made.items ≡ map local_in params.now) }
{
    let mut scope = Vec::new(alloc);
    for param in params {
        push_param(&mut scope, param)?;
    }
    Ok(scope)
}

/// Adds that `requires` is true, where there is one.
fn push_requires(
    table: &mut Table,
    commands: &mut Vec<Command>,
    outline: &Outline<'_>,
    claim: &Option<Claim>,
) -> Result<(), NoMemory>
    requires { made.Outlined table.old outline.now }
    ensures commands { OnOk result (AddsCommands table.new commands.old.items commands.new.items (methods.assume_requires (option_map (claim_in (source_of outline.now)) claim.now))) }
    ensures grows { Extends table.old table.new }
{
    match claim {
        None => Ok(()),
        Some(claim) => {
            let fact = formula_node(table, outline.formulas, claim.number)?;
            assume_named(table, commands, "pre", claim.place, fact)
        }
    }
}

/// Adds that the state is well formed and that `requires` is true.
fn push_known(
    table: &mut Table,
    commands: &mut Vec<Command>,
    outline: &Outline<'_>,
    method: &MethodCode,
    scope: &[Known<'_>],
) -> Result<(), NoMemory>
    requires outline { made.Outlined table.old outline.now }
    requires scope { map local_of scope.now ≡ map local_in method.now.params }
    ensures commands { OnOk result (AddsCommands table.new commands.old.items commands.new.items (made.known_at outline.now (method_in (source_of outline.now) method.now))) }
    ensures grows { Extends table.old table.new }
{
    let formed = formed_node(table, outline, method.this, scope)?;
    assume_named(table, commands, "wf", method.place, formed)?;
    push_requires(table, commands, outline, &method.pre)
}

/// Adds what holds at the entry of a method, and that all state is copied.
fn push_entry(
    table: &mut Table,
    commands: &mut Vec<Command>,
    outline: &Outline<'_>,
    method: &MethodCode,
    scope: &[Known<'_>],
) -> Result<(), NoMemory>
    requires outline { made.Outlined table.old outline.now }
    requires scope { map local_of scope.now ≡ map local_in method.now.params }
    ensures commands { OnOk result ((m : Callee) → AddsCommands table.new commands.old.items commands.new.items (methods.entry_commands (program_in outline.now) (writes_in outline.now) m (method_in (source_of outline.now) method.now))) }
    ensures grows { Extends table.old table.new }
{
    push_known(table, commands, outline, method, scope)?;
    push_owed(
        table,
        commands,
        outline.formulas,
        outline.invariants,
        method,
    )?;
    push_copies(table, commands, outline.state, 1)
}

/// Adds that a void method returns at its end.
fn push_end(commands: &mut Vec<Command>, ty: Ty) -> Result<(), NoMemory>
    ensures { OnOk result ((t : Listing) → AddsCommands t commands.old.items commands.new.items (made.end_of ty)) }
{
    match ty {
        Ty::Void => push_leave(commands),
        Ty::Int => Ok(()),
        Ty::Boolean => Ok(()),
        Ty::Null => Ok(()),
        Ty::Object => Ok(()),
        Ty::Class(_) => Ok(()),
    }
}

/// The command of a method.
fn body_of(
    table: &mut Table,
    outline: &Outline<'_>,
    method: &MethodCode,
) -> Result<Command, NoMemory>
    requires { made.Outlined table.old outline.now }
    ensures command { IfOk result (λ made. (m : Callee) → IsCommand table.new made (methods.method_command (program_in outline.now) (writes_in outline.now) m (method_in (source_of outline.now) method.now)).body) }
    ensures grows { Extends table.old table.new }
{
    let mut scope = params_of(table.alloc(), method.params.items())?;
    let mut commands = Vec::new(table.alloc());
    push_entry(table, &mut commands, outline, method, scope.as_slice())?;
    push_all(
        table,
        &mut commands,
        outline,
        method.this,
        &mut scope,
        method.body.items(),
        2,
    )?;
    push_end(&mut commands, method.result)?;
    Ok(sequence(commands))
}

/// The command of a method, and the node of what has to be true where it returns. What the table held stays in its
/// place, after any answer.
pub fn of_method(
    table: &mut Table,
    outline: &Outline<'_>,
    method: &Callable<'_>,
) -> Result<MethodCommand, NoMemory>
    requires outline { IsOutline table.old outline.now }
    requires method { IsCallable outline.now method.now }
    ensures body { IfOk result (λ made. IsCommand table.new made.body (methods.method_command (program_in outline.now) (writes_in outline.now) (callee_of method.now) (method_in (source_of outline.now) method.now.code.now)).body) }
    ensures returned { IfOk result (λ made. slice_get (nodes table.new) made.returned ≡ Some (of_truth (methods.method_command (program_in outline.now) (writes_in outline.now) (callee_of method.now) (method_in (source_of outline.now) method.now.code.now)).returned)) }
    ensures grows { Extends table.old table.new }
{
    let body = body_of(table, outline, method.code)?;
    let returned = returned_node(table, outline, method)?;
    Ok(MethodCommand { body, returned })
}
