#![tactic(auto, using(crate::proofs::StopSteps::stop_steps, jh_arena::proofs::table::Listed::growth_steps))]

ghost use Rattle.std.specs.Prelude.{◌≡◌, ◌∷◌, ◌++◌, [], map, if◌then◌else◌, OnOk};
ghost use Rattle.jh_ast.specs.Programs.{ProgramTree};
ghost use Rattle.jh_form.specs.declared.mark.MarkKind.TheVariants as kind;
ghost use Rattle.jh_arena.specs.table.Growth.{Extends};
ghost use Rattle.jh_wp.specs.Command as w;
ghost use Rattle.jh_semantics.specs.Program.{Program};
ghost use Rattle.jh_semantics.specs.Entry as entry;
ghost use Rattle.jh_command_statements.specs.jh_guard.Steps as steps;
ghost use Rattle.jh_semantics.specs.typed_code.Statements.{claim_in, method_in};
ghost use Rattle.jh_state_facts.specs.changes.Added.{AddsCommands};
ghost use Rattle.jh_command_statements.specs.checks.Told.{AreFormulas};

use jh_arena::table::Table;
use jh_command_statements::checks::{assert_claims, assume_claims};
use jh_command_statements::jh_command_terms::command::Command;
use jh_form::MarkKind;
use jh_name::NoMemory;
use jh_semantics::typed_code::{Claim, MethodCode};

/// The invariants that a method is owed and owes: all for a public one, none for another.
pub fn owed(invariants: &[Claim], is_public: bool) -> &[Claim]
    ensures { result.now ≡ (if is_public then invariants.now else []) }
{
    if is_public { invariants } else { &[] }
}

/// Adds that the invariants that a method is owed are facts: those of the source, whose formulas are told by their
/// numbers.
pub fn push_owed(
    table: &mut Table,
    commands: &mut Vec<Command>,
    formulas: &[Option<usize>],
    invariants: &[Claim],
    method: &MethodCode,
) -> Result<(), NoMemory>
    ensures commands { OnOk result ((p : ProgramTree) (g : Program) → AreFormulas p table.old formulas.now → g.invariants ≡ map (claim_in p) invariants.now → AddsCommands table.new commands.old.items commands.new.items (steps.assume_claims (entry.owed g (method_in p method.now)))) }
    ensures grows { Extends table.old table.new }
{
    assume_claims(
        table,
        commands,
        formulas,
        owed(invariants, method.is_public),
    )
}

/// Adds that no run goes on.
fn push_stop(commands: &mut Vec<Command>) -> Result<(), NoMemory>
    ensures { OnOk result ((t : _) → AddsCommands t commands.old.items commands.new.items (w.stop ∷ [])) }
{
    commands.push(Command::Stop)?;
    Ok(())
}

/// Adds what comes behind the body of a loop: its invariants are asserted, and no run goes on.
pub fn push_kept(
    table: &mut Table,
    commands: &mut Vec<Command>,
    formulas: &[Option<usize>],
    invariants: &[Claim],
) -> Result<(), NoMemory>
    ensures commands { OnOk result ((p : ProgramTree) → AreFormulas p table.old formulas.now → AddsCommands table.new commands.old.items commands.new.items (steps.assert_claims kind.LoopKept (map (claim_in p) invariants.now) ++ w.stop ∷ [])) }
    ensures grows { Extends table.old table.new }
{
    assert_claims(table, commands, formulas, MarkKind::LoopKept, invariants)?;
    push_stop(commands)
}
