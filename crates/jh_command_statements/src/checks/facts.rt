#![tactic(auto, using(crate::proofs::checks::StepSteps::step_steps, jh_state_facts::proofs::changes::AddedSteps::added_steps, jh_arena::proofs::table::Listed::growth_steps))]

ghost use Rattle.std.specs.Prelude.{◌≡◌, ◌∷◌, [], true, IfOk, OnOk, Some, slice_get};
ghost use Rattle.jh_form.specs.Tree.{FormulaTree, of_truth};
ghost use Rattle.jh_arena.specs.table.Entries.{is_truth};
ghost use Rattle.jh_arena.specs.table.Growth.{Extends};
ghost use Rattle.jh_arena.specs.table.Nodes.{nodes};
ghost use Rattle.jh_form.specs.declared.mark.MarkKind.TheVariants as kind;
ghost use Rattle.jh_wp.specs.Command as w;
ghost use Rattle.jh_semantics.specs.State.{named};
ghost use Rattle.jh_guard.specs.Steps as steps;
ghost use Rattle.jh_state_facts.specs.changes.Added.{AddsCommands};

use jh_arena::makers::labelled;
use jh_arena::table::Table;
use jh_command_terms::command::Command;
use jh_form::{Mark, MarkKind};
use jh_name::{Name, NoMemory, Place, Row, name};
use std::alloc::Global;

/// The mark of a kind at a place, without a name.
pub fn bare_mark(alloc: Global, kind: MarkKind, place: Place) -> Mark
    ensures { result ≡ steps.mark_without_name kind place }
{
    let from: Vec<Name> = Vec::new(alloc);
    Mark {
        kind,
        place,
        name: None,
        from: Row::of(from),
    }
}

/// The mark of a fact that has the name of a text.
fn fact_mark(alloc: Global, text: &str, place: Place) -> Result<Mark, NoMemory>
    ensures { IfOk result (λ made. made ≡ record { kind = kind.Fact; place = place; name = Some (named text.now); from = [] }) }
{
    let named = name(alloc, text, 0)?;
    let from: Vec<Name> = Vec::new(alloc);
    Ok(Mark {
        kind: MarkKind::Fact,
        place,
        name: Some(named),
        from: Row::of(from),
    })
}

/// Adds that a formula is a fact from there on.
pub fn assume_fact(table: &Table, commands: &mut Vec<Command>, fact: usize) -> Result<(), NoMemory>
    ensures { OnOk result ((f : FormulaTree) → slice_get (nodes table.now) fact ≡ Some (of_truth f) → AddsCommands table.now commands.old.items commands.new.items (w.assume f ∷ [])) }
{
    let _nodes = table.len();
    commands.push(Command::Assume(fact))?;
    Ok(())
}

/// The node of a fact that has the name of a text, at a place.
pub fn named_fact(
    table: &mut Table,
    text: &str,
    place: Place,
    fact: usize,
) -> Result<usize, NoMemory>
    requires { is_truth (slice_get (nodes table.old) fact) ≡ true }
    ensures node { IfOk result (λ made. (f : FormulaTree) → slice_get (nodes table.old) fact ≡ Some (of_truth f) → slice_get (nodes table.new) made ≡ Some (of_truth (steps.named_fact text.now place f))) }
    ensures grows { Extends table.old table.new }
{
    let mark = fact_mark(table.alloc(), text, place)?;
    labelled(table, &mark, fact)
}

/// Adds that a formula is a fact from there on, under the name of a text, at a place.
pub fn assume_named(
    table: &mut Table,
    commands: &mut Vec<Command>,
    text: &str,
    place: Place,
    fact: usize,
) -> Result<(), NoMemory>
    requires { is_truth (slice_get (nodes table.old) fact) ≡ true }
    ensures commands { OnOk result ((f : FormulaTree) → slice_get (nodes table.old) fact ≡ Some (of_truth f) → AddsCommands table.new commands.old.items commands.new.items (steps.assume_named text.now place f ∷ [])) }
    ensures grows { Extends table.old table.new }
{
    let fact = named_fact(table, text, place, fact)?;
    assume_fact(table, commands, fact)
}
