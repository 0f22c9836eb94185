#![tactic(auto, using(crate::proofs::checks::StepSteps::step_steps, jh_state_facts::proofs::changes::AddedSteps::added_steps, jh_arena::proofs::table::Listed::growth_steps))]

ghost use Rattle.std.specs.Prelude.{◌≡◌, ◌∷◌, [], true, map, IfOk, OnOk, Some, slice_get};
ghost use Rattle.std.specs.Option.{option_map_or};
ghost use Rattle.jh_ast.specs.Programs.{ProgramTree};
ghost use Rattle.jh_form.specs.declared.mark.MarkKind.TheVariants as kind;
ghost use Rattle.jh_form.specs.Tree.{FormulaTree, of_truth};
ghost use Rattle.jh_form.specs.Tree as t;
ghost use Rattle.jh_arena.specs.table.Entries.{is_truth};
ghost use Rattle.jh_arena.specs.table.Growth.{Extends};
ghost use Rattle.jh_arena.specs.table.Nodes.{nodes};
ghost use Rattle.jh_wp.specs.Command as w;
ghost use Rattle.jh_guard.specs.Steps as steps;
ghost use Rattle.jh_semantics.specs.typed_code.Statements.{claim_in};
ghost use Rattle.jh_state_facts.specs.changes.Added.{AddsCommands};
ghost use Rattle.jh_command_statements.specs.checks.Told.{AreFormulas};

use crate::checks::checks::assert_marked;
use crate::checks::facts::assume_fact;
use crate::checks::formulas::formula_node;
use jh_arena::makers::labelled;
use jh_arena::table::Table;
use jh_boxed::copy_names;
use jh_command_terms::command::Command;
use jh_form::{Mark, MarkKind};
use jh_name::{Name, NoMemory, Place, Row};
use jh_semantics::typed_code::Claim;
use std::alloc::Global;

fn copied_name(alloc: Global, name: &Option<Name>) -> Result<Option<Name>, NoMemory>
    ensures { IfOk result (λ made. made ≡ name.now) }
{
    match name {
        None => Ok(None),
        Some(name) => {
            let copied = name.copy(alloc)?;
            Ok(Some(copied))
        }
    }
}

/// The mark of a formula of the source, with its label and the names of the facts that it follows from.
pub fn claim_mark(alloc: Global, kind: MarkKind, claim: &Claim) -> Result<Mark, NoMemory>
    ensures { IfOk result (λ made. made ≡ record { kind = kind; place = claim.now.place; name = claim.now.label; from = claim.now.from }) }
{
    let from = copy_names(alloc, claim.from.items())?;
    let name = copied_name(alloc, &claim.label)?;
    Ok(Mark {
        kind,
        place: claim.place,
        name,
        from: Row::of(from),
    })
}

/// Adds that a formula of the source is asserted under its label.
pub fn assert_claim(
    table: &mut Table,
    commands: &mut Vec<Command>,
    formulas: &[Option<usize>],
    kind: MarkKind,
    claim: &Claim,
) -> Result<(), NoMemory>
    ensures commands { OnOk result ((p : ProgramTree) → AreFormulas p table.old formulas.now → AddsCommands table.new commands.old.items commands.new.items (steps.assert_claim kind (claim_in p claim.now) ∷ [])) }
    ensures grows { Extends table.old table.new }
{
    let goal = formula_node(table, formulas, claim.number)?;
    let mark = claim_mark(table.alloc(), kind, claim)?;
    assert_marked(table, commands, &mark, goal)
}

/// Adds that formulas of the source are asserted under their labels, one after another.
pub fn assert_claims(
    table: &mut Table,
    commands: &mut Vec<Command>,
    formulas: &[Option<usize>],
    kind: MarkKind,
    claims: &[Claim],
) -> Result<(), NoMemory>
    ensures commands { OnOk result ((p : ProgramTree) → AreFormulas p table.old formulas.now → AddsCommands table.new commands.old.items commands.new.items (steps.assert_claims kind (map (claim_in p) claims.now))) }
    ensures grows { Extends table.old table.new }
{
    for place in 0..claims.len() {
        assert_claim(table, commands, formulas, kind, &claims[place])?;
    }
    Ok(())
}

/// The node of a fact under the label of a text of the source, or of the fact itself where there is none.
fn labelled_fact(
    table: &mut Table,
    label: &Option<Name>,
    place: Place,
    fact: usize,
) -> Result<usize, NoMemory>
    requires { is_truth (slice_get (nodes table.old) fact) ≡ true }
    ensures node { IfOk result (λ made. (f : FormulaTree) → slice_get (nodes table.old) fact ≡ Some (of_truth f) → slice_get (nodes table.new) made ≡ Some (of_truth (option_map_or (λ x. t.mark (record { kind = kind.Fact; place = place; name = Some x; from = [] }) f) label.now f))) }
    ensures grows { Extends table.old table.new }
{
    match label {
        None => Ok(fact),
        Some(name) => {
            let mark = label_mark(table.alloc(), name, place)?;
            labelled(table, &mark, fact)
        }
    }
}

/// The mark of a fact that has this name.
fn label_mark(alloc: Global, name: &Name, place: Place) -> Result<Mark, NoMemory>
    ensures { IfOk result (λ made. made ≡ record { kind = kind.Fact; place = place; name = Some name.now; from = [] }) }
{
    let copied = name.copy(alloc)?;
    let from: Vec<Name> = Vec::new(alloc);
    Ok(Mark {
        kind: MarkKind::Fact,
        place,
        name: Some(copied),
        from: Row::of(from),
    })
}

/// Adds that a formula of the source is a fact from there on, under its label where it has one.
pub fn assume_claim(
    table: &mut Table,
    commands: &mut Vec<Command>,
    formulas: &[Option<usize>],
    claim: &Claim,
) -> Result<(), NoMemory>
    ensures commands { OnOk result ((p : ProgramTree) → AreFormulas p table.old formulas.now → AddsCommands table.new commands.old.items commands.new.items (w.assume (steps.claim_fact (claim_in p claim.now)) ∷ [])) }
    ensures grows { Extends table.old table.new }
{
    let fact = formula_node(table, formulas, claim.number)?;
    let fact = labelled_fact(table, &claim.label, claim.place, fact)?;
    assume_fact(table, commands, fact)
}

/// Adds that formulas of the source are facts from there on, one after another.
pub fn assume_claims(
    table: &mut Table,
    commands: &mut Vec<Command>,
    formulas: &[Option<usize>],
    claims: &[Claim],
) -> Result<(), NoMemory>
    ensures commands { OnOk result ((p : ProgramTree) → AreFormulas p table.old formulas.now → AddsCommands table.new commands.old.items commands.new.items (steps.assume_claims (map (claim_in p) claims.now))) }
    ensures grows { Extends table.old table.new }
{
    for place in 0..claims.len() {
        assume_claim(table, commands, formulas, &claims[place])?;
    }
    Ok(())
}
