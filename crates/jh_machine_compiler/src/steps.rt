#![tactic(auto, using(crate::proofs::StepSteps::step_steps))]

ghost use Rattle.std.specs.Prelude.{◌≡◌, ◌∷◌, ◌++◌, [], true, IfOk, OnOk};
ghost use Rattle.jh_ast.specs.Programs.{ProgramTree};
ghost use Rattle.jh_arena.specs.table.Growth.{Grows, Extends};
ghost use Rattle.jh_semantics.specs.typed_code.Statements.{code_in, codes_in};
ghost use Rattle.jh_command_statements.specs.checks.Told.{AreFormulas};
ghost use Rattle.jh_machine_compiler.specs.Lasting.{Makes, MakesAll};
ghost use Rattle.jh_machine_compiler.specs.Sources.{numbered_in};

use crate::calls::call_step;
use crate::formulas::ask_step;
use crate::ghosts::ghost_step;
use crate::simple::{assign_step, new_step, return_step};
use crate::source::Source;
use jh_arena::table::Table;
use jh_machine_code::code::Step;
use jh_machine_code::numbering::truth_expr;
use jh_name::{NoMemory, Row};
use jh_semantics::typed_code::Code;
use jh_store::memory::Names;
use std::alloc::Global;

/// A step in a box. What can't be boxed, or added, is dropped here alone, which keeps the proofs of what makes it short.
fn in_box(alloc: Global, step: Step) -> Result<Box<Step>, NoMemory>
    ensures ok { IfOk result (λ boxed. boxed.value ≡ step) }
{
    Ok(Box::new(alloc, step)?)
}

/// Adds a step.
fn push_step(made: &mut Vec<Step>, step: Step) -> Result<(), NoMemory>
    ensures items { OnOk result (made.new.items ≡ made.old.items ++ step ∷ []) }
{
    made.push(step)?;
    Ok(())
}

/// The steps of statements, one after another.
#[cycle(step_of)]
pub(crate) fn steps_of(
    alloc: Global,
    source: &Source<'_>,
    names: &mut Names,
    table: &mut Table,
    codes: &[Code],
) -> Result<Row<Step>, NoMemory>
    ensures are { IfOk result (λ made. (p : ProgramTree) → AreFormulas p table.old source.now.formulas.now → MakesAll (numbered_in source.now) true names.new table.new (codes_in p codes.now) made) }
    ensures names { Grows names.old names.new }
    ensures table { Extends table.old table.new }
{
    let mut made = Vec::new(alloc);
    for code in codes {
        let step = step_of(alloc, source, names, table, code)?;
        push_step(&mut made, step)?;
    }
    Ok(Row::of(made))
}

/// The step of a statement.
#[cycle(step_of)]
fn step_of(
    alloc: Global,
    source: &Source<'_>,
    names: &mut Names,
    table: &mut Table,
    code: &Code,
) -> Result<Step, NoMemory>
    ensures is { IfOk result (λ made. (p : ProgramTree) → AreFormulas p table.old source.now.formulas.now → Makes (numbered_in source.now) true names.new table.new (code_in p code.now) made) }
    ensures names { Grows names.old names.new }
    ensures table { Extends table.old table.new }
{
    match code {
        Code::Empty => Ok(Step::Empty),
        Code::Block(codes) => {
            let steps = steps_of(alloc, source, names, table, codes.items())?;
            Ok(Step::Block(steps))
        }
        Code::Assign(target, value) => assign_step(alloc, names, target, value),
        Code::New(place, target, class) => new_step(alloc, names, *place, target, class),
        Code::Call(call) => call_step(alloc, source, names, call),
        Code::Branch(_, test, first, second) => {
            let first = step_of(alloc, source, names, table, first)?;
            let first = in_box(alloc, first)?;
            let second = steps_of(alloc, source, names, table, second.items())?;
            let test = truth_expr(alloc, names, test)?;
            Ok(Step::Branch(test, first, second))
        }
        Code::Loop(_, _, test, body) => {
            let body = step_of(alloc, source, names, table, body)?;
            let body = in_box(alloc, body)?;
            let test = truth_expr(alloc, names, test)?;
            Ok(Step::Loop(test, body))
        }
        Code::Return(value) => return_step(alloc, names, value),
        Code::Assert(claim) => ask_step(table, source.formulas, claim),
        Code::Note(claim) => ask_step(table, source.formulas, claim),
        Code::Ghost(left_place, left, place, value) => ghost_step(
            alloc,
            names,
            table,
            source.formulas,
            (*left_place, *left),
            (*place, *value),
        ),
    }
}
