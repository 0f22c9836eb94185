ghost use Rattle.std.specs.Prelude.{◌≡◌, ◌∷◌, ℕ, Bool, false, List, Option, is_some, option_map, OnOk, IfOk, IfErr};
ghost use Rattle.jh_arena.specs.table.Entries.{Listing};
ghost use Rattle.jh_vars.specs.Written.{Callee};
ghost use Rattle.jh_semantics.specs.Code.{Stmt, Stmts};
ghost use Rattle.jh_semantics.specs.Program.{Program};
ghost use Rattle.jh_semantics.specs.State.{State};
ghost use Rattle.jh_semantics.specs.Progress.{Configuration, goes_on, returns};
ghost use Rattle.jh_store.specs.memory.Held.{state_of};
ghost use Rattle.jh_operands.specs.Scalars.{datum_of};
ghost use Rattle.jh_machine_code.specs.code.Steps.{IsStep, AreSteps, ReturnIs};
ghost use Rattle.jh_machine.specs.continuation.Stops.{StopsAs};
ghost use Rattle.jh_machine.specs.continuation.Overflows.{OwnOverflows};
ghost use Rattle.jh_machine.specs.continuation.Todos.{Todo, rest, one, resume, StackOverflows, EndsAs};
ghost use Rattle.jh_machine.specs.continuation.Done.{done, Else};
ghost use Rattle.jh_machine.specs.machine.Machines.{Sees, stands};
ghost use Rattle.jh_exec.specs.declared.frames.frames.Way.TheVariants as way;
ghost use Rattle.jh_exec.specs.frames.Frames.{IsRun, Stands, WayInside};
ghost use Rattle.jh_exec.specs.interpreter.Returns.{is_return};

use crate::frames::{Frame, Way, Work, call, push};
use crate::interpreter::branching::branch;
use jh_machine::continuation::{Stop, runs_are_resumed};
use jh_machine::machine::{Machine, Prepared, ask, ghost_at, ghost_step, make, pay};
use jh_machine::writes::assign;
use jh_machine_code::code::Step;
use jh_operands::{AnyExpr, Scalar, any_value};
use jh_store::memory::Memory;

/// The value that a method returns.
fn returned(memory: &Memory<'_>, code: &Option<AnyExpr>) -> Result<Option<Scalar>, Stop>
    ensures on { (p : Program) → (a : Stmt) → (r : Configuration) → (t : Listing) → (numbered : Callee → Option ℕ) → (keeps : Bool) → ReturnIs memory.now.names t numbered keeps code.now a → r.now ≡ state_of memory.now → IfOk result (λ v. done p a r ≡ returns r (option_map datum_of v)) }
    ensures inside { IfOk result (λ v. WayInside memory.now.last (way.Return v)) }
    ensures stop { (p : Program) → (a : Stmt) → (r : Configuration) → (t : Listing) → (numbered : Callee → Option ℕ) → (keeps : Bool) → ReturnIs memory.now.names t numbered keeps code.now a → r.now ≡ state_of memory.now → IfErr result (StopsAs (done p a r) (λ q. OwnOverflows q a r)) }
{
    match code {
        None => Ok(None),
        Some(code) => {
            let value = any_value(memory, code)?;
            Ok(Some(value))
        }
    }
}

/// A statement that was paid, and returns nothing.
fn paid<'a>(
    prepared: &Prepared<'a>,
    machine: &mut Machine<'a>,
    frames: &mut Vec<Frame<'a>>,
    step: &'a Step,
) -> Result<(), Stop>
    requires sees { Sees prepared.now machine.old }
    requires not_return { is_return step.now ≡ false }
    ensures on { (p : Program) → (numbered : Callee → Option ℕ) → (s : State) → (ks : List Todo) → (a : Stmt) → IsRun p numbered prepared.now machine.old.now.names machine.old.now.last machine.old.entry frames.old.items s ks → IsStep machine.old.now.names prepared.now.table.now numbered (is_some machine.old.entry) step.now a → OnOk result (Stands p numbered prepared.now machine.new frames.new.items way.On (resume p ks (done p a (stands machine.old s))) (Else p a (stands machine.old s) ks)) }
    ensures stop { (p : Program) → (numbered : Callee → Option ℕ) → (s : State) → (ks : List Todo) → (a : Stmt) → IsRun p numbered prepared.now machine.old.now.names machine.old.now.last machine.old.entry frames.old.items s ks → IsStep machine.old.now.names prepared.now.table.now numbered (is_some machine.old.entry) step.now a → IfErr result (EndsAs (resume p ks (done p a (stands machine.old s))) (Else p a (stands machine.old s) ks)) }
{
    runs_are_resumed();
    match step {
        Step::Empty => Ok(()),
        Step::Block(steps) => push(frames, Frame::Work(Work::Rest(steps.items()))),
        Step::Assign(destination, code) => assign(&mut machine.now, destination, code),
        Step::New(place, destination, class) => {
            make(prepared, machine, *place, destination, *class)
        }
        Step::Call(step) => call(prepared, machine, frames, step),
        Step::Branch(test, first, second) => branch(machine, frames, test, first, second.items()),
        Step::Loop(test, body) => push(frames, Frame::Work(Work::Turn(test, body))),
        Step::Return(_) => Ok(()),
        Step::Ask(place, node) => ask(prepared, machine, *place, *node),
        Step::Ghost(name, place, node) => ghost_step(prepared, machine, *name, *place, *node),
        Step::GhostAt(to) => ghost_at(prepared, machine, *to),
    }
}

/// A statement: it pays, and does what it says.
pub(crate) fn one<'a>(
    prepared: &Prepared<'a>,
    machine: &mut Machine<'a>,
    frames: &mut Vec<Frame<'a>>,
    step: &'a Step,
) -> Result<Way, Stop>
    requires { Sees prepared.now machine.old }
    ensures on { (p : Program) → (numbered : Callee → Option ℕ) → (s : State) → (ks : List Todo) → (a : Stmt) → IsRun p numbered prepared.now machine.old.now.names machine.old.now.last machine.old.entry frames.old.items s ks → IsStep machine.old.now.names prepared.now.table.now numbered (is_some machine.old.entry) step.now a → IfOk result (λ w. Stands p numbered prepared.now machine.new frames.new.items w (resume p (one a ∷ ks) (goes_on (stands machine.old s))) (λ q. StackOverflows p q (one a ∷ ks) (goes_on (stands machine.old s)))) }
    ensures stop { (p : Program) → (numbered : Callee → Option ℕ) → (s : State) → (ks : List Todo) → (a : Stmt) → IsRun p numbered prepared.now machine.old.now.names machine.old.now.last machine.old.entry frames.old.items s ks → IsStep machine.old.now.names prepared.now.table.now numbered (is_some machine.old.entry) step.now a → IfErr result (EndsAs (resume p (one a ∷ ks) (goes_on (stands machine.old s))) (λ q. StackOverflows p q (one a ∷ ks) (goes_on (stands machine.old s)))) }
{
    runs_are_resumed();
    pay(machine)?;
    if let Step::Return(code) = step {
        let value = returned(&machine.now, code)?;
        return Ok(Way::Return(value));
    }
    paid(prepared, machine, frames, step)?;
    Ok(Way::On)
}

/// A list of statements: the first one, and then the rest is to be done.
pub(crate) fn rest<'a>(
    prepared: &Prepared<'a>,
    machine: &mut Machine<'a>,
    frames: &mut Vec<Frame<'a>>,
    steps: &'a [Step],
) -> Result<Way, Stop>
    requires { Sees prepared.now machine.old }
    ensures on { (p : Program) → (numbered : Callee → Option ℕ) → (s : State) → (ks : List Todo) → (ss : Stmts) → IsRun p numbered prepared.now machine.old.now.names machine.old.now.last machine.old.entry frames.old.items s ks → AreSteps machine.old.now.names prepared.now.table.now numbered (is_some machine.old.entry) steps.now ss → IfOk result (λ w. Stands p numbered prepared.now machine.new frames.new.items w (resume p (rest ss ∷ ks) (goes_on (stands machine.old s))) (λ q. StackOverflows p q (rest ss ∷ ks) (goes_on (stands machine.old s)))) }
    ensures stop { (p : Program) → (numbered : Callee → Option ℕ) → (s : State) → (ks : List Todo) → (ss : Stmts) → IsRun p numbered prepared.now machine.old.now.names machine.old.now.last machine.old.entry frames.old.items s ks → AreSteps machine.old.now.names prepared.now.table.now numbered (is_some machine.old.entry) steps.now ss → IfErr result (EndsAs (resume p (rest ss ∷ ks) (goes_on (stands machine.old s))) (λ q. StackOverflows p q (rest ss ∷ ks) (goes_on (stands machine.old s)))) }
{
    runs_are_resumed();
    match steps {
        [] => Ok(Way::On),
        [first, more @ ..] => {
            push(frames, Frame::Work(Work::Rest(more)))?;
            one(prepared, machine, frames, first)
        }
    }
}
