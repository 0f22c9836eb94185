ghost use Rattle.std.specs.Prelude.{◌≡◌, ◌∷◌, ◌⊎◌, ℕ, List, Option, is_some, OnOk, IfErr};
ghost use Rattle.jh_name.specs.declared.place.Place.{Place};
ghost use Rattle.jh_vars.specs.Written.{Callee};
ghost use Rattle.jh_semantics.specs.Code.{Stmt, Stmts};
ghost use Rattle.jh_semantics.specs.Code as c;
ghost use Rattle.jh_semantics.specs.Program.{Program};
ghost use Rattle.jh_semantics.specs.State.{State};
ghost use Rattle.jh_semantics.specs.Progress.{goes_on};
ghost use Rattle.jh_operands.specs.Exprs.{truth_in, TruthFits};
ghost use Rattle.jh_machine_code.specs.code.Steps.{IsStep, AreSteps};
ghost use Rattle.jh_machine.specs.declared.continuation.stop.Stop.TheVariants as stop;
ghost use Rattle.jh_machine.specs.continuation.Todos.{Todo, one, turn, resume, StackOverflows, EndsAs};
ghost use Rattle.jh_machine.specs.continuation.Done.{done, Else};
ghost use Rattle.jh_machine.specs.declared.machine.prepared.Prepared.{Prepared};
ghost use Rattle.jh_machine.specs.machine.Machines.{stands, WasPaid};
ghost use Rattle.jh_exec.specs.declared.frames.frames.Way.TheVariants as way;
ghost use Rattle.jh_exec.specs.frames.Frames.{IsRun, Stands};

use crate::frames::{Frame, Work, push};
use jh_machine::continuation::{Stop, runs_are_resumed};
use jh_machine::machine::{Machine, pay};
use jh_machine_code::code::Step;
use jh_operands::{TruthExpr, truth_value};
use jh_semantics::loops_are_turns;

/// A branch: the first part is to be done where the condition is true, and else the second.
pub(crate) fn branch<'a>(
    machine: &Machine<'a>,
    frames: &mut Vec<Frame<'a>>,
    test: &TruthExpr,
    first: &'a Step,
    second: &'a [Step],
) -> Result<(), Stop>
    ensures on { (prepared : Prepared) → (p : Program) → (numbered : Callee → Option ℕ) → (s : State) → (ks : List Todo) → (q : Place) → (a : Stmt) → (b : Stmts) → IsRun p numbered prepared machine.entry.now.now.names machine.entry.now.now.last machine.entry.now.entry frames.old.items s ks → TruthFits machine.entry.now.now.names test.now → IsStep machine.entry.now.now.names prepared.table.now numbered (is_some machine.entry.now.entry) first.now a → AreSteps machine.entry.now.now.names prepared.table.now numbered (is_some machine.entry.now.entry) second.now b → OnOk result (Stands p numbered prepared machine.entry.now frames.new.items way.On (resume p ks (done p (c.branch q (truth_in machine.entry.now.now.names test.now) a b) (stands machine.entry.now s))) (Else p (c.branch q (truth_in machine.entry.now.now.names test.now) a b) (stands machine.entry.now s) ks)) }
    ensures stop { (p : Program) → (s : State) → (ks : List Todo) → (q : Place) → (a : Stmt) → (b : Stmts) → TruthFits machine.entry.now.now.names test.now → IfErr result (EndsAs (resume p ks (done p (c.branch q (truth_in machine.entry.now.now.names test.now) a b) (stands machine.entry.now s))) (Else p (c.branch q (truth_in machine.entry.now.now.names test.now) a b) (stands machine.entry.now s) ks)) }
{
    runs_are_resumed();
    let is_true = truth_value(&machine.now, test)?;
    if is_true {
        push(frames, Frame::Work(Work::One(first)))
    } else {
        push(frames, Frame::Work(Work::Rest(second)))
    }
}

/// A turn of a loop pays; then its body is to be done, and then the loop again.
fn again<'a>(
    machine: &mut Machine<'a>,
    frames: &mut Vec<Frame<'a>>,
    test: &'a TruthExpr,
    body: &'a Step,
) -> Result<(), Stop>
    ensures paid { OnOk result (WasPaid machine.old machine.new) }
    ensures run { (prepared : Prepared) → (p : Program) → (numbered : Callee → Option ℕ) → (s : State) → (ks : List Todo) → (a : Stmt) → IsRun p numbered prepared machine.old.now.names machine.old.now.last machine.old.entry frames.old.items s ks → TruthFits machine.old.now.names test.now → IsStep machine.old.now.names prepared.table.now numbered (is_some machine.old.entry) body.now a → OnOk result (IsRun p numbered prepared machine.new.now.names machine.new.now.last machine.new.entry frames.new.items s (one a ∷ turn (truth_in machine.old.now.names test.now) a ∷ ks)) }
    ensures stop { IfErr result (λ why. (why ≡ stop.Memory) ⊎ ((why ≡ stop.StepsOut) × (machine.old.steps ≡ 0))) }
{
    pay(machine)?;
    push(frames, Frame::Work(Work::Turn(test, body)))?;
    push(frames, Frame::Work(Work::One(body)))
}

/// A loop from its condition on.
pub(crate) fn turn<'a>(
    machine: &mut Machine<'a>,
    frames: &mut Vec<Frame<'a>>,
    test: &'a TruthExpr,
    body: &'a Step,
) -> Result<(), Stop>
    ensures on { (prepared : Prepared) → (p : Program) → (numbered : Callee → Option ℕ) → (s : State) → (ks : List Todo) → (a : Stmt) → IsRun p numbered prepared machine.old.now.names machine.old.now.last machine.old.entry frames.old.items s ks → TruthFits machine.old.now.names test.now → IsStep machine.old.now.names prepared.table.now numbered (is_some machine.old.entry) body.now a → OnOk result (Stands p numbered prepared machine.new frames.new.items way.On (resume p (turn (truth_in machine.old.now.names test.now) a ∷ ks) (goes_on (stands machine.old s))) (λ q. StackOverflows p q (turn (truth_in machine.old.now.names test.now) a ∷ ks) (goes_on (stands machine.old s)))) }
    ensures stop { (p : Program) → (s : State) → (ks : List Todo) → (a : Stmt) → TruthFits machine.old.now.names test.now → IfErr result (EndsAs (resume p (turn (truth_in machine.old.now.names test.now) a ∷ ks) (goes_on (stands machine.old s))) (λ q. StackOverflows p q (turn (truth_in machine.old.now.names test.now) a ∷ ks) (goes_on (stands machine.old s)))) }
{
    runs_are_resumed();
    loops_are_turns();
    let is_true = truth_value(&machine.now, test)?;
    if is_true {
        again(machine, frames, test, body)
    } else {
        Ok(())
    }
}
