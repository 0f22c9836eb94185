ghost use Rattle.std.specs.Prelude.{◌∷◌, ◌++◌, ℕ, [], List, Option, is_some, IfOk, IfErr};
ghost use Rattle.jh_vars.specs.Written.{Callee};
ghost use Rattle.jh_semantics.specs.Program.{Program};
ghost use Rattle.jh_semantics.specs.State.{State};
ghost use Rattle.jh_semantics.specs.Progress.{goes_on};
ghost use Rattle.jh_machine.specs.continuation.Todos.{Todo, resume, StackOverflows, EndsAs};
ghost use Rattle.jh_machine.specs.machine.Machines.{Sees, stands};
ghost use Rattle.jh_exec.specs.frames.Frames.{IsRun, Stands, WorkIs, WayInside, progress};

use crate::frames::{Frame, Way, Work, leave};
use crate::interpreter::branching::turn;
use crate::interpreter::statements::{one, rest};
use jh_machine::continuation::{Stop, runs_are_resumed};
use jh_machine::machine::{Machine, Prepared};

/// What is to be done in a method, where all before it went on.
fn work<'a>(
    prepared: &Prepared<'a>,
    machine: &mut Machine<'a>,
    frames: &mut Vec<Frame<'a>>,
    work: Work<'a>,
) -> Result<Way, Stop>
    requires { Sees prepared.now machine.old }
    ensures on { (p : Program) → (numbered : Callee → Option ℕ) → (s : State) → (ks : List Todo) → (k : Todo) → IsRun p numbered prepared.now machine.old.now.names machine.old.now.last machine.old.entry frames.old.items s ks → WorkIs machine.old.now.names machine.old.now.last prepared.now numbered (is_some machine.old.entry) work.entry k → IfOk result (λ w. Stands p numbered prepared.now machine.new frames.new.items w (resume p (k ∷ ks) (goes_on (stands machine.old s))) (λ q. StackOverflows p q (k ∷ ks) (goes_on (stands machine.old s)))) }
    ensures stop { (p : Program) → (numbered : Callee → Option ℕ) → (s : State) → (ks : List Todo) → (k : Todo) → IsRun p numbered prepared.now machine.old.now.names machine.old.now.last machine.old.entry frames.old.items s ks → WorkIs machine.old.now.names machine.old.now.last prepared.now numbered (is_some machine.old.entry) work.entry k → IfErr result (EndsAs (resume p (k ∷ ks) (goes_on (stands machine.old s))) (λ q. StackOverflows p q (k ∷ ks) (goes_on (stands machine.old s)))) }
{
    match work {
        Work::Rest(steps) => rest(prepared, machine, frames, steps),
        Work::One(step) => one(prepared, machine, frames, step),
        Work::Turn(test, body) => {
            turn(machine, frames, test, body)?;
            Ok(Way::On)
        }
    }
}

/// One thing that is to be done, behind what led some way. What returns leaves out all that is to be done in its method.
pub(crate) fn advance<'a>(
    prepared: &Prepared<'a>,
    machine: &mut Machine<'a>,
    frames: &mut Vec<Frame<'a>>,
    frame: Frame<'a>,
    way: Way,
) -> Result<Way, Stop>
    requires { Sees prepared.now machine.old }
    ensures on { (p : Program) → (numbered : Callee → Option ℕ) → (s : State) → (ks : List Todo) → IsRun p numbered prepared.now machine.old.now.names machine.old.now.last machine.old.entry (frames.old.items ++ frame.entry ∷ []) s ks → WayInside machine.old.now.last way → IfOk result (λ w. Stands p numbered prepared.now machine.new frames.new.items w (resume p ks (progress way (stands machine.old s))) (λ q. StackOverflows p q ks (progress way (stands machine.old s)))) }
    ensures stop { (p : Program) → (numbered : Callee → Option ℕ) → (s : State) → (ks : List Todo) → IsRun p numbered prepared.now machine.old.now.names machine.old.now.last machine.old.entry (frames.old.items ++ frame.entry ∷ []) s ks → IfErr result (EndsAs (resume p ks (progress way (stands machine.old s))) (λ q. StackOverflows p q ks (progress way (stands machine.old s)))) }
{
    runs_are_resumed();
    match frame {
        Frame::Back(back) => {
            leave(prepared, machine, back, way)?;
            Ok(Way::On)
        }
        Frame::Work(next) => match way {
            Way::On => work(prepared, machine, frames, next),
            Way::Return(value) => Ok(Way::Return(value)),
        },
    }
}
