ghost use Rattle.std.specs.Prelude.{◌≡◌, ◌∷◌, ℕ, List, Option, is_some, OnOk, IfErr};
ghost use Rattle.jh_vars.specs.Written.{Callee};
ghost use Rattle.jh_semantics.specs.Code.{Target, Stmt};
ghost use Rattle.jh_semantics.specs.Program.{Program};
ghost use Rattle.jh_semantics.specs.State.{State};
ghost use Rattle.jh_machine_code.specs.code.Destinations.{IsTarget};
ghost use Rattle.jh_machine_code.specs.code.Steps.{IsCall};
ghost use Rattle.jh_machine.specs.declared.continuation.stop.Stop.TheVariants as stop;
ghost use Rattle.jh_machine.specs.continuation.Todos.{Todo, return_to, resume, EndsAs};
ghost use Rattle.jh_machine.specs.continuation.Done.{done, Else};
ghost use Rattle.jh_machine.specs.machine.Machines.{EntryIs, stands};
ghost use Rattle.jh_exec.specs.declared.frames.frames.Way.TheVariants as way;
ghost use Rattle.jh_exec.specs.frames.Frames.{IsRun, IsWaiting, Stands};

use crate::frames::entering::enter;
use crate::frames::frames::{Back, Frame, push};
use crate::frames::receiving::call_values;
use jh_machine::continuation::Stop;
use jh_machine::locals::save;
use jh_machine::machine::{Machine, Prepared};
use jh_machine_code::code::CallStep;

/// The caller waits for the end of a call.
fn wait_for<'a>(
    prepared: &Prepared<'a>,
    machine: &mut Machine<'a>,
    frames: &mut Vec<Frame<'a>>,
    step: &'a CallStep,
    object: u32,
) -> Result<(), Stop>
    ensures rest { OnOk result (machine.new ≡ record machine.old { entry = machine.new.entry }) }
    ensures entry { (s : State) → OnOk result (EntryIs machine.new.now.names machine.new.now.last machine.new.entry s) }
    ensures waits { (p : Program) → (numbered : Callee → Option ℕ) → (s : State) → (ks : List Todo) → (t : Target) → IsRun p numbered prepared.now machine.old.now.names machine.old.now.last machine.old.entry frames.old.items s ks → IsTarget machine.old.now.names step.now.destination t → OnOk result (IsWaiting p numbered prepared.now machine.new.now.names machine.new.now.last frames.new.items (return_to (stands machine.old s) t object ∷ ks)) }
    ensures stop { IfErr result (λ why. why ≡ stop.Memory) }
{
    let saved = save(machine.alloc, &machine.now, prepared.locals)?;
    let entry = machine.entry.take();
    push(
        frames,
        Frame::Back(Back {
            destination: &step.destination,
            object,
            saved,
            entry,
        }),
    )
}

/// A call: the return to the caller is to be done when the body of the method is.
pub fn call<'a>(
    prepared: &Prepared<'a>,
    machine: &mut Machine<'a>,
    frames: &mut Vec<Frame<'a>>,
    step: &'a CallStep,
) -> Result<(), Stop>
    ensures on { (p : Program) → (numbered : Callee → Option ℕ) → (s : State) → (ks : List Todo) → (a : Stmt) → IsRun p numbered prepared.now machine.old.now.names machine.old.now.last machine.old.entry frames.old.items s ks → IsCall machine.old.now.names prepared.now.table.now numbered (is_some machine.old.entry) step.now a → OnOk result (Stands p numbered prepared.now machine.new frames.new.items way.On (resume p ks (done p a (stands machine.old s))) (Else p a (stands machine.old s) ks)) }
    ensures stop { (p : Program) → (numbered : Callee → Option ℕ) → (s : State) → (ks : List Todo) → (a : Stmt) → IsRun p numbered prepared.now machine.old.now.names machine.old.now.last machine.old.entry frames.old.items s ks → IsCall machine.old.now.names prepared.now.table.now numbered (is_some machine.old.entry) step.now a → IfErr result (EndsAs (resume p ks (done p a (stands machine.old s))) (Else p a (stands machine.old s) ks)) }
{
    let made = call_values(machine.alloc, &machine.now, step)?;
    wait_for(prepared, machine, frames, step, made.object)?;
    enter(
        prepared,
        machine,
        frames,
        step.method,
        made.on,
        made.args.as_slice(),
    )
}
