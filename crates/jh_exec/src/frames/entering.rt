ghost use Rattle.std.specs.Prelude.{◌≡◌, ◌<◌, ◌⊎◌, ℕ, suc, List, Option, Some, is_some, slice_get, map, OnOk, IfOk, IfErr};
ghost use Rattle.jh_vars.specs.Written.{Callee};
ghost use Rattle.jh_semantics.specs.Program.{Program, Method};
ghost use Rattle.jh_semantics.specs.State.{State, this_name};
ghost use Rattle.jh_semantics.specs.Locals.{entered};
ghost use Rattle.jh_semantics.specs.Execution as run;
ghost use Rattle.jh_store.specs.memory.Held.{state_of, IsNamed};
ghost use Rattle.jh_operands.specs.Scalars.{datum_of};
ghost use Rattle.jh_machine_code.specs.code.Steps.{AreParams, IsBody};
ghost use Rattle.jh_machine.specs.locals.Locals.{AllInside, AreLocals};
ghost use Rattle.jh_machine.specs.declared.continuation.stop.Stop.TheVariants as stop;
ghost use Rattle.jh_machine.specs.continuation.Overflows.{CallOverflows};
ghost use Rattle.jh_machine.specs.continuation.Todos.{Todo, resume, StackOverflows, EndsAs};
ghost use Rattle.jh_machine.specs.machine.Machines.{EntryIs, stands};
ghost use Rattle.jh_exec.specs.declared.frames.frames.Way.TheVariants as way;
ghost use Rattle.jh_exec.specs.frames.Frames.{Begun, IsWaiting, Stands};

use crate::frames::frames::{Frame, Work, push};
use jh_machine::continuation::{Stop, runs_are_resumed};
use jh_machine::locals::{clear, put_args, put_this};
use jh_machine::machine::{Machine, Prepared, pay};
use jh_machine_code::code::Body;
use jh_operands::Scalar;
use jh_store::memory::Memory;

/// The body of a number; all methods that are called have one.
fn body_at(bodies: &[Body], number: usize) -> Result<&Body, Stop>
    ensures there { IfOk result (λ body. slice_get bodies.now number ≡ Some body.now) }
    ensures stop { IfErr result (λ why. why ≡ stop.Memory) }
{
    match bodies.get(number) {
        Some(body) => Ok(body),
        None => Err(Stop::Memory),
    }
}

/// The memory at entry, where it is to be kept.
fn kept<'a>(memory: &Memory<'a>, keeps: bool) -> Result<Option<Memory<'a>>, Stop>
    ensures keeps { IfOk result (λ made. is_some made ≡ keeps) }
    ensures entry { IfOk result (λ made. EntryIs memory.now.names memory.now.last made (state_of memory.now)) }
    ensures stop { IfErr result (λ why. why ≡ stop.Memory) }
{
    if keeps {
        match memory.copy() {
            Ok(entry) => Ok(Some(entry)),
            Err(_) => Err(Stop::Memory),
        }
    } else {
        Ok(None)
    }
}

/// The memory in which a body begins: its locals are new, and `this` and the parameters are given.
fn begin(prepared: &Prepared<'_>, memory: &mut Memory<'_>, body: &Body, on: u32, args: &[Scalar])
    ensures names { memory.new.names ≡ memory.old.names }
    ensures last { memory.new.last ≡ memory.old.last }
    ensures state { (m : Method) → AreLocals memory.old.names prepared.now.locals.now → IsNamed memory.old prepared.now.this this_name → AreParams memory.old.names body.now.params m.params → on < suc memory.old.last → AllInside memory.old.last args.now → state_of memory.new ≡ entered m on (map datum_of args.now) (state_of memory.old) }
{
    clear(memory, prepared.locals);
    put_this(memory, prepared.this, on);
    put_args(memory, body.params.items(), args);
}

/// A body is to be done, of which the memory at its entry is kept, where its formulas may read it.
fn begin_body<'a>(
    prepared: &Prepared<'a>,
    machine: &mut Machine<'a>,
    frames: &mut Vec<Frame<'a>>,
    body: &'a Body,
    on: u32,
    args: &[Scalar],
) -> Result<(), Stop>
    ensures on { (p : Program) → (numbered : Callee → Option ℕ) → (ks : List Todo) → (m : Method) → IsWaiting p numbered prepared.now machine.old.now.names machine.old.now.last frames.old.items ks → IsBody machine.old.now.names prepared.now.table.now numbered body.now m → on < suc machine.old.now.last → AllInside machine.old.now.last args.now → OnOk result (Begun p numbered prepared.now machine.old machine.new frames.new.items m on (map datum_of args.now) ks) }
    ensures stop { IfErr result (λ why. why ≡ stop.Memory) }
{
    let entry = kept(&machine.now, body.keeps_entry)?;
    machine.entry = entry;
    begin(prepared, &mut machine.now, body, on, args);
    push(frames, Frame::Work(Work::Rest(body.steps.items())))
}

/// A method is called, where it is there.
pub fn enter<'a>(
    prepared: &Prepared<'a>,
    machine: &mut Machine<'a>,
    frames: &mut Vec<Frame<'a>>,
    method: Option<usize>,
    on: u32,
    args: &[Scalar],
) -> Result<(), Stop>
    ensures on { (p : Program) → (numbered : Callee → Option ℕ) → (s : State) → (ks : List Todo) → (m : Callee) → IsWaiting p numbered prepared.now machine.old.now.names machine.old.now.last frames.old.items ks → EntryIs machine.old.now.names machine.old.now.last machine.old.entry s → numbered m ≡ method → on < suc machine.old.now.last → AllInside machine.old.now.last args.now → OnOk result (Stands p numbered prepared.now machine.new frames.new.items way.On (resume p ks (run.call p m on (map datum_of args.now) (stands machine.old s))) (λ q. CallOverflows p q m on (map datum_of args.now) (stands machine.old s) ⊎ StackOverflows p q ks (run.call p m on (map datum_of args.now) (stands machine.old s)))) }
    ensures stop { (p : Program) → (s : State) → (ks : List Todo) → (m : Callee) → IfErr result (EndsAs (resume p ks (run.call p m on (map datum_of args.now) (stands machine.old s))) (λ q. ⊥)) }
{
    runs_are_resumed();
    pay(machine)?;
    match method {
        None => Ok(()),
        Some(method) => {
            let body = body_at(prepared.methods, method)?;
            begin_body(prepared, machine, frames, body, on, args)
        }
    }
}
