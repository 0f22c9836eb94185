ghost use Rattle.std.specs.Prelude.{◌≡◌, ◌<◌, ℕ, suc, List, Option, map, option_map, IfOk, IfErr};
ghost use Rattle.jh_vars.specs.Written.{Callee};
ghost use Rattle.jh_semantics.specs.Program.{Program};
ghost use Rattle.jh_semantics.specs.State.{State, alloc_name};
ghost use Rattle.jh_semantics.specs.Objects.{free};
ghost use Rattle.jh_semantics.specs.Progress.{goes_on, returned};
ghost use Rattle.jh_semantics.specs.Execution as run;
ghost use Rattle.jh_store.specs.memory.Held.{state_of, IsNamed};
ghost use Rattle.jh_operands.specs.Scalars.{datum_of};
ghost use Rattle.jh_machine.specs.locals.Locals.{AllInside};
ghost use Rattle.jh_machine.specs.continuation.Overflows.{RunOverflows};
ghost use Rattle.jh_machine.specs.continuation.Todos.{Todo, resume, StackOverflows, EndsAs};
ghost use Rattle.jh_machine.specs.machine.Machines.{stands};
ghost use Rattle.jh_exec.specs.frames.Frames.{IsPrepared, IsRun};
ghost use Rattle.jh_exec.specs.interpreter.Returns.{way_result};

use crate::frames::{Frame, Way, enter};
use crate::interpreter::advancing::advance;
use jh_machine::continuation::{Stop, runs_are_resumed};
use jh_machine::ghosts::is_free;
use jh_machine::machine::{Machine, Prepared};
use jh_name::NoMemory;
use jh_operands::Scalar;
use jh_store::memory::Memory;
use std::alloc::Global;

/// How a run ends that returns: the memory at its end, and the result.
#[derive(Drop)]
pub struct Ended<'a> {
    pub memory: Memory<'a>,
    pub result: Option<Scalar>,
}

/// The objects that are free, in ascending order; `all` is the number of the set of all objects.
pub fn free_objects(alloc: Global, memory: &Memory<'_>, all: usize) -> Result<Vec<u32>, NoMemory>
    ensures { IsNamed memory.now all alloc_name → IfOk result (λ made. made.items ≡ free (state_of memory.now)) }
{
    let mut objects = Vec::new(alloc);
    for object in 0..=memory.last() {
        if is_free(memory, all, object) {
            objects.push(object)?;
        }
    }
    Ok(objects)
}

/// The result of a method.
fn result_of(way: Way) -> Option<Scalar>
    ensures { result ≡ way_result way }
{
    match way {
        Way::On => None,
        Way::Return(value) => value,
    }
}

/// All that is to be done.
fn finish<'a>(
    prepared: &Prepared<'a>,
    machine: &mut Machine<'a>,
    frames: &mut Vec<Frame<'a>>,
) -> Result<Option<Scalar>, Stop>
    requires { (p : Program) × (numbered : Callee → Option ℕ) × (s : State) × (ks : List Todo) × IsRun p numbered prepared.now machine.old.now.names machine.old.now.last machine.old.entry frames.old.items s ks }
    ensures on { (p : Program) → (numbered : Callee → Option ℕ) → (s : State) → (ks : List Todo) → IsRun p numbered prepared.now machine.old.now.names machine.old.now.last machine.old.entry frames.old.items s ks → IfOk result (λ v. resume p ks (goes_on (stands machine.old s)) ≡ returned (state_of machine.new.now) (option_map datum_of v)) }
    ensures names { IfOk result (λ v. machine.new.now.names ≡ prepared.now.names.now) }
    ensures stop { (p : Program) → (numbered : Callee → Option ℕ) → (s : State) → (ks : List Todo) → IsRun p numbered prepared.now machine.old.now.names machine.old.now.last machine.old.entry frames.old.items s ks → IfErr result (EndsAs (resume p ks (goes_on (stands machine.old s))) (λ q. StackOverflows p q ks (goes_on (stands machine.old s)))) }
{
    let mut way = Way::On;
    for _turn in 0..u64::MAX {
        match frames.pop() {
            None => return Ok(result_of(way)),
            Some(frame) => way = advance(prepared, machine, frames, frame, way)?,
        }
    }
    Err(Stop::Memory)
}

/// Runs a method from a memory, with `this` and arguments, the objects for `new` to take, and a number of steps.
pub fn run_prepared<'a>(
    alloc: Global,
    prepared: &Prepared<'a>,
    method: Option<usize>,
    memory: Memory<'a>,
    on: u32,
    args: &[Scalar],
    picks: Vec<u32>,
    steps: u64,
) -> Result<Ended<'a>, Stop>
    requires prepared { (p : Program) × (numbered : Callee → Option ℕ) × (m : Callee) × IsPrepared p numbered prepared.now memory.names × (numbered m ≡ method) }
    requires on { on < suc memory.last }
    requires args { AllInside memory.last args.now }
    ensures on { (p : Program) → (numbered : Callee → Option ℕ) → (m : Callee) → IsPrepared p numbered prepared.now memory.entry.names → numbered m ≡ method → IfOk result (λ ended. run.run p m (state_of memory.entry) on (map datum_of args.now) picks.items steps ≡ returned (state_of ended.memory) (option_map datum_of ended.result)) }
    ensures names { IfOk result (λ ended. ended.memory.names ≡ prepared.now.names.now) }
    ensures stop { (p : Program) → (numbered : Callee → Option ℕ) → (m : Callee) → IsPrepared p numbered prepared.now memory.entry.names → numbered m ≡ method → IfErr result (EndsAs (run.run p m (state_of memory.entry) on (map datum_of args.now) picks.items steps) (λ q. RunOverflows p q m (state_of memory.entry) on (map datum_of args.now) picks.items steps)) }
{
    runs_are_resumed();
    let mut machine = Machine {
        alloc,
        now: memory,
        entry: None,
        picks,
        taken: 0,
        steps,
    };
    let mut frames = Vec::new(alloc);
    enter(prepared, &mut machine, &mut frames, method, on, args)?;
    let result = finish(prepared, &mut machine, &mut frames)?;
    let Machine { now, .. } = machine;
    Ok(Ended {
        memory: now,
        result,
    })
}
