ghost use Rattle.std.specs.Prelude.{◌≡◌, ◌<◌, ℕ, suc, map, option_map, IfOk, IfErr};
ghost use Rattle.std.specs.Option.{option_map_or};
ghost use Rattle.jh_vars.specs.Written.{Callee};
ghost use Rattle.jh_semantics.specs.Objects.{free};
ghost use Rattle.jh_semantics.specs.Execution as run;
ghost use Rattle.jh_semantics.specs.Heaps as heaps;
ghost use Rattle.jh_semantics.specs.Heaps.{answered, cell_value, run_of_heap, this_object};
ghost use Rattle.jh_machine.specs.continuation.Overflows.{RunOverflows};
ghost use Rattle.jh_machine.specs.continuation.Todos.{EndsAs};
ghost use Rattle.jh_store.specs.heaps.Cells.{args_in, cell_in, heap_in};
ghost use Rattle.jh_store.specs.heaps.Inside.{ArgsAreInside, HeapIsInside};
ghost use Rattle.jh_outline.specs.jh_method_commands.declared.environment.outline.Outline.{Outline};
ghost use Rattle.jh_outline.specs.jh_method_commands.environment.Outlines.{program_in};
ghost use Rattle.jh_run.specs.preparation.Ready.{IsReady, numbered_by};
ghost use Rattle.jh_run.specs.runner.Runs.{outcome_on, OverflowsOn};

use crate::preparation::Ready;
use crate::runner::scalars::{result_of, scalars_of};
use jh_arena::table::Table;
use jh_exec::interpreter::{free_objects, run_prepared};
use jh_heap_layout::loading::{load, unload};
use jh_machine::continuation::Stop;
use jh_machine::machine::Prepared;
use jh_store::heaps::{Args, Cell, Heap};
use std::alloc::Global;

/// How a run from a heap ends that returns: the heap at its end, and the result, where there is one.
#[derive(Drop)]
pub struct Answered {
    pub heap: Heap,
    pub result: Option<Cell>,
}

/// `this`, or null where there is none.
fn this_of(args: &Args) -> u32
    ensures object { result ≡ this_object (args_in args.now) }
    ensures inside { (n : ℕ) → ArgsAreInside n (args_in args.now) → result < suc n }
{
    match args.this {
        None => 0,
        Some(object) => object,
    }
}

/// Runs a method, by its number, from a heap, with arguments and so many steps; `new` takes the lowest free objects.
#[tactic(auto, unfolding(jh_machine::specs::continuation::Todos::EndsAs))]
pub fn run_on(
    alloc: Global,
    table: &Table,
    ready: &Ready,
    method: Option<usize>,
    heap: &Heap,
    args: &Args,
    steps: u64,
) -> Result<Answered, Stop>
    requires ready { (o : Outline) × (m : Callee) × IsReady o table.now ready.now × (numbered_by o m ≡ method) }
    requires heap { HeapIsInside (heap_in heap.now) }
    requires args { ArgsAreInside heap.now.greatest (args_in args.now) }
    ensures on { (o : Outline) → (m : Callee) → IsReady o table.now ready.now → numbered_by o m ≡ method → IfOk result (λ made. run_of_heap (program_in o) m (heap_in heap.now) (args_in args.now) steps ≡ answered (heap_in made.heap) (option_map cell_in made.result)) }
    ensures stop { (o : Outline) → (m : Callee) → IsReady o table.now ready.now → numbered_by o m ≡ method → IfErr result (EndsAs (outcome_on (program_in o) m (heap_in heap.now) (args_in args.now) steps) (OverflowsOn (program_in o) m (heap_in heap.now) (args_in args.now) steps)) }
{
    let memory = load(alloc, &ready.names, &ready.places, heap)?;
    let values = scalars_of(alloc, args.values.items())?;
    let picks = free_objects(alloc, &memory, ready.places.all)?;
    let prepared = Prepared {
        methods: ready.methods.as_slice(),
        table,
        names: &ready.names,
        homes: ready.homes.as_slice(),
        locals: ready.locals.as_slice(),
        this: ready.this,
        all: ready.places.all,
    };
    let ended = run_prepared(
        alloc,
        &prepared,
        method,
        memory,
        this_of(args),
        values.as_slice(),
        picks,
        steps,
    )?;
    let heap = unload(alloc, &ended.memory, &ready.places)?;
    Ok(Answered {
        heap,
        result: result_of(ended.result),
    })
}
