ghost use Rattle.std.specs.Prelude.{◌≡◌, ◌+◌, ◌<◌, ◌^◌, length, string_bytes, IfErr, IfOk, option_map};
ghost use Rattle.jh_vars.specs.Written.{Callee};
ghost use Rattle.jh_semantics.specs.Heaps.{answered, run_of_heap};
ghost use Rattle.jh_store.specs.heaps.Cells.{args_in, cell_in, heap_in};
ghost use Rattle.jh_store.specs.heaps.Inside.{ArgsAreInside, HeapIsInside};
ghost use Rattle.jh_machine_compiler.specs.jh_command_statements.checks.Told.{AreFormulas};
ghost use Rattle.jh_outline.specs.jh_method_commands.environment.Outlines.{IsCallable, callee_of, program_in, source_of};
ghost use Rattle.jh_run.specs.outcome.Outcomes.{EndsWith, IsWhy, Returned};

use crate::outcome::unreturned::Unreturned;
use crate::outcome::writing::text_of;
use crate::preparation::ready_of;
use crate::runner::{Answered, run_on};
use jh_arena::table::Table;
use jh_heap_layout::jh_heap::object_bounds::what_is_read_is_inside;
use jh_heap_layout::jh_heap::text::read_heap;
use jh_heap_layout::layout::outline_for;
use jh_machine_compiler::Source;
use jh_outline::jh_method_commands::environment::{Callable, Outline};
use jh_store::heaps::{Args, Heap};
use std::alloc::Global;

/// Runs a method of an outline from a heap.
fn run_from(
    alloc: Global,
    outline: &Outline<'_>,
    table: &mut Table,
    method: &Callable<'_>,
    heap: &Heap,
    args: &Args,
    steps: u64,
) -> Result<Answered, Unreturned>
    requires formulas { AreFormulas (source_of outline.now) table.old outline.now.formulas.now }
    requires heap { HeapIsInside (heap_in heap.now) }
    requires args { ArgsAreInside heap.now.greatest (args_in args.now) }
    ensures on { IfOk result (λ made. run_of_heap (program_in outline.now) (callee_of method.now) (heap_in heap.now) (args_in args.now) steps ≡ answered (heap_in made.heap) (option_map cell_in made.result)) }
    ensures why { IfErr result (EndsWith (program_in outline.now) (callee_of method.now) (heap_in heap.now) (args_in args.now) steps) }
{
    let ready = ready_of(alloc, outline, table)?;
    let source = Source {
        formulas: outline.formulas,
        numbers: outline.numbers,
        methods: outline.methods,
    };
    let number = source.number(method.class, method.name);
    let answered = run_on(alloc, table, &ready, number, heap, args, steps)?;
    Ok(answered)
}

/// Runs a method of an outline from the heap that a text spells.
fn run_callable(
    alloc: Global,
    outline: &Outline<'_>,
    table: &mut Table,
    method: &Callable<'_>,
    heap: &[u8],
    steps: u64,
) -> Result<String, Unreturned>
    requires formulas { AreFormulas (source_of outline.now) table.old outline.now.formulas.now }
    requires method { IsCallable outline.now method.now }
    requires few { length heap.now + 1 < 2 ^ 32 }
    ensures returned { IfOk result (λ text. Returned (program_in outline.now) (callee_of method.now) heap.now steps (string_bytes text)) }
    ensures why { IfErr result (IsWhy (program_in outline.now) (callee_of method.now) heap.now steps) }
{
    what_is_read_is_inside();
    let text = outline_for(alloc, outline.classes, outline.members, method.code)?;
    let (heap, args) = read_heap(alloc, &text, heap)?;
    let answered = run_from(alloc, outline, table, method, &heap, &args, steps)?;
    let made = text_of(alloc, &text, &answered)?;
    Ok(made)
}

/// Runs a method of an outline, by the number of its class and its own name, from the heap that a text spells.
pub(crate) fn run_named(
    alloc: Global,
    outline: &Outline<'_>,
    table: &mut Table,
    class: usize,
    name: &str,
    heap: &[u8],
    steps: u64,
) -> Result<String, Unreturned>
    requires formulas { AreFormulas (source_of outline.now) table.old outline.now.formulas.now }
    requires few { length heap.now + 1 < 2 ^ 32 }
    ensures returned { IfOk result (λ text. Returned (program_in outline.now) (record { class = class; name = name.now }) heap.now steps (string_bytes text)) }
    ensures why { IfErr result (IsWhy (program_in outline.now) (record { class = class; name = name.now }) heap.now steps) }
{
    match outline.callable(class, name) {
        None => Err(Unreturned::NoMethod),
        Some(method) => run_callable(alloc, outline, table, &method, heap, steps),
    }
}
