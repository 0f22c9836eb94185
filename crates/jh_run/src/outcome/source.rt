#![tactic(auto, unfolding(jh_ast::specs::Bare::class_part, jh_ast::specs::Bare::method_part, jh_ast::specs::Bare::program_tree))]

ghost use Rattle.std.specs.Prelude.{◌≡◌, ◌+◌, ◌<◌, ◌^◌, length, string_bytes, IfErr, IfOk};
ghost use Rattle.jh_ast.specs.Bare.{program_tree};
ghost use Rattle.jh_machine_compiler.specs.jh_command_statements.checks.Told.{AreFormulas};
ghost use Rattle.jh_symbols.specs.scopes.Lookings.{declared_by};
ghost use Rattle.jh_rules.specs.Names.{declared_in};
ghost use Rattle.jh_semantics.specs.LoweredProgram.{program_of};
ghost use Rattle.jh_run.specs.outcome.Outcomes.{IsReason, IsWhy, Returned, Returns};

use crate::outcome::running::run_named;
use crate::outcome::unreturned::Unreturned;
use jh_arena::table::Table;
use jh_ast::Program;
use jh_outline::jh_effects::written_state::written;
use jh_outline::jh_lowering::Context;
use jh_outline::jh_unfolding::unfolder::{Parts, Unfolded};
use jh_outline::outline::draft_of;
use jh_symbols::declarations::lookups_of;
use jh_symbols::scopes::Lookups;
use std::alloc::Global;

/// Runs a method of a program, by the number of its class and its own name. What `modifies` names says nothing of a run, so
/// what is written stands in its place.
fn run_in_class(
    alloc: Global,
    program: &Program,
    lookups: &Lookups,
    table: &mut Table,
    formulas: &[Option<usize>],
    class: usize,
    name: &str,
    heap: &[u8],
    steps: u64,
) -> Result<String, Unreturned>
    requires declared { declared_by lookups.now ≡ declared_in (program_tree program.now) }
    requires formulas { AreFormulas (program_tree program.now) table.old formulas.now }
    requires few { length heap.now + 1 < 2 ^ 32 }
    ensures returned { IfOk result (λ text. Returned (program_of (program_tree program.now)) (record { class = class; name = name.now }) heap.now steps (string_bytes text)) }
    ensures why { IfErr result (IsWhy (program_of (program_tree program.now)) (record { class = class; name = name.now }) heap.now steps) }
{
    let context = Context { program, lookups };
    let writes = written(alloc, program)?;
    let draft = draft_of(alloc, table, &context, &writes, &writes)?;
    let state = draft.state(alloc)?;
    let outline = draft.outline(program, state.as_slice(), formulas);
    run_named(alloc, &outline, table, class, name, heap, steps)
}

/// Runs a method of the parts of a program.
fn run_in_parts(
    alloc: Global,
    parts: &mut Parts,
    class: &str,
    name: &str,
    heap: &[u8],
    steps: u64,
) -> Result<String, Unreturned>
    requires formulas { AreFormulas (program_tree parts.old.typed) parts.old.table parts.old.formulas.items }
    requires few { length heap.now + 1 < 2 ^ 32 }
    ensures returned { IfOk result (λ text. Returns (program_tree parts.old.typed) class.now name.now heap.now steps (string_bytes text)) }
    ensures why { IfErr result (IsReason (program_tree parts.old.typed) class.now name.now heap.now steps) }
{
    let program = parts.typed.program();
    let lookups = lookups_of(alloc, program)?;
    match lookups.class_named(class) {
        None => Err(Unreturned::NoMethod),
        Some(class) => run_in_class(
            alloc,
            program,
            &lookups,
            &mut parts.table,
            parts.formulas.as_slice(),
            class,
            name,
            heap,
            steps,
        ),
    }
}

/// Runs a method of a source, by its class and its own name, from the heap that a text spells, with so many steps; `new`
/// takes the lowest free objects. What comes is the line of the result, where there is one, and the text of the heap at the
/// end.
pub fn run_method(
    alloc: Global,
    source: Unfolded,
    class: &str,
    name: &str,
    heap: &[u8],
    steps: u64,
) -> Result<String, Unreturned>
    requires few { length heap.now + 1 < 2 ^ 32 }
    ensures returned { IfOk result (λ text. Returns (program_tree source.program) class.now name.now heap.now steps (string_bytes text)) }
    ensures why { IfErr result (IsReason (program_tree source.program) class.now name.now heap.now steps) }
{
    let mut parts = source.into_parts(alloc)?;
    run_in_parts(alloc, &mut parts, class, name, heap, steps)
}
