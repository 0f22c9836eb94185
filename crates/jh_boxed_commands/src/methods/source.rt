ghost use Rattle.std.specs.Prelude.{◌≡◌, None, IfOk};
ghost use Rattle.jh_ast.specs.Bare.{program_tree};
ghost use Rattle.jh_outline.specs.jh_command_statements.checks.Told.{AreFormulas};
ghost use Rattle.jh_outline.specs.outline.Drafts.{AreModified, AreWritten, IsDraft};
ghost use Rattle.jh_outline.specs.jh_logic.source.Laws.{IsAccepted};
ghost use Rattle.jh_arena.specs.table.Growth.{Extends};
ghost use Rattle.jh_outline.specs.jh_vars.Reading.{IsAcyclic};
ghost use Rattle.jh_boxed_commands.specs.methods.Methods.{IsMethodCommand, callee_at};

use crate::commands::MethodCommand;
use crate::methods::named::method_name;
use crate::methods::outlined::boxed_method;
use jh_arena::table::Table;
use jh_ast::Program;
use jh_name::{MethodId, NoMemory};
use jh_outline::jh_effects::modified_state::modified;
use jh_outline::jh_effects::written_state::{MethodPlaces, written};
use jh_outline::jh_lowering::Context;
use jh_outline::jh_symbols::declarations::lookups_of;
use jh_outline::jh_type::checker::Typed;
use jh_outline::outline::{Draft, draft_of};
use std::alloc::Global;

/// The places of what each method may write, and of what its `modifies` names.
#[derive(Drop)]
struct Places {
    written: MethodPlaces,
    modified: MethodPlaces,
}

fn places_of(alloc: Global, typed: &Typed) -> Result<Places, NoMemory>
    requires { IsAcyclic (program_tree typed.now) }
    ensures written { IfOk result (λ made. AreWritten (program_tree typed.now) made.written) }
    ensures modified { IfOk result (λ made. AreModified (program_tree typed.now) made.modified) }
{
    let written = written(alloc, typed.program())?;
    let modified = modified(alloc, typed)?;
    Ok(Places { written, modified })
}

/// What the outline of a source lends.
fn drafted(
    alloc: Global,
    table: &mut Table,
    program: &Program,
    places: &Places,
) -> Result<Draft, NoMemory>
    ensures draft { IfOk result (IsDraft (program_tree program.now) places.now.written places.now.modified table.new) }
    ensures grows { Extends table.old table.new }
{
    let lookups = lookups_of(alloc, program)?;
    let context = Context {
        program,
        lookups: &lookups,
    };
    draft_of(alloc, table, &context, &places.written, &places.modified)
}

/// The command of a method of a source, and the formula that has to be true where it returns, where the nodes of the formulas
/// of the source stand in the table. What the table held stays in its place, after any answer.
pub fn of_method(
    alloc: Global,
    typed: &Typed,
    table: &mut Table,
    formulas: &[Option<usize>],
    method: MethodId,
) -> Result<MethodCommand, NoMemory>
    requires accepted { IsAccepted (program_tree typed.now) }
    requires acyclic { IsAcyclic (program_tree typed.now) }
    requires formulas { AreFormulas (program_tree typed.now) table.old formulas.now }
    requires there { callee_at (program_tree typed.now) method ≡ None → ⊥ }
    ensures command { IfOk result (IsMethodCommand (program_tree typed.now) method) }
    ensures grows { Extends table.old table.new }
{
    let places = places_of(alloc, typed)?;
    let program = typed.program();
    let draft = drafted(alloc, table, program, &places)?;
    let state = draft.state(alloc)?;
    let outline = draft.outline(program, state.as_slice(), formulas);
    match method_name(program, method) {
        None => unreachable!(),
        Some(name) => boxed_method(table, &outline, method.class as usize, name),
    }
}
