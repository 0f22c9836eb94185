ghost use Rattle.std.specs.Prelude.{List, IfErr, IfOk};
ghost use Rattle.jh_ast.specs.Bare.{program_tree};
ghost use Rattle.jh_outline.specs.jh_command_statements.checks.Told.{AreFormulas};
ghost use Rattle.jh_outline.specs.outline.Drafts.{AreModified, AreWritten, IsDraft};
ghost use Rattle.jh_outline.specs.jh_logic.source.Laws.{IsAccepted};
ghost use Rattle.jh_arena.specs.table.Growth.{Extends};
ghost use Rattle.jh_vars.specs.Reading.{IsAcyclic};
ghost use Rattle.jh_obligations.specs.program_sequents.Owed.{AllStand, Debt};
ghost use Rattle.jh_obligations.specs.program_sequents.Sources.{IsLogicFault, Owes};

use crate::program_sequents::fault::LogicError;
use crate::program_sequents::listed::sequents;
use jh_arena::table::Table;
use jh_ast::Program;
use jh_name::NoMemory;
use jh_outline::jh_effects::modified_state::modified;
use jh_outline::jh_effects::written_state::{MethodPlaces, written};
use jh_outline::jh_lowering::Context;
use jh_outline::jh_type::checker::Typed;
use jh_outline::outline::{Draft, draft_of};
use jh_splitting::Sequents;
use jh_symbols::declarations::lookups_of;
use std::alloc::Global;

/// The places of what each method may write, and of what its `modifies` names.
#[derive(Drop)]
struct Places {
    written: MethodPlaces,
    modified: MethodPlaces,
}

fn places_of(alloc: Global, typed: &Typed) -> Result<Places, NoMemory>
    requires { IsAcyclic (program_tree typed.now) }
    ensures written { IfOk result (λ made. AreWritten (program_tree typed.now) made.written) }
    ensures modified { IfOk result (λ made. AreModified (program_tree typed.now) made.modified) }
{
    let written = written(alloc, typed.program())?;
    let modified = modified(alloc, typed)?;
    Ok(Places { written, modified })
}

/// What the outline of a source lends.
fn drafted(
    alloc: Global,
    table: &mut Table,
    program: &Program,
    places: &Places,
) -> Result<Draft, NoMemory>
    ensures draft { IfOk result (IsDraft (program_tree program.now) places.now.written places.now.modified table.new) }
    ensures grows { Extends table.old table.new }
{
    let lookups = lookups_of(alloc, program)?;
    let context = Context {
        program,
        lookups: &lookups,
    };
    draft_of(alloc, table, &context, &places.written, &places.modified)
}

/// The sequents of all methods of a source, method by method in the order of the text, where the nodes of its formulas
/// stand in the table. Where a method has more than 2,000 the first such is named. What the table held stays in its
/// place, after any answer.
pub fn obligations(
    alloc: Global,
    typed: &Typed,
    table: &mut Table,
    formulas: &[Option<usize>],
) -> Result<Vec<Sequents>, LogicError>
    requires accepted { IsAccepted (program_tree typed.now) }
    requires acyclic { IsAcyclic (program_tree typed.now) }
    requires formulas { AreFormulas (program_tree typed.now) table.old formulas.now }
    ensures owed { IfOk result (λ made. (ds : List Debt) × Owes (program_tree typed.now) ds × AllStand table.new made.items ds) }
    ensures why { IfErr result (IsLogicFault (program_tree typed.now)) }
    ensures grows { Extends table.old table.new }
{
    let places = places_of(alloc, typed)?;
    let program = typed.program();
    let draft = drafted(alloc, table, program, &places)?;
    let state = draft.state(alloc)?;
    let outline = draft.outline(program, state.as_slice(), formulas);
    sequents(alloc, table, &outline)
}
