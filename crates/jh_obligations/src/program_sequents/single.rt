ghost use Rattle.std.specs.Prelude.{◌≡◌, ◌≤◌, ℕ, length, IfErr, IfOk};
ghost use Rattle.jh_arena.specs.table.Growth.{Extends};
ghost use Rattle.jh_seq.specs.splitting.Split.{split_of};
ghost use Rattle.jh_splitting.specs.Numbering.{IsFirst};
ghost use Rattle.jh_splitting.specs.Standing.{AreSequents};
ghost use Rattle.jh_semantics.specs.typed_code.Statements.{method_in};
ghost use Rattle.jh_outline.specs.jh_method_commands.environment.Outlines.{IsCallable, IsOutline, callee_of, program_in, source_of, writes_in};
ghost use Rattle.jh_obligations.specs.command_sequents.Owed.{IsFault};
ghost use Rattle.jh_obligations.specs.program_sequents.Owed.{formula_of};

use crate::command_sequents::{GoalsFault, sequents_of};
use jh_arena::table::Table;
use jh_name::MethodId;
use jh_outline::jh_method_commands::commands::of_method;
use jh_outline::jh_method_commands::environment::{Callable, Outline};
use jh_splitting::Sequents;

/// The sequents of a method. Where there are more than 2,000 it says how many. What the table held stays in its place,
/// after any answer.
pub fn method_sequents(
    table: &mut Table,
    outline: &Outline<'_>,
    method: &Callable<'_>,
    id: MethodId,
) -> Result<Sequents, GoalsFault>
    requires outline { IsOutline table.old outline.now }
    requires method { IsCallable outline.now method.now }
    ensures sequents { IfOk result (λ made. (k : ℕ) × IsFirst (formula_of (program_in outline.now) (writes_in outline.now) (callee_of method.now) (method_in (source_of outline.now) method.now.code.now)) k × AreSequents table.new made.hyps made.method made.sequents.items (split_of id (formula_of (program_in outline.now) (writes_in outline.now) (callee_of method.now) (method_in (source_of outline.now) method.now.code.now)) k)) }
    ensures of_method { IfOk result (λ made. made.method ≡ id) }
    ensures few { IfOk result (λ made. (k : ℕ) → length (split_of id (formula_of (program_in outline.now) (writes_in outline.now) (callee_of method.now) (method_in (source_of outline.now) method.now.code.now)) k) ≤ 2000) }
    ensures fault { IfErr result (IsFault (formula_of (program_in outline.now) (writes_in outline.now) (callee_of method.now) (method_in (source_of outline.now) method.now.code.now))) }
    ensures grows { Extends table.old table.new }
{
    let command = of_method(table, outline, method)?;
    sequents_of(table, &command.body, command.returned, id)
}
