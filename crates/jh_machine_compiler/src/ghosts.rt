#![tactic(auto, using(crate::proofs::GhostSteps::ghost_steps, jh_arena::proofs::table::Listed::growth_steps))]

ghost use Rattle.std.specs.Prelude.{◌≡◌, ℕ, true, Option, IfOk};
ghost use Rattle.jh_ast.specs.Programs.{ProgramTree};
ghost use Rattle.jh_arena.specs.table.Growth.{Grows, Extends};
ghost use Rattle.jh_vars.specs.Written.{Callee};
ghost use Rattle.jh_semantics.specs.LoweredStmts.{ghost_code, ghost_target};
ghost use Rattle.jh_semantics.specs.typed_code.Statements.{value_of};
ghost use Rattle.jh_command_statements.specs.checks.Told.{AreFormulas};
ghost use Rattle.jh_command_statements.specs.simple_statements.Ghosts.{left_in, object_stands};
ghost use Rattle.jh_machine_compiler.specs.Lasting.{Makes};

use jh_arena::table::Table;
use jh_command_statements::simple_statements::{
    Left, class_before_dot, kind_value, left_of, value_node,
};
use jh_machine_code::code::{GhostField, Step};
use jh_machine_code::numbering::{name_number, text_number};
use jh_name::{NoMemory, Place};
use jh_store::memory::Names;
use std::alloc::Global;

/// The step that gives a left side a value, by the value's number in the source; with the places of both sides.
fn left_step(
    alloc: Global,
    names: &mut Names,
    table: &mut Table,
    formulas: &[Option<usize>],
    place: Place,
    left: &Left,
    value: (Place, u32),
) -> Result<Step, NoMemory>
    requires { object_stands table.old left.now ≡ true }
    ensures is { IfOk result (λ made. (p : ProgramTree) → AreFormulas p table.old formulas.now → (numbered : Callee → Option ℕ) → Makes numbered true names.new table.new (ghost_code place (left_in table.old left.now) value.0 (value_of p value.1)) made) }
    ensures names { Grows names.old names.new }
    ensures table { Extends table.old table.new }
{
    match left {
        Left::Nothing => Ok(Step::Empty),
        Left::Name(kind, name) => {
            let node = kind_value(table, formulas, *kind, value.1)?;
            let name = name_number(alloc, names, name)?;
            Ok(Step::Ghost(name, value.0, node))
        }
        Left::Read(kind, field, object) => {
            let node = kind_value(table, formulas, *kind, value.1)?;
            let class = text_number(alloc, names, class_before_dot(field.text()))?;
            let field = name_number(alloc, names, field)?;
            Ok(Step::GhostAt(GhostField {
                left: place,
                class,
                field,
                object: *object,
                right: value.0,
                value: node,
            }))
        }
    }
}

/// A ghost assignment: the places of both sides, and their numbers in the source. Where the left side is no name and no
/// read of a field, nothing is assigned.
pub(crate) fn ghost_step(
    alloc: Global,
    names: &mut Names,
    table: &mut Table,
    formulas: &[Option<usize>],
    left: (Place, u32),
    value: (Place, u32),
) -> Result<Step, NoMemory>
    ensures is { IfOk result (λ made. (p : ProgramTree) → AreFormulas p table.old formulas.now → (numbered : Callee → Option ℕ) → Makes numbered true names.new table.new (ghost_code left.0 (ghost_target (value_of p left.1)) value.0 (value_of p value.1)) made) }
    ensures names { Grows names.old names.new }
    ensures table { Extends table.old table.new }
{
    let target = value_node(table, formulas, left.1)?;
    let side = left_of(table, target)?;
    left_step(alloc, names, table, formulas, left.0, &side, value)
}
