ghost use Rattle.std.specs.Prelude.{IfOk};
ghost use Rattle.jh_arena.specs.table.Growth.{Grows};
ghost use Rattle.jh_machine_code.specs.numbering.Numbered.{IsAny};

use crate::numbering::numbers::number_expr;
use crate::numbering::objects::object_expr;
use crate::numbering::truths::truth_expr;
use jh_name::NoMemory;
use jh_operands::AnyExpr;
use jh_operands::jh_store::memory::Names;
use jh_semantics::typed_code::AnyCode;
use std::alloc::Global;

/// The expression of a code of any type. Names that have no number get one.
#[tactic(auto, using(crate::proofs::numbering::AnySteps::any_steps))]
pub fn any_expr(alloc: Global, names: &mut Names, code: &AnyCode) -> Result<AnyExpr, NoMemory>
    ensures is { IfOk result (IsAny names.new code.now) }
    ensures grows { Grows names.old names.new }
{
    match code {
        AnyCode::Object(code) => {
            let made = object_expr(alloc, names, code)?;
            Ok(AnyExpr::Object(made))
        }
        AnyCode::Number(code) => {
            let made = number_expr(alloc, names, code)?;
            Ok(AnyExpr::Number(made))
        }
        AnyCode::Truth(code) => {
            let made = truth_expr(alloc, names, code)?;
            Ok(AnyExpr::Truth(made))
        }
    }
}
