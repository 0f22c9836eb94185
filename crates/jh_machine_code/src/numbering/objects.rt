ghost use Rattle.std.specs.Prelude.{IfOk};
ghost use Rattle.jh_arena.specs.table.Growth.{Grows};
ghost use Rattle.jh_machine_code.specs.numbering.Numbered.{IsObject};

use crate::numbering::texts::{name_number, text_number};
use jh_name::NoMemory;
use jh_operands::ObjectExpr;
use jh_operands::jh_store::memory::Names;
use jh_semantics::typed_code::ObjectCode;
use std::alloc::Global;

/// The expression of a code for an object. Names that have no number get one.
#[tactic(auto, using(crate::proofs::numbering::ObjectSteps::object_steps))]
pub fn object_expr(
    alloc: Global,
    names: &mut Names,
    code: &ObjectCode,
) -> Result<ObjectExpr, NoMemory>
    ensures is { IfOk result (IsObject names.new code.now) }
    ensures grows { Grows names.old names.new }
{
    match code {
        ObjectCode::Null => Ok(ObjectExpr::Null),
        ObjectCode::This => {
            let number = text_number(alloc, names, "this")?;
            Ok(ObjectExpr::This(number))
        }
        ObjectCode::Name(name) => {
            let number = name_number(alloc, names, name)?;
            Ok(ObjectExpr::Name(number))
        }
        ObjectCode::Read(field, receiver, place) => {
            let field = name_number(alloc, names, field)?;
            let receiver = object_expr(alloc, names, receiver)?;
            let receiver = Box::new(alloc, receiver)?;
            Ok(ObjectExpr::Read(field, receiver, *place))
        }
    }
}
