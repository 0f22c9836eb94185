#![tactic(auto, using(crate::proofs::ValueSteps::value_steps))]

ghost use Rattle.std.specs.Prelude.{◌≡◌, ◌<◌, suc, IfOk, IfErr};
ghost use Rattle.jh_semantics.specs.Values.{value, value_of};
ghost use Rattle.jh_store.specs.memory.Held.{state_of};
ghost use Rattle.jh_operands.specs.Exprs.{any_in, AnyFits};
ghost use Rattle.jh_operands.specs.Faults.{AnyFault};
ghost use Rattle.jh_operands.specs.Scalars.{datum_of, IsInside};

use crate::exprs::AnyExpr;
use crate::fault::Fault;
use crate::numbers::number_value;
use crate::objects::object_value;
use crate::truths::truth_value;
use jh_store::memory::Memory;

/// A value of code: an object, a number or a truth.
#[derive(Clone, Copy, PartialEq, Eq)]
pub enum Scalar {
    Object(u32),
    Number(i64),
    Truth(bool),
}

/// The value of an expression.
pub fn any_value(memory: &Memory<'_>, code: &AnyExpr) -> Result<Scalar, Fault>
    ensures value { AnyFits memory.now.names code.now → IfOk result (λ v. value_of (any_in memory.now.names code.now) (state_of memory.now) ≡ value (datum_of v)) }
    ensures inside { IfOk result (IsInside memory.now.last) }
    ensures fault { AnyFits memory.now.names code.now → IfErr result (AnyFault (any_in memory.now.names code.now) (state_of memory.now)) }
{
    match code {
        AnyExpr::Object(code) => {
            let object = object_value(memory, code)?;
            Ok(Scalar::Object(object))
        }
        AnyExpr::Number(code) => {
            let number = number_value(memory, code)?;
            Ok(Scalar::Number(number))
        }
        AnyExpr::Truth(code) => {
            let truth = truth_value(memory, code)?;
            Ok(Scalar::Truth(truth))
        }
    }
}
