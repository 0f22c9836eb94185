ghost use Rattle.std.specs.Prelude.{◌≡◌, IfOk};
ghost use Rattle.jh_arena.specs.table.Growth.{Grows};
ghost use Rattle.jh_machine_code.specs.numbering.Numbered.{IsNumber};

use crate::numbering::objects::object_expr;
use crate::numbering::texts::name_number;
use jh_name::NoMemory;
use jh_operands::NumberExpr;
use jh_operands::jh_store::memory::Names;
use jh_semantics::typed_code::NumberCode;
use std::alloc::Global;

/// An expression in a box. What can't be boxed is dropped here alone, which keeps the proofs of what makes it short.
fn in_box(alloc: Global, made: NumberExpr) -> Result<Box<NumberExpr>, NoMemory>
    ensures ok { IfOk result (λ boxed. boxed.value ≡ made) }
{
    Ok(Box::new(alloc, made)?)
}

/// The expression of a code for a number. Names that have no number get one.
#[tactic(auto, using(crate::proofs::numbering::NumberSteps::number_steps))]
pub fn number_expr(
    alloc: Global,
    names: &mut Names,
    code: &NumberCode,
) -> Result<NumberExpr, NoMemory>
    ensures is { IfOk result (IsNumber names.new code.now) }
    ensures grows { Grows names.old names.new }
{
    match code {
        NumberCode::Const(number) => Ok(NumberExpr::Const(*number)),
        NumberCode::Name(name) => {
            let number = name_number(alloc, names, name)?;
            Ok(NumberExpr::Name(number))
        }
        NumberCode::Read(field, receiver, place) => {
            let field = name_number(alloc, names, field)?;
            let receiver = object_expr(alloc, names, receiver)?;
            Ok(NumberExpr::Read(field, receiver, *place))
        }
        NumberCode::Add(place, left, right) => {
            let left = number_expr(alloc, names, left)?;
            let left = in_box(alloc, left)?;
            let right = number_expr(alloc, names, right)?;
            let right = in_box(alloc, right)?;
            Ok(NumberExpr::Add(*place, left, right))
        }
        NumberCode::Sub(place, left, right) => {
            let left = number_expr(alloc, names, left)?;
            let left = in_box(alloc, left)?;
            let right = number_expr(alloc, names, right)?;
            let right = in_box(alloc, right)?;
            Ok(NumberExpr::Sub(*place, left, right))
        }
        NumberCode::Minus(place, inner) => {
            let inner = number_expr(alloc, names, inner)?;
            let inner = in_box(alloc, inner)?;
            Ok(NumberExpr::Minus(*place, inner))
        }
        NumberCode::Times(place, factor, inner) => {
            let inner = number_expr(alloc, names, inner)?;
            let inner = in_box(alloc, inner)?;
            Ok(NumberExpr::Times(*place, *factor, inner))
        }
    }
}

/// Two expressions for numbers.
#[derive(Drop)]
pub(crate) struct Numbers {
    pub(crate) left: NumberExpr,
    pub(crate) right: NumberExpr,
}

/// The expressions of two codes for numbers.
#[tactic(auto, using(crate::proofs::numbering::NumberSteps::pair_steps))]
pub(crate) fn two_numbers(
    alloc: Global,
    names: &mut Names,
    left: &NumberCode,
    right: &NumberCode,
) -> Result<Numbers, NoMemory>
    ensures left { IfOk result (λ made. IsNumber names.new left.now made.left) }
    ensures right { IfOk result (λ made. IsNumber names.new right.now made.right) }
    ensures grows { Grows names.old names.new }
{
    let left = number_expr(alloc, names, left)?;
    let right = number_expr(alloc, names, right)?;
    Ok(Numbers { left, right })
}
