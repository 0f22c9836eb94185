ghost use Rattle.std.specs.Prelude.{◌≡◌, IfOk};
ghost use Rattle.jh_arena.specs.table.Growth.{Grows};
ghost use Rattle.jh_machine_code.specs.numbering.Numbered.{IsTruth};

use crate::numbering::numbers::two_numbers;
use crate::numbering::objects::object_expr;
use crate::numbering::texts::name_number;
use jh_name::NoMemory;
use jh_operands::TruthExpr;
use jh_operands::jh_store::memory::Names;
use jh_semantics::typed_code::TruthCode;
use std::alloc::Global;

/// An expression in a box. What can't be boxed is dropped here alone, which keeps the proofs of what makes it short.
fn in_box(alloc: Global, made: TruthExpr) -> Result<Box<TruthExpr>, NoMemory>
    ensures ok { IfOk result (λ boxed. boxed.value ≡ made) }
{
    Ok(Box::new(alloc, made)?)
}

/// The expression of a code for a truth. Names that have no number get one.
#[tactic(auto, using(crate::proofs::numbering::TruthSteps::truth_steps))]
pub fn truth_expr(alloc: Global, names: &mut Names, code: &TruthCode) -> Result<TruthExpr, NoMemory>
    ensures is { IfOk result (IsTruth names.new code.now) }
    ensures grows { Grows names.old names.new }
{
    match code {
        TruthCode::Literal(is_true) => Ok(TruthExpr::Literal(*is_true)),
        TruthCode::Name(name) => {
            let number = name_number(alloc, names, name)?;
            Ok(TruthExpr::Name(number))
        }
        TruthCode::Read(field, receiver, place) => {
            let field = name_number(alloc, names, field)?;
            let receiver = object_expr(alloc, names, receiver)?;
            Ok(TruthExpr::Read(field, receiver, *place))
        }
        TruthCode::Not(inner) => {
            let inner = truth_expr(alloc, names, inner)?;
            let inner = in_box(alloc, inner)?;
            Ok(TruthExpr::Not(inner))
        }
        TruthCode::And(left, right) => {
            let left = truth_expr(alloc, names, left)?;
            let left = in_box(alloc, left)?;
            let right = truth_expr(alloc, names, right)?;
            let right = in_box(alloc, right)?;
            Ok(TruthExpr::And(left, right))
        }
        TruthCode::Or(left, right) => {
            let left = truth_expr(alloc, names, left)?;
            let left = in_box(alloc, left)?;
            let right = truth_expr(alloc, names, right)?;
            let right = in_box(alloc, right)?;
            Ok(TruthExpr::Or(left, right))
        }
        TruthCode::SameObject(left, right) => {
            let left = object_expr(alloc, names, left)?;
            let right = object_expr(alloc, names, right)?;
            Ok(TruthExpr::SameObject(left, right))
        }
        TruthCode::SameNumber(left, right) => {
            let both = two_numbers(alloc, names, left, right)?;
            Ok(TruthExpr::SameNumber(both.left, both.right))
        }
        TruthCode::SameTruth(left, right) => {
            let left = truth_expr(alloc, names, left)?;
            let left = in_box(alloc, left)?;
            let right = truth_expr(alloc, names, right)?;
            let right = in_box(alloc, right)?;
            Ok(TruthExpr::SameTruth(left, right))
        }
        TruthCode::Less(left, right) => {
            let both = two_numbers(alloc, names, left, right)?;
            Ok(TruthExpr::Less(both.left, both.right))
        }
        TruthCode::LessEq(left, right) => {
            let both = two_numbers(alloc, names, left, right)?;
            Ok(TruthExpr::LessEq(both.left, both.right))
        }
        TruthCode::Greater(left, right) => {
            let both = two_numbers(alloc, names, left, right)?;
            Ok(TruthExpr::Greater(both.left, both.right))
        }
        TruthCode::GreaterEq(left, right) => {
            let both = two_numbers(alloc, names, left, right)?;
            Ok(TruthExpr::GreaterEq(both.left, both.right))
        }
    }
}
