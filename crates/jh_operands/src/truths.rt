ghost use Rattle.std.specs.Prelude.{◌≡◌, ◌==◌, not, int_lt, int_le, IfOk, IfErr};
ghost use Rattle.std.specs.Ordering.{int_eq};
ghost use Rattle.jh_form.specs.Meaning.{agree};
ghost use Rattle.jh_semantics.specs.Values.{value, object_of, truth_of};
ghost use Rattle.jh_store.specs.memory.Held.{state_of};
ghost use Rattle.jh_operands.specs.Exprs.{object_in, truth_in, ObjectFits, TruthFits};
ghost use Rattle.jh_operands.specs.Faults.{TruthFault, TwoObjectFault};

use crate::exprs::{ObjectExpr, TruthExpr};
use crate::fault::Fault;
use crate::numbers::two_numbers;
use crate::objects::{object_value, receiver_value};
use crate::reads;
use jh_store::memory::Memory;

/// The values of two expressions for objects, from the left.
#[tactic(auto, using(crate::proofs::TruthSteps::pair_steps))]
fn two_objects(
    memory: &Memory<'_>,
    left: &ObjectExpr,
    right: &ObjectExpr,
) -> Result<(u32, u32), Fault>
    ensures value { ObjectFits memory.now.names left.now → ObjectFits memory.now.names right.now → IfOk result (λ made. (object_of (object_in memory.now.names left.now) (state_of memory.now) ≡ value made.0) × (object_of (object_in memory.now.names right.now) (state_of memory.now) ≡ value made.1)) }
    ensures fault { ObjectFits memory.now.names left.now → ObjectFits memory.now.names right.now → IfErr result (TwoObjectFault (object_in memory.now.names left.now) (object_in memory.now.names right.now) (state_of memory.now)) }
{
    let left = object_value(memory, left)?;
    let right = object_value(memory, right)?;
    Ok((left, right))
}

/// Whether two truths are the same.
fn agree(left: bool, right: bool) -> bool
    ensures { result ≡ agree left right }
{
    if left { right } else { !right }
}

/// The value of an expression for a truth. The right operand of `&&` and `||` is taken only where the left one doesn't
/// decide.
#[tactic(auto, using(crate::proofs::TruthSteps::truth_steps))]
pub fn truth_value(memory: &Memory<'_>, code: &TruthExpr) -> Result<bool, Fault>
    ensures value { TruthFits memory.now.names code.now → IfOk result (λ b. truth_of (truth_in memory.now.names code.now) (state_of memory.now) ≡ value b) }
    ensures fault { TruthFits memory.now.names code.now → IfErr result (TruthFault (truth_in memory.now.names code.now) (state_of memory.now)) }
{
    match code {
        TruthExpr::Literal(is_true) => Ok(*is_true),
        TruthExpr::Name(name) => Ok(reads::truth(memory, *name)),
        TruthExpr::Read(field, receiver, place) => {
            let at = receiver_value(memory, receiver, *place)?;
            Ok(reads::truth_at(memory, *field, at))
        }
        TruthExpr::Not(inner) => {
            let inner = truth_value(memory, inner)?;
            Ok(!inner)
        }
        TruthExpr::And(left, right) => {
            let left = truth_value(memory, left)?;
            if left {
                truth_value(memory, right)
            } else {
                Ok(false)
            }
        }
        TruthExpr::Or(left, right) => {
            let left = truth_value(memory, left)?;
            if left {
                Ok(true)
            } else {
                truth_value(memory, right)
            }
        }
        TruthExpr::SameObject(left, right) => {
            let (left, right) = two_objects(memory, left, right)?;
            Ok(left == right)
        }
        TruthExpr::SameNumber(left, right) => {
            let (left, right) = two_numbers(memory, left, right)?;
            Ok(left == right)
        }
        TruthExpr::SameTruth(left, right) => {
            let left = truth_value(memory, left)?;
            let right = truth_value(memory, right)?;
            Ok(agree(left, right))
        }
        TruthExpr::Less(left, right) => {
            let (left, right) = two_numbers(memory, left, right)?;
            Ok(left < right)
        }
        TruthExpr::LessEq(left, right) => {
            let (left, right) = two_numbers(memory, left, right)?;
            Ok(left <= right)
        }
        TruthExpr::Greater(left, right) => {
            let (left, right) = two_numbers(memory, left, right)?;
            Ok(left > right)
        }
        TruthExpr::GreaterEq(left, right) => {
            let (left, right) = two_numbers(memory, left, right)?;
            Ok(left >= right)
        }
    }
}
