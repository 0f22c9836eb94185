ghost use Rattle.std.specs.Prelude.{◌≡◌, ◌+ℤ◌, ◌-ℤ◌, ◌*ℤ◌, neg_ℤ, IfOk, IfErr, FitsSigned};
ghost use Rattle.std.specs.Int.{w64};
ghost use Rattle.jh_semantics.specs.Values.{value, number_of};
ghost use Rattle.jh_store.specs.memory.Held.{state_of};
ghost use Rattle.jh_operands.specs.declared.fault.Fault.TheVariants.{Overflow};
ghost use Rattle.jh_operands.specs.Exprs.{number_in, NumberFits};
ghost use Rattle.jh_operands.specs.Faults.{NumberFault, TwoFault};

use crate::exprs::NumberExpr;
use crate::fault::Fault;
use crate::objects::receiver_value;
use crate::reads;
use jh_name::Place;
use jh_store::memory::Memory;

/// The sum of two numbers.
fn added(place: Place, left: &i64, right: &i64) -> Result<i64, Fault>
    ensures value { IfOk result (λ sum. sum ≡ left.now +ℤ right.now) }
    ensures fault { IfErr result (λ e. (e ≡ Overflow place) × (FitsSigned w64 (left.now +ℤ right.now) → ⊥)) }
{
    match left.checked_add(*right) {
        Some(number) => Ok(number),
        None => Err(Fault::Overflow(place)),
    }
}

/// The difference of two numbers.
fn subtracted(place: Place, left: &i64, right: &i64) -> Result<i64, Fault>
    ensures value { IfOk result (λ made. made ≡ left.now -ℤ right.now) }
    ensures fault { IfErr result (λ e. (e ≡ Overflow place) × (FitsSigned w64 (left.now -ℤ right.now) → ⊥)) }
{
    match left.checked_sub(*right) {
        Some(number) => Ok(number),
        None => Err(Fault::Overflow(place)),
    }
}

/// A number with the other sign.
fn negated(place: Place, number: &i64) -> Result<i64, Fault>
    ensures value { IfOk result (λ made. made ≡ neg_ℤ number.now) }
    ensures fault { IfErr result (λ e. (e ≡ Overflow place) × (FitsSigned w64 (neg_ℤ number.now) → ⊥)) }
{
    match number.checked_neg() {
        Some(number) => Ok(number),
        None => Err(Fault::Overflow(place)),
    }
}

/// A number times a constant.
fn scaled(place: Place, factor: &i64, number: &i64) -> Result<i64, Fault>
    ensures value { IfOk result (λ made. made ≡ factor.now *ℤ number.now) }
    ensures fault { IfErr result (λ e. (e ≡ Overflow place) × (FitsSigned w64 (factor.now *ℤ number.now) → ⊥)) }
{
    match factor.checked_mul(*number) {
        Some(number) => Ok(number),
        None => Err(Fault::Overflow(place)),
    }
}

/// The value of an expression for a number.
#[tactic(auto, using(crate::proofs::NumberSteps::number_steps))]
pub fn number_value(memory: &Memory<'_>, code: &NumberExpr) -> Result<i64, Fault>
    ensures value { NumberFits memory.now.names code.now → IfOk result (λ z. number_of (number_in memory.now.names code.now) (state_of memory.now) ≡ value z) }
    ensures fault { NumberFits memory.now.names code.now → IfErr result (NumberFault (number_in memory.now.names code.now) (state_of memory.now)) }
{
    match code {
        NumberExpr::Const(number) => Ok(*number),
        NumberExpr::Name(name) => Ok(reads::number(memory, *name)),
        NumberExpr::Read(field, receiver, place) => {
            let at = receiver_value(memory, receiver, *place)?;
            Ok(reads::number_at(memory, *field, at))
        }
        NumberExpr::Add(place, left, right) => {
            let left = number_value(memory, left)?;
            let right = number_value(memory, right)?;
            added(*place, &left, &right)
        }
        NumberExpr::Sub(place, left, right) => {
            let left = number_value(memory, left)?;
            let right = number_value(memory, right)?;
            subtracted(*place, &left, &right)
        }
        NumberExpr::Minus(place, inner) => {
            let inner = number_value(memory, inner)?;
            negated(*place, &inner)
        }
        NumberExpr::Times(place, factor, inner) => {
            let inner = number_value(memory, inner)?;
            scaled(*place, factor, &inner)
        }
    }
}

/// The values of two expressions for numbers, from the left.
#[tactic(auto, using(crate::proofs::NumberSteps::two_steps))]
pub(crate) fn two_numbers(
    memory: &Memory<'_>,
    left: &NumberExpr,
    right: &NumberExpr,
) -> Result<(i64, i64), Fault>
    ensures value { NumberFits memory.now.names left.now → NumberFits memory.now.names right.now → IfOk result (λ made. (number_of (number_in memory.now.names left.now) (state_of memory.now) ≡ value made.0) × (number_of (number_in memory.now.names right.now) (state_of memory.now) ≡ value made.1)) }
    ensures fault { NumberFits memory.now.names left.now → NumberFits memory.now.names right.now → IfErr result (TwoFault (number_in memory.now.names left.now) (number_in memory.now.names right.now) (state_of memory.now)) }
{
    let left = number_value(memory, left)?;
    let right = number_value(memory, right)?;
    Ok((left, right))
}
