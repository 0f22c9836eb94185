#![tactic(auto, unfolding(jh_semantics::specs::typed_code::Codes::number_code))]

ghost use Rattle.std.specs.Prelude.{◌≡◌, IfOk};
ghost use Rattle.jh_semantics.specs.Code as c;
ghost use Rattle.jh_semantics.specs.Lowered as lowered;
ghost use Rattle.jh_semantics.specs.typed_code.Codes.{number_code};
ghost use Rattle.jh_lowering.specs.Lowering.{boxed_code};

use crate::making::{BoxedCode, a_number, boxed_number};
use jh_name::{NoMemory, Place};
use jh_semantics::typed_code::NumberCode;
use std::alloc::Global;

/// Two numbers in boxes.
#[derive(Drop)]
pub struct Numbers {
    pub left: Box<NumberCode>,
    pub right: Box<NumberCode>,
}

/// Two values that are numbers.
pub fn boxed_numbers(alloc: Global, left: BoxedCode, right: BoxedCode) -> Result<Numbers, NoMemory>
    ensures left { IfOk result (λ made. number_code made.left.value ≡ lowered.as_number (boxed_code left)) }
    ensures right { IfOk result (λ made. number_code made.right.value ≡ lowered.as_number (boxed_code right)) }
{
    let left = boxed_number(alloc, left)?;
    let right = boxed_number(alloc, right)?;
    Ok(Numbers { left, right })
}

/// The negative of a number.
pub fn negative(alloc: Global, place: Place, inside: BoxedCode) -> Result<BoxedCode, NoMemory>
    ensures { IfOk result (λ made. boxed_code made ≡ c.a_number (c.minus place (lowered.as_number (boxed_code inside)))) }
{
    let inside = boxed_number(alloc, inside)?;
    a_number(alloc, NumberCode::Minus(place, inside))
}

/// A multiple of a number.
fn multiple(
    alloc: Global,
    place: Place,
    factor: i64,
    inside: BoxedCode,
) -> Result<BoxedCode, NoMemory>
    ensures { IfOk result (λ made. boxed_code made ≡ c.a_number (c.times place factor (lowered.as_number (boxed_code inside)))) }
{
    let inside = boxed_number(alloc, inside)?;
    a_number(alloc, NumberCode::Times(place, factor, inside))
}

/// A value as a number, whatever its type.
fn numeric(alloc: Global, code: BoxedCode) -> Result<BoxedCode, NoMemory>
    ensures { IfOk result (λ made. boxed_code made ≡ c.a_number (lowered.as_number (boxed_code code))) }
{
    Ok(BoxedCode::Number(boxed_number(alloc, code)?))
}

/// A product, whose factor is the literal; of two the left one.
pub fn product(
    alloc: Global,
    place: Place,
    literals: (Option<i64>, Option<i64>),
    left: BoxedCode,
    right: BoxedCode,
) -> Result<BoxedCode, NoMemory>
    ensures { IfOk result (λ made. boxed_code made ≡ c.a_number (lowered.product place literals.0 literals.1 (lowered.as_number (boxed_code left)) (lowered.as_number (boxed_code right)))) }
{
    let (first, second) = literals;
    match first {
        Some(factor) => multiple(alloc, place, factor, right),
        None => match second {
            Some(factor) => multiple(alloc, place, factor, left),
            None => numeric(alloc, left),
        },
    }
}
