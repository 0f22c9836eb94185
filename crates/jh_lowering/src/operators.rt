#![tactic(auto, unfolding(jh_semantics::specs::typed_code::Codes::object_code, jh_semantics::specs::typed_code::Codes::number_code, jh_semantics::specs::typed_code::Codes::truth_code))]

ghost use Rattle.std.specs.Prelude.{◌≡◌, IfOk};
ghost use Rattle.jh_semantics.specs.Code as c;
ghost use Rattle.jh_semantics.specs.Lowered as lowered;
ghost use Rattle.jh_semantics.specs.typed_code.Codes.{truth_code};
ghost use Rattle.jh_lowering.specs.Lowering.{boxed_code};

use crate::making::{BoxedCode, a_number, a_truth, as_number, as_object, boxed_truth};
use crate::numbers::{boxed_numbers, product};
use crate::truths::boxed_truths;
use jh_ast::Op;
use jh_name::{NoMemory, Place};
use jh_semantics::typed_code::{NumberCode, TruthCode};
use std::alloc::Global;

/// That two truths are the same.
fn same_truth(alloc: Global, left: Box<TruthCode>, right: BoxedCode) -> Result<TruthCode, NoMemory>
    ensures { IfOk result (λ made. truth_code made ≡ c.same_truth (truth_code left.value) (lowered.as_truth (boxed_code right))) }
{
    let right = boxed_truth(alloc, right)?;
    Ok(TruthCode::SameTruth(left, right))
}

/// That two values are the same, at the type of the left one.
fn equal(alloc: Global, left: BoxedCode, right: BoxedCode) -> Result<TruthCode, NoMemory>
    ensures { IfOk result (λ made. truth_code made ≡ lowered.equal_code (boxed_code left) (boxed_code right)) }
{
    match left {
        BoxedCode::Object(object) => Ok(TruthCode::SameObject(
            Box::into_inner(object),
            as_object(right),
        )),
        BoxedCode::Number(number) => Ok(TruthCode::SameNumber(
            Box::into_inner(number),
            as_number(right),
        )),
        BoxedCode::Truth(truth) => same_truth(alloc, truth, right),
    }
}

/// `||`.
fn or_code(alloc: Global, left: BoxedCode, right: BoxedCode) -> Result<BoxedCode, NoMemory>
    ensures { IfOk result (λ made. boxed_code made ≡ c.a_truth (c.either (lowered.as_truth (boxed_code left)) (lowered.as_truth (boxed_code right)))) }
{
    let both = boxed_truths(alloc, left, right)?;
    a_truth(alloc, TruthCode::Or(both.left, both.right))
}

/// `&&`.
fn and_code(alloc: Global, left: BoxedCode, right: BoxedCode) -> Result<BoxedCode, NoMemory>
    ensures { IfOk result (λ made. boxed_code made ≡ c.a_truth (c.both (lowered.as_truth (boxed_code left)) (lowered.as_truth (boxed_code right)))) }
{
    let both = boxed_truths(alloc, left, right)?;
    a_truth(alloc, TruthCode::And(both.left, both.right))
}

/// `==`.
fn equal_code(alloc: Global, left: BoxedCode, right: BoxedCode) -> Result<BoxedCode, NoMemory>
    ensures { IfOk result (λ made. boxed_code made ≡ c.a_truth (lowered.equal_code (boxed_code left) (boxed_code right))) }
{
    let made = equal(alloc, left, right)?;
    a_truth(alloc, made)
}

/// `!`.
pub fn negation(alloc: Global, inside: BoxedCode) -> Result<BoxedCode, NoMemory>
    ensures { IfOk result (λ made. boxed_code made ≡ c.a_truth (c.negation (lowered.as_truth (boxed_code inside)))) }
{
    let inside = boxed_truth(alloc, inside)?;
    a_truth(alloc, TruthCode::Not(inside))
}

/// `!=`.
fn different_code(alloc: Global, left: BoxedCode, right: BoxedCode) -> Result<BoxedCode, NoMemory>
    ensures { IfOk result (λ made. boxed_code made ≡ c.a_truth (c.negation (lowered.equal_code (boxed_code left) (boxed_code right)))) }
{
    let same = equal_code(alloc, left, right)?;
    negation(alloc, same)
}

/// `<`.
fn less_code(alloc: Global, left: BoxedCode, right: BoxedCode) -> Result<BoxedCode, NoMemory>
    ensures { IfOk result (λ made. boxed_code made ≡ c.a_truth (c.less (lowered.as_number (boxed_code left)) (lowered.as_number (boxed_code right)))) }
{
    a_truth(alloc, TruthCode::Less(as_number(left), as_number(right)))
}

/// `<=`.
fn less_equal_code(alloc: Global, left: BoxedCode, right: BoxedCode) -> Result<BoxedCode, NoMemory>
    ensures { IfOk result (λ made. boxed_code made ≡ c.a_truth (c.less_equal (lowered.as_number (boxed_code left)) (lowered.as_number (boxed_code right)))) }
{
    a_truth(alloc, TruthCode::LessEq(as_number(left), as_number(right)))
}

/// `>`.
fn greater_code(alloc: Global, left: BoxedCode, right: BoxedCode) -> Result<BoxedCode, NoMemory>
    ensures { IfOk result (λ made. boxed_code made ≡ c.a_truth (c.greater (lowered.as_number (boxed_code left)) (lowered.as_number (boxed_code right)))) }
{
    a_truth(alloc, TruthCode::Greater(as_number(left), as_number(right)))
}

/// `>=`.
fn greater_equal_code(
    alloc: Global,
    left: BoxedCode,
    right: BoxedCode,
) -> Result<BoxedCode, NoMemory>
    ensures { IfOk result (λ made. boxed_code made ≡ c.a_truth (c.greater_equal (lowered.as_number (boxed_code left)) (lowered.as_number (boxed_code right)))) }
{
    a_truth(
        alloc,
        TruthCode::GreaterEq(as_number(left), as_number(right)),
    )
}

/// `+`.
fn sum_code(
    alloc: Global,
    place: Place,
    left: BoxedCode,
    right: BoxedCode,
) -> Result<BoxedCode, NoMemory>
    ensures { IfOk result (λ made. boxed_code made ≡ c.a_number (c.add place (lowered.as_number (boxed_code left)) (lowered.as_number (boxed_code right)))) }
{
    let both = boxed_numbers(alloc, left, right)?;
    a_number(alloc, NumberCode::Add(place, both.left, both.right))
}

/// `-`.
fn difference_code(
    alloc: Global,
    place: Place,
    left: BoxedCode,
    right: BoxedCode,
) -> Result<BoxedCode, NoMemory>
    ensures { IfOk result (λ made. boxed_code made ≡ c.a_number (c.sub place (lowered.as_number (boxed_code left)) (lowered.as_number (boxed_code right)))) }
{
    let both = boxed_numbers(alloc, left, right)?;
    a_number(alloc, NumberCode::Sub(place, both.left, both.right))
}

/// Two operands with an operator between them, at the place of the first token; with the numbers that the operands are as
/// literals.
pub fn binary(
    alloc: Global,
    place: Place,
    op: Op,
    literals: (Option<i64>, Option<i64>),
    left: BoxedCode,
    right: BoxedCode,
) -> Result<BoxedCode, NoMemory>
    ensures { IfOk result (λ made. boxed_code made ≡ lowered.binary_code place op literals.0 (boxed_code left) literals.1 (boxed_code right)) }
{
    match op {
        Op::Or => or_code(alloc, left, right),
        Op::And => and_code(alloc, left, right),
        Op::Equal => equal_code(alloc, left, right),
        Op::NotEqual => different_code(alloc, left, right),
        Op::Less => less_code(alloc, left, right),
        Op::LessEq => less_equal_code(alloc, left, right),
        Op::Greater => greater_code(alloc, left, right),
        Op::GreaterEq => greater_equal_code(alloc, left, right),
        Op::Add => sum_code(alloc, place, left, right),
        Op::Sub => difference_code(alloc, place, left, right),
        Op::Mul => product(alloc, place, literals, left, right),
    }
}
