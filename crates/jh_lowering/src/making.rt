#![tactic(auto, unfolding(jh_semantics::specs::typed_code::Codes::object_code, jh_semantics::specs::typed_code::Codes::number_code, jh_semantics::specs::typed_code::Codes::truth_code, jh_semantics::specs::typed_code::Codes::any_code))]

ghost use Rattle.std.specs.Prelude.{◌≡◌, IfOk};
ghost use Rattle.jh_semantics.specs.Code as c;
ghost use Rattle.jh_semantics.specs.Lowered as lowered;
ghost use Rattle.jh_semantics.specs.typed_code.Codes.{object_code, number_code, truth_code, any_code};
ghost use Rattle.jh_lowering.specs.Lowering.{boxed_code};

use jh_name::{Kind, Name, NoMemory, Place};
use jh_semantics::typed_code::{AnyCode, Code, NumberCode, ObjectCode, TruthCode};
use std::alloc::Global;

/// An expression of code, by the type of its values, in a box. While the code of an expression is made it is handed about
/// so: what is alive where memory may be wanting is narrow, which keeps the proofs short.
#[derive(Drop)]
pub enum BoxedCode {
    Object(Box<ObjectCode>),
    Number(Box<NumberCode>),
    Truth(Box<TruthCode>),
}

/// The code out of its box.
pub fn out_of_box(code: BoxedCode) -> AnyCode
    ensures { any_code result ≡ boxed_code code }
{
    match code {
        BoxedCode::Object(object) => AnyCode::Object(Box::into_inner(object)),
        BoxedCode::Number(number) => AnyCode::Number(Box::into_inner(number)),
        BoxedCode::Truth(truth) => AnyCode::Truth(Box::into_inner(truth)),
    }
}

/// An object, boxed.
pub fn an_object(alloc: Global, code: ObjectCode) -> Result<BoxedCode, NoMemory>
    ensures { IfOk result (λ made. boxed_code made ≡ c.an_object (object_code code)) }
{
    Ok(BoxedCode::Object(Box::new(alloc, code)?))
}

/// A number, boxed.
pub fn a_number(alloc: Global, code: NumberCode) -> Result<BoxedCode, NoMemory>
    ensures { IfOk result (λ made. boxed_code made ≡ c.a_number (number_code code)) }
{
    Ok(BoxedCode::Number(Box::new(alloc, code)?))
}

/// A truth, boxed.
pub fn a_truth(alloc: Global, code: TruthCode) -> Result<BoxedCode, NoMemory>
    ensures { IfOk result (λ made. boxed_code made ≡ c.a_truth (truth_code code)) }
{
    Ok(BoxedCode::Truth(Box::new(alloc, code)?))
}

/// No object.
pub fn null_code(alloc: Global) -> Result<BoxedCode, NoMemory>
    ensures { IfOk result (λ made. boxed_code made ≡ c.an_object c.null) }
{
    an_object(alloc, ObjectCode::Null)
}

/// A number as it is written.
pub fn constant(alloc: Global, number: i64) -> Result<BoxedCode, NoMemory>
    ensures { IfOk result (λ made. boxed_code made ≡ c.a_number (c.const number)) }
{
    a_number(alloc, NumberCode::Const(number))
}

/// A truth as it is written.
pub fn truth_value(alloc: Global, value: bool) -> Result<BoxedCode, NoMemory>
    ensures { IfOk result (λ made. boxed_code made ≡ c.a_truth (c.literal value)) }
{
    a_truth(alloc, TruthCode::Literal(value))
}

/// A value that is an object, and null where it is none.
pub fn as_object(code: BoxedCode) -> ObjectCode
    ensures { object_code result ≡ lowered.as_object (boxed_code code) }
{
    match code {
        BoxedCode::Object(object) => Box::into_inner(object),
        _ => ObjectCode::Null,
    }
}

/// A value that is a number, and 0 where it is none.
pub fn as_number(code: BoxedCode) -> NumberCode
    ensures { number_code result ≡ lowered.as_number (boxed_code code) }
{
    match code {
        BoxedCode::Number(number) => Box::into_inner(number),
        _ => NumberCode::Const(0),
    }
}

/// A value that is an object, in a box.
pub fn boxed_object(alloc: Global, code: BoxedCode) -> Result<Box<ObjectCode>, NoMemory>
    ensures { IfOk result (λ made. object_code made.value ≡ lowered.as_object (boxed_code code)) }
{
    match code {
        BoxedCode::Object(object) => Ok(object),
        _ => Ok(Box::new(alloc, ObjectCode::Null)?),
    }
}

/// A value that is a number, in a box.
pub fn boxed_number(alloc: Global, code: BoxedCode) -> Result<Box<NumberCode>, NoMemory>
    ensures { IfOk result (λ made. number_code made.value ≡ lowered.as_number (boxed_code code)) }
{
    match code {
        BoxedCode::Number(number) => Ok(number),
        _ => Ok(Box::new(alloc, NumberCode::Const(0))?),
    }
}

/// A value that is a truth, in a box; false where it is none.
pub fn boxed_truth(alloc: Global, code: BoxedCode) -> Result<Box<TruthCode>, NoMemory>
    ensures { IfOk result (λ made. truth_code made.value ≡ lowered.as_truth (boxed_code code)) }
{
    match code {
        BoxedCode::Truth(truth) => Ok(truth),
        _ => Ok(Box::new(alloc, TruthCode::Literal(false))?),
    }
}

/// A statement in a box. What can't be boxed is dropped here alone, for all that make one.
pub fn boxed(alloc: Global, code: Code) -> Result<Box<Code>, NoMemory>
    ensures { IfOk result (λ made. made.value ≡ code) }
{
    Ok(Box::new(alloc, code)?)
}

/// A parameter, a local or a static of a kind.
pub fn name_code(alloc: Global, kind: Kind, name: Name) -> Result<BoxedCode, NoMemory>
    ensures { IfOk result (λ made. boxed_code made ≡ lowered.name_code kind name.text) }
{
    match kind {
        Kind::Int => a_number(alloc, NumberCode::Name(name)),
        Kind::Bool => a_truth(alloc, TruthCode::Name(name)),
        _ => an_object(alloc, ObjectCode::Name(name)),
    }
}

/// The read of a field of a kind.
pub fn read_code(
    alloc: Global,
    kind: Kind,
    field: Name,
    receiver: Box<ObjectCode>,
    place: Place,
) -> Result<BoxedCode, NoMemory>
    ensures { IfOk result (λ made. boxed_code made ≡ lowered.read_code kind field.text (object_code receiver.value) place) }
{
    match kind {
        Kind::Int => a_number(
            alloc,
            NumberCode::Read(field, Box::into_inner(receiver), place),
        ),
        Kind::Bool => a_truth(
            alloc,
            TruthCode::Read(field, Box::into_inner(receiver), place),
        ),
        _ => an_object(alloc, ObjectCode::Read(field, receiver, place)),
    }
}
