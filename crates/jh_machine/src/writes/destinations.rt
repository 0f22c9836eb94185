ghost use Rattle.std.specs.Prelude.{◌≡◌, ◌<◌, ℕ, suc, OnOk, IfOk, IfErr};
ghost use Rattle.jh_semantics.specs.Code.{Target};
ghost use Rattle.jh_semantics.specs.State.{stored, stored_at};
ghost use Rattle.jh_semantics.specs.Values.{value};
ghost use Rattle.jh_semantics.specs.Objects as runs;
ghost use Rattle.jh_semantics.specs.Objects.{target_of};
ghost use Rattle.jh_semantics.specs.Progress.{Configuration, goes_on_in};
ghost use Rattle.jh_store.specs.memory.Held.{state_of};
ghost use Rattle.jh_operands.specs.Exprs.{any_in, text_at, IsPlain, AnyFits};
ghost use Rattle.jh_operands.specs.Faults.{Never};
ghost use Rattle.jh_operands.specs.Scalars.{datum_of, IsInside};
ghost use Rattle.jh_machine_code.specs.code.Destinations.{IsTarget};
ghost use Rattle.jh_machine.specs.continuation.Stops.{StopsAs, TargetFault};
ghost use Rattle.jh_machine.specs.continuation.Assigning.{assigned_by, AssignOverflows};

use crate::continuation::Stop;
use crate::writes::writes;
use jh_machine_code::code::Destination;
use jh_name::NoMemory;
use jh_operands::{AnyExpr, Fault, Scalar, any_value, dereference, object_value};
use jh_store::memory::Memory;

/// The object of a destination that is a field, and else null.
pub fn destination_object(memory: &Memory<'_>, destination: &Destination) -> Result<u32, Fault>
    ensures value { (t : Target) → IsTarget memory.now.names destination.now t → IfOk result (λ a. target_of t (state_of memory.now) ≡ value a) }
    ensures inside { IfOk result (λ a. a < suc memory.now.last) }
    ensures fault { (t : Target) → IsTarget memory.now.names destination.now t → IfErr result (TargetFault t (state_of memory.now)) }
{
    match destination {
        Destination::Nowhere => Ok(0),
        Destination::Name(_) => Ok(0),
        Destination::Field(_, receiver, _) => object_value(memory, receiver),
    }
}

/// Writes a value to a name.
pub fn put_name(memory: &mut Memory<'_>, name: usize, value: Scalar)
    ensures names { memory.new.names ≡ memory.old.names }
    ensures last { memory.new.last ≡ memory.old.last }
    ensures state { IsPlain memory.old.names name → IsInside memory.old.last value → state_of memory.new ≡ stored (state_of memory.old) (text_at memory.old.names name) (datum_of value) }
{
    match value {
        Scalar::Object(object) => writes::put_object(memory, name, object),
        Scalar::Number(number) => writes::put_number(memory, name, number),
        Scalar::Truth(truth) => writes::put_truth(memory, name, truth),
    }
}

/// Writes a value to a field of an object.
pub fn put_field(
    memory: &mut Memory<'_>,
    field: usize,
    at: u32,
    value: Scalar,
) -> Result<(), NoMemory>
    ensures names { memory.new.names ≡ memory.old.names }
    ensures last { memory.new.last ≡ memory.old.last }
    ensures state { OnOk result (IsPlain memory.old.names field → IsInside memory.old.last value → state_of memory.new ≡ stored_at (state_of memory.old) (text_at memory.old.names field) at (datum_of value)) }
{
    match value {
        Scalar::Object(object) => writes::put_object_at(memory, field, at, object),
        Scalar::Number(number) => writes::put_number_at(memory, field, at, number),
        Scalar::Truth(truth) => writes::put_truth_at(memory, field, at, truth),
    }
}

/// Writes a value to its destination, whose object is given.
pub fn put(
    memory: &mut Memory<'_>,
    destination: &Destination,
    object: u32,
    value: Scalar,
) -> Result<(), Stop>
    ensures names { memory.new.names ≡ memory.old.names }
    ensures last { memory.new.last ≡ memory.old.last }
    ensures on { (t : Target) → IsTarget memory.old.names destination.now t → (r : Configuration) → r.now ≡ state_of memory.old → IsInside memory.old.last value → OnOk result (runs.put t object (datum_of value) r ≡ goes_on_in r (state_of memory.new)) }
    ensures stop { (t : Target) → IsTarget memory.old.names destination.now t → (r : Configuration) → IfErr result (StopsAs (runs.put t object (datum_of value) r) Never) }
{
    match destination {
        Destination::Nowhere => Ok(()),
        Destination::Name(name) => {
            put_name(memory, *name, value);
            Ok(())
        }
        Destination::Field(field, receiver, place) => {
            let at = dereference(receiver, *place, object)?;
            put_field(memory, *field, at, value)?;
            Ok(())
        }
    }
}

/// Writes the value of an expression to its destination.
pub fn assign(
    memory: &mut Memory<'_>,
    destination: &Destination,
    code: &AnyExpr,
) -> Result<(), Stop>
    ensures names { memory.new.names ≡ memory.old.names }
    ensures last { memory.new.last ≡ memory.old.last }
    ensures on { (t : Target) → IsTarget memory.old.names destination.now t → AnyFits memory.old.names code.now → (r : Configuration) → r.now ≡ state_of memory.old → OnOk result (assigned_by t (any_in memory.old.names code.now) r ≡ goes_on_in r (state_of memory.new)) }
    ensures stop { (t : Target) → IsTarget memory.old.names destination.now t → AnyFits memory.old.names code.now → (r : Configuration) → r.now ≡ state_of memory.old → IfErr result (StopsAs (assigned_by t (any_in memory.old.names code.now) r) (λ p. AssignOverflows p t (any_in memory.old.names code.now) r.now)) }
{
    let object = destination_object(memory, destination)?;
    let value = any_value(memory, code)?;
    put(memory, destination, object, value)
}
