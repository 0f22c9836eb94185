ghost use Rattle.std.specs.Prelude.{◌≡◌, ◌<◌, suc, List, IfOk, IfErr};
ghost use Rattle.jh_semantics.specs.Values.{value, object_of, dereferenced};
ghost use Rattle.jh_store.specs.memory.Held.{state_of};
ghost use Rattle.jh_name.specs.declared.naming.Name.{Name};
ghost use Rattle.jh_operands.specs.Exprs.{object_in, ObjectFits};
ghost use Rattle.jh_operands.specs.Faults.{IsFault, Never, ObjectFault, ReceiverFault, receiver_of, unless_null};

use crate::exprs::ObjectExpr;
use crate::fault::Fault;
use crate::reads;
use jh_name::Place;
use jh_store::memory::Memory;

/// An object, or a fault where it is null.
fn not_null(place: Place, object: u32) -> Result<u32, Fault>
    ensures value { IfOk result (λ a. unless_null place object ≡ value a) }
    ensures same { IfOk result (λ a. a ≡ object) }
    ensures fault { IfErr result (IsFault (unless_null place object) Never) }
{
    if object == 0 {
        Err(Fault::Null(place))
    } else {
        Ok(object)
    }
}

/// The object that something is asked of, whose value is given: a fault where it is null. `this` never is.
pub fn dereference(receiver: &ObjectExpr, place: Place, object: u32) -> Result<u32, Fault>
    ensures value { (names : List Name) → IfOk result (λ a. dereferenced (object_in names receiver.now) place object ≡ value a) }
    ensures same { IfOk result (λ a. a ≡ object) }
    ensures fault { (names : List Name) → IfErr result (IsFault (dereferenced (object_in names receiver.now) place object) Never) }
{
    match receiver {
        ObjectExpr::Null => not_null(place, object),
        ObjectExpr::This(_) => Ok(object),
        ObjectExpr::Name(_) => not_null(place, object),
        ObjectExpr::Read(_, _, _) => not_null(place, object),
    }
}

/// The value of an expression for an object.
#[tactic(auto, using(crate::proofs::ObjectSteps::object_steps))]
pub fn object_value(memory: &Memory<'_>, code: &ObjectExpr) -> Result<u32, Fault>
    ensures value { ObjectFits memory.now.names code.now → IfOk result (λ a. object_of (object_in memory.now.names code.now) (state_of memory.now) ≡ value a) }
    ensures inside { IfOk result (λ a. a < suc memory.now.last) }
    ensures fault { ObjectFits memory.now.names code.now → IfErr result (ObjectFault (object_in memory.now.names code.now) (state_of memory.now)) }
{
    match code {
        ObjectExpr::Null => Ok(0),
        ObjectExpr::This(name) => Ok(reads::object(memory, *name)),
        ObjectExpr::Name(name) => Ok(reads::object(memory, *name)),
        ObjectExpr::Read(field, receiver, place) => {
            let object = object_value(memory, receiver)?;
            let at = dereference(receiver, *place, object)?;
            Ok(reads::object_at(memory, *field, at))
        }
    }
}

/// The value of a receiver, which isn't null.
#[tactic(auto, using(crate::proofs::ObjectSteps::receiver_steps))]
pub fn receiver_value(
    memory: &Memory<'_>,
    receiver: &ObjectExpr,
    place: Place,
) -> Result<u32, Fault>
    ensures value { ObjectFits memory.now.names receiver.now → IfOk result (λ a. receiver_of (object_in memory.now.names receiver.now) place (state_of memory.now) ≡ value a) }
    ensures inside { IfOk result (λ a. a < suc memory.now.last) }
    ensures fault { ObjectFits memory.now.names receiver.now → IfErr result (ReceiverFault (object_in memory.now.names receiver.now) place (state_of memory.now)) }
{
    let object = object_value(memory, receiver)?;
    dereference(receiver, place, object)
}
