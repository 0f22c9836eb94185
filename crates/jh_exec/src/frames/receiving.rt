ghost use Rattle.std.specs.Prelude.{◌≡◌, ◌<◌, ℕ, Bool, suc, List, Option, map, IfOk, IfErr};
ghost use Rattle.jh_name.specs.declared.naming.Name.{Name};
ghost use Rattle.jh_form.specs.Meaning.{Datum};
ghost use Rattle.jh_arena.specs.table.Entries.{Listing};
ghost use Rattle.jh_vars.specs.Written.{Callee};
ghost use Rattle.jh_semantics.specs.Code.{ObjectCode, Stmt};
ghost use Rattle.jh_semantics.specs.Program.{Program};
ghost use Rattle.jh_semantics.specs.Values.{value};
ghost use Rattle.jh_semantics.specs.Progress.{Configuration, Progress};
ghost use Rattle.jh_semantics.specs.Execution.{receiver_of, called_on, with_values};
ghost use Rattle.jh_store.specs.memory.Held.{state_of};
ghost use Rattle.jh_operands.specs.Exprs.{any_in};
ghost use Rattle.jh_operands.specs.Faults.{IsFault, Never};
ghost use Rattle.jh_operands.specs.Scalars.{datum_of};
ghost use Rattle.jh_machine_code.specs.code.Steps.{ReceiverIs, AllFit, IsCall};
ghost use Rattle.jh_machine.specs.locals.Locals.{AllInside};
ghost use Rattle.jh_machine.specs.continuation.Stops.{StopsAs};
ghost use Rattle.jh_machine.specs.continuation.Overflows.{AreValues, ArgsOverflow, OwnOverflows};
ghost use Rattle.jh_machine.specs.continuation.Done.{done};
ghost use Rattle.jh_exec.specs.frames.Calls.{Calls};

use jh_machine::continuation::Stop;
use jh_machine::writes::destination_object;
use jh_machine_code::code::CallStep;
use jh_name::Place;
use jh_operands::{AnyExpr, Fault, ObjectExpr, Scalar, any_value, dereference, object_value};
use jh_store::memory::Memory;
use std::alloc::Global;

/// The values of a call: the object of its destination, where that is a field, the object that is asked, and the
/// arguments.
#[derive(Drop)]
pub(crate) struct CallValues {
    pub(crate) object: u32,
    pub(crate) on: u32,
    pub(crate) args: Vec<Scalar>,
}

/// The object of a receiver; a static method has null.
fn receiver_object(memory: &Memory<'_>, receiver: &Option<ObjectExpr>) -> Result<u32, Fault>
    ensures value { (t : Listing) → (numbered : Callee → Option ℕ) → (keeps : Bool) → (r : Option ObjectCode) → ReceiverIs memory.now.names t numbered keeps receiver.now r → IfOk result (λ a. receiver_of r (state_of memory.now) ≡ value a) }
    ensures inside { IfOk result (λ a. a < suc memory.now.last) }
    ensures fault { (t : Listing) → (numbered : Callee → Option ℕ) → (keeps : Bool) → (r : Option ObjectCode) → ReceiverIs memory.now.names t numbered keeps receiver.now r → IfErr result (IsFault (receiver_of r (state_of memory.now)) Never) }
{
    match receiver {
        None => Ok(0),
        Some(receiver) => object_value(memory, receiver),
    }
}

/// The object on which a method is called, which isn't null.
fn called_object(receiver: &Option<ObjectExpr>, place: Place, object: u32) -> Result<u32, Fault>
    ensures value { (names : List Name) → (t : Listing) → (numbered : Callee → Option ℕ) → (keeps : Bool) → (r : Option ObjectCode) → ReceiverIs names t numbered keeps receiver.now r → IfOk result (λ a. called_on r place object ≡ value a) }
    ensures same { IfOk result (λ a. a ≡ object) }
    ensures fault { (names : List Name) → (t : Listing) → (numbered : Callee → Option ℕ) → (keeps : Bool) → (r : Option ObjectCode) → ReceiverIs names t numbered keeps receiver.now r → IfErr result (IsFault (called_on r place object) Never) }
{
    match receiver {
        None => Ok(object),
        Some(receiver) => dereference(receiver, place, object),
    }
}

/// The values of arguments, from the left.
fn arg_values(alloc: Global, memory: &Memory<'_>, args: &[AnyExpr]) -> Result<Vec<Scalar>, Stop>
    ensures values { (t : Listing) → (numbered : Callee → Option ℕ) → (keeps : Bool) → AllFit memory.now.names t numbered keeps args.now → IfOk result (λ made. AreValues (map (any_in memory.now.names) args.now) (state_of memory.now) (map datum_of made.items)) }
    ensures inside { IfOk result (λ made. AllInside memory.now.last made.items) }
    ensures stop { (t : Listing) → (numbered : Callee → Option ℕ) → (keeps : Bool) → AllFit memory.now.names t numbered keeps args.now → (next : List Datum → Progress) → IfErr result (StopsAs (with_values (map (any_in memory.now.names) args.now) (state_of memory.now) next) (λ q. ArgsOverflow q (map (any_in memory.now.names) args.now) (state_of memory.now))) }
{
    let mut made = Vec::new(alloc);
    for place in 0..args.len() {
        let value = any_value(memory, &args[place])?;
        made.push(value)?;
    }
    Ok(made)
}

/// The values of a call.
pub(crate) fn call_values(
    alloc: Global,
    memory: &Memory<'_>,
    step: &CallStep,
) -> Result<CallValues, Stop>
    ensures on { (t : Listing) → (numbered : Callee → Option ℕ) → (keeps : Bool) → (a : Stmt) → (is : IsCall memory.now.names t numbered keeps step.now a) → (r : Configuration) → r.now ≡ state_of memory.now → IfOk result (λ made. Calls a r is.target is.method made.object made.on (map datum_of made.args.items)) }
    ensures inside { IfOk result (λ made. (made.on < suc memory.now.last) × AllInside memory.now.last made.args.items) }
    ensures stop { (p : Program) → (t : Listing) → (numbered : Callee → Option ℕ) → (keeps : Bool) → (a : Stmt) → IsCall memory.now.names t numbered keeps step.now a → (r : Configuration) → r.now ≡ state_of memory.now → IfErr result (StopsAs (done p a r) (λ q. OwnOverflows q a r)) }
{
    let object = destination_object(memory, &step.destination)?;
    let receiver = receiver_object(memory, &step.receiver)?;
    let args = arg_values(alloc, memory, step.args.items())?;
    let on = called_object(&step.receiver, step.receiver_place, receiver)?;
    Ok(CallValues { object, on, args })
}
