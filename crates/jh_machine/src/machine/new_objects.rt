ghost use Rattle.std.specs.Prelude.{◌≡◌, ◌<◌, ℕ, suc, OnOk, IfOk, IfErr};
ghost use Rattle.jh_semantics.specs.Code.{Target};
ghost use Rattle.jh_semantics.specs.State.{State, alloc_name};
ghost use Rattle.jh_semantics.specs.Objects as runs;
ghost use Rattle.jh_semantics.specs.Progress.{Configuration, Progress, goes_on};
ghost use Rattle.jh_store.specs.memory.Held.{IsNamed};
ghost use Rattle.jh_operands.specs.Exprs.{text_at, IsPlain};
ghost use Rattle.jh_operands.specs.Faults.{Never};
ghost use Rattle.jh_machine_code.specs.code.Destinations.{IsTarget};
ghost use Rattle.jh_machine.specs.continuation.Stops.{StopsAs};
ghost use Rattle.jh_machine.specs.continuation.Done.{made_by};
ghost use Rattle.jh_machine.specs.machine.Machines.{IsBeside, stands};

use crate::continuation::Stop;
use crate::ghosts::is_free;
use crate::machine::machine::Machine;
use crate::machine::prepared::Prepared;
use crate::writes::{create, destination_object, put};
use jh_machine_code::code::Destination;
use jh_name::Place;
use jh_operands::Scalar;

/// The next object for `new`, where there is one, and it is still free.
fn pick(prepared: &Prepared<'_>, machine: &mut Machine<'_>, place: Place) -> Result<u32, Stop>
    ensures kept { machine.new ≡ record machine.old { taken = machine.new.taken } }
    ensures inside { IfOk result (λ a. a < suc machine.old.now.last) }
    ensures on { IsNamed machine.old.now prepared.now.all alloc_name → (s : State) → (next : ℕ → Configuration → Progress) → IfOk result (λ a. runs.pick place (stands machine.old s).picks (stands machine.old s) next ≡ next a (stands machine.new s)) }
    ensures stop { IsNamed machine.old.now prepared.now.all alloc_name → (s : State) → (next : ℕ → Configuration → Progress) → IfErr result (StopsAs (runs.pick place (stands machine.old s).picks (stands machine.old s) next) Never) }
{
    match machine.picks.get(machine.taken) {
        None => Err(Stop::NoObject(place)),
        Some(object) => {
            let object = *object;
            if is_free(&machine.now, prepared.all, object) {
                machine.taken += 1;
                Ok(object)
            } else {
                Err(Stop::NoObject(place))
            }
        }
    }
}

/// A new object joins a class and goes to its destination.
pub fn make(
    prepared: &Prepared<'_>,
    machine: &mut Machine<'_>,
    place: Place,
    destination: &Destination,
    class: usize,
) -> Result<(), Stop>
    ensures beside { OnOk result (IsBeside machine.old machine.new) }
    ensures on { IsNamed machine.old.now prepared.now.all alloc_name → IsPlain machine.old.now.names class → (t : Target) → (s : State) → IsTarget machine.old.now.names destination.now t → OnOk result (made_by place t (text_at machine.old.now.names class) (stands machine.old s) ≡ goes_on (stands machine.new s)) }
    ensures stop { IsNamed machine.old.now prepared.now.all alloc_name → IsPlain machine.old.now.names class → (t : Target) → (s : State) → IsTarget machine.old.now.names destination.now t → IfErr result (StopsAs (made_by place t (text_at machine.old.now.names class) (stands machine.old s)) Never) }
{
    let at = destination_object(&machine.now, destination)?;
    let object = pick(prepared, machine, place)?;
    create(&mut machine.now, prepared.all, class, object)?;
    put(&mut machine.now, destination, at, Scalar::Object(object))
}
