ghost use Rattle.std.specs.Prelude.{◌≡◌, ℕ, Option, OnOk, IfErr};
ghost use Rattle.jh_vars.specs.Written.{Callee};
ghost use Rattle.jh_semantics.specs.State.{State};
ghost use Rattle.jh_semantics.specs.Progress.{goes_on};
ghost use Rattle.jh_semantics.specs.Execution.{result_of};
ghost use Rattle.jh_semantics.specs.Execution as run;
ghost use Rattle.jh_operands.specs.Faults.{Never};
ghost use Rattle.jh_operands.specs.Scalars.{datum_of, IsInside};
ghost use Rattle.jh_machine.specs.locals.Locals.{AreLocals};
ghost use Rattle.jh_machine.specs.continuation.Stops.{StopsAs};
ghost use Rattle.jh_machine.specs.continuation.Todos.{Todo};
ghost use Rattle.jh_machine.specs.machine.Machines.{stands};
ghost use Rattle.jh_exec.specs.frames.Frames.{BackIs, WayInside, progress, way_value};

use crate::frames::frames::{Back, Way};
use jh_machine::continuation::Stop;
use jh_machine::locals::restore;
use jh_machine::machine::{Machine, Prepared};
use jh_machine::writes::put;
use jh_operands::Scalar;

/// The value of a call; that of a void one goes nowhere.
fn call_value(way: Way) -> Scalar
    ensures value { datum_of result ≡ result_of (way_value way) }
    ensures inside { (last : ℕ) → WayInside last way → IsInside last result }
{
    match way {
        Way::On => Scalar::Object(0),
        Way::Return(None) => Scalar::Object(0),
        Way::Return(Some(value)) => value,
    }
}

/// The end of a call: the caller's locals and its state at entry again, and the result to its destination.
pub fn leave<'a>(
    prepared: &Prepared<'a>,
    machine: &mut Machine<'a>,
    back: Back<'a>,
    way: Way,
) -> Result<(), Stop>
    ensures names { OnOk result (machine.new.now.names ≡ machine.old.now.names) }
    ensures last { OnOk result (machine.new.now.last ≡ machine.old.now.last) }
    ensures entry { OnOk result (machine.new.entry ≡ back.entry.entry) }
    ensures on { (numbered : Callee → Option ℕ) → (k : Todo) → (s : State) → (is : BackIs machine.old.now.names machine.old.now.last prepared.now numbered back.entry k) → AreLocals machine.old.now.names prepared.now.locals.now → WayInside machine.old.now.last way → OnOk result (run.back is.caller is.target back.entry.object (progress way (stands machine.old s)) ≡ goes_on (stands machine.new is.caller.entry)) }
    ensures stop { (numbered : Callee → Option ℕ) → (k : Todo) → (s : State) → (is : BackIs machine.old.now.names machine.old.now.last prepared.now numbered back.entry k) → AreLocals machine.old.now.names prepared.now.locals.now → IfErr result (StopsAs (run.back is.caller is.target back.entry.object (progress way (stands machine.old s))) Never) }
{
    let Back {
        destination,
        object,
        saved,
        entry,
    } = back;
    restore(&mut machine.now, prepared.locals, saved.as_slice());
    machine.entry = entry;
    put(&mut machine.now, destination, object, call_value(way))
}
