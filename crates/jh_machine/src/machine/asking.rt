ghost use Rattle.std.specs.Prelude.{◌≡◌, is_some, OnOk, IfErr};
ghost use Rattle.jh_form.specs.Tree.{of_truth};
ghost use Rattle.jh_semantics.specs.Code.{Claim};
ghost use Rattle.jh_semantics.specs.State.{State};
ghost use Rattle.jh_semantics.specs.Progress.{goes_on};
ghost use Rattle.jh_semantics.specs.Execution.{asked};
ghost use Rattle.jh_machine_code.specs.code.Steps.{IsNode};
ghost use Rattle.jh_machine.specs.continuation.Stops.{StopsAs};
ghost use Rattle.jh_machine.specs.continuation.Overflows.{ClaimOverflows};
ghost use Rattle.jh_machine.specs.machine.Machines.{EntryIs, Sees, stands};

use crate::continuation::Stop;
use crate::ghosts::node_truth;
use crate::machine::machine::{Machine, moment};
use crate::machine::prepared::Prepared;
use jh_name::Place;

/// A formula is asked.
pub fn ask(
    prepared: &Prepared<'_>,
    machine: &Machine<'_>,
    place: Place,
    node: usize,
) -> Result<(), Stop>
    requires { Sees prepared.now machine.now }
    ensures on { (claim : Claim) → (s : State) → IsNode prepared.now.table.now (is_some machine.entry.now.entry) node (of_truth claim.formula) → EntryIs machine.entry.now.now.names machine.entry.now.now.last machine.entry.now.entry s → OnOk result (asked claim (stands machine.entry.now s) ≡ goes_on (stands machine.entry.now s)) }
    ensures stop { (claim : Claim) → (s : State) → IsNode prepared.now.table.now (is_some machine.entry.now.entry) node (of_truth claim.formula) → claim.place ≡ place → EntryIs machine.entry.now.now.names machine.entry.now.now.last machine.entry.now.entry s → IfErr result (StopsAs (asked claim (stands machine.entry.now s)) (λ q. ClaimOverflows q claim (stands machine.entry.now s))) }
{
    let is_true = node_truth(&moment(prepared, machine), place, node)?;
    if is_true {
        Ok(())
    } else {
        Err(Stop::AssertFailed(place))
    }
}
