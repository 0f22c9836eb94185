ghost use Rattle.std.specs.Prelude.{◌≡◌, ◌<◌, suc, true, [], is_some, OnOk, IfOk, IfErr};
ghost use Rattle.jh_form.specs.Tree.{TermTree, ValueTree, of_object};
ghost use Rattle.jh_form.specs.Meaning.{Datum, datum, term_value};
ghost use Rattle.jh_semantics.specs.Code.{Text};
ghost use Rattle.jh_semantics.specs.State.{State, named, shown, stored};
ghost use Rattle.jh_semantics.specs.Progress.{Progress, goes_on, goes_on_in};
ghost use Rattle.jh_semantics.specs.Execution.{ghost_stored};
ghost use Rattle.jh_store.specs.memory.Held.{state_of};
ghost use Rattle.jh_sem.specs.Wide.{IsWide};
ghost use Rattle.jh_operands.specs.Exprs.{text_at, IsPlain};
ghost use Rattle.jh_machine_code.specs.code.Steps.{IsNode};
ghost use Rattle.jh_machine.specs.continuation.Stops.{StopsAs};
ghost use Rattle.jh_machine.specs.continuation.Overflows.{GhostOverflows, GhostAtOverflows};
ghost use Rattle.jh_machine.specs.continuation.Done.{ghost_by};
ghost use Rattle.jh_machine.specs.ghosts.Nodes.{IsValue, ValueInside};
ghost use Rattle.jh_machine.specs.machine.Machines.{EntryIs, Sees, IsBeside, stands};

use crate::continuation::Stop;
use crate::ghosts::{NodeValue, node_object, node_value, store_value, store_value_at};
use crate::machine::machine::{Machine, moment};
use crate::machine::prepared::Prepared;
use crate::writes::is_in;
use jh_machine_code::code::GhostField;
use jh_name::Place;

/// The value of a node now.
fn value_now(
    prepared: &Prepared<'_>,
    machine: &Machine<'_>,
    place: Place,
    node: usize,
) -> Result<NodeValue, Stop>
    requires { Sees prepared.now machine.now }
    ensures value { (v : ValueTree) → (s : State) → IsNode prepared.now.table.now (is_some machine.entry.now.entry) node v → EntryIs machine.entry.now.now.names machine.entry.now.now.last machine.entry.now.entry s → IfOk result (λ x. IsValue machine.entry.now.now.last x (datum v (shown (state_of machine.entry.now.now) s) [])) }
    ensures inside { IfOk result (ValueInside machine.entry.now.now.last) }
    ensures stop { (v : ValueTree) → (s : State) → IsNode prepared.now.table.now (is_some machine.entry.now.entry) node v → EntryIs machine.entry.now.now.names machine.entry.now.now.last machine.entry.now.entry s → (x : Progress) → IfErr result (StopsAs x (λ q. GhostOverflows q place v (stands machine.entry.now s))) }
{
    node_value(machine.alloc, &moment(prepared, machine), place, node)
}

/// A ghost variable gets a value.
pub fn ghost_step(
    prepared: &Prepared<'_>,
    machine: &mut Machine<'_>,
    name: usize,
    place: Place,
    node: usize,
) -> Result<(), Stop>
    requires { Sees prepared.now machine.old }
    ensures beside { OnOk result (IsBeside machine.old machine.new) }
    ensures on { (v : ValueTree) → (s : State) → IsPlain machine.old.now.names name → IsNode prepared.now.table.now (is_some machine.old.entry) node v → EntryIs machine.old.now.names machine.old.now.last machine.old.entry s → OnOk result (goes_on_in (stands machine.old s) (stored (state_of machine.old.now) (text_at machine.old.now.names name) (datum v (shown (state_of machine.old.now) s) [])) ≡ goes_on (stands machine.new s)) }
    ensures stop { (v : ValueTree) → (s : State) → IsNode prepared.now.table.now (is_some machine.old.entry) node v → EntryIs machine.old.now.names machine.old.now.last machine.old.entry s → (x : Progress) → IfErr result (StopsAs x (λ q. GhostOverflows q place v (stands machine.old s))) }
{
    let value = value_now(prepared, machine, place, node)?;
    store_value(&mut machine.now, name, value);
    Ok(())
}

/// The object of a ghost assignment to a field, where it is in its class.
fn ghost_object(prepared: &Prepared<'_>, machine: &Machine<'_>, to: GhostField) -> Result<u32, Stop>
    requires { Sees prepared.now machine.now }
    ensures inside { IfOk result (λ a. a < suc machine.entry.now.now.last) }
    ensures on { (t : TermTree) → (s : State) → IsPlain machine.entry.now.now.names to.class → IsNode prepared.now.table.now (is_some machine.entry.now.entry) to.object (of_object t) → EntryIs machine.entry.now.now.names machine.entry.now.now.last machine.entry.now.entry s → IfOk result (λ a. (a ≡ term_value t (shown (state_of machine.entry.now.now) s) []) × ((state_of machine.entry.now.now).set (named (text_at machine.entry.now.now.names to.class)) a ≡ true)) }
    ensures stop { (t : TermTree) → (s : State) → IsPlain machine.entry.now.now.names to.class → IsNode prepared.now.table.now (is_some machine.entry.now.entry) to.object (of_object t) → EntryIs machine.entry.now.now.names machine.entry.now.now.last machine.entry.now.entry s → (f : Text) → (d : Datum) → IfErr result (StopsAs (ghost_stored to.left (text_at machine.entry.now.now.names to.class) f (term_value t (shown (state_of machine.entry.now.now) s) []) d (stands machine.entry.now s)) (λ q. (to.left ≡ q) × IsWide (shown (state_of machine.entry.now.now) s) (of_object t))) }
{
    let object = node_object(&moment(prepared, machine), to.left, to.object)?;
    if is_in(&machine.now, to.class, object) {
        Ok(object)
    } else {
        Err(Stop::AssertFailed(to.left))
    }
}

/// A ghost variable of an object gets a value.
pub fn ghost_at(
    prepared: &Prepared<'_>,
    machine: &mut Machine<'_>,
    to: GhostField,
) -> Result<(), Stop>
    requires { Sees prepared.now machine.old }
    ensures beside { OnOk result (IsBeside machine.old machine.new) }
    ensures on { (t : TermTree) → (v : ValueTree) → (s : State) → IsPlain machine.old.now.names to.class → IsPlain machine.old.now.names to.field → IsNode prepared.now.table.now (is_some machine.old.entry) to.object (of_object t) → IsNode prepared.now.table.now (is_some machine.old.entry) to.value v → EntryIs machine.old.now.names machine.old.now.last machine.old.entry s → OnOk result (ghost_by to.left (text_at machine.old.now.names to.class) (text_at machine.old.now.names to.field) t v (stands machine.old s) ≡ goes_on (stands machine.new s)) }
    ensures stop { (t : TermTree) → (v : ValueTree) → (s : State) → IsPlain machine.old.now.names to.class → IsNode prepared.now.table.now (is_some machine.old.entry) to.object (of_object t) → IsNode prepared.now.table.now (is_some machine.old.entry) to.value v → EntryIs machine.old.now.names machine.old.now.last machine.old.entry s → IfErr result (StopsAs (ghost_by to.left (text_at machine.old.now.names to.class) (text_at machine.old.now.names to.field) t v (stands machine.old s)) (λ q. GhostAtOverflows q to.left (text_at machine.old.now.names to.class) t to.right v (stands machine.old s))) }
{
    let object = ghost_object(prepared, machine, to)?;
    let value = value_now(prepared, machine, to.right, to.value)?;
    store_value_at(&mut machine.now, to.field, object, value)?;
    Ok(())
}
