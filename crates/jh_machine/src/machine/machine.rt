ghost use Rattle.std.specs.Prelude.{◌≡◌, true, is_some, IfErr, OnOk};
ghost use Rattle.jh_semantics.specs.State.{State};
ghost use Rattle.jh_store.specs.memory.Held.{state_of};
ghost use Rattle.jh_machine.specs.declared.continuation.stop.Stop.TheVariants as stop;
ghost use Rattle.jh_machine.specs.machine.Machines.{EntryIs, Sees, WasPaid};

use crate::continuation::Stop;
use crate::machine::prepared::Prepared;
use jh_store::memory::Memory;
use jh_store::state_pairs::Moment;
use std::alloc::Global;

/// Where a run stands: the memory now and that at the method's entry, where it is kept; the objects for `new`, and how
/// many of them were taken; and the steps that are left.
#[derive(Drop)]
pub struct Machine<'a> {
    pub alloc: Global,
    pub now: Memory<'a>,
    pub entry: Option<Memory<'a>>,
    pub picks: Vec<u32>,
    pub taken: usize,
    pub steps: u64,
}

/// A step is paid, where one is left.
pub fn pay(machine: &mut Machine<'_>) -> Result<(), Stop>
    ensures paid { OnOk result (WasPaid machine.old machine.new) }
    ensures none { IfErr result (λ why. (why ≡ stop.StepsOut) × (machine.old.steps ≡ 0)) }
{
    if machine.steps == 0 {
        return Err(Stop::StepsOut);
    }
    machine.steps -= 1;
    Ok(())
}

/// The memory at a method's entry, or another where none is kept.
fn entry_or<'m>(entry: &'m Option<Memory<'m>>, now: &'m Memory<'m>) -> &'m Memory<'m>
    ensures names { (s : State) → EntryIs now.now.names now.now.last entry.now s → result.now.names ≡ now.now.names }
    ensures last { (s : State) → EntryIs now.now.names now.now.last entry.now s → result.now.last ≡ now.now.last }
    ensures state { (s : State) → EntryIs now.now.names now.now.last entry.now s → is_some entry.now ≡ true → state_of result.now ≡ s }
{
    match entry {
        Some(entry) => entry,
        None => now,
    }
}

/// What formulas see.
pub(crate) fn moment<'m>(prepared: &'m Prepared<'m>, machine: &'m Machine<'m>) -> Moment<'m>
    requires { Sees prepared.now machine.now }
    ensures table { result.table.now ≡ prepared.now.table.now }
    ensures current { result.current.now ≡ machine.entry.now.now }
    ensures entry { (s : State) → EntryIs machine.entry.now.now.names machine.entry.now.now.last machine.entry.now.entry s → is_some machine.entry.now.entry ≡ true → state_of result.entry.now ≡ s }
{
    Moment {
        table: prepared.table,
        homes: prepared.homes,
        current: &machine.now,
        entry: entry_or(&machine.entry, &machine.now),
    }
}
