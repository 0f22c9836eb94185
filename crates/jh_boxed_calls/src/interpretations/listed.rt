#![tactic(auto, using(jh_export::proofs::Places::pool_steps, crate::proofs::interpretations::Listings::name_steps))]

ghost use Rattle.std.specs.Prelude.{◌≡◌, true, slice_get, is_some, IfOk};
ghost use Rattle.jh_form.specs.Meaning.{InUniverse};
ghost use Rattle.jh_arena.specs.table.Entries.{the_name};
ghost use Rattle.jh_boxed_calls.specs.interpretations.Interps.{interp_of, IsSlot, AreSlots};

use crate::interpretations::interp::{Interp, is_listed};
use crate::interpretations::slots::{Slot, members_at, slot_at, slot_of, value_at};
use jh_arena::table::Table;
use jh_name::NoMemory;
use jh_sem::World;

/// An interpretation that lists spell, over the names of a table. Each of these names was looked up once.
#[derive(Drop)]
pub(crate) struct Listed<'a> {
    pub(crate) interp: &'a Interp,
    pub(crate) table: &'a Table,
    pub(crate) slots: Vec<Slot<'a>>,
    ghost inside: { InUniverse (interp_of interp.now) },
    ghost known: { AreSlots interp.now table.now.pools.names slots.items },
}

/// What lists say of the names of a table.
pub(crate) fn all_slots<'a>(interp: &'a Interp, table: &'a Table) -> Result<Vec<Slot<'a>>, NoMemory>
    ensures { IfOk result (λ slots. AreSlots interp.now table.now.pools.names slots.items) }
{
    let mut slots = Vec::new(table.alloc());
    for number in 0..table.name_count() {
        let slot = slot_of(interp, table.name_at(number));
        slots.push(slot)?;
    }
    Ok(slots)
}

impl<'a> Listed<'a> {
    /// What the lists say of a name.
    fn slot(&self, name: usize) -> Slot<'a>
        requires { is_some (slice_get self.now.table.now.pools.names name) ≡ true }
        ensures { IsSlot self.now.interp.now (the_name (slice_get self.now.table.now.pools.names name)) result }
    {
        match slot_at(self.slots.as_slice(), name) {
            Some(slot) => slot,
            None => slot_of(self.interp, self.table.name_at(name)),
        }
    }
}

impl<'a> World for Listed<'a> {
    ghost listing = { λ w. w.table.now };

    ghost meaning = { λ w. interp_of w.interp.now };

    fn table(&self) -> &Table {
        self.table
    }

    fn last(&self) -> u32 {
        self.interp.greatest
    }

    fn object(&self, name: usize) -> u32 {
        self.slot(name).object
    }

    fn number(&self, name: usize) -> i128 {
        self.slot(name).number
    }

    fn truth(&self, name: usize) -> bool {
        self.slot(name).truth
    }

    fn has(&self, name: usize, object: u32) -> bool {
        is_listed(self.slot(name).set, object)
    }

    fn object_at(&self, name: usize, at: u32) -> u32 {
        value_at(self.slot(name).objects, at, 0)
    }

    fn number_at(&self, name: usize, at: u32) -> i128 {
        value_at(self.slot(name).numbers, at, 0)
    }

    fn truth_at(&self, name: usize, at: u32) -> bool {
        value_at(self.slot(name).truths, at, false)
    }

    fn has_at(&self, name: usize, at: u32, object: u32) -> bool {
        is_listed(members_at(self.slot(name).sets, at), object)
    }
}
