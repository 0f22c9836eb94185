ghost use Rattle.std.specs.Prelude.{◌≡◌, pos, true, false, [], IfOk, OnOk, OnErr, get_or};
ghost use Rattle.std.specs.Prelude.{map};
ghost use Rattle.jh_store.specs.memory.Cells.{no_cells, put, items_of};

use crate::memory::field::FieldValues;
use crate::memory::lists::{copy_rows, put_row, put_value, row_has, value_at};
use jh_name::NoMemory;
use std::alloc::Global;
use std::marker::Model;

/// What a name has: a value at each sort, and as a field the values at the objects from 0 on, at each kind.
#[derive(Drop)]
pub(crate) struct Slot {
    object: u32,
    number: i64,
    truth: bool,
    set: Vec<bool>,
    objects: Vec<u32>,
    numbers: Vec<i64>,
    truths: Vec<bool>,
    sets: Vec<Vec<bool>>,
}

impl Model for Slot {
    ghost use Rattle.std.specs.Prelude.{map};
    ghost use Rattle.jh_store.specs.memory.Cells.{Cells, items_of};

    ghost Value = { Cells };

    ghost view = { λ s. record { object = s.object; number = s.number; truth = s.truth; set = s.set.items; objects = s.objects.items; numbers = s.numbers.items; truths = s.truths.items; sets = map items_of s.sets.items } };
}

impl Slot {
    /// Nothing but defaults.
    pub(crate) fn new(alloc: Global) -> Slot
        ensures { result ≡ no_cells }
    {
        Slot {
            object: 0,
            number: 0,
            truth: false,
            set: Vec::new(alloc),
            objects: Vec::new(alloc),
            numbers: Vec::new(alloc),
            truths: Vec::new(alloc),
            sets: Vec::new(alloc),
        }
    }

    /// The same.
    pub(crate) fn copy(&self, alloc: Global) -> Result<Slot, NoMemory>
        ensures { IfOk result (λ made. made ≡ self.now) }
    {
        let set = Vec::from_slice(alloc, self.set.as_slice())?;
        let objects = Vec::from_slice(alloc, self.objects.as_slice())?;
        let numbers = Vec::from_slice(alloc, self.numbers.as_slice())?;
        let truths = Vec::from_slice(alloc, self.truths.as_slice())?;
        let sets = copy_rows(alloc, self.sets.as_slice())?;
        Ok(Slot {
            object: self.object,
            number: self.number,
            truth: self.truth,
            set,
            objects,
            numbers,
            truths,
            sets,
        })
    }

    pub(crate) fn object(&self) -> u32
        ensures { result ≡ self.now.object }
    {
        self.object
    }

    pub(crate) fn number(&self) -> i64
        ensures { result ≡ self.now.number }
    {
        self.number
    }

    pub(crate) fn truth(&self) -> bool
        ensures { result ≡ self.now.truth }
    {
        self.truth
    }

    pub(crate) fn has(&self, object: u32) -> bool
        ensures { result ≡ get_or self.now.set object false }
    {
        value_at(self.set.as_slice(), object, false)
    }

    pub(crate) fn object_at(&self, at: u32) -> u32
        ensures { result ≡ get_or self.now.objects at 0 }
    {
        value_at(self.objects.as_slice(), at, 0)
    }

    pub(crate) fn number_at(&self, at: u32) -> i64
        ensures { result ≡ get_or self.now.numbers at (pos 0) }
    {
        value_at(self.numbers.as_slice(), at, 0)
    }

    pub(crate) fn truth_at(&self, at: u32) -> bool
        ensures { result ≡ get_or self.now.truths at false }
    {
        value_at(self.truths.as_slice(), at, false)
    }

    pub(crate) fn put_object(&mut self, value: u32)
        ensures { self.new ≡ record self.old { object = value } }
    {
        self.object = value;
    }

    pub(crate) fn put_number(&mut self, value: i64)
        ensures { self.new ≡ record self.old { number = value } }
    {
        self.number = value;
    }

    pub(crate) fn put_truth(&mut self, value: bool)
        ensures { self.new ≡ record self.old { truth = value } }
    {
        self.truth = value;
    }

    pub(crate) fn put_set(&mut self, members: Vec<bool>)
        ensures { self.new ≡ record self.old { set = members.items } }
    {
        self.set = members;
    }

    pub(crate) fn join(&mut self, object: u32) -> Result<(), NoMemory>
        ensures put { OnOk result (self.new ≡ record self.old { set = put false self.old.set object true }) }
        ensures objects { (self.new.object ≡ self.old.object) × (self.new.objects ≡ self.old.objects) }
    {
        put_value(&mut self.set, object, true, false)
    }

    pub(crate) fn put_object_at(&mut self, at: u32, value: u32) -> Result<(), NoMemory>
        ensures put { OnOk result (self.new ≡ record self.old { objects = put 0 self.old.objects at value }) }
        ensures kept { OnErr result (self.new ≡ self.old) }
    {
        put_value(&mut self.objects, at, value, 0)
    }

    pub(crate) fn put_number_at(&mut self, at: u32, value: i64) -> Result<(), NoMemory>
        ensures put { OnOk result (self.new ≡ record self.old { numbers = put (pos 0) self.old.numbers at value }) }
        ensures objects { (self.new.object ≡ self.old.object) × (self.new.objects ≡ self.old.objects) }
    {
        put_value(&mut self.numbers, at, value, 0)
    }

    pub(crate) fn put_truth_at(&mut self, at: u32, value: bool) -> Result<(), NoMemory>
        ensures put { OnOk result (self.new ≡ record self.old { truths = put false self.old.truths at value }) }
        ensures objects { (self.new.object ≡ self.old.object) × (self.new.objects ≡ self.old.objects) }
    {
        put_value(&mut self.truths, at, value, false)
    }

    pub(crate) fn has_at(&self, at: u32, object: u32) -> bool
        ensures { result ≡ get_or (get_or self.now.sets at []) object false }
    {
        row_has(self.sets.as_slice(), at, object)
    }

    pub(crate) fn put_set_at(
        &mut self,
        alloc: Global,
        at: u32,
        members: Vec<bool>,
    ) -> Result<(), NoMemory>
        ensures put { OnOk result (self.new ≡ record self.old { sets = put [] self.old.sets at members.items }) }
        ensures objects { (self.new.object ≡ self.old.object) × (self.new.objects ≡ self.old.objects) }
    {
        put_row(alloc, &mut self.sets, at, members)
    }

    pub(crate) fn put_field(&mut self, values: FieldValues)
        ensures { self.new ≡ record self.old { objects = values.objects.items; numbers = values.numbers.items; truths = values.truths.items; sets = map items_of values.sets.items } }
    {
        self.objects = values.objects;
        self.numbers = values.numbers;
        self.truths = values.truths;
        self.sets = values.sets;
    }
}
