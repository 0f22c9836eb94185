ghost use Rattle.std.specs.Prelude.{◌≡◌, ◌<◌, ◌==◌, ◌||◌, ℕ, Bool, suc, false, Some, None, IfOk, OnOk, length, get_or, slice_get};
ghost use Rattle.jh_name.specs.declared.naming.Name.{Name};
ghost use Rattle.jh_form.specs.Meaning.{an_object, a_number, a_truth, a_set, a_field, updated};
ghost use Rattle.jh_form.specs.Assigned.{assigned};
ghost use Rattle.jh_store.specs.memory.Fields.{field_of};
ghost use Rattle.jh_store.specs.memory.Held.{state_of, nothing, IsNamed};

use crate::memory::field::FieldValues;
use crate::memory::names::Names;
use crate::memory::slot::Slot;
use jh_name::NoMemory;
use std::alloc::Global;
use std::marker::Model;

/// What a run holds: the values of names by their numbers. Contracts see the names, and the state in which they have these
/// values. Where a write has no memory, nothing is said of what is left.
#[derive(Drop)]
pub struct Memory<'a> {
    alloc: Global,
    names: &'a Names,
    last: u32,
    slots: Vec<Slot>,
}

impl<'a> Model for Memory<'a> {
    ghost use Rattle.jh_store.specs.memory.Held.{Held, IsMemory};

    ghost Value = { Held };

    ghost view = { λ m. record { names = m.names.now; last = m.last; cells = m.slots.items } };

    ghost invariant = { λ m. IsMemory m.names.now m.last m.slots.items };
}

impl<'a> Memory<'a> {
    /// The memory of the objects 0 to `last` in which each name has null, 0, false, the empty set and a field of these.
    pub fn new(alloc: Global, names: &'a Names, last: u32) -> Result<Memory<'a>, NoMemory>
        ensures names { IfOk result (λ made. made.names ≡ names.now) }
        ensures last { IfOk result (λ made. made.last ≡ last) }
        ensures state { IfOk result (λ made. state_of made ≡ nothing last) }
    {
        let mut slots = Vec::new(alloc);
        for _name in 0..names.len() {
            slots.push(Slot::new(alloc))?;
        }
        Ok(Memory {
            alloc,
            names,
            last,
            slots,
        })
    }

    /// The same, which may then become another.
    pub fn copy(&self) -> Result<Memory<'a>, NoMemory>
        ensures { IfOk result (λ made. made ≡ self.now) }
    {
        let mut slots = Vec::new(self.alloc);
        for slot in &self.slots {
            slots.push(slot.copy(self.alloc)?)?;
        }
        Ok(Memory {
            alloc: self.alloc,
            names: self.names,
            last: self.last,
            slots,
        })
    }

    /// The names.
    pub fn names(&self) -> &'a Names
        ensures names { result.now ≡ self.now.names }
        ensures sized { length self.now.cells ≡ length self.now.names }
    {
        self.names
    }

    /// The greatest object.
    pub fn last(&self) -> u32
        ensures { result ≡ self.now.last }
    {
        self.last
    }

    /// The object of a name.
    pub fn object(&self, name: usize) -> u32
        requires { name < length self.now.names }
        ensures value { (x : Name) → IsNamed self.now name x → result ≡ (state_of self.now).object x }
        ensures inside { result < suc self.now.last }
    {
        self.slots[name].object()
    }

    /// The number of a name.
    pub fn number(&self, name: usize) -> i64
        requires { name < length self.now.names }
        ensures { (x : Name) → IsNamed self.now name x → result ≡ (state_of self.now).number x }
    {
        self.slots[name].number()
    }

    /// The truth of a name.
    pub fn truth(&self, name: usize) -> bool
        requires { name < length self.now.names }
        ensures { (x : Name) → IsNamed self.now name x → result ≡ (state_of self.now).truth x }
    {
        self.slots[name].truth()
    }

    /// Whether an object is in the set of a name.
    pub fn has(&self, name: usize, object: u32) -> bool
        requires { name < length self.now.names }
        ensures { (x : Name) → IsNamed self.now name x → result ≡ (state_of self.now).set x object }
    {
        self.slots[name].has(object)
    }

    /// The object that the field of a name has at an object.
    pub fn object_at(&self, name: usize, at: u32) -> u32
        requires { name < length self.now.names }
        ensures value { (x : Name) → IsNamed self.now name x → result ≡ ((state_of self.now).field x).objects at }
        ensures inside { result < suc self.now.last }
    {
        self.slots[name].object_at(at)
    }

    /// The number that the field of a name has at an object.
    pub fn number_at(&self, name: usize, at: u32) -> i64
        requires { name < length self.now.names }
        ensures { (x : Name) → IsNamed self.now name x → result ≡ ((state_of self.now).field x).numbers at }
    {
        self.slots[name].number_at(at)
    }

    /// The truth that the field of a name has at an object.
    pub fn truth_at(&self, name: usize, at: u32) -> bool
        requires { name < length self.now.names }
        ensures { (x : Name) → IsNamed self.now name x → result ≡ ((state_of self.now).field x).truths at }
    {
        self.slots[name].truth_at(at)
    }

    /// Whether an object is in the set that the field of a name has at another.
    pub fn has_at(&self, name: usize, at: u32, object: u32) -> bool
        requires { name < length self.now.names }
        ensures { (x : Name) → IsNamed self.now name x → result ≡ ((state_of self.now).field x).sets at object }
    {
        self.slots[name].has_at(at, object)
    }

    /// Writes the object of a name.
    pub fn put_object(&mut self, name: usize, value: u32)
        requires name { name < length self.old.names }
        requires inside { value < suc self.old.last }
        ensures names { self.new.names ≡ self.old.names }
        ensures last { self.new.last ≡ self.old.last }
        ensures state { (x : Name) → IsNamed self.old name x → state_of self.new ≡ assigned (state_of self.old) x (an_object value) }
    {
        self.slots[name].put_object(value);
    }

    /// Writes the number of a name.
    pub fn put_number(&mut self, name: usize, value: i64)
        requires name { name < length self.old.names }
        ensures names { self.new.names ≡ self.old.names }
        ensures last { self.new.last ≡ self.old.last }
        ensures state { (x : Name) → IsNamed self.old name x → state_of self.new ≡ assigned (state_of self.old) x (a_number value) }
    {
        self.slots[name].put_number(value);
    }

    /// Writes the truth of a name.
    pub fn put_truth(&mut self, name: usize, value: bool)
        requires name { name < length self.old.names }
        ensures names { self.new.names ≡ self.old.names }
        ensures last { self.new.last ≡ self.old.last }
        ensures state { (x : Name) → IsNamed self.old name x → state_of self.new ≡ assigned (state_of self.old) x (a_truth value) }
    {
        self.slots[name].put_truth(value);
    }

    /// Writes the set of a name, as a list that says of the objects from 0 on which are in it.
    pub fn put_set(&mut self, name: usize, members: Vec<bool>)
        requires name { name < length self.old.names }
        ensures names { self.new.names ≡ self.old.names }
        ensures last { self.new.last ≡ self.old.last }
        ensures state { (x : Name) → IsNamed self.old name x → (test : ℕ → Bool) → ((a : ℕ) → get_or members.items a false ≡ test a) → state_of self.new ≡ assigned (state_of self.old) x (a_set test) }
    {
        self.slots[name].put_set(members);
    }

    /// Writes the field of a name.
    pub fn put_field(&mut self, name: usize, values: FieldValues)
        requires name { name < length self.old.names }
        requires inside { (a : ℕ) → get_or values.objects.items a 0 < suc self.old.last }
        ensures names { self.new.names ≡ self.old.names }
        ensures last { self.new.last ≡ self.old.last }
        ensures state { (x : Name) → IsNamed self.old name x → state_of self.new ≡ assigned (state_of self.old) x (a_field (field_of values)) }
    {
        self.slots[name].put_field(values);
    }

    /// Adds an object to the set of a name.
    pub fn join(&mut self, name: usize, object: u32) -> Result<(), NoMemory>
        requires name { name < length self.old.names }
        ensures names { self.new.names ≡ self.old.names }
        ensures last { self.new.last ≡ self.old.last }
        ensures state { OnOk result ((x : Name) → IsNamed self.old name x → state_of self.new ≡ assigned (state_of self.old) x (a_set (λ b. (state_of self.old).set x b || b == object))) }
    {
        self.slots[name].join(object)
    }

    /// Writes the object that the field of a name has at an object.
    pub fn put_object_at(&mut self, name: usize, at: u32, value: u32) -> Result<(), NoMemory>
        requires name { name < length self.old.names }
        requires inside { value < suc self.old.last }
        ensures names { self.new.names ≡ self.old.names }
        ensures last { self.new.last ≡ self.old.last }
        ensures state { OnOk result ((x : Name) → IsNamed self.old name x → state_of self.new ≡ assigned (state_of self.old) x (a_field (updated ((state_of self.old).field x) at (an_object value)))) }
    {
        self.slots[name].put_object_at(at, value)
    }

    /// Writes the number that the field of a name has at an object.
    pub fn put_number_at(&mut self, name: usize, at: u32, value: i64) -> Result<(), NoMemory>
        requires name { name < length self.old.names }
        ensures names { self.new.names ≡ self.old.names }
        ensures last { self.new.last ≡ self.old.last }
        ensures state { OnOk result ((x : Name) → IsNamed self.old name x → state_of self.new ≡ assigned (state_of self.old) x (a_field (updated ((state_of self.old).field x) at (a_number value)))) }
    {
        self.slots[name].put_number_at(at, value)
    }

    /// Writes the truth that the field of a name has at an object.
    pub fn put_truth_at(&mut self, name: usize, at: u32, value: bool) -> Result<(), NoMemory>
        requires name { name < length self.old.names }
        ensures names { self.new.names ≡ self.old.names }
        ensures last { self.new.last ≡ self.old.last }
        ensures state { OnOk result ((x : Name) → IsNamed self.old name x → state_of self.new ≡ assigned (state_of self.old) x (a_field (updated ((state_of self.old).field x) at (a_truth value)))) }
    {
        self.slots[name].put_truth_at(at, value)
    }

    /// Writes the set that the field of a name has at an object, as a list that says of the objects from 0 on which are in it.
    pub fn put_set_at(&mut self, name: usize, at: u32, members: Vec<bool>) -> Result<(), NoMemory>
        requires name { name < length self.old.names }
        ensures names { self.new.names ≡ self.old.names }
        ensures last { self.new.last ≡ self.old.last }
        ensures state { OnOk result ((x : Name) → IsNamed self.old name x → (test : ℕ → Bool) → ((b : ℕ) → get_or members.items b false ≡ test b) → state_of self.new ≡ assigned (state_of self.old) x (a_field (updated ((state_of self.old).field x) at (a_set test)))) }
    {
        self.slots[name].put_set_at(self.alloc, at, members)
    }
}
