// What names get in a memory. A number that is that of no name, and an object outside the universe, change nothing, so that nothing is
// asked of the code that runs.
#![tactic(auto, using(jh_operands::proofs::ReadSteps::not_there))]

ghost use Rattle.std.specs.Prelude.{◌≡◌, ◌<◌, ◌==◌, ◌||◌, ℕ, Bool, suc, false, OnOk, get_or};
ghost use Rattle.jh_name.specs.declared.naming.Name.{Name};
ghost use Rattle.jh_form.specs.Meaning.{an_object, a_number, a_truth, a_set, a_field, updated};
ghost use Rattle.jh_form.specs.Assigned.{assigned};
ghost use Rattle.jh_store.specs.memory.Held.{state_of, IsNamed};

use jh_name::NoMemory;
use jh_store::memory::Memory;

/// Whether an object is in the set of a name.
pub fn has(memory: &Memory<'_>, name: usize, object: u32) -> bool
    ensures { (x : Name) → IsNamed memory.now name x → result ≡ (state_of memory.now).set x object }
{
    if name < memory.names().len() {
        memory.has(name, object)
    } else {
        false
    }
}

/// Writes the object of a name.
pub fn put_object(memory: &mut Memory<'_>, name: usize, value: u32)
    ensures names { memory.new.names ≡ memory.old.names }
    ensures last { memory.new.last ≡ memory.old.last }
    ensures state { (x : Name) → IsNamed memory.old name x → value < suc memory.old.last → state_of memory.new ≡ assigned (state_of memory.old) x (an_object value) }
{
    if name < memory.names().len() && value <= memory.last() {
        memory.put_object(name, value);
    }
}

/// Writes the number of a name.
pub fn put_number(memory: &mut Memory<'_>, name: usize, value: i64)
    ensures names { memory.new.names ≡ memory.old.names }
    ensures last { memory.new.last ≡ memory.old.last }
    ensures state { (x : Name) → IsNamed memory.old name x → state_of memory.new ≡ assigned (state_of memory.old) x (a_number value) }
{
    if name < memory.names().len() {
        memory.put_number(name, value);
    }
}

/// Writes the truth of a name.
pub fn put_truth(memory: &mut Memory<'_>, name: usize, value: bool)
    ensures names { memory.new.names ≡ memory.old.names }
    ensures last { memory.new.last ≡ memory.old.last }
    ensures state { (x : Name) → IsNamed memory.old name x → state_of memory.new ≡ assigned (state_of memory.old) x (a_truth value) }
{
    if name < memory.names().len() {
        memory.put_truth(name, value);
    }
}

/// Writes the set of a name, as a list that says of the objects from 0 on which are in it.
pub fn put_set(memory: &mut Memory<'_>, name: usize, members: Vec<bool>)
    ensures names { memory.new.names ≡ memory.old.names }
    ensures last { memory.new.last ≡ memory.old.last }
    ensures state { (x : Name) → IsNamed memory.old name x → (test : ℕ → Bool) → ((a : ℕ) → get_or members.items a false ≡ test a) → state_of memory.new ≡ assigned (state_of memory.old) x (a_set test) }
{
    if name < memory.names().len() {
        memory.put_set(name, members);
    }
}

/// Adds an object to the set of a name.
pub fn join(memory: &mut Memory<'_>, name: usize, object: u32) -> Result<(), NoMemory>
    ensures names { memory.new.names ≡ memory.old.names }
    ensures last { memory.new.last ≡ memory.old.last }
    ensures state { OnOk result ((x : Name) → IsNamed memory.old name x → state_of memory.new ≡ assigned (state_of memory.old) x (a_set (λ b. (state_of memory.old).set x b || b == object))) }
{
    if name < memory.names().len() {
        memory.join(name, object)
    } else {
        Ok(())
    }
}

/// Writes the object that the field of a name has at an object.
pub fn put_object_at(
    memory: &mut Memory<'_>,
    name: usize,
    at: u32,
    value: u32,
) -> Result<(), NoMemory>
    ensures names { memory.new.names ≡ memory.old.names }
    ensures last { memory.new.last ≡ memory.old.last }
    ensures state { OnOk result ((x : Name) → IsNamed memory.old name x → value < suc memory.old.last → state_of memory.new ≡ assigned (state_of memory.old) x (a_field (updated ((state_of memory.old).field x) at (an_object value)))) }
{
    if name < memory.names().len() && value <= memory.last() {
        memory.put_object_at(name, at, value)
    } else {
        Ok(())
    }
}

/// Writes the number that the field of a name has at an object.
pub fn put_number_at(
    memory: &mut Memory<'_>,
    name: usize,
    at: u32,
    value: i64,
) -> Result<(), NoMemory>
    ensures names { memory.new.names ≡ memory.old.names }
    ensures last { memory.new.last ≡ memory.old.last }
    ensures state { OnOk result ((x : Name) → IsNamed memory.old name x → state_of memory.new ≡ assigned (state_of memory.old) x (a_field (updated ((state_of memory.old).field x) at (a_number value)))) }
{
    if name < memory.names().len() {
        memory.put_number_at(name, at, value)
    } else {
        Ok(())
    }
}

/// Writes the truth that the field of a name has at an object.
pub fn put_truth_at(
    memory: &mut Memory<'_>,
    name: usize,
    at: u32,
    value: bool,
) -> Result<(), NoMemory>
    ensures names { memory.new.names ≡ memory.old.names }
    ensures last { memory.new.last ≡ memory.old.last }
    ensures state { OnOk result ((x : Name) → IsNamed memory.old name x → state_of memory.new ≡ assigned (state_of memory.old) x (a_field (updated ((state_of memory.old).field x) at (a_truth value)))) }
{
    if name < memory.names().len() {
        memory.put_truth_at(name, at, value)
    } else {
        Ok(())
    }
}

/// Writes the set that the field of a name has at an object.
pub fn put_set_at(
    memory: &mut Memory<'_>,
    name: usize,
    at: u32,
    members: Vec<bool>,
) -> Result<(), NoMemory>
    ensures names { memory.new.names ≡ memory.old.names }
    ensures last { memory.new.last ≡ memory.old.last }
    ensures state { OnOk result ((x : Name) → IsNamed memory.old name x → (test : ℕ → Bool) → ((b : ℕ) → get_or members.items b false ≡ test b) → state_of memory.new ≡ assigned (state_of memory.old) x (a_field (updated ((state_of memory.old).field x) at (a_set test)))) }
{
    if name < memory.names().len() {
        memory.put_set_at(name, at, members)
    } else {
        Ok(())
    }
}
