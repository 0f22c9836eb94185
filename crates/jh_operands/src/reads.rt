// What names have in a memory. A number that is that of no name has null, 0 or false, so that nothing is asked of the numbers in an
// expression while it is evaluated.
#![tactic(auto, using(crate::proofs::ReadSteps::not_there))]

ghost use Rattle.std.specs.Prelude.{◌≡◌, ◌<◌, suc};
ghost use Rattle.jh_name.specs.declared.naming.Name.{Name};
ghost use Rattle.jh_store.specs.memory.Held.{state_of, IsNamed};

use jh_store::memory::Memory;

pub(crate) fn object(memory: &Memory<'_>, name: usize) -> u32
    ensures value { (x : Name) → IsNamed memory.now name x → result ≡ (state_of memory.now).object x }
    ensures inside { result < suc memory.now.last }
{
    if name < memory.names().len() {
        memory.object(name)
    } else {
        0
    }
}

pub(crate) fn number(memory: &Memory<'_>, name: usize) -> i64
    ensures { (x : Name) → IsNamed memory.now name x → result ≡ (state_of memory.now).number x }
{
    if name < memory.names().len() {
        memory.number(name)
    } else {
        0
    }
}

pub(crate) fn truth(memory: &Memory<'_>, name: usize) -> bool
    ensures { (x : Name) → IsNamed memory.now name x → result ≡ (state_of memory.now).truth x }
{
    if name < memory.names().len() {
        memory.truth(name)
    } else {
        false
    }
}

pub(crate) fn object_at(memory: &Memory<'_>, name: usize, at: u32) -> u32
    ensures value { (x : Name) → IsNamed memory.now name x → result ≡ ((state_of memory.now).field x).objects at }
    ensures inside { result < suc memory.now.last }
{
    if name < memory.names().len() {
        memory.object_at(name, at)
    } else {
        0
    }
}

pub(crate) fn number_at(memory: &Memory<'_>, name: usize, at: u32) -> i64
    ensures { (x : Name) → IsNamed memory.now name x → result ≡ ((state_of memory.now).field x).numbers at }
{
    if name < memory.names().len() {
        memory.number_at(name, at)
    } else {
        0
    }
}

pub(crate) fn truth_at(memory: &Memory<'_>, name: usize, at: u32) -> bool
    ensures { (x : Name) → IsNamed memory.now name x → result ≡ ((state_of memory.now).field x).truths at }
{
    if name < memory.names().len() {
        memory.truth_at(name, at)
    } else {
        false
    }
}
