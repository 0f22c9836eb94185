ghost use Rattle.std.specs.Prelude.{◌≡◌, ℕ, Some, slice_get, IfOk, OnOk};
ghost use Rattle.jh_effects.specs.declared.written_state.flow.Key.{Key};
ghost use Rattle.jh_effects.specs.written_state.Arising.{AreTold, AreNumbers};

use crate::written_state::flow::{Given, Key};
use indexmap::IndexSet;
use jh_containers::transitive_closure::Fact;
use jh_name::NoMemory;
use std::alloc::Global;

/// Keys by their numbers, what is given over these numbers, and a list of numbers.
#[derive(Drop)]
pub struct Numbered {
    pub keys: IndexSet<Key>,
    pub facts: Vec<Fact>,
    pub list: Vec<usize>,
}

/// The number of a key, which gets one where it has none.
fn number(keys: &mut IndexSet<Key>, key: Key) -> Result<usize, NoMemory>
    ensures stands { IfOk result (λ made. slice_get keys.new.keys made ≡ Some key) }
    ensures keeps { OnOk result ((n : ℕ) (x : Key) → slice_get keys.old.keys n ≡ Some x → slice_get keys.new.keys n ≡ Some x) }
{
    let (number, _is_new) = keys.insert_full(key)?;
    Ok(number)
}

/// The numbers of the keys of a list.
fn number_list(
    alloc: Global,
    keys: &mut IndexSet<Key>,
    list: Vec<Key>,
) -> Result<Vec<usize>, NoMemory>
    ensures numbers { IfOk result (λ made. AreNumbers keys.new.keys made.items list.items) }
    ensures keeps { OnOk result ((n : ℕ) (x : Key) → slice_get keys.old.keys n ≡ Some x → slice_get keys.new.keys n ≡ Some x) }
{
    let mut made = Vec::new(alloc);
    for key in list {
        made.push(number(keys, key)?)?;
    }
    Ok(made)
}

/// What is given, over the numbers of the keys.
fn number_given(
    alloc: Global,
    keys: &mut IndexSet<Key>,
    given: Vec<Given>,
) -> Result<Vec<Fact>, NoMemory>
    ensures told { IfOk result (λ made. AreTold keys.new.keys made.items given.items) }
    ensures keeps { OnOk result ((n : ℕ) (x : Key) → slice_get keys.old.keys n ≡ Some x → slice_get keys.new.keys n ≡ Some x) }
{
    let mut made = Vec::new(alloc);
    for next in given {
        let Given { of, what } = next;
        let what = number(keys, what)?;
        made.push(Fact { of, what })?;
    }
    Ok(made)
}

/// What is given and the keys of a list, over the numbers of keys.
pub fn number_all(alloc: Global, given: Vec<Given>, list: Vec<Key>) -> Result<Numbered, NoMemory>
    ensures told { IfOk result (λ made. AreTold made.keys.keys made.facts.items given.items) }
    ensures numbers { IfOk result (λ made. AreNumbers made.keys.keys made.list.items list.items) }
{
    let mut keys = IndexSet::new(alloc);
    let list = number_list(alloc, &mut keys, list)?;
    let facts = number_given(alloc, &mut keys, given)?;
    Ok(Numbered { keys, facts, list })
}
