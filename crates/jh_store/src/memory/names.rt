ghost use Rattle.std.specs.Prelude.{◌≡◌, ◌<◌, ℕ, [], Some, IfOk, length, slice_get};
ghost use Rattle.jh_name.specs.declared.naming.Name.{Name};
ghost use Rattle.jh_store.specs.memory.Held.{AreApart};

use indexmap::IndexSet;
use jh_name::{Name, NoMemory, name};
use std::alloc::Global;
use std::marker::Model;

/// The names of a run by their numbers, each once. Contracts see the list of them.
#[derive(Drop)]
pub struct Names {
    names: IndexSet<Name>,
}

impl Model for Names {
    ghost use Rattle.std.specs.Prelude.{List};
    ghost use Rattle.jh_name.specs.declared.naming.Name.{Name};

    ghost Value = { List Name };

    ghost use Rattle.jh_store.specs.memory.Held.{ArePlain};

    ghost view = { λ s. s.names.keys };

    ghost invariant = { λ s. ArePlain s.names.keys };
}

impl Names {
    /// The number of names.
    pub fn len(&self) -> usize
        ensures count { result ≡ length self.now }
        ensures apart { AreApart self.now }
    {
        self.names.len()
    }

    /// No names.
    pub fn new(alloc: Global) -> Names
        ensures { result ≡ [] }
    {
        Names {
            names: IndexSet::new(alloc),
        }
    }

    /// The number of the name of a text at turn 0, to which one is given where it has none. The numbers of other names stay.
    pub fn number(&mut self, alloc: Global, text: &str) -> Result<usize, NoMemory>
        ensures number { IfOk result (λ number. slice_get self.new number ≡ Some (record { text = text.now; turn = 0 })) }
        ensures grows { (n : ℕ) (x : Name) → slice_get self.old n ≡ Some x → slice_get self.new n ≡ Some x }
    {
        let named = name(alloc, text, 0)?;
        match self.names.get_index_of(&named) {
            Some(number) => Ok(number),
            None => {
                let (number, _) = self.names.insert_full(named)?;
                Ok(number)
            }
        }
    }

    /// The name of a number; it is one at turn 0.
    pub fn at(&self, number: usize) -> &Name
        requires { number < length self.now }
        ensures name { slice_get self.now number ≡ Some result.now }
        ensures plain { result.now.turn ≡ 0 }
    {
        &self.names[number]
    }
}
