ghost use Rattle.std.specs.Prelude.{◌≡◌, ◌<◌, ◌⊎◌, ℕ, List, Some, None, length, IfOk, OnOk};
ghost use Rattle.std.specs.Prelude.{if◌then◌else◌};
ghost use Rattle.indexmap.specs.IndexMap.{get_by_text};
ghost use Rattle.jh_rules.specs.Words.{same_text};
ghost use Rattle.jh_symbols.specs.member_numbers.Numbering.{number_in};

use indexmap::IndexMap;
use jh_name::NoMemory;
use std::alloc::Global;

/// Numbers by the number of a class and the own name of a member: of nodes, say, or of places in a list.
#[derive(Drop)]
pub struct Numbers {
    pub maps: Vec<IndexMap<String, usize>>,
}

/// Notes the number of a text.
fn note(
    alloc: Global,
    known: &mut IndexMap<String, usize>,
    text: &str,
    number: usize,
) -> Result<(), NoMemory>
    ensures { OnOk result ((x : List ℕ) → get_by_text known.new x ≡ (if same_text text.now x then Some number else get_by_text known.old x)) }
{
    let key = String::from_str(alloc, text)?;
    known.insert(key, number)?;
    Ok(())
}

impl Numbers {
    /// No numbers, for members of so many classes.
    pub fn none(alloc: Global, classes: usize) -> Result<Numbers, NoMemory>
        ensures none { IfOk result (λ made. (c : ℕ) (x : List ℕ) → number_in made c x ≡ None) }
        ensures classes { IfOk result (λ made. length made.maps.items ≡ classes) }
    {
        let mut maps = Vec::new(alloc);
        for _class in 0..classes {
            maps.push(IndexMap::new(alloc))?;
        }
        Ok(Numbers { maps })
    }

    /// The number of a member, where it has one.
    pub fn number(&self, class: usize, text: &str) -> Option<usize>
        ensures { result ≡ number_in self.now class text.now }
    {
        match self.maps.get(class) {
            None => None,
            Some(known) => known.get(text).copied(),
        }
    }

    /// Notes the number of a member of one of the classes, in place of the one that it had.
    pub fn put(
        &mut self,
        alloc: Global,
        class: usize,
        text: &str,
        number: usize,
    ) -> Result<(), NoMemory>
        requires { class < length self.old.maps.items }
        ensures noted { OnOk result (number_in self.new class text.now ≡ Some number) }
        ensures others { OnOk result ((c : ℕ) (x : List ℕ) → ((c ≡ class) × (x ≡ text.now)) ⊎ (number_in self.new c x ≡ number_in self.old c x)) }
        ensures classes { length self.new.maps.items ≡ length self.old.maps.items }
    {
        note(alloc, &mut self.maps[class], text, number)
    }
}
