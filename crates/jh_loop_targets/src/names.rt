ghost use Rattle.std.specs.Prelude.{◌≡◌, [], OnOk};
ghost use Rattle.jh_loop_targets.specs.Gathering.{sort_named, with_one};
ghost use Rattle.jh_loop_targets.specs.Noted.{names_in};

use indexmap::IndexMap;
use jh_name::{NoMemory, Sort};
use std::alloc::Global;

/// Names with their sorts, each once, in the order in which they came.
#[derive(Drop)]
pub struct Names<'a> {
    pub sorts: IndexMap<&'a str, Sort>,
}

impl<'a> Names<'a> {
    /// No names.
    pub fn none(alloc: Global) -> Names<'a>
        ensures { names_in result ≡ [] }
    {
        Names {
            sorts: IndexMap::new(alloc),
        }
    }

    /// The sort of a name.
    pub fn sort(&self, text: &str) -> Option<Sort>
        ensures { result ≡ sort_named (names_in self.now) text.now }
    {
        self.sorts.get(text).copied()
    }

    /// Adds a name whose text is new.
    fn add_new(&mut self, text: &'a str, sort: Sort) -> Result<(), NoMemory>
        requires { sort_named (names_in self.old) text.now ≡ None }
        ensures { OnOk result (names_in self.new ≡ with_one (names_in self.old) (record { text = text.now; sort = sort })) }
    {
        self.sorts.insert(text, sort)?;
        Ok(())
    }

    /// Adds a name, unless its text is there.
    pub fn add(&mut self, text: &'a str, sort: Sort) -> Result<(), NoMemory>
        ensures { OnOk result (names_in self.new ≡ with_one (names_in self.old) (record { text = text.now; sort = sort })) }
    {
        match self.sort(text) {
            Some(_) => Ok(()),
            None => self.add_new(text, sort),
        }
    }
}
