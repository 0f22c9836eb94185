ghost use Rattle.std.specs.Prelude.{◌≡◌, false, OnOk};
ghost use Rattle.jh_rules.specs.Words.{same_text};
ghost use Rattle.jh_semantics.specs.Code.{Text};
ghost use Rattle.jh_loop_targets.specs.Noted.{holds, Notes};

use indexmap::IndexMap;
use jh_name::NoMemory;
use std::alloc::Global;

/// Some texts.
#[derive(Drop)]
pub struct Texts {
    pub known: IndexMap<String, bool>,
}

impl Texts {
    /// No texts.
    pub fn none(alloc: Global) -> Texts
        ensures { (x : Text) → holds result x ≡ false }
    {
        Texts {
            known: IndexMap::new(alloc),
        }
    }

    /// Whether a text was noted.
    pub fn holds(&self, text: &str) -> bool
        ensures { result ≡ holds self.now text.now }
    {
        self.known.contains_key(text)
    }

    /// Notes a text that is new.
    fn note_new(&mut self, alloc: Global, text: &str) -> Result<(), NoMemory>
        ensures { OnOk result (Notes self.old self.new (same_text text.now)) }
    {
        let key = String::from_str(alloc, text)?;
        self.known.insert(key, true)?;
        Ok(())
    }

    /// Notes a text.
    pub fn note(&mut self, alloc: Global, text: &str) -> Result<(), NoMemory>
        ensures { OnOk result (Notes self.old self.new (same_text text.now)) }
    {
        if self.holds(text) {
            return Ok(());
        }
        self.note_new(alloc, text)
    }
}
