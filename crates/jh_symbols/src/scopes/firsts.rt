ghost use Rattle.std.specs.Prelude.{◌≡◌, ◌||◌, false, OnOk};
ghost use Rattle.std.specs.Prelude.{List, ℕ};
ghost use Rattle.jh_ast.specs.declared.word.Word.{Word};
ghost use Rattle.jh_symbols.specs.scopes.Firsts as firsts;

use indexmap::IndexMap;
use jh_ast::Word;
use jh_name::{NoMemory, Place};
use jh_rules::is_before;
use std::alloc::Global;

/// The first place of each name of a list of words.
#[derive(Drop)]
pub struct Firsts {
    pub(crate) places: IndexMap<String, Place>,
}

/// The earlier of two places, where there are two.
fn earlier(found: Option<Place>, place: Place) -> Place
    ensures { result ≡ firsts.earlier found place }
{
    match found {
        None => place,
        Some(other) => {
            if is_before(other, place) {
                other
            } else {
                place
            }
        }
    }
}

impl Firsts {
    /// No names.
    pub fn new(alloc: Global) -> Firsts
        ensures { (w : Word) → firsts.is_behind result w ≡ false }
    {
        Firsts {
            places: IndexMap::new(alloc),
        }
    }

    /// The first place of a name.
    fn first(&self, text: &str) -> Option<Place>
        ensures { result ≡ firsts.first self.now text.now }
    {
        self.places.get(text).copied()
    }

    /// Takes a word in.
    pub fn add(&mut self, alloc: Global, word: &Word) -> Result<(), NoMemory>
        ensures first { OnOk result ((x : List ℕ) → firsts.first self.new x ≡ firsts.with_word word.now (firsts.first self.old) x) }
        ensures behind { OnOk result ((w : Word) → firsts.is_behind self.new w ≡ firsts.is_behind self.old w || firsts.is_named_before word.now w) }
    {
        let text = word.text.text();
        let place = earlier(self.first(text), word.place);
        let key = String::from_str(alloc, text)?;
        self.places.insert(key, place)?;
        Ok(())
    }

    /// Whether a word stands behind the first place of its name.
    pub fn is_behind(&self, word: &Word) -> bool
        ensures { result ≡ firsts.is_behind self.now word.now }
    {
        match self.first(word.text.text()) {
            None => false,
            Some(place) => is_before(place, word.place),
        }
    }
}
