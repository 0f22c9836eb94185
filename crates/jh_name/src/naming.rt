ghost use Rattle.std.specs.Prelude.{◌≡◌, ◌↔◌, IsTrue, IfOk};

use crate::{NoMemory, Text};
use std::alloc::Global;

/// A text with a number, its turn. Turn 0 is a name as a source spells it. A name of a greater turn
/// is made by the tool and printed `text@turn`, which no source can spell.
#[derive(PartialEq, Eq, Hash, Drop)]
pub struct Name {
    pub(crate) text: Text,
    pub(crate) turn: u32,
}

impl Name {
    ghost use Rattle.jh_name.specs.Names.{same_name};

    /// The text, without the turn.
    pub fn text(&self) -> &str
        ensures { result.now ≡ self.now.text }
    {
        self.text.text()
    }

    /// The turn.
    pub fn turn(&self) -> u32
        ensures { result ≡ self.now.turn }
    {
        self.turn
    }

    /// Whether two names are one: where their texts and turns are.
    pub fn same(&self, other: &Name) -> bool
        ensures equal { IsTrue result ↔ (self.now ≡ other.now) }
        ensures test { result ≡ same_name self.now other.now }
    {
        self.turn == other.turn && self.text.text() == other.text.text()
    }

    /// A name of the same text and turn.
    pub fn copy(&self, alloc: Global) -> Result<Name, NoMemory>
        ensures { IfOk result (λ made. made ≡ self.now) }
    {
        let text = String::from_str(alloc, self.text())?;
        Ok(Name {
            text: Text::of(text),
            turn: self.turn,
        })
    }
}
