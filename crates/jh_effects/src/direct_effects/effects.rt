ghost use Rattle.std.specs.Prelude.{◌≡◌, ◌++◌, ◌∷◌, [], OnOk};
ghost use Rattle.jh_vars.specs.Written as w;
ghost use Rattle.jh_effects.specs.direct_effects.Effects.{Adds, callee_in, state_in, written_of};

use jh_name::{NoMemory, Text};
use std::alloc::Global;

/// What is assigned: the set of all objects, that of the objects of a class or of none, or a static, field or ghost
/// variable by its class and its own name.
#[derive(PartialEq, Eq, Hash, Drop)]
pub enum Write {
    Allocated,
    Objects(usize),
    PlainObjects,
    State(usize, Text),
}

/// A method that is called, by its class and its name.
#[derive(Drop)]
pub struct Callee {
    pub class: usize,
    pub name: Text,
}

/// What is assigned and called, in the order of the text.
#[derive(Drop)]
pub struct Effects {
    pub writes: Vec<Write>,
    pub calls: Vec<Callee>,
}

impl Effects {
    /// Adds what is assigned.
    pub fn write(&mut self, write: Write) -> Result<(), NoMemory>
        ensures { OnOk result (Adds self.old self.new (written_of write ∷ []) []) }
    {
        self.writes.push(write)?;
        Ok(())
    }

    /// Adds a piece of state, where its class is known.
    pub fn write_state(
        &mut self,
        alloc: Global,
        class: Option<usize>,
        text: &str,
    ) -> Result<(), NoMemory>
        ensures { OnOk result (Adds self.old self.new (state_in class text.now) []) }
    {
        match class {
            None => Ok(()),
            Some(class) => {
                let text = Text::of(String::from_str(alloc, text)?);
                self.write(Write::State(class, text))
            }
        }
    }

    /// Adds a method that is called, where its class is known.
    pub fn call(&mut self, alloc: Global, class: Option<usize>, text: &str) -> Result<(), NoMemory>
        ensures { OnOk result (Adds self.old self.new [] (callee_in class text.now)) }
    {
        match class {
            None => Ok(()),
            Some(class) => {
                let name = Text::of(String::from_str(alloc, text)?);
                self.calls.push(Callee { class, name })?;
                Ok(())
            }
        }
    }
}
