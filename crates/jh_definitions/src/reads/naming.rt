ghost use Rattle.std.specs.Prelude.{◌≡◌, ◌++◌, ◌∷◌, [], Option, option_map, codes, OnOk, IfOk};
ghost use Rattle.std.specs.Option.{option_map_or};
ghost use Rattle.jh_ast.specs.Bare.{form_tree};
ghost use Rattle.jh_rules.specs.Words.{is_one_of, text_of};
ghost use Rattle.jh_rules.specs.Formulas.{equations};
ghost use Rattle.jh_symbols.specs.scopes.Lookings.{declared_by};
ghost use Rattle.jh_vars.specs.States as states;
ghost use Rattle.jh_vars.specs.Reading as reading;
ghost use Rattle.jh_resolution.specs.Spots.{texts_of};
ghost use Rattle.jh_definitions.specs.reads.Listed.{states_in, no_states};

use jh_ast::{SpecTree, Word};
use jh_name::{NoMemory, Text};
use jh_resolution::jh_type::formula_kinds::{equation_fields, state_named, state_spelled};
use jh_resolution::own_name;
use jh_rules::StateEntry;
use jh_symbols::scopes::Lookups;
use std::alloc::Global;

/// A field, static or variable that is read, with its own name.
#[derive(Drop)]
pub struct Read {
    pub entry: StateEntry,
    pub own: Text,
}

/// Where a formula outside methods stands: what is declared, its class and the bound names, the outermost first.
#[derive(Clone, Copy)]
pub struct Reading<'a> {
    pub lookups: &'a Lookups,
    pub class: usize,
    pub bound: &'a [&'a Word],
}

/// Adds a piece of state, where there is one.
fn add_state(
    alloc: Global,
    made: &mut Vec<Read>,
    state: Option<StateEntry>,
    text: &str,
) -> Result<(), NoMemory>
    ensures { OnOk result (states_in made.new.items ≡ states_in made.old.items ++ reading.some_state (option_map (states.called text.now) state)) }
{
    match state {
        None => Ok(()),
        Some(entry) => {
            let own = Text::of(String::from_str(alloc, own_name(text))?);
            made.push(Read { entry, own })?;
            Ok(())
        }
    }
}

/// Whether a text is a bound name.
fn is_bound(bound: &[&Word], text: &str) -> bool
    ensures { result ≡ is_one_of text.now (texts_of bound.now) }
{
    for word in bound {
        if text == word.text.text() {
            return true;
        }
    }
    false
}

/// Whether a text is a name that is no member in any class.
fn is_special(text: &str) -> bool
    ensures { result ≡ is_one_of text.now no_states }
{
    text == "this"
        || text == "result"
        || text == "alloc"
        || text == "Object"
        || text == "Object.alloc"
}

/// Adds what a name reads.
pub fn add_name(
    alloc: Global,
    made: &mut Vec<Read>,
    at: &Reading,
    word: &Word,
) -> Result<(), NoMemory>
    ensures { OnOk result (states_in made.new.items ≡ states_in made.old.items ++ reading.name_reads (declared_by at.now.lookups.now) at.now.class (texts_of at.now.bound.now) word.now) }
{
    let text = word.text.text();
    if is_bound(at.bound, text) {
        return Ok(());
    }
    if is_special(text) {
        return Ok(());
    }
    add_state(alloc, made, state_spelled(at.lookups, at.class, text), text)
}

/// Adds what fields of some names read.
pub fn add_fields(
    alloc: Global,
    made: &mut Vec<Read>,
    at: &Reading,
    words: &[Word],
) -> Result<(), NoMemory>
    ensures { OnOk result (states_in made.new.items ≡ states_in made.old.items ++ reading.fields_read (declared_by at.now.lookups.now) at.now.class words.now) }
{
    for word in words {
        let text = word.text.text();
        add_state(alloc, made, state_named(at.lookups, at.class, text), text)?;
    }
    Ok(())
}

/// Adds the fields of the body of a path.
pub fn add_path(
    alloc: Global,
    made: &mut Vec<Read>,
    at: &Reading,
    first: &Word,
    second: &Word,
    body: &SpecTree,
) -> Result<(), NoMemory>
    ensures { OnOk result (states_in made.new.items ≡ states_in made.old.items ++ option_map_or (reading.fields_read (declared_by at.now.lookups.now) at.now.class) (equations (text_of first.now) (text_of second.now) (form_tree body.now)) []) }
{
    match equation_fields(alloc, first, second, body)? {
        None => Ok(()),
        Some(words) => add_fields(alloc, made, at, words.items()),
    }
}
