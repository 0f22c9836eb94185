ghost use Rattle.jh_rules.specs.Words as words;
ghost use Rattle.std.specs.Prelude.{◌≡◌, Option};
ghost use Rattle.jh_rules.specs.Names as names;
ghost use Rattle.jh_rules.specs.Rules as rules;
ghost use Rattle.jh_rules.specs.Found.{Finds};
ghost use Rattle.jh_symbols.specs.scopes.Lookings.{declared_by};
ghost use Rattle.jh_type.specs.formula_kinds.Parts as parts;

use jh_ast::Word;
use jh_name::Place;
use jh_rules::{Found, StateEntry, needs, wrong};
use jh_symbols::scopes::Lookups;

/// The two halves of a text round its first dot, where it has one.
pub fn halves(text: &str) -> Option<(&str, &str)>
    ensures { parts.pointed result ≡ words.halves text.now }
{
    text.split_once('.')
}

/// The state of a name in the class of a name.
fn state_in_class(lookups: &Lookups, class: &str, text: &str) -> Option<StateEntry>
    ensures { result ≡ parts.state_in_class (declared_by lookups.now) class.now text.now }
{
    match lookups.class_named(class) {
        None => None,
        Some(number) => lookups.state_of(number, text),
    }
}

/// A qualified word, or a plain one as a member of the class.
pub fn state_spelled(lookups: &Lookups, class: usize, text: &str) -> Option<StateEntry>
    ensures { result ≡ names.state_spelled (declared_by lookups.now) class text.now }
{
    match halves(text) {
        None => lookups.state_of(class, text),
        Some((first, second)) => state_in_class(lookups, first, second),
    }
}

/// What a word after `..`, in `tree` and in `modifies` names.
pub fn state_named(lookups: &Lookups, class: usize, text: &str) -> Option<StateEntry>
    ensures { result ≡ names.state_named (declared_by lookups.now) class text.now }
{
    match state_spelled(lookups, class, text) {
        Some(state) => Some(state),
        None => match halves(text) {
            Some(_) => None,
            None => lookups.only_state(text),
        },
    }
}

/// That a state isn't static.
fn needs_instance(place: Place, state: Option<StateEntry>) -> Found<StateEntry>
    ensures { Finds result (parts.instance place state) }
{
    match state {
        None => wrong(27, place),
        Some(entry) => needs(!entry.fixed, 27, place, entry),
    }
}

/// What a word after `..` or in `tree` names, which is to be of each object.
pub fn field_named(lookups: &Lookups, class: usize, word: &Word) -> Found<StateEntry>
    ensures { Finds result (rules.rule_27_field (declared_by lookups.now) class word.now) }
{
    needs_instance(word.place, state_named(lookups, class, word.text.text()))
}
