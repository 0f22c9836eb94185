#![tactic(auto, using(jh_rules::proofs::Judgements::find_steps, crate::proofs::formula_kinds::Steps::kind_steps))]

ghost use Rattle.std.specs.Prelude.{◌≡◌, ◌||◌, true, Bool};
ghost use Rattle.std.specs.List.{list_any, list_all, flat_map};
ghost use Rattle.jh_rules.specs.Faults as faults;
ghost use Rattle.jh_rules.specs.Found.{Finds};
ghost use Rattle.jh_rules.specs.Names as names;
ghost use Rattle.jh_rules.specs.Rules as rules;
ghost use Rattle.jh_symbols.specs.scopes.Lookings.{declared_by};
ghost use Rattle.jh_type.specs.formula_kinds.Parts as parts;

use crate::formula_kinds::operators::{instead, unless};
use crate::formula_kinds::spelling::{field_named, halves};
use jh_ast::Word;
use jh_name::{Kind, Place};
use jh_rules::{Found, StateEntry, after, both, given, is_obj, lesser, needs, right, stop};
use jh_symbols::scopes::Lookups;

/// That a field holds objects and has no definition.
fn needs_object(word: &Word, entry: StateEntry, kind: Kind) -> Found<StateEntry>
    ensures { Finds result (parts.object_field word.now entry kind) }
{
    let good = is_obj(kind) && !entry.is_defined;
    needs(good, 30, word.place, entry)
}

/// That a field holds objects, where its kind is known, and has no definition.
fn object_field(word: &Word, entry: StateEntry) -> Found<StateEntry>
    ensures { Finds result (rules.rule_30_field word.now entry) }
{
    let kind = given(entry.kind);
    match kind.known {
        None => stop(kind),
        Some(known) => after(kind, needs_object(word, entry, known)),
    }
}

/// What a word of a list of fields names.
fn field_state(lookups: &Lookups, class: usize, word: &Word) -> Found<StateEntry>
    ensures { Finds result (parts.field_state (declared_by lookups.now) class word.now) }
{
    let found = field_named(lookups, class, word);
    match found.known {
        None => stop(found),
        Some(entry) => after(found, object_field(word, entry)),
    }
}

/// That something is known.
fn note_known(found: Found<StateEntry>) -> Found<bool>
    ensures { result ≡ parts.noted (λ x. true) found }
{
    let known = match found.known {
        None => None,
        Some(_) => Some(true),
    };
    Found {
        least: found.least,
        known,
    }
}

/// Whether something is so of two parts that are both known.
fn both_hold(left: Option<bool>, right: Option<bool>) -> Option<bool>
    ensures { result ≡ parts.both_hold left right }
{
    match left {
        None => None,
        Some(first) => match right {
            None => None,
            Some(second) => Some(first && second),
        },
    }
}

/// What is found of some parts and of one more.
pub fn merge(found: Found<bool>, next: Found<bool>) -> Found<bool>
    ensures { result ≡ parts.merged found next }
{
    Found {
        least: lesser(found.least, next.least),
        known: both_hold(found.known, next.known),
    }
}

/// What is found of the words of a list of fields.
fn fields_known(lookups: &Lookups, class: usize, words: &[Word]) -> Found<bool>
    ensures { Finds result (parts.seen (list_all (λ x. true)) (faults.each (parts.field_state (declared_by lookups.now) class) words.now)) }
{
    let mut found = right(true);
    for word in words.iter() {
        found = merge(found, note_known(field_state(lookups, class, word)));
    }
    found
}

/// The own name of a word.
fn own_name(text: &str) -> &str
    ensures { result.now ≡ names.own_name text.now }
{
    match halves(text) {
        None => text,
        Some((_, second)) => second,
    }
}

/// Whether one of two things is so.
fn either(left: bool, right: bool) -> bool
    ensures { result ≡ left || right }
{
    left || right
}

/// Whether two states with their own names are one.
fn same_state(left: StateEntry, own: &str, right: StateEntry, other: &str) -> bool
    ensures { result ≡ rules.same_state (left, own.now) (right, other.now) }
{
    left.class == right.class && own == other
}

/// Whether a word names a state.
fn is_same(lookups: &Lookups, class: usize, entry: StateEntry, own: &str, word: &Word) -> bool
    ensures { result ≡ list_any (rules.same_state (entry, own.now)) (parts.states_of (declared_by lookups.now) class word.now) }
{
    match field_named(lookups, class, word).known {
        None => false,
        Some(other) => same_state(entry, own, other, own_name(word.text.text())),
    }
}

/// Whether one of some words names a state.
fn is_among(lookups: &Lookups, class: usize, entry: StateEntry, own: &str, words: &[Word]) -> bool
    ensures { result ≡ list_any (rules.same_state (entry, own.now)) (flat_map (parts.states_of (declared_by lookups.now) class) words.now) }
{
    let mut found = false;
    for word in words.iter() {
        let same = is_same(lookups, class, entry, own, word);
        found = either(found, same);
    }
    found
}

/// Whether one of some words names what a word names.
fn is_again(lookups: &Lookups, class: usize, word: &Word, words: &[Word]) -> bool
    ensures { result ≡ parts.is_again (declared_by lookups.now) class word.now words.now }
{
    match field_named(lookups, class, word).known {
        None => false,
        Some(entry) => is_among(lookups, class, entry, own_name(word.text.text()), words),
    }
}

/// Whether two words of a list name the same.
fn has_twice(lookups: &Lookups, class: usize, words: &[Word]) -> bool
    ensures { result ≡ rules.has_twice (flat_map (parts.states_of (declared_by lookups.now) class) words.now) }
{
    let mut found = false;
    for index in 0..words.len() {
        let again = is_again(lookups, class, &words[index], &words[index + 1..]);
        found = either(found, again);
    }
    found
}

/// That a list of fields has at most four, each once.
fn listed(lookups: &Lookups, class: usize, place: Place, words: &[Word]) -> Found<()>
    ensures { Finds result (faults.needs_none (rules.rule_30_list place words.now (flat_map (parts.states_of (declared_by lookups.now) class) words.now))) }
{
    let broken = words.len() > 4 || has_twice(lookups, class, words);
    unless(broken, 30, place)
}

/// What is found of a list of fields.
pub fn fields_kind(lookups: &Lookups, class: usize, place: Place, words: &[Word]) -> Found<Kind>
    ensures { Finds result (parts.fields_kind (declared_by lookups.now) class place words.now) }
{
    let known = fields_known(lookups, class, words);
    let list = listed(lookups, class, place, words);
    instead(both(known, list), Kind::Bool)
}
