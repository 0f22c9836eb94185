ghost use Rattle.std.specs.Prelude.{◌≡◌, ◌∷◌, [], ℕ, List, Some, None, map, length, OnOk, if◌then◌else◌};
ghost use Rattle.indexmap.specs.IndexMap.{get_by_text};
ghost use Rattle.jh_ast.specs.Programs.{ProgramTree};
ghost use Rattle.jh_ast.specs.Bare.{class_part};
ghost use Rattle.jh_rules.specs.Words.{same_text, text_of};
ghost use Rattle.jh_rules.specs.Names as parts;
ghost use Rattle.jh_symbols.specs.declarations.Entries.{AreTables};
ghost use Rattle.jh_symbols.specs.declarations.States as states;
ghost use Rattle.jh_symbols.specs.declarations.States.{Over};

use crate::declarations::putting::{from_end, put};
use crate::scopes::{Members, state_in};
use indexmap::IndexMap;
use jh_ast::{Class, Field, SpecVar, Word};
use jh_name::NoMemory;
use jh_rules::StateEntry;
use std::alloc::Global;

/// The state of a name in a class.
fn state_at(table: &Members, text: &str) -> Option<StateEntry>
    ensures { result ≡ states.state_at table.now text.now }
{
    match table.names.get(text) {
        None => None,
        Some(member) => state_in(member),
    }
}

/// Whether no state is there.
fn is_absent(state: Option<StateEntry>) -> bool
    ensures { result ≡ states.is_absent state }
{
    match state {
        None => true,
        Some(_) => false,
    }
}

/// The last state of a name so far.
fn last_state(lasts: &IndexMap<String, StateEntry>, text: &str) -> Option<StateEntry>
    ensures { result ≡ get_by_text lasts.now text.now }
{
    lasts.get(text).copied()
}

/// Lets a state be the last of its name, where none is there.
fn put_last(
    alloc: Global,
    lasts: &mut IndexMap<String, StateEntry>,
    text: &str,
    state: StateEntry,
) -> Result<(), NoMemory>
    ensures { OnOk result (Over states.lower (λ x. Some state) (λ x. get_by_text lasts.old x) (λ x. get_by_text lasts.new x) (text.now ∷ [])) }
{
    if is_absent(last_state(lasts, text)) {
        put(alloc, lasts, text, state)?;
    }
    Ok(())
}

/// Lets a state be the first of its name.
fn put_first(
    alloc: Global,
    firsts: &mut IndexMap<String, StateEntry>,
    text: &str,
    state: StateEntry,
) -> Result<(), NoMemory>
    ensures { OnOk result (Over states.upper (λ x. Some state) (λ x. get_by_text firsts.old x) (λ x. get_by_text firsts.new x) (text.now ∷ [])) }
{
    put(alloc, firsts, text, state)?;
    Ok(())
}

/// Takes in the state of a name, where a class has one.
fn put_state(
    alloc: Global,
    table: &Members,
    firsts: &mut IndexMap<String, StateEntry>,
    lasts: &mut IndexMap<String, StateEntry>,
    text: &str,
) -> Result<(), NoMemory>
    ensures firsts { OnOk result (Over states.upper (states.state_at table.now) (λ x. get_by_text firsts.old x) (λ x. get_by_text firsts.new x) (text.now ∷ [])) }
    ensures lasts { OnOk result (Over states.lower (states.state_at table.now) (λ x. get_by_text lasts.old x) (λ x. get_by_text lasts.new x) (text.now ∷ [])) }
{
    match state_at(table, text) {
        None => Ok(()),
        Some(state) => {
            put_first(alloc, firsts, text, state)?;
            put_last(alloc, lasts, text, state)?;
            Ok(())
        }
    }
}

/// Takes in the states of the fields and statics of a class.
fn put_field_states(
    alloc: Global,
    table: &Members,
    firsts: &mut IndexMap<String, StateEntry>,
    lasts: &mut IndexMap<String, StateEntry>,
    fields: &[Field],
) -> Result<(), NoMemory>
    ensures firsts { OnOk result (Over states.upper (states.state_at table.now) (λ x. get_by_text firsts.old x) (λ x. get_by_text firsts.new x) (map states.field_text fields.now)) }
    ensures lasts { OnOk result (Over states.lower (states.state_at table.now) (λ x. get_by_text lasts.old x) (λ x. get_by_text lasts.new x) (map states.field_text fields.now)) }
{
    for field in fields.iter() {
        put_state(alloc, table, firsts, lasts, field.name.text.text())?;
    }
    Ok(())
}

/// Takes in the states of the specification variables of a class.
fn put_var_states(
    alloc: Global,
    table: &Members,
    firsts: &mut IndexMap<String, StateEntry>,
    lasts: &mut IndexMap<String, StateEntry>,
    vars: &[SpecVar],
) -> Result<(), NoMemory>
    ensures firsts { OnOk result (Over states.upper (states.state_at table.now) (λ x. get_by_text firsts.old x) (λ x. get_by_text firsts.new x) (map states.var_text vars.now)) }
    ensures lasts { OnOk result (Over states.lower (states.state_at table.now) (λ x. get_by_text lasts.old x) (λ x. get_by_text lasts.new x) (map states.var_text vars.now)) }
{
    for var in vars.iter() {
        put_state(alloc, table, firsts, lasts, var.name.text.text())?;
    }
    Ok(())
}

/// Takes in the states of a class.
fn put_class_states(
    alloc: Global,
    table: &Members,
    firsts: &mut IndexMap<String, StateEntry>,
    lasts: &mut IndexMap<String, StateEntry>,
    class: &Class,
) -> Result<(), NoMemory>
    ensures firsts { OnOk result (Over states.upper (states.state_at table.now) (λ x. get_by_text firsts.old x) (λ x. get_by_text firsts.new x) (states.state_texts class.now)) }
    ensures lasts { OnOk result (Over states.lower (states.state_at table.now) (λ x. get_by_text lasts.old x) (λ x. get_by_text lasts.new x) (states.state_texts class.now)) }
{
    put_field_states(alloc, table, firsts, lasts, class.fields.items())?;
    put_var_states(alloc, table, firsts, lasts, class.vars.items())?;
    Ok(())
}

/// Takes in the states of all classes.
pub fn put_states(
    alloc: Global,
    tables: &[Members],
    firsts: &mut IndexMap<String, StateEntry>,
    lasts: &mut IndexMap<String, StateEntry>,
    classes: &[Class],
) -> Result<(), NoMemory>
    requires long { length tables.now ≡ length classes.now }
    requires firsts { (x : List ℕ) → get_by_text firsts.old x ≡ None }
    requires lasts { (x : List ℕ) → get_by_text lasts.old x ≡ None }
    ensures firsts { OnOk result ((p : ProgramTree) → AreTables (parts.number_of p) 0 tables.now (map class_part classes.now) → (x : List ℕ) → get_by_text firsts.new x ≡ states.first_of (parts.states_from p 0 x (map class_part classes.now))) }
    ensures lasts { OnOk result ((p : ProgramTree) → AreTables (parts.number_of p) 0 tables.now (map class_part classes.now) → (x : List ℕ) → get_by_text lasts.new x ≡ states.last_of (parts.states_from p 0 x (map class_part classes.now))) }
{
    for back in 0..classes.len() {
        let index = from_end(classes.len(), back);
        put_class_states(alloc, &tables[index], firsts, lasts, &classes[index])?;
    }
    Ok(())
}
