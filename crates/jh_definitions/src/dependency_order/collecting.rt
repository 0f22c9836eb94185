ghost use Rattle.std.specs.Prelude.{◌≡◌, ◌<◌, ◌≤◌, ◌+◌, ◌⊎◌, ℕ, List, map, not, take, Some, None, length, false, IfOk, OnOk};
ghost use Rattle.std.specs.Option.{option_map_or};
ghost use Rattle.jh_ast.specs.Bare.{def_part};
ghost use Rattle.jh_ast.specs.Programs.{ProgramTree, DefPart};
ghost use Rattle.jh_rules.specs.Names.{declared_in, def_in, def_of};
ghost use Rattle.jh_rules.specs.Words.{text_of};
ghost use Rattle.jh_rules.specs.declared.entries.StateEntry.{StateEntry};
ghost use Rattle.jh_symbols.specs.scopes.Lookings.{declared_by};
ghost use Rattle.jh_vars.specs.Opened.{all_definitions};
ghost use Rattle.jh_symbols.specs.member_numbers.Numbering.{number_in};
ghost use Rattle.jh_definitions.specs.expansion.Opening.{source_of, AreDefinitions};
ghost use Rattle.jh_definitions.specs.dependency_order.Defining.{AreNumbered, AreAll, IsDefinitionOf};

use crate::expansion::Definition;
use jh_ast::{Class, VarDef};
use jh_name::NoMemory;
use jh_symbols::member_numbers::Numbers;
use jh_symbols::scopes::Lookups;
use std::alloc::Global;

/// The definitions of a program, of each variable the first, and the place of each in the list.
#[derive(Drop)]
pub struct Definitions<'a> {
    pub list: Vec<Definition<'a>>,
    pub numbers: Numbers,
}

/// Whether there is one variable of a name for each object of a class.
fn is_of_objects(lookups: &Lookups, class: usize, text: &str) -> bool
    ensures { result ≡ option_map_or (λ (s : StateEntry). not s.fixed) ((declared_by lookups.now).state_of class text.now) false }
{
    match lookups.state_of(class, text) {
        None => false,
        Some(state) => !state.fixed,
    }
}

/// A definition of a class.
fn definition_of<'a>(lookups: &Lookups, class: usize, def: &'a VarDef) -> Definition<'a>
    ensures { IsDefinitionOf (declared_by lookups.now) class def.now result }
{
    Definition {
        class,
        word: &def.name,
        of_objects: is_of_objects(lookups, class, def.name.text.text()),
        body: &def.body.body,
    }
}

/// Adds the definition of a variable that has none in the list.
fn add_new<'a>(
    alloc: Global,
    lookups: &Lookups,
    made: &mut Definitions<'a>,
    class: usize,
    def: &'a VarDef,
) -> Result<(), NoMemory>
    requires class { class < length made.old.numbers.maps.items }
    requires numbered { AreNumbered made.old.numbers made.old.list.items }
    requires fresh { number_in made.old.numbers class (text_of def.now.name) ≡ None }
    ensures numbered { OnOk result (AreNumbered made.new.numbers made.new.list.items) }
    ensures sound { OnOk result ((p : ProgramTree) → declared_by lookups.now ≡ declared_in p → class < length p.classes → def_of p class (text_of def.now.name) ≡ Some (def_part def.now) → AreDefinitions p made.old.list.items → AreDefinitions p made.new.list.items) }
    ensures named { OnOk result (number_in made.new.numbers class (text_of def.now.name) ≡ None → ⊥) }
    ensures others { OnOk result ((c : ℕ) (x : List ℕ) → ((c ≡ class) × (x ≡ text_of def.now.name)) ⊎ (number_in made.new.numbers c x ≡ number_in made.old.numbers c x)) }
    ensures classes { OnOk result (length made.new.numbers.maps.items ≡ length made.old.numbers.maps.items) }
    ensures count { OnOk result (length made.new.list.items ≡ length made.old.list.items + 1) }
{
    let next = definition_of(lookups, class, def);
    let place = made.list.as_slice().len();
    made.numbers.put(alloc, class, def.name.text.text(), place)?;
    made.list.push(next)?;
    Ok(())
}

/// Adds a definition, where its variable has none in the list.
fn add<'a>(
    alloc: Global,
    lookups: &Lookups,
    made: &mut Definitions<'a>,
    class: usize,
    def: &'a VarDef,
) -> Result<(), NoMemory>
    requires class { class < length made.old.numbers.maps.items }
    requires numbered { AreNumbered made.old.numbers made.old.list.items }
    ensures numbered { OnOk result (AreNumbered made.new.numbers made.new.list.items) }
    ensures sound { OnOk result ((p : ProgramTree) → declared_by lookups.now ≡ declared_in p → class < length p.classes → (number_in made.old.numbers class (text_of def.now.name) ≡ None → def_of p class (text_of def.now.name) ≡ Some (def_part def.now)) → AreDefinitions p made.old.list.items → AreDefinitions p made.new.list.items) }
    ensures named { OnOk result (number_in made.new.numbers class (text_of def.now.name) ≡ None → ⊥) }
    ensures others { OnOk result ((c : ℕ) (x : List ℕ) → ((c ≡ class) × (x ≡ text_of def.now.name)) ⊎ (number_in made.new.numbers c x ≡ number_in made.old.numbers c x)) }
    ensures classes { OnOk result (length made.new.numbers.maps.items ≡ length made.old.numbers.maps.items) }
    ensures few { OnOk result (length made.new.list.items ≤ length made.old.list.items + 1) }
{
    if made.numbers.number(class, def.name.text.text()).is_some() {
        return Ok(());
    }
    add_new(alloc, lookups, made, class, def)
}

/// Adds the definitions of a class.
fn add_class<'a>(
    alloc: Global,
    lookups: &Lookups,
    made: &mut Definitions<'a>,
    class: usize,
    defs: &'a [VarDef],
) -> Result<(), NoMemory>
    requires class { class < length made.old.numbers.maps.items }
    requires numbered { AreNumbered made.old.numbers made.old.list.items }
    ensures numbered { OnOk result (AreNumbered made.new.numbers made.new.list.items) }
    ensures sound { OnOk result ((p : ProgramTree) → declared_by lookups.now ≡ declared_in p → class < length p.classes → ((x : List ℕ) → def_of p class x ≡ def_in x (map def_part defs.now)) → AreDefinitions p made.old.list.items → AreDefinitions p made.new.list.items) }
    ensures all { OnOk result ((x : List ℕ) → number_in made.new.numbers class x ≡ None → def_in x (map def_part defs.now) ≡ None) }
    ensures others { OnOk result ((c : ℕ) (x : List ℕ) → (c ≡ class) ⊎ (number_in made.new.numbers c x ≡ number_in made.old.numbers c x)) }
    ensures classes { OnOk result (length made.new.numbers.maps.items ≡ length made.old.numbers.maps.items) }
    ensures few { OnOk result (length made.new.list.items ≤ length made.old.list.items + length defs.now) }
{
    for def in defs {
        add(alloc, lookups, made, class, def)?;
    }
    Ok(())
}

/// The definitions of a program.
pub fn definitions_of<'a>(
    alloc: Global,
    lookups: &Lookups,
    classes: &'a [Class],
) -> Result<Definitions<'a>, NoMemory>
    requires declared { declared_by lookups.now ≡ declared_in (source_of classes.now) }
    ensures numbered { IfOk result (λ made. AreNumbered made.numbers made.list.items) }
    ensures sound { IfOk result (λ made. AreDefinitions (source_of classes.now) made.list.items) }
    ensures all { IfOk result (λ made. AreAll (source_of classes.now) made.numbers) }
    ensures few { IfOk result (λ made. length made.list.items ≤ all_definitions (source_of classes.now)) }
{
    let mut made = Definitions {
        list: Vec::new(alloc),
        numbers: Numbers::none(alloc, classes.len())?,
    };
    for class in 0..classes.len() {
        add_class(
            alloc,
            lookups,
            &mut made,
            class,
            classes[class].defs.items(),
        )?;
    }
    Ok(made)
}
