ghost use Rattle.std.specs.Prelude.{◌≡◌, ◌<◌, ◌⊎◌, ℕ, List, map, Some, None, length, IfOk, OnOk};
ghost use Rattle.jh_ast.specs.Bare.{method_part, program_tree};
ghost use Rattle.jh_ast.specs.Programs.{ProgramTree};
ghost use Rattle.jh_rules.specs.Words.{text_of};
ghost use Rattle.jh_symbols.specs.member_numbers.Numbering.{number_in};
ghost use Rattle.jh_vars.specs.Written.{part_of, method_in};
ghost use Rattle.jh_effects.specs.written_state.Methods.{callee, AreMethods, AreNumbered, AreAll};

use jh_ast::{Method, Program};
use jh_name::NoMemory;
use jh_symbols::member_numbers::Numbers;
use std::alloc::Global;

/// A method and the number of its class.
#[derive(Clone, Copy)]
pub struct Listed<'a> {
    pub class: usize,
    pub method: &'a Method,
}

/// The methods of a program, of each name in a class the first, and the place of each in the list.
#[derive(Drop)]
pub struct Methods<'a> {
    pub list: Vec<Listed<'a>>,
    pub numbers: Numbers,
}

/// Adds a method whose name has none in its class.
fn add_new<'a>(
    alloc: Global,
    made: &mut Methods<'a>,
    class: usize,
    method: &'a Method,
) -> Result<(), NoMemory>
    requires class { class < length made.old.numbers.maps.items }
    requires numbered { AreNumbered made.old.numbers made.old.list.items }
    ensures numbered { OnOk result (AreNumbered made.new.numbers made.new.list.items) }
    ensures sound { OnOk result ((p : ProgramTree) → part_of p (callee class (text_of method.now.name)) ≡ Some (method_part method.now) → AreMethods p made.old.list.items → AreMethods p made.new.list.items) }
    ensures named { OnOk result (number_in made.new.numbers class (text_of method.now.name) ≡ None → ⊥) }
    ensures others { OnOk result ((c : ℕ) (x : List ℕ) → ((c ≡ class) × (x ≡ text_of method.now.name)) ⊎ (number_in made.new.numbers c x ≡ number_in made.old.numbers c x)) }
    ensures classes { OnOk result (length made.new.numbers.maps.items ≡ length made.old.numbers.maps.items) }
{
    let place = made.list.as_slice().len();
    made.numbers
        .put(alloc, class, method.name.text.text(), place)?;
    made.list.push(Listed { class, method })?;
    Ok(())
}

/// Adds a method, where its name has none in its class.
fn add<'a>(
    alloc: Global,
    made: &mut Methods<'a>,
    class: usize,
    method: &'a Method,
) -> Result<(), NoMemory>
    requires class { class < length made.old.numbers.maps.items }
    requires numbered { AreNumbered made.old.numbers made.old.list.items }
    ensures numbered { OnOk result (AreNumbered made.new.numbers made.new.list.items) }
    ensures sound { OnOk result ((p : ProgramTree) → (number_in made.old.numbers class (text_of method.now.name) ≡ None → part_of p (callee class (text_of method.now.name)) ≡ Some (method_part method.now)) → AreMethods p made.old.list.items → AreMethods p made.new.list.items) }
    ensures named { OnOk result (number_in made.new.numbers class (text_of method.now.name) ≡ None → ⊥) }
    ensures others { OnOk result ((c : ℕ) (x : List ℕ) → ((c ≡ class) × (x ≡ text_of method.now.name)) ⊎ (number_in made.new.numbers c x ≡ number_in made.old.numbers c x)) }
    ensures classes { OnOk result (length made.new.numbers.maps.items ≡ length made.old.numbers.maps.items) }
{
    if made
        .numbers
        .number(class, method.name.text.text())
        .is_some()
    {
        return Ok(());
    }
    add_new(alloc, made, class, method)
}

/// Adds the methods of a class.
fn add_class<'a>(
    alloc: Global,
    made: &mut Methods<'a>,
    class: usize,
    methods: &'a [Method],
) -> Result<(), NoMemory>
    requires class { class < length made.old.numbers.maps.items }
    requires numbered { AreNumbered made.old.numbers made.old.list.items }
    ensures numbered { OnOk result (AreNumbered made.new.numbers made.new.list.items) }
    ensures sound { OnOk result ((p : ProgramTree) → ((x : List ℕ) → part_of p (callee class x) ≡ method_in x (map method_part methods.now)) → AreMethods p made.old.list.items → AreMethods p made.new.list.items) }
    ensures all { OnOk result ((x : List ℕ) → number_in made.new.numbers class x ≡ None → method_in x (map method_part methods.now) ≡ None) }
    ensures others { OnOk result ((c : ℕ) (x : List ℕ) → (c ≡ class) ⊎ (number_in made.new.numbers c x ≡ number_in made.old.numbers c x)) }
    ensures classes { OnOk result (length made.new.numbers.maps.items ≡ length made.old.numbers.maps.items) }
{
    for method in methods {
        add(alloc, made, class, method)?;
    }
    Ok(())
}

/// The methods of a program.
pub fn methods_of(alloc: Global, program: &Program) -> Result<Methods<'_>, NoMemory>
    ensures numbered { IfOk result (λ made. AreNumbered made.numbers made.list.items) }
    ensures sound { IfOk result (λ made. AreMethods (program_tree program.now) made.list.items) }
    ensures all { IfOk result (λ made. AreAll (program_tree program.now) made.numbers) }
{
    let classes = program.classes.items();
    let mut made = Methods {
        list: Vec::new(alloc),
        numbers: Numbers::none(alloc, classes.len())?,
    };
    for class in 0..classes.len() {
        add_class(alloc, &mut made, class, classes[class].methods.items())?;
    }
    Ok(made)
}
