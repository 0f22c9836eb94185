ghost use Rattle.std.specs.Prelude.{◌≡◌, ℕ, true, false, None, IfSome, map, IfOk};
ghost use Rattle.jh_ast.specs.Bare.{class_part};
ghost use Rattle.jh_containers.specs.topological_order.Orders.{Reaches};
ghost use Rattle.jh_containers.specs.transitive_closure.Spreads.{IsIn};
ghost use Rattle.jh_vars.specs.Reading.{IsFirst, variables};
ghost use Rattle.jh_definitions.specs.expansion.Opening.{source_of};
ghost use Rattle.jh_definitions.specs.dependency_order.Defining.{ReadsItself, IsOfNone, named, variables_in};

use jh_ast::{Class, SpecVar, Word};
use jh_containers::topological_order::{Done, is_cyclic};
use jh_name::{NoMemory, Row};
use jh_symbols::member_numbers::Numbers;
use std::alloc::Global;

/// What is searched for cycles: which definition each variable has, which definitions each one reads, and those of
/// which it is known that they aren't read by themselves.
#[derive(Clone, Copy)]
pub struct Search<'a> {
    pub numbers: &'a Numbers,
    pub rows: &'a [Row<usize>],
    pub done: &'a Done,
}

/// Whether the definition of a variable reads the variable.
fn reads_itself(alloc: Global, search: &Search, class: usize, word: &Word) -> Result<bool, NoMemory>
    requires sound { (x : ℕ) → IsIn search.now.done.now x → Reaches search.now.rows.now x x → ⊥ }
    ensures yes { IfOk result (λ found. found ≡ true → ReadsItself search.now.numbers.now search.now.rows.now (named class word.now)) }
    ensures no { IfOk result (λ found. found ≡ false → ReadsItself search.now.numbers.now search.now.rows.now (named class word.now) → ⊥) }
{
    match search.numbers.number(class, word.text.text()) {
        None => Ok(false),
        Some(number) => is_cyclic(alloc, search.rows, search.done, number),
    }
}

/// The word of the first of some variables of a class whose definition reads it.
fn first_in_class<'a>(
    alloc: Global,
    search: &Search,
    class: usize,
    vars: &'a [SpecVar],
) -> Result<Option<&'a Word>, NoMemory>
    requires sound { (x : ℕ) → IsIn search.now.done.now x → Reaches search.now.rows.now x x → ⊥ }
    ensures found { IfOk result (λ found. IfSome found (λ word. IsFirst (ReadsItself search.now.numbers.now search.now.rows.now) (variables_in class vars.now) (named class word.now))) }
    ensures none { IfOk result (λ found. found ≡ None → IsOfNone (ReadsItself search.now.numbers.now search.now.rows.now) (variables_in class vars.now)) }
{
    for at in 0..vars.len() {
        if reads_itself(alloc, search, class, &vars[at].name)? {
            return Ok(Some(&vars[at].name));
        }
    }
    Ok(None)
}

/// The word of the first variable of a program whose definition reads it.
pub fn first_cyclic<'a>(
    alloc: Global,
    search: &Search,
    classes: &'a [Class],
) -> Result<Option<&'a Word>, NoMemory>
    requires sound { (x : ℕ) → IsIn search.now.done.now x → Reaches search.now.rows.now x x → ⊥ }
    ensures found { IfOk result (λ found. IfSome found (λ word. (c : ℕ) × IsFirst (ReadsItself search.now.numbers.now search.now.rows.now) (variables (source_of classes.now)) (named c word.now))) }
    ensures none { IfOk result (λ found. found ≡ None → IsOfNone (ReadsItself search.now.numbers.now search.now.rows.now) (variables (source_of classes.now))) }
{
    for class in 0..classes.len() {
        let found = first_in_class(alloc, search, class, classes[class].vars.items())?;
        if found.is_some() {
            return Ok(found);
        }
    }
    Ok(None)
}
