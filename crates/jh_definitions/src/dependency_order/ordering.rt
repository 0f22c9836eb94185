ghost use Rattle.std.specs.Prelude.{◌≡◌, ◌<◌, ◌≤◌, ℕ, map, Some, length, slice_get, IfOk};
ghost use Rattle.jh_name.specs.declared.place.Place.{Place};
ghost use Rattle.jh_rules.specs.Breaks.{Breaks};
ghost use Rattle.jh_rules.specs.Names.{declared_in};
ghost use Rattle.jh_symbols.specs.scopes.Lookings.{declared_by};
ghost use Rattle.jh_vars.specs.Opened.{all_definitions};
ghost use Rattle.jh_definitions.specs.expansion.Opening.{source_of, AreDefinitions};
ghost use Rattle.jh_definitions.specs.dependency_order.Defining.{AreAll, AreNumbered, AreTaken, row_of};
ghost use Rattle.jh_definitions.specs.dependency_order.Answered.{IsOpening};

use crate::dependency_order::collecting::{Definitions, definitions_of};
use crate::dependency_order::finding::{Search, first_cyclic};
use crate::dependency_order::rows::{readers_of, rows_of};
use crate::expansion::Definition;
use jh_ast::{Class, Word};
use jh_containers::topological_order::{Done, order};
use jh_name::{NoMemory, Row};
use jh_symbols::scopes::Lookups;
use std::alloc::Global;

/// The definitions of a program in an order in which each reads only those before it; or, where there is none, the
/// word of the first variable whose definition reads it, directly or through others.
#[derive(Drop)]
pub enum Opening<'a> {
    Ordered(Vec<Definition<'a>>),
    Cyclic(&'a Word),
}

/// Some of a list of definitions, by their places.
fn taken<'a>(
    alloc: Global,
    list: &[Definition<'a>],
    places: &Done,
) -> Result<Vec<Definition<'a>>, NoMemory>
    requires { (i k : ℕ) → slice_get places.now i ≡ Some k → k < length list.now }
    ensures { IfOk result (λ made. AreTaken list.now places.now made.items) }
{
    let mut made = Vec::new(alloc);
    for at in 0..places.len() {
        made.push(list[places.at(at)])?;
    }
    Ok(made)
}

/// The first cyclic variable of a program, or its definitions in order.
fn ordered<'a>(
    alloc: Global,
    rows: &[Row<usize>],
    classes: &'a [Class],
    definitions: &Definitions<'a>,
) -> Result<Opening<'a>, NoMemory>
    requires rows { rows.now ≡ map (row_of (declared_in (source_of classes.now)) definitions.now.numbers) definitions.now.list.items }
    requires typed { (rule : ℕ) (place : Place) → Breaks (source_of classes.now) rule place → ⊥ }
    requires numbered { AreNumbered definitions.now.numbers definitions.now.list.items }
    requires sound { AreDefinitions (source_of classes.now) definitions.now.list.items }
    requires all { AreAll (source_of classes.now) definitions.now.numbers }
    requires few { length definitions.now.list.items ≤ all_definitions (source_of classes.now) }
    ensures { IfOk result (IsOpening (source_of classes.now)) }
{
    let readers = readers_of(alloc, rows)?;
    let done = order(alloc, rows, readers.as_slice())?;
    let search = Search {
        numbers: &definitions.numbers,
        rows,
        done: &done,
    };
    match first_cyclic(alloc, &search, classes)? {
        Some(word) => Ok(Opening::Cyclic(word)),
        None => Ok(Opening::Ordered(taken(alloc, definitions.list.as_slice(), &done)?)),
    }
}

/// The definitions of a program that breaks no type rule, in an order in which each reads only those before it; or
/// the first variable of the text whose definition reads it, directly or through others.
pub fn in_order<'a>(
    alloc: Global,
    lookups: &Lookups,
    classes: &'a [Class],
) -> Result<Opening<'a>, NoMemory>
    requires declared { declared_by lookups.now ≡ declared_in (source_of classes.now) }
    requires typed { (rule : ℕ) (place : Place) → Breaks (source_of classes.now) rule place → ⊥ }
    ensures { IfOk result (IsOpening (source_of classes.now)) }
{
    let definitions = definitions_of(alloc, lookups, classes)?;
    let rows = rows_of(
        alloc,
        lookups,
        &definitions.numbers,
        definitions.list.as_slice(),
    )?;
    ordered(alloc, rows.as_slice(), classes, &definitions)
}
