ghost use Rattle.std.specs.Prelude.{◌≡◌, [], ℕ, List, None, map, IfOk, OnOk};
ghost use Rattle.indexmap.specs.IndexMap.{get_by_text};
ghost use Rattle.jh_ast.specs.Bare.{class_part, program_tree};
ghost use Rattle.jh_rules.specs.Names.{declared_in};
ghost use Rattle.jh_symbols.specs.scopes.Lookings.{declared_by};
ghost use Rattle.jh_symbols.specs.declarations.Filling.{IsBlank, Filled};

use crate::declarations::labels::put_labels;
use crate::declarations::members::put_tables;
use crate::declarations::numbers::put_numbers;
use crate::declarations::states::put_states;
use crate::scopes::Lookups;
use indexmap::IndexMap;
use jh_ast::{Class, Program};
use jh_name::NoMemory;
use std::alloc::Global;

/// Tables without names.
fn blank(alloc: Global) -> Lookups
    ensures { IsBlank result }
{
    Lookups {
        classes: IndexMap::new(alloc),
        members: Vec::new(alloc),
        first_states: IndexMap::new(alloc),
        last_states: IndexMap::new(alloc),
        invariants: IndexMap::new(alloc),
    }
}

/// Fills tables without names.
fn fill(alloc: Global, lookups: &mut Lookups, classes: &[Class]) -> Result<(), NoMemory>
    requires { IsBlank lookups.old }
    ensures { OnOk result (Filled lookups.new (map class_part classes.now)) }
{
    put_numbers(alloc, &mut lookups.classes, classes)?;
    put_tables(alloc, &lookups.classes, &mut lookups.members, classes)?;
    put_states(
        alloc,
        &lookups.members,
        &mut lookups.first_states,
        &mut lookups.last_states,
        classes,
    )?;
    put_labels(alloc, &mut lookups.invariants, classes)?;
    Ok(())
}

/// The tables of what a program declares.
pub fn lookups_of(alloc: Global, program: &Program) -> Result<Lookups, NoMemory>
    ensures { IfOk result (λ made. declared_by made ≡ declared_in (program_tree program.now)) }
{
    let mut lookups = blank(alloc);
    fill(alloc, &mut lookups, program.classes.items())?;
    Ok(lookups)
}
