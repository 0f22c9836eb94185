ghost use Rattle.std.specs.Prelude.{◌≡◌, ◌||◌, ℕ, List, map, is_some, OnOk};
ghost use Rattle.std.specs.List.{flat_map};
ghost use Rattle.indexmap.specs.IndexMap.{get_by_text};
ghost use Rattle.jh_ast.specs.Bare.{class_part, labelled_part};
ghost use Rattle.jh_rules.specs.Words.{is_one_of};
ghost use Rattle.jh_rules.specs.Names.{label_of};
ghost use Rattle.jh_symbols.specs.declarations.Entries as entries;

use crate::declarations::putting::put;
use indexmap::IndexMap;
use jh_ast::{Class, Labelled};
use jh_name::NoMemory;
use std::alloc::Global;

/// Takes in the name of an invariant, where it has one.
fn put_label(
    alloc: Global,
    table: &mut IndexMap<String, bool>,
    invariant: &Labelled,
) -> Result<(), NoMemory>
    ensures { OnOk result ((x : List ℕ) → is_some (get_by_text table.new x) ≡ is_some (get_by_text table.old x) || is_one_of x (label_of (labelled_part invariant.now))) }
{
    match &invariant.name {
        None => Ok(()),
        Some(word) => {
            put(alloc, table, word.text.text(), true)?;
            Ok(())
        }
    }
}

/// Takes in the names of some invariants.
fn put_class_labels(
    alloc: Global,
    table: &mut IndexMap<String, bool>,
    invariants: &[Labelled],
) -> Result<(), NoMemory>
    ensures { OnOk result ((x : List ℕ) → is_some (get_by_text table.new x) ≡ is_some (get_by_text table.old x) || is_one_of x (flat_map label_of (map labelled_part invariants.now))) }
{
    for invariant in invariants.iter() {
        put_label(alloc, table, invariant)?;
    }
    Ok(())
}

/// Takes in the names of the invariants of all classes.
pub fn put_labels(
    alloc: Global,
    table: &mut IndexMap<String, bool>,
    classes: &[Class],
) -> Result<(), NoMemory>
    ensures { OnOk result ((x : List ℕ) → is_some (get_by_text table.new x) ≡ is_some (get_by_text table.old x) || is_one_of x (flat_map entries.class_labels (map class_part classes.now))) }
{
    for class in classes.iter() {
        put_class_labels(alloc, table, class.invariants.items())?;
    }
    Ok(())
}
