ghost use Rattle.std.specs.Prelude.{◌≡◌, ◌<◌, ◌++◌, true, false, List, IfOk, OnOk, Some, length, slice_get};
ghost use Rattle.jh_name.specs.declared.place.Sort.TheVariants as Sort;
ghost use Rattle.jh_form.specs.Tree.{ValueTree};
ghost use Rattle.jh_form.specs.Sorts.{tree_sort};
ghost use Rattle.jh_arena.specs.table.Entries.{the_value};
ghost use Rattle.jh_arena.specs.table.Growth.{Extends};
ghost use Rattle.jh_arena.specs.table.Nodes.{nodes};
ghost use Rattle.jh_fca.specs.local_form.Chains.{ChangeTree, change, changes};
ghost use Rattle.jh_local_form.specs.updates.Updating.{IsNaming};
ghost use Rattle.jh_local_form.specs.field_lists.Changing.{AreChanges};

use crate::updates::{NamedUpdate, Naming, named_update};
use jh_arena::table::Table;
use jh_name::{NoMemory, Sort};

/// Whether an object stands at a node.
fn is_object(table: &Table, node: usize) -> bool
    requires { node < length (nodes table.now) }
    ensures yes { result ≡ true → tree_sort (the_value (slice_get (nodes table.now) node)) ≡ Sort.Obj }
    ensures no { result ≡ false → tree_sort (the_value (slice_get (nodes table.now) node)) ≡ Sort.Obj → ⊥ }
{
    match table.sort(node) {
        Sort::Obj => true,
        _ => false,
    }
}

/// Adds the update at a place of those that have names, where its value is an object.
fn add_change(
    table: &mut Table,
    names: &Naming,
    place: usize,
    made: &mut Vec<NamedUpdate>,
) -> Result<(), NoMemory>
    requires names { (us : List ValueTree) × IsNaming table.old names.now us }
    requires place { place < length names.now.names }
    ensures change { OnOk result ((us : List ValueTree) (u : ValueTree) (cs : List ChangeTree) → IsNaming table.old names.now us → slice_get us place ≡ Some u → AreChanges (nodes table.old) made.old.items cs → AreChanges (nodes table.new) made.new.items (cs ++ change us names.now.first u)) }
    ensures grows { Extends table.old table.new }
{
    let named = named_update(table, names, place)?;
    if !is_object(table, named.value) {
        return Ok(());
    }
    made.push(named)?;
    Ok(())
}

/// The updates whose value is an object, the last first, with their names. What the table held stays in its place, after any
/// answer. The answer is want of memory where a part of one nests deeper than MOST_LEVELS.
pub fn changes(table: &mut Table, names: &Naming) -> Result<Vec<NamedUpdate>, NoMemory>
    requires names { (us : List ValueTree) × IsNaming table.old names.now us }
    ensures changes { IfOk result (λ made. (us : List ValueTree) → IsNaming table.old names.now us → AreChanges (nodes table.new) made.items (changes us names.now.first)) }
    ensures grows { Extends table.old table.new }
{
    let mut made = Vec::new(table.alloc());
    for turn in 0..names.len() {
        add_change(table, names, names.len() - 1 - turn, &mut made)?;
    }
    Ok(made)
}
