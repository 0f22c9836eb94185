ghost use Rattle.std.specs.Prelude.{◌≡◌, ◌<◌, ◌++◌, List, IfOk, OnOk, Some, length, slice_get};
ghost use Rattle.jh_form.specs.Tree.{TermTree, FieldTree, ValueTree, FormulaTree, of_object, of_field};
ghost use Rattle.jh_arena.specs.table.Growth.{Extends};
ghost use Rattle.jh_arena.specs.table.Nodes.{nodes};
ghost use Rattle.jh_reach.specs.Standing.{AreFormulas, HoldsField, HoldsObject};
ghost use Rattle.jh_fca.specs.local_form.Named.{update_fact, update_facts};
ghost use Rattle.jh_local_form.specs.updates.Updating.{IsNaming};
ghost use Rattle.jh_local_form.specs.updates.NamedUpdates.{HasParts, IsNamedUpdate, AreTold};

use crate::updates::describing::described;
use crate::updates::naming::Naming;
use crate::updates::renaming::named_value;
use jh_arena::table::{Shape, Table};
use jh_name::NoMemory;

/// An update by nodes: the name that stands for it, and its parts, in which other updates have their names.
#[derive(Clone, Copy)]
pub struct NamedUpdate {
    pub name: usize,
    pub field: usize,
    pub at: usize,
    pub value: usize,
}

/// The parts of an update, in which other updates get their names.
fn named_parts(
    table: &mut Table,
    names: &Naming,
    name: usize,
    field: usize,
    at: usize,
    value: usize,
) -> Result<NamedUpdate, NoMemory>
    requires names { (us : List ValueTree) × IsNaming table.old names.now us }
    requires field { HoldsField table.old field }
    requires at { HoldsObject table.old at }
    requires value { value < length (nodes table.old) }
    ensures parts { IfOk result (λ made. (made.name ≡ name) × ((us : List ValueTree) (f : FieldTree) (a : TermTree) (v : ValueTree) → IsNaming table.old names.now us → slice_get (nodes table.old) field ≡ Some (of_field f) → slice_get (nodes table.old) at ≡ Some (of_object a) → slice_get (nodes table.old) value ≡ Some v → HasParts (nodes table.new) made us names.now.first f a v)) }
    ensures grows { Extends table.old table.new }
{
    let field = named_value(table, names, field)?;
    let at = named_value(table, names, at)?;
    let value = named_value(table, names, value)?;
    Ok(NamedUpdate {
        name,
        field,
        at,
        value,
    })
}

/// The update at a place of those that have names, with the name that stands for it. What the table held stays in its place, after
/// any answer. The answer is want of memory where a part of it nests deeper than MOST_LEVELS.
pub fn named_update(
    table: &mut Table,
    names: &Naming,
    place: usize,
) -> Result<NamedUpdate, NoMemory>
    requires names { (us : List ValueTree) × IsNaming table.old names.now us }
    requires place { place < length names.now.names }
    ensures update { IfOk result (λ made. (us : List ValueTree) → IsNaming table.old names.now us → (u : ValueTree) × (slice_get us place ≡ Some u) × IsNamedUpdate (nodes table.new) made us names.now.first u) }
    ensures grows { Extends table.old table.new }
{
    let name = names.name_at(place);
    match table.shape(names.update_at(place)) {
        Shape::Update(field, at, value) => named_parts(table, names, name, field, at, value),
        _ => unreachable!(),
    }
}

/// The node of what the name at a place says of each object.
fn update_fact(table: &mut Table, names: &Naming, place: usize) -> Result<Option<usize>, NoMemory>
    requires names { (us : List ValueTree) × IsNaming table.old names.now us }
    requires place { place < length names.now.names }
    ensures fact { IfOk result (λ made. (us : List ValueTree) → IsNaming table.old names.now us → (u : ValueTree) × (slice_get us place ≡ Some u) × AreTold (nodes table.new) made (update_fact us names.now.first u)) }
    ensures grows { Extends table.old table.new }
{
    let named = named_update(table, names, place)?;
    described(table, named.name, named.field, named.at, named.value)
}

/// Adds the node of what the name at a place says of each object, where it says something.
fn add_fact(
    table: &mut Table,
    names: &Naming,
    place: usize,
    facts: &mut Vec<usize>,
) -> Result<(), NoMemory>
    requires names { (us : List ValueTree) × IsNaming table.old names.now us }
    requires place { place < length names.now.names }
    ensures fact { OnOk result ((us : List ValueTree) (u : ValueTree) (done : List FormulaTree) → IsNaming table.old names.now us → slice_get us place ≡ Some u → AreFormulas table.old facts.old.items done → AreFormulas table.new facts.new.items (done ++ update_fact us names.now.first u)) }
    ensures grows { Extends table.old table.new }
{
    let told = update_fact(table, names, place)?;
    match told {
        None => Ok(()),
        Some(fact) => {
            facts.push(fact)?;
            Ok(())
        }
    }
}

/// The nodes of what the names say of each object, in their order: `(x = a --> g x = v) & (x ~= a --> g x = f x)` where g stands
/// for `f[a := v]`. What the table held stays in its place, after any answer.
pub fn update_facts(table: &mut Table, names: &Naming) -> Result<Vec<usize>, NoMemory>
    requires names { (us : List ValueTree) × IsNaming table.old names.now us }
    ensures facts { IfOk result (λ made. (us : List ValueTree) → IsNaming table.old names.now us → AreFormulas table.new made.items (update_facts us names.now.first)) }
    ensures grows { Extends table.old table.new }
{
    let mut facts = Vec::new(table.alloc());
    for place in 0..names.len() {
        add_fact(table, names, place, &mut facts)?;
    }
    Ok(facts)
}
