ghost use Rattle.std.specs.Prelude.{◌≡◌, ◌<◌, nat_lt, [], ◌∷◌, true, List, IfOk, OnOk, Some, length, slice_get};
ghost use Rattle.jh_form.specs.Tree.{FieldTree};
ghost use Rattle.jh_arena.specs.table.Entries.{are_fields};
ghost use Rattle.jh_arena.specs.table.Growth.{Extends};
ghost use Rattle.jh_arena.specs.table.Nodes.{nodes};
ghost use Rattle.jh_reach.specs.Axioms.{BackboneTree};
ghost use Rattle.jh_reach.specs.Standing.{AreFields};
ghost use Rattle.jh_fca.specs.local_form.Chains.{ChangeTree, led_from, place_of};
ghost use Rattle.jh_local_form.specs.field_lists.Changing.{IsChange, AreChanges};
ghost use Rattle.jh_local_form.specs.field_lists.Leading.{AreBackbones, IsLed, LeadsOn, with_backbones};

use crate::field_lists::backbones::{Backbone, add_backbone};
use crate::field_lists::testing::{has_axioms, place_of};
use crate::updates::NamedUpdate;
use jh_arena::table::Table;
use jh_name::NoMemory;
use jh_reach::Base;

/// The change at a place.
fn change_at(changes: &[NamedUpdate], place: usize) -> NamedUpdate
    requires { place < length changes.now }
    ensures { slice_get changes.now place ≡ Some result }
{
    changes[place]
}

/// Adds a list with what it came from, and puts the field that was updated in the place of the name of the update. Where no axioms
/// are given for the list, it leads no further, and the answer is no.
fn lead(
    table: &mut Table,
    change: NamedUpdate,
    place: usize,
    fields: &mut Vec<usize>,
    made: &mut Vec<Backbone>,
) -> Result<bool, NoMemory>
    requires change { (c : ChangeTree) × IsChange (nodes table.old) change c }
    requires place { place < length fields.old.items }
    requires fields { are_fields (nodes table.old) fields.old.items ≡ true }
    requires made { (bs : List BackboneTree) × AreBackbones table.old made.old.items bs }
    ensures led { IfOk result (λ on. (c : ChangeTree) (cs : List ChangeTree) (bs : List BackboneTree) (fs : List FieldTree) → IsChange (nodes table.old) change c → AreBackbones table.old made.old.items bs → AreFields table.old fields.old.items fs → nat_lt (place_of c.name fs) (length fs) ≡ true → place ≡ place_of c.name fs → LeadsOn on table.new made.new.items fields.new.items cs (with_backbones bs (led_from fs (c ∷ cs)))) }
    ensures fields { OnOk result (are_fields (nodes table.new) fields.new.items ≡ true) }
    ensures made { OnOk result ((bs : List BackboneTree) × AreBackbones table.new made.new.items bs) }
    ensures grows { Extends table.old table.new }
{
    if !has_axioms(table, fields.as_slice()) {
        return Ok(false);
    }
    let base = Base {
        place,
        field: change.field,
        at: change.at,
        value: change.value,
    };
    add_backbone(table, fields.as_slice(), Some(base), made)?;
    fields[place] = change.field;
    Ok(true)
}

/// Goes on from a list by a change, where the name that stands for it is one of the list. The answer is no where the list leads
/// no further.
fn go_on(
    table: &mut Table,
    change: NamedUpdate,
    fields: &mut Vec<usize>,
    made: &mut Vec<Backbone>,
) -> Result<bool, NoMemory>
    requires change { (c : ChangeTree) × IsChange (nodes table.old) change c }
    requires fields { are_fields (nodes table.old) fields.old.items ≡ true }
    requires made { (bs : List BackboneTree) × AreBackbones table.old made.old.items bs }
    ensures led { IfOk result (λ on. (c : ChangeTree) (cs : List ChangeTree) (whole : List BackboneTree) → IsChange (nodes table.old) change c → IsLed table.old made.old.items fields.old.items (c ∷ cs) whole → LeadsOn on table.new made.new.items fields.new.items cs whole) }
    ensures fields { OnOk result (are_fields (nodes table.new) fields.new.items ≡ true) }
    ensures made { OnOk result ((bs : List BackboneTree) × AreBackbones table.new made.new.items bs) }
    ensures grows { Extends table.old table.new }
{
    table.nodes_differ();
    match place_of(fields.as_slice(), change.name) {
        None => Ok(true),
        Some(place) => lead(table, change, place, fields, made),
    }
}

/// Adds a list that leads no further, where axioms are given for it.
fn add_last(table: &mut Table, fields: &[usize], made: &mut Vec<Backbone>) -> Result<(), NoMemory>
    requires fields { are_fields (nodes table.old) fields.now ≡ true }
    requires made { (bs : List BackboneTree) × AreBackbones table.old made.old.items bs }
    ensures made { OnOk result ((whole : List BackboneTree) → IsLed table.old made.old.items fields.now [] whole → AreBackbones table.new made.new.items whole) }
    ensures grows { Extends table.old table.new }
{
    if !has_axioms(table, fields) {
        return Ok(());
    }
    add_backbone(table, fields, None, made)
}

/// Adds a list of fields and those that it leads to.
pub(crate) fn add_led(
    table: &mut Table,
    changes: &[NamedUpdate],
    fields: &mut Vec<usize>,
    made: &mut Vec<Backbone>,
) -> Result<(), NoMemory>
    requires changes { (cs : List ChangeTree) × AreChanges (nodes table.old) changes.now cs }
    requires fields { are_fields (nodes table.old) fields.old.items ≡ true }
    requires made { (bs : List BackboneTree) × AreBackbones table.old made.old.items bs }
    ensures made { OnOk result ((cs : List ChangeTree) (whole : List BackboneTree) → AreChanges (nodes table.old) changes.now cs → IsLed table.old made.old.items fields.old.items cs whole → AreBackbones table.new made.new.items whole) }
    ensures grows { Extends table.old table.new }
{
    for place in 0..changes.len() {
        if !go_on(table, change_at(changes, place), fields, made)? {
            return Ok(());
        }
    }
    add_last(table, fields.as_slice(), made)
}
