ghost use Rattle.std.specs.Prelude.{◌≡◌, ◌<◌, ◌++◌, [], List, IfOk, OnOk, Some, length, slice_get};
ghost use Rattle.std.specs.List.{flat_map};
ghost use Rattle.jh_form.specs.Tree.{FieldTree, FormulaTree, ValueTree};
ghost use Rattle.jh_arena.specs.table.Growth.{Extends};
ghost use Rattle.jh_arena.specs.table.Nodes.{nodes};
ghost use Rattle.jh_reach.specs.Axioms.{BackboneTree, axioms_of};
ghost use Rattle.jh_reach.specs.Standing.{AreFields, AreFormulas};
ghost use Rattle.jh_fca.specs.local_form.Chains.{ChangeTree, led_from, reach_axioms};
ghost use Rattle.jh_local_form.specs.updates.Updating.{AreValues};
ghost use Rattle.jh_local_form.specs.field_lists.Changing.{AreChanges};
ghost use Rattle.jh_local_form.specs.field_lists.Leading.{IsBackbone, AreBackbones, IsListed, led_of, with_backbones};

use crate::field_lists::backbones::{Backbone, backbone_at};
use crate::field_lists::leading::add_led;
use crate::updates::{NamedUpdate, parts_of};
use jh_arena::table::{Shape, Table};
use jh_name::NoMemory;
use jh_normal_forms::parts::{FieldLists, NodeList};
use jh_reach::backbone_axioms;

/// The fields of a list.
fn fields_of(table: &Table, list: usize) -> Result<Vec<usize>, NoMemory>
    requires { (fs : List FieldTree) × IsListed table.now list fs }
    ensures { IfOk result (λ made. (fs : List FieldTree) → IsListed table.now list fs → AreFields table.now made.items fs) }
{
    let mut fields = Vec::new(table.alloc());
    fields.extend_from_slice(table.list_at(list))?;
    Ok(fields)
}

/// Adds the list of this number and those that it leads to.
fn add_list(
    table: &mut Table,
    changes: &[NamedUpdate],
    list: usize,
    made: &mut Vec<Backbone>,
) -> Result<(), NoMemory>
    requires list { (fs : List FieldTree) × IsListed table.old list fs }
    requires changes { (cs : List ChangeTree) × AreChanges (nodes table.old) changes.now cs }
    requires made { (bs : List BackboneTree) × AreBackbones table.old made.old.items bs }
    ensures made { OnOk result ((cs : List ChangeTree) (fs : List FieldTree) (bs : List BackboneTree) → AreChanges (nodes table.old) changes.now cs → IsListed table.old list fs → AreBackbones table.old made.old.items bs → AreBackbones table.new made.new.items (with_backbones bs (led_from fs cs))) }
    ensures grows { Extends table.old table.new }
{
    let mut fields = fields_of(table, list)?;
    add_led(table, changes, &mut fields, made)
}

/// Adds the list of a `reach` or a `tree` and those that it leads to.
fn add_lists_of(
    table: &mut Table,
    changes: &[NamedUpdate],
    node: usize,
    made: &mut Vec<Backbone>,
) -> Result<(), NoMemory>
    requires node { node < length (nodes table.old) }
    requires changes { (cs : List ChangeTree) × AreChanges (nodes table.old) changes.now cs }
    requires made { (bs : List BackboneTree) × AreBackbones table.old made.old.items bs }
    ensures made { OnOk result ((cs : List ChangeTree) (v : ValueTree) (bs : List BackboneTree) → AreChanges (nodes table.old) changes.now cs → slice_get (nodes table.old) node ≡ Some v → AreBackbones table.old made.old.items bs → AreBackbones table.new made.new.items (with_backbones bs (led_of cs v))) }
    ensures grows { Extends table.old table.new }
{
    match table.shape(node) {
        Shape::Reach(list, _, _) => add_list(table, changes, list, made),
        Shape::Tree(list) => add_list(table, changes, list, made),
        _ => Ok(()),
    }
}

/// The backbones of the lists of formulas, and those that they lead to, each once.
fn backbones(
    table: &mut Table,
    formulas: &NodeList,
    changes: &[NamedUpdate],
) -> Result<Vec<Backbone>, NoMemory>
    requires formulas { (vs : List ValueTree) × AreValues (nodes table.old) formulas.now vs }
    requires changes { (cs : List ChangeTree) × AreChanges (nodes table.old) changes.now cs }
    ensures made { IfOk result (λ made. (cs : List ChangeTree) (vs : List ValueTree) → AreChanges (nodes table.old) changes.now cs → AreValues (nodes table.old) formulas.now vs → AreBackbones table.new made.items (with_backbones [] (flat_map (led_of cs) vs))) }
    ensures grows { Extends table.old table.new }
{
    let mut made = Vec::new(table.alloc());
    for place in 0..formulas.len() {
        add_lists_of(table, changes, formulas.at(place), &mut made)?;
    }
    Ok(made)
}

/// Adds the nodes of the axioms of a backbone.
fn add_axioms(
    table: &mut Table,
    backbone: Backbone,
    axioms: &mut Vec<usize>,
) -> Result<(), NoMemory>
    requires backbone { (b : BackboneTree) × IsBackbone table.old backbone b }
    ensures axioms { OnOk result ((b : BackboneTree) (done : List FormulaTree) → IsBackbone table.old backbone b → AreFormulas table.old axioms.old.items done → AreFormulas table.new axioms.new.items (done ++ axioms_of b)) }
    ensures grows { Extends table.old table.new }
{
    let fields = fields_of(table, backbone.list)?;
    let made = backbone_axioms(table, fields.as_slice(), backbone.base)?;
    axioms.extend_from_slice(made.as_slice())?;
    Ok(())
}

/// The nodes of the axioms of all backbones.
fn all_axioms(table: &mut Table, made: &[Backbone]) -> Result<Vec<usize>, NoMemory>
    requires made { (bs : List BackboneTree) × AreBackbones table.old made.now bs }
    ensures axioms { IfOk result (λ axioms. (bs : List BackboneTree) → AreBackbones table.old made.now bs → AreFormulas table.new axioms.items (flat_map axioms_of bs)) }
    ensures grows { Extends table.old table.new }
{
    let mut axioms = Vec::new(table.alloc());
    for place in 0..made.len() {
        add_axioms(table, backbone_at(made, place), &mut axioms)?;
    }
    Ok(axioms)
}

/// The nodes of the axioms of reachability along the lists of fields of formulas and the lists that they lead to, in the order in
/// which they first stand, each list once. What the table held stays in its place, after any answer. Each list is looked for among
/// those before it. The answer is want of memory where a formula nests deeper than MOST_LEVELS.
pub fn reach_axioms(
    table: &mut Table,
    formulas: &[usize],
    changes: &[NamedUpdate],
) -> Result<Vec<usize>, NoMemory>
    requires formulas { (facts : List FormulaTree) × AreFormulas table.old formulas.now facts }
    requires changes { (cs : List ChangeTree) × AreChanges (nodes table.old) changes.now cs }
    ensures axioms { IfOk result (λ made. (facts : List FormulaTree) (cs : List ChangeTree) → AreFormulas table.old formulas.now facts → AreChanges (nodes table.old) changes.now cs → AreFormulas table.new made.items (reach_axioms facts cs)) }
    ensures grows { Extends table.old table.new }
{
    let lists = parts_of(table, &FieldLists, formulas)?;
    let made = backbones(table, &lists, changes)?;
    all_axioms(table, made.as_slice())
}
