ghost use Rattle.std.specs.Prelude.{◌≡◌, true, List, IfOk, None, Some, slice_get};
ghost use Rattle.jh_form.specs.Tree.{FieldTree};
ghost use Rattle.jh_arena.specs.table.Entries.{are_fields};
ghost use Rattle.jh_arena.specs.table.Growth.{Extends};
ghost use Rattle.jh_arena.specs.table.Nodes.{nodes};
ghost use Rattle.jh_reach.specs.Axioms.{BackboneTree, axioms_of};
ghost use Rattle.jh_reach.specs.Based.{IsBaseAt, IsSortedBase, IsThere};
ghost use Rattle.jh_reach.specs.Standing.{AreFields};
ghost use Rattle.jh_derivation_rules.specs.Cited.{members};
ghost use Rattle.jh_derivation_rules.specs.Rules.{axiom_rule, base_needs, base_rule};
ghost use Rattle.jh_derivation_steps.specs.premises.Nodes.{formula_at, field_at, formulas_at, base_at, forest_fields, AreFormulas, IsField, IsForest, IsUpdate, Gives, Makes};

use crate::premises::adding::adding;
use crate::premises::fields::{fields_of, has_axioms, item_at};
use crate::premises::making::updated_objects;
use crate::premises::nodes::{NodeRule, Nodes};
use jh_arena::table::{Shape, Table};
use jh_name::NoMemory;
use jh_reach::{Base, backbone_axioms};

/// The node of the axiom at a place of those of a list of fields, counted from 0.
fn axiom_at(
    table: &mut Table,
    fields: &[usize],
    base: Option<Base>,
    place: usize,
) -> Result<Option<usize>, NoMemory>
    requires fields { are_fields (nodes table.old) fields.now ≡ true }
    requires base { IsSortedBase table.old base }
    ensures made { (b : BackboneTree) → AreFields table.old fields.now b.fields → IsBaseAt table.old base b.base → Makes (nodes table.new) (slice_get (axioms_of b) place) result }
    ensures grows { Extends table.old table.new }
{
    let made = backbone_axioms(table, fields, base)?;
    Ok(item_at(made.as_slice(), place))
}

/// The rule that adds an axiom of a list of fields, by its number.
fn numbered(table: &mut Table, fields: &[usize], number: u8) -> Result<Option<NodeRule>, NoMemory>
    requires fields { are_fields (nodes table.old) fields.now ≡ true }
    ensures rule { (fs : List FieldTree) → AreFields table.old fields.now fs → Gives (nodes table.new) (axiom_rule number fs None) result }
    ensures grows { Extends table.old table.new }
{
    if number == 0 {
        return Ok(None);
    }
    if !has_axioms(table, fields) {
        return Ok(None);
    }
    let made = axiom_at(table, fields, None, number as usize - 1)?;
    Ok(adding(Nodes::Nothing, made))
}

/// The rule that adds an axiom of the fields of which a node says that they are a forest.
pub fn listed(table: &mut Table, number: u8, list: usize) -> Result<Option<NodeRule>, NoMemory>
    requires list { IsForest (nodes table.old) list }
    ensures rule { Gives (nodes table.new) (axiom_rule number (members (forest_fields (formula_at (nodes table.old) list))) None) result }
    ensures grows { Extends table.old table.new }
{
    let fields = fields_of(table, list)?;
    numbered(table, fields.as_slice(), number)
}

/// The base of which an update tells.
fn base_of(table: &Table, place: usize, update: usize) -> Base
    requires { IsUpdate (nodes table.now) update }
    ensures { IsThere table.now result (base_at (nodes table.now) place update) }
{
    match table.shape(update) {
        Shape::Update(field, at, value) => Base {
            place,
            field,
            at,
            value,
        },
        _ => Base {
            place,
            field: update,
            at: update,
            value: update,
        },
    }
}

/// What the axiom of an update needs to be facts, of the member that is the update or stands for it.
fn needed(table: &mut Table, member: usize, update: usize, base: Base) -> Result<Nodes, NoMemory>
    requires member { IsField (nodes table.old) member }
    requires update { IsUpdate (nodes table.old) update }
    requires base { IsThere table.old base (base_at (nodes table.old) base.place update) }
    ensures needs { IfOk result (λ needs. formulas_at (nodes table.new) needs ≡ base_needs (field_at (nodes table.old) member) (base_at (nodes table.old) base.place update)) }
    ensures there { IfOk result (λ needs. AreFormulas (nodes table.new) needs) }
    ensures grows { Extends table.old table.new }
{
    table.nodes_differ();
    if member == update {
        return Ok(Nodes::Nothing);
    }
    let told = updated_objects(table, member, base.field, base.at, base.value)?;
    Ok(Nodes::One(told))
}

/// The rule that adds the axiom of an update, for the member that is the update or stands for it.
fn told(
    table: &mut Table,
    fields: &[usize],
    member: usize,
    update: usize,
    base: Base,
) -> Result<Option<NodeRule>, NoMemory>
    requires fields { are_fields (nodes table.old) fields.now ≡ true }
    requires member { IsField (nodes table.old) member }
    requires update { IsUpdate (nodes table.old) update }
    requires base { IsThere table.old base (base_at (nodes table.old) base.place update) }
    ensures rule { (fs : List FieldTree) → AreFields table.old fields.now fs → Gives (nodes table.new) (base_rule fs (base_at (nodes table.old) base.place update) (Some (field_at (nodes table.old) member))) result }
    ensures grows { Extends table.old table.new }
{
    let needs = needed(table, member, update, base)?;
    let made = axiom_at(table, fields, Some(base), 9)?;
    Ok(adding(needs, made))
}

/// The rule that adds the axiom of an update, for the member at a place.
fn placed(
    table: &mut Table,
    fields: &[usize],
    place: usize,
    update: usize,
) -> Result<Option<NodeRule>, NoMemory>
    requires fields { are_fields (nodes table.old) fields.now ≡ true }
    requires update { IsUpdate (nodes table.old) update }
    ensures rule { (fs : List FieldTree) → AreFields table.old fields.now fs → Gives (nodes table.new) (base_rule fs (base_at (nodes table.old) place update) (slice_get fs place)) result }
    ensures grows { Extends table.old table.new }
{
    match item_at(fields, place) {
        None => Ok(None),
        Some(member) => {
            let base = base_of(table, place, update);
            told(table, fields, member, update, base)
        }
    }
}

/// The rule of an axiom by its number and a base, where the list of fields has axioms.
fn with_base(
    table: &mut Table,
    fields: &[usize],
    number: u8,
    place: usize,
    update: usize,
) -> Result<Option<NodeRule>, NoMemory>
    requires fields { are_fields (nodes table.old) fields.now ≡ true }
    requires update { IsUpdate (nodes table.old) update }
    ensures rule { (fs : List FieldTree) → AreFields table.old fields.now fs → Gives (nodes table.new) (axiom_rule number fs (Some (base_at (nodes table.old) place update))) result }
    ensures grows { Extends table.old table.new }
{
    if number != 10 {
        return Ok(None);
    }
    if !has_axioms(table, fields) {
        return Ok(None);
    }
    placed(table, fields, place, update)
}

/// The rule of an axiom by its number and a base: of the fields of which a node says that they are a forest, and of the
/// update that the member at a place is, or stands for.
pub fn based(
    table: &mut Table,
    number: u8,
    list: usize,
    place: u32,
    update: usize,
) -> Result<Option<NodeRule>, NoMemory>
    requires list { IsForest (nodes table.old) list }
    requires update { IsUpdate (nodes table.old) update }
    ensures rule { Gives (nodes table.new) (axiom_rule number (members (forest_fields (formula_at (nodes table.old) list))) (Some (base_at (nodes table.old) place update))) result }
    ensures grows { Extends table.old table.new }
{
    let fields = fields_of(table, list)?;
    with_base(table, fields.as_slice(), number, place as usize, update)
}
