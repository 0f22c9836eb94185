#![tactic(auto)]

ghost use Rattle.std.specs.Prelude.{◌≡◌, true, map, IfOk};
ghost use Rattle.std.specs.List.{flat_map};
ghost use Rattle.jh_form.specs.Bare.{formula_tree};
ghost use Rattle.jh_arena.specs.table.Growth.{Extends};
ghost use Rattle.jh_arena.specs.table.Nodes.{nodes};
ghost use Rattle.jh_arena.specs.makers.Joined.{are_truths, truths_at};
ghost use Rattle.jh_reach.specs.Axioms.{axioms_of};
ghost use Rattle.jh_reach.specs.Standing.{AreFields, AreFormulas};
ghost use Rattle.jh_reach.specs.Based.{IsSortedBase, IsBaseAt};
ghost use Rattle.jh_reach.specs.Named.{named_fields, base_tree, backbone_tree};

use crate::backbones::{Base, backbone_axioms};
use jh_arena::makers::free_field;
use jh_arena::table::Table;
use jh_export::boxed_formula;
use jh_form::{Formula, Term};
use jh_import::entering::enter_term;
use jh_name::{Name, NoMemory, Row};
use std::alloc::Global;

/// A list of fields that formulas reach along, and what it came from.
#[derive(Drop)]
pub struct Backbone {
    pub fields: Row<Name>,
    /// The update that one of the fields names.
    pub base: Option<NameBase>,
}

/// What a list of fields came from: its member at `place`, counted from 0, names `field[at := value]`.
#[derive(Drop)]
pub struct NameBase {
    pub place: u32,
    pub field: Name,
    pub at: Term,
    pub value: Term,
}

/// The nodes of the fields of these names.
fn field_nodes(table: &mut Table, names: &[Name]) -> Result<Vec<usize>, NoMemory>
    ensures fields { IfOk result (λ made. AreFields table.new made.items (named_fields names.now)) }
    ensures grows { Extends table.old table.new }
{
    let mut made = Vec::new(table.alloc());
    for name in names {
        let node = free_field(table, name)?;
        made.push(node)?;
    }
    Ok(made)
}

/// The nodes of what a list of fields came from, where it came from one.
fn base_nodes(table: &mut Table, base: &Option<NameBase>) -> Result<Option<Base>, NoMemory>
    ensures base { IfOk result (λ made. IsBaseAt table.new made (base_tree base.now)) }
    ensures sorted { IfOk result (λ made. IsSortedBase table.new made) }
    ensures grows { Extends table.old table.new }
{
    match base {
        None => Ok(None),
        Some(base) => {
            let field = free_field(table, &base.field)?;
            let at = enter_term(table, &base.at)?;
            let value = enter_term(table, &base.value)?;
            Ok(Some(Base {
                place: base.place as usize,
                field,
                at,
                value,
            }))
        }
    }
}

/// The nodes of the axioms of a backbone.
fn nodes_of(table: &mut Table, backbone: &Backbone) -> Result<Vec<usize>, NoMemory>
    ensures nodes { IfOk result (λ made. AreFormulas table.new made.items (axioms_of (backbone_tree backbone.now))) }
    ensures grows { Extends table.old table.new }
{
    let fields = field_nodes(table, backbone.fields.items())?;
    let base = base_nodes(table, &backbone.base)?;
    backbone_axioms(table, fields.as_slice(), base)
}

/// The nodes of the axioms of all backbones.
fn all_nodes(table: &mut Table, backbones: &[Backbone]) -> Result<Vec<usize>, NoMemory>
    ensures nodes { IfOk result (λ made. AreFormulas table.new made.items (flat_map (λ b. axioms_of (backbone_tree b)) backbones.now)) }
    ensures grows { Extends table.old table.new }
{
    let mut made = Vec::new(table.alloc());
    for backbone in backbones {
        let nodes = nodes_of(table, backbone)?;
        made.extend_from_slice(nodes.as_slice())?;
    }
    Ok(made)
}

/// The formulas at these nodes.
fn boxed(table: &Table, items: &[usize]) -> Result<Vec<Formula>, NoMemory>
    requires { are_truths (nodes table.now) items.now ≡ true }
    ensures { IfOk result (λ made. map formula_tree made.items ≡ truths_at (nodes table.now) items.now) }
{
    let mut made = Vec::new(table.alloc());
    for item in items {
        let formula = boxed_formula(table, *item)?;
        made.push(formula)?;
    }
    Ok(made)
}

/// The axioms of all backbones, by way of a table.
fn boxed_axioms(table: &mut Table, backbones: &[Backbone]) -> Result<Vec<Formula>, NoMemory>
    ensures { IfOk result (λ made. map formula_tree made.items ≡ flat_map (λ b. axioms_of (backbone_tree b)) backbones.now) }
{
    let nodes = all_nodes(table, backbones)?;
    boxed(table, nodes.as_slice())
}

/// The axioms of reachability along the list of each backbone, in their order, each backbone's after those of the one
/// before.
pub fn axioms(alloc: Global, backbones: &[Backbone]) -> Result<Vec<Formula>, NoMemory>
    ensures { IfOk result (λ made. map formula_tree made.items ≡ flat_map (λ b. axioms_of (backbone_tree b)) backbones.now) }
{
    let mut table = Table::new(alloc)?;
    boxed_axioms(&mut table, backbones)
}
