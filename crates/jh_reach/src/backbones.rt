#![tactic(auto)]

ghost use Rattle.std.specs.Prelude.{◌≡◌, true, List, IfOk, Some, slice_get, slice_set};
ghost use Rattle.jh_form.specs.Tree.{FieldTree, of_truth};
ghost use Rattle.jh_arena.specs.table.Entries.{are_fields};
ghost use Rattle.jh_arena.specs.table.Growth.{Extends};
ghost use Rattle.jh_arena.specs.table.Nodes.{nodes};
ghost use Rattle.jh_reach.specs.Axioms.{BaseTree, BackboneTree, axioms_of_list, axioms_of, axiom_of_update};
ghost use Rattle.jh_reach.specs.Based.{IsSorted, IsBaseAt, IsSortedBase, IsThere};
ghost use Rattle.jh_reach.specs.Standing.{AreFields, AreFormulas, IsAlong};

use crate::groups::{first_axioms, last_axioms, update_axiom};
use jh_arena::table::Table;
use jh_name::NoMemory;
use std::alloc::Global;

/// What a list of fields came from, by nodes: its member at `place`, counted from 0, is a field that was updated at an
/// object with an object.
#[derive(Clone, Copy)]
pub struct Base {
    pub place: usize,
    pub field: usize,
    pub at: usize,
    pub value: usize,
}

/// The nodes of the nine axioms of a list of fields.
fn list_axioms(table: &mut Table, list: usize, fields: &[usize]) -> Result<Vec<usize>, NoMemory>
    requires along { IsAlong table.old list fields.now }
    ensures nodes { (fs : List FieldTree) → AreFields table.old fields.now fs → IfOk result (λ made. AreFormulas table.new made.items (axioms_of_list fs)) }
    ensures grows { Extends table.old table.new }
{
    let first = first_axioms(table, list, fields)?;
    let last = last_axioms(table, list, fields)?;
    let mut made = Vec::new(table.alloc());
    made.extend_from_slice(&first)?;
    made.extend_from_slice(&last)?;
    Ok(made)
}

/// The fields before the update that a list came from.
fn fields_before(alloc: Global, fields: &[usize], base: Base) -> Result<Vec<usize>, NoMemory>
    ensures { IfOk result (λ made. made.items ≡ slice_set fields.now base.place base.field) }
{
    let mut before = Vec::new(alloc);
    before.extend_from_slice(fields)?;
    if base.place < before.len() {
        before[base.place] = base.field;
    }
    Ok(before)
}

/// The node of the axiom of the update that a list of fields came from.
fn base_axiom(
    table: &mut Table,
    list: usize,
    fields: &[usize],
    base: Base,
) -> Result<usize, NoMemory>
    requires along { IsAlong table.old list fields.now }
    requires base { IsSorted table.old base }
    ensures node { (fs : List FieldTree) (u : BaseTree) → AreFields table.old fields.now fs → IsThere table.old base u → IfOk result (λ made. slice_get (nodes table.new) made ≡ Some (of_truth (axiom_of_update fs u))) }
    ensures grows { Extends table.old table.new }
{
    let before = fields_before(table.alloc(), fields, base)?;
    let old = table.list(before.as_slice())?;
    update_axiom(
        table,
        list,
        old,
        before.as_slice(),
        base.field,
        base.at,
        base.value,
    )
}

/// The nodes of the axioms of a backbone, in their order: the nine of its list of fields, and that of the update that
/// the list came from, where there is one. Nodes that are new are made, those before stay.
pub fn backbone_axioms(
    table: &mut Table,
    fields: &[usize],
    base: Option<Base>,
) -> Result<Vec<usize>, NoMemory>
    requires fields { are_fields (nodes table.old) fields.now ≡ true }
    requires base { IsSortedBase table.old base }
    ensures nodes { (b : BackboneTree) → AreFields table.old fields.now b.fields → IsBaseAt table.old base b.base → IfOk result (λ made. AreFormulas table.new made.items (axioms_of b)) }
    ensures grows { Extends table.old table.new }
{
    let list = table.list(fields)?;
    let mut made = list_axioms(table, list, fields)?;
    match base {
        None => Ok(made),
        Some(base) => {
            let axiom = base_axiom(table, list, fields, base)?;
            made.push(axiom)?;
            Ok(made)
        }
    }
}
