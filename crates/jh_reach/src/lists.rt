#![tactic(auto)]

ghost use Rattle.std.specs.Prelude.{◌≡◌, ◌++◌, true, List, map, IfOk, OnOk, Some, slice_get};
ghost use Rattle.jh_form.specs.Tree.{FieldTree, FormulaTree, of_field, of_truth};
ghost use Rattle.jh_arena.specs.table.Entries.{are_fields};
ghost use Rattle.jh_arena.specs.table.Growth.{Extends};
ghost use Rattle.jh_arena.specs.table.Nodes.{nodes};
ghost use Rattle.jh_arena.specs.makers.Joined.{joined, are_truths};
ghost use Rattle.jh_reach.specs.Axioms.{disjoined, has_one_parent, share_no_child, pairs_share_no_child};
ghost use Rattle.jh_reach.specs.Parts.{part_tree};
ghost use Rattle.jh_reach.specs.Standing.{AreFields, AreFormulas, HoldsField, IsAlong};

use crate::fields::share_no_child;
use crate::parts::{Part, part_of};
use jh_arena::makers::{conjunction_of, disjunction, falsehood};
use jh_arena::table::Table;
use jh_name::NoMemory;

/// The nodes of what a part says of each field of a list.
fn parts_of(
    table: &mut Table,
    list: usize,
    fields: &[usize],
    part: Part,
) -> Result<Vec<usize>, NoMemory>
    requires along { IsAlong table.old list fields.now }
    ensures nodes { (fs : List FieldTree) → AreFields table.old fields.now fs → IfOk result (λ made. AreFormulas table.new made.items (map (part_tree part fs) fs)) }
    ensures grows { Extends table.old table.new }
{
    let mut made = Vec::new(table.alloc());
    for field in fields {
        let node = part_of(table, list, part, *field)?;
        made.push(node)?;
    }
    Ok(made)
}

/// Adds the nodes of that a field has no child in common with others.
fn add_pairs_of(
    table: &mut Table,
    field: usize,
    others: &[usize],
    made: &mut Vec<usize>,
) -> Result<(), NoMemory>
    requires field { HoldsField table.old field }
    requires others { are_fields (nodes table.old) others.now ≡ true }
    ensures nodes { (f : FieldTree) (gs : List FieldTree) (done : List FormulaTree) → slice_get (nodes table.old) field ≡ Some (of_field f) → AreFields table.old others.now gs → AreFormulas table.old made.old.items done → OnOk result (AreFormulas table.new made.new.items (done ++ map (share_no_child f) gs)) }
    ensures grows { Extends table.old table.new }
{
    for other in others {
        let node = share_no_child(table, field, *other)?;
        made.push(node)?;
    }
    Ok(())
}

/// Adds the nodes of that each field has no child in common with one behind it.
fn add_pairs(table: &mut Table, fields: &[usize], made: &mut Vec<usize>) -> Result<(), NoMemory>
    requires fields { are_fields (nodes table.old) fields.now ≡ true }
    ensures nodes { (gs : List FieldTree) (done : List FormulaTree) → AreFields table.old fields.now gs → AreFormulas table.old made.old.items done → OnOk result (AreFormulas table.new made.new.items (done ++ pairs_share_no_child gs)) }
    ensures grows { Extends table.old table.new }
{
    for index in 0..fields.len() {
        add_pairs_of(table, fields[index], &fields[index + 1..], made)?;
    }
    Ok(())
}

/// The node of what a part says of each field of a list, joined by And.
pub fn each(table: &mut Table, list: usize, fields: &[usize], part: Part) -> Result<usize, NoMemory>
    requires along { IsAlong table.old list fields.now }
    ensures node { (fs : List FieldTree) → AreFields table.old fields.now fs → IfOk result (λ made. slice_get (nodes table.new) made ≡ Some (of_truth (joined (map (part_tree part fs) fs)))) }
    ensures grows { Extends table.old table.new }
{
    let made = parts_of(table, list, fields, part)?;
    conjunction_of(table, made.as_slice())
}

/// The node of what a part says of some field of a list, joined by Or.
pub fn some(table: &mut Table, list: usize, fields: &[usize], part: Part) -> Result<usize, NoMemory>
    requires along { IsAlong table.old list fields.now }
    ensures node { (fs : List FieldTree) → AreFields table.old fields.now fs → IfOk result (λ made. slice_get (nodes table.new) made ≡ Some (of_truth (disjoined (map (part_tree part fs) fs)))) }
    ensures grows { Extends table.old table.new }
{
    let made = parts_of(table, list, fields, part)?;
    disjunction_of(table, made.as_slice())
}

/// The node of what is said of parents, joined by And.
pub fn parents(table: &mut Table, list: usize, fields: &[usize]) -> Result<usize, NoMemory>
    requires along { IsAlong table.old list fields.now }
    ensures node { (fs : List FieldTree) → AreFields table.old fields.now fs → IfOk result (λ made. slice_get (nodes table.new) made ≡ Some (of_truth (joined (map has_one_parent fs ++ pairs_share_no_child fs)))) }
    ensures grows { Extends table.old table.new }
{
    let mut made = parts_of(table, list, fields, Part::HasOneParent)?;
    add_pairs(table, fields, &mut made)?;
    conjunction_of(table, made.as_slice())
}

/// The node of these formulas joined by Or to the right, and of the formula that is false where there are none.
fn disjunction_of(table: &mut Table, items: &[usize]) -> Result<usize, NoMemory>
    requires items { are_truths (nodes table.old) items.now ≡ true }
    ensures node { (all : List FormulaTree) → AreFormulas table.old items.now all → IfOk result (λ made. slice_get (nodes table.new) made ≡ Some (of_truth (disjoined all))) }
    ensures grows { Extends table.old table.new }
{
    if items.is_empty() {
        return falsehood(table);
    }
    let mut index = items.len() - 1;
    let mut made = items[index];
    while index > 0 {
        index -= 1;
        made = disjunction(table, items[index], made)?;
    }
    Ok(made)
}
