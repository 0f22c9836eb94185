#![tactic(auto, unfolding(crate::specs::Parts::part_tree))]

ghost use Rattle.std.specs.Prelude.{◌≡◌, List, IfOk, Some, slice_get};
ghost use Rattle.jh_form.specs.Tree.{FieldTree, of_field, of_truth};
ghost use Rattle.jh_arena.specs.table.Growth.{Extends};
ghost use Rattle.jh_arena.specs.table.Nodes.{nodes};
ghost use Rattle.jh_reach.specs.Axioms.{listed};
ghost use Rattle.jh_reach.specs.Parts.{part_tree};
ghost use Rattle.jh_reach.specs.Standing.{HoldsField, list_at};
ghost use Rattle.jh_import.specs.entering.Entered.{IsList};

use crate::fields::{
    child_reaches, ends_at_null, has_one_parent, leads_not_back, leads_there, reaches_child,
};
use jh_arena::table::Table;
use jh_name::NoMemory;

/// What an axiom says of one field of a list, in turn for each.
#[derive(Clone, Copy)]
pub enum Part {
    /// It leads from null to null.
    EndsAtNull,
    /// The object to which it leads from x is reached from x.
    ReachesChild,
    /// From the object to which it leads from x, y is reached.
    ChildReaches,
    /// It leads from w to y.
    LeadsThere,
    /// From the object to which it leads from x, x isn't reached.
    LeadsNotBack,
    /// It leads to an object that isn't null from one object only.
    HasOneParent,
}

/// The node of what a part says of a field.
pub fn part_of(table: &mut Table, list: usize, part: Part, field: usize) -> Result<usize, NoMemory>
    requires list { IsList table.old list (list_at table.old list) }
    requires field { HoldsField table.old field }
    ensures node { (fs : List FieldTree) (f : FieldTree) → IsList table.old list (listed fs) → slice_get (nodes table.old) field ≡ Some (of_field f) → IfOk result (λ made. slice_get (nodes table.new) made ≡ Some (of_truth (part_tree part fs f))) }
    ensures grows { Extends table.old table.new }
{
    match part {
        Part::EndsAtNull => ends_at_null(table, field),
        Part::ReachesChild => reaches_child(table, list, field),
        Part::ChildReaches => child_reaches(table, list, field),
        Part::LeadsThere => leads_there(table, field),
        Part::LeadsNotBack => leads_not_back(table, list, field),
        Part::HasOneParent => has_one_parent(table, field),
    }
}
