ghost use Rattle.std.specs.Prelude.{◌≡◌, ◌<◌, ◌++◌, ◌∷◌, [], List, length, true, if◌then◌else◌, Some, IfOk, OnOk, slice_get};
ghost use Rattle.std.specs.List.{list_all};
ghost use Rattle.jh_form.specs.Tree.{FormulaTree};
ghost use Rattle.jh_arena.specs.table.Entries.{is_truth};
ghost use Rattle.jh_arena.specs.table.Nodes.{nodes};
ghost use Rattle.jh_ground_input.specs.jh_instantiation.skolem_constants.Standing.{IsFormula};
ghost use Rattle.jh_propagation.specs.trail.Saying.{AreTruths, truths_at};
ghost use Rattle.jh_inst.specs.instances.Entries.{Entry};
ghost use Rattle.jh_inst.specs.instances.Instances.{is_ground, instances_of};
ghost use Rattle.jh_inst.specs.plain_formulas.Plain.{are_literals};
ghost use Rattle.jh_ground_input.specs.jh_instantiation.instances.Standing.{IsMade};
ghost use Rattle.jh_propagation.specs.propagation.Problems.{IsProblem, instances_in};

use jh_arena::table::Table;
use jh_ground_input::jh_instantiation::instances::{NodeEntries, NodeEntry};
use jh_ground_input::jh_instantiation::skolem_constants::is_ground;
use jh_name::NoMemory;
use jh_propagation::propagation::{Problem, pose};

/// The entry at a place.
fn entry_at(entries: &NodeEntries, place: usize) -> NodeEntry
    requires { place < length entries.now.items.items }
    ensures { slice_get entries.now.items.items place ≡ Some result }
{
    entries.items[place]
}

/// Adds an entry that has no quantifier.
fn add_instance(table: &Table, instances: &mut Vec<usize>, formula: usize) -> Result<(), NoMemory>
    requires there { is_truth (slice_get (nodes table.now) formula) ≡ true }
    requires truths { AreTruths (nodes table.now) instances.old.items }
    ensures truths { OnOk result (AreTruths (nodes table.now) instances.new.items) }
    ensures instances { (a : FormulaTree) → IsFormula table.now formula a → OnOk result (truths_at (nodes table.now) instances.new.items ≡ truths_at (nodes table.now) instances.old.items ++ (if is_ground a then a ∷ [] else [])) }
{
    if is_ground(table, formula) {
        instances.push(formula)?;
    }
    Ok(())
}

/// The nodes of the entries without a quantifier, in their order.
fn instances(table: &Table, entries: &NodeEntries) -> Result<Vec<usize>, NoMemory>
    requires made { (es : List Entry) × IsMade table.now entries.now es }
    ensures truths { IfOk result (λ made. AreTruths (nodes table.now) made.items) }
    ensures instances { IfOk result (λ made. (es : List Entry) → IsMade table.now entries.now es → truths_at (nodes table.now) made.items ≡ instances_of es) }
{
    let mut made = Vec::new(table.alloc());
    for place in 0..entries.items.len() {
        add_instance(table, &mut made, entry_at(entries, place).formula)?;
    }
    Ok(made)
}

/// The problem of the instances among entries, with its table of names.
pub(crate) fn posed(table: Table, entries: &NodeEntries) -> Result<(Problem, Table), NoMemory>
    requires made { (es : List Entry) × IsMade table entries.now es × (list_all are_literals (instances_of es) ≡ true) }
    ensures problem { IfOk result (λ made. IsProblem (nodes made.1) made.0) }
    ensures instances { IfOk result (λ made. (es : List Entry) → IsMade table entries.now es → instances_in (nodes made.0.table) made.0 ≡ instances_of es) }
    ensures table { IfOk result (λ made. made.0.table ≡ table) }
{
    let instances = instances(&table, entries)?;
    pose(table, instances)
}
