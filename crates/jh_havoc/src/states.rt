#![tactic(auto, using(jh_state_facts::proofs::changes::AddedSteps::added_steps, jh_arena::proofs::table::Listed::growth_steps))]

ghost use Rattle.std.specs.Prelude.{◌≡◌, ◌++◌, ◌∷◌, true, List, map, filter, codes, IfOk, OnOk, Some, slice_get};
ghost use Rattle.jh_form.specs.Tree.{FormulaTree, of_truth};
ghost use Rattle.jh_arena.specs.table.Entries.{is_truth};
ghost use Rattle.jh_arena.specs.table.Growth.{Extends};
ghost use Rattle.jh_arena.specs.table.Nodes.{nodes};
ghost use Rattle.jh_command_statements.specs.jh_guard.Items.{Item, sorted_item, is_of_objects};
ghost use Rattle.jh_command_statements.specs.jh_guard.Steps as steps;
ghost use Rattle.jh_state_facts.specs.changes.Added.{AddsCommands, sorted_in};

use jh_arena::table::Table;
use jh_command_statements::checks::assume_named;
use jh_command_statements::jh_command_terms::command::Command;
use jh_name::{NoMemory, Place};
use jh_state_facts::changes::{SortedName, push_changed, push_growth};

/// Adds that what was written takes any value, in a state that is well formed, and in which sets of objects only grew since
/// their copies at a turn: `sets` are those among some of the state. Answers the turn that is free behind what was written.
pub fn push_state(
    table: &mut Table,
    commands: &mut Vec<Command>,
    written: &[SortedName<'_>],
    sets: &[SortedName<'_>],
    place: Place,
    well_formed: usize,
    turn: u32,
) -> Result<u32, NoMemory>
    requires { is_truth (slice_get (nodes table.old) well_formed) ≡ true }
    ensures commands { OnOk result ((wf : FormulaTree) (xs : List Item) → slice_get (nodes table.old) well_formed ≡ Some (of_truth wf) → sorted_in sets.now ≡ map sorted_item (filter is_of_objects xs) → AddsCommands table.new commands.old.items commands.new.items (steps.changed (sorted_in written.now) turn ++ (steps.assume_named (codes "wf") place wf ∷ steps.growth turn xs))) }
    ensures next { IfOk result (λ next. next ≡ steps.after_changed (sorted_in written.now) turn) }
    ensures grows { Extends table.old table.new }
{
    let next = push_changed(table, commands, written, turn)?;
    assume_named(table, commands, "wf", place, well_formed)?;
    push_growth(table, commands, sets, turn)?;
    Ok(next)
}
