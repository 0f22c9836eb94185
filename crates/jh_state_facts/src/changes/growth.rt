#![tactic(auto, using(crate::proofs::changes::AddedSteps::added_steps, jh_arena::proofs::table::Listed::growth_steps))]

ghost use Rattle.std.specs.Prelude.{◌≡◌, ◌<◌, ◌∷◌, [], List, map, filter, length, Some, slice_get, OnOk};
ghost use Rattle.jh_form.specs.Tree as t;
ghost use Rattle.jh_arena.specs.table.Growth.{Extends};
ghost use Rattle.jh_command_terms.specs.jh_wp.Command as w;
ghost use Rattle.jh_semantics.specs.State.{named};
ghost use Rattle.jh_command_terms.specs.jh_guard.Items.{Item, sorted_item, is_of_objects};
ghost use Rattle.jh_command_terms.specs.jh_guard.Steps as steps;
ghost use Rattle.jh_state_facts.specs.changes.Added.{AddsCommands, sorted_in};

use crate::changes::names::SortedName;
use crate::schemas::{Named, Schema, SetSchema, Slot, Slots, from_schema};
use jh_arena::table::Table;
use jh_command_terms::command::Command;
use jh_name::NoMemory;

/// The first set lies in the second.
static LIES_IN: Schema<'static> = Schema::Subset(
    SetSchema::Name(Slot::First),
    SetSchema::Name(Slot::Second),
);

/// Adds that a set only grew since its copy at a turn.
fn push_grew(
    table: &mut Table,
    commands: &mut Vec<Command>,
    set: SortedName<'_>,
    turn: u32,
) -> Result<(), NoMemory>
    ensures commands { OnOk result (AddsCommands table.new commands.old.items commands.new.items (w.assume (t.subset (t.free_set (steps.fresh set.entry.text.now turn)) (t.free_set (named set.entry.text.now))) ∷ [])) }
    ensures grows { Extends table.old table.new }
{
    let text = set.text;
    let slots = Slots {
        first: Named { text, turn },
        second: Named { text, turn: 0 },
        third: Named { text, turn },
    };
    let fact = from_schema(table, &slots, &LIES_IN)?;
    commands.push(Command::Assume(fact))?;
    Ok(())
}

/// The name at a place.
fn set_at<'a>(sets: &[SortedName<'a>], place: usize) -> SortedName<'a>
    requires { place < length sets.now }
    ensures { slice_get sets.now place ≡ Some result }
{
    sets[place]
}

/// Adds that sets of objects only grew since their copies at a turn: `sets` are those among some of the state.
pub fn push_growth(
    table: &mut Table,
    commands: &mut Vec<Command>,
    sets: &[SortedName<'_>],
    turn: u32,
) -> Result<(), NoMemory>
    ensures commands { OnOk result ((xs : List Item) → sorted_in sets.now ≡ map sorted_item (filter is_of_objects xs) → AddsCommands table.new commands.old.items commands.new.items (steps.growth turn xs)) }
    ensures grows { Extends table.old table.new }
{
    for place in 0..sets.len() {
        push_grew(table, commands, set_at(sets, place), turn)?;
    }
    Ok(())
}
