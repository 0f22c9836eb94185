#![tactic(auto, using(crate::proofs::well_formedness::FactSteps::fact_steps, jh_arena::proofs::table::Listed::growth_steps))]

ghost use Rattle.std.specs.Prelude.{◌≡◌, ◌∷◌, [], ℕ, List, map, OnOk};
ghost use Rattle.jh_form.specs.Tree as t;
ghost use Rattle.jh_arena.specs.table.Growth.{Extends};
ghost use Rattle.jh_command_terms.specs.jh_guard.Frames as frames;
ghost use Rattle.jh_state_facts.specs.schemas.Meant.{name_in};
ghost use Rattle.jh_state_facts.specs.well_formedness.Facts.{AddsFacts};
ghost use Rattle.jh_state_facts.specs.well_formedness.States.{member_in};
ghost use Rattle.jh_state_facts.specs.changes.Added.{chosen_at, chosen};

use crate::schemas::Named;
use crate::well_formedness::{Member, frame_fact};
use jh_arena::table::Table;
use jh_name::NoMemory;

/// Adds the frame fact of a member.
fn push_frame(
    table: &mut Table,
    facts: &mut Vec<usize>,
    old_alloc: Named<'_>,
    member: &Member,
    turn: u32,
) -> Result<(), NoMemory>
    ensures facts { OnOk result ((classes : List (List ℕ)) → AddsFacts table.new facts.old.items facts.new.items (frames.frame_fact (t.free_set (name_in old_alloc.entry)) turn (member_in classes member.now) ∷ [])) }
    ensures grows { Extends table.old table.new }
{
    let fact = frame_fact(table, old_alloc, member, turn)?;
    facts.push(fact)?;
    Ok(())
}

/// Adds the frame fact of the member at a place, where there is one.
fn push_frame_at(
    table: &mut Table,
    facts: &mut Vec<usize>,
    old_alloc: Named<'_>,
    members: &[Member],
    place: usize,
    turn: u32,
) -> Result<(), NoMemory>
    ensures facts { OnOk result ((classes : List (List ℕ)) → AddsFacts table.new facts.old.items facts.new.items (map (frames.frame_fact (t.free_set (name_in old_alloc.entry)) turn) (chosen_at classes members.now place))) }
    ensures grows { Extends table.old table.new }
{
    if place >= members.len() {
        return Ok(());
    }
    push_frame(table, facts, old_alloc, &members[place], turn)
}

/// Adds the frame facts of the members at some places: each is what its copy at a turn is, a field at the objects of the
/// set of all that there were.
pub fn push_frames(
    table: &mut Table,
    facts: &mut Vec<usize>,
    old_alloc: Named<'_>,
    members: &[Member],
    places: &[usize],
    turn: u32,
) -> Result<(), NoMemory>
    ensures facts { OnOk result ((classes : List (List ℕ)) → AddsFacts table.new facts.old.items facts.new.items (map (frames.frame_fact (t.free_set (name_in old_alloc.entry)) turn) (chosen classes members.now places.now))) }
    ensures grows { Extends table.old table.new }
{
    for index in 0..places.len() {
        push_frame_at(table, facts, old_alloc, members, places[index], turn)?;
    }
    Ok(())
}
