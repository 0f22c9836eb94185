ghost use Rattle.std.specs.Prelude.{◌≡◌, true, IfOk, length, map, slice_get};
ghost use Rattle.jh_arena.specs.table.Entries.{is_truth, the_truth};
ghost use Rattle.jh_arena.specs.table.Growth.{Extends};
ghost use Rattle.jh_arena.specs.table.Nodes.{nodes};
ghost use Rattle.jh_arena.specs.makers.Joined.{are_truths, truths_at};
ghost use Rattle.jh_query.specs.queries.Bare.{cond_tree, query_tree};
ghost use Rattle.jh_approx.specs.definition.Regions.{query_from, query_over};
ghost use Rattle.jh_approx.specs.definition.Told.{told};
ghost use Rattle.jh_query_names.specs.name_lists.Lists.{AreListed, lists_of};

use crate::translation::conds::told_formula;
use crate::translation::places::small;
use crate::translation::room::Room;
use jh_arena::table::Table;
use jh_name::{NoMemory, Row};
use jh_query::queries::{Cond, Query};
use jh_query_names::name_lists::{Listed, names_of};
use std::alloc::Global;

/// How many names there are of each sort.
#[derive(Clone, Copy)]
pub struct Counts {
    pub sets: u32,
    pub elements: u32,
    pub numbers: u32,
    pub flags: u32,
}

fn counts_of(names: &Listed) -> Result<Counts, NoMemory>
    ensures sets { IfOk result (λ made. made.sets ≡ length names.now.sets.keys) }
    ensures elements { IfOk result (λ made. made.elements ≡ length names.now.elements.keys) }
    ensures numbers { IfOk result (λ made. made.numbers ≡ length names.now.numbers.keys) }
    ensures flags { IfOk result (λ made. made.flags ≡ length names.now.flags.keys) }
{
    let sets = small(names.sets.len())?;
    let elements = small(names.elements.len())?;
    let numbers = small(names.numbers.len())?;
    let flags = small(names.flags.len())?;
    Ok(Counts {
        sets,
        elements,
        numbers,
        flags,
    })
}

/// What stands for facts, one by one.
fn told_facts(
    table: &Table,
    names: &Listed,
    room: &mut Room,
    facts: &[usize],
) -> Result<Row<Cond>, NoMemory>
    requires names { AreListed (nodes table.now) names.now }
    requires facts { are_truths (nodes table.now) facts.now ≡ true }
    ensures { IfOk result (λ made. map cond_tree made ≡ map (told (lists_of (nodes table.now) names.now)) (truths_at (nodes table.now) facts.now)) }
{
    let mut made = Vec::new(table.alloc());
    for fact in facts {
        let cond = told_formula(table, names, room, *fact)?;
        made.push(cond)?;
    }
    Ok(Row::of(made))
}

/// The query of facts and a goal over these names.
fn query_over(
    table: &Table,
    names: &Listed,
    facts: &[usize],
    goal: usize,
) -> Result<Query, NoMemory>
    requires names { AreListed (nodes table.now) names.now }
    requires facts { are_truths (nodes table.now) facts.now ≡ true }
    requires goal { is_truth (slice_get (nodes table.now) goal) ≡ true }
    ensures { IfOk result (λ made. query_tree made ≡ query_over (truths_at (nodes table.now) facts.now) (the_truth (slice_get (nodes table.now) goal)) (lists_of (nodes table.now) names.now)) }
{
    let counts = counts_of(names)?;
    let mut room = Room::new();
    let goal = told_formula(table, names, &mut room, goal)?;
    let hyps = told_facts(table, names, &mut room, facts)?;
    Ok(Query {
        sets: counts.sets,
        elements: counts.elements,
        numbers: counts.numbers,
        flags: counts.flags,
        hyps,
        goal,
    })
}

/// The query of facts and a goal that are formulas, over the names that stand in them: what a query can't say of a formula is
/// a flag, so the formulas are to be what is shown of them. What the table held stays in its place, after any answer; at most
/// null is added to it. The time is in proportion to the parts of the query. These nest as the formulas do and share nothing:
/// the answer is want of memory where they are more than MOST_PARTS, each counted wherever it stands, where a formula nests
/// deeper than MOST_LEVELS, and where a sort has more names than u32 holds.
pub fn query_from(
    alloc: Global,
    table: &mut Table,
    facts: &[usize],
    goal: usize,
) -> Result<Query, NoMemory>
    requires facts { are_truths (nodes table.old) facts.now ≡ true }
    requires goal { is_truth (slice_get (nodes table.old) goal) ≡ true }
    ensures tree { IfOk result (λ made. query_tree made ≡ query_from (truths_at (nodes table.new) facts.now) (the_truth (slice_get (nodes table.new) goal))) }
    ensures grows { Extends table.old table.new }
{
    let names = names_of(alloc, table, facts, goal)?;
    query_over(table, &names, facts, goal)
}
