ghost use Rattle.std.specs.Prelude.{◌≡◌, ◌<◌, ◌++◌, ◌∷◌, [], List, length, max, map, true, Some, IfOk, OnOk, slice_get};
ghost use Rattle.jh_form.specs.Tree.{FormulaTree};
ghost use Rattle.jh_seq.specs.sequent.Sequents.{SequentTree};
ghost use Rattle.jh_arena.specs.table.Entries.{is_truth};
ghost use Rattle.jh_arena.specs.table.Growth.{Extends};
ghost use Rattle.jh_arena.specs.table.Nodes.{nodes};
ghost use Rattle.jh_local_form.specs.local_sequents.Forming.{IsFormed};
ghost use Rattle.jh_instantiation.specs.skolem_constants.Standing.{IsFormula};
ghost use Rattle.jh_ground_input.specs.Standing.{AreThere, IsApart, IsPosed, bare_at, with_sign};

use jh_arena::table::Table;
use jh_import::carrying::carry;
use jh_local_form::local_sequents::LocalForm;
use jh_name::NoMemory;
use jh_normal_forms::negation_normal_form::{negation_normal, unlabelled};
use std::alloc::Global;

/// The facts of a sequent in a table of their own, its hypotheses and then its negated goal: without labels and in negation normal
/// form; and the turn of the first constant that is free in them.
#[derive(Drop)]
pub struct Apart {
    pub table: Table,
    pub facts: Vec<usize>,
    pub first: u32,
}

/// The node of a formula without labels, in another table.
fn bare_in(from: &Table, into: &mut Table, node: usize) -> Result<usize, NoMemory>
    requires there { is_truth (slice_get (nodes from.now) node) ≡ true }
    ensures bare { IfOk result (λ made. IsFormula into.new made (bare_at (nodes from.now) node)) }
    ensures grows { Extends into.old into.new }
{
    let there = carry(from, into, node)?;
    unlabelled(into, there)
}

/// The greater of two turns. It is want of memory where that leaves u32.
fn later(first: u32, turn: u64) -> Result<u32, NoMemory>
    ensures { IfOk result (λ made. made ≡ max first turn) }
{
    if turn <= u64::from(first) {
        return Ok(first);
    }
    match u32::try_from(turn) {
        Ok(turn) => Ok(turn),
        Err(_) => Err(NoMemory),
    }
}

/// Adds a fact, or its negation where the sign is false.
fn add_fact(from: &Table, apart: &mut Apart, node: usize, sign: bool) -> Result<(), NoMemory>
    requires there { is_truth (slice_get (nodes from.now) node) ≡ true }
    ensures { OnOk result ((fs : List FormulaTree) → IsApart apart.old fs → IsApart apart.new (fs ++ (with_sign sign (bare_at (nodes from.now) node) ∷ []))) }
{
    let bare = bare_in(from, &mut apart.table, node)?;
    let normal = negation_normal(&mut apart.table, bare, sign)?;
    apart.first = later(apart.first, apart.table.next_turn(bare))?;
    apart.facts.push(normal)?;
    Ok(())
}

/// The node at a place.
fn node_at(nodes: &[usize], place: usize) -> usize
    requires { place < length nodes.now }
    ensures { slice_get nodes.now place ≡ Some result }
{
    nodes[place]
}

/// Adds facts.
fn add_facts(from: &Table, apart: &mut Apart, facts: &[usize]) -> Result<(), NoMemory>
    requires there { AreThere (nodes from.now) facts.now }
    ensures { OnOk result ((fs : List FormulaTree) → IsApart apart.old fs → IsApart apart.new (fs ++ map (bare_at (nodes from.now)) facts.now)) }
{
    for place in 0..facts.len() {
        add_fact(from, apart, node_at(facts, place), true)?;
    }
    Ok(())
}

/// Nothing yet.
fn nothing(alloc: Global) -> Result<Apart, NoMemory>
    ensures { IfOk result (λ made. IsApart made []) }
{
    Ok(Apart {
        table: Table::new(alloc)?,
        facts: Vec::new(alloc),
        first: 0,
    })
}

/// The facts of a sequent whose formulas are nodes of a table, in a table of their own. The time is in proportion to the parts of
/// the facts, each counted once for each fact that it stands in, and to those of their normal forms. The answer is want of memory
/// where a formula nests deeper than MOST_LEVELS, and where a turn leaves u32.
pub fn facts_apart(from: &Table, form: &LocalForm) -> Result<Apart, NoMemory>
    requires form { (s : SequentTree) × IsFormed from.now form.now s }
    ensures { IfOk result (λ made. (s : SequentTree) → IsFormed from.now form.now s → IsPosed made s) }
{
    let mut apart = nothing(from.alloc())?;
    add_facts(from, &mut apart, form.facts.items())?;
    add_fact(from, &mut apart, form.goal, false)?;
    Ok(apart)
}
