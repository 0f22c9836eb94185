#![tactic(auto, using(jh_arena::proofs::table::Listed::growth_steps))]

ghost use Rattle.std.specs.Prelude.{◌≡◌, ◌++◌, ◌+◌, ◌<◌, false, List, map, take, drop, true, IfOk, IfSome, OnOk, Some, length, nat_eq, slice_get};
ghost use Rattle.std.specs.List.{list_all};
ghost use Rattle.jh_name.specs.declared.naming.Name.{Name};
ghost use Rattle.jh_form.specs.Tree.{FormulaTree};
ghost use Rattle.jh_arena.specs.table.Entries.{is_truth};
ghost use Rattle.jh_arena.specs.table.Growth.{Extends};
ghost use Rattle.jh_arena.specs.table.Nodes.{nodes};
ghost use Rattle.jh_reach.specs.Standing.{AreFormulas};
ghost use Rattle.jh_seq.specs.sequent.Sequents.{HypTree, SequentTree};
ghost use Rattle.jh_seq.specs.splitting.Local.{has_local_shape, is_local};
ghost use Rattle.jh_fca.specs.elimination.Constraints.{Constraint, constraint_in};
ghost use Rattle.jh_fca.specs.elimination.Exchanged.{eliminated};
ghost use Rattle.jh_fca.specs.elimination.Eliminated.{step, step_of, all_steps, eliminate};
ghost use Rattle.jh_field_constraints.specs.Standing.{IsNamed, IsFormula, AreNames, IsConstraint, AreConstraint, IsSequent};
ghost use Rattle.jh_field_constraints.specs.Finding.{kept, IsAtPlace, IsFound};

use crate::constraints::{NodeConstraint, constraint_in};
use crate::fields::{derived, is_listed_in};
use crate::formulas::eliminated;
use crate::naming::{name_of, node_at};
use jh_arena::table::Table;
use jh_name::{NoMemory, Row};

/// The formulas of a sequent by their nodes: its facts, in their order, and its goal.
#[derive(Drop)]
pub struct NodeSequent {
    pub facts: Row<usize>,
    pub goal: usize,
}

/// The place of the first fact that constrains a field, and the constraint.
#[derive(Clone, Copy)]
pub(crate) struct Found {
    pub(crate) place: usize,
    pub(crate) of: NodeConstraint,
}

/// Whether two nodes are one.
fn are_one(node: usize, other: usize) -> bool
    ensures { result ≡ nat_eq node other }
{
    node == other
}

/// The constraint that a fact is, where it is one of this field.
fn constraint_of(
    table: &Table,
    field: usize,
    fact: usize,
) -> Result<Option<NodeConstraint>, NoMemory>
    requires field { (f : Name) × IsNamed table.now field f }
    requires fact { is_truth (slice_get (nodes table.now) fact) ≡ true }
    ensures { IfOk result (λ made. (f : Name) (a : FormulaTree) → IsNamed table.now field f → IsFormula table.now fact a → AreConstraint table.now made (kept f (constraint_in a))) }
{
    table.nodes_differ();
    match constraint_in(table, fact)? {
        Some(of) => {
            let same = are_one(of.field, field);
            if same { Ok(Some(of)) } else { Ok(None) }
        }
        None => Ok(None),
    }
}

/// The first fact that constrains a field.
fn first_for(table: &Table, field: usize, facts: &[usize]) -> Result<Option<Found>, NoMemory>
    requires field { (f : Name) × IsNamed table.now field f }
    requires facts { (all : List FormulaTree) × AreFormulas table.now facts.now all }
    ensures found { IfOk result (λ found. (f : Name) (hs : List HypTree) → IsNamed table.now field f → AreFormulas table.now facts.now (map (λ h. h.fact) hs) → IsFound table.now found f hs) }
    ensures within { IfOk result (λ found. IfSome found (λ f. f.place < length facts.now)) }
{
    for place in 0..facts.len() {
        let constraint = constraint_of(table, field, node_at(facts, place))?;
        if let Some(of) = constraint {
            return Ok(Some(Found { place, of }));
        }
    }
    Ok(None)
}

/// Adds facts whose reads of a field are exchanged.
fn add_eliminated(
    table: &mut Table,
    of: NodeConstraint,
    facts: &[usize],
    made: &mut Vec<usize>,
) -> Result<(), NoMemory>
    requires of { (c : Constraint) × IsConstraint table.old of c }
    requires facts { (all : List FormulaTree) × AreFormulas table.old facts.now all × (list_all has_local_shape all ≡ true) }
    ensures facts { OnOk result ((c : Constraint) (all done : List FormulaTree) → IsConstraint table.old of c → AreFormulas table.old facts.now all → AreFormulas table.old made.old.items done → AreFormulas table.new made.new.items (done ++ map (λ a. eliminated c a false) all)) }
    ensures grows { Extends table.old table.new }
{
    for place in 0..facts.len() {
        let node = eliminated(table, of, node_at(facts, place), false)?;
        made.push(node)?;
    }
    Ok(())
}

/// The facts but the one at a place, with their reads of a field exchanged.
fn others_eliminated(
    table: &mut Table,
    found: Found,
    facts: &[usize],
) -> Result<Vec<usize>, NoMemory>
    requires of { (c : Constraint) × IsConstraint table.old found.of c }
    requires place { found.place < length facts.now }
    requires facts { (all : List FormulaTree) × AreFormulas table.old facts.now all × (list_all has_local_shape all ≡ true) }
    ensures facts { IfOk result (λ made. (c : Constraint) (all : List FormulaTree) → IsConstraint table.old found.of c → AreFormulas table.old facts.now all → AreFormulas table.new made.items (map (λ a. eliminated c a false) (take found.place all ++ drop (found.place + 1) all))) }
    ensures grows { Extends table.old table.new }
{
    let mut made = Vec::new(table.alloc());
    add_eliminated(table, found.of, &facts[..found.place], &mut made)?;
    add_eliminated(table, found.of, &facts[found.place + 1..], &mut made)?;
    Ok(made)
}

/// The step of a field whose constraint was found.
fn step(table: &mut Table, found: Found, form: &NodeSequent) -> Result<NodeSequent, NoMemory>
    requires of { (c : Constraint) × IsConstraint table.old found.of c }
    requires place { found.place < length form.now.facts }
    requires form { (s : SequentTree) × IsSequent table.old form.now.facts form.now.goal s × (is_local s ≡ true) }
    ensures form { IfOk result (λ made. (c : Constraint) (s : SequentTree) → IsAtPlace table.old found c.field s.hyps c → IsSequent table.old form.now.facts form.now.goal s → is_local s ≡ true → IsSequent table.new made.facts made.goal (step c s)) }
    ensures grows { Extends table.old table.new }
{
    let goal = eliminated(table, found.of, form.goal, true)?;
    let facts = others_eliminated(table, found, form.facts.items())?;
    Ok(NodeSequent {
        facts: Row::of(facts),
        goal,
    })
}

/// The step of a field, where it is derived when its turn comes.
fn step_of(table: &mut Table, field: usize, form: NodeSequent) -> Result<NodeSequent, NoMemory>
    requires field { (f : Name) × IsNamed table.old field f }
    requires form { (s : SequentTree) × IsSequent table.old form.facts form.goal s × (is_local s ≡ true) }
    ensures form { IfOk result (λ made. (f : Name) (s : SequentTree) → IsNamed table.old field f → IsSequent table.old form.facts form.goal s → is_local s ≡ true → IsSequent table.new made.facts made.goal (step_of f s)) }
    ensures grows { Extends table.old table.new }
{
    let listed = is_listed_in(table, name_of(table, field), form.facts.items(), form.goal)?;
    if listed {
        return Ok(form);
    }
    match first_for(table, field, form.facts.items())? {
        Some(found) => step(table, found, &form),
        None => Ok(form),
    }
}

/// The steps of fields, one after another.
fn all_steps(
    table: &mut Table,
    fields: &[usize],
    form: NodeSequent,
) -> Result<NodeSequent, NoMemory>
    requires fields { (fs : List Name) × AreNames table.old fields.now fs }
    requires form { (s : SequentTree) × IsSequent table.old form.facts form.goal s × (is_local s ≡ true) }
    ensures form { IfOk result (λ made. (fs : List Name) (s : SequentTree) → AreNames table.old fields.now fs → IsSequent table.old form.facts form.goal s → is_local s ≡ true → IsSequent table.new made.facts made.goal (all_steps fs s)) }
    ensures grows { Extends table.old table.new }
{
    let mut made = form;
    for place in 0..fields.len() {
        made = step_of(table, node_at(fields, place), made)?;
    }
    Ok(made)
}

/// The facts and the goal as they are given.
fn given(table: &Table, facts: &[usize], goal: usize) -> Result<NodeSequent, NoMemory>
    ensures { IfOk result (λ made. (made.facts ≡ facts.now) × (made.goal ≡ goal)) }
{
    let mut all = Vec::new(table.alloc());
    all.extend_from_slice(facts)?;
    Ok(NodeSequent {
        facts: Row::of(all),
        goal,
    })
}

/// The nodes of a sequent of local shape without its derived fields. What the table held stays in its place, after any answer. The
/// answer is want of memory where a tree nests deeper than MOST_LEVELS, where an atom has more than 1,000 different reads of a
/// derived field, and where a number of a bound variable leaves u32.
pub fn eliminate(table: &mut Table, facts: &[usize], goal: usize) -> Result<NodeSequent, NoMemory>
    requires sequent { (s : SequentTree) × IsSequent table.old facts.now goal s × (is_local s ≡ true) }
    ensures sequent { IfOk result (λ made. (s : SequentTree) → IsSequent table.old facts.now goal s → is_local s ≡ true → IsSequent table.new made.facts made.goal (eliminate s)) }
    ensures grows { Extends table.old table.new }
{
    let fields = derived(table, facts, goal)?;
    let form = given(table, facts, goal)?;
    all_steps(table, fields.as_slice(), form)
}
