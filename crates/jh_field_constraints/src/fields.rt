ghost use Rattle.std.specs.Prelude.{◌≡◌, ◌++◌, ◌∷◌, [], List, map, true, if◌then◌else◌, IfOk, OnOk, length, slice_get};
ghost use Rattle.jh_name.specs.declared.naming.Name.{Name};
ghost use Rattle.jh_form.specs.Tree.{FormulaTree};
ghost use Rattle.indexmap.specs.IndexSet.{insert_all};
ghost use Rattle.jh_form.specs.Passing.{name_equal};
ghost use Rattle.jh_arena.specs.table.Entries.{are_fields, fields_at, is_truth, the_truth};
ghost use Rattle.jh_arena.specs.table.Nodes.{nodes};
ghost use Rattle.jh_reach.specs.Standing.{AreFormulas};
ghost use Rattle.jh_seq.specs.sequent.Sequents.{HypTree, SequentTree};
ghost use Rattle.jh_seq.specs.splitting.Local.{is_local};
ghost use Rattle.jh_fca.specs.elimination.Constraints.{constraint_in};
ghost use Rattle.jh_fca.specs.elimination.Derived.{constrained, derived, fields_of, is_listed, is_listed_in, names_once};
ghost use Rattle.jh_field_constraints.specs.Standing.{IsNamed, IsFormula, AreNames, IsSequent};
ghost use Rattle.jh_field_constraints.specs.Reading.{is_among, is_along, IsLocalAt};

use crate::constraints::constraint_in;
use crate::naming::{is_name, name_of, node_at};
use jh_arena::table::{Shape, Table};
use jh_name::{Name, NoMemory};
use jh_normal_forms::parts::{NodeList, Order, PartTest};

/// Whether a field is among these.
fn is_among(table: &Table, fields: &[usize], name: &Name) -> bool
    requires fields { are_fields (nodes table.now) fields.now ≡ true }
    ensures { result ≡ is_among name.now (fields_at (nodes table.now) fields.now) }
{
    for place in 0..fields.len() {
        if is_name(table, node_at(fields, place), name) {
            return true;
        }
    }
    false
}

/// Asks for what speaks of a list of fields with this one among them.
#[derive(Drop)]
struct Along<'a> {
    name: &'a Name,
}

impl PartTest for Along<'_> {
    ghost test = { λ test. is_along test.name.now };

    fn asks(&self, table: &Table, node: usize) -> bool {
        match table.shape(node) {
            Shape::Reach(list, _, _) => is_among(table, table.list_at(list), self.name),
            Shape::Tree(list) => is_among(table, table.list_at(list), self.name),
            _ => false,
        }
    }
}

/// Whether a field stands in the list of a `reach` or a `tree` of a formula of local shape.
fn is_listed(table: &Table, name: &Name, formula: usize) -> Result<bool, NoMemory>
    requires formula { IsLocalAt (nodes table.now) formula }
    ensures { IfOk result (λ listed. listed ≡ is_listed name.now (the_truth (slice_get (nodes table.now) formula))) }
{
    let mut list = NodeList::new(table.alloc());
    list.add_parts(table, &Along { name }, Order::InnerFirst, formula)?;
    Ok(list.len() != 0)
}

/// The same of the formulas of a sequent.
pub(crate) fn is_listed_in(
    table: &Table,
    name: &Name,
    facts: &[usize],
    goal: usize,
) -> Result<bool, NoMemory>
    requires sequent { (s : SequentTree) × IsSequent table.now facts.now goal s × (is_local s ≡ true) }
    ensures { IfOk result (λ listed. (s : SequentTree) → IsSequent table.now facts.now goal s → is_local s ≡ true → listed ≡ is_listed_in name.now s) }
{
    for place in 0..facts.len() {
        let listed = is_listed(table, name, node_at(facts, place))?;
        if listed {
            return Ok(true);
        }
    }
    is_listed(table, name, goal)
}

/// Adds the field that a fact constrains, where it does.
fn add_field(table: &Table, fact: usize, list: &mut NodeList) -> Result<(), NoMemory>
    requires fact { is_truth (slice_get (nodes table.now) fact) ≡ true }
    ensures { OnOk result ((a : FormulaTree) (xs : List Name) → IsFormula table.now fact a → AreNames table.now list.old xs → AreNames table.now list.new (insert_all name_equal xs (fields_of (constraint_in a)))) }
{
    table.nodes_differ();
    match constraint_in(table, fact)? {
        Some(of) => list.add(of.field),
        None => Ok(()),
    }
}

/// The fields that facts constrain, each once, in the order of the first facts that constrain them.
fn constrained(table: &Table, facts: &[usize]) -> Result<NodeList, NoMemory>
    requires facts { (all : List FormulaTree) × AreFormulas table.now facts.now all }
    ensures { IfOk result (λ made. (hs : List HypTree) → AreFormulas table.now facts.now (map (λ h. h.fact) hs) → AreNames table.now made (names_once (constrained hs))) }
{
    let mut list = NodeList::new(table.alloc());
    for place in 0..facts.len() {
        add_field(table, node_at(facts, place), &mut list)?;
    }
    Ok(list)
}

/// Adds a field, where no `reach` and no `tree` goes along it.
fn add_derived(
    table: &Table,
    facts: &[usize],
    goal: usize,
    field: usize,
    made: &mut Vec<usize>,
) -> Result<(), NoMemory>
    requires sequent { (s : SequentTree) × IsSequent table.now facts.now goal s × (is_local s ≡ true) }
    requires field { (f : Name) × IsNamed table.now field f }
    ensures { OnOk result ((s : SequentTree) (f : Name) (xs : List Name) → IsSequent table.now facts.now goal s → is_local s ≡ true → IsNamed table.now field f → AreNames table.now made.old.items xs → AreNames table.now made.new.items (if is_listed_in f s then xs else xs ++ f ∷ [])) }
{
    let listed = is_listed_in(table, name_of(table, field), facts, goal)?;
    if listed {
        return Ok(());
    }
    made.push(field)?;
    Ok(())
}

/// The nodes of the derived fields of a sequent of local shape: those that facts constrain, and that no `reach` and no `tree` goes
/// along; each once, in the order of the first facts that constrain them. The answer is want of memory where a tree nests deeper
/// than MOST_LEVELS.
pub fn derived(table: &Table, facts: &[usize], goal: usize) -> Result<Vec<usize>, NoMemory>
    requires sequent { (s : SequentTree) × IsSequent table.now facts.now goal s × (is_local s ≡ true) }
    ensures { IfOk result (λ made. (s : SequentTree) → IsSequent table.now facts.now goal s → is_local s ≡ true → AreNames table.now made.items (derived s)) }
{
    let list = constrained(table, facts)?;
    let mut made = Vec::new(table.alloc());
    for place in 0..list.len() {
        add_derived(table, facts, goal, list.at(place), &mut made)?;
    }
    Ok(made)
}
