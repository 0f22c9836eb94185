#![tactic(auto, using(jh_arena::proofs::table::Listed::growth_steps))]

ghost use Rattle.std.specs.Prelude.{◌≡◌, ◌+◌, ◌<◌, ◌++◌, ◌∷◌, [], List, drop, map, true, IfOk, OnOk, slice_get};
ghost use Rattle.jh_form.specs.Tree.{FormulaTree, TermTree};
ghost use Rattle.jh_arena.specs.table.Entries.{is_truth};
ghost use Rattle.jh_arena.specs.table.Growth.{Extends};
ghost use Rattle.jh_arena.specs.table.Nodes.{nodes};
ghost use Rattle.jh_instantiation.specs.instance_count.Grouping.{AreFormulas};
ghost use Rattle.jh_instantiation.specs.closed_terms.Listed.{AreTerms};
ghost use Rattle.jh_instantiation.specs.skolem_constants.Standing.{IsFormula};
ghost use Rattle.jh_inst.specs.instances.Entries as spec;
ghost use Rattle.jh_inst.specs.instances.Entries.{Entry, formulas};
ghost use Rattle.jh_inst.specs.instances.Rounds as rounds;
ghost use Rattle.jh_inst.specs.instances.Terms.{with_terms_of};
ghost use Rattle.jh_inst.specs.instances.Witnesses.{witnesses, constants_from};
ghost use Rattle.jh_instantiation.specs.instances.Standing.{IsMade};
ghost use Rattle.jh_instantiation.specs.instances.Progressing.{AreAtHand, IsProgress};

use crate::closed_terms::{Terms, add_closed_terms};
use crate::instances::entry::{NodeEntries, NodeEntry, Origin};
use crate::instances::making::{AtHand, Progress, between, node_at};
use crate::skolem_constants::{in_front, prenexed, witnessed};
use jh_arena::table::{Shape, Table};
use jh_name::NoMemory;

/// The most nodes that a fact may have, each counted where it stands.
pub const MOST_NODES: u64 = 1 << 24;

/// A fact that is taken apart: its number, the turn of its first constant, and how many constants it has.
#[derive(Clone, Copy)]
struct Fact {
    number: usize,
    first: u32,
    fresh: u32,
}

/// Adds a part of a fact.
fn add_part(
    table: &mut Table,
    entries: &mut NodeEntries,
    fact: Fact,
    node: usize,
) -> Result<(), NoMemory>
    requires there { is_truth (slice_get (nodes table.old) node) ≡ true }
    ensures made { (es : List Entry) (a : FormulaTree) → IsMade table.old entries.old es → IsFormula table.old node a → OnOk result (IsMade table.new entries.new (es ++ (spec.part_of fact.number (constants_from fact.first fact.fresh) a ∷ []))) }
    ensures grows { Extends table.old table.new }
{
    let formula = prenexed(table, node)?;
    entries.add(NodeEntry {
        formula,
        source: Origin::Fact(fact.number),
        terms: 0,
        variables: 0,
        first: fact.first,
        fresh: fact.fresh,
    })
}

/// Adds the parts of a fact. It nests as deep as the table takes.
#[cycle(add_conjuncts)]
fn add_conjuncts(
    table: &mut Table,
    entries: &mut NodeEntries,
    fact: Fact,
    node: usize,
) -> Result<(), NoMemory>
    requires there { is_truth (slice_get (nodes table.old) node) ≡ true }
    ensures made { (es : List Entry) (a : FormulaTree) → IsMade table.old entries.old es → IsFormula table.old node a → OnOk result (IsMade table.new entries.new (es ++ map (spec.part_of fact.number (constants_from fact.first fact.fresh)) (spec.conjuncts a))) }
    ensures grows { Extends table.old table.new }
{
    match table.shape(node) {
        Shape::And(a, b) => add_both(table, entries, fact, node, a, b),
        _ => add_part(table, entries, fact, node),
    }
}

/// Adds the parts of the two sides of an And.
#[cycle(add_conjuncts)]
fn add_both(
    table: &mut Table,
    entries: &mut NodeEntries,
    fact: Fact,
    node: usize,
    a: usize,
    b: usize,
) -> Result<(), NoMemory>
    requires first { is_truth (slice_get (nodes table.old) a) ≡ true }
    requires second { is_truth (slice_get (nodes table.old) b) ≡ true }
    requires below { (a < node) × (b < node) }
    ensures made { (es : List Entry) (p q : FormulaTree) → IsMade table.old entries.old es → IsFormula table.old a p → IsFormula table.old b q → OnOk result (IsMade table.new entries.new (es ++ map (spec.part_of fact.number (constants_from fact.first fact.fresh)) (spec.conjuncts p) ++ map (spec.part_of fact.number (constants_from fact.first fact.fresh)) (spec.conjuncts q))) }
    ensures grows { Extends table.old table.new }
{
    add_conjuncts(table, entries, fact, a)?;
    add_conjuncts(table, entries, fact, b)
}

/// Adds the parts of a fact, and answers the number behind those of its constants.
fn take_fact(
    table: &mut Table,
    entries: &mut NodeEntries,
    number: usize,
    node: usize,
    first: u32,
) -> Result<u32, NoMemory>
    requires there { is_truth (slice_get (nodes table.old) node) ≡ true }
    ensures made { (es : List Entry) (a : FormulaTree) → IsMade table.old entries.old es → IsFormula table.old node a → OnOk result (IsMade table.new entries.new (es ++ spec.parts_of number a first)) }
    ensures next { (a : FormulaTree) → IsFormula table.old node a → IfOk result (λ next. next ≡ first + witnesses a) }
    ensures grows { Extends table.old table.new }
{
    if table.size(node) > MOST_NODES {
        return Err(NoMemory);
    }
    let there = witnessed(table, node, first)?;
    if !table.is_shallow(there.node) {
        return Err(NoMemory);
    }
    let fact = Fact {
        number,
        first,
        fresh: between(first, there.next),
    };
    add_conjuncts(table, entries, fact, there.node)?;
    Ok(there.next)
}

/// Adds the parts of facts, and answers the number behind those of their constants.
fn take_all(
    table: &mut Table,
    entries: &mut NodeEntries,
    facts: &[usize],
    first: u32,
) -> Result<u32, NoMemory>
    requires there { (fs : List FormulaTree) × AreFormulas table.old facts.now fs }
    ensures made { (es : List Entry) (fs : List FormulaTree) → IsMade table.old entries.old es → AreFormulas table.old facts.now fs → OnOk result (IsMade table.new entries.new (es ++ spec.taken fs 0 first)) }
    ensures next { (fs : List FormulaTree) → AreFormulas table.old facts.now fs → IfOk result (λ next. next ≡ first + spec.all_witnesses fs) }
    ensures grows { Extends table.old table.new }
{
    let mut next = first;
    for number in 0..facts.len() {
        next = take_fact(table, entries, number, node_at(facts, number), next)?;
    }
    Ok(next)
}

/// Adds an entry to the universals at hand, where it is one.
fn add_universal(
    table: &Table,
    at_hand: &mut Vec<AtHand>,
    place: usize,
    node: usize,
) -> Result<(), NoMemory>
    requires there { is_truth (slice_get (nodes table.now) node) ≡ true }
    ensures { (ts : List TermTree) (hs : List rounds.AtHand) (e : Entry) → AreAtHand table.now ts at_hand.old.items hs → IsFormula table.now node e.formula → OnOk result (AreAtHand table.now ts at_hand.new.items (hs ++ rounds.universals place (e ∷ []))) }
{
    let variables = in_front(table, node)?;
    if variables == 0 {
        return Ok(());
    }
    at_hand.push(AtHand {
        place,
        node,
        variables,
        old: 0,
    })?;
    Ok(())
}

/// Adds the universals among the entries from a place on.
pub(crate) fn add_universals(
    table: &Table,
    entries: &NodeEntries,
    at_hand: &mut Vec<AtHand>,
    from: usize,
) -> Result<(), NoMemory>
    requires there { (es : List Entry) × IsMade table.now entries.now es }
    ensures { (ts : List TermTree) (hs : List rounds.AtHand) (es : List Entry) → AreAtHand table.now ts at_hand.old.items hs → IsMade table.now entries.now es → OnOk result (AreAtHand table.now ts at_hand.new.items (hs ++ rounds.universals from (drop from es))) }
{
    for place in from..entries.items.len() {
        add_universal(table, at_hand, place, entries.formula(place))?;
    }
    Ok(())
}

/// Adds the closed terms of the entries from a place on.
pub(crate) fn add_terms(
    table: &Table,
    entries: &NodeEntries,
    terms: &mut Terms,
    from: usize,
) -> Result<(), NoMemory>
    requires there { (es : List Entry) × IsMade table.now entries.now es }
    ensures { (ts : List TermTree) (es : List Entry) → AreTerms table.now terms.old.nodes.keys ts → IsMade table.now entries.now es → OnOk result (AreTerms table.now terms.new.nodes.keys (with_terms_of ts (formulas (drop from es)))) }
{
    for place in from..entries.items.len() {
        add_closed_terms(table, terms, entries.formula(place))?;
    }
    Ok(())
}

/// The facts, the universals among them, null with their closed terms, and the number behind those of their constants.
pub(crate) fn begun(table: &mut Table, facts: &[usize], first: u32) -> Result<Progress, NoMemory>
    requires there { (fs : List FormulaTree) × AreFormulas table.old facts.now fs }
    ensures made { (fs : List FormulaTree) → AreFormulas table.old facts.now fs → IfOk result (λ made. IsProgress table.new made (rounds.begun fs first)) }
    ensures grows { Extends table.old table.new }
{
    let mut entries = NodeEntries::new(table.alloc());
    let next = take_all(table, &mut entries, facts, first)?;
    let mut terms = Terms::with_null(table)?;
    add_terms(table, &entries, &mut terms, 0)?;
    let mut at_hand = Vec::new(table.alloc());
    add_universals(table, &entries, &mut at_hand, 0)?;
    Ok(Progress {
        entries,
        at_hand,
        terms,
        next,
    })
}
