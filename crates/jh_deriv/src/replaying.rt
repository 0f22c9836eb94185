#![tactic(auto, using(jh_arena::proofs::table::Listed::growth_steps))]

ghost use Rattle.std.specs.Prelude.{◌≡◌, ◌++◌, ℕ, Ok, None, Some, true, false, OnOk, [], ◌∷◌};
ghost use Rattle.jh_form.specs.Bare.{formula_tree};
ghost use Rattle.jh_form.specs.Tree as t;
ghost use Rattle.jh_boxed_operations.specs.comparison.Unmarked.{unmarked_formula};
ghost use Rattle.jh_arena.specs.table.Growth.{Extends};
ghost use Rattle.jh_arena.specs.table.Nodes.{nodes};
ghost use Rattle.jh_seq.specs.sequent.Sequents.{sequent_tree};
ghost use Rattle.jh_derivation_rules.specs.Steps.{step_tree, bare_step, steps_of};
ghost use Rattle.jh_derivation_rules.specs.Rules.{HasAll};
ghost use Rattle.jh_derivation_rules.specs.Closes.{ClosesSequent, FailsSequent, after, facts_of};
ghost use Rattle.jh_derivation_steps.specs.premises.Nodes.{formulas_at, branches_at, IsRule};
ghost use Rattle.jh_open_branches.specs.Placed.{ArePlaced, noted};
ghost use Rattle.jh_deriv.specs.Replays.{AllFormulas, AreBranches, Comes, Gains, IsStuck, SuitsFacts, Turns, bare_facts, bare_steps, facts_at, open_at};

use crate::entering::{bare_formula, negated_goal};
use crate::suiting::{found, suits_facts};
use jh_arena::table::Table;
use jh_derivation_rules::{DerivStep, Derivation, closing_is_exact};
use jh_derivation_steps::premises::{Adds, NodeRule, Nodes};
use jh_form::Formula;
use jh_name::NoMemory;
use jh_open_branches::{Branches, FactList};
use jh_seq::sequent::{Hyp, Sequent};
use std::alloc::Global;

/// What comes of a replay.
#[derive(Clone, Copy, PartialEq, Eq)]
pub enum Replayed {
    /// The derivation closes the sequent.
    Yes,
    /// The first step that doesn't meet its rule, is missing or is too many, counted from 0.
    No(u32),
    /// There was no memory to tell.
    Memory,
}

/// Takes a step, whose rule is known, at the branch that is worked at: whether it meets the rule there.
fn advance(
    table: &Table,
    branches: &mut Branches,
    step: &DerivStep,
    rule: NodeRule,
) -> Result<bool, NoMemory>
    requires branches { AreBranches (nodes table.now) branches.old.facts.facts.items (noted branches.old.facts.places) branches.old.waiting.items }
    requires rule { IsRule (nodes table.now) (Some rule) }
    ensures branches { result ≡ Ok true → AreBranches (nodes table.now) branches.new.facts.facts.items (noted branches.new.facts.places) branches.new.waiting.items }
    ensures has { result ≡ Ok true → HasAll (facts_at (nodes table.now) branches.old.facts.facts.items) (formulas_at (nodes table.now) rule.needs) }
    ensures suits { result ≡ Ok true → SuitsFacts (facts_at (nodes table.now) branches.old.facts.facts.items) (bare_step (step_tree step.now)) }
    ensures opens { result ≡ Ok true → open_at (nodes table.now) branches.new.facts.facts.items branches.new.waiting.items ≡ after (facts_at (nodes table.now) branches.old.facts.facts.items) (branches_at (nodes table.now) rule.adds) ++ open_at (nodes table.now) branches.old.facts.facts.items branches.old.waiting.items }
    ensures stuck { result ≡ Ok false → HasAll (facts_at (nodes table.now) branches.old.facts.facts.items) (formulas_at (nodes table.now) rule.needs) → SuitsFacts (facts_at (nodes table.now) branches.old.facts.facts.items) (bare_step (step_tree step.now)) → ⊥ }
{
    table.nodes_differ();
    if !branches.has(rule.needs) {
        return Ok(false);
    }
    if !suits_facts(table, branches.facts.facts(), step)? {
        return Ok(false);
    }
    branches.spread(rule.adds)?;
    Ok(true)
}

/// Takes a step at the next branch: whether there is one, and the step meets its rule there.
fn turn(table: &mut Table, branches: &mut Branches, step: &DerivStep) -> Result<bool, NoMemory>
    requires { AreBranches (nodes table.old) branches.old.facts.facts.items (noted branches.old.facts.places) branches.old.waiting.items }
    ensures branches { result ≡ Ok true → AreBranches (nodes table.new) branches.new.facts.facts.items (noted branches.new.facts.places) branches.new.waiting.items }
    ensures turns { result ≡ Ok true → Turns (open_at (nodes table.old) branches.old.facts.facts.items branches.old.waiting.items) (bare_step (step_tree step.now)) (open_at (nodes table.new) branches.new.facts.facts.items branches.new.waiting.items) }
    ensures stuck { result ≡ Ok false → IsStuck (open_at (nodes table.old) branches.old.facts.facts.items branches.old.waiting.items) (bare_step (step_tree step.now)) }
    ensures grows { Extends table.old table.new }
{
    if !branches.next()? {
        return Ok(false);
    }
    match found(table, step)? {
        None => Ok(false),
        Some(rule) => advance(table, branches, step, rule),
    }
}

/// Adds a formula to the facts, without its labels.
fn add_fact(table: &mut Table, facts: &mut FactList, fact: &Formula) -> Result<(), NoMemory>
    requires placed { ArePlaced facts.old.facts.items (noted facts.old.places) }
    requires formulas { AllFormulas (nodes table.old) facts.old.facts.items }
    ensures gains { OnOk result (Gains (nodes table.old) (nodes table.new) facts.old.facts.items facts.new.facts.items (noted facts.new.places) (unmarked_formula (formula_tree fact.now) ∷ [])) }
    ensures grows { Extends table.old table.new }
{
    let node = bare_formula(table, fact)?;
    facts.push(node)
}

/// Adds the negation of a goal to the facts, without labels.
fn add_goal(table: &mut Table, facts: &mut FactList, goal: &Formula) -> Result<(), NoMemory>
    requires placed { ArePlaced facts.old.facts.items (noted facts.old.places) }
    requires formulas { AllFormulas (nodes table.old) facts.old.facts.items }
    ensures gains { OnOk result (Gains (nodes table.old) (nodes table.new) facts.old.facts.items facts.new.facts.items (noted facts.new.places) (t.negation (unmarked_formula (formula_tree goal.now)) ∷ [])) }
    ensures grows { Extends table.old table.new }
{
    let node = negated_goal(table, goal)?;
    facts.push(node)
}

/// Adds hypotheses to the facts, without labels.
fn add_hyps(table: &mut Table, facts: &mut FactList, hyps: &[Hyp]) -> Result<(), NoMemory>
    requires placed { ArePlaced facts.old.facts.items (noted facts.old.places) }
    requires formulas { AllFormulas (nodes table.old) facts.old.facts.items }
    ensures gains { OnOk result (Gains (nodes table.old) (nodes table.new) facts.old.facts.items facts.new.facts.items (noted facts.new.places) (bare_facts hyps.now)) }
    ensures grows { Extends table.old table.new }
{
    for hyp in hyps {
        add_fact(table, facts, &hyp.fact)?;
    }
    Ok(())
}

/// Adds the hypotheses of a sequent and its negated goal to the facts.
fn add_sequent(table: &mut Table, facts: &mut FactList, sequent: &Sequent) -> Result<(), NoMemory>
    requires placed { ArePlaced facts.old.facts.items (noted facts.old.places) }
    requires formulas { AllFormulas (nodes table.old) facts.old.facts.items }
    ensures gains { OnOk result (Gains (nodes table.old) (nodes table.new) facts.old.facts.items facts.new.facts.items (noted facts.new.places) (facts_of (sequent_tree sequent.now))) }
    ensures grows { Extends table.old table.new }
{
    add_hyps(table, facts, sequent.hyps.items())?;
    add_goal(table, facts, &sequent.goal)
}

/// Opens one branch, with the facts of a sequent.
fn begin(table: &mut Table, branches: &mut Branches, sequent: &Sequent) -> Result<(), NoMemory>
    requires placed { ArePlaced branches.old.facts.facts.items (noted branches.old.facts.places) }
    requires facts { branches.old.facts.facts.items ≡ [] }
    requires waiting { branches.old.waiting.items ≡ [] }
    ensures branches { OnOk result (AreBranches (nodes table.new) branches.new.facts.facts.items (noted branches.new.facts.places) branches.new.waiting.items) }
    ensures opens { OnOk result (open_at (nodes table.new) branches.new.facts.facts.items branches.new.waiting.items ≡ facts_of (sequent_tree sequent.now) ∷ []) }
    ensures grows { Extends table.old table.new }
{
    add_sequent(table, &mut branches.facts, sequent)?;
    branches.spread(Adds::Goes(Nodes::Nothing))
}

/// The number of the first step that fails, or none where none does.
fn first_failure(
    table: &mut Table,
    branches: &mut Branches,
    steps: &[DerivStep],
) -> Result<Option<usize>, NoMemory>
    requires { AreBranches (nodes table.old) branches.old.facts.facts.items (noted branches.old.facts.places) branches.old.waiting.items }
    ensures { Comes (open_at (nodes table.old) branches.old.facts.facts.items branches.old.waiting.items) (bare_steps steps.now) result }
{
    for index in 0..steps.len() {
        if !turn(table, branches, &steps[index])? {
            return Ok(Some(index));
        }
    }
    Ok(at_end(branches, steps.len()))
}

/// Where steps are missing after the last.
fn at_end(branches: &Branches, count: usize) -> Option<usize>
    ensures none { result ≡ None → branches.now.waiting.items ≡ [] }
    ensures missing { (n : ℕ) → result ≡ Some n → n ≡ count }
    ensures waiting { (n : ℕ) → result ≡ Some n → branches.now.waiting.items ≡ [] → ⊥ }
{
    if branches.waiting.is_empty() {
        None
    } else {
        Some(count)
    }
}

/// The number of the first step that fails from the facts of a sequent, or none where the steps close it.
fn followed(
    alloc: Global,
    steps: &[DerivStep],
    sequent: &Sequent,
) -> Result<Option<usize>, NoMemory>
    ensures { Comes (facts_of (sequent_tree sequent.now) ∷ []) (bare_steps steps.now) result }
{
    let mut table = Table::new(alloc)?;
    let mut branches = Branches::new(alloc);
    begin(&mut table, &mut branches, sequent)?;
    first_failure(&mut table, &mut branches, steps)
}

/// Follows the steps of a derivation from the facts of a sequent: whether they close it, or else the first step that
/// fails. It doesn't recurse on the derivation. The time is in proportion to the steps and to the sizes of what they
/// name, but that a step for a witness looks at each fact of its branch.
pub fn replay(alloc: Global, derivation: &Derivation, sequent: &Sequent) -> Replayed
    ensures yes { result ≡ Replayed.Yes → ClosesSequent (steps_of derivation.now) (sequent_tree sequent.now) }
    ensures no { (n : ℕ) → result ≡ Replayed.No n → FailsSequent (steps_of derivation.now) (sequent_tree sequent.now) n }
{
    closing_is_exact();
    match followed(alloc, derivation.steps.items(), sequent) {
        Ok(None) => Replayed::Yes,
        Ok(Some(index)) => numbered(index),
        Err(_) => Replayed::Memory,
    }
}

/// The answer that a step fails, or want of memory where its number passes u32.
fn numbered(index: usize) -> Replayed
    ensures number { (n : ℕ) → result ≡ Replayed.No n → n ≡ index }
    ensures fails { result ≡ Replayed.Yes → ⊥ }
{
    match u32::try_from(index) {
        Ok(number) => Replayed::No(number),
        Err(_) => Replayed::Memory,
    }
}
