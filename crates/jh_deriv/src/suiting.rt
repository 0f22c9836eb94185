#![tactic(auto, using(jh_arena::proofs::table::Listed::growth_steps))]

ghost use Rattle.std.specs.Prelude.{◌≡◌, ◌↔◌, ◌&&◌, not, IsTrue, IfOk};
ghost use Rattle.jh_form.specs.Bare.{formula_tree};
ghost use Rattle.jh_form.specs.Passing.{value_passes, name_equal};
ghost use Rattle.jh_arena.specs.table.Growth.{Extends};
ghost use Rattle.jh_arena.specs.table.Nodes.{nodes};
ghost use Rattle.jh_derivation_rules.specs.Rules.{IsRefuted, IsFresh};
ghost use Rattle.jh_boxed_operations.specs.comparison.Exchanged.{Exchanged};
ghost use Rattle.jh_derivation_rules.specs.Steps.{step_tree, bare_step};
ghost use Rattle.jh_derivation_steps.specs.premises.Nodes.{formula_at, number_at, value_at, step_at, AreOperands, IsFormula, IsNumber, IsValue};
ghost use Rattle.jh_deriv.specs.Replays.{AllFormulas, AreApart, is_const, Finds, IsItself, SuitsAlone, SuitsFacts, facts_at};

use crate::entering::entered;
use jh_arena::table::{Shape, Table};
use jh_boxed_operations::comparison::replaces;
use jh_derivation_rules::DerivStep;
use jh_derivation_steps::jh_substitution::rewriting::names;
use jh_derivation_steps::premises::{NodeRule, NodeStep, is_closed, rule_of};
use jh_export::{boxed_formula, value};
use jh_form::{Formula, Value};
use jh_name::{Name, NoMemory};
use jh_open_branches::Other;

/// Whether the sides of an equation are one.
fn is_itself(table: &Table, node: usize) -> bool
    requires { IsFormula (nodes table.now) node }
    ensures { IsTrue result ↔ IsItself (formula_at (nodes table.now) node) }
{
    table.nodes_differ();
    match table.shape(node) {
        Shape::EqObject(left, right) => left == right,
        Shape::EqNumber(left, right) => left == right,
        Shape::Iff(left, right) => left == right,
        Shape::EqSet(left, right) => left == right,
        _ => false,
    }
}

/// Whether a term is a constant.
fn is_constant(table: &Table, node: usize) -> bool
    requires { IsNumber (nodes table.now) node }
    ensures { result ≡ is_const (number_at (nodes table.now) node) }
{
    match table.shape(node) {
        Shape::Const(_) => true,
        _ => false,
    }
}

fn are_constants(table: &Table, left: usize, right: usize) -> bool
    requires left { IsNumber (nodes table.now) left }
    requires right { IsNumber (nodes table.now) right }
    ensures { result ≡ (is_const (number_at (nodes table.now) left) && is_const (number_at (nodes table.now) right)) }
{
    is_constant(table, left) && is_constant(table, right)
}

/// Whether two terms are constants that differ.
fn differ(table: &Table, left: usize, right: usize) -> bool
    requires left { IsNumber (nodes table.now) left }
    requires right { IsNumber (nodes table.now) right }
    ensures { IsTrue result ↔ AreApart (number_at (nodes table.now) left) (number_at (nodes table.now) right) }
{
    table.nodes_differ();
    if left == right {
        return false;
    }
    are_constants(table, left, right)
}

/// Whether no structure meets a formula: something isn't itself, or two different constants are equal.
fn is_refuted(table: &Table, node: usize) -> bool
    requires { IsFormula (nodes table.now) node }
    ensures { IsTrue result ↔ IsRefuted (formula_at (nodes table.now) node) }
{
    match table.shape(node) {
        Shape::Negation(inside) => is_itself(table, inside),
        Shape::EqNumber(left, right) => differ(table, left, right),
        _ => false,
    }
}

fn exchanged(
    table: &Table,
    from: &Formula,
    to: &Formula,
    old: usize,
    new: usize,
) -> Result<bool, NoMemory>
    requires old { IsValue (nodes table.now) old }
    requires new { IsValue (nodes table.now) new }
    ensures { IfOk result (λ same. IsTrue same ↔ Exchanged (formula_tree from.now) (formula_tree to.now) (value_at (nodes table.now) old) (value_at (nodes table.now) new)) }
{
    let old = value(table, old)?;
    let new = value(table, new)?;
    Ok(replaces(from, to, &old, &new))
}

/// Whether a formula is another with some occurrences of a value exchanged for a second one.
fn is_exchanged(
    table: &Table,
    from: usize,
    to: usize,
    old: usize,
    new: usize,
) -> Result<bool, NoMemory>
    requires from { IsFormula (nodes table.now) from }
    requires to { IsFormula (nodes table.now) to }
    requires old { IsValue (nodes table.now) old }
    requires new { IsValue (nodes table.now) new }
    ensures { IfOk result (λ same. IsTrue same ↔ Exchanged (formula_at (nodes table.now) from) (formula_at (nodes table.now) to) (value_at (nodes table.now) old) (value_at (nodes table.now) new)) }
{
    let from = boxed_formula(table, from)?;
    let to = boxed_formula(table, to)?;
    exchanged(table, &from, &to, old, new)
}

/// Whether a step's operands are what its rule asks for beyond their form.
#[tactic(auto, unfolding(jh_derivation_steps::specs::premises::Nodes::step_at, jh_derivation_steps::specs::premises::Nodes::AreOperands))]
fn suits(table: &Table, step: NodeStep) -> Result<bool, NoMemory>
    requires { AreOperands (nodes table.now) step }
    ensures { IfOk result (λ suits. IsTrue suits ↔ SuitsAlone (step_at (nodes table.now) step)) }
{
    match step {
        NodeStep::Reflexive(node) => Ok(is_refuted(table, node)),
        NodeStep::Replacing(fact, made, old, new) => is_exchanged(table, fact, made, old, new),
        _ => Ok(true),
    }
}

fn checked(table: &mut Table, step: NodeStep) -> Result<Option<NodeRule>, NoMemory>
    requires { AreOperands (nodes table.old) step }
    ensures rule { Finds (nodes table.new) (step_at (nodes table.old) step) result }
    ensures grows { Extends table.old table.new }
{
    if !is_closed(table, step) {
        return Ok(None);
    }
    if !suits(table, step)? {
        return Ok(None);
    }
    rule_of(table, step)
}

/// The rule of a step, where it has one whatever the facts are.
pub fn found(table: &mut Table, step: &DerivStep) -> Result<Option<NodeRule>, NoMemory>
    ensures rule { Finds (nodes table.new) (bare_step (step_tree step.now)) result }
    ensures grows { Extends table.old table.new }
{
    let made = entered(table, step)?;
    checked(table, made)
}

/// Whether a name stands nowhere free in a node.
fn lacks(table: &Table, node: usize, name: &Name) -> Result<bool, NoMemory>
    requires { IsFormula (nodes table.now) node }
    ensures { IfOk result (λ lacks. lacks ≡ value_passes (value_at (nodes table.now) node) (λ y u. not (name_equal y name.now))) }
{
    match table.number_of(name) {
        None => Ok(true),
        Some(number) => {
            if table.may_hold(node, number) {
                names(table, node, &Other { name })
            } else {
                Ok(true)
            }
        }
    }
}

/// Whether a name stands free in none of the facts.
fn is_fresh(table: &Table, facts: &[usize], name: &Name) -> Result<bool, NoMemory>
    requires { AllFormulas (nodes table.now) facts.now }
    ensures { IfOk result (λ fresh. IsTrue fresh ↔ IsFresh (facts_at (nodes table.now) facts.now) name.now) }
{
    for fact in facts {
        if !lacks(table, *fact, name)? {
            return Ok(false);
        }
    }
    Ok(true)
}

/// Whether the facts are what a step's rule asks for beyond holding its formulas.
pub fn suits_facts(table: &Table, facts: &[usize], step: &DerivStep) -> Result<bool, NoMemory>
    requires { AllFormulas (nodes table.now) facts.now }
    ensures { IfOk result (λ suits. IsTrue suits ↔ SuitsFacts (facts_at (nodes table.now) facts.now) (bare_step (step_tree step.now))) }
{
    match step {
        DerivStep::Exists(_, name) => is_fresh(table, facts, name),
        _ => Ok(true),
    }
}
