#![tactic(auto, using(crate::proofs::premises::MakeSteps::make_steps, jh_arena::proofs::table::Listed::growth_steps))]

ghost use Rattle.std.specs.Prelude.{◌≡◌, true};
ghost use Rattle.jh_arena.specs.table.Growth.{Extends};
ghost use Rattle.jh_arena.specs.table.Nodes.{nodes};
ghost use Rattle.jh_derivation_rules.specs.Rules.{rule_of, is_closed_step};
ghost use Rattle.jh_derivation_steps.specs.premises.Nodes.{step_at, value_at, formula_at, term_at, field_at, IsFormula, IsTerm, IsField, IsValue, AreOperands, Gives};
ghost use Rattle.jh_derivation_rules.specs.Steps as s;

use crate::premises::adding::{adding, from_fact, from_one, from_two};
use crate::premises::equations::{equation, reads_equal};
use crate::premises::making::negation;
use crate::premises::nodes::{Adds, NodeRule, NodeStep, Nodes};
use crate::premises::opening::fact_opened;
use crate::premises::updates::updating;
use crate::premises::{citing, forming, parting};
use jh_arena::table::{Shape, Table};
use jh_name::{Kind, NoMemory};

/// The rule that closes where False is a fact.
fn absurdity(table: &mut Table) -> Result<Option<NodeRule>, NoMemory>
    ensures rule { Gives (nodes table.new) (rule_of (s.absurdity)) result }
    ensures grows { Extends table.old table.new }
{
    let falsehood = table.make(Shape::False)?;
    Ok(Some(NodeRule {
        needs: Nodes::One(falsehood),
        adds: Adds::Closes,
    }))
}

/// The rule that closes where a formula and its negation are facts.
fn pair(table: &mut Table, node: usize) -> Result<Option<NodeRule>, NoMemory>
    requires node { IsFormula (nodes table.old) node }
    ensures rule { Gives (nodes table.new) (rule_of (s.pair (formula_at (nodes table.old) node))) result }
    ensures grows { Extends table.old table.new }
{
    let negated = negation(table, node)?;
    Ok(Some(NodeRule {
        needs: Nodes::Two(node, negated),
        adds: Adds::Closes,
    }))
}

/// The rule that turns an equation round.
fn symmetric(table: &mut Table, left: usize, right: usize) -> Result<Option<NodeRule>, NoMemory>
    requires left { IsValue (nodes table.old) left }
    requires right { IsValue (nodes table.old) right }
    ensures rule { Gives (nodes table.new) (rule_of (s.symmetric (value_at (nodes table.old) left) (value_at (nodes table.old) right))) result }
    ensures grows { Extends table.old table.new }
{
    let given = equation(table, left, right)?;
    let turned = equation(table, right, left)?;
    Ok(from_one(given, turned))
}

/// The rule that joins two equations.
fn transitive(
    table: &mut Table,
    first: usize,
    second: usize,
    third: usize,
) -> Result<Option<NodeRule>, NoMemory>
    requires first { IsValue (nodes table.old) first }
    requires second { IsValue (nodes table.old) second }
    requires third { IsValue (nodes table.old) third }
    ensures rule { Gives (nodes table.new) (rule_of (s.transitive (value_at (nodes table.old) first) (value_at (nodes table.old) second) (value_at (nodes table.old) third))) result }
    ensures grows { Extends table.old table.new }
{
    let left = equation(table, first, second)?;
    let right = equation(table, second, third)?;
    let joined = equation(table, first, third)?;
    Ok(from_two(left, right, joined))
}

/// The rule that reads a field at both sides of an equation.
fn reading(
    table: &mut Table,
    kind: Kind,
    field: usize,
    left: usize,
    right: usize,
) -> Result<Option<NodeRule>, NoMemory>
    requires field { IsField (nodes table.old) field }
    requires left { IsTerm (nodes table.old) left }
    requires right { IsTerm (nodes table.old) right }
    ensures rule { Gives (nodes table.new) (rule_of (s.reading kind (field_at (nodes table.old) field) (term_at (nodes table.old) left) (term_at (nodes table.old) right))) result }
    ensures grows { Extends table.old table.new }
{
    let given = table.make(Shape::EqObject(left, right))?;
    let made = reads_equal(table, kind, field, left, right)?;
    Ok(Some(NodeRule {
        needs: Nodes::One(given),
        adds: Adds::Goes(Nodes::One(made)),
    }))
}

/// The rule that exchanges some occurrences of one side of an equation for the other.
fn replacing(
    table: &mut Table,
    fact: usize,
    made: usize,
    old: usize,
    new: usize,
) -> Result<Option<NodeRule>, NoMemory>
    requires fact { IsFormula (nodes table.old) fact }
    requires made { IsFormula (nodes table.old) made }
    requires old { IsValue (nodes table.old) old }
    requires new { IsValue (nodes table.old) new }
    ensures rule { Gives (nodes table.new) (rule_of (s.replacing (formula_at (nodes table.old) fact) (formula_at (nodes table.old) made) (value_at (nodes table.old) old) (value_at (nodes table.old) new))) result }
    ensures grows { Extends table.old table.new }
{
    let given = equation(table, old, new)?;
    Ok(from_fact(given, fact, made))
}

/// The rule that makes a branch for a formula and one for its negation.
fn cut(table: &mut Table, node: usize) -> Result<Option<NodeRule>, NoMemory>
    requires node { IsFormula (nodes table.old) node }
    ensures rule { Gives (nodes table.new) (rule_of (s.cut (formula_at (nodes table.old) node))) result }
    ensures grows { Extends table.old table.new }
{
    let negated = negation(table, node)?;
    Ok(Some(NodeRule {
        needs: Nodes::Nothing,
        adds: Adds::Splits(Nodes::One(node), Nodes::One(negated)),
    }))
}

/// The rule that opens a relation of sets.
fn relation(table: &mut Table, node: usize) -> Result<Option<NodeRule>, NoMemory>
    requires node { IsFormula (nodes table.old) node }
    requires closed { is_closed_step (s.relation (formula_at (nodes table.old) node)) ≡ true }
    ensures rule { Gives (nodes table.new) (rule_of (s.relation (formula_at (nodes table.old) node))) result }
    ensures grows { Extends table.old table.new }
{
    let made = fact_opened(table, node)?;
    Ok(adding(Nodes::One(node), made))
}

/// What a step needs and where it leads to, by the form of its operands; none where they have another form.
#[tactic(auto, unfolding(jh_derivation_rules::specs::Rules::rule_of, jh_derivation_rules::specs::Rules::is_closed_step, crate::specs::premises::Nodes::step_at, crate::specs::premises::Nodes::AreOperands))]
pub fn rule_of(table: &mut Table, step: NodeStep) -> Result<Option<NodeRule>, NoMemory>
    requires operands { AreOperands (nodes table.old) step }
    requires closed { is_closed_step (step_at (nodes table.old) step) ≡ true }
    ensures rule { Gives (nodes table.new) (rule_of (step_at (nodes table.old) step)) result }
    ensures grows { Extends table.old table.new }
{
    match step {
        NodeStep::Absurd => absurdity(table),
        NodeStep::Pair(node) => pair(table, node),
        NodeStep::Reflexive(node) => Ok(parting::refuted(table, node)),
        NodeStep::Symmetric(left, right) => symmetric(table, left, right),
        NodeStep::Transitive(first, second, third) => transitive(table, first, second, third),
        NodeStep::Reading(kind, field, left, right) => reading(table, kind, field, left, right),
        NodeStep::Replacing(fact, made, old, new) => replacing(table, fact, made, old, new),
        NodeStep::Conjuncts(node) => Ok(parting::conjuncts(table, node)),
        NodeStep::Disjuncts(node) => Ok(parting::disjuncts(table, node)),
        NodeStep::Implication(node) => forming::implication(table, node),
        NodeStep::Equivalence(node) => forming::equivalence(table, node),
        NodeStep::Inward(node) => forming::inward(table, node),
        NodeStep::Instance(node, term) => forming::instance(table, node, term),
        NodeStep::Witness(node, name) => forming::witness(table, node, name),
        NodeStep::Cut(node) => cut(table, node),
        NodeStep::Updating(field) => updating(table, field),
        NodeStep::Axiom(number, list) => citing::listed(table, number, list),
        NodeStep::BasedAxiom(number, list, place, update) => {
            citing::based(table, number, list, place, update)
        }
        NodeStep::Relation(node) => relation(table, node),
    }
}
