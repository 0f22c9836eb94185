#![tactic(auto, using(crate::proofs::premises::MakeSteps::make_steps, jh_arena::proofs::table::Listed::growth_steps))]

ghost use Rattle.std.specs.Prelude.{◌≡◌, Some, true, slice_get};
ghost use Rattle.jh_form.specs.Tree.{of_truth};
ghost use Rattle.jh_form.specs.Tree as t;
ghost use Rattle.jh_form.specs.Closed.{is_closed_term};
ghost use Rattle.jh_arena.specs.table.Growth.{Extends};
ghost use Rattle.jh_arena.specs.table.Nodes.{nodes};
ghost use Rattle.jh_derivation_rules.specs.Rules.{implication_rule, equivalence_rule, negation_rule, instance_rule, witness_rule};
ghost use Rattle.jh_derivation_steps.specs.premises.Nodes.{formula_at, term_at, name_of, IsFormula, IsTerm, IsName, Gives};

use crate::premises::adding::adding;
use crate::premises::making::negation;
use crate::premises::nodes::{Adds, NodeRule, Nodes};
use crate::premises::opening::pushed;
use jh_arena::table::{Shape, Table};
use jh_name::NoMemory;
use jh_substitution::rewriting::open;

/// The rule that makes a branch for the negated premise of an implication and one for its conclusion.
pub fn implication(table: &mut Table, node: usize) -> Result<Option<NodeRule>, NoMemory>
    requires node { IsFormula (nodes table.old) node }
    ensures rule { Gives (nodes table.new) (implication_rule (formula_at (nodes table.old) node)) result }
    ensures grows { Extends table.old table.new }
{
    match table.shape(node) {
        Shape::Implies(left, right) => {
            let left = negation(table, left)?;
            Ok(Some(NodeRule {
                needs: Nodes::One(node),
                adds: Adds::Splits(Nodes::One(left), Nodes::One(right)),
            }))
        }
        _ => Ok(None),
    }
}

/// The rule that makes a branch in which both sides of an equivalence are true, and one in which neither is.
pub fn equivalence(table: &mut Table, node: usize) -> Result<Option<NodeRule>, NoMemory>
    requires node { IsFormula (nodes table.old) node }
    ensures rule { Gives (nodes table.new) (equivalence_rule (formula_at (nodes table.old) node)) result }
    ensures grows { Extends table.old table.new }
{
    match table.shape(node) {
        Shape::Iff(left, right) => {
            let not_left = negation(table, left)?;
            let not_right = negation(table, right)?;
            Ok(Some(NodeRule {
                needs: Nodes::One(node),
                adds: Adds::Splits(Nodes::Two(left, right), Nodes::Two(not_left, not_right)),
            }))
        }
        _ => Ok(None),
    }
}

/// The rule that pushes a negation one level in.
pub fn inward(table: &mut Table, node: usize) -> Result<Option<NodeRule>, NoMemory>
    requires node { IsFormula (nodes table.old) node }
    ensures rule { Gives (nodes table.new) (negation_rule (formula_at (nodes table.old) node)) result }
    ensures grows { Extends table.old table.new }
{
    match table.shape(node) {
        Shape::Negation(inside) => {
            let made = pushed(table, inside)?;
            Ok(adding(Nodes::One(node), made))
        }
        _ => Ok(None),
    }
}

/// The rule that adds an instance of a universal formula.
pub fn instance(table: &mut Table, node: usize, term: usize) -> Result<Option<NodeRule>, NoMemory>
    requires node { IsFormula (nodes table.old) node }
    requires term { IsTerm (nodes table.old) term }
    requires closed { is_closed_term (term_at (nodes table.old) term) 0 ≡ true }
    ensures rule { Gives (nodes table.new) (instance_rule (formula_at (nodes table.old) node) (term_at (nodes table.old) term)) result }
    ensures grows { Extends table.old table.new }
{
    match table.shape(node) {
        Shape::All(body) => {
            let opened = open(table, body, term)?;
            Ok(Some(NodeRule {
                needs: Nodes::One(node),
                adds: Adds::Goes(Nodes::One(opened)),
            }))
        }
        _ => Ok(None),
    }
}

/// The rule that adds the body of an existential formula for a name.
pub fn witness(table: &mut Table, node: usize, name: usize) -> Result<Option<NodeRule>, NoMemory>
    requires node { IsFormula (nodes table.old) node }
    requires name { IsName (nodes table.old) name }
    ensures rule { Gives (nodes table.new) (witness_rule (formula_at (nodes table.old) node) (name_of (term_at (nodes table.old) name))) result }
    ensures grows { Extends table.old table.new }
{
    match table.shape(node) {
        Shape::Ex(body) => {
            let opened = open(table, body, name)?;
            Ok(Some(NodeRule {
                needs: Nodes::One(node),
                adds: Adds::Goes(Nodes::One(opened)),
            }))
        }
        _ => Ok(None),
    }
}
