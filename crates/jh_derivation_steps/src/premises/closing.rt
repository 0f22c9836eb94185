#![tactic(auto, unfolding(crate::specs::premises::Nodes::step_at, crate::specs::premises::Nodes::AreOperands, jh_derivation_rules::specs::Rules::is_closed_step))]

ghost use Rattle.std.specs.Prelude.{◌≡◌, ◌&&◌, ℕ, None, Some};
ghost use Rattle.jh_form.specs.Closed.{is_closed_fields};
ghost use Rattle.jh_arena.specs.table.Nodes.{nodes};
ghost use Rattle.jh_derivation_rules.specs.Cited.{is_closed_base};
ghost use Rattle.jh_derivation_rules.specs.Rules.{is_closed_step};
ghost use Rattle.jh_derivation_steps.specs.premises.Nodes.{formula_at, base_at, forest_fields, step_at, AreOperands, IsForest, IsUpdate};

use crate::closedness::{field, formula, reading, replacing, three, values, with_term};
use crate::premises::nodes::NodeStep;
use jh_arena::table::Table;

/// Whether the fields of which a node says that they are a forest have no loose bound variable.
fn listed(table: &Table, list: usize) -> bool
    requires { IsForest (nodes table.now) list }
    ensures { result ≡ (is_closed_fields (forest_fields (formula_at (nodes table.now) list)) 0 && is_closed_base None) }
{
    formula(table, list)
}

/// Whether they and the base of which an update tells have none.
fn based(table: &Table, list: usize, update: usize) -> bool
    requires list { IsForest (nodes table.now) list }
    requires update { IsUpdate (nodes table.now) update }
    ensures { (place : ℕ) → result ≡ (is_closed_fields (forest_fields (formula_at (nodes table.now) list)) 0 && is_closed_base (Some (base_at (nodes table.now) place update))) }
{
    formula(table, list) && field(table, update)
}

/// Whether no operand of a step has a loose bound variable. It takes no memory.
pub fn is_closed(table: &Table, step: NodeStep) -> bool
    requires { AreOperands (nodes table.now) step }
    ensures { result ≡ is_closed_step (step_at (nodes table.now) step) }
{
    match step {
        NodeStep::Absurd => true,
        NodeStep::Pair(node) => formula(table, node),
        NodeStep::Reflexive(node) => formula(table, node),
        NodeStep::Symmetric(left, right) => values(table, left, right),
        NodeStep::Transitive(first, second, third) => three(table, first, second, third),
        NodeStep::Reading(_, node, left, right) => reading(table, node, left, right),
        NodeStep::Replacing(fact, made, old, new) => replacing(table, fact, made, old, new),
        NodeStep::Conjuncts(node) => formula(table, node),
        NodeStep::Disjuncts(node) => formula(table, node),
        NodeStep::Implication(node) => formula(table, node),
        NodeStep::Equivalence(node) => formula(table, node),
        NodeStep::Inward(node) => formula(table, node),
        NodeStep::Instance(node, with) => with_term(table, node, with),
        NodeStep::Witness(node, _) => formula(table, node),
        NodeStep::Cut(node) => formula(table, node),
        NodeStep::Updating(node) => field(table, node),
        NodeStep::Axiom(_, list) => listed(table, list),
        NodeStep::BasedAxiom(_, list, _, update) => based(table, list, update),
        NodeStep::Relation(node) => formula(table, node),
    }
}
