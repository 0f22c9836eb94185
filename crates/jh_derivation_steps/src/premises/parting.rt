ghost use Rattle.std.specs.Prelude.{◌≡◌};
ghost use Rattle.jh_arena.specs.table.Nodes.{nodes};
ghost use Rattle.jh_derivation_rules.specs.Rules.{conjunction_rule, disjunction_rule, rule_of};
ghost use Rattle.jh_derivation_rules.specs.Steps as d;
ghost use Rattle.jh_derivation_steps.specs.premises.Nodes.{formula_at, option_rule, IsFormula, IsRule};

use crate::premises::nodes::{Adds, NodeRule, Nodes};
use jh_arena::table::{Shape, Table};

/// The rule that adds both parts of a conjunction.
pub fn conjuncts(table: &Table, node: usize) -> Option<NodeRule>
    requires node { IsFormula (nodes table.now) node }
    ensures rule { option_rule (nodes table.now) result ≡ conjunction_rule (formula_at (nodes table.now) node) }
    ensures there { IsRule (nodes table.now) result }
{
    match table.shape(node) {
        Shape::And(left, right) => Some(NodeRule {
            needs: Nodes::One(node),
            adds: Adds::Goes(Nodes::Two(left, right)),
        }),
        _ => None,
    }
}

/// The rule that makes a branch for each part of a disjunction.
pub fn disjuncts(table: &Table, node: usize) -> Option<NodeRule>
    requires node { IsFormula (nodes table.now) node }
    ensures rule { option_rule (nodes table.now) result ≡ disjunction_rule (formula_at (nodes table.now) node) }
    ensures there { IsRule (nodes table.now) result }
{
    match table.shape(node) {
        Shape::Or(left, right) => Some(NodeRule {
            needs: Nodes::One(node),
            adds: Adds::Splits(Nodes::One(left), Nodes::One(right)),
        }),
        _ => None,
    }
}

/// The rule that closes where a fact is refuted at sight.
pub fn refuted(table: &Table, node: usize) -> Option<NodeRule>
    requires node { IsFormula (nodes table.now) node }
    ensures rule { option_rule (nodes table.now) result ≡ rule_of (d.reflexive (formula_at (nodes table.now) node)) }
    ensures there { IsRule (nodes table.now) result }
{
    let _count = table.len();
    Some(NodeRule {
        needs: Nodes::One(node),
        adds: Adds::Closes,
    })
}
