#![tactic(auto, unfolding(jh_derivation_rules::specs::Rules::rule_adds, jh_derivation_rules::specs::Rules::rule_from, jh_derivation_rules::specs::Rules::rule_from_two, crate::specs::premises::Nodes::option_rule, crate::specs::premises::Nodes::rule_at, crate::specs::premises::Nodes::option_formula, crate::specs::premises::Nodes::formulas_at, crate::specs::premises::Nodes::branches_at, crate::specs::premises::Nodes::IsRule, crate::specs::premises::Nodes::IsMade, crate::specs::premises::Nodes::AreFormulas, crate::specs::premises::Nodes::AreBranches))]

ghost use Rattle.std.specs.Prelude.{◌≡◌, List, [], ◌∷◌, Some};
ghost use Rattle.jh_form.specs.Tree.{ValueTree};
ghost use Rattle.jh_derivation_rules.specs.Rules.{rule_adds, rule_from, rule_from_two};
ghost use Rattle.jh_derivation_steps.specs.premises.Nodes.{formula_at, formulas_at, option_formula, option_rule, AreFormulas, IsFormula, IsMade, IsRule};

use crate::premises::nodes::{Adds, NodeRule, Nodes};

/// The rule that adds one formula, where there is one.
pub fn adding(needs: Nodes, made: Option<usize>) -> Option<NodeRule>
    ensures rule { (ts : List ValueTree) → option_rule ts result ≡ rule_adds (formulas_at ts needs) (option_formula ts made) }
    ensures there { (ts : List ValueTree) → AreFormulas ts needs → IsMade ts made → IsRule ts result }
{
    match made {
        Some(node) => Some(NodeRule {
            needs,
            adds: Adds::Goes(Nodes::One(node)),
        }),
        None => None,
    }
}

/// The rule that needs an equation and adds one formula, where there are both.
pub fn from_one(equation: Option<usize>, made: Option<usize>) -> Option<NodeRule>
    ensures rule { (ts : List ValueTree) → option_rule ts result ≡ rule_from (option_formula ts equation) [] (option_formula ts made) }
    ensures there { (ts : List ValueTree) → IsMade ts equation → IsMade ts made → IsRule ts result }
{
    match equation {
        Some(node) => adding(Nodes::One(node), made),
        None => None,
    }
}

/// The rule that needs an equation and a fact and adds a formula, where there is the equation.
pub fn from_fact(equation: Option<usize>, fact: usize, made: usize) -> Option<NodeRule>
    ensures rule { (ts : List ValueTree) → option_rule ts result ≡ rule_from (option_formula ts equation) (formula_at ts fact ∷ []) (Some (formula_at ts made)) }
    ensures there { (ts : List ValueTree) → IsMade ts equation → IsFormula ts fact → IsFormula ts made → IsRule ts result }
{
    match equation {
        Some(node) => Some(NodeRule {
            needs: Nodes::Two(node, fact),
            adds: Adds::Goes(Nodes::One(made)),
        }),
        None => None,
    }
}

/// The rule that needs two equations and adds one formula, where there are all three.
pub fn from_two(
    first: Option<usize>,
    second: Option<usize>,
    made: Option<usize>,
) -> Option<NodeRule>
    ensures rule { (ts : List ValueTree) → option_rule ts result ≡ rule_from_two (option_formula ts first) (option_formula ts second) (option_formula ts made) }
    ensures there { (ts : List ValueTree) → IsMade ts first → IsMade ts second → IsMade ts made → IsRule ts result }
{
    match first {
        Some(node) => behind(node, second, made),
        None => None,
    }
}

fn behind(first: usize, second: Option<usize>, made: Option<usize>) -> Option<NodeRule>
    ensures rule { (ts : List ValueTree) → option_rule ts result ≡ rule_from (option_formula ts second) (formula_at ts first ∷ []) (option_formula ts made) }
    ensures there { (ts : List ValueTree) → IsFormula ts first → IsMade ts second → IsMade ts made → IsRule ts result }
{
    match second {
        Some(node) => adding(Nodes::Two(node, first), made),
        None => None,
    }
}
