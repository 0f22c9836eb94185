use jh_arena::table::Table;
use jh_deriv::jh_derivation_steps::premises::NodeStep;

/// How many nodes the operands of a derivation may have in all, each counted where it stands: a derivation is boxed, and shares nothing.
const MOST_IN_ALL: u64 = 1 << 22;

/// The number of nodes of an operand, each counted where it stands; 0 where there is no such node.
fn weight(table: &Table, node: usize) -> u64 {
    if node < table.len() {
        table.size(node)
    } else {
        0
    }
}

/// The same of two operands.
fn weight_of_two(table: &Table, first: usize, second: usize) -> u64 {
    weight(table, first).saturating_add(weight(table, second))
}

/// The same of all operands of a step.
fn weight_of_step(table: &Table, step: NodeStep) -> u64 {
    match step {
        NodeStep::Absurd => 0,
        NodeStep::Pair(fact) => weight(table, fact),
        NodeStep::Reflexive(fact) => weight(table, fact),
        NodeStep::Symmetric(left, right) => weight_of_two(table, left, right),
        NodeStep::Transitive(first, second, third) => {
            weight_of_two(table, first, second).saturating_add(weight(table, third))
        }
        NodeStep::Reading(_, field, left, right) => {
            weight_of_two(table, left, right).saturating_add(weight(table, field))
        }
        NodeStep::Replacing(fact, made, old, new) => {
            weight_of_two(table, fact, made).saturating_add(weight_of_two(table, old, new))
        }
        NodeStep::Conjuncts(fact) => weight(table, fact),
        NodeStep::Disjuncts(fact) => weight(table, fact),
        NodeStep::Implication(fact) => weight(table, fact),
        NodeStep::Equivalence(fact) => weight(table, fact),
        NodeStep::Inward(fact) => weight(table, fact),
        NodeStep::Instance(fact, term) => weight_of_two(table, fact, term),
        NodeStep::Witness(fact, name) => weight_of_two(table, fact, name),
        NodeStep::Cut(fact) => weight(table, fact),
        NodeStep::Updating(field) => weight(table, field),
        NodeStep::Axiom(_, forest) => weight(table, forest),
        NodeStep::BasedAxiom(_, forest, _, base) => weight_of_two(table, forest, base),
        NodeStep::Relation(fact) => weight(table, fact),
    }
}

/// Whether the operands of steps have at most MOST_IN_ALL nodes, each counted where it stands.
pub(crate) fn can_be_boxed(table: &Table, steps: &[NodeStep]) -> bool {
    let mut sum: u64 = 0;
    for place in 0..steps.len() {
        sum = sum.saturating_add(weight_of_step(table, steps[place]));
    }
    sum <= MOST_IN_ALL
}
