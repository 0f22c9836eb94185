use jh_name::Kind;

/// No node, one or two.
#[derive(Clone, Copy)]
pub enum Nodes {
    Nothing,
    One(usize),
    Two(usize, usize),
}

/// The branches that a step leads to, each with what it adds.
#[derive(Clone, Copy)]
pub enum Adds {
    Closes,
    Goes(Nodes),
    Splits(Nodes, Nodes),
}

/// What a step needs and where it leads to.
#[derive(Clone, Copy)]
pub struct NodeRule {
    pub needs: Nodes,
    pub adds: Adds,
}

/// A step whose operands are nodes without labels. The name of a witness is the node of its term.
#[derive(Clone, Copy)]
pub enum NodeStep {
    Absurd,
    Pair(usize),
    Reflexive(usize),
    Symmetric(usize, usize),
    Transitive(usize, usize, usize),
    Reading(Kind, usize, usize, usize),
    Replacing(usize, usize, usize, usize),
    Conjuncts(usize),
    Disjuncts(usize),
    Implication(usize),
    Equivalence(usize),
    Inward(usize),
    Instance(usize, usize),
    Witness(usize, usize),
    Cut(usize),
    Updating(usize),
    /// The number of an axiom of reachability, and the node of that its fields are a forest.
    Axiom(u8, usize),
    /// The same with a base: the place of a member, and the update that it is or stands for.
    BasedAxiom(u8, usize, u32, usize),
    Relation(usize),
}
