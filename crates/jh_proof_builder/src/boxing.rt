ghost use Rattle.std.specs.Prelude.{◌<◌, IsTrue, length};
ghost use Rattle.jh_arena.specs.table.Nodes.{nodes};

use crate::nodes::{is_field, is_formula, is_object};
use jh_arena::table::Table;
use jh_derivation_steps::jh_derivation_rules::{DerivStep, Derivation};
use jh_derivation_steps::premises::NodeStep;
use jh_export::{boxed_field, boxed_formula, boxed_term, value};
use jh_form::{FieldTerm, Formula, Term, Value};
use jh_name::{Kind, Name, NoMemory, Row};

/// How deep an operand of a derivation may nest.
pub const MOST_NESTED: u64 = 4096;

/// Whether the tree of a node nests at most so deep. It takes no memory.
fn is_flat(table: &Table, node: usize) -> bool
    ensures { IsTrue result → node < length (nodes table.now) }
{
    if node >= table.len() {
        return false;
    }
    table.depth(node) <= MOST_NESTED
}

/// The formula of a node. The answer is want of memory where it is none, and where it nests too deep.
fn formula(table: &Table, node: usize) -> Result<Formula, NoMemory> {
    if !is_flat(table, node) {
        return Err(NoMemory);
    }
    if is_formula(table, node) {
        boxed_formula(table, node)
    } else {
        Err(NoMemory)
    }
}

/// The term of a node for an object. The answer is want of memory where it is none, and where it nests too deep.
fn term(table: &Table, node: usize) -> Result<Term, NoMemory> {
    if !is_flat(table, node) {
        return Err(NoMemory);
    }
    if is_object(table, node) {
        boxed_term(table, node)
    } else {
        Err(NoMemory)
    }
}

/// The field of a node. The answer is want of memory where it is none, and where it nests too deep.
fn field(table: &Table, node: usize) -> Result<FieldTerm, NoMemory> {
    if !is_flat(table, node) {
        return Err(NoMemory);
    }
    if is_field(table, node) {
        boxed_field(table, node)
    } else {
        Err(NoMemory)
    }
}

/// The value of a node. The answer is want of memory where there is no such node, and where it nests too deep.
fn any(table: &Table, node: usize) -> Result<Value, NoMemory> {
    if is_flat(table, node) {
        value(table, node)
    } else {
        Err(NoMemory)
    }
}

/// The name of a node for an object. The answer is want of memory where it has none.
fn name_of(table: &Table, node: usize) -> Result<Name, NoMemory> {
    match term(table, node)? {
        Term::Free(name) => Ok(name),
        _ => Err(NoMemory),
    }
}

/// The step of two equal values that are turned round.
fn symmetric(table: &Table, left: usize, right: usize) -> Result<DerivStep, NoMemory> {
    let first = any(table, left)?;
    Ok(DerivStep::Symmetric(first, any(table, right)?))
}

/// The step of two equations that are joined.
fn transitive(
    table: &Table,
    first: usize,
    second: usize,
    third: usize,
) -> Result<DerivStep, NoMemory> {
    let left = any(table, first)?;
    let middle = any(table, second)?;
    Ok(DerivStep::Transitive(left, middle, any(table, third)?))
}

/// The step of a field that is read at both sides of an equation.
fn reading(
    table: &Table,
    kind: Kind,
    node: usize,
    left: usize,
    right: usize,
) -> Result<DerivStep, NoMemory> {
    let made = field(table, node)?;
    let first = term(table, left)?;
    Ok(DerivStep::Read(kind, made, first, term(table, right)?))
}

/// The step of a value that is exchanged in a fact.
fn replacing(
    table: &Table,
    fact: usize,
    made: usize,
    old: usize,
    new: usize,
) -> Result<DerivStep, NoMemory> {
    let from = formula(table, fact)?;
    let to = formula(table, made)?;
    let left = any(table, old)?;
    Ok(DerivStep::Replace(from, to, left, any(table, new)?))
}

/// The step of a universal fact at a term.
fn instance(table: &Table, fact: usize, with: usize) -> Result<DerivStep, NoMemory> {
    let made = formula(table, fact)?;
    Ok(DerivStep::All(made, term(table, with)?))
}

/// The step of an existential fact for a name.
fn witness(table: &Table, fact: usize, name: usize) -> Result<DerivStep, NoMemory> {
    let made = formula(table, fact)?;
    Ok(DerivStep::Exists(made, name_of(table, name)?))
}

/// The step of what an update gives.
fn updating(table: &Table, node: usize) -> Result<DerivStep, NoMemory> {
    Ok(DerivStep::Update(field(table, node)?))
}

/// The formula of a step that has one and no other operand.
fn fact_of(step: NodeStep) -> Option<usize> {
    match step {
        NodeStep::Pair(node) => Some(node),
        NodeStep::Reflexive(node) => Some(node),
        NodeStep::Conjuncts(node) => Some(node),
        NodeStep::Disjuncts(node) => Some(node),
        NodeStep::Implication(node) => Some(node),
        NodeStep::Equivalence(node) => Some(node),
        NodeStep::Inward(node) => Some(node),
        NodeStep::Cut(node) => Some(node),
        NodeStep::Relation(node) => Some(node),
        _ => None,
    }
}

/// A step that has one formula and no other operand, with its formula boxed.
fn over_fact(step: NodeStep, fact: Formula) -> DerivStep {
    match step {
        NodeStep::Pair(_) => DerivStep::Pair(fact),
        NodeStep::Reflexive(_) => DerivStep::Reflexive(fact),
        NodeStep::Conjuncts(_) => DerivStep::And(fact),
        NodeStep::Disjuncts(_) => DerivStep::Or(fact),
        NodeStep::Implication(_) => DerivStep::Implies(fact),
        NodeStep::Equivalence(_) => DerivStep::Iff(fact),
        NodeStep::Inward(_) => DerivStep::Not(fact),
        NodeStep::Cut(_) => DerivStep::Cut(fact),
        _ => DerivStep::Open(fact),
    }
}

/// A step with several operands, or none, boxed. The answer is want of memory where it has one formula, or cites an axiom of reachability: the steps written here cite none.
fn over_several(table: &Table, step: NodeStep) -> Result<DerivStep, NoMemory> {
    match step {
        NodeStep::Absurd => Ok(DerivStep::Absurd),
        NodeStep::Symmetric(left, right) => symmetric(table, left, right),
        NodeStep::Transitive(first, second, third) => transitive(table, first, second, third),
        NodeStep::Reading(kind, node, left, right) => reading(table, kind, node, left, right),
        NodeStep::Replacing(fact, made, old, new) => replacing(table, fact, made, old, new),
        NodeStep::Instance(node, with) => instance(table, node, with),
        NodeStep::Witness(node, name) => witness(table, node, name),
        NodeStep::Updating(node) => updating(table, node),
        _ => Err(NoMemory),
    }
}

/// A step with its operands boxed.
fn boxed(table: &Table, step: NodeStep) -> Result<DerivStep, NoMemory> {
    match fact_of(step) {
        Some(node) => {
            let fact = formula(table, node)?;
            Ok(over_fact(step, fact))
        }
        None => over_several(table, step),
    }
}

/// A derivation of steps whose operands are nodes of a table. The answer is want of memory where an operand has more than MOST_NODES
/// nodes or nests deeper than MOST_NESTED.
pub fn boxed_steps(table: &Table, steps: &[NodeStep]) -> Result<Derivation, NoMemory> {
    let mut made = Vec::new(table.alloc());
    for step in steps {
        made.push(boxed(table, *step)?)?;
    }
    Ok(Derivation {
        steps: Row::of(made),
    })
}
