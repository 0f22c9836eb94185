use crate::forming::{conjunction, disjunction, equivalence, existence, negation, universal};
use crate::lines::add_step;
use crate::nodes::shape_of;
use crate::stating::Stated;
use jh_arena::table::{Shape, Table};
use jh_derivation_steps::premises::NodeStep;
use jh_name::NoMemory;

/// What a formula says, where it holds or doesn't.
#[derive(Clone, Copy)]
pub enum Form {
    /// The same as another one.
    Same(Stated),
    /// Both of two.
    Both(Stated, Stated),
    /// One of two.
    Either(Stated, Stated),
    /// That two formulas are equivalent, or that they aren't.
    Alike(usize, usize),
    /// That each object makes a body say this.
    Each(Stated),
    /// That some object makes a body say this.
    Some(Stated),
    /// A literal.
    Literal,
}

/// A formula with the opposite sign of one that says whether it holds.
fn against(formula: usize, holds: bool) -> Stated {
    Stated {
        formula,
        holds: !holds,
    }
}

/// A formula with a sign.
fn with(formula: usize, holds: bool) -> Stated {
    Stated { formula, holds }
}

/// Both of two, or one of them.
fn joined(first: Stated, second: Stated, conjoined: bool) -> Form {
    if conjoined {
        Form::Both(first, second)
    } else {
        Form::Either(first, second)
    }
}

/// A body said of each object, or of some.
fn quantified(body: Stated, each: bool) -> Form {
    if each {
        Form::Each(body)
    } else {
        Form::Some(body)
    }
}

/// What a formula says that holds or doesn't.
pub fn form_of(table: &Table, said: Stated) -> Form {
    let holds = said.holds;
    match shape_of(table, said.formula) {
        Shape::Negation(a) => Form::Same(against(a, holds)),
        Shape::And(a, b) => joined(with(a, holds), with(b, holds), holds),
        Shape::Or(a, b) => joined(with(a, holds), with(b, holds), !holds),
        Shape::Implies(a, b) => joined(against(a, holds), with(b, holds), !holds),
        Shape::Iff(a, b) => Form::Alike(a, b),
        Shape::All(a) => quantified(with(a, holds), holds),
        Shape::Ex(a) => quantified(with(a, holds), !holds),
        _ => Form::Literal,
    }
}

/// The node of one of two formulas joined, where both are denied.
fn denied_both(table: &mut Table, a: usize, b: usize, conjoined: bool) -> Result<usize, NoMemory> {
    let left = negation(table, a)?;
    let right = negation(table, b)?;
    if conjoined {
        conjunction(table, left, right)
    } else {
        disjunction(table, left, right)
    }
}

/// The node of that the first of two formulas is true and the second isn't.
fn without(table: &mut Table, a: usize, b: usize) -> Result<usize, NoMemory> {
    let right = negation(table, b)?;
    conjunction(table, a, right)
}

/// The node of that two formulas aren't equivalent: the first is to the negation of the second.
fn unlike(table: &mut Table, a: usize, b: usize) -> Result<usize, NoMemory> {
    let right = negation(table, b)?;
    equivalence(table, a, right)
}

/// The node of a body that is denied of each object, or of some.
fn denied_body(table: &mut Table, a: usize, each: bool) -> Result<usize, NoMemory> {
    let body = negation(table, a)?;
    if each {
        universal(table, body)
    } else {
        existence(table, body)
    }
}

/// The node of the negation of a formula, pushed one level in. The answer is want of memory where there is none.
fn pushed(table: &mut Table, formula: usize) -> Result<usize, NoMemory> {
    match shape_of(table, formula) {
        Shape::Negation(a) => Ok(a),
        Shape::And(a, b) => denied_both(table, a, b, false),
        Shape::Or(a, b) => denied_both(table, a, b, true),
        Shape::Implies(a, b) => without(table, a, b),
        Shape::Iff(a, b) => unlike(table, a, b),
        Shape::All(a) => denied_body(table, a, false),
        Shape::Ex(a) => denied_body(table, a, true),
        _ => Err(NoMemory),
    }
}

/// The node of a fact in which a negation in front is pushed in, and the step that does so.
fn turned(table: &mut Table, steps: &mut Vec<NodeStep>, said: Stated) -> Result<usize, NoMemory> {
    if said.holds {
        return Ok(said.formula);
    }
    let fact = negation(table, said.formula)?;
    steps.push(NodeStep::Inward(fact))?;
    pushed(table, said.formula)
}

/// Writes the step that takes a connective apart.
fn take_apart(table: &Table, steps: &mut Vec<NodeStep>, fact: usize) -> Result<(), NoMemory> {
    match shape_of(table, fact) {
        Shape::And(_, _) => add_step(steps, NodeStep::Conjuncts(fact)),
        Shape::Or(_, _) => add_step(steps, NodeStep::Disjuncts(fact)),
        Shape::Implies(_, _) => add_step(steps, NodeStep::Implication(fact)),
        Shape::Iff(_, _) => add_step(steps, NodeStep::Equivalence(fact)),
        _ => Ok(()),
    }
}

/// Writes the steps that lay a fact open as far as its outermost connective goes. After them both of two formulas are facts; one of
/// two makes two branches; an equivalence makes two, of which the first has both sides. The answer is the node of the fact without
/// a negation in front: where it speaks of each object or of some, the quantifier stands there.
pub fn laid_open(
    table: &mut Table,
    steps: &mut Vec<NodeStep>,
    said: Stated,
) -> Result<usize, NoMemory> {
    match form_of(table, said) {
        Form::Literal => Ok(said.formula),
        Form::Same(_) => turned(table, steps, said),
        _ => {
            let fact = turned(table, steps, said)?;
            take_apart(table, steps, fact)?;
            Ok(fact)
        }
    }
}
