#![tactic(auto, using(crate::proofs::OperatorSteps::operator_steps, jh_arena::proofs::table::Listed::growth_steps))]

ghost use Rattle.std.specs.Prelude.{◌≡◌, ◌<◌, Option, IfOk, Some, length, slice_get};
ghost use Rattle.jh_form.specs.Tree.{of_truth, of_set, of_number};
ghost use Rattle.jh_form.specs.Tree as t;
ghost use Rattle.jh_form.specs.Sorts.{tree_sort};
ghost use Rattle.jh_arena.specs.table.Entries.{the_value};
ghost use Rattle.jh_arena.specs.table.Growth.{Extends};
ghost use Rattle.jh_arena.specs.table.Nodes.{nodes};
ghost use Rattle.jh_vars.specs.Resolved as r;

use crate::coercing::{both, coerced, sorts_are_one};
use jh_arena::table::{Shape, Table};
use jh_ast::SpecOp;
use jh_name::{NoMemory, Sort};

/// The node of an implication.
fn implication(table: &mut Table, left: usize, right: usize) -> Result<usize, NoMemory>
    requires left { left < length (nodes table.old) }
    requires right { right < length (nodes table.old) }
    ensures node { IfOk result (λ made. slice_get (nodes table.new) made ≡ Some (of_truth (t.implies (r.as_truth (the_value (slice_get (nodes table.old) left))) (r.as_truth (the_value (slice_get (nodes table.old) right)))))) }
    ensures grows { Extends table.old table.new }
{
    let two = both(table, left, Sort::Bool, right, Sort::Bool)?;
    table.make(Shape::Implies(two.left, two.right))
}

/// The node of a disjunction.
fn disjunction(table: &mut Table, left: usize, right: usize) -> Result<usize, NoMemory>
    requires left { left < length (nodes table.old) }
    requires right { right < length (nodes table.old) }
    ensures node { IfOk result (λ made. slice_get (nodes table.new) made ≡ Some (of_truth (t.or (r.as_truth (the_value (slice_get (nodes table.old) left))) (r.as_truth (the_value (slice_get (nodes table.old) right)))))) }
    ensures grows { Extends table.old table.new }
{
    let two = both(table, left, Sort::Bool, right, Sort::Bool)?;
    table.make(Shape::Or(two.left, two.right))
}

/// The node of a conjunction.
fn conjunction(table: &mut Table, left: usize, right: usize) -> Result<usize, NoMemory>
    requires left { left < length (nodes table.old) }
    requires right { right < length (nodes table.old) }
    ensures node { IfOk result (λ made. slice_get (nodes table.new) made ≡ Some (of_truth (t.and (r.as_truth (the_value (slice_get (nodes table.old) left))) (r.as_truth (the_value (slice_get (nodes table.old) right)))))) }
    ensures grows { Extends table.old table.new }
{
    let two = both(table, left, Sort::Bool, right, Sort::Bool)?;
    table.make(Shape::And(two.left, two.right))
}

/// The node of a union.
fn union_of(table: &mut Table, left: usize, right: usize) -> Result<usize, NoMemory>
    requires left { left < length (nodes table.old) }
    requires right { right < length (nodes table.old) }
    ensures node { IfOk result (λ made. slice_get (nodes table.new) made ≡ Some (of_set (t.union (r.as_set (the_value (slice_get (nodes table.old) left))) (r.as_set (the_value (slice_get (nodes table.old) right)))))) }
    ensures grows { Extends table.old table.new }
{
    let two = both(table, left, Sort::Set, right, Sort::Set)?;
    table.make(Shape::Union(two.left, two.right))
}

/// The node of an intersection.
fn intersection(table: &mut Table, left: usize, right: usize) -> Result<usize, NoMemory>
    requires left { left < length (nodes table.old) }
    requires right { right < length (nodes table.old) }
    ensures node { IfOk result (λ made. slice_get (nodes table.new) made ≡ Some (of_set (t.inter (r.as_set (the_value (slice_get (nodes table.old) left))) (r.as_set (the_value (slice_get (nodes table.old) right)))))) }
    ensures grows { Extends table.old table.new }
{
    let two = both(table, left, Sort::Set, right, Sort::Set)?;
    table.make(Shape::Inter(two.left, two.right))
}

/// The node of a sum.
fn sum(table: &mut Table, left: usize, right: usize) -> Result<usize, NoMemory>
    requires left { left < length (nodes table.old) }
    requires right { right < length (nodes table.old) }
    ensures node { IfOk result (λ made. slice_get (nodes table.new) made ≡ Some (of_number (t.add (r.as_number (the_value (slice_get (nodes table.old) left))) (r.as_number (the_value (slice_get (nodes table.old) right)))))) }
    ensures grows { Extends table.old table.new }
{
    let two = both(table, left, Sort::Int, right, Sort::Int)?;
    table.make(Shape::Add(two.left, two.right))
}

/// The node of an equality of two values at a sort.
fn equal_at(table: &mut Table, sort: Sort, left: usize, right: usize) -> Result<usize, NoMemory>
    requires left { left < length (nodes table.old) }
    requires right { right < length (nodes table.old) }
    ensures node { IfOk result (λ made. slice_get (nodes table.new) made ≡ Some (of_truth (r.equal_at sort (the_value (slice_get (nodes table.old) left)) (the_value (slice_get (nodes table.old) right))))) }
    ensures grows { Extends table.old table.new }
{
    match sort {
        Sort::Obj => {
            let two = both(table, left, Sort::Obj, right, Sort::Obj)?;
            table.make(Shape::EqObject(two.left, two.right))
        }
        Sort::Int => {
            let two = both(table, left, Sort::Int, right, Sort::Int)?;
            table.make(Shape::EqNumber(two.left, two.right))
        }
        Sort::Set => {
            let two = both(table, left, Sort::Set, right, Sort::Set)?;
            table.make(Shape::EqSet(two.left, two.right))
        }
        Sort::Bool => {
            let two = both(table, left, Sort::Bool, right, Sort::Bool)?;
            table.make(Shape::Iff(two.left, two.right))
        }
        Sort::Field => table.make(Shape::True),
    }
}

/// The node of an equality of two values, at the sort of the left.
fn equal(table: &mut Table, left: usize, right: usize) -> Result<usize, NoMemory>
    requires left { left < length (nodes table.old) }
    requires right { right < length (nodes table.old) }
    ensures node { IfOk result (λ made. slice_get (nodes table.new) made ≡ Some (of_truth (r.equal (the_value (slice_get (nodes table.old) left)) (the_value (slice_get (nodes table.old) right))))) }
    ensures grows { Extends table.old table.new }
{
    let sort = table.sort(left);
    equal_at(table, sort, left, right)
}

/// The node of a membership.
fn member(table: &mut Table, left: usize, right: usize) -> Result<usize, NoMemory>
    requires left { left < length (nodes table.old) }
    requires right { right < length (nodes table.old) }
    ensures node { IfOk result (λ made. slice_get (nodes table.new) made ≡ Some (of_truth (t.member (r.as_object (the_value (slice_get (nodes table.old) left))) (r.as_set (the_value (slice_get (nodes table.old) right)))))) }
    ensures grows { Extends table.old table.new }
{
    let two = both(table, left, Sort::Obj, right, Sort::Set)?;
    table.make(Shape::Member(two.left, two.right))
}

/// The node of a comparison of numbers.
fn less(table: &mut Table, left: usize, right: usize) -> Result<usize, NoMemory>
    requires left { left < length (nodes table.old) }
    requires right { right < length (nodes table.old) }
    ensures node { IfOk result (λ made. slice_get (nodes table.new) made ≡ Some (of_truth (t.less (r.as_number (the_value (slice_get (nodes table.old) left))) (r.as_number (the_value (slice_get (nodes table.old) right)))))) }
    ensures grows { Extends table.old table.new }
{
    let two = both(table, left, Sort::Int, right, Sort::Int)?;
    table.make(Shape::Less(two.left, two.right))
}

/// Whether a value is a set.
fn is_of_sets(table: &Table, node: usize) -> bool
    requires { node < length (nodes table.now) }
    ensures { result ≡ r.is_of_sets (the_value (slice_get (nodes table.now) node)) }
{
    sorts_are_one(Sort::Set, table.sort(node))
}

/// The node of an order of numbers, or of an inclusion of sets.
fn at_most(table: &mut Table, left: usize, right: usize) -> Result<usize, NoMemory>
    requires left { left < length (nodes table.old) }
    requires right { right < length (nodes table.old) }
    ensures node { IfOk result (λ made. slice_get (nodes table.new) made ≡ Some (of_truth (r.at_most (the_value (slice_get (nodes table.old) left)) (the_value (slice_get (nodes table.old) right))))) }
    ensures grows { Extends table.old table.new }
{
    if is_of_sets(table, left) {
        let two = both(table, left, Sort::Set, right, Sort::Set)?;
        table.make(Shape::Subset(two.left, two.right))
    } else {
        let two = both(table, left, Sort::Int, right, Sort::Int)?;
        table.make(Shape::LessEqual(two.left, two.right))
    }
}

/// The node of a difference of numbers or of sets.
fn difference(table: &mut Table, left: usize, right: usize) -> Result<usize, NoMemory>
    requires left { left < length (nodes table.old) }
    requires right { right < length (nodes table.old) }
    ensures node { IfOk result (λ made. slice_get (nodes table.new) made ≡ Some (r.difference (the_value (slice_get (nodes table.old) left)) (the_value (slice_get (nodes table.old) right)))) }
    ensures grows { Extends table.old table.new }
{
    if is_of_sets(table, left) {
        let two = both(table, left, Sort::Set, right, Sort::Set)?;
        table.make(Shape::Diff(two.left, two.right))
    } else {
        let two = both(table, left, Sort::Int, right, Sort::Int)?;
        table.make(Shape::Sub(two.left, two.right))
    }
}

/// The node of a negated number, or of the complement of a set.
pub fn opposite(table: &mut Table, inner: usize) -> Result<usize, NoMemory>
    requires { inner < length (nodes table.old) }
    ensures node { IfOk result (λ made. slice_get (nodes table.new) made ≡ Some (r.opposite (the_value (slice_get (nodes table.old) inner)))) }
    ensures grows { Extends table.old table.new }
{
    if is_of_sets(table, inner) {
        let set = coerced(table, inner, Sort::Set)?;
        table.make(Shape::Compl(set))
    } else {
        let number = coerced(table, inner, Sort::Int)?;
        table.make(Shape::Neg(number))
    }
}

/// The node of a number so many times, or of the number itself where no factor is known.
fn multiple(table: &mut Table, factor: Option<i64>, inner: usize) -> Result<usize, NoMemory>
    requires { inner < length (nodes table.old) }
    ensures node { IfOk result (λ made. slice_get (nodes table.new) made ≡ Some (r.multiple factor (the_value (slice_get (nodes table.old) inner)))) }
    ensures grows { Extends table.old table.new }
{
    let number = coerced(table, inner, Sort::Int)?;
    match factor {
        None => Ok(number),
        Some(factor) => table.make(Shape::Scale(factor, number)),
    }
}

/// The operands of an operator, each with the number that it is as a literal.
#[derive(Clone, Copy)]
pub struct Operands {
    pub left_literal: Option<i64>,
    pub left: usize,
    pub right_literal: Option<i64>,
    pub right: usize,
}

/// The node of a product.
fn product(table: &mut Table, operands: Operands) -> Result<usize, NoMemory>
    requires left { operands.left < length (nodes table.old) }
    requires right { operands.right < length (nodes table.old) }
    ensures node { IfOk result (λ made. slice_get (nodes table.new) made ≡ Some (r.scaled operands.left_literal operands.right_literal (the_value (slice_get (nodes table.old) operands.left)) (the_value (slice_get (nodes table.old) operands.right)))) }
    ensures grows { Extends table.old table.new }
{
    match operands.left_literal {
        None => multiple(table, operands.right_literal, operands.left),
        Some(factor) => multiple(table, Some(factor), operands.right),
    }
}

/// The node of the negation of an equality.
fn unequal(table: &mut Table, left: usize, right: usize) -> Result<usize, NoMemory>
    requires left { left < length (nodes table.old) }
    requires right { right < length (nodes table.old) }
    ensures node { IfOk result (λ made. slice_get (nodes table.new) made ≡ Some (of_truth (t.negation (r.equal (the_value (slice_get (nodes table.old) left)) (the_value (slice_get (nodes table.old) right)))))) }
    ensures grows { Extends table.old table.new }
{
    let equal = equal(table, left, right)?;
    table.make(Shape::Negation(equal))
}

/// The node of the negation of a membership.
fn not_member(table: &mut Table, left: usize, right: usize) -> Result<usize, NoMemory>
    requires left { left < length (nodes table.old) }
    requires right { right < length (nodes table.old) }
    ensures node { IfOk result (λ made. slice_get (nodes table.new) made ≡ Some (of_truth (t.negation (t.member (r.as_object (the_value (slice_get (nodes table.old) left))) (r.as_set (the_value (slice_get (nodes table.old) right))))))) }
    ensures grows { Extends table.old table.new }
{
    let member = member(table, left, right)?;
    table.make(Shape::Negation(member))
}

/// The node of two values with an operator between them.
pub fn operated(table: &mut Table, op: SpecOp, operands: Operands) -> Result<usize, NoMemory>
    requires left { operands.left < length (nodes table.old) }
    requires right { operands.right < length (nodes table.old) }
    ensures node { IfOk result (λ made. slice_get (nodes table.new) made ≡ Some (r.binary op operands.left_literal (the_value (slice_get (nodes table.old) operands.left)) operands.right_literal (the_value (slice_get (nodes table.old) operands.right)))) }
    ensures grows { Extends table.old table.new }
{
    let Operands { left, right, .. } = operands;
    match op {
        SpecOp::Implies => implication(table, left, right),
        SpecOp::Or => disjunction(table, left, right),
        SpecOp::And => conjunction(table, left, right),
        SpecOp::Equal => equal(table, left, right),
        SpecOp::NotEqual => unequal(table, left, right),
        SpecOp::Elem => member(table, left, right),
        SpecOp::NotElem => not_member(table, left, right),
        SpecOp::Less => less(table, left, right),
        SpecOp::Greater => less(table, right, left),
        SpecOp::LessEq => at_most(table, left, right),
        SpecOp::GreaterEq => at_most(table, right, left),
        SpecOp::Union => union_of(table, left, right),
        SpecOp::Inter => intersection(table, left, right),
        SpecOp::Add => sum(table, left, right),
        SpecOp::Sub => difference(table, left, right),
        SpecOp::Mul => product(table, operands),
    }
}
