// Written by tools/makers.py.
#![tactic(auto, unfolding(crate::specs::table::Nodes::fits, crate::specs::table::Nodes::shape_tree))]

ghost use Rattle.std.specs.Prelude.{◌≡◌, true, IfOk, Some, slice_get};
ghost use Rattle.jh_form.specs.Tree.{of_truth};
ghost use Rattle.jh_form.specs.Tree as t;
ghost use Rattle.jh_arena.specs.table.Entries.{is_field, is_number, is_object, is_set, is_truth, the_field, the_number, the_object, the_set, the_truth};
ghost use Rattle.jh_arena.specs.table.Growth.{Extends};
ghost use Rattle.jh_arena.specs.table.Nodes.{nodes};

use crate::table::{Shape, Table};
use jh_boxed::jh_name::NoMemory;

/// The node of the formula that is true.
pub fn truth(table: &mut Table) -> Result<usize, NoMemory>
    ensures node { IfOk result (λ made. slice_get (nodes table.new) made ≡ Some (of_truth t.true_formula)) }
    ensures grows { Extends table.old table.new }
{
    table.make(Shape::True)
}

/// The node of the formula that is false.
pub fn falsehood(table: &mut Table) -> Result<usize, NoMemory>
    ensures node { IfOk result (λ made. slice_get (nodes table.new) made ≡ Some (of_truth t.false_formula)) }
    ensures grows { Extends table.old table.new }
{
    table.make(Shape::False)
}

/// The node of a read of a truth field.
pub fn read_truth(table: &mut Table, a: usize, b: usize) -> Result<usize, NoMemory>
    requires a { is_field (slice_get (nodes table.old) a) ≡ true }
    requires b { is_object (slice_get (nodes table.old) b) ≡ true }
    ensures node { IfOk result (λ made. slice_get (nodes table.new) made ≡ Some (of_truth (t.read_truth (the_field (slice_get (nodes table.old) a)) (the_object (slice_get (nodes table.old) b))))) }
    ensures grows { Extends table.old table.new }
{
    table.make(Shape::ReadTruth(a, b))
}

/// The node of a negation.
pub fn negation(table: &mut Table, a: usize) -> Result<usize, NoMemory>
    requires a { is_truth (slice_get (nodes table.old) a) ≡ true }
    ensures node { IfOk result (λ made. slice_get (nodes table.new) made ≡ Some (of_truth (t.negation (the_truth (slice_get (nodes table.old) a))))) }
    ensures grows { Extends table.old table.new }
{
    table.make(Shape::Negation(a))
}

/// The node of a conjunction.
pub fn conjunction(table: &mut Table, a: usize, b: usize) -> Result<usize, NoMemory>
    requires a { is_truth (slice_get (nodes table.old) a) ≡ true }
    requires b { is_truth (slice_get (nodes table.old) b) ≡ true }
    ensures node { IfOk result (λ made. slice_get (nodes table.new) made ≡ Some (of_truth (t.and (the_truth (slice_get (nodes table.old) a)) (the_truth (slice_get (nodes table.old) b))))) }
    ensures grows { Extends table.old table.new }
{
    table.make(Shape::And(a, b))
}

/// The node of a disjunction.
pub fn disjunction(table: &mut Table, a: usize, b: usize) -> Result<usize, NoMemory>
    requires a { is_truth (slice_get (nodes table.old) a) ≡ true }
    requires b { is_truth (slice_get (nodes table.old) b) ≡ true }
    ensures node { IfOk result (λ made. slice_get (nodes table.new) made ≡ Some (of_truth (t.or (the_truth (slice_get (nodes table.old) a)) (the_truth (slice_get (nodes table.old) b))))) }
    ensures grows { Extends table.old table.new }
{
    table.make(Shape::Or(a, b))
}

/// The node of an implication.
pub fn implication(table: &mut Table, a: usize, b: usize) -> Result<usize, NoMemory>
    requires a { is_truth (slice_get (nodes table.old) a) ≡ true }
    requires b { is_truth (slice_get (nodes table.old) b) ≡ true }
    ensures node { IfOk result (λ made. slice_get (nodes table.new) made ≡ Some (of_truth (t.implies (the_truth (slice_get (nodes table.old) a)) (the_truth (slice_get (nodes table.old) b))))) }
    ensures grows { Extends table.old table.new }
{
    table.make(Shape::Implies(a, b))
}

/// The node of an equivalence.
pub fn equivalence(table: &mut Table, a: usize, b: usize) -> Result<usize, NoMemory>
    requires a { is_truth (slice_get (nodes table.old) a) ≡ true }
    requires b { is_truth (slice_get (nodes table.old) b) ≡ true }
    ensures node { IfOk result (λ made. slice_get (nodes table.new) made ≡ Some (of_truth (t.iff (the_truth (slice_get (nodes table.old) a)) (the_truth (slice_get (nodes table.old) b))))) }
    ensures grows { Extends table.old table.new }
{
    table.make(Shape::Iff(a, b))
}

/// The node of a formula said of all objects, as the variable of a binder.
pub fn for_all(table: &mut Table, a: usize) -> Result<usize, NoMemory>
    requires a { is_truth (slice_get (nodes table.old) a) ≡ true }
    ensures node { IfOk result (λ made. slice_get (nodes table.new) made ≡ Some (of_truth (t.all (the_truth (slice_get (nodes table.old) a))))) }
    ensures grows { Extends table.old table.new }
{
    table.make(Shape::All(a))
}

/// The node of a formula said of some object, as the variable of a binder.
pub fn for_some(table: &mut Table, a: usize) -> Result<usize, NoMemory>
    requires a { is_truth (slice_get (nodes table.old) a) ≡ true }
    ensures node { IfOk result (λ made. slice_get (nodes table.new) made ≡ Some (of_truth (t.ex (the_truth (slice_get (nodes table.old) a))))) }
    ensures grows { Extends table.old table.new }
{
    table.make(Shape::Ex(a))
}

/// The node of an equation of objects.
pub fn same_object(table: &mut Table, a: usize, b: usize) -> Result<usize, NoMemory>
    requires a { is_object (slice_get (nodes table.old) a) ≡ true }
    requires b { is_object (slice_get (nodes table.old) b) ≡ true }
    ensures node { IfOk result (λ made. slice_get (nodes table.new) made ≡ Some (of_truth (t.eq_object (the_object (slice_get (nodes table.old) a)) (the_object (slice_get (nodes table.old) b))))) }
    ensures grows { Extends table.old table.new }
{
    table.make(Shape::EqObject(a, b))
}

/// The node of an equation of numbers.
pub fn same_number(table: &mut Table, a: usize, b: usize) -> Result<usize, NoMemory>
    requires a { is_number (slice_get (nodes table.old) a) ≡ true }
    requires b { is_number (slice_get (nodes table.old) b) ≡ true }
    ensures node { IfOk result (λ made. slice_get (nodes table.new) made ≡ Some (of_truth (t.eq_number (the_number (slice_get (nodes table.old) a)) (the_number (slice_get (nodes table.old) b))))) }
    ensures grows { Extends table.old table.new }
{
    table.make(Shape::EqNumber(a, b))
}

/// The node of an equation of sets.
pub fn same_set(table: &mut Table, a: usize, b: usize) -> Result<usize, NoMemory>
    requires a { is_set (slice_get (nodes table.old) a) ≡ true }
    requires b { is_set (slice_get (nodes table.old) b) ≡ true }
    ensures node { IfOk result (λ made. slice_get (nodes table.new) made ≡ Some (of_truth (t.eq_set (the_set (slice_get (nodes table.old) a)) (the_set (slice_get (nodes table.old) b))))) }
    ensures grows { Extends table.old table.new }
{
    table.make(Shape::EqSet(a, b))
}

/// The node of that one number is less than another.
pub fn less(table: &mut Table, a: usize, b: usize) -> Result<usize, NoMemory>
    requires a { is_number (slice_get (nodes table.old) a) ≡ true }
    requires b { is_number (slice_get (nodes table.old) b) ≡ true }
    ensures node { IfOk result (λ made. slice_get (nodes table.new) made ≡ Some (of_truth (t.less (the_number (slice_get (nodes table.old) a)) (the_number (slice_get (nodes table.old) b))))) }
    ensures grows { Extends table.old table.new }
{
    table.make(Shape::Less(a, b))
}

/// The node of that one number is at most another.
pub fn at_most(table: &mut Table, a: usize, b: usize) -> Result<usize, NoMemory>
    requires a { is_number (slice_get (nodes table.old) a) ≡ true }
    requires b { is_number (slice_get (nodes table.old) b) ≡ true }
    ensures node { IfOk result (λ made. slice_get (nodes table.new) made ≡ Some (of_truth (t.less_equal (the_number (slice_get (nodes table.old) a)) (the_number (slice_get (nodes table.old) b))))) }
    ensures grows { Extends table.old table.new }
{
    table.make(Shape::LessEqual(a, b))
}

/// The node of that a number divides another.
pub fn divides(table: &mut Table, number: i64, a: usize) -> Result<usize, NoMemory>
    requires a { is_number (slice_get (nodes table.old) a) ≡ true }
    ensures node { IfOk result (λ made. slice_get (nodes table.new) made ≡ Some (of_truth (t.divides number (the_number (slice_get (nodes table.old) a))))) }
    ensures grows { Extends table.old table.new }
{
    table.make(Shape::Divides(number, a))
}

/// The node of that an object is in a set.
pub fn member(table: &mut Table, a: usize, b: usize) -> Result<usize, NoMemory>
    requires a { is_object (slice_get (nodes table.old) a) ≡ true }
    requires b { is_set (slice_get (nodes table.old) b) ≡ true }
    ensures node { IfOk result (λ made. slice_get (nodes table.new) made ≡ Some (of_truth (t.member (the_object (slice_get (nodes table.old) a)) (the_set (slice_get (nodes table.old) b))))) }
    ensures grows { Extends table.old table.new }
{
    table.make(Shape::Member(a, b))
}

/// The node of that a set lies in another.
pub fn subset(table: &mut Table, a: usize, b: usize) -> Result<usize, NoMemory>
    requires a { is_set (slice_get (nodes table.old) a) ≡ true }
    requires b { is_set (slice_get (nodes table.old) b) ≡ true }
    ensures node { IfOk result (λ made. slice_get (nodes table.new) made ≡ Some (of_truth (t.subset (the_set (slice_get (nodes table.old) a)) (the_set (slice_get (nodes table.old) b))))) }
    ensures grows { Extends table.old table.new }
{
    table.make(Shape::Subset(a, b))
}
