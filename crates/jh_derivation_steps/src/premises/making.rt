// Written by tools/premises.py.
#![tactic(auto, using(crate::proofs::premises::MakeSteps::make_steps, jh_arena::proofs::table::Listed::growth_steps))]

ghost use Rattle.std.specs.Prelude.{◌≡◌, IfOk, Some, slice_get};
ghost use Rattle.jh_form.specs.Tree.{TermTree, IntTree, SetTree, FieldTree, FormulaTree, of_object, of_number, of_set, of_field, of_truth};
ghost use Rattle.jh_form.specs.Tree as t;
ghost use Rattle.jh_arena.specs.table.Growth.{Extends};
ghost use Rattle.jh_arena.specs.table.Nodes.{nodes};
ghost use Rattle.jh_derivation_steps.specs.premises.Nodes.{IsFormula, IsTerm, IsSet, IsField, IsNumber};

use jh_arena::table::{Shape, Table};
use jh_name::NoMemory;

/// The node of a negation.
pub fn negation(table: &mut Table, a: usize) -> Result<usize, NoMemory>
    requires a { IsFormula (nodes table.old) a }
    ensures made { IfOk result (λ made. (u : FormulaTree) → slice_get (nodes table.old) a ≡ Some (of_truth u) → slice_get (nodes table.new) made ≡ Some (of_truth (t.negation u))) }
    ensures grows { Extends table.old table.new }
{
    table.make(Shape::Negation(a))
}

/// The node of that one of two formulas is false.
pub fn not_both(table: &mut Table, a: usize, b: usize) -> Result<usize, NoMemory>
    requires a { IsFormula (nodes table.old) a }
    requires b { IsFormula (nodes table.old) b }
    ensures made { IfOk result (λ made. (u : FormulaTree) (v : FormulaTree) → slice_get (nodes table.old) a ≡ Some (of_truth u) → slice_get (nodes table.old) b ≡ Some (of_truth v) → slice_get (nodes table.new) made ≡ Some (of_truth (t.or (t.negation u) (t.negation v)))) }
    ensures grows { Extends table.old table.new }
{
    let left = negation(table, a)?;
    let right = negation(table, b)?;
    table.make(Shape::Or(left, right))
}

/// The node of that both of two formulas are false.
pub fn neither(table: &mut Table, a: usize, b: usize) -> Result<usize, NoMemory>
    requires a { IsFormula (nodes table.old) a }
    requires b { IsFormula (nodes table.old) b }
    ensures made { IfOk result (λ made. (u : FormulaTree) (v : FormulaTree) → slice_get (nodes table.old) a ≡ Some (of_truth u) → slice_get (nodes table.old) b ≡ Some (of_truth v) → slice_get (nodes table.new) made ≡ Some (of_truth (t.and (t.negation u) (t.negation v)))) }
    ensures grows { Extends table.old table.new }
{
    let left = negation(table, a)?;
    let right = negation(table, b)?;
    table.make(Shape::And(left, right))
}

/// The node of that the first of two formulas is true and the second false.
pub fn without(table: &mut Table, a: usize, b: usize) -> Result<usize, NoMemory>
    requires a { IsFormula (nodes table.old) a }
    requires b { IsFormula (nodes table.old) b }
    ensures made { IfOk result (λ made. (u : FormulaTree) (v : FormulaTree) → slice_get (nodes table.old) a ≡ Some (of_truth u) → slice_get (nodes table.old) b ≡ Some (of_truth v) → slice_get (nodes table.new) made ≡ Some (of_truth (t.and u (t.negation v)))) }
    ensures grows { Extends table.old table.new }
{
    let right = negation(table, b)?;
    table.make(Shape::And(a, right))
}

/// The node of that one of two formulas is true exactly where the other is false.
pub fn unlike(table: &mut Table, a: usize, b: usize) -> Result<usize, NoMemory>
    requires a { IsFormula (nodes table.old) a }
    requires b { IsFormula (nodes table.old) b }
    ensures made { IfOk result (λ made. (u : FormulaTree) (v : FormulaTree) → slice_get (nodes table.old) a ≡ Some (of_truth u) → slice_get (nodes table.old) b ≡ Some (of_truth v) → slice_get (nodes table.new) made ≡ Some (of_truth (t.iff u (t.negation v)))) }
    ensures grows { Extends table.old table.new }
{
    let right = negation(table, b)?;
    table.make(Shape::Iff(a, right))
}

/// The node of that a formula is false of some object.
pub fn some_not(table: &mut Table, a: usize) -> Result<usize, NoMemory>
    requires a { IsFormula (nodes table.old) a }
    ensures made { IfOk result (λ made. (u : FormulaTree) → slice_get (nodes table.old) a ≡ Some (of_truth u) → slice_get (nodes table.new) made ≡ Some (of_truth (t.ex (t.negation u)))) }
    ensures grows { Extends table.old table.new }
{
    let body = negation(table, a)?;
    table.make(Shape::Ex(body))
}

/// The node of that a formula is true of no object.
pub fn never(table: &mut Table, a: usize) -> Result<usize, NoMemory>
    requires a { IsFormula (nodes table.old) a }
    ensures made { IfOk result (λ made. (u : FormulaTree) → slice_get (nodes table.old) a ≡ Some (of_truth u) → slice_get (nodes table.new) made ≡ Some (of_truth (t.all (t.negation u)))) }
    ensures grows { Extends table.old table.new }
{
    let body = negation(table, a)?;
    table.make(Shape::All(body))
}

/// The node of a membership.
pub fn member(table: &mut Table, x: usize, a: usize) -> Result<usize, NoMemory>
    requires x { IsTerm (nodes table.old) x }
    requires a { IsSet (nodes table.old) a }
    ensures made { IfOk result (λ made. (u : TermTree) (v : SetTree) → slice_get (nodes table.old) x ≡ Some (of_object u) → slice_get (nodes table.old) a ≡ Some (of_set v) → slice_get (nodes table.new) made ≡ Some (of_truth (t.member u v))) }
    ensures grows { Extends table.old table.new }
{
    table.make(Shape::Member(x, a))
}

/// The node of that an object is a member of one of two sets.
pub fn in_either(table: &mut Table, x: usize, a: usize, b: usize) -> Result<usize, NoMemory>
    requires x { IsTerm (nodes table.old) x }
    requires a { IsSet (nodes table.old) a }
    requires b { IsSet (nodes table.old) b }
    ensures made { IfOk result (λ made. (u : TermTree) (v : SetTree) (w : SetTree) → slice_get (nodes table.old) x ≡ Some (of_object u) → slice_get (nodes table.old) a ≡ Some (of_set v) → slice_get (nodes table.old) b ≡ Some (of_set w) → slice_get (nodes table.new) made ≡ Some (of_truth (t.or (t.member u v) (t.member u w)))) }
    ensures grows { Extends table.old table.new }
{
    let left = member(table, x, a)?;
    let right = member(table, x, b)?;
    table.make(Shape::Or(left, right))
}

/// The node of that an object is a member of both sets.
pub fn in_both(table: &mut Table, x: usize, a: usize, b: usize) -> Result<usize, NoMemory>
    requires x { IsTerm (nodes table.old) x }
    requires a { IsSet (nodes table.old) a }
    requires b { IsSet (nodes table.old) b }
    ensures made { IfOk result (λ made. (u : TermTree) (v : SetTree) (w : SetTree) → slice_get (nodes table.old) x ≡ Some (of_object u) → slice_get (nodes table.old) a ≡ Some (of_set v) → slice_get (nodes table.old) b ≡ Some (of_set w) → slice_get (nodes table.new) made ≡ Some (of_truth (t.and (t.member u v) (t.member u w)))) }
    ensures grows { Extends table.old table.new }
{
    let left = member(table, x, a)?;
    let right = member(table, x, b)?;
    table.make(Shape::And(left, right))
}

/// The node of that an object is no member of a set.
pub fn outside(table: &mut Table, x: usize, a: usize) -> Result<usize, NoMemory>
    requires x { IsTerm (nodes table.old) x }
    requires a { IsSet (nodes table.old) a }
    ensures made { IfOk result (λ made. (u : TermTree) (v : SetTree) → slice_get (nodes table.old) x ≡ Some (of_object u) → slice_get (nodes table.old) a ≡ Some (of_set v) → slice_get (nodes table.new) made ≡ Some (of_truth (t.negation (t.member u v)))) }
    ensures grows { Extends table.old table.new }
{
    let inside = member(table, x, a)?;
    table.make(Shape::Negation(inside))
}

/// The node of that an object is a member of the first set and not of the second.
pub fn in_first(table: &mut Table, x: usize, a: usize, b: usize) -> Result<usize, NoMemory>
    requires x { IsTerm (nodes table.old) x }
    requires a { IsSet (nodes table.old) a }
    requires b { IsSet (nodes table.old) b }
    ensures made { IfOk result (λ made. (u : TermTree) (v : SetTree) (w : SetTree) → slice_get (nodes table.old) x ≡ Some (of_object u) → slice_get (nodes table.old) a ≡ Some (of_set v) → slice_get (nodes table.old) b ≡ Some (of_set w) → slice_get (nodes table.new) made ≡ Some (of_truth (t.and (t.member u v) (t.negation (t.member u w))))) }
    ensures grows { Extends table.old table.new }
{
    let left = member(table, x, a)?;
    let right = outside(table, x, b)?;
    table.make(Shape::And(left, right))
}

/// The node of that two sets have the same members.
pub fn same_members(table: &mut Table, a: usize, b: usize) -> Result<usize, NoMemory>
    requires a { IsSet (nodes table.old) a }
    requires b { IsSet (nodes table.old) b }
    ensures made { IfOk result (λ made. (u : SetTree) (v : SetTree) → slice_get (nodes table.old) a ≡ Some (of_set u) → slice_get (nodes table.old) b ≡ Some (of_set v) → slice_get (nodes table.new) made ≡ Some (of_truth (t.all (t.iff (t.member (t.bound 0) u) (t.member (t.bound 0) v))))) }
    ensures grows { Extends table.old table.new }
{
    let object = table.make(Shape::Bound(0))?;
    let left = member(table, object, a)?;
    let right = member(table, object, b)?;
    let body = table.make(Shape::Iff(left, right))?;
    table.make(Shape::All(body))
}

/// The node of that each member of a set is one of another.
pub fn all_members(table: &mut Table, a: usize, b: usize) -> Result<usize, NoMemory>
    requires a { IsSet (nodes table.old) a }
    requires b { IsSet (nodes table.old) b }
    ensures made { IfOk result (λ made. (u : SetTree) (v : SetTree) → slice_get (nodes table.old) a ≡ Some (of_set u) → slice_get (nodes table.old) b ≡ Some (of_set v) → slice_get (nodes table.new) made ≡ Some (of_truth (t.all (t.implies (t.member (t.bound 0) u) (t.member (t.bound 0) v))))) }
    ensures grows { Extends table.old table.new }
{
    let object = table.make(Shape::Bound(0))?;
    let left = member(table, object, a)?;
    let right = member(table, object, b)?;
    let body = table.make(Shape::Implies(left, right))?;
    table.make(Shape::All(body))
}

/// The node of that one formula is true at an object, and another at each other object; the object is the variable of the binder that is made.
pub fn at_each(table: &mut Table, at: usize, a: usize, b: usize) -> Result<usize, NoMemory>
    requires at { IsTerm (nodes table.old) at }
    requires a { IsFormula (nodes table.old) a }
    requires b { IsFormula (nodes table.old) b }
    ensures made { IfOk result (λ made. (u : TermTree) (v : FormulaTree) (w : FormulaTree) → slice_get (nodes table.old) at ≡ Some (of_object u) → slice_get (nodes table.old) a ≡ Some (of_truth v) → slice_get (nodes table.old) b ≡ Some (of_truth w) → slice_get (nodes table.new) made ≡ Some (of_truth (t.all (t.and (t.implies (t.eq_object (t.bound 0) u) v) (t.implies (t.negation (t.eq_object (t.bound 0) u)) w))))) }
    ensures grows { Extends table.old table.new }
{
    let object = table.make(Shape::Bound(0))?;
    let here = table.make(Shape::EqObject(object, at))?;
    let left = table.make(Shape::Implies(here, a))?;
    let elsewhere = negation(table, here)?;
    let right = table.make(Shape::Implies(elsewhere, b))?;
    let body = table.make(Shape::And(left, right))?;
    table.make(Shape::All(body))
}

/// The node of that a field of objects gives the same at two terms.
pub fn same_objects(table: &mut Table, f: usize, a: usize, b: usize) -> Result<usize, NoMemory>
    requires f { IsField (nodes table.old) f }
    requires a { IsTerm (nodes table.old) a }
    requires b { IsTerm (nodes table.old) b }
    ensures made { IfOk result (λ made. (u : FieldTree) (v : TermTree) (w : TermTree) → slice_get (nodes table.old) f ≡ Some (of_field u) → slice_get (nodes table.old) a ≡ Some (of_object v) → slice_get (nodes table.old) b ≡ Some (of_object w) → slice_get (nodes table.new) made ≡ Some (of_truth (t.eq_object (t.read_object u v) (t.read_object u w)))) }
    ensures grows { Extends table.old table.new }
{
    let left = table.make(Shape::ReadObject(f, a))?;
    let right = table.make(Shape::ReadObject(f, b))?;
    table.make(Shape::EqObject(left, right))
}

/// The node of that a field of numbers gives the same at two terms.
pub fn same_numbers(table: &mut Table, f: usize, a: usize, b: usize) -> Result<usize, NoMemory>
    requires f { IsField (nodes table.old) f }
    requires a { IsTerm (nodes table.old) a }
    requires b { IsTerm (nodes table.old) b }
    ensures made { IfOk result (λ made. (u : FieldTree) (v : TermTree) (w : TermTree) → slice_get (nodes table.old) f ≡ Some (of_field u) → slice_get (nodes table.old) a ≡ Some (of_object v) → slice_get (nodes table.old) b ≡ Some (of_object w) → slice_get (nodes table.new) made ≡ Some (of_truth (t.eq_number (t.read_number u v) (t.read_number u w)))) }
    ensures grows { Extends table.old table.new }
{
    let left = table.make(Shape::ReadNumber(f, a))?;
    let right = table.make(Shape::ReadNumber(f, b))?;
    table.make(Shape::EqNumber(left, right))
}

/// The node of that a field of truths gives the same at two terms.
pub fn same_truths(table: &mut Table, f: usize, a: usize, b: usize) -> Result<usize, NoMemory>
    requires f { IsField (nodes table.old) f }
    requires a { IsTerm (nodes table.old) a }
    requires b { IsTerm (nodes table.old) b }
    ensures made { IfOk result (λ made. (u : FieldTree) (v : TermTree) (w : TermTree) → slice_get (nodes table.old) f ≡ Some (of_field u) → slice_get (nodes table.old) a ≡ Some (of_object v) → slice_get (nodes table.old) b ≡ Some (of_object w) → slice_get (nodes table.new) made ≡ Some (of_truth (t.iff (t.read_truth u v) (t.read_truth u w)))) }
    ensures grows { Extends table.old table.new }
{
    let left = table.make(Shape::ReadTruth(f, a))?;
    let right = table.make(Shape::ReadTruth(f, b))?;
    table.make(Shape::Iff(left, right))
}

/// The node of that a field of sets gives the same at two terms.
pub fn same_sets(table: &mut Table, f: usize, a: usize, b: usize) -> Result<usize, NoMemory>
    requires f { IsField (nodes table.old) f }
    requires a { IsTerm (nodes table.old) a }
    requires b { IsTerm (nodes table.old) b }
    ensures made { IfOk result (λ made. (u : FieldTree) (v : TermTree) (w : TermTree) → slice_get (nodes table.old) f ≡ Some (of_field u) → slice_get (nodes table.old) a ≡ Some (of_object v) → slice_get (nodes table.old) b ≡ Some (of_object w) → slice_get (nodes table.new) made ≡ Some (of_truth (t.eq_set (t.read_set u v) (t.read_set u w)))) }
    ensures grows { Extends table.old table.new }
{
    let left = table.make(Shape::ReadSet(f, a))?;
    let right = table.make(Shape::ReadSet(f, b))?;
    table.make(Shape::EqSet(left, right))
}

/// The node of that two objects are equal.
pub fn equal_objects(table: &mut Table, a: usize, b: usize) -> Result<usize, NoMemory>
    requires a { IsTerm (nodes table.old) a }
    requires b { IsTerm (nodes table.old) b }
    ensures made { IfOk result (λ made. (u : TermTree) (v : TermTree) → slice_get (nodes table.old) a ≡ Some (of_object u) → slice_get (nodes table.old) b ≡ Some (of_object v) → slice_get (nodes table.new) made ≡ Some (of_truth (t.eq_object u v))) }
    ensures grows { Extends table.old table.new }
{
    table.make(Shape::EqObject(a, b))
}

/// The node of that two numbers are equal.
pub fn equal_numbers(table: &mut Table, a: usize, b: usize) -> Result<usize, NoMemory>
    requires a { IsNumber (nodes table.old) a }
    requires b { IsNumber (nodes table.old) b }
    ensures made { IfOk result (λ made. (u : IntTree) (v : IntTree) → slice_get (nodes table.old) a ≡ Some (of_number u) → slice_get (nodes table.old) b ≡ Some (of_number v) → slice_get (nodes table.new) made ≡ Some (of_truth (t.eq_number u v))) }
    ensures grows { Extends table.old table.new }
{
    table.make(Shape::EqNumber(a, b))
}

/// The node of that two truths are equal.
pub fn equal_truths(table: &mut Table, a: usize, b: usize) -> Result<usize, NoMemory>
    requires a { IsFormula (nodes table.old) a }
    requires b { IsFormula (nodes table.old) b }
    ensures made { IfOk result (λ made. (u : FormulaTree) (v : FormulaTree) → slice_get (nodes table.old) a ≡ Some (of_truth u) → slice_get (nodes table.old) b ≡ Some (of_truth v) → slice_get (nodes table.new) made ≡ Some (of_truth (t.iff u v))) }
    ensures grows { Extends table.old table.new }
{
    table.make(Shape::Iff(a, b))
}

/// The node of that two sets are equal.
pub fn equal_sets(table: &mut Table, a: usize, b: usize) -> Result<usize, NoMemory>
    requires a { IsSet (nodes table.old) a }
    requires b { IsSet (nodes table.old) b }
    ensures made { IfOk result (λ made. (u : SetTree) (v : SetTree) → slice_get (nodes table.old) a ≡ Some (of_set u) → slice_get (nodes table.old) b ≡ Some (of_set v) → slice_get (nodes table.new) made ≡ Some (of_truth (t.eq_set u v))) }
    ensures grows { Extends table.old table.new }
{
    table.make(Shape::EqSet(a, b))
}

/// The node of what an update of a field of objects gives at each object.
pub fn updated_objects(
    table: &mut Table,
    new: usize,
    old: usize,
    at: usize,
    value: usize,
) -> Result<usize, NoMemory>
    requires new { IsField (nodes table.old) new }
    requires old { IsField (nodes table.old) old }
    requires at { IsTerm (nodes table.old) at }
    requires value { IsTerm (nodes table.old) value }
    ensures made { IfOk result (λ made. (u : FieldTree) (v : FieldTree) (w : TermTree) (x : TermTree) → slice_get (nodes table.old) new ≡ Some (of_field u) → slice_get (nodes table.old) old ≡ Some (of_field v) → slice_get (nodes table.old) at ≡ Some (of_object w) → slice_get (nodes table.old) value ≡ Some (of_object x) → slice_get (nodes table.new) made ≡ Some (of_truth (t.all (t.and (t.implies (t.eq_object (t.bound 0) w) (t.eq_object (t.read_object u (t.bound 0)) x)) (t.implies (t.negation (t.eq_object (t.bound 0) w)) (t.eq_object (t.read_object u (t.bound 0)) (t.read_object v (t.bound 0)))))))) }
    ensures grows { Extends table.old table.new }
{
    let object = table.make(Shape::Bound(0))?;
    let after = table.make(Shape::ReadObject(new, object))?;
    let before = table.make(Shape::ReadObject(old, object))?;
    let here = table.make(Shape::EqObject(after, value))?;
    let elsewhere = table.make(Shape::EqObject(after, before))?;
    at_each(table, at, here, elsewhere)
}

/// The node of what an update of a field of numbers gives at each object.
pub fn updated_numbers(
    table: &mut Table,
    new: usize,
    old: usize,
    at: usize,
    value: usize,
) -> Result<usize, NoMemory>
    requires new { IsField (nodes table.old) new }
    requires old { IsField (nodes table.old) old }
    requires at { IsTerm (nodes table.old) at }
    requires value { IsNumber (nodes table.old) value }
    ensures made { IfOk result (λ made. (u : FieldTree) (v : FieldTree) (w : TermTree) (x : IntTree) → slice_get (nodes table.old) new ≡ Some (of_field u) → slice_get (nodes table.old) old ≡ Some (of_field v) → slice_get (nodes table.old) at ≡ Some (of_object w) → slice_get (nodes table.old) value ≡ Some (of_number x) → slice_get (nodes table.new) made ≡ Some (of_truth (t.all (t.and (t.implies (t.eq_object (t.bound 0) w) (t.eq_number (t.read_number u (t.bound 0)) x)) (t.implies (t.negation (t.eq_object (t.bound 0) w)) (t.eq_number (t.read_number u (t.bound 0)) (t.read_number v (t.bound 0)))))))) }
    ensures grows { Extends table.old table.new }
{
    let object = table.make(Shape::Bound(0))?;
    let after = table.make(Shape::ReadNumber(new, object))?;
    let before = table.make(Shape::ReadNumber(old, object))?;
    let here = table.make(Shape::EqNumber(after, value))?;
    let elsewhere = table.make(Shape::EqNumber(after, before))?;
    at_each(table, at, here, elsewhere)
}

/// The node of what an update of a field of truths gives at each object.
pub fn updated_truths(
    table: &mut Table,
    new: usize,
    old: usize,
    at: usize,
    value: usize,
) -> Result<usize, NoMemory>
    requires new { IsField (nodes table.old) new }
    requires old { IsField (nodes table.old) old }
    requires at { IsTerm (nodes table.old) at }
    requires value { IsFormula (nodes table.old) value }
    ensures made { IfOk result (λ made. (u : FieldTree) (v : FieldTree) (w : TermTree) (x : FormulaTree) → slice_get (nodes table.old) new ≡ Some (of_field u) → slice_get (nodes table.old) old ≡ Some (of_field v) → slice_get (nodes table.old) at ≡ Some (of_object w) → slice_get (nodes table.old) value ≡ Some (of_truth x) → slice_get (nodes table.new) made ≡ Some (of_truth (t.all (t.and (t.implies (t.eq_object (t.bound 0) w) (t.iff (t.read_truth u (t.bound 0)) x)) (t.implies (t.negation (t.eq_object (t.bound 0) w)) (t.iff (t.read_truth u (t.bound 0)) (t.read_truth v (t.bound 0)))))))) }
    ensures grows { Extends table.old table.new }
{
    let object = table.make(Shape::Bound(0))?;
    let after = table.make(Shape::ReadTruth(new, object))?;
    let before = table.make(Shape::ReadTruth(old, object))?;
    let here = table.make(Shape::Iff(after, value))?;
    let elsewhere = table.make(Shape::Iff(after, before))?;
    at_each(table, at, here, elsewhere)
}

/// The node of what an update of a field of sets gives at each object.
pub fn updated_sets(
    table: &mut Table,
    new: usize,
    old: usize,
    at: usize,
    value: usize,
) -> Result<usize, NoMemory>
    requires new { IsField (nodes table.old) new }
    requires old { IsField (nodes table.old) old }
    requires at { IsTerm (nodes table.old) at }
    requires value { IsSet (nodes table.old) value }
    ensures made { IfOk result (λ made. (u : FieldTree) (v : FieldTree) (w : TermTree) (x : SetTree) → slice_get (nodes table.old) new ≡ Some (of_field u) → slice_get (nodes table.old) old ≡ Some (of_field v) → slice_get (nodes table.old) at ≡ Some (of_object w) → slice_get (nodes table.old) value ≡ Some (of_set x) → slice_get (nodes table.new) made ≡ Some (of_truth (t.all (t.and (t.implies (t.eq_object (t.bound 0) w) (t.eq_set (t.read_set u (t.bound 0)) x)) (t.implies (t.negation (t.eq_object (t.bound 0) w)) (t.eq_set (t.read_set u (t.bound 0)) (t.read_set v (t.bound 0)))))))) }
    ensures grows { Extends table.old table.new }
{
    let object = table.make(Shape::Bound(0))?;
    let after = table.make(Shape::ReadSet(new, object))?;
    let before = table.make(Shape::ReadSet(old, object))?;
    let here = table.make(Shape::EqSet(after, value))?;
    let elsewhere = table.make(Shape::EqSet(after, before))?;
    at_each(table, at, here, elsewhere)
}
