// Written by tools/value.py.
ghost use Rattle.std.specs.Prelude.{◌≡◌, ◌<◌, true, IfOk, length, slice_get};
ghost use Rattle.jh_form.specs.Bare.{term_tree, int_tree, set_tree, field_tree, value_tree, formula_tree, list_tree};
ghost use Rattle.jh_arena.specs.declared.table.shapes.Shape.TheVariants as s;
ghost use Rattle.jh_arena.specs.table.Entries.{is_object, is_number, is_set, is_field, is_truth, the_object, the_number, the_set, the_field, the_truth, the_value, are_fields, fields_at};
ghost use Rattle.jh_arena.specs.table.Nodes.{nodes};
ghost use Rattle.jh_export.specs.Standing.{Stands, AreBelow};

use crate::standing::{list_of, mark_of, name_of, standing};
use jh_arena::jh_boxed::boxed;
use jh_arena::table::{Shape, Table};
use jh_form::{FieldTerm, Formula, IntTerm, SetTerm, Term, Value};
use jh_name::{NoMemory, Row, Sort};

// Each shape with parts has a function of its own, and formulas and values are answered in memory of
// their own, so that a level of a deep tree takes little of the stack.

#[cycle(made)]
#[inline(never)]
#[tactic(auto, using(crate::proofs::ValueSteps::term_steps))]
pub fn make_term(table: &Table, node: usize) -> Result<Term, NoMemory>
    requires { is_object (slice_get (nodes table.now) node) ≡ true }
    ensures { IfOk result (λ made. term_tree made ≡ the_object (slice_get (nodes table.now) node)) }
{
    match standing(table, node) {
        Shape::Bound(number) => Ok(Term::Bound(number)),
        Shape::FreeObject(name) => make_free_object(table, node, name),
        Shape::Null => Ok(Term::Null),
        Shape::ReadObject(a, b) => make_read_object(table, node, a, b),
        _ => unreachable!(),
    }
}

#[inline(never)]
#[tactic(auto, using(crate::proofs::ValueSteps::free_object_steps))]
fn make_free_object(table: &Table, node: usize, name: usize) -> Result<Term, NoMemory>
    requires { Stands table.now node (s.FreeObject name) }
    ensures { IfOk result (λ made. term_tree made ≡ the_object (slice_get (nodes table.now) node)) }
{
    let name = name_of(table, name)?;
    Ok(Term::Free(name))
}

#[cycle(made)]
#[inline(never)]
#[tactic(auto, using(crate::proofs::ValueSteps::read_object_steps))]
fn make_read_object(table: &Table, node: usize, a: usize, b: usize) -> Result<Term, NoMemory>
    requires { Stands table.now node (s.ReadObject a b) }
    ensures { IfOk result (λ made. term_tree made ≡ the_object (slice_get (nodes table.now) node)) }
{
    let a = field_box(table, a)?;
    let b = term_box(table, b)?;
    Ok(Term::Read(a, b))
}

#[cycle(made)]
#[inline(never)]
#[tactic(auto, using(crate::proofs::ValueSteps::int_steps))]
pub fn make_int(table: &Table, node: usize) -> Result<IntTerm, NoMemory>
    requires { is_number (slice_get (nodes table.now) node) ≡ true }
    ensures { IfOk result (λ made. int_tree made ≡ the_number (slice_get (nodes table.now) node)) }
{
    match standing(table, node) {
        Shape::Const(number) => Ok(IntTerm::Const(number)),
        Shape::FreeNumber(name) => make_free_number(table, node, name),
        Shape::ReadNumber(a, b) => make_read_number(table, node, a, b),
        Shape::Add(a, b) => make_add(table, node, a, b),
        Shape::Sub(a, b) => make_sub(table, node, a, b),
        Shape::Neg(a) => make_neg(table, node, a),
        Shape::Scale(number, a) => make_scale(table, node, number, a),
        Shape::Card(a) => make_card(table, node, a),
        _ => unreachable!(),
    }
}

#[inline(never)]
#[tactic(auto, using(crate::proofs::ValueSteps::free_number_steps))]
fn make_free_number(table: &Table, node: usize, name: usize) -> Result<IntTerm, NoMemory>
    requires { Stands table.now node (s.FreeNumber name) }
    ensures { IfOk result (λ made. int_tree made ≡ the_number (slice_get (nodes table.now) node)) }
{
    let name = name_of(table, name)?;
    Ok(IntTerm::Free(name))
}

#[cycle(made)]
#[inline(never)]
#[tactic(auto, using(crate::proofs::ValueSteps::read_number_steps))]
fn make_read_number(table: &Table, node: usize, a: usize, b: usize) -> Result<IntTerm, NoMemory>
    requires { Stands table.now node (s.ReadNumber a b) }
    ensures { IfOk result (λ made. int_tree made ≡ the_number (slice_get (nodes table.now) node)) }
{
    let a = field_box(table, a)?;
    let b = term_box(table, b)?;
    Ok(IntTerm::Read(a, b))
}

#[cycle(made)]
#[inline(never)]
#[tactic(auto, using(crate::proofs::ValueSteps::add_steps))]
fn make_add(table: &Table, node: usize, a: usize, b: usize) -> Result<IntTerm, NoMemory>
    requires { Stands table.now node (s.Add a b) }
    ensures { IfOk result (λ made. int_tree made ≡ the_number (slice_get (nodes table.now) node)) }
{
    let a = int_box(table, a)?;
    let b = int_box(table, b)?;
    Ok(IntTerm::Add(a, b))
}

#[cycle(made)]
#[inline(never)]
#[tactic(auto, using(crate::proofs::ValueSteps::sub_steps))]
fn make_sub(table: &Table, node: usize, a: usize, b: usize) -> Result<IntTerm, NoMemory>
    requires { Stands table.now node (s.Sub a b) }
    ensures { IfOk result (λ made. int_tree made ≡ the_number (slice_get (nodes table.now) node)) }
{
    let a = int_box(table, a)?;
    let b = int_box(table, b)?;
    Ok(IntTerm::Sub(a, b))
}

#[cycle(made)]
#[inline(never)]
#[tactic(auto, using(crate::proofs::ValueSteps::neg_steps))]
fn make_neg(table: &Table, node: usize, a: usize) -> Result<IntTerm, NoMemory>
    requires { Stands table.now node (s.Neg a) }
    ensures { IfOk result (λ made. int_tree made ≡ the_number (slice_get (nodes table.now) node)) }
{
    let a = int_box(table, a)?;
    Ok(IntTerm::Neg(a))
}

#[cycle(made)]
#[inline(never)]
#[tactic(auto, using(crate::proofs::ValueSteps::scale_steps))]
fn make_scale(table: &Table, node: usize, number: i64, a: usize) -> Result<IntTerm, NoMemory>
    requires { Stands table.now node (s.Scale number a) }
    ensures { IfOk result (λ made. int_tree made ≡ the_number (slice_get (nodes table.now) node)) }
{
    let a = int_box(table, a)?;
    Ok(IntTerm::Scale(number, a))
}

#[cycle(made)]
#[inline(never)]
#[tactic(auto, using(crate::proofs::ValueSteps::card_steps))]
fn make_card(table: &Table, node: usize, a: usize) -> Result<IntTerm, NoMemory>
    requires { Stands table.now node (s.Card a) }
    ensures { IfOk result (λ made. int_tree made ≡ the_number (slice_get (nodes table.now) node)) }
{
    let a = set_box(table, a)?;
    Ok(IntTerm::Card(a))
}

#[cycle(made)]
#[inline(never)]
#[tactic(auto, using(crate::proofs::ValueSteps::set_steps))]
pub fn make_set(table: &Table, node: usize) -> Result<SetTerm, NoMemory>
    requires { is_set (slice_get (nodes table.now) node) ≡ true }
    ensures { IfOk result (λ made. set_tree made ≡ the_set (slice_get (nodes table.now) node)) }
{
    match standing(table, node) {
        Shape::FreeSet(name) => make_free_set(table, node, name),
        Shape::ReadSet(a, b) => make_read_set(table, node, a, b),
        Shape::Empty => Ok(SetTerm::Empty),
        Shape::Univ => Ok(SetTerm::Univ),
        Shape::Single(a) => make_single(table, node, a),
        Shape::Union(a, b) => make_union(table, node, a, b),
        Shape::Inter(a, b) => make_inter(table, node, a, b),
        Shape::Diff(a, b) => make_diff(table, node, a, b),
        Shape::Compl(a) => make_compl(table, node, a),
        Shape::Compr(a) => make_compr(table, node, a),
        _ => unreachable!(),
    }
}

#[inline(never)]
#[tactic(auto, using(crate::proofs::ValueSteps::free_set_steps))]
fn make_free_set(table: &Table, node: usize, name: usize) -> Result<SetTerm, NoMemory>
    requires { Stands table.now node (s.FreeSet name) }
    ensures { IfOk result (λ made. set_tree made ≡ the_set (slice_get (nodes table.now) node)) }
{
    let name = name_of(table, name)?;
    Ok(SetTerm::Free(name))
}

#[cycle(made)]
#[inline(never)]
#[tactic(auto, using(crate::proofs::ValueSteps::read_set_steps))]
fn make_read_set(table: &Table, node: usize, a: usize, b: usize) -> Result<SetTerm, NoMemory>
    requires { Stands table.now node (s.ReadSet a b) }
    ensures { IfOk result (λ made. set_tree made ≡ the_set (slice_get (nodes table.now) node)) }
{
    let a = field_box(table, a)?;
    let b = term_box(table, b)?;
    Ok(SetTerm::Read(a, b))
}

#[cycle(made)]
#[inline(never)]
#[tactic(auto, using(crate::proofs::ValueSteps::single_steps))]
fn make_single(table: &Table, node: usize, a: usize) -> Result<SetTerm, NoMemory>
    requires { Stands table.now node (s.Single a) }
    ensures { IfOk result (λ made. set_tree made ≡ the_set (slice_get (nodes table.now) node)) }
{
    let a = term_box(table, a)?;
    Ok(SetTerm::Single(a))
}

#[cycle(made)]
#[inline(never)]
#[tactic(auto, using(crate::proofs::ValueSteps::union_steps))]
fn make_union(table: &Table, node: usize, a: usize, b: usize) -> Result<SetTerm, NoMemory>
    requires { Stands table.now node (s.Union a b) }
    ensures { IfOk result (λ made. set_tree made ≡ the_set (slice_get (nodes table.now) node)) }
{
    let a = set_box(table, a)?;
    let b = set_box(table, b)?;
    Ok(SetTerm::Union(a, b))
}

#[cycle(made)]
#[inline(never)]
#[tactic(auto, using(crate::proofs::ValueSteps::inter_steps))]
fn make_inter(table: &Table, node: usize, a: usize, b: usize) -> Result<SetTerm, NoMemory>
    requires { Stands table.now node (s.Inter a b) }
    ensures { IfOk result (λ made. set_tree made ≡ the_set (slice_get (nodes table.now) node)) }
{
    let a = set_box(table, a)?;
    let b = set_box(table, b)?;
    Ok(SetTerm::Inter(a, b))
}

#[cycle(made)]
#[inline(never)]
#[tactic(auto, using(crate::proofs::ValueSteps::diff_steps))]
fn make_diff(table: &Table, node: usize, a: usize, b: usize) -> Result<SetTerm, NoMemory>
    requires { Stands table.now node (s.Diff a b) }
    ensures { IfOk result (λ made. set_tree made ≡ the_set (slice_get (nodes table.now) node)) }
{
    let a = set_box(table, a)?;
    let b = set_box(table, b)?;
    Ok(SetTerm::Diff(a, b))
}

#[cycle(made)]
#[inline(never)]
#[tactic(auto, using(crate::proofs::ValueSteps::compl_steps))]
fn make_compl(table: &Table, node: usize, a: usize) -> Result<SetTerm, NoMemory>
    requires { Stands table.now node (s.Compl a) }
    ensures { IfOk result (λ made. set_tree made ≡ the_set (slice_get (nodes table.now) node)) }
{
    let a = set_box(table, a)?;
    Ok(SetTerm::Compl(a))
}

#[cycle(made)]
#[inline(never)]
#[tactic(auto, using(crate::proofs::ValueSteps::compr_steps))]
fn make_compr(table: &Table, node: usize, a: usize) -> Result<SetTerm, NoMemory>
    requires { Stands table.now node (s.Compr a) }
    ensures { IfOk result (λ made. set_tree made ≡ the_set (slice_get (nodes table.now) node)) }
{
    let a = formula_box(table, a)?;
    Ok(SetTerm::Compr(a))
}

#[cycle(made)]
#[inline(never)]
#[tactic(auto, using(crate::proofs::ValueSteps::field_steps))]
pub fn make_field(table: &Table, node: usize) -> Result<FieldTerm, NoMemory>
    requires { is_field (slice_get (nodes table.now) node) ≡ true }
    ensures { IfOk result (λ made. field_tree made ≡ the_field (slice_get (nodes table.now) node)) }
{
    match standing(table, node) {
        Shape::FreeField(name) => make_free_field(table, node, name),
        Shape::Update(a, b, c) => make_update(table, node, a, b, c),
        _ => unreachable!(),
    }
}

#[inline(never)]
#[tactic(auto, using(crate::proofs::ValueSteps::free_field_steps))]
fn make_free_field(table: &Table, node: usize, name: usize) -> Result<FieldTerm, NoMemory>
    requires { Stands table.now node (s.FreeField name) }
    ensures { IfOk result (λ made. field_tree made ≡ the_field (slice_get (nodes table.now) node)) }
{
    let name = name_of(table, name)?;
    Ok(FieldTerm::Free(name))
}

#[cycle(made)]
#[inline(never)]
#[tactic(auto, using(crate::proofs::ValueSteps::update_steps))]
fn make_update(
    table: &Table,
    node: usize,
    a: usize,
    b: usize,
    c: usize,
) -> Result<FieldTerm, NoMemory>
    requires { Stands table.now node (s.Update a b c) }
    ensures { IfOk result (λ made. field_tree made ≡ the_field (slice_get (nodes table.now) node)) }
{
    let a = field_box(table, a)?;
    let b = term_box(table, b)?;
    let c = value_box(table, c)?;
    Ok(FieldTerm::Update(a, b, c))
}

#[cycle(made)]
#[inline(never)]
#[tactic(auto, using(crate::proofs::Values::value_steps))]
pub fn value_box(table: &Table, node: usize) -> Result<Box<Value>, NoMemory>
    requires { node < length (nodes table.now) }
    ensures { IfOk result (λ made. value_tree made.value ≡ the_value (slice_get (nodes table.now) node)) }
{
    match table.sort(node) {
        Sort::Obj => object_value(table, node),
        Sort::Int => number_value(table, node),
        Sort::Bool => truth_value(table, node),
        Sort::Set => set_value(table, node),
        Sort::Field => field_value(table, node),
    }
}

#[cycle(made)]
#[inline(never)]
#[tactic(auto, using(crate::proofs::Values::object_value_steps))]
fn object_value(table: &Table, node: usize) -> Result<Box<Value>, NoMemory>
    requires { is_object (slice_get (nodes table.now) node) ≡ true }
    ensures { IfOk result (λ made. value_tree made.value ≡ the_value (slice_get (nodes table.now) node)) }
{
    let made = make_term(table, node)?;
    boxed(table.alloc(), Value::Obj(made))
}

#[cycle(made)]
#[inline(never)]
#[tactic(auto, using(crate::proofs::Values::number_value_steps))]
fn number_value(table: &Table, node: usize) -> Result<Box<Value>, NoMemory>
    requires { is_number (slice_get (nodes table.now) node) ≡ true }
    ensures { IfOk result (λ made. value_tree made.value ≡ the_value (slice_get (nodes table.now) node)) }
{
    let made = make_int(table, node)?;
    boxed(table.alloc(), Value::Int(made))
}

#[cycle(made)]
#[inline(never)]
#[tactic(auto, using(crate::proofs::Values::truth_value_steps))]
fn truth_value(table: &Table, node: usize) -> Result<Box<Value>, NoMemory>
    requires { is_truth (slice_get (nodes table.now) node) ≡ true }
    ensures { IfOk result (λ made. value_tree made.value ≡ the_value (slice_get (nodes table.now) node)) }
{
    let made = formula_box(table, node)?;
    boxed(table.alloc(), Value::Bool(Box::into_inner(made)))
}

#[cycle(made)]
#[inline(never)]
#[tactic(auto, using(crate::proofs::Values::set_value_steps))]
fn set_value(table: &Table, node: usize) -> Result<Box<Value>, NoMemory>
    requires { is_set (slice_get (nodes table.now) node) ≡ true }
    ensures { IfOk result (λ made. value_tree made.value ≡ the_value (slice_get (nodes table.now) node)) }
{
    let made = make_set(table, node)?;
    boxed(table.alloc(), Value::Set(made))
}

#[cycle(made)]
#[inline(never)]
#[tactic(auto, using(crate::proofs::Values::field_value_steps))]
fn field_value(table: &Table, node: usize) -> Result<Box<Value>, NoMemory>
    requires { is_field (slice_get (nodes table.now) node) ≡ true }
    ensures { IfOk result (λ made. value_tree made.value ≡ the_value (slice_get (nodes table.now) node)) }
{
    let made = make_field(table, node)?;
    boxed(table.alloc(), Value::Field(made))
}

#[cycle(made)]
#[inline(never)]
#[tactic(auto, using(crate::proofs::ValueSteps::formula_steps))]
pub fn formula_box(table: &Table, node: usize) -> Result<Box<Formula>, NoMemory>
    requires { is_truth (slice_get (nodes table.now) node) ≡ true }
    ensures { IfOk result (λ made. formula_tree made.value ≡ the_truth (slice_get (nodes table.now) node)) }
{
    match standing(table, node) {
        Shape::True => make_true(table, node),
        Shape::False => make_false(table, node),
        Shape::FreeTruth(name) => make_free_truth(table, node, name),
        Shape::ReadTruth(a, b) => make_read_truth(table, node, a, b),
        Shape::Negation(a) => make_negation(table, node, a),
        Shape::And(a, b) => make_and(table, node, a, b),
        Shape::Or(a, b) => make_or(table, node, a, b),
        Shape::Implies(a, b) => make_implies(table, node, a, b),
        Shape::Iff(a, b) => make_iff(table, node, a, b),
        Shape::All(a) => make_all(table, node, a),
        Shape::Ex(a) => make_ex(table, node, a),
        Shape::EqObject(a, b) => make_eq_object(table, node, a, b),
        Shape::EqNumber(a, b) => make_eq_number(table, node, a, b),
        Shape::EqSet(a, b) => make_eq_set(table, node, a, b),
        Shape::Less(a, b) => make_less(table, node, a, b),
        Shape::LessEqual(a, b) => make_less_equal(table, node, a, b),
        Shape::Divides(number, a) => make_divides(table, node, number, a),
        Shape::Member(a, b) => make_member(table, node, a, b),
        Shape::Subset(a, b) => make_subset(table, node, a, b),
        Shape::Reach(list, a, b) => make_reach(table, node, list, a, b),
        Shape::Tree(list) => make_tree(table, node, list),
        Shape::Mark(mark, a) => make_mark(table, node, mark, a),
        _ => unreachable!(),
    }
}

#[inline(never)]
#[tactic(auto, using(crate::proofs::ValueSteps::true_steps))]
fn make_true(table: &Table, node: usize) -> Result<Box<Formula>, NoMemory>
    requires { Stands table.now node s.True }
    ensures { IfOk result (λ made. formula_tree made.value ≡ the_truth (slice_get (nodes table.now) node)) }
{
    boxed(table.alloc(), Formula::True)
}

#[inline(never)]
#[tactic(auto, using(crate::proofs::ValueSteps::false_steps))]
fn make_false(table: &Table, node: usize) -> Result<Box<Formula>, NoMemory>
    requires { Stands table.now node s.False }
    ensures { IfOk result (λ made. formula_tree made.value ≡ the_truth (slice_get (nodes table.now) node)) }
{
    boxed(table.alloc(), Formula::False)
}

#[inline(never)]
#[tactic(auto, using(crate::proofs::ValueSteps::free_truth_steps))]
fn make_free_truth(table: &Table, node: usize, name: usize) -> Result<Box<Formula>, NoMemory>
    requires { Stands table.now node (s.FreeTruth name) }
    ensures { IfOk result (λ made. formula_tree made.value ≡ the_truth (slice_get (nodes table.now) node)) }
{
    let name = name_of(table, name)?;
    boxed(table.alloc(), Formula::Free(name))
}

#[cycle(made)]
#[inline(never)]
#[tactic(auto, using(crate::proofs::ValueSteps::read_truth_steps))]
fn make_read_truth(table: &Table, node: usize, a: usize, b: usize) -> Result<Box<Formula>, NoMemory>
    requires { Stands table.now node (s.ReadTruth a b) }
    ensures { IfOk result (λ made. formula_tree made.value ≡ the_truth (slice_get (nodes table.now) node)) }
{
    let a = field_box(table, a)?;
    let b = term_box(table, b)?;
    boxed(table.alloc(), Formula::Read(a, b))
}

#[cycle(made)]
#[inline(never)]
#[tactic(auto, using(crate::proofs::ValueSteps::negation_steps))]
fn make_negation(table: &Table, node: usize, a: usize) -> Result<Box<Formula>, NoMemory>
    requires { Stands table.now node (s.Negation a) }
    ensures { IfOk result (λ made. formula_tree made.value ≡ the_truth (slice_get (nodes table.now) node)) }
{
    let a = formula_box(table, a)?;
    boxed(table.alloc(), Formula::Not(a))
}

#[cycle(made)]
#[inline(never)]
#[tactic(auto, using(crate::proofs::ValueSteps::and_steps))]
fn make_and(table: &Table, node: usize, a: usize, b: usize) -> Result<Box<Formula>, NoMemory>
    requires { Stands table.now node (s.And a b) }
    ensures { IfOk result (λ made. formula_tree made.value ≡ the_truth (slice_get (nodes table.now) node)) }
{
    let a = formula_box(table, a)?;
    let b = formula_box(table, b)?;
    boxed(table.alloc(), Formula::And(a, b))
}

#[cycle(made)]
#[inline(never)]
#[tactic(auto, using(crate::proofs::ValueSteps::or_steps))]
fn make_or(table: &Table, node: usize, a: usize, b: usize) -> Result<Box<Formula>, NoMemory>
    requires { Stands table.now node (s.Or a b) }
    ensures { IfOk result (λ made. formula_tree made.value ≡ the_truth (slice_get (nodes table.now) node)) }
{
    let a = formula_box(table, a)?;
    let b = formula_box(table, b)?;
    boxed(table.alloc(), Formula::Or(a, b))
}

#[cycle(made)]
#[inline(never)]
#[tactic(auto, using(crate::proofs::ValueSteps::implies_steps))]
fn make_implies(table: &Table, node: usize, a: usize, b: usize) -> Result<Box<Formula>, NoMemory>
    requires { Stands table.now node (s.Implies a b) }
    ensures { IfOk result (λ made. formula_tree made.value ≡ the_truth (slice_get (nodes table.now) node)) }
{
    let a = formula_box(table, a)?;
    let b = formula_box(table, b)?;
    boxed(table.alloc(), Formula::Implies(a, b))
}

#[cycle(made)]
#[inline(never)]
#[tactic(auto, using(crate::proofs::ValueSteps::iff_steps))]
fn make_iff(table: &Table, node: usize, a: usize, b: usize) -> Result<Box<Formula>, NoMemory>
    requires { Stands table.now node (s.Iff a b) }
    ensures { IfOk result (λ made. formula_tree made.value ≡ the_truth (slice_get (nodes table.now) node)) }
{
    let a = formula_box(table, a)?;
    let b = formula_box(table, b)?;
    boxed(table.alloc(), Formula::Iff(a, b))
}

#[cycle(made)]
#[inline(never)]
#[tactic(auto, using(crate::proofs::ValueSteps::all_steps))]
fn make_all(table: &Table, node: usize, a: usize) -> Result<Box<Formula>, NoMemory>
    requires { Stands table.now node (s.All a) }
    ensures { IfOk result (λ made. formula_tree made.value ≡ the_truth (slice_get (nodes table.now) node)) }
{
    let a = formula_box(table, a)?;
    boxed(table.alloc(), Formula::All(a))
}

#[cycle(made)]
#[inline(never)]
#[tactic(auto, using(crate::proofs::ValueSteps::ex_steps))]
fn make_ex(table: &Table, node: usize, a: usize) -> Result<Box<Formula>, NoMemory>
    requires { Stands table.now node (s.Ex a) }
    ensures { IfOk result (λ made. formula_tree made.value ≡ the_truth (slice_get (nodes table.now) node)) }
{
    let a = formula_box(table, a)?;
    boxed(table.alloc(), Formula::Ex(a))
}

#[cycle(made)]
#[inline(never)]
#[tactic(auto, using(crate::proofs::ValueSteps::eq_object_steps))]
fn make_eq_object(table: &Table, node: usize, a: usize, b: usize) -> Result<Box<Formula>, NoMemory>
    requires { Stands table.now node (s.EqObject a b) }
    ensures { IfOk result (λ made. formula_tree made.value ≡ the_truth (slice_get (nodes table.now) node)) }
{
    let a = make_term(table, a)?;
    let b = make_term(table, b)?;
    boxed(table.alloc(), Formula::EqObj(a, b))
}

#[cycle(made)]
#[inline(never)]
#[tactic(auto, using(crate::proofs::ValueSteps::eq_number_steps))]
fn make_eq_number(table: &Table, node: usize, a: usize, b: usize) -> Result<Box<Formula>, NoMemory>
    requires { Stands table.now node (s.EqNumber a b) }
    ensures { IfOk result (λ made. formula_tree made.value ≡ the_truth (slice_get (nodes table.now) node)) }
{
    let a = make_int(table, a)?;
    let b = make_int(table, b)?;
    boxed(table.alloc(), Formula::EqInt(a, b))
}

#[cycle(made)]
#[inline(never)]
#[tactic(auto, using(crate::proofs::ValueSteps::eq_set_steps))]
fn make_eq_set(table: &Table, node: usize, a: usize, b: usize) -> Result<Box<Formula>, NoMemory>
    requires { Stands table.now node (s.EqSet a b) }
    ensures { IfOk result (λ made. formula_tree made.value ≡ the_truth (slice_get (nodes table.now) node)) }
{
    let a = make_set(table, a)?;
    let b = make_set(table, b)?;
    boxed(table.alloc(), Formula::EqSet(a, b))
}

#[cycle(made)]
#[inline(never)]
#[tactic(auto, using(crate::proofs::ValueSteps::less_steps))]
fn make_less(table: &Table, node: usize, a: usize, b: usize) -> Result<Box<Formula>, NoMemory>
    requires { Stands table.now node (s.Less a b) }
    ensures { IfOk result (λ made. formula_tree made.value ≡ the_truth (slice_get (nodes table.now) node)) }
{
    let a = make_int(table, a)?;
    let b = make_int(table, b)?;
    boxed(table.alloc(), Formula::Less(a, b))
}

#[cycle(made)]
#[inline(never)]
#[tactic(auto, using(crate::proofs::ValueSteps::less_equal_steps))]
fn make_less_equal(table: &Table, node: usize, a: usize, b: usize) -> Result<Box<Formula>, NoMemory>
    requires { Stands table.now node (s.LessEqual a b) }
    ensures { IfOk result (λ made. formula_tree made.value ≡ the_truth (slice_get (nodes table.now) node)) }
{
    let a = make_int(table, a)?;
    let b = make_int(table, b)?;
    boxed(table.alloc(), Formula::LessEq(a, b))
}

#[cycle(made)]
#[inline(never)]
#[tactic(auto, using(crate::proofs::ValueSteps::divides_steps))]
fn make_divides(table: &Table, node: usize, number: i64, a: usize) -> Result<Box<Formula>, NoMemory>
    requires { Stands table.now node (s.Divides number a) }
    ensures { IfOk result (λ made. formula_tree made.value ≡ the_truth (slice_get (nodes table.now) node)) }
{
    let a = make_int(table, a)?;
    boxed(table.alloc(), Formula::Divides(number, a))
}

#[cycle(made)]
#[inline(never)]
#[tactic(auto, using(crate::proofs::ValueSteps::member_steps))]
fn make_member(table: &Table, node: usize, a: usize, b: usize) -> Result<Box<Formula>, NoMemory>
    requires { Stands table.now node (s.Member a b) }
    ensures { IfOk result (λ made. formula_tree made.value ≡ the_truth (slice_get (nodes table.now) node)) }
{
    let a = make_term(table, a)?;
    let b = make_set(table, b)?;
    boxed(table.alloc(), Formula::Member(a, b))
}

#[cycle(made)]
#[inline(never)]
#[tactic(auto, using(crate::proofs::ValueSteps::subset_steps))]
fn make_subset(table: &Table, node: usize, a: usize, b: usize) -> Result<Box<Formula>, NoMemory>
    requires { Stands table.now node (s.Subset a b) }
    ensures { IfOk result (λ made. formula_tree made.value ≡ the_truth (slice_get (nodes table.now) node)) }
{
    let a = make_set(table, a)?;
    let b = make_set(table, b)?;
    boxed(table.alloc(), Formula::Subset(a, b))
}

#[cycle(made)]
#[inline(never)]
#[tactic(auto, using(crate::proofs::ValueSteps::reach_steps))]
fn make_reach(
    table: &Table,
    node: usize,
    list: usize,
    a: usize,
    b: usize,
) -> Result<Box<Formula>, NoMemory>
    requires { Stands table.now node (s.Reach list a b) }
    ensures { IfOk result (λ made. formula_tree made.value ≡ the_truth (slice_get (nodes table.now) node)) }
{
    let fields = make_fields(table, node, list_of(table, list))?;
    let a = make_term(table, a)?;
    let b = make_term(table, b)?;
    boxed(table.alloc(), Formula::Reach(Row::of(fields), a, b))
}

#[cycle(made)]
#[inline(never)]
#[tactic(auto, using(crate::proofs::ValueSteps::tree_steps))]
fn make_tree(table: &Table, node: usize, list: usize) -> Result<Box<Formula>, NoMemory>
    requires { Stands table.now node (s.Tree list) }
    ensures { IfOk result (λ made. formula_tree made.value ≡ the_truth (slice_get (nodes table.now) node)) }
{
    let fields = make_fields(table, node, list_of(table, list))?;
    boxed(table.alloc(), Formula::Tree(Row::of(fields)))
}

#[cycle(made)]
#[inline(never)]
#[tactic(auto, using(crate::proofs::ValueSteps::mark_steps))]
fn make_mark(table: &Table, node: usize, mark: usize, a: usize) -> Result<Box<Formula>, NoMemory>
    requires { Stands table.now node (s.Mark mark a) }
    ensures { IfOk result (λ made. formula_tree made.value ≡ the_truth (slice_get (nodes table.now) node)) }
{
    let a = formula_box(table, a)?;
    let mark = mark_of(table, mark)?;
    boxed(table.alloc(), Formula::Mark(mark, a))
}

#[cycle(made)]
#[inline(never)]
fn make_fields(table: &Table, node: usize, fields: &[usize]) -> Result<Vec<FieldTerm>, NoMemory>
    requires fields { are_fields (nodes table.now) fields.now ≡ true }
    requires below { AreBelow node fields.now }
    ensures { IfOk result (λ made. list_tree made.items ≡ fields_at (nodes table.now) fields.now) }
{
    let mut made = Vec::new(table.alloc());
    for field in fields {
        let field = make_field(table, *field)?;
        made.push(field)?;
    }
    Ok(made)
}

#[cycle(made)]
#[inline(never)]
fn term_box(table: &Table, node: usize) -> Result<Box<Term>, NoMemory>
    requires { is_object (slice_get (nodes table.now) node) ≡ true }
    ensures { IfOk result (λ made. term_tree made.value ≡ the_object (slice_get (nodes table.now) node)) }
{
    let made = make_term(table, node)?;
    boxed(table.alloc(), made)
}

#[cycle(made)]
#[inline(never)]
fn int_box(table: &Table, node: usize) -> Result<Box<IntTerm>, NoMemory>
    requires { is_number (slice_get (nodes table.now) node) ≡ true }
    ensures { IfOk result (λ made. int_tree made.value ≡ the_number (slice_get (nodes table.now) node)) }
{
    let made = make_int(table, node)?;
    boxed(table.alloc(), made)
}

#[cycle(made)]
#[inline(never)]
fn set_box(table: &Table, node: usize) -> Result<Box<SetTerm>, NoMemory>
    requires { is_set (slice_get (nodes table.now) node) ≡ true }
    ensures { IfOk result (λ made. set_tree made.value ≡ the_set (slice_get (nodes table.now) node)) }
{
    let made = make_set(table, node)?;
    boxed(table.alloc(), made)
}

#[cycle(made)]
#[inline(never)]
fn field_box(table: &Table, node: usize) -> Result<Box<FieldTerm>, NoMemory>
    requires { is_field (slice_get (nodes table.now) node) ≡ true }
    ensures { IfOk result (λ made. field_tree made.value ≡ the_field (slice_get (nodes table.now) node)) }
{
    let made = make_field(table, node)?;
    boxed(table.alloc(), made)
}
