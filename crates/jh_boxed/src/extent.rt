// Written by tools/walk_code.py.
#![tactic(auto, using(jh_form::proofs::Steps::tree_steps, crate::proofs::SizeSteps::size_steps))]

ghost use Rattle.std.specs.Prelude.{◌≡◌, ◌-◌, ◌^◌, min};
ghost use Rattle.jh_form.specs.Bare.{term_tree, int_tree, set_tree, field_tree, value_tree, formula_tree, list_tree};
ghost use Rattle.jh_boxed.specs.Sizes.{term_size, int_size, set_size, field_size, value_size, formula_size, fields_size, term_depth, int_depth, set_depth, field_depth, value_depth, formula_depth, fields_depth};

use crate::counting::{Extent, LEAF, NOTHING, beside, over};
use jh_form::{FieldTerm, Formula, IntTerm, SetTerm, Term, Value};

#[cycle(extent)]
pub fn extent_term(term: &Term) -> Extent
    ensures nodes { result.nodes ≡ min (term_size (term_tree term.now)) (2 ^ 64 - 1) }
    ensures depth { result.depth ≡ min (term_depth (term_tree term.now)) (2 ^ 64 - 1) }
{
    match term {
        Term::Bound(_) => LEAF,
        Term::Free(_) => LEAF,
        Term::Null => LEAF,
        Term::Read(a, b) => over(beside(extent_field(a), extent_term(b))),
    }
}

#[cycle(extent)]
pub fn extent_int(term: &IntTerm) -> Extent
    ensures nodes { result.nodes ≡ min (int_size (int_tree term.now)) (2 ^ 64 - 1) }
    ensures depth { result.depth ≡ min (int_depth (int_tree term.now)) (2 ^ 64 - 1) }
{
    match term {
        IntTerm::Const(_) => LEAF,
        IntTerm::Free(_) => LEAF,
        IntTerm::Read(a, b) => over(beside(extent_field(a), extent_term(b))),
        IntTerm::Add(a, b) => over(beside(extent_int(a), extent_int(b))),
        IntTerm::Sub(a, b) => over(beside(extent_int(a), extent_int(b))),
        IntTerm::Neg(a) => over(extent_int(a)),
        IntTerm::Scale(_, a) => over(extent_int(a)),
        IntTerm::Card(a) => over(extent_set(a)),
    }
}

#[cycle(extent)]
pub fn extent_set(term: &SetTerm) -> Extent
    ensures nodes { result.nodes ≡ min (set_size (set_tree term.now)) (2 ^ 64 - 1) }
    ensures depth { result.depth ≡ min (set_depth (set_tree term.now)) (2 ^ 64 - 1) }
{
    match term {
        SetTerm::Free(_) => LEAF,
        SetTerm::Read(a, b) => over(beside(extent_field(a), extent_term(b))),
        SetTerm::Empty => LEAF,
        SetTerm::Univ => LEAF,
        SetTerm::Single(a) => over(extent_term(a)),
        SetTerm::Union(a, b) => over(beside(extent_set(a), extent_set(b))),
        SetTerm::Inter(a, b) => over(beside(extent_set(a), extent_set(b))),
        SetTerm::Diff(a, b) => over(beside(extent_set(a), extent_set(b))),
        SetTerm::Compl(a) => over(extent_set(a)),
        SetTerm::Compr(a) => over(extent_formula(a)),
    }
}

#[cycle(extent)]
pub fn extent_field(field: &FieldTerm) -> Extent
    ensures nodes { result.nodes ≡ min (field_size (field_tree field.now)) (2 ^ 64 - 1) }
    ensures depth { result.depth ≡ min (field_depth (field_tree field.now)) (2 ^ 64 - 1) }
{
    match field {
        FieldTerm::Free(_) => LEAF,
        FieldTerm::Update(a, b, c) => over(beside(
            beside(extent_field(a), extent_term(b)),
            extent_value(c),
        )),
    }
}

#[cycle(extent)]
pub fn extent_value(value: &Value) -> Extent
    ensures nodes { result.nodes ≡ min (value_size (value_tree value.now)) (2 ^ 64 - 1) }
    ensures depth { result.depth ≡ min (value_depth (value_tree value.now)) (2 ^ 64 - 1) }
{
    match value {
        Value::Obj(a) => extent_term(a),
        Value::Int(a) => extent_int(a),
        Value::Bool(a) => extent_formula(a),
        Value::Set(a) => extent_set(a),
        Value::Field(a) => extent_field(a),
    }
}

#[cycle(extent)]
pub fn extent_formula(formula: &Formula) -> Extent
    ensures nodes { result.nodes ≡ min (formula_size (formula_tree formula.now)) (2 ^ 64 - 1) }
    ensures depth { result.depth ≡ min (formula_depth (formula_tree formula.now)) (2 ^ 64 - 1) }
{
    match formula {
        Formula::True => LEAF,
        Formula::False => LEAF,
        Formula::Free(_) => LEAF,
        Formula::Read(a, b) => over(beside(extent_field(a), extent_term(b))),
        Formula::Not(a) => over(extent_formula(a)),
        Formula::And(a, b) => over(beside(extent_formula(a), extent_formula(b))),
        Formula::Or(a, b) => over(beside(extent_formula(a), extent_formula(b))),
        Formula::Implies(a, b) => over(beside(extent_formula(a), extent_formula(b))),
        Formula::Iff(a, b) => over(beside(extent_formula(a), extent_formula(b))),
        Formula::All(a) => over(extent_formula(a)),
        Formula::Ex(a) => over(extent_formula(a)),
        Formula::EqObj(a, b) => over(beside(extent_term(a), extent_term(b))),
        Formula::EqInt(a, b) => over(beside(extent_int(a), extent_int(b))),
        Formula::EqSet(a, b) => over(beside(extent_set(a), extent_set(b))),
        Formula::Less(a, b) => over(beside(extent_int(a), extent_int(b))),
        Formula::LessEq(a, b) => over(beside(extent_int(a), extent_int(b))),
        Formula::Divides(_, a) => over(extent_int(a)),
        Formula::Member(a, b) => over(beside(extent_term(a), extent_set(b))),
        Formula::Subset(a, b) => over(beside(extent_set(a), extent_set(b))),
        Formula::Reach(fields, a, b) => over(beside(
            beside(extent_fields(fields.items()), extent_term(a)),
            extent_term(b),
        )),
        Formula::Tree(fields) => over(extent_fields(fields.items())),
        Formula::Mark(_, a) => over(extent_formula(a)),
    }
}

#[cycle(extent)]
pub fn extent_fields(fields: &[FieldTerm]) -> Extent
    ensures nodes { result.nodes ≡ min (fields_size (list_tree fields.now)) (2 ^ 64 - 1) }
    ensures depth { result.depth ≡ min (fields_depth (list_tree fields.now)) (2 ^ 64 - 1) }
{
    let mut all = NOTHING;
    for field in fields {
        all = beside(all, extent_field(field));
    }
    all
}
