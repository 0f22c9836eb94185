// Written by tools/walk_code.py.
#![tactic(auto, using(jh_form::proofs::Steps::tree_steps, jh_form::proofs::PassSteps::pass_steps))]

ghost use Rattle.std.specs.Prelude.{◌≡◌};
ghost use Rattle.jh_form.specs.Bare.{term_tree, int_tree, set_tree, field_tree, value_tree, formula_tree, list_tree};
ghost use Rattle.jh_form.specs.Passing.{term_passes, int_passes, set_passes, field_passes, value_passes, formula_passes, fields_passes};

use crate::walk::NameTest;
use jh_form::{FieldTerm, Formula, IntTerm, SetTerm, Term, Value};
use jh_name::Sort;

#[cycle(names)]
pub fn names_term<T: NameTest>(term: &Term, test: &T) -> bool
    ensures { result ≡ term_passes (term_tree term.now) (T.test test.now) }
{
    match term {
        Term::Bound(_) => true,
        Term::Free(name) => test.passes(name, Sort::Obj),
        Term::Null => true,
        Term::Read(a, b) => names_field(a, test) && names_term(b, test),
    }
}

#[cycle(names)]
pub fn names_int<T: NameTest>(term: &IntTerm, test: &T) -> bool
    ensures { result ≡ int_passes (int_tree term.now) (T.test test.now) }
{
    match term {
        IntTerm::Const(_) => true,
        IntTerm::Free(name) => test.passes(name, Sort::Int),
        IntTerm::Read(a, b) => names_field(a, test) && names_term(b, test),
        IntTerm::Add(a, b) => names_int(a, test) && names_int(b, test),
        IntTerm::Sub(a, b) => names_int(a, test) && names_int(b, test),
        IntTerm::Neg(a) => names_int(a, test),
        IntTerm::Scale(_, a) => names_int(a, test),
        IntTerm::Card(a) => names_set(a, test),
    }
}

#[cycle(names)]
pub fn names_set<T: NameTest>(term: &SetTerm, test: &T) -> bool
    ensures { result ≡ set_passes (set_tree term.now) (T.test test.now) }
{
    match term {
        SetTerm::Free(name) => test.passes(name, Sort::Set),
        SetTerm::Read(a, b) => names_field(a, test) && names_term(b, test),
        SetTerm::Empty => true,
        SetTerm::Univ => true,
        SetTerm::Single(a) => names_term(a, test),
        SetTerm::Union(a, b) => names_set(a, test) && names_set(b, test),
        SetTerm::Inter(a, b) => names_set(a, test) && names_set(b, test),
        SetTerm::Diff(a, b) => names_set(a, test) && names_set(b, test),
        SetTerm::Compl(a) => names_set(a, test),
        SetTerm::Compr(a) => names_formula(a, test),
    }
}

#[cycle(names)]
pub fn names_field<T: NameTest>(field: &FieldTerm, test: &T) -> bool
    ensures { result ≡ field_passes (field_tree field.now) (T.test test.now) }
{
    match field {
        FieldTerm::Free(name) => test.passes(name, Sort::Field),
        FieldTerm::Update(a, b, c) => names_field(a, test)
            && names_term(b, test)
            && names_value(c, test),
    }
}

#[cycle(names)]
pub fn names_value<T: NameTest>(value: &Value, test: &T) -> bool
    ensures { result ≡ value_passes (value_tree value.now) (T.test test.now) }
{
    match value {
        Value::Obj(a) => names_term(a, test),
        Value::Int(a) => names_int(a, test),
        Value::Bool(a) => names_formula(a, test),
        Value::Set(a) => names_set(a, test),
        Value::Field(a) => names_field(a, test),
    }
}

#[cycle(names)]
pub fn names_formula<T: NameTest>(formula: &Formula, test: &T) -> bool
    ensures { result ≡ formula_passes (formula_tree formula.now) (T.test test.now) }
{
    match formula {
        Formula::True => true,
        Formula::False => true,
        Formula::Free(name) => test.passes(name, Sort::Bool),
        Formula::Read(a, b) => names_field(a, test) && names_term(b, test),
        Formula::Not(a) => names_formula(a, test),
        Formula::And(a, b) => names_formula(a, test) && names_formula(b, test),
        Formula::Or(a, b) => names_formula(a, test) && names_formula(b, test),
        Formula::Implies(a, b) => names_formula(a, test) && names_formula(b, test),
        Formula::Iff(a, b) => names_formula(a, test) && names_formula(b, test),
        Formula::All(a) => names_formula(a, test),
        Formula::Ex(a) => names_formula(a, test),
        Formula::EqObj(a, b) => names_term(a, test) && names_term(b, test),
        Formula::EqInt(a, b) => names_int(a, test) && names_int(b, test),
        Formula::EqSet(a, b) => names_set(a, test) && names_set(b, test),
        Formula::Less(a, b) => names_int(a, test) && names_int(b, test),
        Formula::LessEq(a, b) => names_int(a, test) && names_int(b, test),
        Formula::Divides(_, a) => names_int(a, test),
        Formula::Member(a, b) => names_term(a, test) && names_set(b, test),
        Formula::Subset(a, b) => names_set(a, test) && names_set(b, test),
        Formula::Reach(fields, a, b) => names_fields(fields.items(), test)
            && names_term(a, test)
            && names_term(b, test),
        Formula::Tree(fields) => names_fields(fields.items(), test),
        Formula::Mark(_, a) => names_formula(a, test),
    }
}

#[cycle(names)]
pub fn names_fields<T: NameTest>(fields: &[FieldTerm], test: &T) -> bool
    ensures { result ≡ fields_passes (list_tree fields.now) (T.test test.now) }
{
    for field in fields {
        if !names_field(field, test) {
            return false;
        }
    }
    true
}
