// Written by tools/compare.py.
#![tactic(auto, using(jh_form::proofs::Steps::tree_steps, crate::proofs::comparison::CompareSteps::here_steps, crate::proofs::comparison::CompareSteps::compare_steps, crate::proofs::comparison::CompareSteps::other_steps))]

ghost use Rattle.std.specs.Prelude.{◌≡◌};
ghost use Rattle.jh_form.specs.Bare.{term_tree, int_tree, set_tree, field_tree, value_tree, formula_tree, list_tree};
ghost use Rattle.jh_boxed_operations.specs.comparison.Compared.{seen, related_term, related_int, related_set, related_field, related_value, related_formula, related_fields};

use crate::comparison::exchange::Exchange;
use crate::comparison::marks::{marks_are_one, past_marks};
use crate::comparison::numbers::numbers_are_one;
use crate::substitution::names_are_one;
use jh_form::{FieldTerm, Formula, IntTerm, SetTerm, Term, Value};

/// A formula as it is compared: with its labels, or past them.
fn seen_of(formula: &Formula, labels: bool) -> &Formula
    ensures { formula_tree result.now ≡ seen labels (formula_tree formula.now) }
{
    if labels { formula } else { past_marks(formula) }
}

#[cycle(related)]
pub fn related_term<E: Exchange>(left: &Term, right: &Term, exchange: &E) -> bool
    ensures { result ≡ related_term (term_tree left.now) (E.labels exchange.now) (E.pairs exchange.now) (term_tree right.now) }
{
    if exchange.terms(left, right) {
        return true;
    }
    match left {
        Term::Bound(number) => match right {
            Term::Bound(other_number) => *number == *other_number,
            _ => false,
        },
        Term::Free(name) => match right {
            Term::Free(other_name) => names_are_one(name, other_name),
            _ => false,
        },
        Term::Null => match right {
            Term::Null => true,
            _ => false,
        },
        Term::Read(a, b) => match right {
            Term::Read(other_a, other_b) => related_field(a, other_a, exchange)
                && related_term(b, other_b, exchange),
            _ => false,
        },
    }
}

#[cycle(related)]
pub fn related_int<E: Exchange>(left: &IntTerm, right: &IntTerm, exchange: &E) -> bool
    ensures { result ≡ related_int (int_tree left.now) (E.labels exchange.now) (E.pairs exchange.now) (int_tree right.now) }
{
    if exchange.ints(left, right) {
        return true;
    }
    match left {
        IntTerm::Const(number) => match right {
            IntTerm::Const(other_number) => numbers_are_one(number, other_number),
            _ => false,
        },
        IntTerm::Free(name) => match right {
            IntTerm::Free(other_name) => names_are_one(name, other_name),
            _ => false,
        },
        IntTerm::Read(a, b) => match right {
            IntTerm::Read(other_a, other_b) => related_field(a, other_a, exchange)
                && related_term(b, other_b, exchange),
            _ => false,
        },
        IntTerm::Add(a, b) => match right {
            IntTerm::Add(other_a, other_b) => related_int(a, other_a, exchange)
                && related_int(b, other_b, exchange),
            _ => false,
        },
        IntTerm::Sub(a, b) => match right {
            IntTerm::Sub(other_a, other_b) => related_int(a, other_a, exchange)
                && related_int(b, other_b, exchange),
            _ => false,
        },
        IntTerm::Neg(a) => match right {
            IntTerm::Neg(other_a) => related_int(a, other_a, exchange),
            _ => false,
        },
        IntTerm::Scale(number, a) => match right {
            IntTerm::Scale(other_number, other_a) => numbers_are_one(number, other_number)
                && related_int(a, other_a, exchange),
            _ => false,
        },
        IntTerm::Card(a) => match right {
            IntTerm::Card(other_a) => related_set(a, other_a, exchange),
            _ => false,
        },
    }
}

#[cycle(related)]
pub fn related_set<E: Exchange>(left: &SetTerm, right: &SetTerm, exchange: &E) -> bool
    ensures { result ≡ related_set (set_tree left.now) (E.labels exchange.now) (E.pairs exchange.now) (set_tree right.now) }
{
    if exchange.sets(left, right) {
        return true;
    }
    match left {
        SetTerm::Free(name) => match right {
            SetTerm::Free(other_name) => names_are_one(name, other_name),
            _ => false,
        },
        SetTerm::Read(a, b) => match right {
            SetTerm::Read(other_a, other_b) => related_field(a, other_a, exchange)
                && related_term(b, other_b, exchange),
            _ => false,
        },
        SetTerm::Empty => match right {
            SetTerm::Empty => true,
            _ => false,
        },
        SetTerm::Univ => match right {
            SetTerm::Univ => true,
            _ => false,
        },
        SetTerm::Single(a) => match right {
            SetTerm::Single(other_a) => related_term(a, other_a, exchange),
            _ => false,
        },
        SetTerm::Union(a, b) => match right {
            SetTerm::Union(other_a, other_b) => related_set(a, other_a, exchange)
                && related_set(b, other_b, exchange),
            _ => false,
        },
        SetTerm::Inter(a, b) => match right {
            SetTerm::Inter(other_a, other_b) => related_set(a, other_a, exchange)
                && related_set(b, other_b, exchange),
            _ => false,
        },
        SetTerm::Diff(a, b) => match right {
            SetTerm::Diff(other_a, other_b) => related_set(a, other_a, exchange)
                && related_set(b, other_b, exchange),
            _ => false,
        },
        SetTerm::Compl(a) => match right {
            SetTerm::Compl(other_a) => related_set(a, other_a, exchange),
            _ => false,
        },
        SetTerm::Compr(a) => match right {
            SetTerm::Compr(other_a) => related_formula(a, other_a, exchange),
            _ => false,
        },
    }
}

#[cycle(related)]
pub fn related_field<E: Exchange>(left: &FieldTerm, right: &FieldTerm, exchange: &E) -> bool
    ensures { result ≡ related_field (field_tree left.now) (E.labels exchange.now) (E.pairs exchange.now) (field_tree right.now) }
{
    if exchange.fields(left, right) {
        return true;
    }
    match left {
        FieldTerm::Free(name) => match right {
            FieldTerm::Free(other_name) => names_are_one(name, other_name),
            _ => false,
        },
        FieldTerm::Update(a, b, c) => match right {
            FieldTerm::Update(other_a, other_b, other_c) => related_field(a, other_a, exchange)
                && related_term(b, other_b, exchange)
                && related_value(c, other_c, exchange),
            _ => false,
        },
    }
}

#[cycle(related)]
pub fn related_value<E: Exchange>(left: &Value, right: &Value, exchange: &E) -> bool
    ensures { result ≡ related_value (value_tree left.now) (E.labels exchange.now) (E.pairs exchange.now) (value_tree right.now) }
{
    match left {
        Value::Obj(a) => match right {
            Value::Obj(other_a) => related_term(a, other_a, exchange),
            _ => false,
        },
        Value::Int(a) => match right {
            Value::Int(other_a) => related_int(a, other_a, exchange),
            _ => false,
        },
        Value::Bool(a) => match right {
            Value::Bool(other_a) => related_formula(a, other_a, exchange),
            _ => false,
        },
        Value::Set(a) => match right {
            Value::Set(other_a) => related_set(a, other_a, exchange),
            _ => false,
        },
        Value::Field(a) => match right {
            Value::Field(other_a) => related_field(a, other_a, exchange),
            _ => false,
        },
    }
}

#[cycle(related)]
pub fn related_formula<E: Exchange>(left: &Formula, right: &Formula, exchange: &E) -> bool
    ensures { result ≡ related_formula (formula_tree left.now) (E.labels exchange.now) (E.pairs exchange.now) (formula_tree right.now) }
{
    if exchange.formulas(left, right) {
        return true;
    }
    let seen = seen_of(right, exchange.labels());
    match left {
        Formula::True => match seen {
            Formula::True => true,
            _ => false,
        },
        Formula::False => match seen {
            Formula::False => true,
            _ => false,
        },
        Formula::Free(name) => match seen {
            Formula::Free(other_name) => names_are_one(name, other_name),
            _ => false,
        },
        Formula::Read(a, b) => match seen {
            Formula::Read(other_a, other_b) => related_field(a, other_a, exchange)
                && related_term(b, other_b, exchange),
            _ => false,
        },
        Formula::Not(a) => match seen {
            Formula::Not(other_a) => related_formula(a, other_a, exchange),
            _ => false,
        },
        Formula::And(a, b) => match seen {
            Formula::And(other_a, other_b) => related_formula(a, other_a, exchange)
                && related_formula(b, other_b, exchange),
            _ => false,
        },
        Formula::Or(a, b) => match seen {
            Formula::Or(other_a, other_b) => related_formula(a, other_a, exchange)
                && related_formula(b, other_b, exchange),
            _ => false,
        },
        Formula::Implies(a, b) => match seen {
            Formula::Implies(other_a, other_b) => related_formula(a, other_a, exchange)
                && related_formula(b, other_b, exchange),
            _ => false,
        },
        Formula::Iff(a, b) => match seen {
            Formula::Iff(other_a, other_b) => related_formula(a, other_a, exchange)
                && related_formula(b, other_b, exchange),
            _ => false,
        },
        Formula::All(a) => match seen {
            Formula::All(other_a) => related_formula(a, other_a, exchange),
            _ => false,
        },
        Formula::Ex(a) => match seen {
            Formula::Ex(other_a) => related_formula(a, other_a, exchange),
            _ => false,
        },
        Formula::EqObj(a, b) => match seen {
            Formula::EqObj(other_a, other_b) => related_term(a, other_a, exchange)
                && related_term(b, other_b, exchange),
            _ => false,
        },
        Formula::EqInt(a, b) => match seen {
            Formula::EqInt(other_a, other_b) => related_int(a, other_a, exchange)
                && related_int(b, other_b, exchange),
            _ => false,
        },
        Formula::EqSet(a, b) => match seen {
            Formula::EqSet(other_a, other_b) => related_set(a, other_a, exchange)
                && related_set(b, other_b, exchange),
            _ => false,
        },
        Formula::Less(a, b) => match seen {
            Formula::Less(other_a, other_b) => related_int(a, other_a, exchange)
                && related_int(b, other_b, exchange),
            _ => false,
        },
        Formula::LessEq(a, b) => match seen {
            Formula::LessEq(other_a, other_b) => related_int(a, other_a, exchange)
                && related_int(b, other_b, exchange),
            _ => false,
        },
        Formula::Divides(number, a) => match seen {
            Formula::Divides(other_number, other_a) => numbers_are_one(number, other_number)
                && related_int(a, other_a, exchange),
            _ => false,
        },
        Formula::Member(a, b) => match seen {
            Formula::Member(other_a, other_b) => related_term(a, other_a, exchange)
                && related_set(b, other_b, exchange),
            _ => false,
        },
        Formula::Subset(a, b) => match seen {
            Formula::Subset(other_a, other_b) => related_set(a, other_a, exchange)
                && related_set(b, other_b, exchange),
            _ => false,
        },
        Formula::Reach(fields, a, b) => match seen {
            Formula::Reach(other_fields, other_a, other_b) => related_fields(
                fields.items(),
                other_fields.items(),
                exchange,
            ) && related_term(a, other_a, exchange)
                && related_term(b, other_b, exchange),
            _ => false,
        },
        Formula::Tree(fields) => match seen {
            Formula::Tree(other_fields) => related_fields(
                fields.items(),
                other_fields.items(),
                exchange,
            ),
            _ => false,
        },
        Formula::Mark(mark, a) if exchange.labels() => match seen {
            Formula::Mark(other_mark, other_a) => marks_are_one(mark, other_mark)
                && related_formula(a, other_a, exchange),
            _ => false,
        },
        Formula::Mark(_, a) => related_formula(a, seen, exchange),
    }
}

#[cycle(related)]
pub fn related_fields<E: Exchange>(left: &[FieldTerm], right: &[FieldTerm], exchange: &E) -> bool
    ensures { result ≡ related_fields (list_tree left.now) (E.labels exchange.now) (E.pairs exchange.now) (list_tree right.now) }
{
    if left.len() != right.len() {
        return false;
    }
    for place in 0..left.len() {
        if !related_field(&left[place], &right[place], exchange) {
            return false;
        }
    }
    true
}
