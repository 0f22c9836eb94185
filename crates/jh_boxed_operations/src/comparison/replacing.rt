#![tactic(auto, using(jh_form::proofs::Steps::tree_steps, crate::proofs::comparison::CompareSteps::here_steps, crate::proofs::comparison::CompareSteps::compare_steps, crate::proofs::comparison::CompareSteps::other_steps))]

ghost use Rattle.std.specs.Prelude.{◌≡◌, ◌↔◌, ◌&&◌, IsTrue, true};
ghost use Rattle.jh_form.specs.Tree as tree;
ghost use Rattle.jh_form.specs.Bare.{term_tree, int_tree, set_tree, field_tree, value_tree, formula_tree};
ghost use Rattle.jh_boxed_operations.specs.comparison.Exchanged.{Exchanged, equal_trees};

use crate::comparison::comparing::{
    related_field, related_formula, related_int, related_set, related_term,
};
use crate::comparison::exchange::{Exchange, Nothing};
use jh_form::{FieldTerm, Formula, IntTerm, SetTerm, Term, Value};

fn is_term(term: &Term, value: &Value) -> bool
    ensures { result ≡ equal_trees (tree.of_object (term_tree term.now)) (value_tree value.now) }
{
    match value {
        Value::Obj(other) => related_term(term, other, &Nothing { labels: true }),
        _ => false,
    }
}

fn is_int(term: &IntTerm, value: &Value) -> bool
    ensures { result ≡ equal_trees (tree.of_number (int_tree term.now)) (value_tree value.now) }
{
    match value {
        Value::Int(other) => related_int(term, other, &Nothing { labels: true }),
        _ => false,
    }
}

fn is_set(term: &SetTerm, value: &Value) -> bool
    ensures { result ≡ equal_trees (tree.of_set (set_tree term.now)) (value_tree value.now) }
{
    match value {
        Value::Set(other) => related_set(term, other, &Nothing { labels: true }),
        _ => false,
    }
}

fn is_field(field: &FieldTerm, value: &Value) -> bool
    ensures { result ≡ equal_trees (tree.of_field (field_tree field.now)) (value_tree value.now) }
{
    match value {
        Value::Field(other) => related_field(field, other, &Nothing { labels: true }),
        _ => false,
    }
}

fn is_formula(formula: &Formula, value: &Value) -> bool
    ensures { result ≡ equal_trees (tree.of_truth (formula_tree formula.now)) (value_tree value.now) }
{
    match value {
        Value::Bool(other) => related_formula(formula, other, &Nothing { labels: true }),
        _ => false,
    }
}

/// The old value may be exchanged for the new one.
#[derive(Drop)]
struct Exchanging<'a> {
    old: &'a Value,
    new: &'a Value,
}

impl Exchange for Exchanging<'_> {
    ghost labels = { λ s. true };

    ghost pairs = { λ s u v. equal_trees u (value_tree s.old.now) && equal_trees v (value_tree s.new.now) };

    fn labels(&self) -> bool {
        true
    }

    fn terms(&self, left: &Term, right: &Term) -> bool {
        is_term(left, self.old) && is_term(right, self.new)
    }

    fn ints(&self, left: &IntTerm, right: &IntTerm) -> bool {
        is_int(left, self.old) && is_int(right, self.new)
    }

    fn sets(&self, left: &SetTerm, right: &SetTerm) -> bool {
        is_set(left, self.old) && is_set(right, self.new)
    }

    fn fields(&self, left: &FieldTerm, right: &FieldTerm) -> bool {
        is_field(left, self.old) && is_field(right, self.new)
    }

    fn formulas(&self, left: &Formula, right: &Formula) -> bool {
        is_formula(left, self.old) && is_formula(right, self.new)
    }
}

/// Whether the second formula is the first with some occurrences of the old value, none or all of them
/// maybe, exchanged for the new one. Labels are compared. It takes no memory.
pub fn replaces(from: &Formula, to: &Formula, old: &Value, new: &Value) -> bool
    ensures { IsTrue result ↔ Exchanged (formula_tree from.now) (formula_tree to.now) (value_tree old.now) (value_tree new.now) }
{
    related_formula(from, to, &Exchanging { old, new })
}
