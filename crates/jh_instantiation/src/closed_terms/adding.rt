#![tactic(auto, using(jh_arena::proofs::table::Listed::growth_steps))]

ghost use Rattle.std.specs.Prelude.{◌≡◌, ◌<◌, ◌∷◌, [], List, true, OnOk, slice_get};
ghost use Rattle.jh_form.specs.Tree.{TermTree, IntTree, SetTree, FormulaTree};
ghost use Rattle.jh_arena.specs.table.Entries.{is_object, is_number, is_set, is_truth};
ghost use Rattle.jh_arena.specs.table.Nodes.{nodes};
ghost use Rattle.jh_inst.specs.instances.Terms.{terms_in, number_terms, set_terms, closed_terms, with_terms};
ghost use Rattle.jh_instantiation.specs.closed_terms.Listed.{Adds, closed_among};
ghost use Rattle.jh_instantiation.specs.skolem_constants.Standing.{IsFormula, IsTerm, IsNumber, IsSet};

use crate::closed_terms::terms::Terms;
use jh_arena::table::{Shape, Table};
use jh_name::NoMemory;

/// Adds a node where it has no loose bound variable.
fn add_closed(table: &Table, terms: &mut Terms, node: usize) -> Result<(), NoMemory>
    requires there { is_object (slice_get (nodes table.now) node) ≡ true }
    ensures { (a : TermTree) → IsTerm table.now node a → OnOk result (Adds table.now terms.old.nodes.keys terms.new.nodes.keys (λ ts. with_terms ts (closed_among (a ∷ [])))) }
{
    table.nodes_differ();
    if table.is_closed(node) {
        return terms.add(node);
    }
    Ok(())
}

/// Adds the closed ones of a term and of those inside it.
#[cycle(add_term)]
fn add_term(table: &Table, terms: &mut Terms, node: usize) -> Result<(), NoMemory>
    requires there { is_object (slice_get (nodes table.now) node) ≡ true }
    ensures { (a : TermTree) → IsTerm table.now node a → OnOk result (Adds table.now terms.old.nodes.keys terms.new.nodes.keys (λ ts. with_terms ts (closed_among (terms_in a)))) }
{
    match table.shape(node) {
        Shape::ReadObject(_, inner) => add_outer(table, terms, node, inner),
        _ => add_closed(table, terms, node),
    }
}

/// Adds a term, where it is closed, and then those of the term inside it.
#[cycle(add_term)]
fn add_outer(table: &Table, terms: &mut Terms, node: usize, inner: usize) -> Result<(), NoMemory>
    requires there { is_object (slice_get (nodes table.now) node) ≡ true }
    requires inner { is_object (slice_get (nodes table.now) inner) ≡ true }
    requires below { inner < node }
    ensures { (a : TermTree) (b : TermTree) → IsTerm table.now node a → IsTerm table.now inner b → OnOk result (Adds table.now terms.old.nodes.keys terms.new.nodes.keys (λ ts. with_terms (with_terms ts (closed_among (a ∷ []))) (closed_among (terms_in b)))) }
{
    add_closed(table, terms, node)?;
    add_term(table, terms, inner)
}

/// Adds those of a term for a number.
fn add_number(table: &Table, terms: &mut Terms, node: usize) -> Result<(), NoMemory>
    requires there { is_number (slice_get (nodes table.now) node) ≡ true }
    ensures { (a : IntTree) → IsNumber table.now node a → OnOk result (Adds table.now terms.old.nodes.keys terms.new.nodes.keys (λ ts. with_terms ts (closed_among (number_terms a)))) }
{
    match table.shape(node) {
        Shape::ReadNumber(_, inner) => add_term(table, terms, inner),
        _ => Ok(()),
    }
}

/// Adds those of a term for a set.
fn add_set(table: &Table, terms: &mut Terms, node: usize) -> Result<(), NoMemory>
    requires there { is_set (slice_get (nodes table.now) node) ≡ true }
    ensures { (a : SetTree) → IsSet table.now node a → OnOk result (Adds table.now terms.old.nodes.keys terms.new.nodes.keys (λ ts. with_terms ts (closed_among (set_terms a)))) }
{
    match table.shape(node) {
        Shape::ReadSet(_, inner) => add_term(table, terms, inner),
        _ => Ok(()),
    }
}

/// Adds those of two terms, one behind the other.
fn add_two(table: &Table, terms: &mut Terms, a: usize, b: usize) -> Result<(), NoMemory>
    requires first { is_object (slice_get (nodes table.now) a) ≡ true }
    requires second { is_object (slice_get (nodes table.now) b) ≡ true }
    ensures { (p q : TermTree) → IsTerm table.now a p → IsTerm table.now b q → OnOk result (Adds table.now terms.old.nodes.keys terms.new.nodes.keys (λ ts. with_terms (with_terms ts (closed_among (terms_in p))) (closed_among (terms_in q)))) }
{
    add_term(table, terms, a)?;
    add_term(table, terms, b)
}

/// Adds those of two terms for numbers.
fn add_numbers(table: &Table, terms: &mut Terms, a: usize, b: usize) -> Result<(), NoMemory>
    requires first { is_number (slice_get (nodes table.now) a) ≡ true }
    requires second { is_number (slice_get (nodes table.now) b) ≡ true }
    ensures { (p q : IntTree) → IsNumber table.now a p → IsNumber table.now b q → OnOk result (Adds table.now terms.old.nodes.keys terms.new.nodes.keys (λ ts. with_terms (with_terms ts (closed_among (number_terms p))) (closed_among (number_terms q)))) }
{
    add_number(table, terms, a)?;
    add_number(table, terms, b)
}

/// Adds those of a term and of a term for a set.
fn add_member(table: &Table, terms: &mut Terms, a: usize, b: usize) -> Result<(), NoMemory>
    requires first { is_object (slice_get (nodes table.now) a) ≡ true }
    requires second { is_set (slice_get (nodes table.now) b) ≡ true }
    ensures { (p : TermTree) (q : SetTree) → IsTerm table.now a p → IsSet table.now b q → OnOk result (Adds table.now terms.old.nodes.keys terms.new.nodes.keys (λ ts. with_terms (with_terms ts (closed_among (terms_in p))) (closed_among (set_terms q)))) }
{
    add_term(table, terms, a)?;
    add_set(table, terms, b)
}

/// Adds those of a formula, which nests as deep as the table takes.
#[cycle(add_formula)]
fn add_formula(table: &Table, terms: &mut Terms, node: usize) -> Result<(), NoMemory>
    requires there { is_truth (slice_get (nodes table.now) node) ≡ true }
    ensures { (a : FormulaTree) → IsFormula table.now node a → OnOk result (Adds table.now terms.old.nodes.keys terms.new.nodes.keys (λ ts. with_terms ts (closed_terms a))) }
{
    match table.shape(node) {
        Shape::Negation(a) => add_formula(table, terms, a),
        Shape::And(a, b) => add_both(table, terms, node, a, b),
        Shape::Or(a, b) => add_both(table, terms, node, a, b),
        Shape::All(a) => add_formula(table, terms, a),
        Shape::Ex(a) => add_formula(table, terms, a),
        Shape::ReadTruth(_, a) => add_term(table, terms, a),
        Shape::EqObject(a, b) => add_two(table, terms, a, b),
        Shape::EqNumber(a, b) => add_numbers(table, terms, a, b),
        Shape::Member(a, b) => add_member(table, terms, a, b),
        Shape::Reach(_, a, b) => add_two(table, terms, a, b),
        _ => Ok(()),
    }
}

/// Adds those of two formulas, one behind the other.
#[cycle(add_formula)]
fn add_both(
    table: &Table,
    terms: &mut Terms,
    node: usize,
    a: usize,
    b: usize,
) -> Result<(), NoMemory>
    requires first { is_truth (slice_get (nodes table.now) a) ≡ true }
    requires second { is_truth (slice_get (nodes table.now) b) ≡ true }
    requires below { (a < node) × (b < node) }
    ensures { (p q : FormulaTree) → IsFormula table.now a p → IsFormula table.now b q → OnOk result (Adds table.now terms.old.nodes.keys terms.new.nodes.keys (λ ts. with_terms (with_terms ts (closed_terms p)) (closed_terms q))) }
{
    add_formula(table, terms, a)?;
    add_formula(table, terms, b)
}

/// Adds the closed terms for objects of a formula, each where it isn't there, in the order in which they stand, an outer one
/// before those inside it. The time is in proportion to the formula, each part counted where it stands. The answer is want of
/// memory where the formula nests deeper than MOST_LEVELS of the table; none is added then.
pub fn add_closed_terms(table: &Table, terms: &mut Terms, node: usize) -> Result<(), NoMemory>
    requires there { is_truth (slice_get (nodes table.now) node) ≡ true }
    ensures { (a : FormulaTree) → IsFormula table.now node a → OnOk result (Adds table.now terms.old.nodes.keys terms.new.nodes.keys (λ ts. with_terms ts (closed_terms a))) }
{
    if !table.is_shallow(node) {
        return Err(NoMemory);
    }
    add_formula(table, terms, node)
}
