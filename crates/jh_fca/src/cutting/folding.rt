#![tactic(auto, using(jh_arena::proofs::table::Listed::growth_steps))]

ghost use Rattle.std.specs.Prelude.{◌≡◌, true, IfOk, Some, slice_get};
ghost use Rattle.jh_form.specs.Tree.{of_truth};
ghost use Rattle.jh_arena.specs.table.Entries.{is_truth, the_truth};
ghost use Rattle.jh_arena.specs.table.Growth.{Extends};
ghost use Rattle.jh_arena.specs.table.Nodes.{nodes};
ghost use Rattle.jh_approx.specs.definition.Shown.{negation_of, and_before, and_of, or_before, or_of, implies_before, implies_of, iff_before, iff_of};
ghost use Rattle.jh_fca.specs.cutting.Folding as spec;

use jh_arena::makers::{
    conjunction, disjunction, equivalence, falsehood, implication, negation, truth,
};
use jh_arena::table::{Shape, Table};
use jh_name::NoMemory;

/// The truth that a formula is at sight, where it is True or False.
pub(crate) fn constant(table: &Table, node: usize) -> Option<bool>
    requires { is_truth (slice_get (nodes table.now) node) ≡ true }
    ensures { result ≡ spec.constant (the_truth (slice_get (nodes table.now) node)) }
{
    match table.shape(node) {
        Shape::True => Some(true),
        Shape::False => Some(false),
        _ => None,
    }
}

/// The negation of a formula, with True and False folded away.
pub(crate) fn negation_of(table: &mut Table, a: usize) -> Result<usize, NoMemory>
    requires a { is_truth (slice_get (nodes table.old) a) ≡ true }
    ensures node { IfOk result (λ made. slice_get (nodes table.new) made ≡ Some (of_truth (negation_of (the_truth (slice_get (nodes table.old) a))))) }
    ensures grows { Extends table.old table.new }
{
    match constant(table, a) {
        Some(true) => falsehood(table),
        Some(false) => truth(table),
        None => negation(table, a),
    }
}

/// Two formulas joined by And, with True and False folded away.
pub(crate) fn and_of(table: &mut Table, a: usize, b: usize) -> Result<usize, NoMemory>
    requires a { is_truth (slice_get (nodes table.old) a) ≡ true }
    requires b { is_truth (slice_get (nodes table.old) b) ≡ true }
    ensures node { IfOk result (λ made. slice_get (nodes table.new) made ≡ Some (of_truth (and_of (the_truth (slice_get (nodes table.old) a)) (the_truth (slice_get (nodes table.old) b))))) }
    ensures grows { Extends table.old table.new }
{
    match constant(table, a) {
        Some(true) => Ok(b),
        Some(false) => Ok(a),
        None => and_before(table, a, b),
    }
}

/// The same, where the first is neither.
fn and_before(table: &mut Table, a: usize, b: usize) -> Result<usize, NoMemory>
    requires a { is_truth (slice_get (nodes table.old) a) ≡ true }
    requires b { is_truth (slice_get (nodes table.old) b) ≡ true }
    ensures node { IfOk result (λ made. slice_get (nodes table.new) made ≡ Some (of_truth (and_before (the_truth (slice_get (nodes table.old) a)) (the_truth (slice_get (nodes table.old) b))))) }
    ensures grows { Extends table.old table.new }
{
    match constant(table, b) {
        Some(true) => Ok(a),
        Some(false) => Ok(b),
        None => conjunction(table, a, b),
    }
}

/// Two formulas joined by Or, with True and False folded away.
pub(crate) fn or_of(table: &mut Table, a: usize, b: usize) -> Result<usize, NoMemory>
    requires a { is_truth (slice_get (nodes table.old) a) ≡ true }
    requires b { is_truth (slice_get (nodes table.old) b) ≡ true }
    ensures node { IfOk result (λ made. slice_get (nodes table.new) made ≡ Some (of_truth (or_of (the_truth (slice_get (nodes table.old) a)) (the_truth (slice_get (nodes table.old) b))))) }
    ensures grows { Extends table.old table.new }
{
    match constant(table, a) {
        Some(true) => Ok(a),
        Some(false) => Ok(b),
        None => or_before(table, a, b),
    }
}

/// The same, where the first is neither.
fn or_before(table: &mut Table, a: usize, b: usize) -> Result<usize, NoMemory>
    requires a { is_truth (slice_get (nodes table.old) a) ≡ true }
    requires b { is_truth (slice_get (nodes table.old) b) ≡ true }
    ensures node { IfOk result (λ made. slice_get (nodes table.new) made ≡ Some (of_truth (or_before (the_truth (slice_get (nodes table.old) a)) (the_truth (slice_get (nodes table.old) b))))) }
    ensures grows { Extends table.old table.new }
{
    match constant(table, b) {
        Some(true) => Ok(b),
        Some(false) => Ok(a),
        None => disjunction(table, a, b),
    }
}

/// An implication, with True and False folded away.
pub(crate) fn implies_of(table: &mut Table, a: usize, b: usize) -> Result<usize, NoMemory>
    requires a { is_truth (slice_get (nodes table.old) a) ≡ true }
    requires b { is_truth (slice_get (nodes table.old) b) ≡ true }
    ensures node { IfOk result (λ made. slice_get (nodes table.new) made ≡ Some (of_truth (implies_of (the_truth (slice_get (nodes table.old) a)) (the_truth (slice_get (nodes table.old) b))))) }
    ensures grows { Extends table.old table.new }
{
    match constant(table, a) {
        Some(true) => Ok(b),
        Some(false) => truth(table),
        None => implies_before(table, a, b),
    }
}

/// The same, where the first is neither.
fn implies_before(table: &mut Table, a: usize, b: usize) -> Result<usize, NoMemory>
    requires a { is_truth (slice_get (nodes table.old) a) ≡ true }
    requires b { is_truth (slice_get (nodes table.old) b) ≡ true }
    ensures node { IfOk result (λ made. slice_get (nodes table.new) made ≡ Some (of_truth (implies_before (the_truth (slice_get (nodes table.old) a)) (the_truth (slice_get (nodes table.old) b))))) }
    ensures grows { Extends table.old table.new }
{
    match constant(table, b) {
        Some(true) => Ok(b),
        Some(false) => negation_of(table, a),
        None => implication(table, a, b),
    }
}

/// An equivalence, with True and False folded away.
pub(crate) fn iff_of(table: &mut Table, a: usize, b: usize) -> Result<usize, NoMemory>
    requires a { is_truth (slice_get (nodes table.old) a) ≡ true }
    requires b { is_truth (slice_get (nodes table.old) b) ≡ true }
    ensures node { IfOk result (λ made. slice_get (nodes table.new) made ≡ Some (of_truth (iff_of (the_truth (slice_get (nodes table.old) a)) (the_truth (slice_get (nodes table.old) b))))) }
    ensures grows { Extends table.old table.new }
{
    match constant(table, a) {
        Some(true) => Ok(b),
        Some(false) => negation_of(table, b),
        None => iff_before(table, a, b),
    }
}

/// The same, where the first is neither.
fn iff_before(table: &mut Table, a: usize, b: usize) -> Result<usize, NoMemory>
    requires a { is_truth (slice_get (nodes table.old) a) ≡ true }
    requires b { is_truth (slice_get (nodes table.old) b) ≡ true }
    ensures node { IfOk result (λ made. slice_get (nodes table.new) made ≡ Some (of_truth (iff_before (the_truth (slice_get (nodes table.old) a)) (the_truth (slice_get (nodes table.old) b))))) }
    ensures grows { Extends table.old table.new }
{
    match constant(table, b) {
        Some(true) => Ok(a),
        Some(false) => negation_of(table, a),
        None => equivalence(table, a, b),
    }
}
