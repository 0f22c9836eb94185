ghost use Rattle.std.specs.Prelude.{◌≡◌, true, IfOk, Some, slice_get};
ghost use Rattle.jh_form.specs.Tree.{of_truth};
ghost use Rattle.jh_arena.specs.table.Entries.{is_truth, the_truth};
ghost use Rattle.jh_arena.specs.table.Growth.{Extends};
ghost use Rattle.jh_arena.specs.table.Nodes.{nodes};
ghost use Rattle.jh_approx.specs.definition.Shown.{negation_of};
ghost use Rattle.jh_query_names.specs.visible_part.Folding as spec;

use jh_arena::makers::{
    conjunction, disjunction, equivalence, falsehood, implication, negation, truth,
};
use jh_arena::table::{Shape, Table};
use jh_name::NoMemory;

/// How two formulas are joined.
#[derive(Clone, Copy, PartialEq, Eq)]
pub enum Connective {
    And,
    Or,
    Implies,
    Iff,
}

/// What is left of two formulas that are joined, where True and False are folded away.
#[derive(Clone, Copy, PartialEq, Eq)]
pub enum Rest {
    True,
    False,
    Left,
    Right,
    NotLeft,
    NotRight,
    Both,
}

/// The truth that a formula is at sight, where it is True or False.
pub(crate) fn constant(table: &Table, node: usize) -> Option<bool>
    requires { is_truth (slice_get (nodes table.now) node) ≡ true }
    ensures { result ≡ spec.constant (the_truth (slice_get (nodes table.now) node)) }
{
    match table.shape(node) {
        Shape::True => Some(true),
        Shape::False => Some(false),
        _ => None,
    }
}

fn folded_and(left: Option<bool>, right: Option<bool>) -> Rest
    ensures { result ≡ spec.folded_and left right }
{
    match left {
        Some(true) => Rest::Right,
        Some(false) => Rest::False,
        None => match right {
            Some(true) => Rest::Left,
            Some(false) => Rest::False,
            None => Rest::Both,
        },
    }
}

fn folded_or(left: Option<bool>, right: Option<bool>) -> Rest
    ensures { result ≡ spec.folded_or left right }
{
    match left {
        Some(true) => Rest::True,
        Some(false) => Rest::Right,
        None => match right {
            Some(true) => Rest::True,
            Some(false) => Rest::Left,
            None => Rest::Both,
        },
    }
}

fn folded_implies(left: Option<bool>, right: Option<bool>) -> Rest
    ensures { result ≡ spec.folded_implies left right }
{
    match left {
        Some(true) => Rest::Right,
        Some(false) => Rest::True,
        None => match right {
            Some(true) => Rest::True,
            Some(false) => Rest::NotLeft,
            None => Rest::Both,
        },
    }
}

fn folded_iff(left: Option<bool>, right: Option<bool>) -> Rest
    ensures { result ≡ spec.folded_iff left right }
{
    match left {
        Some(true) => Rest::Right,
        Some(false) => match right {
            Some(true) => Rest::False,
            Some(false) => Rest::True,
            None => Rest::NotRight,
        },
        None => match right {
            Some(true) => Rest::Left,
            Some(false) => Rest::NotLeft,
            None => Rest::Both,
        },
    }
}

/// What is left of two formulas that are joined.
fn folded(connective: Connective, left: Option<bool>, right: Option<bool>) -> Rest
    ensures { result ≡ spec.folded connective left right }
{
    match connective {
        Connective::And => folded_and(left, right),
        Connective::Or => folded_or(left, right),
        Connective::Implies => folded_implies(left, right),
        Connective::Iff => folded_iff(left, right),
    }
}

/// Two formulas joined as they stand.
fn both(table: &mut Table, connective: Connective, a: usize, b: usize) -> Result<usize, NoMemory>
    requires a { is_truth (slice_get (nodes table.old) a) ≡ true }
    requires b { is_truth (slice_get (nodes table.old) b) ≡ true }
    ensures node { IfOk result (λ made. slice_get (nodes table.new) made ≡ Some (of_truth (spec.both connective (the_truth (slice_get (nodes table.old) a)) (the_truth (slice_get (nodes table.old) b))))) }
    ensures grows { Extends table.old table.new }
{
    match connective {
        Connective::And => conjunction(table, a, b),
        Connective::Or => disjunction(table, a, b),
        Connective::Implies => implication(table, a, b),
        Connective::Iff => equivalence(table, a, b),
    }
}

/// Two formulas of which this is left.
fn left_of(
    table: &mut Table,
    folded: Rest,
    connective: Connective,
    a: usize,
    b: usize,
) -> Result<usize, NoMemory>
    requires a { is_truth (slice_get (nodes table.old) a) ≡ true }
    requires b { is_truth (slice_get (nodes table.old) b) ≡ true }
    ensures node { IfOk result (λ made. slice_get (nodes table.new) made ≡ Some (of_truth (spec.left_of folded connective (the_truth (slice_get (nodes table.old) a)) (the_truth (slice_get (nodes table.old) b))))) }
    ensures grows { Extends table.old table.new }
{
    match folded {
        Rest::True => truth(table),
        Rest::False => falsehood(table),
        Rest::Left => Ok(a),
        Rest::Right => Ok(b),
        Rest::NotLeft => negation(table, a),
        Rest::NotRight => negation(table, b),
        Rest::Both => both(table, connective, a, b),
    }
}

/// Two formulas joined, where True and False are folded away.
pub(crate) fn join(
    table: &mut Table,
    connective: Connective,
    a: usize,
    b: usize,
) -> Result<usize, NoMemory>
    requires a { is_truth (slice_get (nodes table.old) a) ≡ true }
    requires b { is_truth (slice_get (nodes table.old) b) ≡ true }
    ensures node { IfOk result (λ made. slice_get (nodes table.new) made ≡ Some (of_truth (spec.joined connective (the_truth (slice_get (nodes table.old) a)) (the_truth (slice_get (nodes table.old) b))))) }
    ensures grows { Extends table.old table.new }
{
    let left = constant(table, a);
    let right = constant(table, b);
    let rest = folded(connective, left, right);
    left_of(table, rest, connective, a, b)
}

/// A negation, where True and False are folded away.
pub(crate) fn negated(table: &mut Table, a: usize) -> Result<usize, NoMemory>
    requires a { is_truth (slice_get (nodes table.old) a) ≡ true }
    ensures node { IfOk result (λ made. slice_get (nodes table.new) made ≡ Some (of_truth (negation_of (the_truth (slice_get (nodes table.old) a))))) }
    ensures grows { Extends table.old table.new }
{
    match constant(table, a) {
        Some(true) => falsehood(table),
        Some(false) => truth(table),
        None => negation(table, a),
    }
}
