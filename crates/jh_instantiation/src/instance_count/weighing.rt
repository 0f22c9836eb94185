#![tactic(auto, using(jh_arena::proofs::table::Listed::growth_steps))]

ghost use Rattle.std.specs.Prelude.{◌≡◌, ◌+◌, ◌<◌, [], ◌∷◌, ◌++◌, true, IfOk, suc, slice_get};
ghost use Rattle.jh_form.specs.Tree.{TermTree, IntTree, SetTree, FormulaTree};
ghost use Rattle.jh_form.specs.Tree as t;
ghost use Rattle.jh_arena.specs.table.Entries.{is_object, is_number, is_set, is_truth};
ghost use Rattle.jh_arena.specs.table.Nodes.{nodes};
ghost use Rattle.jh_query.specs.queries.Size.{capped};
ghost use Rattle.jh_inst.specs.instances.Count.{total, term_weight};
ghost use Rattle.jh_inst.specs.instances.Count as spec;
ghost use Rattle.jh_inst.specs.instances.Terms.{terms_in, number_terms, set_terms};
ghost use Rattle.jh_instantiation.specs.instance_count.Atoms.{atom_terms};
ghost use Rattle.jh_instantiation.specs.skolem_constants.Standing.{IsFormula, IsTerm, IsNumber, IsSet};

use crate::instance_count::capped::plus;
use crate::instance_count::powers::power;
use jh_arena::table::{Shape, Table};
use jh_name::NoMemory;

/// At how many terms a variable is put, and the powers of that for the binders round a formula, the innermost binder's first.
#[derive(Clone, Copy)]
pub(crate) struct Scope<'a> {
    pub(crate) terms: u128,
    pub(crate) powers: &'a [usize],
}

/// What a term and those inside it weigh together, and what each of them weighs.
#[derive(Clone, Copy)]
struct Weights {
    all: u128,
    each: u128,
}

/// What a bound variable weighs.
fn variable(scope: Scope<'_>, number: u32) -> u128
    ensures { result ≡ capped (term_weight scope.entry.terms scope.entry.powers.now (t.bound number)) }
{
    match scope.powers.get(number as usize) {
        Some(exponent) => power(scope.terms, *exponent),
        None => 1,
    }
}

/// What a term and those inside it weigh.
#[cycle(chain)]
fn chain(table: &Table, scope: Scope<'_>, node: usize) -> Weights
    requires there { is_object (slice_get (nodes table.now) node) ≡ true }
    ensures all { (a : TermTree) → IsTerm table.now node a → result.all ≡ capped (total (term_weight scope.entry.terms scope.entry.powers.now) (terms_in a)) }
    ensures each { (a : TermTree) → IsTerm table.now node a → result.each ≡ capped (term_weight scope.entry.terms scope.entry.powers.now a) }
{
    match table.shape(node) {
        Shape::ReadObject(_, inner) => {
            let inner = chain(table, scope, inner);
            Weights {
                all: plus(inner.each, inner.all),
                each: inner.each,
            }
        }
        Shape::Bound(number) => {
            let each = variable(scope, number);
            Weights { all: each, each }
        }
        _ => Weights { all: 0, each: 0 },
    }
}

/// What the terms of a term for a number weigh.
fn number(table: &Table, scope: Scope<'_>, node: usize) -> u128
    requires there { is_number (slice_get (nodes table.now) node) ≡ true }
    ensures { (a : IntTree) → IsNumber table.now node a → result ≡ capped (total (term_weight scope.entry.terms scope.entry.powers.now) (number_terms a)) }
{
    match table.shape(node) {
        Shape::ReadNumber(_, inner) => chain(table, scope, inner).all,
        _ => 0,
    }
}

/// What the terms of a term for a set weigh.
fn set(table: &Table, scope: Scope<'_>, node: usize) -> u128
    requires there { is_set (slice_get (nodes table.now) node) ≡ true }
    ensures { (a : SetTree) → IsSet table.now node a → result ≡ capped (total (term_weight scope.entry.terms scope.entry.powers.now) (set_terms a)) }
{
    match table.shape(node) {
        Shape::ReadSet(_, inner) => chain(table, scope, inner).all,
        _ => 0,
    }
}

/// What the terms of two terms weigh.
fn two(table: &Table, scope: Scope<'_>, a: usize, b: usize) -> u128
    requires first { is_object (slice_get (nodes table.now) a) ≡ true }
    requires second { is_object (slice_get (nodes table.now) b) ≡ true }
    ensures { (p q : TermTree) → IsTerm table.now a p → IsTerm table.now b q → result ≡ capped (total (term_weight scope.entry.terms scope.entry.powers.now) (terms_in p ++ terms_in q)) }
{
    let first = chain(table, scope, a);
    let second = chain(table, scope, b);
    plus(first.all, second.all)
}

/// What the terms of two terms for numbers weigh.
fn two_numbers(table: &Table, scope: Scope<'_>, a: usize, b: usize) -> u128
    requires first { is_number (slice_get (nodes table.now) a) ≡ true }
    requires second { is_number (slice_get (nodes table.now) b) ≡ true }
    ensures { (p q : IntTree) → IsNumber table.now a p → IsNumber table.now b q → result ≡ capped (total (term_weight scope.entry.terms scope.entry.powers.now) (number_terms p ++ number_terms q)) }
{
    let first = number(table, scope, a);
    let second = number(table, scope, b);
    plus(first, second)
}

/// What the terms of a term and of a term for a set weigh.
fn member(table: &Table, scope: Scope<'_>, a: usize, b: usize) -> u128
    requires first { is_object (slice_get (nodes table.now) a) ≡ true }
    requires second { is_set (slice_get (nodes table.now) b) ≡ true }
    ensures { (p : TermTree) (q : SetTree) → IsTerm table.now a p → IsSet table.now b q → result ≡ capped (total (term_weight scope.entry.terms scope.entry.powers.now) (terms_in p ++ set_terms q)) }
{
    let first = chain(table, scope, a);
    let second = set(table, scope, b);
    plus(first.all, second)
}

/// What the terms of an atom weigh.
fn atom(table: &Table, scope: Scope<'_>, node: usize) -> u128
    requires there { is_truth (slice_get (nodes table.now) node) ≡ true }
    ensures { (a : FormulaTree) → IsFormula table.now node a → result ≡ capped (total (term_weight scope.entry.terms scope.entry.powers.now) (atom_terms a)) }
{
    match table.shape(node) {
        Shape::ReadTruth(_, a) => chain(table, scope, a).all,
        Shape::EqObject(a, b) => two(table, scope, a, b),
        Shape::EqNumber(a, b) => two_numbers(table, scope, a, b),
        Shape::Member(a, b) => member(table, scope, a, b),
        Shape::Reach(_, a, b) => two(table, scope, a, b),
        _ => 0,
    }
}

/// The power of a further binder before the others.
fn with_power(table: &Table, power: usize, powers: &[usize]) -> Result<Vec<usize>, NoMemory>
    ensures { IfOk result (λ made. made.items ≡ power ∷ powers.now) }
{
    let mut all = Vec::new(table.alloc());
    all.push(power)?;
    all.extend_from_slice(powers)?;
    Ok(all)
}

/// One more quantifier.
fn one_more(outer: usize) -> Result<usize, NoMemory>
    ensures { IfOk result (λ made. made ≡ outer + 1) }
{
    match outer.checked_add(1) {
        Some(more) => Ok(more),
        None => Err(NoMemory),
    }
}

/// What the terms of a formula weigh, round which so many quantifiers `all` stand. It nests as deep as the table takes.
#[cycle(weight)]
fn weight(table: &Table, scope: Scope<'_>, node: usize, outer: usize) -> Result<u128, NoMemory>
    requires there { is_truth (slice_get (nodes table.now) node) ≡ true }
    ensures { (a : FormulaTree) → IsFormula table.now node a → IfOk result (λ made. made ≡ capped (spec.weight scope.entry.terms a scope.entry.powers.now outer)) }
{
    match table.shape(node) {
        Shape::Negation(a) => weight(table, scope, a, outer),
        Shape::And(a, b) => both(table, scope, node, a, b, outer),
        Shape::Or(a, b) => both(table, scope, node, a, b, outer),
        Shape::All(a) => {
            let more = one_more(outer)?;
            inside(table, scope, node, a, 1, more)
        }
        Shape::Ex(a) => inside(table, scope, node, a, outer, outer),
        _ => Ok(atom(table, scope, node)),
    }
}

/// What the terms of two formulas weigh.
#[cycle(weight)]
fn both(
    table: &Table,
    scope: Scope<'_>,
    node: usize,
    a: usize,
    b: usize,
    outer: usize,
) -> Result<u128, NoMemory>
    requires first { is_truth (slice_get (nodes table.now) a) ≡ true }
    requires second { is_truth (slice_get (nodes table.now) b) ≡ true }
    requires below { (a < node) × (b < node) }
    ensures { (p q : FormulaTree) → IsFormula table.now a p → IsFormula table.now b q → IfOk result (λ made. made ≡ capped (spec.weight scope.entry.terms p scope.entry.powers.now outer + spec.weight scope.entry.terms q scope.entry.powers.now outer)) }
{
    let first = weight(table, scope, a, outer)?;
    let second = weight(table, scope, b, outer)?;
    Ok(plus(first, second))
}

/// What the terms of a formula behind a binder weigh.
#[cycle(weight)]
fn inside(
    table: &Table,
    scope: Scope<'_>,
    node: usize,
    a: usize,
    power: usize,
    outer: usize,
) -> Result<u128, NoMemory>
    requires there { is_truth (slice_get (nodes table.now) a) ≡ true }
    requires below { a < node }
    ensures { (p : FormulaTree) → IsFormula table.now a p → IfOk result (λ made. made ≡ capped (spec.weight scope.entry.terms p (power ∷ scope.entry.powers.now) outer)) }
{
    let powers = with_power(table, power, scope.powers)?;
    let inner = Scope {
        terms: scope.terms,
        powers: powers.as_slice(),
    };
    weight(table, inner, a, outer)
}

/// How many terms the instances of a universal add at most, where each variable is put at so many terms: the greatest u128
/// where that is passed. The answer is want of memory where the universal nests deeper than MOST_LEVELS of the table.
pub(crate) fn added_terms(table: &Table, terms: u128, node: usize) -> Result<u128, NoMemory>
    requires there { is_truth (slice_get (nodes table.now) node) ≡ true }
    ensures { (a : FormulaTree) → IsFormula table.now node a → IfOk result (λ made. made ≡ capped (spec.weight terms a [] 0)) }
{
    if !table.is_shallow(node) {
        return Err(NoMemory);
    }
    weight(table, Scope { terms, powers: &[] }, node, 0)
}
