#![tactic(auto, using(jh_arena::proofs::table::Listed::growth_steps))]

ghost use Rattle.std.specs.Prelude.{◌≡◌, ◌+◌, ◌<◌, [], ◌∷◌, map, true, IfOk, slice_get};
ghost use Rattle.jh_form.specs.Tree.{FormulaTree};
ghost use Rattle.jh_form.specs.Tree as t;
ghost use Rattle.jh_arena.specs.table.Entries.{is_truth};
ghost use Rattle.jh_arena.specs.table.Growth.{Extends};
ghost use Rattle.jh_arena.specs.table.Nodes.{nodes};
ghost use Rattle.jh_seq.specs.splitting.Split.{constant, closed_by};
ghost use Rattle.jh_inst.specs.instances.Witnesses as spec;
ghost use Rattle.jh_instantiation.specs.skolem_constants.Standing.{IsFormula, joined};

use crate::skolem_constants::closing::closed;
use crate::skolem_constants::settling::Settled;
use jh_arena::makers::{conjunction, disjunction};
use jh_arena::table::{Shape, Table};
use jh_name::NoMemory;

/// Two formulas joined by And or by Or.
pub(crate) fn join(
    table: &mut Table,
    a: usize,
    b: usize,
    conjoined: bool,
) -> Result<usize, NoMemory>
    requires first { is_truth (slice_get (nodes table.old) a) ≡ true }
    requires second { is_truth (slice_get (nodes table.old) b) ≡ true }
    ensures node { (p q : FormulaTree) → IsFormula table.old a p → IsFormula table.old b q → IfOk result (λ made. IsFormula table.new made (joined conjoined p q)) }
    ensures grows { Extends table.old table.new }
{
    if conjoined {
        conjunction(table, a, b)
    } else {
        disjunction(table, a, b)
    }
}

/// A formula that is taken as it stands, with constants for the variables of the binders round it.
fn close(table: &mut Table, node: usize, turns: &[u32], next: u32) -> Result<Settled, NoMemory>
    requires there { is_truth (slice_get (nodes table.old) node) ≡ true }
    ensures node { (a : FormulaTree) → IsFormula table.old node a → IfOk result (λ made. IsFormula table.new made.node (closed_by a (map constant turns.now))) }
    ensures next { IfOk result (λ made. made.next ≡ next) }
    ensures grows { Extends table.old table.new }
{
    let node = closed(table, node, turns)?;
    Ok(Settled { node, next })
}

/// A formula behind binders that have constants, of these turns, the innermost binder's first.
#[cycle(witness)]
fn witness(table: &mut Table, node: usize, turns: &[u32], next: u32) -> Result<Settled, NoMemory>
    requires there { is_truth (slice_get (nodes table.old) node) ≡ true }
    ensures node { (a : FormulaTree) → IsFormula table.old node a → IfOk result (λ made. IsFormula table.new made.node (spec.witnessed a (map constant turns.now) next)) }
    ensures next { (a : FormulaTree) → IsFormula table.old node a → IfOk result (λ made. made.next ≡ next + spec.witnesses a) }
    ensures grows { Extends table.old table.new }
{
    match table.shape(node) {
        Shape::And(a, b) => witness_both(table, node, a, b, true, turns, next),
        Shape::Or(a, b) => witness_both(table, node, a, b, false, turns, next),
        Shape::Ex(a) => witness_one(table, node, a, turns, next),
        _ => close(table, node, turns, next),
    }
}

/// Two parts of a formula, joined by And or by Or.
#[cycle(witness)]
fn witness_both(
    table: &mut Table,
    node: usize,
    a: usize,
    b: usize,
    conjoined: bool,
    turns: &[u32],
    next: u32,
) -> Result<Settled, NoMemory>
    requires first { is_truth (slice_get (nodes table.old) a) ≡ true }
    requires second { is_truth (slice_get (nodes table.old) b) ≡ true }
    requires below { (a < node) × (b < node) }
    ensures node { (p q : FormulaTree) → IsFormula table.old a p → IsFormula table.old b q → IfOk result (λ made. IsFormula table.new made.node (spec.witnessed (joined conjoined p q) (map constant turns.now) next)) }
    ensures next { (p q : FormulaTree) → IsFormula table.old a p → IsFormula table.old b q → IfOk result (λ made. made.next ≡ next + spec.witnesses (joined conjoined p q)) }
    ensures grows { Extends table.old table.new }
{
    let left = witness(table, a, turns, next)?;
    let right = witness(table, b, turns, left.next)?;
    let node = join(table, left.node, right.node, conjoined)?;
    Ok(Settled {
        node,
        next: right.next,
    })
}

/// The number behind a turn.
fn after(turn: u32) -> Result<u32, NoMemory>
    ensures { IfOk result (λ made. made ≡ turn + 1) }
{
    match turn.checked_add(1) {
        Some(after) => Ok(after),
        None => Err(NoMemory),
    }
}

/// A turn before others.
fn with_turn(table: &Table, turn: u32, turns: &[u32]) -> Result<Vec<u32>, NoMemory>
    ensures { IfOk result (λ made. made.items ≡ turn ∷ turns.now) }
{
    let mut all = Vec::new(table.alloc());
    all.push(turn)?;
    all.extend_from_slice(turns)?;
    Ok(all)
}

/// The body of an `ex`, behind it and the binders round it.
#[cycle(witness)]
fn witness_one(
    table: &mut Table,
    node: usize,
    a: usize,
    turns: &[u32],
    next: u32,
) -> Result<Settled, NoMemory>
    requires first { is_truth (slice_get (nodes table.old) a) ≡ true }
    requires below { a < node }
    ensures node { (p : FormulaTree) → IsFormula table.old a p → IfOk result (λ made. IsFormula table.new made.node (spec.witnessed (t.ex p) (map constant turns.now) next)) }
    ensures next { (p : FormulaTree) → IsFormula table.old a p → IfOk result (λ made. made.next ≡ next + spec.witnesses (t.ex p)) }
    ensures grows { Extends table.old table.new }
{
    let after = after(next)?;
    let inner = with_turn(table, next, turns)?;
    witness(table, a, inner.as_slice(), after)
}

/// The node of a formula in negation normal form in which each `ex` that stands under no `all` gives way to its body at a
/// constant, and the number behind those of the constants; the first of them is given. What the table held stays in its
/// place, after any answer. The answer is want of memory where a number leaves u32, and where the formula nests deeper
/// than MOST_LEVELS of the table; no part of it is looked at then.
pub fn witnessed(table: &mut Table, node: usize, first: u32) -> Result<Settled, NoMemory>
    requires there { is_truth (slice_get (nodes table.old) node) ≡ true }
    ensures node { (a : FormulaTree) → IsFormula table.old node a → IfOk result (λ made. IsFormula table.new made.node (spec.witnessed a [] first)) }
    ensures next { (a : FormulaTree) → IsFormula table.old node a → IfOk result (λ made. made.next ≡ first + spec.witnesses a) }
    ensures grows { Extends table.old table.new }
{
    if !table.is_shallow(node) {
        return Err(NoMemory);
    }
    witness(table, node, &[], first)
}
