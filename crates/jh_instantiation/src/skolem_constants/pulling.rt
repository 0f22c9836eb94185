#![tactic(auto, using(jh_arena::proofs::table::Listed::growth_steps))]

ghost use Rattle.std.specs.Prelude.{◌≡◌, ◌+◌, ◌<◌, true, IfOk, slice_get};
ghost use Rattle.jh_form.specs.Tree.{FormulaTree};
ghost use Rattle.jh_form.specs.Tree as tree;
ghost use Rattle.jh_arena.specs.table.Entries.{is_truth};
ghost use Rattle.jh_arena.specs.table.Growth.{Extends};
ghost use Rattle.jh_arena.specs.table.Nodes.{nodes};
ghost use Rattle.jh_inst.specs.instances.Prenex as spec;
ghost use Rattle.jh_instantiation.specs.skolem_constants.Standing.{IsFormula, IsMatrix, joined};

use crate::skolem_constants::witnessing::join;
use jh_arena::makers::for_all;
use jh_arena::table::{Shape, Table};
use jh_name::NoMemory;
use jh_substitution::simultaneous::lift;

/// A body, and behind how many quantifiers `all` it stands.
#[derive(Clone, Copy)]
pub(crate) struct Matrix {
    pub(crate) variables: u32,
    pub(crate) body: usize,
}

/// How many variables two matrices have.
fn sum(a: u32, b: u32) -> Result<u32, NoMemory>
    ensures { IfOk result (λ made. made ≡ a + b) }
{
    match a.checked_add(b) {
        Some(sum) => Ok(sum),
        None => Err(NoMemory),
    }
}

/// The node of a body behind so many quantifiers.
fn behind(table: &mut Table, variables: u32, body: usize) -> Result<usize, NoMemory>
    requires there { is_truth (slice_get (nodes table.old) body) ≡ true }
    ensures node { (a : FormulaTree) → IsFormula table.old body a → IfOk result (λ made. IsFormula table.new made (spec.behind variables a)) }
    ensures grows { Extends table.old table.new }
{
    let mut made = body;
    for _turn in 0..variables {
        made = for_all(table, made)?;
    }
    Ok(made)
}

/// The body of a formula behind so many quantifiers.
fn body_of(table: &Table, variables: u32, node: usize) -> Result<usize, NoMemory>
    requires there { is_truth (slice_get (nodes table.now) node) ≡ true }
    ensures { (a : FormulaTree) → IsFormula table.now node (spec.behind variables a) → IfOk result (λ made. IsFormula table.now made a) }
{
    let mut at = node;
    for _turn in 0..variables {
        match table.shape(at) {
            Shape::All(a) => at = a,
            _ => return Err(NoMemory),
        }
    }
    Ok(at)
}

/// The node of a body that stood behind quantifiers of its own, with more put between these and what is round them.
fn under_more(table: &mut Table, body: usize, own: u32, by: u32) -> Result<usize, NoMemory>
    requires there { is_truth (slice_get (nodes table.old) body) ≡ true }
    ensures node { (a : FormulaTree) → IsFormula table.old body a → IfOk result (λ made. IsFormula table.new made (spec.under_more a own by)) }
    ensures grows { Extends table.old table.new }
{
    let whole = behind(table, own, body)?;
    let lifted = lift(table, whole, by)?;
    body_of(table, own, lifted)
}

/// A formula with each `all` pulled out that is under no `ex`.
#[cycle(pulled)]
fn pulled(table: &mut Table, node: usize) -> Result<Matrix, NoMemory>
    requires there { is_truth (slice_get (nodes table.old) node) ≡ true }
    ensures node { (a : FormulaTree) → IsFormula table.old node a → IfOk result (λ made. IsMatrix table.new made.variables made.body (spec.pulled a)) }
    ensures grows { Extends table.old table.new }
{
    match table.shape(node) {
        Shape::And(a, b) => pulled_both(table, node, a, b, true),
        Shape::Or(a, b) => pulled_both(table, node, a, b, false),
        Shape::All(a) => pulled_one(table, node, a),
        _ => Ok(Matrix {
            variables: 0,
            body: node,
        }),
    }
}

/// The body of an `all`, behind it.
#[cycle(pulled)]
fn pulled_one(table: &mut Table, node: usize, a: usize) -> Result<Matrix, NoMemory>
    requires first { is_truth (slice_get (nodes table.old) a) ≡ true }
    requires below { a < node }
    ensures node { (p : FormulaTree) → IsFormula table.old a p → IfOk result (λ made. IsMatrix table.new made.variables made.body (spec.pulled (tree.all p))) }
    ensures grows { Extends table.old table.new }
{
    let inner = pulled(table, a)?;
    let variables = sum(inner.variables, 1)?;
    Ok(Matrix {
        variables,
        body: inner.body,
    })
}

/// Two parts of a formula, joined by And or by Or, behind the quantifiers of both.
#[cycle(pulled)]
fn pulled_both(
    table: &mut Table,
    node: usize,
    a: usize,
    b: usize,
    conjoined: bool,
) -> Result<Matrix, NoMemory>
    requires first { is_truth (slice_get (nodes table.old) a) ≡ true }
    requires second { is_truth (slice_get (nodes table.old) b) ≡ true }
    requires below { (a < node) × (b < node) }
    ensures node { (p q : FormulaTree) → IsFormula table.old a p → IsFormula table.old b q → IfOk result (λ made. IsMatrix table.new made.variables made.body (spec.pulled (joined conjoined p q))) }
    ensures grows { Extends table.old table.new }
{
    let first = pulled(table, a)?;
    let second = pulled(table, b)?;
    pulled_together(table, first, second, conjoined)
}

/// Two bodies joined, behind the quantifiers of both, those of the first being the outer ones.
fn pulled_together(
    table: &mut Table,
    first: Matrix,
    second: Matrix,
    conjoined: bool,
) -> Result<Matrix, NoMemory>
    requires first { is_truth (slice_get (nodes table.old) first.body) ≡ true }
    requires second { is_truth (slice_get (nodes table.old) second.body) ≡ true }
    ensures node { (p q : spec.Matrix) → IsMatrix table.old first.variables first.body p → IsMatrix table.old second.variables second.body q → IfOk result (λ made. IsMatrix table.new made.variables made.body (spec.joined (joined conjoined) p q)) }
    ensures grows { Extends table.old table.new }
{
    let variables = sum(first.variables, second.variables)?;
    let left = under_more(table, first.body, 0, second.variables)?;
    let right = under_more(table, second.body, second.variables, first.variables)?;
    let body = join(table, left, right, conjoined)?;
    Ok(Matrix { variables, body })
}

/// The node of a formula with each `all` that is under no `ex` in front, the leftmost outermost. What the table held stays
/// in its place, after any answer. The answer is want of memory where the formula nests deeper than MOST_LEVELS of the
/// table, or its quantifiers do.
pub fn prenexed(table: &mut Table, node: usize) -> Result<usize, NoMemory>
    requires there { is_truth (slice_get (nodes table.old) node) ≡ true }
    ensures node { (a : FormulaTree) → IsFormula table.old node a → IfOk result (λ made. IsFormula table.new made (spec.prenex a)) }
    ensures grows { Extends table.old table.new }
{
    if !table.is_shallow(node) {
        return Err(NoMemory);
    }
    let matrix = pulled(table, node)?;
    behind(table, matrix.variables, matrix.body)
}
