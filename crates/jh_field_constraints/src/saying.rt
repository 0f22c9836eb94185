#![tactic(auto, using(jh_arena::proofs::table::Listed::growth_steps))]

ghost use Rattle.std.specs.Prelude.{◌≡◌, true, false, IfOk, slice_get};
ghost use Rattle.jh_form.specs.Tree.{TermTree, FormulaTree};
ghost use Rattle.jh_arena.specs.table.Entries.{is_object, is_truth};
ghost use Rattle.jh_arena.specs.table.Growth.{Extends};
ghost use Rattle.jh_arena.specs.table.Nodes.{nodes};
ghost use Rattle.jh_form.specs.Tree as t;
ghost use Rattle.jh_fca.specs.elimination.Exchanged.{varied_term};
ghost use Rattle.jh_field_constraints.specs.Standing.{IsFormula, IsTerm};
ghost use Rattle.jh_field_constraints.specs.Walking.{said_of, around};

use jh_arena::makers::{bound, conjunction, for_all, for_some, implication, same_object};
use jh_arena::table::{Shape, Table};
use jh_name::NoMemory;
use jh_substitution::exchange::vary;
use jh_substitution::instantiation::put;
use jh_substitution::simultaneous::lift;

/// What a constraint says of a term and of the variable of one more binder.
pub(crate) fn said(table: &mut Table, says: usize, term: usize) -> Result<usize, NoMemory>
    requires says { is_truth (slice_get (nodes table.old) says) ≡ true }
    requires term { is_object (slice_get (nodes table.old) term) ≡ true }
    ensures node { IfOk result (λ made. (p : FormulaTree) (a : TermTree) → IsFormula table.old says p → IsTerm table.old term a → IsFormula table.new made (said_of p a)) }
    ensures grows { Extends table.old table.new }
{
    let outer = bound(table, 1)?;
    let beside = put(table, says, outer)?;
    let risen = lift(table, term, 1)?;
    put(table, beside, risen)
}

/// What is said of all objects that a constraint allows.
fn of_all(table: &mut Table, told: usize, inner: usize) -> Result<usize, NoMemory>
    requires told { is_truth (slice_get (nodes table.old) told) ≡ true }
    requires inner { is_truth (slice_get (nodes table.old) inner) ≡ true }
    ensures node { IfOk result (λ made. (q p : FormulaTree) → IsFormula table.old told q → IsFormula table.old inner p → IsFormula table.new made (around true q p)) }
    ensures grows { Extends table.old table.new }
{
    let body = implication(table, told, inner)?;
    for_all(table, body)
}

/// What is said of some object that a constraint allows.
fn of_some(table: &mut Table, told: usize, inner: usize) -> Result<usize, NoMemory>
    requires told { is_truth (slice_get (nodes table.old) told) ≡ true }
    requires inner { is_truth (slice_get (nodes table.old) inner) ≡ true }
    ensures node { IfOk result (λ made. (q p : FormulaTree) → IsFormula table.old told q → IsFormula table.old inner p → IsFormula table.new made (around false q p)) }
    ensures grows { Extends table.old table.new }
{
    let body = conjunction(table, told, inner)?;
    for_some(table, body)
}

/// What is said of all objects that a constraint allows, where it stands positively, and of some, where negatively.
pub(crate) fn around(
    table: &mut Table,
    positive: bool,
    told: usize,
    inner: usize,
) -> Result<usize, NoMemory>
    requires told { is_truth (slice_get (nodes table.old) told) ≡ true }
    requires inner { is_truth (slice_get (nodes table.old) inner) ≡ true }
    ensures node { IfOk result (λ made. (q p : FormulaTree) → IsFormula table.old told q → IsFormula table.old inner p → IsFormula table.new made (around positive q p)) }
    ensures grows { Extends table.old table.new }
{
    if positive {
        of_all(table, told, inner)
    } else {
        of_some(table, told, inner)
    }
}

/// The term on the left of an equation of objects.
fn left_of(table: &Table, equation: usize) -> usize
    requires equation { is_truth (slice_get (nodes table.now) equation) ≡ true }
    ensures { (a b : TermTree) → IsFormula table.now equation (t.eq_object a b) → IsTerm table.now result a }
{
    match table.shape(equation) {
        Shape::EqObject(left, _) => left,
        _ => equation,
    }
}

/// A term under one more binder, whose variable stands for each occurrence of another term.
pub(crate) fn vary_term(table: &mut Table, term: usize, read: usize) -> Result<usize, NoMemory>
    requires term { is_object (slice_get (nodes table.old) term) ≡ true }
    requires read { is_object (slice_get (nodes table.old) read) ≡ true }
    ensures node { IfOk result (λ made. (a b : TermTree) → IsTerm table.old term a → IsTerm table.old read b → IsTerm table.new made (varied_term a b)) }
    ensures grows { Extends table.old table.new }
{
    let equation = same_object(table, term, term)?;
    let other = vary(table, equation, read)?;
    Ok(left_of(table, other))
}
