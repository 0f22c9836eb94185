ghost use Rattle.std.specs.Prelude.{◌≡◌, ◌<◌, true, IfOk, length, slice_get};
ghost use Rattle.jh_form.specs.Tree.{FormulaTree, FieldTree, TermTree};
ghost use Rattle.jh_form.specs.Tree as t;
ghost use Rattle.jh_arena.specs.table.Entries.{is_field, is_object, is_truth, the_field, the_truth};
ghost use Rattle.jh_arena.specs.table.Nodes.{nodes};
ghost use Rattle.jh_fca.specs.elimination.Constraints.{constraint_in, is_apart};
ghost use Rattle.jh_field_constraints.specs.Standing.{IsFormula, IsTerm, IsField, AreConstraint};
ghost use Rattle.jh_field_constraints.specs.Constraining.{in_body, in_inner, in_implication, in_read, in_field};

use crate::naming::{OtherThan, is_variable};
use jh_arena::table::{Shape, Table};
use jh_name::{Name, NoMemory};
use jh_substitution::rewriting::names;

/// A field and what is said of it, by their nodes.
#[derive(Clone, Copy)]
pub(crate) struct NodeConstraint {
    pub(crate) field: usize,
    pub(crate) says: usize,
}

/// Whether a formula speaks of anything but a field, and of no variables but two.
fn is_apart(table: &Table, name: &Name, says: usize) -> Result<bool, NoMemory>
    requires says { is_truth (slice_get (nodes table.now) says) ≡ true }
    ensures { IfOk result (λ apart. apart ≡ is_apart name.now (the_truth (slice_get (nodes table.now) says))) }
{
    if table.loose(says) > 2 {
        return Ok(false);
    }
    names(table, says, &OtherThan { name })
}

/// The constraint of a field, where it says this.
fn of_field(table: &Table, field: usize, says: usize) -> Result<Option<NodeConstraint>, NoMemory>
    requires field { is_field (slice_get (nodes table.now) field) ≡ true }
    requires says { is_truth (slice_get (nodes table.now) says) ≡ true }
    ensures { IfOk result (λ made. (g : FieldTree) (p : FormulaTree) → IsField table.now field g → IsFormula table.now says p → AreConstraint table.now made (in_field g p)) }
{
    match table.shape(field) {
        Shape::FreeField(number) => {
            let apart = is_apart(table, table.name_at(number), says)?;
            if apart {
                Ok(Some(NodeConstraint { field, says }))
            } else {
                Ok(None)
            }
        }
        _ => Ok(None),
    }
}

/// The constraint of the field that a term reads at the outer variable.
fn of_read(table: &Table, term: usize, says: usize) -> Result<Option<NodeConstraint>, NoMemory>
    requires term { is_object (slice_get (nodes table.now) term) ≡ true }
    requires says { is_truth (slice_get (nodes table.now) says) ≡ true }
    ensures { IfOk result (λ made. (a : TermTree) (p : FormulaTree) → IsTerm table.now term a → IsFormula table.now says p → AreConstraint table.now made (in_read a p)) }
{
    match table.shape(term) {
        Shape::ReadObject(field, at) => {
            if is_variable(table, 1, at) {
                of_field(table, field, says)
            } else {
                Ok(None)
            }
        }
        _ => Ok(None),
    }
}

/// The constraint that an implication under two binders is.
fn of_implication(
    table: &Table,
    told: usize,
    says: usize,
) -> Result<Option<NodeConstraint>, NoMemory>
    requires told { is_truth (slice_get (nodes table.now) told) ≡ true }
    requires says { is_truth (slice_get (nodes table.now) says) ≡ true }
    ensures { IfOk result (λ made. (q p : FormulaTree) → IsFormula table.now told q → IsFormula table.now says p → AreConstraint table.now made (in_implication q p)) }
{
    match table.shape(told) {
        Shape::EqObject(term, variable) => {
            if is_variable(table, 0, variable) {
                of_read(table, term, says)
            } else {
                Ok(None)
            }
        }
        _ => Ok(None),
    }
}

/// The constraint that a formula under two binders is.
fn of_inner(table: &Table, inner: usize) -> Result<Option<NodeConstraint>, NoMemory>
    requires inner { is_truth (slice_get (nodes table.now) inner) ≡ true }
    ensures { IfOk result (λ made. (a : FormulaTree) → IsFormula table.now inner a → AreConstraint table.now made (in_inner a)) }
{
    match table.shape(inner) {
        Shape::Implies(told, says) => of_implication(table, told, says),
        _ => Ok(None),
    }
}

/// The constraint that a formula under a binder is.
fn of_body(table: &Table, body: usize) -> Result<Option<NodeConstraint>, NoMemory>
    requires body { is_truth (slice_get (nodes table.now) body) ≡ true }
    ensures { IfOk result (λ made. (a : FormulaTree) → IsFormula table.now body a → AreConstraint table.now made (in_body a)) }
{
    match table.shape(body) {
        Shape::All(inner) => of_inner(table, inner),
        _ => Ok(None),
    }
}

/// The constraint that a formula is: `ALL x y. x..f = y --> FC`, where FC speaks of anything but f, and of no variables but x and y.
pub(crate) fn constraint_in(table: &Table, fact: usize) -> Result<Option<NodeConstraint>, NoMemory>
    requires fact { is_truth (slice_get (nodes table.now) fact) ≡ true }
    ensures { IfOk result (λ made. (a : FormulaTree) → IsFormula table.now fact a → AreConstraint table.now made (constraint_in a)) }
{
    match table.shape(fact) {
        Shape::All(body) => of_body(table, body),
        _ => Ok(None),
    }
}
