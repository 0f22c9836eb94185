ghost use Rattle.std.specs.Prelude.{◌↔◌, IfOk, IsTrue};
ghost use Rattle.jh_arena.specs.table.Nodes.{nodes};
ghost use Rattle.jh_form.specs.Tree.{FormulaTree};
ghost use Rattle.jh_form.specs.Tree as t;
ghost use Rattle.jh_models.specs.ground_models.Truths as truths;
ghost use Rattle.jh_propagation.specs.trail.Forms.{AreTwoParts, IsForm};
ghost use Rattle.jh_propagation.specs.trail.Saying.{IsTruth, literals_at, truth_at};
ghost use Rattle.jh_propagation.specs.declared.trail.forms.Form.TheVariants.{Literal};

use crate::trail::forms::{Form, form_at};
use crate::trail::{Decided, Trail};
use jh_arena::table::Table;
use jh_name::NoMemory;

/// Whether the decided literals make a literal true.
fn true_literal(table: &Table, trail: &Trail, literal: Decided) -> bool
    ensures { (i : FormulaTree) → IsForm (nodes table.now) i (Literal literal) → IsTrue result ↔ truths.IsTrue (literals_at (nodes table.now) trail.now) i }
{
    table.nodes_differ();
    match trail.said(literal.atom) {
        Some(holds) => holds == literal.holds,
        None => false,
    }
}

/// Whether the decided literals make an instance true that is a node.
#[cycle(true_in)]
fn true_in(table: &Table, trail: &Trail, node: usize) -> bool
    requires { IsTruth (nodes table.now) node }
    ensures { IsTrue result ↔ truths.IsTrue (literals_at (nodes table.now) trail.now) (truth_at (nodes table.now) node) }
{
    match form_at(table, node) {
        Form::Known(holds) => holds,
        Form::Literal(literal) => true_literal(table, trail, literal),
        Form::And(a, b) => true_and(table, trail, node, a, b),
        Form::Or(a, b) => true_or(table, trail, node, a, b),
    }
}

/// The same of two instances joined by And.
#[cycle(true_in)]
fn true_and(table: &Table, trail: &Trail, node: usize, a: usize, b: usize) -> bool
    requires { AreTwoParts (nodes table.now) node a b }
    ensures { IsTrue result ↔ truths.IsTrue (literals_at (nodes table.now) trail.now) (t.and (truth_at (nodes table.now) a) (truth_at (nodes table.now) b)) }
{
    true_in(table, trail, a) && true_in(table, trail, b)
}

/// The same of two instances joined by Or.
#[cycle(true_in)]
fn true_or(table: &Table, trail: &Trail, node: usize, a: usize, b: usize) -> bool
    requires { AreTwoParts (nodes table.now) node a b }
    ensures { IsTrue result ↔ truths.IsTrue (literals_at (nodes table.now) trail.now) (t.or (truth_at (nodes table.now) a) (truth_at (nodes table.now) b)) }
{
    true_in(table, trail, a) || true_in(table, trail, b)
}

/// Whether the decided literals make an instance true by its connectives alone. The answer is want of memory where the tree nests
/// deeper than MOST_LEVELS; no part of it is looked at then.
pub fn is_true(table: &Table, trail: &Trail, instance: usize) -> Result<bool, NoMemory>
    requires { IsTruth (nodes table.now) instance }
    ensures { IfOk result (λ holds. IsTrue holds ↔ truths.IsTrue (literals_at (nodes table.now) trail.now) (truth_at (nodes table.now) instance)) }
{
    if !table.is_shallow(instance) {
        return Err(NoMemory);
    }
    Ok(true_in(table, trail, instance))
}
