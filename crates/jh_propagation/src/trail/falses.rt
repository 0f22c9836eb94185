ghost use Rattle.std.specs.Prelude.{◌↔◌, IfOk, IsTrue};
ghost use Rattle.jh_arena.specs.table.Nodes.{nodes};
ghost use Rattle.jh_form.specs.Tree.{FormulaTree};
ghost use Rattle.jh_form.specs.Tree as t;
ghost use Rattle.jh_models.specs.ground_models.Truths.{IsFalse};
ghost use Rattle.jh_propagation.specs.trail.Forms.{AreTwoParts, IsForm};
ghost use Rattle.jh_propagation.specs.trail.Saying.{IsTruth, literals_at, supposed, truth_at};
ghost use Rattle.jh_propagation.specs.declared.trail.forms.Form.TheVariants.{Literal};

use crate::trail::forms::{Form, form_at};
use crate::trail::reasons::is_supposed;
use crate::trail::{Decided, Trail};
use jh_arena::table::Table;
use jh_name::NoMemory;

/// Whether the decided literals make a literal false, with the opposite of one put to them where there is one.
fn false_literal(table: &Table, trail: &Trail, except: Option<Decided>, literal: Decided) -> bool
    ensures { (i : FormulaTree) → IsForm (nodes table.now) i (Literal literal) → IsTrue result ↔ IsFalse (literals_at (nodes table.now) (supposed except trail.now)) i }
{
    table.nodes_differ();
    if is_supposed(except, literal) {
        return true;
    }
    match trail.said(literal.atom) {
        Some(holds) => holds != literal.holds,
        None => false,
    }
}

/// Whether they make an instance false that is a node.
#[cycle(false_in)]
fn false_in(table: &Table, trail: &Trail, except: Option<Decided>, node: usize) -> bool
    requires { IsTruth (nodes table.now) node }
    ensures { IsTrue result ↔ IsFalse (literals_at (nodes table.now) (supposed except trail.now)) (truth_at (nodes table.now) node) }
{
    match form_at(table, node) {
        Form::Known(holds) => !holds,
        Form::Literal(literal) => false_literal(table, trail, except, literal),
        Form::And(a, b) => false_and(table, trail, except, node, a, b),
        Form::Or(a, b) => false_or(table, trail, except, node, a, b),
    }
}

/// The same of two instances joined by And: one that is false is enough.
#[cycle(false_in)]
fn false_and(
    table: &Table,
    trail: &Trail,
    except: Option<Decided>,
    node: usize,
    a: usize,
    b: usize,
) -> bool
    requires { AreTwoParts (nodes table.now) node a b }
    ensures { IsTrue result ↔ IsFalse (literals_at (nodes table.now) (supposed except trail.now)) (t.and (truth_at (nodes table.now) a) (truth_at (nodes table.now) b)) }
{
    false_in(table, trail, except, a) || false_in(table, trail, except, b)
}

/// The same of two instances joined by Or: both have to be false.
#[cycle(false_in)]
fn false_or(
    table: &Table,
    trail: &Trail,
    except: Option<Decided>,
    node: usize,
    a: usize,
    b: usize,
) -> bool
    requires { AreTwoParts (nodes table.now) node a b }
    ensures { IsTrue result ↔ IsFalse (literals_at (nodes table.now) (supposed except trail.now)) (t.or (truth_at (nodes table.now) a) (truth_at (nodes table.now) b)) }
{
    false_in(table, trail, except, a) && false_in(table, trail, except, b)
}

/// Whether the decided literals make an instance false by its connectives alone, with the opposite of one put to them where there is
/// one. No more of the instance is looked at than is needed. The answer is want of memory where the tree nests deeper than
/// MOST_LEVELS; no part of it is looked at then.
pub fn is_false(
    table: &Table,
    trail: &Trail,
    except: Option<Decided>,
    instance: usize,
) -> Result<bool, NoMemory>
    requires { IsTruth (nodes table.now) instance }
    ensures { IfOk result (λ holds. IsTrue holds ↔ IsFalse (literals_at (nodes table.now) (supposed except trail.now)) (truth_at (nodes table.now) instance)) }
{
    if !table.is_shallow(instance) {
        return Err(NoMemory);
    }
    Ok(false_in(table, trail, except, instance))
}
