ghost use Rattle.std.specs.Prelude.{◌≡◌};
ghost use Rattle.jh_form.specs.Tree as t;
ghost use Rattle.jh_arena.specs.table.Nodes.{nodes};
ghost use Rattle.jh_propagation.specs.trail.Forms.{HasParts, IsForm};
ghost use Rattle.jh_propagation.specs.trail.Saying.{IsTruth, truth_at};

use crate::trail::Decided;
use jh_arena::table::{Shape, Table};

/// What an instance is: known to be true or false, a literal, or two instances joined by And or Or.
#[derive(Clone, Copy)]
pub(crate) enum Form {
    Known(bool),
    Literal(Decided),
    And(usize, usize),
    Or(usize, usize),
}

/// The form of a formula that is a node.
pub(crate) fn form_at(table: &Table, node: usize) -> Form
    requires { IsTruth (nodes table.now) node }
    ensures form { IsForm (nodes table.now) (truth_at (nodes table.now) node) result }
    ensures parts { HasParts (nodes table.now) node result }
{
    match table.shape(node) {
        Shape::True => Form::Known(true),
        Shape::False => Form::Known(false),
        Shape::And(a, b) => Form::And(a, b),
        Shape::Or(a, b) => Form::Or(a, b),
        Shape::Negation(a) => denied_form(table, a),
        _ => Form::Literal(Decided {
            atom: node,
            holds: true,
        }),
    }
}

/// The form of the negation of a formula that is a node.
fn denied_form(table: &Table, node: usize) -> Form
    requires { IsTruth (nodes table.now) node }
    ensures form { IsForm (nodes table.now) (t.negation (truth_at (nodes table.now) node)) result }
    ensures parts { HasParts (nodes table.now) node result }
{
    match table.shape(node) {
        Shape::True => Form::Known(false),
        Shape::False => Form::Known(true),
        _ => Form::Literal(Decided {
            atom: node,
            holds: false,
        }),
    }
}
