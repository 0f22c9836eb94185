#![tactic(auto, unfolding(crate::specs::propagation::Speaking::sides_of))]

ghost use Rattle.std.specs.Prelude.{◌≡◌, Bool, IfNone, IfSome, false, true};
ghost use Rattle.jh_closure.specs.congruence_closure.Nodes.{Has};
ghost use Rattle.jh_arena.specs.table.Nodes.{nodes};
ghost use Rattle.jh_models.specs.ground_models.Atoms.{is_equality};
ghost use Rattle.jh_propagation.specs.trail.Listing.{decided};
ghost use Rattle.jh_propagation.specs.trail.Saying.{truth_at};
ghost use Rattle.jh_propagation.specs.propagation.Problems.{IsProblem};
ghost use Rattle.jh_propagation.specs.propagation.Speaking.{MayFollow, Speaks, sides_of};

use crate::propagation::Problem;
use crate::trail::Decided;
use jh_arena::table::{Shape, Table};
use jh_cong::classes::Said;

/// The sides of an equation.
pub(crate) fn sides(shape: Shape) -> Option<(usize, usize)>
    ensures { result ≡ sides_of shape }
{
    match shape {
        Shape::EqObject(a, b) => Some((a, b)),
        Shape::EqNumber(a, b) => Some((a, b)),
        Shape::EqSet(a, b) => Some((a, b)),
        Shape::Iff(a, b) => Some((a, b)),
        _ => None,
    }
}

/// The sides of an atom that is an equation, as nodes of the table of names.
pub(crate) fn named_sides(table: &Table, problem: &Problem, atom: usize) -> Option<(usize, usize)>
    requires problem { IsProblem (nodes table.now) problem.now }
    requires atom { Has problem.now.ground.atoms atom }
    ensures speaks { IfSome result (λ sides. (h : Bool) → Speaks (nodes table.now) (nodes problem.now.table) (record { left = sides.0; right = sides.1; holds = h }) (decided atom h)) }
    ensures equation { IfSome result (λ sides. is_equality (truth_at (nodes problem.now.table) atom) ≡ true) }
    ensures none { IfNone result (is_equality (truth_at (nodes problem.now.table) atom) ≡ false) }
{
    sides(table.shape(problem.name(atom)))
}

/// What the classes, over the table of names, are told of a literal: the equation or inequation that it is, or that its atom is True or
/// False.
pub fn spoken(table: &Table, problem: &Problem, literal: Decided) -> Said
    requires problem { IsProblem (nodes table.now) problem.now }
    requires atom { Has problem.now.ground.atoms literal.atom }
    ensures speaks { Speaks (nodes table.now) (nodes problem.now.table) result literal }
    ensures equal { MayFollow (nodes problem.now.table) literal → result.holds ≡ true }
{
    match named_sides(table, problem, literal.atom) {
        Some((left, right)) => Said {
            left,
            right,
            holds: literal.holds,
        },
        None => Said {
            left: problem.name(literal.atom),
            right: if literal.holds {
                problem.yes
            } else {
                problem.no
            },
            holds: true,
        },
    }
}
