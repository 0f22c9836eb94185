ghost use Rattle.std.specs.Prelude.{◌≡◌, ◌↔◌, ◌<◌, ◌∷◌, ℕ, List, IfOk, IsTrue, OnOk, Some, length, slice_get};
ghost use Rattle.jh_closure.specs.congruence_closure.Nodes.{Has};
ghost use Rattle.jh_arena.specs.table.Nodes.{nodes};
ghost use Rattle.jh_closure.specs.structures.Literals.{NotMet};
ghost use Rattle.jh_models.specs.ground_models.Clashes.{Clash};
ghost use Rattle.jh_models.specs.ground_models.Truths.{IsFalse, SomeFalse};
ghost use Rattle.jh_propagation.specs.declared.trail.decided.Decided.{Decided};
ghost use Rattle.jh_propagation.specs.trail.Saying.{IsTruth, literals_at, opposite_of, truth_at};
ghost use Rattle.jh_propagation.specs.propagation.Problems.{IsPosed, IsProblem, instances_in};
ghost use Rattle.jh_propagation.specs.propagation.Speaking.{AreSpoken};
ghost use Rattle.jh_explanations.specs.Keeping.{IsQuiet};
ghost use Rattle.jh_explanations.specs.Testing.{IsAsked};

use crate::places::{instance_at, place_at, said_of};
use jh_arena::table::Table;
use jh_cong::classes::{Classes, CongError};
use jh_name::NoMemory;
use jh_propagation::propagation::Problem;
use jh_propagation::trail::{Decided, Trail, forced_stands, is_false, opposite};

/// Whether an instance that is a node is false with the opposite of a literal put to the trail.
fn forces(table: &Table, trail: &Trail, instance: usize, literal: Decided) -> Result<bool, NoMemory>
    requires { IsTruth (nodes table.now) instance }
    ensures { IfOk result (λ yes. IsTrue yes ↔ IsFalse (literals_at (nodes table.now) (opposite_of literal ∷ trail.now)) (truth_at (nodes table.now) instance)) }
{
    is_false(table, trail, Some(literal), instance)
}

/// Whether some instance is false with the opposite of a literal put to the trail, where none is false without it.
fn is_forced(
    table: &Table,
    problem: &Problem,
    trail: &Trail,
    literal: Decided,
) -> Result<bool, NoMemory>
    requires problem { IsPosed (nodes table.now) problem.now }
    requires atom { Has problem.now.ground.atoms literal.atom }
    requires none_false { SomeFalse (instances_in (nodes table.now) problem.now) (literals_at (nodes table.now) trail.now) → ⊥ }
    ensures { IfOk result (λ yes. IsTrue yes ↔ SomeFalse (instances_in (nodes table.now) problem.now) (literals_at (nodes table.now) (opposite_of literal ∷ trail.now))) }
{
    forced_stands();
    let places = problem.ground.places(literal.atom);
    for index in 0..places.len() {
        if forces(
            table,
            trail,
            instance_at(problem, place_at(places, index)),
            literal,
        )? {
            return Ok(true);
        }
    }
    Ok(false)
}

/// Tells the classes a literal. The answer is whether some structure meets it with what they were told before; where none does, they
/// are as they were.
pub(crate) fn is_met(
    problem: &Problem,
    classes: &mut Classes,
    literal: Decided,
) -> Result<bool, NoMemory>
    requires problem { IsProblem (nodes classes.old.table) problem.now }
    requires atom { Has problem.now.ground.atoms literal.atom }
    ensures asked { IfOk result (λ yes. IsAsked (nodes problem.now.table) classes.old classes.new literal yes) }
    ensures table { classes.new.table ≡ classes.old.table }
{
    let alloc = classes.table().alloc();
    let said = said_of(problem, classes, literal);
    match classes.assert(alloc, &[said]) {
        Ok(()) => Ok(true),
        Err(CongError::Conflict(_)) => Ok(false),
        Err(CongError::Memory) => Err(NoMemory),
    }
}

/// Whether it follows by equality that a literal holds. The classes are as they were.
fn is_equal(problem: &Problem, classes: &mut Classes, literal: Decided) -> Result<bool, NoMemory>
    requires problem { IsProblem (nodes classes.old.table) problem.now }
    requires atom { Has problem.now.ground.atoms literal.atom }
    ensures classes { OnOk result (classes.new ≡ classes.old) }
    ensures table { classes.new.table ≡ classes.old.table }
    ensures unmet { IfOk result (λ yes. (ds : List Decided) → AreSpoken (nodes classes.old.table) (nodes problem.now.table) ds classes.old.said → IsTrue yes ↔ NotMet (literals_at (nodes problem.now.table) (opposite_of literal ∷ ds))) }
{
    let count = classes.len();
    if is_met(problem, classes, opposite(literal))? {
        classes.undo(count);
        return Ok(false);
    }
    Ok(true)
}

/// Whether the opposite of a literal clashes with the trail, which doesn't clash.
pub(crate) fn clashes(
    problem: &Problem,
    classes: &mut Classes,
    trail: &Trail,
    literal: Decided,
) -> Result<bool, NoMemory>
    requires problem { IsProblem (nodes classes.old.table) problem.now }
    requires atom { Has problem.now.ground.atoms literal.atom }
    requires quiet { IsQuiet problem.now classes.old trail.now }
    ensures clash { IfOk result (λ yes. IsTrue yes ↔ Clash (instances_in (nodes problem.now.table) problem.now) (literals_at (nodes problem.now.table) (opposite_of literal ∷ trail.now))) }
    ensures classes { OnOk result (classes.new ≡ classes.old) }
    ensures table { classes.new.table ≡ classes.old.table }
{
    if is_forced(&problem.table, problem, trail, literal)? {
        return Ok(true);
    }
    is_equal(problem, classes, literal)
}
