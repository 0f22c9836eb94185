ghost use Rattle.std.specs.Prelude.{◌≡◌, ◌↔◌, ◌<◌, ◌++◌, [], ◌∷◌, false, true, IfOk, IsTrue, OnOk};
ghost use Rattle.jh_closure.specs.congruence_closure.Nodes.{Has};
ghost use Rattle.jh_arena.specs.table.Nodes.{nodes};
ghost use Rattle.jh_models.specs.ground_models.Clashes.{Clash};
ghost use Rattle.jh_propagation.specs.trail.Listing.{IsUndecided};
ghost use Rattle.jh_propagation.specs.trail.Occurring.{places_in};
ghost use Rattle.jh_propagation.specs.trail.Saying.{literals_at};
ghost use Rattle.jh_propagation.specs.propagation.Problems.{IsPosed, IsProblem, instances_in};
ghost use Rattle.jh_explanations.specs.Keeping.{IsQuiet, IsReady};
ghost use Rattle.jh_explanations.specs.Testing.{IsFalseAmong};

use crate::places::{instance_at, place_at};
use crate::testing::is_met;
use jh_arena::table::Table;
use jh_cong::classes::Classes;
use jh_name::NoMemory;
use jh_propagation::propagation::Problem;
use jh_propagation::trail::{Decided, Trail, is_false, others_say_nothing};

/// Takes all back.
pub(crate) fn clear(classes: &mut Classes, trail: &mut Trail)
    ensures classes { classes.new ≡ record { table = classes.old.table; said = [] } }
    ensures trail { trail.new ≡ [] }
{
    classes.undo(0);
    trail.clear();
}

/// Whether an instance in which an atom stands is false.
fn some_false(
    table: &Table,
    problem: &Problem,
    trail: &Trail,
    atom: usize,
) -> Result<bool, NoMemory>
    requires { IsPosed (nodes table.now) problem.now }
    ensures { IfOk result (λ yes. IsTrue yes ↔ IsFalseAmong (nodes table.now) problem.now trail.now (places_in problem.now.ground atom)) }
{
    let places = problem.ground.places(atom);
    for index in 0..places.len() {
        if is_false(
            table,
            trail,
            None,
            instance_at(problem, place_at(places, index)),
        )? {
            return Ok(true);
        }
    }
    Ok(false)
}

/// Keeps a literal. The answer is whether what is kept clashes.
pub(crate) fn keep(
    problem: &Problem,
    classes: &mut Classes,
    trail: &mut Trail,
    literal: Decided,
) -> Result<bool, NoMemory>
    requires problem { IsProblem (nodes classes.old.table) problem.now }
    requires atom { Has problem.now.ground.atoms literal.atom }
    requires quiet { IsQuiet problem.now classes.old trail.old }
    requires undecided { IsUndecided trail.old literal.atom }
    ensures trail { OnOk result (trail.new ≡ trail.old ++ literal ∷ []) }
    ensures table { classes.new.table ≡ classes.old.table }
    ensures clash { IfOk result (λ yes. yes ≡ true → Clash (instances_in (nodes problem.now.table) problem.now) (literals_at (nodes problem.now.table) (trail.old ++ literal ∷ []))) }
    ensures quiet { IfOk result (λ yes. yes ≡ false → IsQuiet problem.now classes.new (trail.old ++ literal ∷ [])) }
    ensures ready { OnOk result (IsReady problem.now classes.new (trail.old ++ literal ∷ [])) }
{
    others_say_nothing();
    trail.push(literal)?;
    if some_false(&problem.table, problem, trail, literal.atom)? {
        return Ok(true);
    }
    Ok(!is_met(problem, classes, literal)?)
}
