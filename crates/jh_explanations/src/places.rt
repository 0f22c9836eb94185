ghost use Rattle.std.specs.Prelude.{◌≡◌, ◌<◌, ◌≤◌, ◌+◌, ℕ, true, IfOk, OnOk, Some, length, slice_get, take};
ghost use Rattle.jh_closure.specs.congruence_closure.Nodes.{Has};
ghost use Rattle.jh_arena.specs.table.Nodes.{nodes};
ghost use Rattle.jh_cong.specs.classes.Saying as cong;
ghost use Rattle.jh_propagation.specs.trail.Saying.{truth_at};
ghost use Rattle.jh_propagation.specs.propagation.Branches.{IsForced};
ghost use Rattle.jh_propagation.specs.propagation.Closings.{IsCause};
ghost use Rattle.jh_propagation.specs.propagation.Problems.{IsPosed, IsProblem};
ghost use Rattle.jh_propagation.specs.declared.propagation.branch.Reason.TheVariants.{Equality};
ghost use Rattle.jh_propagation.specs.propagation.Speaking.{IsTold, MayFollow, Speaks};
ghost use Rattle.jh_propagation.specs.propagation.Closings.{IsFalseAt};
ghost use Rattle.jh_explanations.specs.Resting.{ClashWith, IsHistory, IsToldBelow, RestsAt, RestsOn};

use jh_arena::table::Table;
use jh_cong::classes::{Classes, Said};
use jh_name::{NoMemory, Row};
use jh_propagation::propagation::{Cause, Problem, Reason, spoken};
use jh_propagation::trail::{Decided, Trail, reason};
use std::alloc::Global;

/// The reason at a place.
fn reason_at(reasons: &[Reason], place: usize) -> Reason
    requires { place < length reasons.now }
    ensures { slice_get reasons.now place ≡ Some result }
{
    reasons[place]
}

/// The place at a number of a list.
pub(crate) fn place_at(places: &[usize], index: usize) -> usize
    requires { index < length places.now }
    ensures { slice_get places.now index ≡ Some result }
{
    places[index]
}

/// The instance at a place.
pub(crate) fn instance_at(problem: &Problem, place: usize) -> usize
    requires { place < length problem.now.instances.items }
    ensures { slice_get problem.now.instances.items place ≡ Some result }
{
    problem.instances[place]
}

/// What the classes are told of a literal.
pub(crate) fn said_of(problem: &Problem, classes: &Classes, literal: Decided) -> Said
    requires problem { IsProblem (nodes classes.now.table) problem.now }
    requires atom { Has problem.now.ground.atoms literal.atom }
    ensures speaks { Speaks (nodes classes.now.table) (nodes problem.now.table) result literal }
    ensures equal { MayFollow (nodes problem.now.table) literal → result.holds ≡ true }
{
    spoken(classes.table(), problem, literal)
}

/// Places of literals before a literal with whose opposite they make an instance false.
fn places_of_instance(
    table: &Table,
    problem: &Problem,
    trail: &Trail,
    literal: Decided,
    before: usize,
    place: usize,
) -> Result<Row<usize>, NoMemory>
    requires problem { IsPosed (nodes table.now) problem.now }
    requires forced { IsForced (nodes table.now) problem.now (take before trail.now) literal place }
    ensures below { IfOk result (λ places. (n : ℕ) → Has places n → n < before) }
    ensures rests { IfOk result (λ places. RestsOn (nodes table.now) problem.now trail.now literal places) }
{
    reason(
        table,
        trail,
        instance_at(problem, place),
        Some(literal),
        before,
    )
}

/// Places of literals that make an instance false.
fn places_of_false(
    table: &Table,
    problem: &Problem,
    trail: &Trail,
    place: usize,
) -> Result<Row<usize>, NoMemory>
    requires problem { IsPosed (nodes table.now) problem.now }
    requires is_false { IsFalseAt (nodes table.now) problem.now trail.now place }
    ensures inside { IfOk result (λ places. (n : ℕ) → Has places n → n < length trail.now) }
    ensures clash { IfOk result (λ places. ClashWith (nodes table.now) problem.now trail.now places) }
{
    reason(table, trail, instance_at(problem, place), None, trail.len())
}

/// The numbers of literals among the first so many from which a literal follows by equality. The classes forget all others.
fn numbers_of_equality(
    problem: &Problem,
    classes: &mut Classes,
    literal: Decided,
    count: usize,
) -> Result<Row<usize>, NoMemory>
    requires problem { IsProblem (nodes classes.old.table) problem.now }
    requires atom { Has problem.now.ground.atoms literal.atom }
    requires inside { count ≤ length classes.old.said }
    requires may { MayFollow (nodes problem.now.table) literal }
    requires told { IsTold (nodes classes.old.table) (nodes problem.now.table) (take count classes.old.said) literal }
    ensures classes { classes.new ≡ record { table = classes.old.table; said = take count classes.old.said } }
    ensures below { IfOk result (λ places. (n : ℕ) → Has places n → n < length (take count classes.old.said)) }
    ensures told { IfOk result (λ places. IsTold (nodes classes.old.table) (nodes problem.now.table) (cong.picked (take count classes.old.said) places) literal) }
{
    let alloc = classes.table().alloc();
    classes.undo(count);
    let said = said_of(problem, classes, literal);
    let found = classes.explain(alloc, said.left, said.right)?;
    match found {
        Some(places) => Ok(Row::of(places)),
        None => unreachable!(),
    }
}

/// Places of literals before a literal of the trail from which it follows by equality.
fn places_of_equality(
    problem: &Problem,
    classes: &mut Classes,
    trail: &Trail,
    reasons: &[Reason],
    place: usize,
    count: usize,
) -> Result<Row<usize>, NoMemory>
    requires problem { IsProblem (nodes classes.old.table) problem.now }
    requires history { IsHistory (nodes problem.now.table) problem.now trail.now reasons.now }
    requires told { IsToldBelow (nodes classes.old.table) (nodes problem.now.table) trail.now reasons.now classes.old.said (place + 1) }
    requires inside { place < length trail.now }
    requires equality { slice_get reasons.now place ≡ Some (Equality count) }
    ensures below { IfOk result (λ places. (n : ℕ) → Has places n → n < place) }
    ensures rests { IfOk result (λ places. RestsAt (nodes problem.now.table) problem.now trail.now reasons.now place places) }
    ensures told { IsToldBelow (nodes classes.old.table) (nodes problem.now.table) trail.now reasons.now classes.new.said place }
    ensures table { classes.new.table ≡ classes.old.table }
{
    numbers_of_equality(problem, classes, trail.literal(place), count)
}

/// Places of literals before a literal of the trail from which it follows; none of one that was decided.
pub(crate) fn places_before(
    problem: &Problem,
    classes: &mut Classes,
    trail: &Trail,
    reasons: &[Reason],
    place: usize,
) -> Result<Row<usize>, NoMemory>
    requires problem { IsProblem (nodes classes.old.table) problem.now }
    requires history { IsHistory (nodes problem.now.table) problem.now trail.now reasons.now }
    requires told { IsToldBelow (nodes classes.old.table) (nodes problem.now.table) trail.now reasons.now classes.old.said (place + 1) }
    requires inside { place < length trail.now }
    ensures below { IfOk result (λ places. (n : ℕ) → Has places n → n < place) }
    ensures rests { IfOk result (λ places. RestsAt (nodes problem.now.table) problem.now trail.now reasons.now place places) }
    ensures told { OnOk result (IsToldBelow (nodes classes.old.table) (nodes problem.now.table) trail.now reasons.now classes.new.said place) }
    ensures table { classes.new.table ≡ classes.old.table }
{
    match reason_at(reasons, place) {
        Reason::Decision => Ok(Row::of(Vec::new(classes.table().alloc()))),
        Reason::Instance(instance) => places_of_instance(
            &problem.table,
            problem,
            trail,
            trail.literal(place),
            place,
            instance,
        ),
        Reason::Equality(count) => {
            places_of_equality(problem, classes, trail, reasons, place, count)
        }
    }
}

/// A copy of a list of places.
fn copied(alloc: Global, places: &[usize]) -> Result<Row<usize>, NoMemory>
    ensures { IfOk result (λ made. made ≡ places.now) }
{
    Ok(Row::of(Vec::from_slice(alloc, places)?))
}

/// The places of a cause.
pub(crate) fn places_of_cause(
    table: &Table,
    problem: &Problem,
    trail: &Trail,
    cause: &Cause,
) -> Result<Row<usize>, NoMemory>
    requires problem { IsPosed (nodes table.now) problem.now }
    requires cause { IsCause (nodes table.now) problem.now trail.now cause.now }
    ensures inside { IfOk result (λ places. (n : ℕ) → Has places n → n < length trail.now) }
    ensures clash { IfOk result (λ places. ClashWith (nodes table.now) problem.now trail.now places) }
{
    match cause {
        Cause::Instance(place) => places_of_false(table, problem, trail, *place),
        Cause::Equality(places) => copied(table.alloc(), places.items()),
    }
}
