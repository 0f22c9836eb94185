ghost use Rattle.std.specs.Prelude.{◌≡◌, ◌<◌, ◌+◌, ℕ, false, IfOk, OnOk, Some, length, slice_get, slice_set, true};
ghost use Rattle.jh_closure.specs.congruence_closure.Nodes.{Has};
ghost use Rattle.jh_arena.specs.table.Nodes.{nodes};
ghost use Rattle.jh_propagation.specs.propagation.Closings.{IsCause};
ghost use Rattle.jh_propagation.specs.propagation.Problems.{IsProblem};
ghost use Rattle.jh_explanations.specs.Marks.{AddsMarks, AreExplained, IsMarkedAt};
ghost use Rattle.jh_explanations.specs.Resting.{IsHistory, IsToldBelow};

use crate::places::{place_at, places_before, places_of_cause};
use jh_arena::table::Table;
use jh_cong::classes::Classes;
use jh_name::NoMemory;
use jh_propagation::propagation::{Cause, Problem, Reason};
use jh_propagation::trail::Trail;
use std::alloc::Global;

/// Marks a place of the trail.
fn set_mark(marks: &mut Vec<bool>, place: usize)
    requires { place < length marks.old.items }
    ensures { marks.new.items ≡ slice_set marks.old.items place true }
{
    marks[place] = true;
}

/// Marks places of the trail.
fn mark_all(marks: &mut Vec<bool>, places: &[usize])
    requires { (n : ℕ) → Has places.now n → n < length marks.old.items }
    ensures { AddsMarks marks.old.items marks.new.items places.now }
{
    for index in 0..places.len() {
        set_mark(marks, place_at(places, index));
    }
}

/// No marks on so many places.
fn no_marks(alloc: Global, count: usize) -> Result<Vec<bool>, NoMemory>
    ensures long { IfOk result (λ made. length made.items ≡ count) }
    ensures none { IfOk result (λ made. (n : ℕ) → IsMarkedAt made.items n → ⊥) }
{
    let mut marks = Vec::new(alloc);
    for _place in 0..count {
        marks.push(false)?;
    }
    Ok(marks)
}

/// Marks the places of a cause.
fn marks_of_cause(
    table: &Table,
    problem: &Problem,
    trail: &Trail,
    reasons: &[Reason],
    cause: &Cause,
) -> Result<Vec<bool>, NoMemory>
    requires history { IsHistory (nodes table.now) problem.now trail.now reasons.now }
    requires cause { IsCause (nodes table.now) problem.now trail.now cause.now }
    ensures { IfOk result (λ marks. AreExplained (nodes table.now) problem.now trail.now reasons.now marks.items (length trail.now)) }
{
    let _reasons = reasons;
    let places = places_of_cause(table, problem, trail, cause)?;
    let mut marks = no_marks(table.alloc(), trail.len())?;
    mark_all(&mut marks, places.items());
    Ok(marks)
}

/// Whether a place is marked.
pub(crate) fn is_marked(marks: &[bool], place: usize) -> bool
    requires { place < length marks.now }
    ensures { slice_get marks.now place ≡ Some result }
{
    marks[place]
}

/// Marks what a literal follows from.
fn mark_reason(
    problem: &Problem,
    classes: &mut Classes,
    trail: &Trail,
    reasons: &[Reason],
    marks: &mut Vec<bool>,
    place: usize,
) -> Result<(), NoMemory>
    requires problem { IsProblem (nodes classes.old.table) problem.now }
    requires history { IsHistory (nodes problem.now.table) problem.now trail.now reasons.now }
    requires told { IsToldBelow (nodes classes.old.table) (nodes problem.now.table) trail.now reasons.now classes.old.said (place + 1) }
    requires explained { AreExplained (nodes problem.now.table) problem.now trail.now reasons.now marks.old.items (place + 1) }
    requires inside { place < length trail.now }
    ensures told { OnOk result (IsToldBelow (nodes classes.old.table) (nodes problem.now.table) trail.now reasons.now classes.new.said place) }
    ensures explained { OnOk result (AreExplained (nodes problem.now.table) problem.now trail.now reasons.now marks.new.items place) }
    ensures table { classes.new.table ≡ classes.old.table }
{
    let places = places_before(problem, classes, trail, reasons, place)?;
    mark_all(marks, places.items());
    Ok(())
}

/// Marks what a literal follows from that is marked.
fn mark_before(
    problem: &Problem,
    classes: &mut Classes,
    trail: &Trail,
    reasons: &[Reason],
    marks: &mut Vec<bool>,
    place: usize,
) -> Result<(), NoMemory>
    requires problem { IsProblem (nodes classes.old.table) problem.now }
    requires history { IsHistory (nodes problem.now.table) problem.now trail.now reasons.now }
    requires told { IsToldBelow (nodes classes.old.table) (nodes problem.now.table) trail.now reasons.now classes.old.said (place + 1) }
    requires explained { AreExplained (nodes problem.now.table) problem.now trail.now reasons.now marks.old.items (place + 1) }
    requires inside { place < length trail.now }
    ensures told { OnOk result (IsToldBelow (nodes classes.old.table) (nodes problem.now.table) trail.now reasons.now classes.new.said place) }
    ensures explained { OnOk result (AreExplained (nodes problem.now.table) problem.now trail.now reasons.now marks.new.items place) }
    ensures table { classes.new.table ≡ classes.old.table }
{
    if is_marked(marks.as_slice(), place) {
        mark_reason(problem, classes, trail, reasons, marks, place)
    } else {
        Ok(())
    }
}

/// Marks all that marked literals follow from, from the last place down.
fn mark_down(
    problem: &Problem,
    classes: &mut Classes,
    trail: &Trail,
    reasons: &[Reason],
    marks: &mut Vec<bool>,
) -> Result<(), NoMemory>
    requires problem { IsProblem (nodes classes.old.table) problem.now }
    requires history { IsHistory (nodes problem.now.table) problem.now trail.now reasons.now }
    requires told { IsToldBelow (nodes classes.old.table) (nodes problem.now.table) trail.now reasons.now classes.old.said (length trail.now) }
    requires explained { AreExplained (nodes problem.now.table) problem.now trail.now reasons.now marks.old.items (length trail.now) }
    ensures explained { OnOk result (AreExplained (nodes problem.now.table) problem.now trail.now reasons.now marks.new.items 0) }
    ensures table { classes.new.table ≡ classes.old.table }
{
    let count = trail.len();
    for index in 0..count {
        mark_before(problem, classes, trail, reasons, marks, count - 1 - index)?;
    }
    Ok(())
}

/// The marks of the literals that explain a cause. The classes forget what they were told.
pub(crate) fn marks_of(
    problem: &Problem,
    classes: &mut Classes,
    trail: &Trail,
    reasons: &[Reason],
    cause: &Cause,
) -> Result<Vec<bool>, NoMemory>
    requires problem { IsProblem (nodes classes.old.table) problem.now }
    requires history { IsHistory (nodes problem.now.table) problem.now trail.now reasons.now }
    requires told { IsToldBelow (nodes classes.old.table) (nodes problem.now.table) trail.now reasons.now classes.old.said (length trail.now) }
    requires cause { IsCause (nodes problem.now.table) problem.now trail.now cause.now }
    ensures explained { IfOk result (λ marks. AreExplained (nodes problem.now.table) problem.now trail.now reasons.now marks.items 0) }
    ensures table { classes.new.table ≡ classes.old.table }
{
    let mut marks = marks_of_cause(&problem.table, problem, trail, reasons, cause)?;
    mark_down(problem, classes, trail, reasons, &mut marks)?;
    Ok(marks)
}
