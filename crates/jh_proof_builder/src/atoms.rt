#![tactic(auto, using(crate::proofs::Sorts::reach_steps))]

ghost use Rattle.std.specs.Prelude.{◌≡◌, true};
ghost use Rattle.jh_arena.specs.table.Nodes.{fits_in};
ghost use Rattle.jh_arena.specs.declared.table.shapes.Shape.TheVariants as Shape;

use crate::nodes::{are_objects, is_field, is_number, is_object, is_set, shape_of};
use jh_arena::makers::{member, read_set, read_truth, same_number, same_object};
use jh_arena::table::{Shape, Table};
use jh_name::NoMemory;

/// The sides of an equation of objects or of numbers.
pub fn is_equation(table: &Table, atom: usize) -> Option<(usize, usize)> {
    match shape_of(table, atom) {
        Shape::EqObject(a, b) => Some((a, b)),
        Shape::EqNumber(a, b) => Some((a, b)),
        _ => None,
    }
}

/// The node of that two objects or two numbers are equal. The answer is want of memory where they are none.
pub fn equation(table: &mut Table, a: usize, b: usize) -> Result<usize, NoMemory> {
    if are_objects(table, a, b) {
        same_object(table, a, b)
    } else {
        equal_numbers(table, a, b)
    }
}

/// The node of that two numbers are equal.
fn equal_numbers(table: &mut Table, a: usize, b: usize) -> Result<usize, NoMemory> {
    if !is_number(table, a) {
        return Err(NoMemory);
    }
    if is_number(table, b) {
        same_number(table, a, b)
    } else {
        Err(NoMemory)
    }
}

/// The object at which a set is read from a field, where it is.
fn read_at(table: &Table, set: usize) -> Option<usize> {
    match shape_of(table, set) {
        Shape::ReadSet(_, a) => Some(a),
        _ => None,
    }
}

/// The objects of which an atom that is no equation says something: at most two.
pub fn arguments(table: &Table, atom: usize) -> (Option<usize>, Option<usize>) {
    match shape_of(table, atom) {
        Shape::ReadTruth(_, a) => (Some(a), None),
        Shape::Member(a, set) => (Some(a), read_at(table, set)),
        Shape::Reach(_, a, b) => (Some(a), Some(b)),
        _ => (None, None),
    }
}

/// Whether two sets are one but for the object at which they are read.
fn same_set(table: &Table, left: usize, right: usize) -> bool {
    match (shape_of(table, left), shape_of(table, right)) {
        (Shape::ReadSet(f, _), Shape::ReadSet(g, _)) => f == g,
        _ => left == right,
    }
}

/// Whether two atoms that are no equations are one but for the objects of which they say something.
pub fn same_head(table: &Table, left: usize, right: usize) -> bool {
    match (shape_of(table, left), shape_of(table, right)) {
        (Shape::ReadTruth(f, _), Shape::ReadTruth(g, _)) => f == g,
        (Shape::Member(_, a), Shape::Member(_, b)) => same_set(table, a, b),
        (Shape::Reach(list, _, _), Shape::Reach(other, _, _)) => list == other,
        _ => false,
    }
}

/// The node of a truth that is read from a field at an object.
fn truth_at(table: &mut Table, field: usize, with: usize) -> Result<usize, NoMemory> {
    if !is_field(table, field) {
        return Err(NoMemory);
    }
    if is_object(table, with) {
        read_truth(table, field, with)
    } else {
        Err(NoMemory)
    }
}

/// The node of a set that is read from a field at an object.
fn read_set_at(table: &mut Table, field: usize, with: usize) -> Result<usize, NoMemory> {
    if !is_field(table, field) {
        return Err(NoMemory);
    }
    if is_object(table, with) {
        read_set(table, field, with)
    } else {
        Err(NoMemory)
    }
}

/// The node of a set read at another object.
fn set_at(table: &mut Table, set: usize, with: usize) -> Result<usize, NoMemory> {
    match shape_of(table, set) {
        Shape::ReadSet(field, _) => read_set_at(table, field, with),
        _ => Ok(set),
    }
}

/// The node of that an object is in a set.
fn member_of(table: &mut Table, a: usize, set: usize) -> Result<usize, NoMemory> {
    if !is_object(table, a) {
        return Err(NoMemory);
    }
    if is_set(table, set) {
        member(table, a, set)
    } else {
        Err(NoMemory)
    }
}

/// The node of the membership of another object, or in a set that is read at another one.
fn member_with(
    table: &mut Table,
    a: usize,
    set: usize,
    first: bool,
    with: usize,
) -> Result<usize, NoMemory> {
    if first {
        return member_of(table, with, set);
    }
    let other = set_at(table, set, with)?;
    member_of(table, a, other)
}

/// The node of that an object is reached, from another one or another one from it.
fn reach_with(
    table: &mut Table,
    list: usize,
    a: usize,
    b: usize,
    first: bool,
    with: usize,
) -> Result<usize, NoMemory>
    requires { fits_in table.old (Shape.Reach list a b) ≡ true }
{
    if !is_object(table, with) {
        return Err(NoMemory);
    }
    if first {
        table.make(Shape::Reach(list, with, b))
    } else {
        table.make(Shape::Reach(list, a, with))
    }
}

/// The node of an atom with another object for its first or its second one. The answer is want of memory where that is none.
pub fn with_argument(
    table: &mut Table,
    atom: usize,
    first: bool,
    with: usize,
) -> Result<usize, NoMemory> {
    match shape_of(table, atom) {
        Shape::ReadTruth(field, _) => truth_at(table, field, with),
        Shape::Reach(list, a, b) => reach_with(table, list, a, b, first, with),
        Shape::Member(a, set) => member_with(table, a, set, first, with),
        _ => Err(NoMemory),
    }
}
