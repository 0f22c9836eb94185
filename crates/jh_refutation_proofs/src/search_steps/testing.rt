ghost use Rattle.jh_arena.specs.table.Nodes.{nodes};
ghost use Rattle.jh_cong.specs.classes.Saying.{CanBeSaid};

use crate::search_steps::bench::Bench;
use crate::search_steps::falsity::{is_false, looked};
use jh_arena::table::{Shape, Table};
use jh_cong::classes::{Classes, CongError, Said};
use jh_name::NoMemory;
use jh_proof_builder::shape_of;
use jh_search::jh_explanations::has;
use jh_search::jh_propagation::propagation::Problem;
use jh_search::jh_propagation::trail::{Decided, Looked, Trail};

/// The instance at a place.
fn instance_at(problem: &Problem, place: usize) -> Result<usize, NoMemory> {
    match problem.instances.get(place) {
        Some(instance) => Ok(*instance),
        None => Err(NoMemory),
    }
}

/// Whether an instance forces a literal, where the literals of the trail hold, or is false.
fn forces(
    problem: &Problem,
    trail: &Trail,
    place: usize,
    literal: Decided,
) -> Result<bool, NoMemory> {
    let instance = instance_at(problem, place)?;
    match looked(&problem.table, trail, instance)? {
        Looked::False => Ok(true),
        Looked::Forces(list) => Ok(has(list.items(), literal)),
    }
}

/// The place of an instance that forces a literal, where there is one.
pub(crate) fn forcing(bench: &Bench, literal: Decided) -> Result<Option<usize>, NoMemory> {
    for place in bench.problem.ground.places(literal.atom) {
        if forces(&bench.problem, &bench.trail, *place, literal)? {
            return Ok(Some(*place));
        }
    }
    Ok(None)
}

/// The place of an instance in which an atom stands and that is false, where there is one.
pub(crate) fn false_place(bench: &Bench, atom: usize) -> Result<Option<usize>, NoMemory> {
    for place in bench.problem.ground.places(atom) {
        let instance = instance_at(&bench.problem, *place)?;
        if is_false(&bench.problem.table, &bench.trail, instance)? {
            return Ok(Some(*place));
        }
    }
    Ok(None)
}

/// The place of an instance that is false, where there is one.
pub(crate) fn any_false(bench: &Bench) -> Result<Option<usize>, NoMemory> {
    for place in 0..bench.problem.instances.len() {
        let instance = instance_at(&bench.problem, place)?;
        if is_false(&bench.problem.table, &bench.trail, instance)? {
            return Ok(Some(place));
        }
    }
    Ok(None)
}

/// The sides of an equation at any sort.
fn sides(shape: Shape) -> Option<(usize, usize)> {
    match shape {
        Shape::EqObject(a, b) => Some((a, b)),
        Shape::EqNumber(a, b) => Some((a, b)),
        Shape::EqSet(a, b) => Some((a, b)),
        Shape::Iff(a, b) => Some((a, b)),
        _ => None,
    }
}

/// What the classes are told of a literal: the equation or inequation that it is, or that its atom is True or False. There is nothing to
/// tell where its atom is none of the problem.
fn said_of(table: &Table, problem: &Problem, literal: Decided) -> Option<Said> {
    let name = problem.names.get(literal.atom).copied()?;
    let said = match sides(shape_of(table, name)) {
        Some((left, right)) => Said {
            left,
            right,
            holds: literal.holds,
        },
        None => Said {
            left: name,
            right: if literal.holds {
                problem.yes
            } else {
                problem.no
            },
            holds: true,
        },
    };
    Some(said)
}

/// Tells the classes that two nodes are equal, or that they aren't.
fn assert_said(classes: &mut Classes, said: Said) -> Result<(), CongError>
    requires { CanBeSaid (nodes classes.old.table) said.left said.right }
{
    let alloc = classes.table().alloc();
    if said.holds {
        classes.assert_eq(alloc, said.left, said.right)
    } else {
        classes.assert_ne(alloc, said.left, said.right)
    }
}

/// Tells the classes what a literal says. The answer is none where some structure meets it with those told before. Else these are the
/// numbers of literals that none meets, in the order in which they were told, this one behind the others, and the classes are as they
/// were.
fn tell_said(classes: &mut Classes, said: Said) -> Result<Option<Vec<usize>>, NoMemory> {
    if !classes.can_be_said(said.left, said.right) {
        return Err(NoMemory);
    }
    match assert_said(classes, said) {
        Ok(()) => Ok(None),
        Err(CongError::Conflict(numbers)) => Ok(Some(numbers.into_vec())),
        Err(CongError::Memory) => Err(NoMemory),
    }
}

/// The same of a literal.
pub(crate) fn tell(bench: &mut Bench, literal: Decided) -> Result<Option<Vec<usize>>, NoMemory> {
    match said_of(bench.classes.table(), &bench.problem, literal) {
        Some(said) => tell_said(&mut bench.classes, said),
        None => Err(NoMemory),
    }
}
