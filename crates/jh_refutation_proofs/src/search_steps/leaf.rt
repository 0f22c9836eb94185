use crate::equality_steps::close_by_equality;
use crate::search_steps::bench::Bench;
use crate::search_steps::exposing::{expose, is_unit};
use crate::search_steps::falsity::close_false;
use crate::search_steps::literals::stated_of;
use crate::search_steps::testing::{any_false, false_place, forcing, tell};
use jh_name::NoMemory;
use jh_proof_builder::jh_derivation_steps::premises::NodeStep;
use jh_proof_builder::{Line, Stated, joined};
use jh_search::ClosedBranch;
use jh_search::jh_explanations::has;
use jh_search::jh_propagation::trail::{Decided, opposite};

/// Writes steps that close a branch by an instance, which is false.
fn close_by_instance(
    bench: &mut Bench,
    steps: &mut Vec<NodeStep>,
    place: usize,
) -> Result<(), NoMemory> {
    let instance = bench.take(place)?;
    close_false(&bench.problem.table, &bench.trail, steps, instance)
}

/// The literal of a number, where those of the trail are numbered in their order and one more stands behind them.
fn numbered(bench: &Bench, last: Decided, number: usize) -> Stated {
    if number < bench.trail.len() {
        stated_of(bench.trail.literal(number))
    } else {
        stated_of(last)
    }
}

/// Writes steps that close a branch by literals that no structure meets: those of these numbers.
fn close_by_numbers(
    bench: &mut Bench,
    steps: &mut Vec<NodeStep>,
    last: Decided,
    numbers: &[usize],
) -> Result<(), NoMemory> {
    let mut said = Vec::new(bench.problem.table.alloc());
    for number in numbers {
        said.push(numbered(bench, last, *number))?;
    }
    close_by_equality(&mut bench.problem.table, steps, said.as_slice())
}

/// Puts a literal to the trail, unless its atom stands there.
fn put(bench: &mut Bench, literal: Decided) -> Result<(), NoMemory> {
    match bench.trail.said(literal.atom) {
        Some(_holds) => Err(NoMemory),
        None => bench.trail.push(literal),
    }
}

/// Writes steps that close a branch in which the opposite of a literal is a fact, by an instance.
fn close_forced(
    bench: &mut Bench,
    steps: &mut Vec<NodeStep>,
    literal: Decided,
    place: usize,
) -> Result<(), NoMemory> {
    let count = bench.trail.len();
    put(bench, opposite(literal))?;
    close_by_instance(bench, steps, place)?;
    bench.trail.truncate(count);
    Ok(())
}

/// Writes steps that close a branch in which the opposite of a literal is a fact, by equality.
fn close_equal(
    bench: &mut Bench,
    steps: &mut Vec<NodeStep>,
    literal: Decided,
) -> Result<(), NoMemory> {
    let denied = opposite(literal);
    match tell(bench, denied)? {
        Some(numbers) => close_by_numbers(bench, steps, denied, numbers.as_slice()),
        None => Err(NoMemory),
    }
}

/// Makes a literal a fact by a cut on its atom, where these steps close the branch of its opposite.
fn cut_in(line: &mut Line, literal: Decided, side: Vec<NodeStep>) -> Result<(), NoMemory> {
    line.add(NodeStep::Cut(literal.atom))?;
    if literal.holds {
        line.leave(side)
    } else {
        joined(&mut line.steps, side.as_slice())
    }
}

/// Makes a literal a fact that the instance at a place forces.
fn derive_forced(
    bench: &mut Bench,
    line: &mut Line,
    literal: Decided,
    place: usize,
) -> Result<(), NoMemory> {
    let instance = bench.take(place)?;
    if is_unit(&bench.problem.table, &bench.trail, instance, literal)? {
        return expose(&bench.problem.table, &bench.trail, line, instance, literal);
    }
    let mut side = Vec::new(bench.problem.table.alloc());
    close_forced(bench, &mut side, literal, place)?;
    cut_in(line, literal, side)
}

/// Makes a literal a fact that follows by equality.
fn derive_equal(bench: &mut Bench, line: &mut Line, literal: Decided) -> Result<(), NoMemory> {
    let mut side = Vec::new(bench.problem.table.alloc());
    close_equal(bench, &mut side, literal)?;
    cut_in(line, literal, side)
}

/// Makes a literal a fact that follows from those before it.
fn derive(bench: &mut Bench, line: &mut Line, literal: Decided) -> Result<(), NoMemory> {
    match forcing(bench, literal)? {
        Some(place) => derive_forced(bench, line, literal, place),
        None => derive_equal(bench, line, literal),
    }
}

/// Puts a literal that is a fact to those before it. Where they clash then, steps are written that close the branch, and the answer
/// is yes.
fn keep(bench: &mut Bench, line: &mut Line, literal: Decided) -> Result<bool, NoMemory> {
    put(bench, literal)?;
    if let Some(place) = false_place(bench, literal.atom)? {
        close_by_instance(bench, &mut line.steps, place)?;
        return Ok(true);
    }
    match tell(bench, literal)? {
        Some(numbers) => {
            close_by_numbers(bench, &mut line.steps, literal, numbers.as_slice())?;
            Ok(true)
        }
        None => Ok(false),
    }
}

/// Goes on with the next literal of an explanation: it was decided, or it is derived first. The answer is whether the branch is closed
/// then.
fn go_on(
    bench: &mut Bench,
    line: &mut Line,
    branch: &ClosedBranch,
    literal: Decided,
) -> Result<bool, NoMemory> {
    if !has(branch.decisions.as_slice(), literal) {
        derive(bench, line, literal)?;
    }
    keep(bench, line, literal)
}

/// Closes a branch by an instance that is false whatever is decided.
fn close_at_once(bench: &mut Bench, line: &mut Line) -> Result<(), NoMemory> {
    match any_false(bench)? {
        Some(place) => close_by_instance(bench, &mut line.steps, place),
        None => Err(NoMemory),
    }
}

/// Writes the line of a branch by its explanation, up to where it is closed.
fn write_line(bench: &mut Bench, line: &mut Line, branch: &ClosedBranch) -> Result<(), NoMemory> {
    for literal in &branch.explanation {
        if go_on(bench, line, branch, *literal)? {
            return Ok(());
        }
    }
    close_at_once(bench, line)
}

/// Steps that close a branch of a search in which what its explanation needs is decided. The answer is want of memory where the
/// explanation is none.
pub(crate) fn leaf(bench: &mut Bench, branch: &ClosedBranch) -> Result<Vec<NodeStep>, NoMemory> {
    bench.clear();
    let mut line = Line::new(bench.problem.table.alloc());
    write_line(bench, &mut line, branch)?;
    line.closed()
}
