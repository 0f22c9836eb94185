ghost use Rattle.std.specs.Prelude.{◌≡◌, ◌<◌, List, map, length, true, Some, IfOk, OnOk, slice_get};
ghost use Rattle.jh_form.specs.Tree.{FormulaTree};
ghost use Rattle.jh_arena.specs.table.Entries.{is_truth};
ghost use Rattle.jh_arena.specs.table.Nodes.{nodes};
ghost use Rattle.jh_closure.specs.structures.Literals.{literal_tree};
ghost use Rattle.jh_propagation.specs.trail.Saying.{literal_tree_at, literals_at};
ghost use Rattle.jh_propagation.specs.declared.trail.decided.Decided.{Decided};
ghost use Rattle.jh_instance_proofs.specs.jh_search.Paths.{all_closed, closed_at};
ghost use Rattle.jh_instance_proofs.specs.jh_search.declared.turn.ClosedBranch.{ClosedBranch};
ghost use Rattle.jh_local.specs.Answers.{closed_tree, closed_trees, literal_trees};
ghost use Rattle.jh_local.specs.Standing.{AreFormulas, EachFormulas};

use crate::answer::Closed;
use jh_arena::table::Table;
use jh_closure::structures::Literal;
use jh_export::boxed_formula;
use jh_instance_proofs::jh_search::ClosedBranch;
use jh_name::{NoMemory, Row};
use jh_propagation::trail::{Decided, Trail};

/// A literal with its atom boxed.
fn boxed(table: &Table, literal: Decided) -> Result<Literal, NoMemory>
    requires there { is_truth (slice_get (nodes table.now) literal.atom) ≡ true }
    ensures { IfOk result (λ made. literal_tree made ≡ literal_tree_at (nodes table.now) literal) }
{
    Ok(Literal {
        atom: boxed_formula(table, literal.atom)?,
        holds: literal.holds,
    })
}

/// The literal at a place.
fn literal_at(literals: &[Decided], place: usize) -> Decided
    requires { place < length literals.now }
    ensures { slice_get literals.now place ≡ Some result }
{
    literals[place]
}

/// Literals with their atoms boxed.
pub(crate) fn boxed_literals(table: &Table, literals: &[Decided]) -> Result<Row<Literal>, NoMemory>
    requires there { AreFormulas (nodes table.now) literals.now }
    ensures { IfOk result (λ made. literal_trees made ≡ literals_at (nodes table.now) literals.now) }
{
    let mut made = Vec::new(table.alloc());
    for place in 0..literals.len() {
        made.push(boxed(table, literal_at(literals, place))?)?;
    }
    Ok(Row::of(made))
}

/// The literals of the trail with their atoms boxed.
pub(crate) fn boxed_trail(table: &Table, trail: &Trail) -> Result<Row<Literal>, NoMemory>
    requires there { AreFormulas (nodes table.now) trail.now }
    ensures { IfOk result (λ made. literal_trees made ≡ literals_at (nodes table.now) trail.now) }
{
    let mut made = Vec::new(table.alloc());
    for place in 0..trail.len() {
        made.push(boxed(table, trail.literal(place))?)?;
    }
    Ok(Row::of(made))
}

/// A closed branch with its literals boxed.
fn boxed_branch(table: &Table, branch: &ClosedBranch) -> Result<Closed, NoMemory>
    requires decisions { AreFormulas (nodes table.now) branch.now.decisions.items }
    requires explanation { AreFormulas (nodes table.now) branch.now.explanation.items }
    ensures { IfOk result (λ made. closed_tree made ≡ closed_at (nodes table.now) branch.now) }
{
    let decisions = boxed_literals(table, branch.decisions.as_slice())?;
    let explanation = boxed_literals(table, branch.explanation.as_slice())?;
    Ok(Closed {
        decisions,
        explanation,
    })
}

/// The branch at a place.
fn branch_at(branches: &[ClosedBranch], place: usize) -> &ClosedBranch
    requires { place < length branches.now }
    ensures { slice_get branches.now place ≡ Some result.now }
{
    &branches[place]
}

/// Closed branches with their literals boxed.
pub(crate) fn boxed_branches(
    table: &Table,
    branches: &[ClosedBranch],
) -> Result<Row<Closed>, NoMemory>
    requires there { EachFormulas (nodes table.now) branches.now }
    ensures { IfOk result (λ made. closed_trees made ≡ all_closed (nodes table.now) branches.now) }
{
    let mut made = Vec::new(table.alloc());
    for place in 0..branches.len() {
        made.push(boxed_branch(table, branch_at(branches, place))?)?;
    }
    Ok(Row::of(made))
}
