use crate::derivations::facts::stated_facts;
use crate::derivations::weighing::can_be_boxed;
use crate::instance_steps::write_entries;
use jh_arena::table::Table;
use jh_deriv::jh_derivation_steps::premises::NodeStep;
use jh_derivation_rules::Derivation;
use jh_instantiation::instances::NodeEntries;
use jh_local_form::local_sequents::LocalForm;
use jh_name::NoMemory;
use jh_proof_builder::{Line, boxed_steps, joined};
use jh_refutation_proofs::jh_cong::classes::Classes;
use jh_refutation_proofs::jh_propagation::propagation::{Branch, Problem};
use jh_refutation_proofs::jh_search::{ClosedBranch, Searching};
use jh_refutation_proofs::search_steps::{Bench, tree_of, write_tree};

/// What is left of a search: its closed branches, and the classes.
#[derive(Drop)]
struct Left {
    closed: Vec<ClosedBranch>,
    classes: Classes,
}

/// The closed branches of a search, and its classes.
fn left_of(searching: Searching) -> Left {
    let Searching {
        branch,
        path: _path,
        closed,
        weights: _weights,
    } = searching;
    let Branch {
        decisions: _decisions,
        classes,
        trail: _trail,
        reasons: _reasons,
        waiting: _waiting,
        head: _head,
    } = branch;
    Left { closed, classes }
}

/// Steps that close all branches.
fn tree_steps(bench: &mut Bench, closed: &[ClosedBranch]) -> Result<Vec<NodeStep>, NoMemory> {
    let tree = tree_of(bench.problem.table.alloc(), closed)?;
    write_tree(bench, closed, &tree)
}

/// Steps that make facts of the instances that are used.
fn entry_steps(
    from: &Table,
    form: &LocalForm,
    entries: &NodeEntries,
    bench: &mut Bench,
) -> Result<Line, NoMemory> {
    let facts = stated_facts(from, &mut bench.problem.table, form)?;
    write_entries(
        &mut bench.problem.table,
        entries,
        facts.as_slice(),
        &bench.used,
    )
}

/// All steps: those that make facts of the instances that are used, and those that close all branches.
fn all_steps(
    from: &Table,
    form: &LocalForm,
    entries: &NodeEntries,
    bench: &mut Bench,
    closed: &[ClosedBranch],
) -> Result<Vec<NodeStep>, NoMemory> {
    let body = tree_steps(bench, closed)?;
    let mut line = entry_steps(from, form, entries, bench)?;
    joined(&mut line.steps, body.as_slice())?;
    line.closed()
}

/// All steps with their operands boxed. The answer is want of memory where the operands have too many nodes in all.
fn boxed_on(
    from: &Table,
    form: &LocalForm,
    entries: &NodeEntries,
    bench: &mut Bench,
    closed: &[ClosedBranch],
) -> Result<Derivation, NoMemory> {
    let steps = all_steps(from, form, entries, bench, closed)?;
    if !can_be_boxed(&bench.problem.table, steps.as_slice()) {
        return Err(NoMemory);
    }
    boxed_steps(&bench.problem.table, steps.as_slice())
}

/// A derivation that closes the sequent of a local form, whose nodes are those of the first table, where a search found that the instances
/// among these entries have no ground model.
pub(crate) fn derivation_of(
    from: &Table,
    form: &LocalForm,
    entries: &NodeEntries,
    problem: Problem,
    searching: Searching,
) -> Result<Derivation, NoMemory> {
    let Left { closed, classes } = left_of(searching);
    let mut bench = Bench::new(problem, classes);
    boxed_on(from, form, entries, &mut bench, closed.as_slice())
}
