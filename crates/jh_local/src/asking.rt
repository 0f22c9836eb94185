ghost use Rattle.std.specs.Prelude.{◌≡◌, ◌<◌, ◌≤◌, ℕ, List, true, IfErr, IfOk};
ghost use Rattle.std.specs.List.{list_all};
ghost use Rattle.jh_arena.specs.table.Nodes.{nodes};
ghost use Rattle.jh_form.specs.Tree.{FormulaTree};
ghost use Rattle.jh_seq.specs.sequent.Sequents.{SequentTree};
ghost use Rattle.jh_ground_input.specs.jh_local_form.local_sequents.Forming.{IsFormed};
ghost use Rattle.jh_propagation.specs.propagation.Problems.{IsProblem, instances_in};
ghost use Rattle.jh_instance_proofs.specs.jh_search.Outcomes.{IsFound};
ghost use Rattle.jh_ground_input.specs.Standing.{IsPosed};
ghost use Rattle.jh_inst.specs.instances.Entries.{Entry};
ghost use Rattle.jh_inst.specs.instances.Instances.{instances_of};
ghost use Rattle.jh_inst.specs.plain_formulas.Plain.{are_literals};
ghost use Rattle.jh_inst.specs.instances.Rounds as spec;
ghost use Rattle.jh_ground_input.specs.jh_instantiation.instances.Progressing.{IsProgress};
ghost use Rattle.jh_ground_input.specs.jh_instantiation.instances.Standing.{IsMade};
ghost use Rattle.jh_local.specs.Answers.{HasNoModel, IsDerived, IsOutcome, IsSearched, IsSearchedFor};

use crate::answer::{Branch, LocalCause, Searched};
use crate::boxing::{boxed_branches, boxed_trail};
use crate::posing::posed;
use jh_arena::table::Table;
use jh_derivation_rules::Derivation;
use jh_ground_input::jh_instantiation::instances::{
    InstanceError, NodeEntries, Progress, first_entries, last_entries,
};
use jh_ground_input::jh_local_form::local_sequents::LocalForm;
use jh_ground_input::{Apart, facts_apart};
use jh_inst::plain_formulas::{instances_are_literals, normal_is_plain};
use jh_instance_proofs::derivations::derived;
use jh_instance_proofs::jh_search::{Found, Searching, search, start_search};
use jh_models::jh_cong::classes::Classes;
use jh_name::NoMemory;
use jh_propagation::propagation::Problem;

/// Why the instances of a problem aren't shown to have no ground model, where this was found. There is no cause where they have none.
fn cause_of(
    problem: &Problem,
    searching: &Searching,
    found: Found,
) -> Result<Option<LocalCause>, NoMemory>
    requires { (leaves : ℕ) × IsFound problem.now leaves searching.now found }
    ensures { IfOk result (λ made. (leaves many : ℕ) → many ≤ 100000 → IsFound problem.now leaves searching.now found → IsOutcome (instances_in (nodes problem.now.table) problem.now) many leaves made) }
{
    match found {
        Found::NoModel => Ok(None),
        Found::Model => {
            let literals = boxed_trail(&problem.table, &searching.branch.trail)?;
            Ok(Some(LocalCause::Open(Branch { literals })))
        }
        Found::Spent => {
            let closed = boxed_branches(&problem.table, searching.closed.as_slice())?;
            Ok(Some(LocalCause::Budget(closed)))
        }
    }
}

/// Searches a problem with this table of names: what is left of the search, and what it found.
fn found_in(atoms: Table, problem: &Problem, leaves: usize) -> Result<(Searching, Found), NoMemory>
    requires problem { IsProblem (nodes atoms) problem.now }
    requires leaves { 0 < leaves }
    ensures { IfOk result (λ made. IsFound problem.now leaves made.0 made.1) }
{
    let classes = Classes::new(atoms.alloc(), atoms)?;
    let mut searching = start_search(problem, classes)?;
    let found = search(problem, &mut searching, leaves)?;
    Ok((searching, found))
}

/// Searches a problem with this table of names: what is left of the search, and why it shows nothing, where it doesn't.
fn searched(
    atoms: Table,
    problem: &Problem,
    leaves: usize,
) -> Result<(Searching, Option<LocalCause>), NoMemory>
    requires problem { IsProblem (nodes atoms) problem.now }
    requires leaves { 0 < leaves }
    ensures { IfOk result (λ made. (many : ℕ) → many ≤ 100000 → IsOutcome (instances_in (nodes problem.now.table) problem.now) many leaves made.1) }
{
    let (searching, found) = found_in(atoms, problem, leaves)?;
    let cause = cause_of(problem, &searching, found)?;
    Ok((searching, cause))
}

/// The table of the nodes of a problem's instances.
fn table_of(problem: Problem) -> Table
    ensures { result ≡ problem.table }
{
    let Problem {
        table,
        instances: _instances,
        ground: _ground,
        names: _names,
        yes: _yes,
        no: _no,
    } = problem;
    table
}

/// The answer for a local form, by why a search of its instances shows nothing: where there is no such cause, a derivation is written from
/// what is left of the search.
fn answer_of(
    table: &Table,
    form: &LocalForm,
    made: &NodeEntries,
    problem: Problem,
    searching: Searching,
    cause: Option<LocalCause>,
) -> Result<Searched, NoMemory>
    ensures right { IfOk result (λ answer. (is : List FormulaTree) (many leaves : ℕ) → IsOutcome is many leaves cause → IsSearchedFor is many leaves answer) }
    ensures derived { IfOk result (λ answer. (s : SequentTree) → IsFormed table.now form.now s → IsDerived s answer) }
{
    match cause {
        Some(cause) => Ok(Searched::Unproved(cause)),
        None => Ok(Searched::Proved(derived(table, form, made, problem, searching)?)),
    }
}

/// Searches a problem with this table of names, which is posed of the instances among these entries of a local form.
fn answer_posed(
    table: &Table,
    form: &LocalForm,
    made: &NodeEntries,
    atoms: Table,
    problem: Problem,
    leaves: usize,
) -> Result<Searched, NoMemory>
    requires problem { IsProblem (nodes atoms) problem }
    requires leaves { 0 < leaves }
    ensures right { IfOk result (λ answer. (many : ℕ) → many ≤ 100000 → IsSearchedFor (instances_in (nodes problem.table) problem) many leaves answer) }
    ensures derived { IfOk result (λ answer. (s : SequentTree) → IsFormed table.now form.now s → IsDerived s answer) }
{
    let (searching, cause) = searched(atoms, &problem, leaves)?;
    answer_of(table, form, made, problem, searching, cause)
}

/// How many branches a search of the first instances may close.
const FIRST_LEAVES: usize = 500;

/// The budget of a search of the first instances.
fn first_budget(leaves: usize) -> usize
    requires { 0 < leaves }
    ensures { 0 < result }
{
    if leaves < FIRST_LEAVES {
        leaves
    } else {
        FIRST_LEAVES
    }
}

/// Searches the instances among these entries of a local form, whose nodes are those of the second table: a derivation where they have no
/// ground model, or else that table.
fn refuted(
    table: &Table,
    form: &LocalForm,
    made: &NodeEntries,
    own: Table,
    leaves: usize,
) -> Result<Result<Derivation, Table>, NoMemory>
    requires made { (es : List Entry) × IsMade own made.now es × (list_all are_literals (instances_of es) ≡ true) }
    requires leaves { 0 < leaves }
    ensures none { IfOk result (λ asked. IfOk asked (λ derivation. (es : List Entry) → IsMade own made.now es → HasNoModel (instances_of es))) }
    ensures derived { IfOk result (λ asked. IfOk asked (λ derivation. (s : SequentTree) → IsFormed table.now form.now s → IsDerived s (Searched.Proved derivation))) }
    ensures left { IfOk result (λ asked. IfErr asked (λ left. left ≡ own)) }
{
    let (problem, atoms) = posed(own, made)?;
    let (searching, found) = found_in(atoms, &problem, leaves)?;
    match found {
        Found::NoModel => Ok(Ok(derived(table, form, made, problem, searching)?)),
        Found::Model => Ok(Err(table_of(problem))),
        Found::Spent => Ok(Err(table_of(problem))),
    }
}

/// Searches all instances of a local form, of which these are the first.
fn answer_all(
    table: &Table,
    form: &LocalForm,
    progress: Progress,
    mut own: Table,
    leaves: usize,
) -> Result<Searched, NoMemory>
    requires made { (p : spec.Progress) × IsProgress own progress p × (list_all are_literals (instances_of (spec.ended p)) ≡ true) }
    requires leaves { 0 < leaves }
    ensures right { IfOk result (λ answer. (p : spec.Progress) (many : ℕ) → many ≤ 100000 → IsProgress own progress p → IsSearchedFor (instances_of (spec.ended p)) many leaves answer) }
    ensures derived { IfOk result (λ answer. (s : SequentTree) → IsFormed table.now form.now s → IsDerived s answer) }
{
    let made = last_entries(&mut own, progress)?;
    let (problem, atoms) = posed(own, &made)?;
    answer_posed(table, form, &made, atoms, problem, leaves)
}

/// Searches the instances of a local form, of which these are the first. Most proofs need no others, so these are searched by themselves
/// before others are made.
fn answer_from(
    table: &Table,
    form: &LocalForm,
    progress: Progress,
    own: Table,
    leaves: usize,
) -> Result<Searched, NoMemory>
    requires made { (p : spec.Progress) × IsProgress own progress p × (list_all are_literals (instances_of (spec.ended p)) ≡ true) }
    requires leaves { 0 < leaves }
    ensures right { IfOk result (λ answer. (p : spec.Progress) (many : ℕ) → many ≤ 100000 → IsProgress own progress p → IsSearchedFor (instances_of (spec.ended p)) many leaves answer) }
    ensures derived { IfOk result (λ answer. (s : SequentTree) → IsFormed table.now form.now s → IsDerived s answer) }
{
    match refuted(table, form, &progress.entries, own, first_budget(leaves))? {
        Ok(derivation) => Ok(Searched::Proved(derivation)),
        Err(own) => answer_all(table, form, progress, own, leaves),
    }
}

/// Searches the instances of the facts of a local form.
fn answer_for(
    table: &Table,
    form: &LocalForm,
    mut apart: Apart,
    rounds: u32,
    leaves: usize,
) -> Result<Searched, NoMemory>
    requires posed { (s : SequentTree) × IsPosed apart s }
    requires leaves { 0 < leaves }
    ensures { IfOk result (λ answer. (s : SequentTree) → IsFormed table.now form.now s → IsPosed apart s → IsSearched s rounds leaves answer) }
{
    normal_is_plain();
    instances_are_literals();
    match first_entries(
        &mut apart.table,
        apart.facts.as_slice(),
        apart.first,
        rounds,
    ) {
        Ok(progress) => answer_from(table, form, progress, apart.table, leaves),
        Err(InstanceError::TooMany(count)) => { Ok(Searched::Unproved(LocalCause::TooMany(count))) }
        Err(InstanceError::Memory) => Err(NoMemory),
    }
}

/// What the ground search says of a sequent of local shape, whose formulas are nodes of a table: of the instances that so many rounds
/// make, with a budget of so many closed branches. A proof holds a derivation that closes the sequent. The answer is want of memory where
/// a formula nests deeper than MOST_LEVELS, where a fact or a formula of the derivation has more than MOST_NODES nodes, each counted where
/// it stands, where a formula of the derivation nests deeper than MOST_NESTED, and where a turn leaves u32.
pub fn search_instances(
    table: &Table,
    form: &LocalForm,
    rounds: u32,
    leaves: usize,
) -> Result<Searched, NoMemory>
    requires form { (s : SequentTree) × IsFormed table.now form.now s }
    requires leaves { 0 < leaves }
    ensures { IfOk result (λ made. (s : SequentTree) → IsFormed table.now form.now s → IsSearched s rounds leaves made) }
{
    let apart = facts_apart(table, form)?;
    answer_for(table, form, apart, rounds, leaves)
}
