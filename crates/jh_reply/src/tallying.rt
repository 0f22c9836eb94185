//! From the formulas of a program to how many of its sequents are proved, and how.
#![tactic(auto, unfolding(jh_ast::specs::Bare::class_part, jh_ast::specs::Bare::method_part, jh_ast::specs::Bare::program_tree))]

ghost use Rattle.std.specs.Prelude.{◌≡◌, ◌+◌, ◌<◌, ◌++◌, ◌∷◌, [], ℕ, List, count_by, IfErr, IfOk, OnOk};
ghost use Rattle.jh_ast.specs.Bare.{program_tree};
ghost use Rattle.jh_ast.specs.Programs.{ProgramTree};
ghost use Rattle.jh_run.specs.jh_command_statements.checks.Told.{AreFormulas};
ghost use Rattle.jh_gen_laws.specs.jh_seq.sequent.Sequents.{SequentTree};
ghost use Rattle.jh_report.specs.jh_splitting.Pairs.{ArePaired};
ghost use Rattle.jh_run.specs.jh_logic.source.Laws.{IsAccepted};
ghost use Rattle.jh_arena.specs.table.Growth.{Extends};
ghost use Rattle.jh_vars.specs.Reading.{IsAcyclic};
ghost use Rattle.jh_gen_laws.specs.jh_obligations.program_sequents.Owed.{AllStand, Debt, Stand};
ghost use Rattle.jh_gen_laws.specs.jh_obligations.program_sequents.Sources.{Owes};
ghost use Rattle.jh_report.specs.jh_prove.prover.Answers.{is_unproved};
ghost use Rattle.jh_report.specs.report.Report.{Reported};
ghost use Rattle.jh_reply.specs.Causes.{IsUnreported};
ghost use Rattle.jh_reply.specs.Made as spec;
ghost use Rattle.jh_reply.specs.Made.{IsTallied, IsTally};
ghost use Rattle.jh_reply.specs.Verify.{IsJudged};

use crate::error::Unreported;
use crate::reporting::why_unreported;
use jh_arena::table::Table;
use jh_gen::Counts;
use jh_gen_laws::jh_obligations::program_sequents::obligations;
use jh_name::NoMemory;
use jh_name::options::Options;
use jh_report::jh_prove::prover::{Answer, answers, is_unproved};
use jh_report::jh_splitting::Sequents;
use jh_run::jh_unfolding::unfolder::{Parts, Unfolded};
use std::alloc::Global;

fn is_trivial(answer: &Answer) -> bool
    ensures { result ≡ spec.is_trivial answer.now }
{
    match answer {
        Answer::Trivial => true,
        _ => false,
    }
}

fn is_bapa(answer: &Answer) -> bool
    ensures { result ≡ spec.is_bapa answer.now }
{
    match answer {
        Answer::Bapa(_) => true,
        _ => false,
    }
}

fn is_local(answer: &Answer) -> bool
    ensures { result ≡ spec.is_local answer.now }
{
    match answer {
        Answer::Local(_) => true,
        _ => false,
    }
}

fn count_trivial(answers: &[Answer]) -> usize
    ensures { result ≡ count_by spec.is_trivial answers.now }
{
    answers.iter().filter(|answer| is_trivial(answer)).count()
}

fn count_bapa(answers: &[Answer]) -> usize
    ensures { result ≡ count_by spec.is_bapa answers.now }
{
    answers.iter().filter(|answer| is_bapa(answer)).count()
}

fn count_local(answers: &[Answer]) -> usize
    ensures { result ≡ count_by spec.is_local answers.now }
{
    answers.iter().filter(|answer| is_local(answer)).count()
}

fn count_unproved(answers: &[Answer]) -> usize
    ensures { result ≡ count_by is_unproved answers.now }
{
    answers.iter().filter(|answer| is_unproved(answer)).count()
}

/// A sum; want of memory where it leaves `usize`.
fn sum(left: usize, right: usize) -> Result<usize, NoMemory>
    ensures { IfOk result (λ made. made ≡ left + right) }
{
    match left.checked_add(right) {
        Some(made) => Ok(made),
        None => Err(NoMemory),
    }
}

/// Adds a method with the answers for its sequents.
fn add(counts: &mut Counts, answers: &[Answer]) -> Result<(), NoMemory>
    ensures { OnOk result ((rs : List Reported) (class name : List ℕ) (ss : List SequentTree) → IsTally counts.old rs → IsTally counts.new (rs ++ record { class = class; name = name; sequents = ss; answers = answers.now } ∷ [])) }
{
    counts.methods = sum(counts.methods, 1)?;
    counts.sequents = sum(counts.sequents, answers.len())?;
    counts.trivial = sum(counts.trivial, count_trivial(answers))?;
    counts.bapa = sum(counts.bapa, count_bapa(answers))?;
    counts.local = sum(counts.local, count_local(answers))?;
    counts.unproved = sum(counts.unproved, count_unproved(answers))?;
    Ok(())
}

/// Answers the sequents of a method, and adds them.
fn tally_method(
    alloc: Global,
    options: Options,
    table: &mut Table,
    sequents: &Sequents,
    counts: &mut Counts,
) -> Result<(), NoMemory>
    requires leaves { 0 < options.leaves }
    requires stands { (d : Debt) × Stand table.old sequents.now d }
    ensures tallied { OnOk result ((p : ProgramTree) (rs : List Reported) (d : Debt) → Stand table.old sequents.now d → IsTally counts.old rs → (r : Reported) × IsJudged options p d r × IsTally counts.new (rs ++ r ∷ [])) }
    ensures grows { Extends table.old table.new }
{
    let answers = answers(alloc, table, options, sequents)?;
    add(counts, answers.as_slice())
}

/// How many of the sequents of some methods are proved, and how.
fn tally_methods(
    alloc: Global,
    options: Options,
    table: &mut Table,
    sequents: &[Sequents],
) -> Result<Counts, NoMemory>
    requires leaves { 0 < options.leaves }
    requires stand { (ds : List Debt) × AllStand table.old sequents.now ds }
    ensures { IfOk result (λ counts. (p : ProgramTree) (ds : List Debt) → AllStand table.old sequents.now ds → (rs : List Reported) × ArePaired (IsJudged options p) ds rs × IsTally counts rs) }
{
    let mut counts = Counts {
        methods: 0,
        sequents: 0,
        trivial: 0,
        bapa: 0,
        local: 0,
        unproved: 0,
    };
    for place in 0..sequents.len() {
        tally_method(alloc, options, table, &sequents[place], &mut counts)?;
    }
    Ok(counts)
}

/// The same for the sequents that a program owes.
fn tally_owed(
    alloc: Global,
    options: Options,
    parts: &mut Parts,
    sequents: &[Sequents],
) -> Result<Counts, NoMemory>
    requires leaves { 0 < options.leaves }
    requires owes { (ds : List Debt) × Owes (program_tree parts.old.typed) ds × AllStand parts.old.table sequents.now ds }
    ensures { IfOk result (IsTallied options (program_tree parts.old.typed)) }
{
    let counts = tally_methods(alloc, options, &mut parts.table, sequents)?;
    Ok(counts)
}

/// How many of the sequents of a program are proved, and how.
fn tally_parts(alloc: Global, options: Options, parts: &mut Parts) -> Result<Counts, Unreported>
    requires leaves { 0 < options.leaves }
    requires accepted { IsAccepted (program_tree parts.old.typed) }
    requires acyclic { IsAcyclic (program_tree parts.old.typed) }
    requires formulas { AreFormulas (program_tree parts.old.typed) parts.old.table parts.old.formulas.items }
    ensures tallied { IfOk result (IsTallied options (program_tree parts.old.typed)) }
    ensures why { IfErr result (IsUnreported (program_tree parts.old.typed)) }
{
    let formulas = parts.formulas.as_slice();
    match obligations(alloc, &parts.typed, &mut parts.table, formulas) {
        Err(fault) => Err(why_unreported(alloc, parts.typed.program(), fault)),
        Ok(sequents) => {
            let counts = tally_owed(alloc, options, parts, sequents.as_slice())?;
            Ok(counts)
        }
    }
}

/// How many of the sequents of a program are proved, and how.
pub fn tally(alloc: Global, options: Options, source: Unfolded) -> Result<Counts, Unreported>
    requires leaves { 0 < options.leaves }
    requires accepted { IsAccepted (program_tree source.program) }
    requires acyclic { IsAcyclic (program_tree source.program) }
    ensures tallied { IfOk result (IsTallied options (program_tree source.program)) }
    ensures why { IfErr result (IsUnreported (program_tree source.program)) }
{
    let mut parts = source.into_parts(alloc)?;
    tally_parts(alloc, options, &mut parts)
}
