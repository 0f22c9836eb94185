//! From the formulas of a program to the report on it.
#![tactic(auto, unfolding(jh_ast::specs::Bare::class_part, jh_ast::specs::Bare::method_part, jh_ast::specs::Bare::program_tree))]

ghost use Rattle.std.specs.Prelude.{◌≡◌, ◌<◌, ◌++◌, ◌∷◌, [], List, length, string_bytes, IfErr, IfOk, OnOk};
ghost use Rattle.jh_ast.specs.Bare.{program_tree};
ghost use Rattle.jh_run.specs.jh_command_statements.checks.Told.{AreFormulas};
ghost use Rattle.jh_report.specs.jh_splitting.Pairs.{ArePaired};
ghost use Rattle.jh_run.specs.jh_logic.source.Laws.{IsAccepted};
ghost use Rattle.jh_arena.specs.table.Growth.{Extends};
ghost use Rattle.jh_vars.specs.Reading.{IsAcyclic};
ghost use Rattle.jh_vars.specs.States.{class_text};
ghost use Rattle.jh_gen_laws.specs.jh_obligations.program_sequents.Owed.{AllStand, Debt, Stand};
ghost use Rattle.jh_gen_laws.specs.jh_obligations.program_sequents.Sources.{IsLogicFault, Owes};
ghost use Rattle.jh_report.specs.report.Gathered.{Gathers};
ghost use Rattle.jh_report.specs.report.Report.{Reported};
ghost use Rattle.jh_reply.specs.Causes.{IsUnreported, crowded_text};
ghost use Rattle.jh_reply.specs.Refusals.{method_text};
ghost use Rattle.jh_reply.specs.Verify.{IsJudged, IsReport, Judges};

use crate::error::Unreported;
use jh_arena::table::Table;
use jh_ast::Program;
use jh_gen_laws::jh_obligations::program_sequents::{LogicError, obligations};
use jh_name::options::Options;
use jh_name::{MethodId, NoMemory};
use jh_report::jh_prove::prover::{Answer, answers};
use jh_report::jh_splitting::Sequents;
use jh_report::report::Report;
use jh_run::jh_unfolding::unfolder::{Parts, Unfolded};
use std::alloc::Global;

/// A report on a program, and whether every sequent is proved.
#[derive(Drop)]
pub struct Verified {
    pub text: String,
    pub accepted: bool,
}

/// The text of the class of a number.
fn class_text(program: &Program, number: u32) -> &str
    ensures { result.now ≡ class_text (program_tree program.now) number }
{
    match program.classes.items().get(number as usize) {
        None => "",
        Some(class) => class.name.text.text(),
    }
}

/// The own name of a method, by its number.
fn method_text(program: &Program, id: MethodId) -> &str
    ensures { result.now ≡ method_text (program_tree program.now) id }
{
    match program.classes.items().get(id.class as usize) {
        None => "",
        Some(class) => match class.methods.items().get(id.method as usize) {
            None => "",
            Some(method) => method.name.text.text(),
        },
    }
}

/// Adds the sequents of a method to a report, with their answers.
fn add_judged(
    table: &Table,
    program: &Program,
    sequents: &Sequents,
    answers: &[Answer],
    report: &mut Report,
) -> Result<(), NoMemory>
    requires stands { (d : Debt) × Stand table.now sequents.now d }
    requires each { length sequents.now.sequents.items ≡ length answers.now }
    ensures { OnOk result ((rs : List Reported) (d : Debt) → Stand table.now sequents.now d → Gathers report.old rs → Gathers report.new (rs ++ record { class = class_text (program_tree program.now) d.id.class; name = method_text (program_tree program.now) d.id; sequents = d.sequents; answers = answers.now } ∷ [])) }
{
    let class = class_text(program, sequents.method.class);
    let name = method_text(program, sequents.method);
    report.add_method(table, class, name, sequents, answers)
}

/// Answers the sequents of a method, and adds them to a report.
fn judge(
    alloc: Global,
    options: Options,
    table: &mut Table,
    program: &Program,
    sequents: &Sequents,
    report: &mut Report,
) -> Result<(), NoMemory>
    requires leaves { 0 < options.leaves }
    requires stands { (d : Debt) × Stand table.old sequents.now d }
    ensures judged { OnOk result ((rs : List Reported) (d : Debt) → Stand table.old sequents.now d → Gathers report.old rs → (r : Reported) × IsJudged options (program_tree program.now) d r × Gathers report.new (rs ++ r ∷ [])) }
    ensures grows { Extends table.old table.new }
{
    let answers = answers(alloc, table, options, sequents)?;
    add_judged(table, program, sequents, answers.as_slice(), report)
}

/// The report on the methods of a program, but for its last line.
fn judged(
    alloc: Global,
    options: Options,
    table: &mut Table,
    program: &Program,
    sequents: &[Sequents],
) -> Result<Report, NoMemory>
    requires leaves { 0 < options.leaves }
    requires stand { (ds : List Debt) × AllStand table.old sequents.now ds }
    ensures { IfOk result (λ made. (ds : List Debt) → AllStand table.old sequents.now ds → (rs : List Reported) × ArePaired (IsJudged options (program_tree program.now)) ds rs × Gathers made rs) }
{
    let mut report = Report::new(alloc);
    for place in 0..sequents.len() {
        judge(
            alloc,
            options,
            table,
            program,
            &sequents[place],
            &mut report,
        )?;
    }
    Ok(report)
}

/// The report on a program whose methods owe some sequents.
fn reported(
    alloc: Global,
    options: Options,
    table: &mut Table,
    program: &Program,
    sequents: &[Sequents],
) -> Result<Verified, NoMemory>
    requires leaves { 0 < options.leaves }
    requires owes { (ds : List Debt) × Owes (program_tree program.now) ds × AllStand table.old sequents.now ds }
    ensures { IfOk result (λ verified. IsReport options (program_tree program.now) (string_bytes verified.text) verified.accepted) }
{
    let report = judged(alloc, options, table, program, sequents)?;
    let accepted = report.accepted();
    let text = report.finish()?;
    Ok(Verified { text, accepted })
}

/// The line for a method with too many sequents.
fn crowded_line(alloc: Global, class: &str, name: &str, n: u128) -> Result<String, NoMemory>
    ensures { IfOk result (λ text. string_bytes text ≡ crowded_text class.now name.now n) }
{
    let mut text = String::new(alloc);
    writeln!(text, "refused 12 {class}.{name} {n}")?;
    Ok(text)
}

/// Why there is no report on a program.
pub(crate) fn why_unreported(alloc: Global, program: &Program, fault: LogicError) -> Unreported
    requires { IsLogicFault (program_tree program.now) fault }
    ensures { IsUnreported (program_tree program.now) result }
{
    match fault {
        LogicError::TooManySequents { method, n } => {
            let class = class_text(program, method.class);
            let name = method_text(program, method);
            match crowded_line(alloc, class, name, n) {
                Ok(text) => Unreported::Crowded(text),
                Err(NoMemory) => Unreported::Memory,
            }
        }
        LogicError::Memory => Unreported::Memory,
    }
}

/// The report on a program.
fn report_on(alloc: Global, options: Options, parts: &mut Parts) -> Result<Verified, Unreported>
    requires leaves { 0 < options.leaves }
    requires accepted { IsAccepted (program_tree parts.old.typed) }
    requires acyclic { IsAcyclic (program_tree parts.old.typed) }
    requires formulas { AreFormulas (program_tree parts.old.typed) parts.old.table parts.old.formulas.items }
    ensures report { IfOk result (λ verified. IsReport options (program_tree parts.old.typed) (string_bytes verified.text) verified.accepted) }
    ensures why { IfErr result (IsUnreported (program_tree parts.old.typed)) }
{
    let formulas = parts.formulas.as_slice();
    match obligations(alloc, &parts.typed, &mut parts.table, formulas) {
        Err(fault) => Err(why_unreported(alloc, parts.typed.program(), fault)),
        Ok(sequents) => {
            let verified = reported(
                alloc,
                options,
                &mut parts.table,
                parts.typed.program(),
                sequents.as_slice(),
            )?;
            Ok(verified)
        }
    }
}

/// The report on a program, and whether every sequent is proved.
pub fn verify(alloc: Global, options: Options, source: Unfolded) -> Result<Verified, Unreported>
    requires leaves { 0 < options.leaves }
    requires accepted { IsAccepted (program_tree source.program) }
    requires acyclic { IsAcyclic (program_tree source.program) }
    ensures report { IfOk result (λ verified. IsReport options (program_tree source.program) (string_bytes verified.text) verified.accepted) }
    ensures why { IfErr result (IsUnreported (program_tree source.program)) }
{
    let mut parts = source.into_parts(alloc)?;
    report_on(alloc, options, &mut parts)
}
