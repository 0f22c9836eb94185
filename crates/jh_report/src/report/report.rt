ghost use Rattle.std.specs.Prelude.{◌≡◌, ◌+◌, ◌++◌, ◌∷◌, [], List, string_bytes, length, count_by, IfOk, OnOk};
ghost use Rattle.jh_seq.specs.sequent.Sequents.{SequentTree};
ghost use Rattle.jh_splitting.specs.Standing.{AreSequents};
ghost use Rattle.jh_prove.specs.prover.Answers.{is_unproved};
ghost use Rattle.jh_report.specs.report.Gathered.{Gathers};
ghost use Rattle.jh_report.specs.report.Report as spec;
ghost use Rattle.jh_report.specs.report.Report.{Reported};

use crate::report::line::add_lines;
use jh_arena::table::Table;
use jh_name::NoMemory;
use jh_prove::prover::{Answer, is_unproved};
use jh_splitting::Sequents;
use std::alloc::Global;

/// A report that methods are still added to: the lines so far, how many methods and sequents they are of, and how many
/// of these sequents are unproved.
#[derive(Drop)]
pub struct Report {
    text: String,
    methods: usize,
    sequents: usize,
    unproved: usize,
}

/// A sum; want of memory where it leaves `usize`.
fn sum(left: usize, right: usize) -> Result<usize, NoMemory>
    ensures { IfOk result (λ made. made ≡ left + right) }
{
    match left.checked_add(right) {
        Some(made) => Ok(made),
        None => Err(NoMemory),
    }
}

fn count_unproved(answers: &[Answer]) -> usize
    ensures { result ≡ count_by is_unproved answers.now }
{
    answers.iter().filter(|answer| is_unproved(answer)).count()
}

fn add_accepted(text: &mut String, methods: usize, sequents: usize) -> Result<(), NoMemory>
    ensures { OnOk result (string_bytes text.new ≡ string_bytes text.old ++ spec.accepted_line methods sequents) }
{
    writeln!(text, "accepted: methods {methods}, sequents {sequents}")?;
    Ok(())
}

fn add_rejected(
    text: &mut String,
    methods: usize,
    sequents: usize,
    unproved: usize,
) -> Result<(), NoMemory>
    ensures { OnOk result (string_bytes text.new ≡ string_bytes text.old ++ spec.rejected_line methods sequents unproved) }
{
    writeln!(
        text,
        "rejected: methods {methods}, sequents {sequents}, unproved {unproved}"
    )?;
    Ok(())
}

/// Adds the last line.
fn add_summary(
    text: &mut String,
    methods: usize,
    sequents: usize,
    unproved: usize,
) -> Result<(), NoMemory>
    ensures { OnOk result (string_bytes text.new ≡ string_bytes text.old ++ spec.summary methods sequents unproved) }
{
    if unproved == 0 {
        add_accepted(text, methods, sequents)
    } else {
        add_rejected(text, methods, sequents, unproved)
    }
}

impl Report {
    /// A report on no methods yet.
    pub fn new(alloc: Global) -> Report
        ensures { Gathers result [] }
    {
        Report {
            text: String::new(alloc),
            methods: 0,
            sequents: 0,
            unproved: 0,
        }
    }

    /// Adds a method, by its class and its own name: a line for each of its sequents, with the answer on it. It is want
    /// of memory too where a count leaves `usize`. After an error the report is of no use.
    pub fn add_method(
        &mut self,
        table: &Table,
        class: &str,
        name: &str,
        sequents: &Sequents,
        answers: &[Answer],
    ) -> Result<(), NoMemory>
        requires there { (ss : List SequentTree) × AreSequents table.now sequents.now.hyps sequents.now.method sequents.now.sequents.items ss }
        requires each { length sequents.now.sequents.items ≡ length answers.now }
        ensures { OnOk result ((rs : List Reported) (ss : List SequentTree) → AreSequents table.now sequents.now.hyps sequents.now.method sequents.now.sequents.items ss → Gathers self.old rs → Gathers self.new (rs ++ record { class = class.now; name = name.now; sequents = ss; answers = answers.now } ∷ [])) }
    {
        self.methods = sum(self.methods, 1)?;
        self.sequents = sum(self.sequents, answers.len())?;
        self.unproved = sum(self.unproved, count_unproved(answers))?;
        add_lines(&mut self.text, table, class, name, sequents, answers)
    }

    /// Whether no sequent so far is unproved.
    pub fn accepted(&self) -> bool
        ensures { (rs : List Reported) → Gathers self.now rs → result ≡ spec.is_accepted rs }
    {
        self.unproved == 0
    }

    /// The report on the methods that were added: their lines, and a line that sums them up.
    pub fn finish(self) -> Result<String, NoMemory>
        ensures { IfOk result (λ text. (rs : List Reported) → Gathers self rs → string_bytes text ≡ spec.report_of rs) }
    {
        let Report {
            mut text,
            methods,
            sequents,
            unproved,
        } = self;
        add_summary(&mut text, methods, sequents, unproved)?;
        Ok(text)
    }
}
