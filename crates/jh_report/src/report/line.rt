ghost use Rattle.std.specs.Prelude.{◌≡◌, ◌<◌, ◌++◌, List, Option, Some, string_bytes, length, slice_get, OnOk};
ghost use Rattle.jh_form.specs.declared.mark.Mark.{Mark as Label};
ghost use Rattle.jh_seq.specs.sequent.Sequents.{SequentTree};
ghost use Rattle.jh_seq.specs.splitting.Split.{mark_of};
ghost use Rattle.jh_splitting.specs.Standing.{AreSequents, IsLabel};
ghost use Rattle.jh_report.specs.report.Report as spec;

use crate::causes::{add_budget, add_open, add_refuted, add_too_large, add_too_many};
use jh_arena::table::Table;
use jh_form::MarkKind;
use jh_name::{NoMemory, Place};
use jh_prove::jh_local::LocalCause;
use jh_prove::prover::{Answer, BapaCause, Verdict, verdict_of};
use jh_splitting::Sequents;
use std::alloc::Global;

/// The word for the kind of a goal.
fn kind_word(kind: MarkKind) -> &'static str
    ensures { result.now ≡ spec.kind_word kind }
{
    match kind {
        MarkKind::Null => "null",
        MarkKind::Pre => "pre",
        MarkKind::Post => "post",
        MarkKind::Inv => "inv",
        MarkKind::LoopEntry => "loop",
        MarkKind::LoopKept => "kept",
        MarkKind::Frame => "frame",
        MarkKind::Assert => "assert",
        MarkKind::Note => "note",
        MarkKind::Fact => "note",
    }
}

fn verdict_word(verdict: Verdict) -> &'static str
    ensures { result.now ≡ spec.verdict_word verdict }
{
    match verdict {
        Verdict::Trivial => "trivial",
        Verdict::Bapa => "bapa",
        Verdict::Local => "local",
        Verdict::Unproved => "unproved",
    }
}

/// What a line shows of a label.
#[derive(Clone, Copy)]
struct Shown {
    kind: MarkKind,
    place: Place,
}

/// The kind and the place of the label of this number; without one, those of what stands under no label.
fn shown_at(table: &Table, number: Option<usize>) -> Shown
    requires there { (mark : Option Label) × IsLabel table.now number mark }
    ensures kind { (mark : Option Label) → IsLabel table.now number mark → result.kind ≡ (mark_of mark).kind }
    ensures place { (mark : Option Label) → IsLabel table.now number mark → result.place ≡ (mark_of mark).place }
{
    match number {
        None => Shown {
            kind: MarkKind::Assert,
            place: Place { line: 0, column: 0 },
        },
        Some(number) => {
            let mark = table.mark_at(number);
            Shown {
                kind: mark.kind,
                place: mark.place,
            }
        }
    }
}

/// Adds the line of a sequent.
#[tactic(auto, unfolding(crate::specs::report::Report::line_of))]
fn add_line(
    text: &mut String,
    class: &str,
    name: &str,
    number: usize,
    shown: Shown,
    verdict: Verdict,
) -> Result<(), NoMemory>
    ensures { OnOk result ((mark : Label) → shown.kind ≡ mark.kind → shown.place ≡ mark.place → string_bytes text.new ≡ string_bytes text.old ++ spec.line_of class.now name.now number mark verdict) }
{
    let kind = kind_word(shown.kind);
    let line = shown.place.line;
    let column = shown.place.column;
    let verdict = verdict_word(verdict);
    writeln!(
        text,
        "{class}.{name} {number} {kind} {line}:{column} {verdict}"
    )?;
    Ok(())
}

/// Adds the line that says why regions don't prove a sequent.
fn add_cause_line(alloc: Global, text: &mut String, cause: &BapaCause) -> Result<(), NoMemory>
    ensures { OnOk result (string_bytes text.new ≡ string_bytes text.old ++ spec.cause_line cause.now) }
{
    match cause {
        BapaCause::Refuted(sizes) => add_refuted(alloc, text, sizes),
        BapaCause::TooLarge {
            sets,
            elements,
            size,
        } => add_too_large(text, *sets, *elements, *size),
    }
}

/// Adds the line that says why the search for a ground model doesn't prove a sequent.
fn add_local_line(alloc: Global, text: &mut String, cause: &LocalCause) -> Result<(), NoMemory>
    ensures { OnOk result (string_bytes text.new ≡ string_bytes text.old ++ spec.local_line cause.now) }
{
    match cause {
        LocalCause::Open(branch) => add_open(alloc, text, branch.literals.items()),
        LocalCause::TooMany(count) => add_too_many(text, *count),
        LocalCause::Budget(closed) => add_budget(text, closed.items().len()),
    }
}

/// Adds both lines.
fn add_cause_lines(
    alloc: Global,
    text: &mut String,
    bapa: &BapaCause,
    local: &LocalCause,
) -> Result<(), NoMemory>
    ensures { OnOk result (string_bytes text.new ≡ string_bytes text.old ++ spec.cause_lines bapa.now local.now) }
{
    add_cause_line(alloc, text, bapa)?;
    add_local_line(alloc, text, local)
}

/// Adds the lines below that of an unproved sequent.
fn add_cause(alloc: Global, text: &mut String, answer: &Answer) -> Result<(), NoMemory>
    ensures { OnOk result (string_bytes text.new ≡ string_bytes text.old ++ spec.cause_of answer.now) }
{
    match answer {
        Answer::Unproved { bapa, local } => add_cause_lines(alloc, text, bapa, local),
        _ => Ok(()),
    }
}

/// Adds what is said of a sequent.
#[tactic(auto, unfolding(crate::specs::report::Report::lines_for))]
fn add_answer(
    alloc: Global,
    text: &mut String,
    class: &str,
    name: &str,
    number: usize,
    shown: Shown,
    answer: &Answer,
) -> Result<(), NoMemory>
    ensures { OnOk result ((mark : Label) → shown.kind ≡ mark.kind → shown.place ≡ mark.place → string_bytes text.new ≡ string_bytes text.old ++ spec.lines_for class.now name.now number mark answer.now) }
{
    add_line(text, class, name, number, shown, verdict_of(answer))?;
    add_cause(alloc, text, answer)
}

/// The answer at a place.
fn answer_at(answers: &[Answer], place: usize) -> &Answer
    requires { place < length answers.now }
    ensures { slice_get answers.now place ≡ Some result.now }
{
    &answers[place]
}

/// Adds the lines of the sequents of a method, with their numbers from 1.
pub(crate) fn add_lines(
    text: &mut String,
    table: &Table,
    class: &str,
    name: &str,
    sequents: &Sequents,
    answers: &[Answer],
) -> Result<(), NoMemory>
    requires there { (ss : List SequentTree) × AreSequents table.now sequents.now.hyps sequents.now.method sequents.now.sequents.items ss }
    requires each { length sequents.now.sequents.items ≡ length answers.now }
    ensures { OnOk result ((ss : List SequentTree) → AreSequents table.now sequents.now.hyps sequents.now.method sequents.now.sequents.items ss → string_bytes text.new ≡ string_bytes text.old ++ spec.lines_from class.now name.now 1 ss answers.now) }
{
    let items = sequents.sequents.as_slice();
    let alloc = table.alloc();
    let mut at = 0;
    'lines: while at < items.len() {
        let label = shown_at(table, items[at].mark);
        let answer = answer_at(answers, at);
        add_answer(alloc, text, class, name, at + 1, label, answer)?;
        at += 1;
    }
    Ok(())
}
