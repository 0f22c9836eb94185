//! What a call comes to, before anything is written, and the lines that say why.
#![tactic(auto)]

ghost use Rattle.std.specs.Prelude.{◌≡◌, ℕ, List, codes, string_bytes, IfOk};
ghost use Rattle.jh_reply.specs.Causes.{FitsRefusal, IsFaultReply, Says, circular_text, fault_text, mistyped_text, number_of, refused_text, reply_due};
ghost use Rattle.jh_reply.specs.Refusals.{IsWhy};

use crate::error::Refusal;
use crate::status::{Status, of_report};
use jh_files::FileFault;
use jh_name::{Name, NoMemory, Place, Text};
use std::alloc::Global;

/// What a call comes to, before anything is written.
#[derive(Drop)]
pub enum Reply {
    /// The report, and whether every sequent is proved.
    Report(String, bool),
    /// The summary of a source that was made, and whether every sequent is proved.
    Summed(Vec<u8>, bool),
    /// What is printed of a run that returns.
    Ran(String),
    /// A line on the second sink, and the status that goes with it.
    Line(String, Status),
    /// What is said where nothing is asked for, or the method isn't there.
    Usage(Text),
    NoMemory,
}

impl Reply {
    /// The exit status that is due.
    pub fn status(&self) -> Status
        ensures { number_of result ≡ (reply_due self.now).status }
    {
        match self {
            Reply::Report(_, accepted) => of_report(*accepted),
            Reply::Summed(_, accepted) => of_report(*accepted),
            Reply::Ran(_) => Status::Accepted,
            Reply::Line(_, status) => *status,
            Reply::Usage(_) => Status::Usage,
            Reply::NoMemory => Status::Memory,
        }
    }

    /// The text that is due.
    pub fn text(&self) -> &[u8]
        ensures { result.now ≡ (reply_due self.now).text }
    {
        match self {
            Reply::Report(text, _) => text.as_bytes(),
            Reply::Summed(text, _) => text.as_slice(),
            Reply::Ran(text) => text.as_bytes(),
            Reply::Line(text, _) => text.as_bytes(),
            Reply::Usage(text) => text.text().as_bytes(),
            Reply::NoMemory => "no memory\n".as_bytes(),
        }
    }

    /// Whether the text is due on the first sink.
    pub fn is_on_out(&self) -> bool
        ensures { result ≡ (reply_due self.now).on_out }
    {
        match self {
            Reply::Report(_, _) => true,
            Reply::Summed(_, _) => true,
            Reply::Ran(_) => true,
            Reply::Line(_, _) => false,
            Reply::Usage(_) => false,
            Reply::NoMemory => false,
        }
    }
}

/// A line with its status, or want of memory.
pub fn said(line: Result<String, NoMemory>, status: Status) -> Reply
    ensures { (text : List ℕ) → IfOk line (λ made. string_bytes made ≡ text) → Says (number_of status) text result }
{
    match line {
        Ok(text) => Reply::Line(text, status),
        Err(NoMemory) => Reply::NoMemory,
    }
}

/// The line for a source that is refused with a number, at a place.
fn refused_line(alloc: Global, number: u8, place: Place) -> Result<String, NoMemory>
    ensures { IfOk result (λ text. string_bytes text ≡ refused_text number place) }
{
    let mut text = String::new(alloc);
    let line = place.line;
    let column = place.column;
    writeln!(text, "refused {number} at {line}:{column}")?;
    Ok(text)
}

/// The line for a source that breaks a type rule, at a place.
fn mistyped_line(alloc: Global, rule: u8, place: Place) -> Result<String, NoMemory>
    ensures { IfOk result (λ text. string_bytes text ≡ mistyped_text rule place) }
{
    let mut text = String::new(alloc);
    let line = place.line;
    let column = place.column;
    writeln!(text, "refused 11 rule {rule} at {line}:{column}")?;
    Ok(text)
}

/// The line for a source with a cyclic variable.
fn circular_line(alloc: Global, name: &Name) -> Result<String, NoMemory>
    ensures { IfOk result (λ text. string_bytes text ≡ circular_text name.now.text) }
{
    let mut text = String::new(alloc);
    let name = name.text();
    writeln!(text, "refused 8 {name}")?;
    Ok(text)
}

/// Says why a source is refused.
pub fn reply_to_refusal(alloc: Global, refusal: Refusal) -> Reply
    ensures { (bytes : List ℕ) → IsWhy bytes refusal → FitsRefusal bytes result }
{
    match refusal {
        Refusal::At(number, place) => said(refused_line(alloc, number, place), Status::Refused),
        Refusal::Mistyped(rule, place) => said(mistyped_line(alloc, rule, place), Status::Refused),
        Refusal::Cyclic(name) => said(circular_line(alloc, &name), Status::Refused),
        Refusal::Memory => Reply::NoMemory,
    }
}

/// The line that says that a file fails in some way.
fn fault_line(alloc: Global, kind: &str, file: &str) -> Result<String, NoMemory>
    ensures { IfOk result (λ text. string_bytes text ≡ fault_text kind.now file.now) }
{
    let mut text = String::new(alloc);
    writeln!(text, "file {kind} {file}")?;
    Ok(text)
}

/// Says how a file fails.
pub fn reply_to_fault(alloc: Global, file: &str, fault: FileFault) -> Reply
    ensures { IsFaultReply file.now fault result }
{
    match fault {
        FileFault::Failed => said(fault_line(alloc, "failed", file), Status::File),
        FileFault::TooLong { .. } => said(fault_line(alloc, "too long", file), Status::File),
        FileFault::Memory => Reply::NoMemory,
    }
}
