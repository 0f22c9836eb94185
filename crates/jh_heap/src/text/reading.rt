ghost use Rattle.std.specs.Prelude.{◌≡◌, ◌+◌, ◌-◌, ◌<◌, ◌^◌, ◌∷◌, [], length, map, drop, slice_get, Some, OnOk, IfOk, IfErr};
ghost use Rattle.jh_store.specs.heaps.Cells.{heap_in, args_in};
ghost use Rattle.jh_heap.specs.lines.Held.{line_in};
ghost use Rattle.jh_heap.specs.text.Drafts as drafts;
ghost use Rattle.jh_heap.specs.text.Rules as rules;
ghost use Rattle.jh_heap.specs.text.Reading as spec;
ghost use Rattle.jh_heap.specs.text.Errors.{IsError, IsEnd};
ghost use Rattle.jh_heap.specs.text.Held.{outline_in, draft_in};
ghost use Rattle.jh_heap.specs.declared.text.reading.HeapError.TheVariants.{Memory};

use crate::lines::{Line, line_of, split};
use crate::text::draft::{Draft, empty_draft};
use crate::text::finishing::{finished, is_lacking};
use crate::text::outline::Outline;
use crate::text::rules::rule_of;
use crate::text::taking::take;
use jh_name::NoMemory;
use jh_store::heaps::{Args, Heap};
use std::alloc::Global;

/// Why a text is no heap: the number of the first line that has no form or stands out of order; the number of the first line that
/// breaks a rule, with the least rule that it breaks; or want of memory.
#[derive(Clone, Copy, PartialEq, Eq)]
pub enum HeapError {
    BadLine(u32),
    NotWellFormed { line: u32, rule: u8 },
    Memory,
}

impl From<NoMemory> for HeapError {
    ghost from_gives = { λ _ e. e ≡ Memory };

    fn from(_error: NoMemory) -> HeapError {
        HeapError::Memory
    }
}

/// Where a line stands in the order of all lines.
fn rank(line: &Line<'_>) -> usize
    ensures { result ≡ spec.rank (line_in line.now) }
{
    match line {
        Line::Universe(_) => 0,
        Line::Class(_, _) => 1,
        Line::Static(_, _) => 2,
        Line::Field(_, _, _) => 3,
        Line::This(_) => 4,
        Line::Argument(_, _) => 5,
    }
}

/// Whether a line may come where the lines have come so far.
fn in_order(stage: usize, line: &Line<'_>) -> bool
    ensures { result ≡ spec.in_order stage (line_in line.now) }
{
    if stage == 0 {
        rank(line) == 0
    } else {
        stage <= rank(line)
    }
}

/// Takes a line that may come here, or says which rule it breaks.
fn take_line(
    alloc: Global,
    outline: &Outline<'_>,
    draft: &mut Draft,
    number: u32,
    line: &Line<'_>,
) -> Result<(), HeapError>
    ensures on { OnOk result (spec.ruled (outline_in outline.now) number (rules.rule_of (outline_in outline.now) (draft_in draft.old) (line_in line.now)) (line_in line.now) (draft_in draft.old) ≡ spec.goes_on (draft_in draft.new)) }
    ensures end { IfErr result (λ e. IsEnd e (spec.ruled (outline_in outline.now) number (rules.rule_of (outline_in outline.now) (draft_in draft.old) (line_in line.now)) (line_in line.now) (draft_in draft.old))) }
{
    let rule = rule_of(outline, draft, line);
    if rule != 0 {
        return Err(HeapError::NotWellFormed { line: number, rule });
    }
    take(alloc, outline, draft, line)?;
    Ok(())
}

/// Reads the line of a number.
fn read_line(
    alloc: Global,
    outline: &Outline<'_>,
    draft: &mut Draft,
    number: u32,
    bytes: &[u8],
) -> Result<(), HeapError>
    ensures on { OnOk result (spec.step (outline_in outline.now) number bytes.now (draft_in draft.old) ≡ spec.goes_on (draft_in draft.new)) }
    ensures end { IfErr result (λ e. IsEnd e (spec.step (outline_in outline.now) number bytes.now (draft_in draft.old))) }
{
    match line_of(alloc, bytes)? {
        None => Err(HeapError::BadLine(number)),
        Some(line) => {
            if !in_order(draft.stage, &line) {
                return Err(HeapError::BadLine(number));
            }
            take_line(alloc, outline, draft, number, &line)
        }
    }
}

/// The line at a place.
fn line_at<'a>(lines: &[&'a [u8]], place: usize) -> &'a [u8]
    requires { place < length lines.now }
    ensures { slice_get (map (λ line. line.now) lines.now) place ≡ Some result.now }
{
    lines[place]
}

/// Reads the lines of a text but for the last part, which is what stands behind the last line feed.
fn read_lines(
    alloc: Global,
    outline: &Outline<'_>,
    draft: &mut Draft,
    lines: &[&[u8]],
) -> Result<(), HeapError>
    requires some { 0 < length lines.now }
    requires few { length lines.now < 2 ^ 32 }
    ensures on { OnOk result (spec.lines_from (outline_in outline.now) 1 (map (λ line. line.now) lines.now) (draft_in draft.old) ≡ spec.lines_from (outline_in outline.now) (length lines.now) (drop (length lines.now - 1) (map (λ line. line.now) lines.now)) (draft_in draft.new)) }
    ensures end { IfErr result (λ e. IsError e (spec.lines_from (outline_in outline.now) 1 (map (λ line. line.now) lines.now) (draft_in draft.old))) }
{
    for place in 0..lines.len() - 1 {
        let line = line_at(lines, place);
        match read_line(alloc, outline, draft, place as u32 + 1, line) {
            Ok(()) => {}
            Err(error) => return Err(error),
        }
    }
    Ok(())
}

/// What comes of a text whose lines but the last part were read: nothing may stand there, and nothing may be missing.
fn finish(
    alloc: Global,
    outline: &Outline<'_>,
    draft: Draft,
    number: u32,
    last: &[u8],
) -> Result<(Heap, Args), HeapError>
    ensures read { IfOk result (λ made. spec.lines_from (outline_in outline.now) number (last.now ∷ []) (draft_in draft) ≡ spec.read (heap_in made.0) (args_in made.1)) }
    ensures error { IfErr result (λ e. IsError e (spec.lines_from (outline_in outline.now) number (last.now ∷ []) (draft_in draft))) }
{
    if !last.is_empty() || draft.stage == 0 {
        return Err(HeapError::BadLine(number));
    }
    if is_lacking(outline, &draft) {
        return Err(HeapError::NotWellFormed {
            line: number,
            rule: 8,
        });
    }
    let made = finished(alloc, outline, draft)?;
    Ok(made)
}

/// The heap and the arguments that the parts of a text between line feeds spell.
fn read_parts(
    alloc: Global,
    outline: &Outline<'_>,
    lines: &[&[u8]],
) -> Result<(Heap, Args), HeapError>
    requires some { 0 < length lines.now }
    requires few { length lines.now < 2 ^ 32 }
    ensures read { IfOk result (λ made. spec.lines_from (outline_in outline.now) 1 (map (λ line. line.now) lines.now) drafts.empty_draft ≡ spec.read (heap_in made.0) (args_in made.1)) }
    ensures error { IfErr result (λ e. IsError e (spec.lines_from (outline_in outline.now) 1 (map (λ line. line.now) lines.now) drafts.empty_draft)) }
{
    let mut draft = empty_draft(alloc);
    match read_lines(alloc, outline, &mut draft, lines) {
        Ok(()) => {
            let last = line_at(lines, lines.len() - 1);
            finish(alloc, outline, draft, lines.len() as u32, last)
        }
        Err(error) => Err(error),
    }
}

/// The heap and the arguments that a text spells, read by an outline of a program and a method.
///
/// A text is refused for its first bad line: as `BadLine` where the line has no form or stands out of order, and else as
/// `NotWellFormed` with the least rule that it breaks, which for what is missing is the line behind the last.
pub fn read_heap(
    alloc: Global,
    outline: &Outline<'_>,
    bytes: &[u8],
) -> Result<(Heap, Args), HeapError>
    requires few { length bytes.now + 1 < 2 ^ 32 }
    ensures read { IfOk result (λ made. spec.reading (outline_in outline.now) bytes.now ≡ spec.read (heap_in made.0) (args_in made.1)) }
    ensures error { IfErr result (λ e. IsError e (spec.reading (outline_in outline.now) bytes.now)) }
{
    let lines = split(alloc, b'\n', bytes)?;
    read_parts(alloc, outline, &lines)
}
