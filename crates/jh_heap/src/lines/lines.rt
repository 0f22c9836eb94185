#![tactic(auto, unfolding(crate::specs::lines::Lines::is_dotted, crate::specs::lines::Lines::set_of, crate::specs::lines::Lines::scalar_of, crate::specs::lines::Lines::value_of, crate::specs::lines::Lines::universe_of, crate::specs::lines::Lines::class_from, crate::specs::lines::Lines::static_from, crate::specs::lines::Lines::value_at, crate::specs::lines::Lines::field_from, crate::specs::lines::Lines::argument_from, crate::specs::lines::Lines::line_from, crate::specs::lines::Lines::line_of))]

ghost use Rattle.std.specs.Prelude.{◌≡◌, ◌==◌, option_map, IfOk, Some};
ghost use Rattle.std.specs.List.{list_any};
ghost use Rattle.std.specs.Str.{is_utf8};
ghost use Rattle.jh_heap.specs.lines.Bytes.{natural_of as natural_spec};
ghost use Rattle.jh_heap.specs.lines.Lines as spec;
ghost use Rattle.jh_heap.specs.lines.Held.{cut_in, line_in, value_in};

use crate::lines::bytes::{Cut, cut_at};
use crate::lines::numbers::{integer_of, natural_of, objects_of};
use jh_name::{NoMemory, Row};
use std::alloc::Global;
use std::str::from_utf8;

/// A value; whether a number is that of an object depends on what has it.
#[derive(Drop)]
pub enum Value {
    Number(i64),
    Truth(bool),
    Objects(Row<u64>),
}

/// A line: the greatest object; the objects of a class; the value of a static, of a field at an object, of `this`, and of a
/// parameter.
#[derive(Drop)]
pub enum Line<'a> {
    Universe(u8),
    Class(&'a [u8], Row<u64>),
    Static(&'a [u8], Value),
    Field(&'a [u8], u64, Value),
    This(u64),
    Argument(&'a [u8], Value),
}

/// Whether a name has a dot.
fn has_dot(name: &[u8]) -> bool
    ensures { result ≡ list_any (λ c. c == 46) name.now }
{
    name.iter().any(|byte| *byte == b'.')
}

/// Whether a name is one of a class or a parameter: it has no dot.
fn is_plain(name: &[u8]) -> bool
    ensures { result ≡ spec.is_plain name.now }
{
    !name.is_empty() && !has_dot(name)
}

/// Whether a name is one of a static or a field: it has one dot, and something on both sides of it.
fn is_dotted(name: &[u8]) -> bool
    ensures { result ≡ spec.is_dotted name.now }
{
    match cut_at(b'.', name) {
        None => false,
        Some(found) => !found.before.is_empty() && is_plain(found.behind),
    }
}

/// What stands before a closing brace at the end.
fn inside(bytes: &[u8]) -> Option<&[u8]>
    ensures { option_map (λ found. found.now) result ≡ spec.inside bytes.now }
{
    match bytes {
        [] => None,
        [front @ .., last] => { if *last == b'}' { Some(front) } else { None } }
    }
}

/// The set whose objects stand in braces, of which the first has gone.
fn set_of(alloc: Global, bytes: &[u8]) -> Result<Option<Value>, NoMemory>
    ensures { IfOk result (λ found. option_map value_in found ≡ spec.set_of (spec.inside bytes.now)) }
{
    match inside(bytes) {
        None => Ok(None),
        Some(objects) => {
            if objects.is_empty() {
                return Ok(Some(Value::Objects(Row::of(Vec::new(alloc)))));
            }
            match objects_of(alloc, objects)? {
                None => Ok(None),
                Some(objects) => Ok(Some(Value::Objects(objects))),
            }
        }
    }
}

/// The truth or the number that bytes spell.
fn scalar_of(bytes: &[u8]) -> Option<Value>
    ensures { option_map value_in result ≡ spec.scalar_of bytes.now }
{
    if bytes == b"true".as_slice() {
        return Some(Value::Truth(true));
    }
    if bytes == b"false".as_slice() {
        return Some(Value::Truth(false));
    }
    match integer_of(bytes) {
        None => None,
        Some(number) => Some(Value::Number(number)),
    }
}

/// The value that bytes spell.
fn value_of(alloc: Global, bytes: &[u8]) -> Result<Option<Value>, NoMemory>
    ensures { IfOk result (λ found. option_map value_in found ≡ spec.value_of bytes.now) }
{
    match bytes {
        [b'{', rest @ ..] => set_of(alloc, rest),
        _ => Ok(scalar_of(bytes)),
    }
}

/// The line that gives the greatest object.
fn universe_of<'a>(word: &[u8]) -> Option<Line<'a>>
    ensures { option_map line_in result ≡ spec.universe_of word.now }
{
    match natural_of(word) {
        None => None,
        Some(greatest) => {
            if greatest < 256 {
                Some(Line::Universe(greatest as u8))
            } else {
                None
            }
        }
    }
}

/// The line of a class.
fn class_from<'a>(alloc: Global, found: Option<Cut<'a>>) -> Result<Option<Line<'a>>, NoMemory>
    ensures { IfOk result (λ line. option_map line_in line ≡ spec.class_from (option_map cut_in found.entry)) }
{
    match found {
        None => Ok(None),
        Some(found) => {
            if !is_plain(found.before) {
                return Ok(None);
            }
            match objects_of(alloc, found.behind)? {
                None => Ok(None),
                Some(objects) => Ok(Some(Line::Class(found.before, objects))),
            }
        }
    }
}

/// The line of a static.
fn static_from<'a>(alloc: Global, found: Option<Cut<'a>>) -> Result<Option<Line<'a>>, NoMemory>
    ensures { IfOk result (λ line. option_map line_in line ≡ spec.static_from (option_map cut_in found.entry)) }
{
    match found {
        None => Ok(None),
        Some(found) => {
            if !is_dotted(found.before) {
                return Ok(None);
            }
            match value_of(alloc, found.behind)? {
                None => Ok(None),
                Some(value) => Ok(Some(Line::Static(found.before, value))),
            }
        }
    }
}

/// The line of a field at an object.
fn value_at<'a>(
    alloc: Global,
    field: &'a [u8],
    found: Option<Cut<'a>>,
) -> Result<Option<Line<'a>>, NoMemory>
    ensures { IfOk result (λ line. option_map line_in line ≡ spec.value_at field.now (option_map cut_in found.entry)) }
{
    match found {
        None => Ok(None),
        Some(found) => match natural_of(found.before) {
            None => Ok(None),
            Some(object) => match value_of(alloc, found.behind)? {
                None => Ok(None),
                Some(value) => Ok(Some(Line::Field(field, object, value))),
            },
        },
    }
}

/// The line of a field.
fn field_from<'a>(alloc: Global, found: Option<Cut<'a>>) -> Result<Option<Line<'a>>, NoMemory>
    ensures { IfOk result (λ line. option_map line_in line ≡ spec.field_from (option_map cut_in found.entry)) }
{
    match found {
        None => Ok(None),
        Some(found) => {
            if !is_dotted(found.before) {
                return Ok(None);
            }
            value_at(alloc, found.before, cut_at(b' ', found.behind))
        }
    }
}

/// The line of `this`.
fn this_from<'a>(word: &[u8]) -> Option<Line<'a>>
    ensures { option_map line_in result ≡ option_map spec.this (natural_spec word.now) }
{
    match natural_of(word) {
        None => None,
        Some(object) => Some(Line::This(object)),
    }
}

/// The line of a parameter.
fn argument_from<'a>(alloc: Global, found: Option<Cut<'a>>) -> Result<Option<Line<'a>>, NoMemory>
    ensures { IfOk result (λ line. option_map line_in line ≡ spec.argument_from (option_map cut_in found.entry)) }
{
    match found {
        None => Ok(None),
        Some(found) => {
            if !is_plain(found.before) {
                return Ok(None);
            }
            match value_of(alloc, found.behind)? {
                None => Ok(None),
                Some(value) => Ok(Some(Line::Argument(found.before, value))),
            }
        }
    }
}

/// The line whose first word has been cut off.
fn line_of_word<'a>(alloc: Global, found: Cut<'a>) -> Result<Option<Line<'a>>, NoMemory>
    ensures { IfOk result (λ line. option_map line_in line ≡ spec.line_from (Some (cut_in found.entry))) }
{
    let rest = found.behind;
    if found.before == b"universe".as_slice() {
        return Ok(universe_of(rest));
    }
    if found.before == b"class".as_slice() {
        return class_from(alloc, cut_at(b' ', rest));
    }
    if found.before == b"static".as_slice() {
        return static_from(alloc, cut_at(b' ', rest));
    }
    if found.before == b"field".as_slice() {
        return field_from(alloc, cut_at(b' ', rest));
    }
    if found.before == b"this".as_slice() {
        return Ok(this_from(rest));
    }
    if found.before == b"arg".as_slice() {
        return argument_from(alloc, cut_at(b' ', rest));
    }
    Ok(None)
}

/// Whether bytes are a text.
fn is_text(bytes: &[u8]) -> bool
    ensures { result ≡ is_utf8 bytes.now }
{
    match from_utf8(bytes) {
        Ok(_) => true,
        Err(_) => false,
    }
}

/// The line that bytes spell, where they do.
pub fn line_of(alloc: Global, bytes: &[u8]) -> Result<Option<Line<'_>>, NoMemory>
    ensures { IfOk result (λ line. option_map line_in line ≡ spec.line_of bytes.now) }
{
    if !is_text(bytes) {
        return Ok(None);
    }
    match cut_at(b' ', bytes) {
        None => Ok(None),
        Some(found) => line_of_word(alloc, found),
    }
}
