ghost use Rattle.std.specs.Prelude.{◌≡◌, ◌+◌, ◌<◌, ◌≤◌, ℕ, suc, true, false, Some, List, length, slice_get, IfOk, OnOk};
ghost use Rattle.jh_form.specs.Meaning.{Fields, edge, reaches};
ghost use Rattle.jh_sem.specs.Graphs.{listed_fields, AreRows, unmarked, IsWalk};

use jh_name::{NoMemory, Row};
use std::alloc::Global;

/// The objects of a field, given by its place.
fn row_at(fields: &[Row<u32>], place: usize) -> &[u32]
    requires { place < length fields.now }
    ensures { slice_get fields.now place ≡ Some result.now }
{
    fields[place].items()
}

/// The object of a field, given by its place, at an object.
pub(crate) fn target(fields: &[Row<u32>], last: u32, place: usize, at: u32) -> u32
    requires rows { AreRows last fields.now }
    requires place { place < length fields.now }
    requires at { at < suc last }
    ensures edge { result ≡ edge (listed_fields fields.now) place at }
    ensures inside { result < suc last }
{
    row_at(fields, place)[at as usize]
}

/// Whether an object has a mark.
pub(crate) fn is_marked(marks: &[bool], object: u32) -> bool
    requires { object < length marks.now }
    ensures { slice_get marks.now object ≡ Some result }
{
    marks[object as usize]
}

/// The object that was found as number `at`.
fn object_at(found: &[u32], at: usize) -> u32
    requires { at < length found.now }
    ensures { slice_get found.now at ≡ Some result }
{
    found[at]
}

/// Marks an object and puts it at the end of those that were found, unless it has a mark.
fn visit(marks: &mut Vec<bool>, found: &mut Vec<u32>, object: u32) -> Result<(), NoMemory>
    requires { object < length marks.old.items }
    ensures sized { length marks.new.items ≡ length marks.old.items }
    ensures marked { OnOk result (slice_get marks.new.items object ≡ Some true) }
    ensures kept { OnOk result ((x : ℕ) → slice_get marks.old.items x ≡ Some true → slice_get marks.new.items x ≡ Some true) }
    ensures found { OnOk result ((j x : ℕ) → slice_get found.old.items j ≡ Some x → slice_get found.new.items j ≡ Some x) }
    ensures walk { OnOk result ((last : ℕ) (fs : List Fields) (start : ℕ) → IsWalk last fs start marks.old.items found.old.items → reaches (length found.old.items) fs start object ≡ true → IsWalk last fs start marks.new.items found.new.items) }
{
    if is_marked(marks.as_slice(), object) {
        return Ok(());
    }
    found.push(object)?;
    marks[object as usize] = true;
    Ok(())
}

/// Marks the objects to which an object leads, and puts those that are new at the end of those that were found.
fn visit_targets(
    fields: &[Row<u32>],
    last: u32,
    at: u32,
    marks: &mut Vec<bool>,
    found: &mut Vec<u32>,
) -> Result<(), NoMemory>
    requires rows { AreRows last fields.now }
    requires at { at < suc last }
    requires sized { length marks.old.items ≡ suc last }
    ensures sized { length marks.new.items ≡ suc last }
    ensures marked { OnOk result ((i : ℕ) → i < length (listed_fields fields.now) → slice_get marks.new.items (edge (listed_fields fields.now) i at) ≡ Some true) }
    ensures kept { OnOk result ((x : ℕ) → slice_get marks.old.items x ≡ Some true → slice_get marks.new.items x ≡ Some true) }
    ensures found { OnOk result ((j x : ℕ) → slice_get found.old.items j ≡ Some x → slice_get found.new.items j ≡ Some x) }
    ensures walk { OnOk result ((start j : ℕ) → slice_get found.old.items j ≡ Some at → IsWalk last (listed_fields fields.now) start marks.old.items found.old.items → IsWalk last (listed_fields fields.now) start marks.new.items found.new.items) }
{
    for place in 0..fields.len() {
        let object = target(fields, last, place, at);
        visit(marks, found, object)?;
    }
    Ok(())
}

/// Whether steps along the fields lead from an object to another. Each object is looked at once.
pub(crate) fn leads_to(
    alloc: Global,
    fields: &[Row<u32>],
    last: u32,
    start: u32,
    end: u32,
) -> Result<bool, NoMemory>
    requires rows { AreRows last fields.now }
    requires start { start < suc last }
    requires end { end < suc last }
    ensures { IfOk result (λ leads. leads ≡ reaches last (listed_fields fields.now) start end) }
{
    let mut marks = vec![in alloc; false; last as usize + 1]?;
    let mut found = Vec::new(alloc);
    visit(&mut marks, &mut found, start)?;
    let mut at = 0;
    for _turn in 0..u64::MAX {
        if is_marked(marks.as_slice(), end) {
            return Ok(true);
        }
        if at >= found.len() {
            return Ok(false);
        }
        let object = object_at(found.as_slice(), at);
        visit_targets(fields, last, object, &mut marks, &mut found)?;
        at += 1;
    }
    Err(NoMemory)
}
