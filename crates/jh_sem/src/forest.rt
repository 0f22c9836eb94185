ghost use Rattle.std.specs.Prelude.{◌≡◌, ◌<◌, suc, true, false, Some, length, slice_get, slice_set, IfOk};
ghost use Rattle.jh_form.specs.Meaning.{reaches, no_cycle, no_sharing, is_forest};
ghost use Rattle.jh_sem.specs.Graphs.{listed_fields, AreRows, is_free, IsNoted, IsShared};

use crate::graph::{is_marked, leads_to, target};
use jh_name::{NoMemory, Row};
use std::alloc::Global;

/// Whether no field leads from an object to one from which it is reached.
fn is_free(alloc: Global, fields: &[Row<u32>], last: u32, at: u32) -> Result<bool, NoMemory>
    requires rows { AreRows last fields.now }
    requires at { at < suc last }
    ensures { IfOk result (λ free. free ≡ is_free last (listed_fields fields.now) at) }
{
    for place in 0..fields.len() {
        let object = target(fields, last, place, at);
        if leads_to(alloc, fields, last, object, at)? {
            return Ok(false);
        }
    }
    Ok(true)
}

fn has_no_cycle(alloc: Global, fields: &[Row<u32>], last: u32) -> Result<bool, NoMemory>
    requires rows { AreRows last fields.now }
    ensures { IfOk result (λ none. none ≡ no_cycle last (listed_fields fields.now)) }
{
    for at in 0..=last {
        if at != 0 && !is_free(alloc, fields, last, at)? {
            return Ok(false);
        }
    }
    Ok(true)
}

/// Marks an object, null aside, unless it has a mark already.
fn note(seen: &mut Vec<bool>, object: u32) -> bool
    requires { object < length seen.old.items }
    ensures null { object ≡ 0 → (result ≡ true) × (seen.new.items ≡ seen.old.items) }
    ensures noted { result ≡ true → (object ≡ 0 → ⊥) → (slice_get seen.old.items object ≡ Some false) × (seen.new.items ≡ slice_set seen.old.items object true) }
    ensures shared { result ≡ false → (object ≡ 0 → ⊥) × (slice_get seen.old.items object ≡ Some true) }
    ensures sized { length seen.new.items ≡ length seen.old.items }
{
    if object == 0 {
        return true;
    }
    if is_marked(seen.as_slice(), object) {
        return false;
    }
    seen[object as usize] = true;
    true
}

/// Notes the objects to which an object leads: whether no two fields lead to one, null aside, of those noted so far.
fn note_targets(fields: &[Row<u32>], last: u32, at: u32, seen: &mut Vec<bool>) -> bool
    requires rows { AreRows last fields.now }
    requires at { at < suc last }
    requires sized { length seen.old.items ≡ suc last }
    requires noted { IsNoted (listed_fields fields.now) at 0 seen.old.items }
    ensures sized { length seen.new.items ≡ suc last }
    ensures noted { result ≡ true → IsNoted (listed_fields fields.now) (suc at) 0 seen.new.items }
    ensures shared { result ≡ false → IsShared last (listed_fields fields.now) }
{
    for place in 0..fields.len() {
        let object = target(fields, last, place, at);
        if !note(seen, object) {
            return false;
        }
    }
    true
}

fn has_no_sharing(alloc: Global, fields: &[Row<u32>], last: u32) -> Result<bool, NoMemory>
    requires rows { AreRows last fields.now }
    ensures { IfOk result (λ none. none ≡ no_sharing last (listed_fields fields.now)) }
{
    let mut seen = vec![in alloc; false; last as usize + 1]?;
    for at in 0..last {
        if !note_targets(fields, last, at, &mut seen) {
            return Ok(false);
        }
    }
    Ok(note_targets(fields, last, last, &mut seen))
}

/// Whether the fields are the edges of a forest. Where some object has two, each object is looked at once.
pub(crate) fn is_forest(alloc: Global, fields: &[Row<u32>], last: u32) -> Result<bool, NoMemory>
    requires rows { AreRows last fields.now }
    ensures { IfOk result (λ forest. forest ≡ is_forest last (listed_fields fields.now)) }
{
    if !has_no_sharing(alloc, fields, last)? {
        return Ok(false);
    }
    has_no_cycle(alloc, fields, last)
}
