ghost use Rattle.std.specs.Prelude.{◌≡◌, ◌<◌, ◌≤◌, ℕ, Some, length, slice_get, IfOk, OnOk};
ghost use Rattle.jh_containers.specs.transitive_closure.Spreads.{IsIn};
ghost use Rattle.jh_containers.specs.topological_order.Orders.{reads_of, IsOrdered, AreThings, AreDistinct, IsTried, IsAll, IsReversed, Reaches, AreThingsRead};

use crate::topological_order::done::Done;
use jh_name::{NoMemory, Row};
use std::alloc::Global;

/// What a thing reads.
pub(crate) fn reads_of(reads: &[Row<usize>], of: usize) -> &[usize]
    ensures { result.now ≡ reads_of reads.now of }
{
    match reads.get(of) {
        None => &[],
        Some(row) => row.items(),
    }
}

/// The place of the first thing of a row that isn't done, or the length of the row.
fn first_undone(done: &Done, row: &[usize]) -> usize
    ensures before { (j d : ℕ) → j < result → slice_get row.now j ≡ Some d → IsIn done.now d }
    ensures undone { (d : ℕ) → slice_get row.now result ≡ Some d → IsIn done.now d → ⊥ }
    ensures inside { result ≤ length row.now }
{
    for at in 0..row.len() {
        if !done.has(row[at]) {
            return at;
        }
    }
    row.len()
}

/// Puts a thing at the end of what is done, where all that it reads is done.
fn attempt(done: &mut Done, reads: &[Row<usize>], of: usize) -> Result<(), NoMemory>
    requires ordered { IsOrdered reads.now done.old }
    requires things { AreThings reads.now done.old }
    requires distinct { AreDistinct done.old }
    ensures ordered { OnOk result (IsOrdered reads.now done.new) }
    ensures things { OnOk result (AreThings reads.now done.new) }
    ensures distinct { OnOk result (AreDistinct done.new) }
    ensures keeps { OnOk result ((i r : ℕ) → slice_get done.old i ≡ Some r → slice_get done.new i ≡ Some r) }
    ensures tried { OnOk result (of < length reads.now → IsTried reads.now done.new done.old of) }
{
    if of >= reads.len() {
        return Ok(());
    }
    if done.has(of) {
        return Ok(());
    }
    let row = reads_of(reads, of);
    if first_undone(done, row) < row.len() {
        return Ok(());
    }
    done.add(of)
}

/// Puts each of some things at the end of what is done, where all that it reads is done.
fn attempt_all(done: &mut Done, reads: &[Row<usize>], things: &[usize]) -> Result<(), NoMemory>
    requires ordered { IsOrdered reads.now done.old }
    requires things { AreThings reads.now done.old }
    requires distinct { AreDistinct done.old }
    ensures ordered { OnOk result (IsOrdered reads.now done.new) }
    ensures things { OnOk result (AreThings reads.now done.new) }
    ensures distinct { OnOk result (AreDistinct done.new) }
    ensures keeps { OnOk result ((i r : ℕ) → slice_get done.old i ≡ Some r → slice_get done.new i ≡ Some r) }
    ensures tried { OnOk result ((r : ℕ) → IsIn things.now r → r < length reads.now → IsTried reads.now done.new done.old r) }
{
    for thing in things {
        attempt(done, reads, *thing)?;
    }
    Ok(())
}

/// Puts each thing that reads nothing at the end of what is done, and others as all that they read is done.
fn attempt_first(done: &mut Done, reads: &[Row<usize>]) -> Result<(), NoMemory>
    requires ordered { IsOrdered reads.now done.old }
    requires things { AreThings reads.now done.old }
    requires distinct { AreDistinct done.old }
    ensures ordered { OnOk result (IsOrdered reads.now done.new) }
    ensures things { OnOk result (AreThings reads.now done.new) }
    ensures distinct { OnOk result (AreDistinct done.new) }
    ensures tried { OnOk result ((r : ℕ) → r < length reads.now → IsTried reads.now done.new done.old r) }
{
    for thing in 0..reads.len() {
        attempt(done, reads, thing)?;
    }
    Ok(())
}

/// Things in an order in which each stands behind all that it reads. `reads` has a row for each thing, and
/// `readers` one of those that read it. No thing stands in it twice. What is left out reads something that is left
/// out; what is in the order reads itself neither directly nor through others. Where something is left out,
/// something does.
pub fn order(alloc: Global, reads: &[Row<usize>], readers: &[Row<usize>]) -> Result<Done, NoMemory>
    requires reversed { IsReversed reads.now readers.now }
    ensures ordered { IfOk result (λ made. IsOrdered reads.now made) }
    ensures things { IfOk result (λ made. AreThings reads.now made) }
    ensures few { IfOk result (λ made. length made ≤ length reads.now) }
    ensures all { IfOk result (λ made. IsAll reads.now made) }
    ensures sound { IfOk result (λ made. (x : ℕ) → IsIn made x → Reaches reads.now x x → ⊥) }
    ensures cycle { IfOk result (λ made. AreThingsRead reads.now → (r : ℕ) → r < length reads.now → (IsIn made r → ⊥) → (x : ℕ) × Reaches reads.now x x) }
{
    let mut done = Done::new(alloc);
    attempt_first(&mut done, reads)?;
    let mut at = 0;
    for _turn in 0..u64::MAX {
        if at >= done.len() {
            return Ok(done);
        }
        let thing = done.at(at);
        attempt_all(&mut done, reads, reads_of(readers, thing))?;
        at += 1;
    }
    Err(NoMemory)
}
