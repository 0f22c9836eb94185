ghost use Rattle.std.specs.Prelude.{◌≡◌, ◌+◌, ◌-◌, ◌^◌, ◌≤◌, ◌<◌, ℕ, List, [], length, take, IfOk, IfErr, IfSome, OnOk, OnErr, None, Some, is_err, if◌then◌else◌, ◌==◌, ◌||◌, vec_len, vec_capacity};
ghost use Rattle.std.specs.List.{list_any};
ghost use Rattle.std.specs.Option.{option_map};
ghost use Rattle.jh_files.specs.Held.{found};
ghost use Rattle.jh_files.specs.Counts.{Rose};
ghost use Rattle.jh_files.specs.Contents.{IsTooLong, Appends};

use crate::held::{copy_within, find, keep};
use crate::{FileFault, Files, Sink, SinkFailed};
use jh_name::NoMemory;
use std::alloc::Global;

/// The bytes under a name, unless the call with this number is to fail.
fn find_unless<'a>(
    failing: &[u64],
    call: u64,
    held: &'a [(String, Vec<u8>)],
    name: &str,
) -> Option<&'a [u8]>
    ensures { option_map (λ bytes. bytes.now) result ≡ (if list_any (λ n. n == call) failing.now then None else found held.now name.now) }
{
    if failing.contains(&call) {
        return None;
    }
    find(held, name)
}

/// Whether a put is to fail, by its number and by how much room is left.
fn is_due(failing: &[u64], call: u64, free: usize) -> bool
    ensures { result ≡ (list_any (λ n. n == call) failing.now || free == 0) }
{
    failing.contains(&call) || free == 0
}

/// Files in memory, of which the calls with given numbers fail, and each call for a name that they don't
/// hold.
#[derive(Drop)]
pub struct MemFiles {
    held: Vec<(String, Vec<u8>)>,
    failing: Vec<u64>,
    calls: u64,
    failed: u64,
}

impl MemFiles {
    ghost use Rattle.jh_files.specs.MemShown.{mem_holds, FilesStart};

    /// Files that hold these bytes under these names, and fail at the calls with these numbers, counted
    /// from 1. Of entries with one name the first counts.
    pub fn of(held: Vec<(String, Vec<u8>)>, failing: Vec<u64>) -> MemFiles
        ensures { FilesStart result held.items failing.items }
    {
        MemFiles {
            held,
            failing,
            calls: 0,
            failed: 0,
        }
    }
}

impl Files for MemFiles {
    ghost use Rattle.jh_files.specs.MemShown.{mem_holds, mem_faults, fails_get, is_failed, FilesAfter};

    ghost holds = { mem_holds };

    ghost faults = { λ files _. mem_faults files };

    fn get(&mut self, alloc: Global, name: &str, most: u64) -> Result<Vec<u8>, FileFault>
        requires { most < 2 ^ 64 - 1 }
        ensures ok { IfOk result (λ bytes. IfSome (mem_holds self.old name.now) (λ held. bytes.items ≡ held)) }
        ensures within { IfOk result (λ bytes. length bytes.items ≤ most) }
        ensures failed { result ≡ Err FileFault.Failed → Rose (mem_faults self.old) (mem_faults self.new) }
        ensures too_long { IfErr result (IsTooLong (mem_holds self.old name.now) most) }
        ensures held { (other : List ℕ) → mem_holds self.new other ≡ mem_holds self.old other }
        ensures counted { (other : List ℕ) → mem_faults self.old ≤ mem_faults self.new }

        // Just the calls that are to fail do.
        ensures exact { is_failed result ≡ fails_get self.old name.now }

        // What the call leaves.
        ensures after { FilesAfter self.old name.now self.new }
    {
        self.calls = self.calls.saturating_add(1);
        match find_unless(
            self.failing.as_slice(),
            self.calls,
            self.held.as_slice(),
            name,
        ) {
            Some(bytes) => copy_within(alloc, bytes, most),
            None => {
                self.failed = self.failed.saturating_add(1);
                Err(FileFault::Failed)
            }
        }
    }
}

/// A sink in memory, of which the puts with given numbers fail, and each put that finds the room full.
#[derive(Drop)]
pub struct MemSink {
    written: Vec<u8>,
    room: usize,
    each: usize,
    failing: Vec<u64>,
    calls: u64,
    failed: u64,
    ghost takes_some: { 0 < each },
    ghost within_room: { vec_len written ≤ room },
    ghost has_memory: { room ≤ vec_capacity written },
}

impl MemSink {
    ghost use Rattle.jh_files.specs.MemShown.{mem_written, SinkStarts};

    /// A sink that keeps at most `room` bytes, takes at most `each` bytes of a piece, and fails at the
    /// puts with these numbers, counted from 1.
    pub fn of(
        alloc: Global,
        room: usize,
        each: usize,
        failing: Vec<u64>,
    ) -> Result<MemSink, NoMemory>
        requires { 0 < each }
        ensures { IfOk result (SinkStarts room each failing.items) }
    {
        Ok(MemSink {
            written: Vec::with_capacity(alloc, room)?,
            room,
            each,
            failing,
            calls: 0,
            failed: 0,
        })
    }

    /// The bytes that were taken.
    pub fn written(&self) -> &[u8]
        ensures { mem_written self.now ≡ Some result.now }
    {
        self.written.as_slice()
    }
}

impl Sink for MemSink {
    ghost use Rattle.jh_files.specs.MemShown.{mem_written, sink_faults, fails_put, piece_len, SinkAfter};

    ghost written = { mem_written };

    ghost faults = { sink_faults };

    fn put(&mut self, bytes: &[u8]) -> Result<usize, SinkFailed>
        requires { 0 < length bytes.now }
        ensures some { IfOk result (λ taken. 0 < taken) }
        ensures within { IfOk result (λ taken. taken ≤ length bytes.now) }
        ensures appends { IfOk result (λ taken. Appends (mem_written self.old) (take taken bytes.now) (mem_written self.new)) }
        ensures failed { OnErr result (Rose (sink_faults self.old) (sink_faults self.new)) }
        ensures unchanged { OnErr result (mem_written self.new ≡ mem_written self.old) }
        ensures counted { sink_faults self.old ≤ sink_faults self.new }
        ensures no_fault { OnOk result (sink_faults self.new ≡ sink_faults self.old) }

        // Just the puts that are to fail do, and the others take as much as they may.
        ensures exact { is_err result ≡ fails_put self.old }
        ensures count { IfOk result (λ taken. taken ≡ piece_len self.old (length bytes.now)) }

        // What the put leaves.
        ensures after { SinkAfter self.old bytes.now self.new }
    {
        self.calls = self.calls.saturating_add(1);
        let free = self.room - self.written.len();
        if is_due(self.failing.as_slice(), self.calls, free) {
            self.failed = self.failed.saturating_add(1);
            return Err(SinkFailed);
        }
        let taken = bytes.len().min(self.each).min(free);
        keep(&mut self.written, &bytes[..taken]);
        Ok(taken)
    }
}
