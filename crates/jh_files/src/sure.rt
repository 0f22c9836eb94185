ghost use Rattle.std.specs.Prelude.{◌≡◌, ◌+◌, ◌-◌, ◌≤◌, ◌<◌, ℕ, List, [], ◌++◌, length, take, Some, IsOk, OnOk, OnErr, IfOk, IfSome, vec_len, vec_capacity};
ghost use Rattle.jh_files.specs.Held.{bytes_of};
ghost use Rattle.jh_files.specs.Counts.{Rose};
ghost use Rattle.jh_files.specs.Contents.{Appends};

use crate::held::{copy_within, find, keep};
use crate::{FileFault, Files, Sink, SinkFailed};
use jh_name::NoMemory;
use std::alloc::Global;

/// Files in memory that never fail. A name that they don't hold has no bytes.
#[derive(Drop)]
pub struct SureFiles {
    held: Vec<(String, Vec<u8>)>,
}

impl SureFiles {
    ghost use Rattle.jh_files.specs.Shown.{sure_holds};

    /// Files that hold these bytes under these names. Of entries with one name the first counts.
    pub fn of(held: Vec<(String, Vec<u8>)>) -> SureFiles
        ensures { (name : List ℕ) → sure_holds result name ≡ Some (bytes_of held.items name) }
    {
        SureFiles { held }
    }
}

impl Files for SureFiles {
    ghost use Rattle.jh_files.specs.Shown.{sure_holds};

    ghost holds = { sure_holds };

    ghost faults = { λ _ _. 0 };

    fn get(&mut self, alloc: Global, name: &str, most: u64) -> Result<Vec<u8>, FileFault> {
        match find(self.held.as_slice(), name) {
            Some(bytes) => copy_within(alloc, bytes, most),
            None => Ok(Vec::new(alloc)),
        }
    }
}

/// A sink in memory that never fails. From the first piece that finds its room full it takes what comes
/// without keeping it, and tells nothing.
#[derive(Drop)]
pub struct SureSink {
    written: Vec<u8>,
    room: usize,
    each: usize,
    over: bool,
    ghost takes_some: { 0 < each },
    ghost within_room: { vec_len written ≤ room },
    ghost has_memory: { room ≤ vec_capacity written },
}

impl SureSink {
    ghost use Rattle.jh_files.specs.Shown.{sure_written, SureStarts};

    /// A sink that keeps at most `room` bytes and takes at most `each` bytes of a piece.
    pub fn of(alloc: Global, room: usize, each: usize) -> Result<SureSink, NoMemory>
        requires { 0 < each }
        ensures { IfOk result (SureStarts room each) }
    {
        Ok(SureSink {
            written: Vec::with_capacity(alloc, room)?,
            room,
            each,
            over: false,
        })
    }

    /// The bytes that the sink keeps.
    pub fn written(&self) -> &[u8]
        ensures { IfSome (sure_written self.now) (λ written. written ≡ result.now) }
    {
        self.written.as_slice()
    }
}

impl Sink for SureSink {
    ghost use Rattle.jh_files.specs.Shown.{sure_written, sure_faults, taken_len, SureAfter};

    ghost written = { sure_written };

    ghost faults = { sure_faults };

    fn put(&mut self, bytes: &[u8]) -> Result<usize, SinkFailed>
        requires { 0 < length bytes.now }
        ensures some { IfOk result (λ taken. 0 < taken) }
        ensures within { IfOk result (λ taken. taken ≤ length bytes.now) }
        ensures appends { IfOk result (λ taken. Appends (sure_written self.old) (take taken bytes.now) (sure_written self.new)) }
        ensures failed { OnErr result (Rose (sure_faults self.old) (sure_faults self.new)) }
        ensures unchanged { OnErr result (sure_written self.new ≡ sure_written self.old) }
        ensures counted { sure_faults self.old ≤ sure_faults self.new }
        ensures no_fault { OnOk result (sure_faults self.new ≡ sure_faults self.old) }

        // No put fails. Each takes as much as it may, and keeps what there is room for.
        ensures exact { IsOk result }
        ensures count { IfOk result (λ taken. taken ≡ taken_len self.old (length bytes.now)) }

        // What the put leaves. Only one that found the room full makes the sink go over.
        ensures after { SureAfter self.old bytes.now self.new }
    {
        let taken = bytes.len().min(self.each);
        let free = self.room - self.written.len();
        if free == 0 {
            self.over = true;
            return Ok(taken);
        }
        let taken = taken.min(free);
        keep(&mut self.written, &bytes[..taken]);
        Ok(taken)
    }
}
