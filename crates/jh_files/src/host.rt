ghost use Rattle.std.specs.Prelude.{◌≡◌, ◌≤◌, ◌+◌, ◌⊎◌, ◌<◌, ◌^◌, ◌-◌, ℕ, List, length, take, Option, OnOk, OnErr, IfOk, None};
ghost use Rattle.std.specs.Io.KnownBytes.{WriteAppends};
ghost use Rattle.jh_files.specs.Contents.{Appends};
ghost use Rattle.jh_files.specs.Counts.{Rose};
ghost use Rattle.jh_files.specs.Reading.{Reads};

use crate::{FileFault, Files, Sink, SinkFailed};
use std::alloc::{AllocError, Global};
use std::fs;
use std::io::{ErrorKind, Read, Write};

/// The files of the host, read through the runtime. They tell nothing of contents, and keep one count of
/// faults for all names.
#[derive(Drop)]
pub struct HostFiles<'a, R> {
    /// The runtime.
    pub rt: &'a R,
    /// How many calls failed so far, or the greatest number where more did.
    pub failed: u64,
}

/// How the reading of a file ends.
#[derive(Drop)]
enum Reading {
    Whole(Vec<u8>),
    More,
    Broken,
}

/// Reads to the end, and stops where more than `most` bytes came. What is interrupted is asked again.
fn read_within<F: Read>(alloc: Global, file: &mut F, most: u64) -> Result<Reading, AllocError>
    ensures { IfOk result (Reads (F.remaining file.old) most) }
{
    let mut bytes = Vec::new(alloc);
    let mut piece = [0u8; 4096];
    for _ in 0..u64::MAX {
        let count = match file.read(&mut piece) {
            Ok(count) => count,
            Err(fault) if fault.kind() == ErrorKind::Interrupted => continue,
            Err(_) => return Ok(Reading::Broken),
        };
        if count == 0 {
            return Ok(Reading::Whole(bytes));
        }
        bytes.extend_from_slice(&piece[..count])?;
        if bytes.len() as u64 > most {
            return Ok(Reading::More);
        }
    }
    Ok(Reading::Broken)
}

impl<R: std::rt::Files> HostFiles<'_, R> {
    fn broken(&mut self) -> FileFault
        ensures fault { result ≡ FileFault.Failed }
        ensures counted { (self.new.failed ≡ self.old.failed + 1) ⊎ (self.new.failed ≡ 2 ^ 64 - 1) }
    {
        self.failed = self.failed.saturating_add(1);
        FileFault::Failed
    }
}

impl<R: std::rt::Files> Files for HostFiles<'_, R> {
    ghost use Rattle.std.specs.Prelude.{None};

    ghost holds = { λ _ _. None };

    ghost faults = { λ files _. files.failed };

    fn get(&mut self, alloc: Global, name: &str, most: u64) -> Result<Vec<u8>, FileFault> {
        let mut file = match fs::open(self.rt, name) {
            Ok(file) => file,
            Err(_) => return Err(self.broken()),
        };
        match read_within(alloc, &mut file, most)? {
            Reading::Whole(bytes) => Ok(bytes),
            Reading::More => Err(FileFault::TooLong { seen: most + 1 }),
            Reading::Broken => Err(self.broken()),
        }
    }
}

/// A writer of the host. It tells nothing of what was written.
#[derive(Drop)]
pub struct HostSink<W> {
    /// The writer.
    pub inner: W,
    /// How many calls failed so far, or the greatest number where more did.
    pub failed: u64,
}

impl<W: Write> Sink for HostSink<W> {
    ghost use Rattle.std.specs.Prelude.{None};

    ghost written = { λ _. None };

    ghost faults = { λ sink. sink.failed };

    fn put(&mut self, bytes: &[u8]) -> Result<usize, SinkFailed>
        requires { 0 < length bytes.now }
        ensures some { IfOk result (λ taken. 0 < taken) }
        ensures within { IfOk result (λ taken. taken ≤ length bytes.now) }
        ensures appends { IfOk result (λ taken. Appends None (take taken bytes.now) None) }
        ensures failed { OnErr result (Rose self.old.failed self.new.failed) }
        ensures unchanged { OnErr result (◌≡◌ {A = Option (List ℕ)} None None) }
        ensures counted { self.old.failed ≤ self.new.failed }
        ensures no_fault { OnOk result (self.new.failed ≡ self.old.failed) }

        // The writer has just what was taken, where it tells: after a short write that is no more than it took.
        ensures written { WriteAppends (W.contents self.old.inner) (W.contents self.new.inner) result bytes.now }
    {
        match self.inner.write(bytes) {
            Ok(count) if count > 0 => Ok(count),
            _ => {
                self.failed = self.failed.saturating_add(1);
                Err(SinkFailed)
            }
        }
    }
}
