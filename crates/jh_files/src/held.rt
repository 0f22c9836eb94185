ghost use Rattle.std.specs.Prelude.{◌≡◌, ◌≢◌, ◌≤◌, ◌+◌, ◌^◌, ◌-◌, ◌<◌, ◌++◌, ℕ, length, IfOk, IfErr, Some, vec_len, vec_capacity};
ghost use Rattle.jh_files.specs.Held.{bytes_of, found};
ghost use Rattle.jh_files.specs.Contents.{IsTooLong};
ghost use Rattle.std.specs.Option.{option_map};

use crate::FileFault;
use std::alloc::Global;

/// The bytes under a name, in a list of names with their bytes.
pub(crate) fn find<'a>(held: &'a [(String, Vec<u8>)], name: &str) -> Option<&'a [u8]>
    ensures { option_map (λ bytes. bytes.now) result ≡ found held.now name.now }
{
    for entry in held {
        if entry.0.as_str() == name {
            return Some(entry.1.as_slice());
        }
    }
    None
}

/// A copy of bytes, where there are at most `most`.
pub(crate) fn copy_within(alloc: Global, bytes: &[u8], most: u64) -> Result<Vec<u8>, FileFault>
    requires { most < 2 ^ 64 - 1 }
    ensures ok { IfOk result (λ copy. copy.items ≡ bytes.now) }
    ensures within { IfOk result (λ copy. length copy.items ≤ most) }
    ensures sound { result ≢ Err FileFault.Failed }
    ensures too_long { IfErr result (IsTooLong (Some bytes.now) most) }
{
    if bytes.len() as u64 > most {
        return Err(FileFault::TooLong { seen: most + 1 });
    }
    Ok(Vec::from_slice(alloc, bytes)?)
}

/// Appends a piece for which there is memory.
pub(crate) fn keep(written: &mut Vec<u8>, piece: &[u8])
    requires { vec_len written.old + length piece.now ≤ vec_capacity written.old }
    ensures items { written.new.items ≡ written.old.items ++ piece.now }
    ensures capacity { vec_capacity written.old ≤ vec_capacity written.new }
{
    let _ = written.extend_from_slice(piece);
}
