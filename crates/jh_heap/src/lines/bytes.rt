ghost use Rattle.std.specs.Prelude.{◌≡◌, ◌<◌, ◌+◌, option_map, map, length, IfOk};
ghost use Rattle.jh_heap.specs.lines.Bytes as spec;
ghost use Rattle.jh_heap.specs.lines.Held.{cut_in};

use jh_name::NoMemory;
use std::alloc::Global;

/// What stands before a byte, and what behind it.
#[derive(Clone, Copy)]
pub(crate) struct Cut<'a> {
    pub before: &'a [u8],
    pub behind: &'a [u8],
}

/// The bytes cut at the first one of a value, where there is one.
#[tactic(auto, using(crate::proofs::lines::Cuts::cut_ends, crate::proofs::lines::Cuts::cut_goes_on))]
pub(crate) fn cut_at(byte: u8, bytes: &[u8]) -> Option<Cut<'_>>
    ensures { option_map cut_in result ≡ spec.cut byte bytes.now }
{
    for place in 0..bytes.len() {
        if bytes[place] == byte {
            return Some(Cut {
                before: &bytes[..place],
                behind: &bytes[place + 1..],
            });
        }
    }
    None
}

/// The parts between the bytes of a value.
#[tactic(auto, using(crate::proofs::lines::Cuts::split_cut, crate::proofs::lines::Cuts::split_whole, crate::proofs::lines::Cuts::cut_shorter))]
pub fn split(alloc: Global, byte: u8, bytes: &[u8]) -> Result<Vec<&[u8]>, NoMemory>
    ensures parts { IfOk result (λ made. map (λ part. part.now) made.items ≡ spec.split byte bytes.now) }
    // There is a part, and there are at most as many as bytes and one more.
    ensures some { IfOk result (λ made. 0 < length made.items) }
    ensures few { IfOk result (λ made. length made.items < length bytes.now + 2) }
{
    let mut parts = Vec::new(alloc);
    let mut rest = bytes;
    while let Some(found) = cut_at(byte, rest) {
        parts.push(found.before)?;
        rest = found.behind;
    }
    parts.push(rest)?;
    Ok(parts)
}
