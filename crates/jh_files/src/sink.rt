ghost use Rattle.std.specs.Prelude.{◌≡◌, ℕ, ◌<◌, ◌≤◌, List, length, take, drop, Option, OnOk, OnErr, IfOk};
ghost use Rattle.jh_files.specs.Counts.{Rose};
ghost use Rattle.jh_files.specs.Contents.{Appends, AppendsFront};

use crate::SinkFailed;

/// What takes bytes, one piece after another.
pub trait Sink {
    /// The bytes that were taken so far, where the sink tells them.
    ghost written: { Self → Option (List ℕ) };

    /// How many calls have failed so far.
    ghost faults: { Self → ℕ };

    /// Takes some bytes from the front of a piece, at least one, and answers how many. Where it fails it
    /// has taken none.
    fn put(&mut self, bytes: &[u8]) -> Result<usize, SinkFailed>
        requires { 0 < length bytes.now }
        ensures some { IfOk result (λ taken. 0 < taken) }
        ensures within { IfOk result (λ taken. taken ≤ length bytes.now) }
        ensures appends { IfOk result (λ taken. Appends (written self.old) (take taken bytes.now) (written self.new)) }
        ensures failed { OnErr result (Rose (faults self.old) (faults self.new)) }
        ensures unchanged { OnErr result (written self.new ≡ written self.old) }
        ensures counted { faults self.old ≤ faults self.new }

        // Where it takes something, no fault is counted.
        ensures no_fault { OnOk result (faults self.new ≡ faults self.old) };
}

/// Puts a whole piece. Where that fails, a front of the piece was taken.
pub fn put_all<S: Sink>(sink: &mut S, bytes: &[u8]) -> Result<(), SinkFailed>
    ensures all { OnOk result (Appends (S.written sink.old) bytes.now (S.written sink.new)) }
    ensures front { OnErr result (AppendsFront (S.written sink.old) bytes.now (S.written sink.new)) }
    ensures failed { OnErr result (Rose (S.faults sink.old) (S.faults sink.new)) }
    ensures counted { S.faults sink.old ≤ S.faults sink.new }
    ensures no_fault { OnOk result (S.faults sink.new ≡ S.faults sink.old) }
{
    let mut at = 0;
    while at < bytes.len() {
        at += sink.put(&bytes[at..])?;
    }
    Ok(())
}
