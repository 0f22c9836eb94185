ghost use Rattle.std.specs.Prelude.{ℕ, ◌≡◌, ◌<◌};

use std::io;
use std::io::{ErrorKind, Write};

/// A writer that takes at most `each` bytes at a call, and fails at the call with the number `failing`,
/// counted from 1.
#[derive(Drop)]
pub struct ShortWriter {
    pub taken: Vec<u8>,
    pub each: usize,
    pub failing: u64,
    pub calls: u64,
}

impl Write for ShortWriter {
    fn write(&mut self, bytes: &[u8]) -> io::Result<usize> {
        self.calls = self.calls.saturating_add(1);
        if self.calls == self.failing {
            return Err(io::Error::from(ErrorKind::BrokenPipe));
        }
        let count = bytes.len().min(self.each);
        self.taken.extend_from_slice(&bytes[..count])?;
        Ok(count)
    }

    fn flush(&mut self) -> io::Result<()> {
        Ok(())
    }
}
