ghost use Rattle.std.specs.Prelude.{◌≡◌, ◌+◌, OnOk};

use jh_name::NoMemory;

/// The most parts of a query, each counted wherever it stands: 2^20.
pub const MOST_PARTS: u64 = 1 << 20;

/// How many parts may still be made.
#[derive(Clone, Copy)]
pub struct Room {
    pub left: u64,
}

impl Room {
    /// Room for a whole query.
    pub(crate) fn new() -> Room {
        Room { left: MOST_PARTS }
    }

    /// Takes the room of one part.
    pub(crate) fn take(&mut self) -> Result<(), NoMemory>
        ensures { OnOk result (self.new.left + 1 ≡ self.old.left) }
    {
        if self.left == 0 {
            return Err(NoMemory);
        }
        self.left -= 1;
        Ok(())
    }
}
