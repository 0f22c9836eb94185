use std::alloc::{AllocError, AllocFailed};
use std::error::Error;
use std::fmt;

/// Why the bytes of a name didn't come.
#[derive(Clone, Copy, Debug, PartialEq, Eq)]
pub enum FileFault {
    /// Reading failed, or there is nothing of that name.
    Failed,
    /// More bytes are held than were wanted; `seen` is one more than were wanted.
    TooLong { seen: u64 },
    /// Memory ran out.
    Memory,
}

impl From<AllocError> for FileFault {
    ghost use Rattle.std.specs.Prelude.{◌≡◌};
    ghost use Rattle.jh_files.specs.declared.fault.FileFault.TheVariants.{Memory};

    ghost from_gives = { λ _ fault. fault ≡ Memory };

    fn from(_error: AllocError) -> FileFault {
        FileFault::Memory
    }
}

impl<T: Drop> From<AllocFailed<T>> for FileFault {
    ghost use Rattle.std.specs.Prelude.{◌≡◌};
    ghost use Rattle.jh_files.specs.declared.fault.FileFault.TheVariants.{Memory};

    ghost from_gives = { λ _ fault. fault ≡ Memory };

    fn from(_error: AllocFailed<T>) -> FileFault {
        FileFault::Memory
    }
}

impl fmt::Display for FileFault {
    fn fmt<W: fmt::Write>(&self, f: &mut fmt::Formatter<W>) -> fmt::Result {
        match self {
            FileFault::Failed => write!(f, "the file failed"),
            FileFault::TooLong { seen } => write!(f, "the file has {seen} bytes or more"),
            FileFault::Memory => write!(f, "no memory"),
        }
    }
}

impl Error for FileFault {}

/// A sink took nothing of a piece.
#[derive(Clone, Copy, Debug, PartialEq, Eq)]
pub struct SinkFailed;

impl fmt::Display for SinkFailed {
    fn fmt<W: fmt::Write>(&self, f: &mut fmt::Formatter<W>) -> fmt::Result {
        write!(f, "the sink failed")
    }
}

impl Error for SinkFailed {}
