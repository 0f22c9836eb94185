ghost use Rattle.std.specs.Prelude.{◌≡◌};
ghost use Rattle.jh_obligations.specs.program_sequents.Faults.{fault_of};

use crate::command_sequents::GoalsFault;
use jh_name::{MethodId, NoMemory};
use std::alloc::AllocFailed;

/// Why a program has no list of sequents.
#[derive(Clone, Copy, PartialEq, Eq)]
pub enum LogicError {
    /// The first method with more than 2,000 has so many; the greatest `u128` stands for itself and for more.
    TooManySequents { method: MethodId, n: u128 },
    Memory,
}

impl From<NoMemory> for LogicError {
    ghost use Rattle.std.specs.Prelude.{◌≡◌};
    ghost use Rattle.jh_obligations.specs.declared.program_sequents.fault.LogicError.TheVariants.{Memory};

    ghost from_gives = { λ _ fault. fault ≡ Memory };

    fn from(_fault: NoMemory) -> LogicError {
        LogicError::Memory
    }
}

impl<T: Drop> From<AllocFailed<T>> for LogicError {
    ghost use Rattle.std.specs.Prelude.{◌≡◌};
    ghost use Rattle.jh_obligations.specs.declared.program_sequents.fault.LogicError.TheVariants.{Memory};

    ghost from_gives = { λ _ fault. fault ≡ Memory };

    fn from(_fault: AllocFailed<T>) -> LogicError {
        LogicError::Memory
    }
}

/// What the fault of a method is for its program.
pub fn fault_of(method: MethodId, fault: GoalsFault) -> LogicError
    ensures { result ≡ fault_of method fault }
{
    match fault {
        GoalsFault::TooMany(n) => LogicError::TooManySequents { method, n },
        GoalsFault::Memory => LogicError::Memory,
    }
}
