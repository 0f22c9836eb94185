#![tactic(auto, unfolding(crate::specs::continuation::Stops::stop_of))]

ghost use Rattle.std.specs.Prelude.{◌≡◌};
ghost use Rattle.jh_machine.specs.declared.continuation.stop.Stop.TheVariants.{Memory};
ghost use Rattle.jh_machine.specs.continuation.Stops.{stop_of};

use jh_name::{NoMemory, Place};
use jh_operands::Fault;
use std::alloc::AllocFailed;

/// Why a run stops before its end: null was dereferenced at a place, the formula of an assert or a note at a place was
/// false, a statement at a place found no object to take, no step was left, a number at a place left its integers, or
/// memory ran out.
#[derive(Clone, Copy, PartialEq, Eq)]
pub enum Stop {
    Null(Place),
    AssertFailed(Place),
    NoObject(Place),
    StepsOut,
    Overflow(Place),
    Memory,
}

impl From<Fault> for Stop {
    ghost from_gives = { λ fault e. e ≡ stop_of fault };

    fn from(fault: Fault) -> Stop {
        match fault {
            Fault::Null(place) => Stop::Null(place),
            Fault::Overflow(place) => Stop::Overflow(place),
        }
    }
}

impl From<NoMemory> for Stop {
    ghost from_gives = { λ _ e. e ≡ Memory };

    fn from(_error: NoMemory) -> Stop {
        Stop::Memory
    }
}

impl<T: Drop> From<AllocFailed<T>> for Stop {
    ghost from_gives = { λ _ e. e ≡ Memory };

    fn from(_error: AllocFailed<T>) -> Stop {
        Stop::Memory
    }
}
