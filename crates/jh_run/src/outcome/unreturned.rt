use jh_heap_layout::jh_heap::text::HeapError;
use jh_machine::continuation::Stop;
use jh_name::NoMemory;

/// Why a run doesn't return: the program has no such method, the text spells no heap of it, the run stops before its end,
/// or memory ran out.
#[derive(Clone, Copy, PartialEq, Eq)]
pub enum Unreturned {
    NoMethod,
    NoHeap(HeapError),
    Stopped(Stop),
    Memory,
}

impl From<NoMemory> for Unreturned {
    ghost use Rattle.std.specs.Prelude.{◌≡◌};
    ghost use Rattle.jh_run.specs.declared.outcome.unreturned.Unreturned.TheVariants as why;

    ghost from_gives = { λ _ e. e ≡ why.Memory };

    fn from(_error: NoMemory) -> Unreturned {
        Unreturned::Memory
    }
}

impl From<HeapError> for Unreturned {
    ghost use Rattle.std.specs.Prelude.{◌≡◌};
    ghost use Rattle.jh_run.specs.declared.outcome.unreturned.Unreturned.TheVariants as why;

    ghost from_gives = { λ error e. e ≡ why.NoHeap error };

    fn from(error: HeapError) -> Unreturned {
        Unreturned::NoHeap(error)
    }
}

impl From<Stop> for Unreturned {
    ghost use Rattle.std.specs.Prelude.{◌≡◌};
    ghost use Rattle.jh_run.specs.declared.outcome.unreturned.Unreturned.TheVariants as why;

    ghost from_gives = { λ stop e. e ≡ why.Stopped stop };

    fn from(stop: Stop) -> Unreturned {
        Unreturned::Stopped(stop)
    }
}
