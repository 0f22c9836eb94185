use jh_name::NoMemory;

/// Why a command has no list of sequents.
#[derive(Clone, Copy, PartialEq, Eq)]
pub enum GoalsFault {
    /// It has more than `MOST_SEQUENTS`: this many, or the greatest `u128` where there are more.
    TooMany(u128),
    Memory,
}

impl From<NoMemory> for GoalsFault {
    ghost use Rattle.std.specs.Prelude.{◌≡◌};
    ghost use Rattle.jh_obligations.specs.declared.command_sequents.fault.GoalsFault.TheVariants.{Memory};

    ghost from_gives = { λ _ fault. fault ≡ Memory };

    fn from(_fault: NoMemory) -> GoalsFault {
        GoalsFault::Memory
    }
}
