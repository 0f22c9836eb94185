use jh_name::{Name, NoMemory};
use jh_type::checker::Typed;

/// Why a program isn't unfolded.
#[derive(Drop)]
pub enum VarsError {
    /// A definition reads its own variable, directly or through others: the first such variable of the text.
    CyclicDef(Name),
    Memory,
}

impl From<NoMemory> for VarsError {
    ghost use Rattle.std.specs.Prelude.{◌≡◌};
    ghost use Rattle.jh_unfolding.specs.declared.unfolder.faults.VarsError.TheVariants.{Memory};

    ghost from_gives = { λ _ fault. fault ≡ Memory };

    fn from(_fault: NoMemory) -> VarsError {
        VarsError::Memory
    }
}

/// A refusal, with the program as it was handed in.
#[derive(Drop)]
pub struct VarsRefused {
    pub fault: VarsError,
    pub typed: Typed,
}
