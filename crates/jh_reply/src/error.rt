use jh_name::{Name, NoMemory, Place};

/// Why a source isn't verified.
#[derive(Drop)]
pub enum Refusal {
    /// The source is refused with this number, from 1 to 7, at this place.
    At(u8, Place),
    /// It breaks this type rule, at this place.
    Mistyped(u8, Place),
    /// The definition of a variable of this name, the first such in the text, reads the variable.
    Cyclic(Name),
    /// Memory ran out.
    Memory,
}

/// Why there is no report on a program.
#[derive(Drop)]
pub enum Unreported {
    /// A method has more than 2,000 sequents; the line says which, the first such, and how many.
    Crowded(String),
    /// Memory ran out.
    Memory,
}

impl From<NoMemory> for Unreported {
    ghost use Rattle.std.specs.Prelude.{◌≡◌};
    ghost use Rattle.jh_reply.specs.declared.error.Unreported.TheVariants.{Memory};

    ghost from_gives = { λ _ error. error ≡ Memory };

    fn from(_error: NoMemory) -> Unreported {
        Unreported::Memory
    }
}
