ghost use Rattle.std.specs.Prelude.{◌≡◌, IfOk};

use crate::{Name, NoMemory, Text};
use std::alloc::Global;

/// The name of this text and turn.
pub fn name(alloc: Global, text: &str, turn: u32) -> Result<Name, NoMemory>
    ensures { IfOk result (λ made. made ≡ record { text = text.now; turn = turn }) }
{
    let text = String::from_str(alloc, text)?;
    Ok(Name {
        text: Text::of(text),
        turn,
    })
}
