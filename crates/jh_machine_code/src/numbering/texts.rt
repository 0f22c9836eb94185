ghost use Rattle.std.specs.Prelude.{IfOk};
ghost use Rattle.jh_arena.specs.table.Growth.{Grows};
ghost use Rattle.jh_machine_code.specs.numbering.Numbered.{IsText};

use jh_name::{Name, NoMemory};
use jh_operands::jh_store::memory::Names;
use std::alloc::Global;

/// The number of the name of a text at turn 0, to which one is given where it has none.
#[tactic(auto, using(crate::proofs::numbering::Standing::text_steps))]
pub fn text_number(alloc: Global, names: &mut Names, text: &str) -> Result<usize, NoMemory>
    ensures is { IfOk result (IsText names.new text.now) }
    ensures grows { Grows names.old names.new }
{
    names.number(alloc, text)
}

/// The number of the name of the text that another name has.
#[tactic(auto, using(crate::proofs::numbering::Standing::text_steps))]
pub fn name_number(alloc: Global, names: &mut Names, name: &Name) -> Result<usize, NoMemory>
    ensures is { IfOk result (IsText names.new name.now.text) }
    ensures grows { Grows names.old names.new }
{
    text_number(alloc, names, name.text())
}
