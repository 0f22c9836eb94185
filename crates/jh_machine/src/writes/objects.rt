ghost use Rattle.std.specs.Prelude.{◌≡◌, OnOk};
ghost use Rattle.jh_semantics.specs.State.{alloc_name, named};
ghost use Rattle.jh_semantics.specs.Objects.{created};
ghost use Rattle.jh_store.specs.memory.Held.{state_of, IsNamed};
ghost use Rattle.jh_operands.specs.Exprs.{text_at, IsPlain};

use crate::writes::writes;
use jh_name::NoMemory;
use jh_store::memory::Memory;

/// An object joins the set of all objects and that of a class.
pub fn create(
    memory: &mut Memory<'_>,
    all: usize,
    class: usize,
    object: u32,
) -> Result<(), NoMemory>
    ensures names { memory.new.names ≡ memory.old.names }
    ensures last { memory.new.last ≡ memory.old.last }
    ensures state { OnOk result (IsNamed memory.old all alloc_name → IsPlain memory.old.names class → state_of memory.new ≡ created (state_of memory.old) (text_at memory.old.names class) object) }
{
    writes::join(memory, all, object)?;
    writes::join(memory, class, object)
}

/// Whether an object is in the set of a class.
pub fn is_in(memory: &Memory<'_>, class: usize, object: u32) -> bool
    ensures { IsPlain memory.now.names class → result ≡ (state_of memory.now).set (named (text_at memory.now.names class)) object }
{
    writes::has(memory, class, object)
}
