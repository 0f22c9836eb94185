ghost use Rattle.std.specs.Prelude.{◌≡◌, ◌<◌, ◌&&◌, suc, true};
ghost use Rattle.jh_semantics.specs.State.{alloc_name};
ghost use Rattle.jh_semantics.specs.Objects as runs;
ghost use Rattle.jh_store.specs.memory.Held.{state_of, IsNamed};

use crate::writes::writes;
use jh_store::memory::Memory;

/// Whether both are true.
fn both(left: bool, right: bool) -> bool
    ensures { result ≡ (left && right) }
{
    if left { right } else { false }
}

/// Whether an object isn't there yet; `all` is the number of the set of all objects.
pub fn is_free(memory: &Memory<'_>, all: usize, object: u32) -> bool
    ensures free { IsNamed memory.now all alloc_name → result ≡ runs.is_free (state_of memory.now) object }
    ensures inside { result ≡ true → object < suc memory.now.last }
{
    let is_one = both(object != 0, object <= memory.last());
    both(is_one, !writes::has(memory, all, object))
}
