ghost use Rattle.std.specs.Prelude.{◌≡◌, ◌<◌, not, IfOk, length};
ghost use Rattle.jh_semantics.specs.Locals as runs;
ghost use Rattle.jh_operands.specs.Exprs.{text_at, IsPlain};
ghost use Rattle.jh_machine.specs.locals.Locals.{AreLocals};

use jh_name::NoMemory;
use jh_store::memory::Names;
use std::alloc::Global;

/// Whether a text has a dot, as the names of statics, fields and ghost variables do.
fn has_dot(text: &[u8]) -> bool
    ensures { result ≡ runs.has_dot text.now }
{
    text.iter().any(|byte| *byte == b'.')
}

/// Whether the name of a number is no state.
fn is_local(names: &Names, number: usize) -> bool
    requires { number < length names.now }
    ensures local { result ≡ not (runs.has_dot (text_at names.now number)) }
    ensures plain { IsPlain names.now number }
{
    !has_dot(names.at(number).text().as_bytes())
}

/// The numbers of the names that are no state, in ascending order.
pub fn locals_of(alloc: Global, names: &Names) -> Result<Vec<usize>, NoMemory>
    ensures { IfOk result (λ made. AreLocals names.now made.items) }
{
    let mut made = Vec::new(alloc);
    for number in 0..names.len() {
        if is_local(names, number) {
            made.push(number)?;
        }
    }
    Ok(made)
}
