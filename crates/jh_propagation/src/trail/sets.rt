ghost use Rattle.std.specs.Prelude.{◌≡◌, ◌↔◌, ◌++◌, IfOk, IsTrue};
ghost use Rattle.jh_closure.specs.congruence_closure.Nodes.{Has};
ghost use Rattle.jh_propagation.specs.trail.Looks.{AreCommon};

use crate::trail::Decided;
use crate::trail::decided::is_one;
use jh_name::NoMemory;
use std::alloc::Global;

/// Whether a literal stands in a list.
pub(crate) fn has(list: &[Decided], literal: Decided) -> bool
    ensures { IsTrue result ↔ Has list.now literal }
{
    for item in list {
        if is_one(*item, literal) {
            return true;
        }
    }
    false
}

/// The literals of a list that stand in another one too.
pub(crate) fn common(
    alloc: Global,
    list: &[Decided],
    other: &[Decided],
) -> Result<Vec<Decided>, NoMemory>
    ensures { IfOk result (λ made. AreCommon list.now other.now made.items) }
{
    let mut made = Vec::new(alloc);
    for item in list {
        if has(other, *item) {
            made.push(*item)?;
        }
    }
    Ok(made)
}

/// A list behind another one.
pub(crate) fn together(
    alloc: Global,
    list: &[Decided],
    other: &[Decided],
) -> Result<Vec<Decided>, NoMemory>
    ensures { IfOk result (λ made. made.items ≡ list.now ++ other.now) }
{
    let mut made = Vec::from_slice(alloc, list)?;
    made.extend_from_slice(other)?;
    Ok(made)
}
