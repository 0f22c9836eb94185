ghost use Rattle.std.specs.Prelude.{◌≡◌, ◌+◌, ◌<◌, ℕ, List, Some, OnOk, if◌then◌else◌};
ghost use Rattle.indexmap.specs.IndexMap.{get_by_text};
ghost use Rattle.jh_rules.specs.Words.{same_text};

use indexmap::IndexMap;
use jh_name::NoMemory;
use std::alloc::Global;

/// Lets a name stand for a value.
pub fn put<X: Drop>(
    alloc: Global,
    table: &mut IndexMap<String, X>,
    text: &str,
    value: X,
) -> Result<(), NoMemory>
    ensures { OnOk result ((x : List ℕ) → get_by_text table.new x ≡ (if same_text text.now x then Some value else get_by_text table.old x)) }
{
    let key = String::from_str(alloc, text)?;
    table.insert(key, value)?;
    Ok(())
}

/// The place in a list of what has so many behind it.
pub fn from_end(count: usize, back: usize) -> usize
    requires { back < count }
    ensures { result + back + 1 ≡ count }
{
    count - 1 - back
}
