ghost use Rattle.std.specs.Prelude.{◌≡◌, ◌+◌, IfOk};

use jh_name::NoMemory;

/// How deep commands may nest, as for their weakest preconditions.
pub const MOST_NESTED: u32 = 1000;

/// The number of levels that are left below.
pub(crate) fn lower(levels: u32) -> Result<u32, NoMemory>
    ensures { IfOk result (λ lower. lower + 1 ≡ levels) }
{
    match levels.checked_sub(1) {
        Some(lower) => Ok(lower),
        None => Err(NoMemory),
    }
}
