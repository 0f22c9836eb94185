ghost use Rattle.std.specs.Prelude.{◌≡◌, ◌++◌, string_bytes, OnOk};
ghost use Rattle.jh_report.specs.causes.Causes as spec;

use jh_name::NoMemory;

/// Adds the line for a sequent whose query has so many sets and elements and this size, one of which is beyond its limit.
pub fn add_too_large(
    text: &mut String,
    sets: u32,
    elements: u32,
    size: u128,
) -> Result<(), NoMemory>
    ensures { OnOk result (string_bytes text.new ≡ string_bytes text.old ++ spec.too_large_line sets elements size) }
{
    writeln!(
        text,
        "  bapa too large: sets {sets}, elements {elements}, size {size}"
    )?;
    Ok(())
}
