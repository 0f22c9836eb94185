ghost use Rattle.std.specs.Prelude.{◌≡◌, ◌≤◌, ◌++◌, ◌-◌, false, [], IfOk, OnOk, OnErr, get_or, map, length, replicate};
ghost use Rattle.jh_store.specs.memory.Cells.{put, items_of};

use jh_name::NoMemory;
use std::alloc::Global;

/// The value at a place, or a default behind the last.
pub(crate) fn value_at<T: Copy>(values: &[T], place: u32, default: T) -> T
    ensures { result ≡ get_or values.now place default }
{
    match values.get(place as usize) {
        Some(value) => *value,
        None => default,
    }
}

/// Writes a value at a place, with defaults between the end and that place. Without memory nothing changes.
pub(crate) fn put_value<T: Copy + Drop>(
    values: &mut Vec<T>,
    place: u32,
    value: T,
    default: T,
) -> Result<(), NoMemory>
    ensures put { OnOk result (values.new.items ≡ put default values.old.items place value) }
    ensures kept { OnErr result (values.new.items ≡ values.old.items) }
{
    let place = place as usize;
    if place < values.len() {
        values[place] = value;
        return Ok(());
    }
    values.resize(place + 1, default)?;
    values[place] = value;
    Ok(())
}

/// Whether a place among sets has an object.
pub(crate) fn row_has(rows: &[Vec<bool>], place: u32, object: u32) -> bool
    ensures { result ≡ get_or (get_or (map items_of rows.now) place []) object false }
{
    match rows.get(place as usize) {
        Some(row) => value_at(row.as_slice(), object, false),
        None => false,
    }
}

/// Adds empty sets until there are so many.
fn fill_rows(alloc: Global, rows: &mut Vec<Vec<bool>>, count: usize) -> Result<(), NoMemory>
    requires { length rows.old.items ≤ count }
    ensures { OnOk result (map items_of rows.new.items ≡ map items_of rows.old.items ++ replicate (count - length rows.old.items) []) }
{
    for _place in rows.len()..count {
        rows.push(Vec::new(alloc))?;
    }
    Ok(())
}

/// Writes a set at a place, with empty ones between the end and that place.
pub(crate) fn put_row(
    alloc: Global,
    rows: &mut Vec<Vec<bool>>,
    place: u32,
    row: Vec<bool>,
) -> Result<(), NoMemory>
    ensures { OnOk result (map items_of rows.new.items ≡ put [] (map items_of rows.old.items) place row.items) }
{
    let place = place as usize;
    if place < rows.len() {
        rows[place] = row;
    } else {
        fill_rows(alloc, rows, place)?;
        rows.push(row)?;
    }
    Ok(())
}

/// The same sets.
pub(crate) fn copy_rows(alloc: Global, rows: &[Vec<bool>]) -> Result<Vec<Vec<bool>>, NoMemory>
    ensures { IfOk result (λ made. map items_of made.items ≡ map items_of rows.now) }
{
    let mut made = Vec::new(alloc);
    for row in rows {
        made.push(Vec::from_slice(alloc, row.as_slice())?)?;
    }
    Ok(made)
}
