ghost use Rattle.std.specs.Prelude.{◌≡◌, ◌<◌, ◌==◌, ◌||◌, ℕ, suc, false, [], Some, map, get_or, slice_get, IfOk, OnOk};
ghost use Rattle.jh_semantics.specs.Heaps.{is_in, object_in, number_in, truth_in, set_in, field_value};
ghost use Rattle.jh_store.specs.heaps.Cells.{cell_in};
ghost use Rattle.jh_store.specs.heaps.Inside.{AreInside};
ghost use Rattle.jh_store.specs.memory.Cells.{items_of};
ghost use Rattle.jh_store.specs.memory.Fields.{field_of};

use jh_name::NoMemory;
use jh_store::heaps::Cell;
use jh_store::memory::FieldValues;
use std::alloc::Global;

fn object_of(cell: &Cell) -> u32
    ensures { result ≡ object_in (Some (cell_in cell.now)) }
{
    match cell {
        Cell::Obj(object) => *object,
        _ => 0,
    }
}

fn number_of(cell: &Cell) -> i64
    ensures { result ≡ number_in (Some (cell_in cell.now)) }
{
    match cell {
        Cell::Int(number) => *number,
        _ => 0,
    }
}

fn truth_of(cell: &Cell) -> bool
    ensures { result ≡ truth_in (Some (cell_in cell.now)) }
{
    match cell {
        Cell::Bool(truth) => *truth,
        _ => false,
    }
}

/// The objects that values are; null of what is none.
fn objects_of(alloc: Global, cells: &[Cell]) -> Result<Vec<u32>, NoMemory>
    ensures { IfOk result (λ made. made.items ≡ map (λ c. object_in (Some (cell_in c))) cells.now) }
{
    let mut made = Vec::new(alloc);
    for cell in cells {
        made.push(object_of(cell))?;
    }
    Ok(made)
}

/// The numbers that values are; 0 of what is none.
fn numbers_of(alloc: Global, cells: &[Cell]) -> Result<Vec<i64>, NoMemory>
    ensures { IfOk result (λ made. made.items ≡ map (λ c. number_in (Some (cell_in c))) cells.now) }
{
    let mut made = Vec::new(alloc);
    for cell in cells {
        made.push(number_of(cell))?;
    }
    Ok(made)
}

/// The truths that values are; false of what is none.
fn truths_of(alloc: Global, cells: &[Cell]) -> Result<Vec<bool>, NoMemory>
    ensures { IfOk result (λ made. made.items ≡ map (λ c. truth_in (Some (cell_in c))) cells.now) }
{
    let mut made = Vec::new(alloc);
    for cell in cells {
        made.push(truth_of(cell))?;
    }
    Ok(made)
}

/// A list says of one object more that it is a member.
fn mark(marks: &mut Vec<bool>, object: u32) -> Result<(), NoMemory>
    ensures { OnOk result ((b : ℕ) → get_or marks.new.items b false ≡ (get_or marks.old.items b false || b == object)) }
{
    let place = object as usize;
    if place < marks.len() {
        marks[place] = true;
        return Ok(());
    }
    marks.resize(place + 1, false)?;
    marks[place] = true;
    Ok(())
}

/// The list that says of the objects from 0 on which are among some.
fn marks_of(alloc: Global, objects: &[u32]) -> Result<Vec<bool>, NoMemory>
    ensures { IfOk result (λ made. (b : ℕ) → get_or made.items b false ≡ is_in b objects.now) }
{
    let mut made = Vec::new(alloc);
    for object in objects {
        mark(&mut made, *object)?;
    }
    Ok(made)
}

/// The members of the set that a value is; none of what is no set.
fn members_of(alloc: Global, cell: &Cell) -> Result<Vec<bool>, NoMemory>
    ensures { IfOk result (λ made. (b : ℕ) → get_or made.items b false ≡ set_in (Some (cell_in cell.now)) b) }
{
    match cell {
        Cell::Set(objects) => marks_of(alloc, objects.items()),
        _ => Ok(Vec::new(alloc)),
    }
}

/// The sets that values are.
fn sets_of(alloc: Global, cells: &[Cell]) -> Result<Vec<Vec<bool>>, NoMemory>
    ensures { IfOk result (λ made. (a b : ℕ) → get_or (get_or (map items_of made.items) a []) b false ≡ set_in (slice_get (map cell_in cells.now) a) b) }
{
    let mut made = Vec::new(alloc);
    for cell in cells {
        let members = members_of(alloc, cell)?;
        made.push(members)?;
    }
    Ok(made)
}

/// The values of a field by its values at the objects from 0 on.
pub(crate) fn field_values(alloc: Global, cells: &[Cell]) -> Result<FieldValues, NoMemory>
    ensures field { IfOk result (λ made. field_of made ≡ field_value (map cell_in cells.now)) }
    ensures inside { (n : ℕ) → AreInside n (map cell_in cells.now) → IfOk result (λ made. (a : ℕ) → get_or made.objects.items a 0 < suc n) }
{
    let objects = objects_of(alloc, cells)?;
    let numbers = numbers_of(alloc, cells)?;
    let truths = truths_of(alloc, cells)?;
    let sets = sets_of(alloc, cells)?;
    Ok(FieldValues {
        objects,
        numbers,
        truths,
        sets,
    })
}
