ghost use Rattle.std.specs.Prelude.{◌≡◌, ◌<◌, ℕ, List, Some, length, map, slice_get, IfOk, OnOk};
ghost use Rattle.jh_semantics.specs.Code.{Text};
ghost use Rattle.jh_semantics.specs.State.{named, stored};
ghost use Rattle.jh_semantics.specs.Program.{Program, Member};
ghost use Rattle.jh_semantics.specs.Heaps as runs;
ghost use Rattle.jh_semantics.specs.Heaps.{cell_value, with_statics, with_fields};
ghost use Rattle.jh_store.specs.heaps.Cells.{cell_in, heap_in};
ghost use Rattle.jh_store.specs.heaps.Inside.{IsInside, AreInside, HeapIsInside};
ghost use Rattle.jh_store.specs.memory.Held.{state_of};
ghost use Rattle.jh_heap_layout.specs.loading.Places.{ArePlaces, AllPlaces};
ghost use Rattle.jh_heap_layout.specs.loading.Steps.{put_one, static_put, field_put};

use crate::loading::fields::field_values;
use crate::loading::places::{Place, Places};
use crate::loading::sets::{put_all, put_classes, put_set};
use jh_name::{NoMemory, Row};
use jh_store::heaps::{Cell, Heap};
use jh_store::memory::{Memory, Names};
use std::alloc::Global;

/// A name gets a value.
fn put_cell(
    alloc: Global,
    memory: &mut Memory<'_>,
    number: usize,
    cell: &Cell,
) -> Result<(), NoMemory>
    requires number { number < length memory.old.names }
    requires inside { IsInside memory.old.last (cell_in cell.now) }
    ensures names { memory.new.names ≡ memory.old.names }
    ensures last { memory.new.last ≡ memory.old.last }
    ensures state { (text : Text) → slice_get memory.old.names number ≡ Some (named text) → OnOk result (state_of memory.new ≡ stored (state_of memory.old) text (cell_value (cell_in cell.now))) }
{
    match cell {
        Cell::Obj(object) => memory.put_object(number, *object),
        Cell::Int(value) => memory.put_number(number, *value),
        Cell::Bool(truth) => memory.put_truth(number, *truth),
        Cell::Set(objects) => return put_set(alloc, memory, number, objects.items()),
    }
    Ok(())
}

/// The static at a place gets its value, where there is one.
fn put_static(
    alloc: Global,
    memory: &mut Memory<'_>,
    places: &[Place],
    cells: &[Cell],
    place: usize,
) -> Result<(), NoMemory>
    requires places { (xs : List Member) × ArePlaces memory.old.names places.now xs }
    requires place { place < length places.now }
    requires inside { AreInside memory.old.last (map cell_in cells.now) }
    ensures names { memory.new.names ≡ memory.old.names }
    ensures last { memory.new.last ≡ memory.old.last }
    ensures state { (xs : List Member) → ArePlaces memory.old.names places.now xs → OnOk result (state_of memory.new ≡ put_one static_put xs (map cell_in cells.now) place (state_of memory.old)) }
{
    match cells.get(place) {
        None => Ok(()),
        Some(cell) => put_cell(alloc, memory, places[place].number, cell),
    }
}

/// The statics get their values, the last one first.
fn put_statics(
    alloc: Global,
    memory: &mut Memory<'_>,
    places: &[Place],
    cells: &[Cell],
) -> Result<(), NoMemory>
    requires places { (xs : List Member) × ArePlaces memory.old.names places.now xs }
    requires inside { AreInside memory.old.last (map cell_in cells.now) }
    ensures names { memory.new.names ≡ memory.old.names }
    ensures last { memory.new.last ≡ memory.old.last }
    ensures state { (xs : List Member) → ArePlaces memory.old.names places.now xs → OnOk result (state_of memory.new ≡ with_statics xs (map cell_in cells.now) (state_of memory.old)) }
{
    let count = places.len();
    for turn in 0..count {
        put_static(alloc, memory, places, cells, count - 1 - turn)?;
    }
    Ok(())
}

/// The field at a place gets its values, where there are some.
fn put_field(
    alloc: Global,
    memory: &mut Memory<'_>,
    places: &[Place],
    rows: &[Row<Cell>],
    place: usize,
) -> Result<(), NoMemory>
    requires places { (xs : List Member) × ArePlaces memory.old.names places.now xs }
    requires place { place < length places.now }
    requires inside { (i : ℕ) (cells : List runs.Cell) → slice_get (map (map cell_in) rows.now) i ≡ Some cells → AreInside memory.old.last cells }
    ensures names { memory.new.names ≡ memory.old.names }
    ensures last { memory.new.last ≡ memory.old.last }
    ensures state { (xs : List Member) → ArePlaces memory.old.names places.now xs → OnOk result (state_of memory.new ≡ put_one field_put xs (map (map cell_in) rows.now) place (state_of memory.old)) }
{
    match rows.get(place) {
        None => Ok(()),
        Some(row) => {
            let values = field_values(alloc, row.items())?;
            memory.put_field(places[place].number, values);
            Ok(())
        }
    }
}

/// The fields get their values, the last one first.
fn put_fields(
    alloc: Global,
    memory: &mut Memory<'_>,
    places: &[Place],
    rows: &[Row<Cell>],
) -> Result<(), NoMemory>
    requires places { (xs : List Member) × ArePlaces memory.old.names places.now xs }
    requires inside { (i : ℕ) (cells : List runs.Cell) → slice_get (map (map cell_in) rows.now) i ≡ Some cells → AreInside memory.old.last cells }
    ensures names { memory.new.names ≡ memory.old.names }
    ensures last { memory.new.last ≡ memory.old.last }
    ensures state { (xs : List Member) → ArePlaces memory.old.names places.now xs → OnOk result (state_of memory.new ≡ with_fields xs (map (map cell_in) rows.now) (state_of memory.old)) }
{
    let count = places.len();
    for turn in 0..count {
        put_field(alloc, memory, places, rows, count - 1 - turn)?;
    }
    Ok(())
}

/// The memory that a heap is, of names that have numbers already; `places` says where the memory has what the heap lists.
pub fn load<'a>(
    alloc: Global,
    names: &'a Names,
    places: &Places,
    heap: &Heap,
) -> Result<Memory<'a>, NoMemory>
    requires places { (p : Program) × AllPlaces names.now p places.now }
    requires inside { HeapIsInside (heap_in heap.now) }
    ensures names { IfOk result (λ made. made.names ≡ names.now) }
    ensures last { IfOk result (λ made. made.last ≡ heap.now.greatest) }
    ensures state { (p : Program) → AllPlaces names.now p places.now → IfOk result (λ made. state_of made ≡ runs.state_of p (heap_in heap.now)) }
{
    let mut memory = Memory::new(alloc, names, heap.greatest)?;
    put_all(alloc, &mut memory, places.all, heap.classes.items())?;
    put_classes(
        alloc,
        &mut memory,
        places.classes.as_slice(),
        heap.classes.items(),
    )?;
    put_statics(
        alloc,
        &mut memory,
        places.statics.as_slice(),
        heap.statics.items(),
    )?;
    put_fields(
        alloc,
        &mut memory,
        places.fields.as_slice(),
        heap.fields.items(),
    )?;
    Ok(memory)
}
