ghost use Rattle.std.specs.Prelude.{◌≡◌, ◌<◌, ℕ, suc, List, Some, filter, length, map, slice_get, IfOk};
ghost use Rattle.jh_name.specs.declared.naming.Name.{Name};
ghost use Rattle.jh_semantics.specs.Code.{Text};
ghost use Rattle.jh_semantics.specs.State.{named};
ghost use Rattle.jh_semantics.specs.Program.{Program, Member};
ghost use Rattle.jh_semantics.specs.Objects.{below};
ghost use Rattle.jh_semantics.specs.Heaps as runs;
ghost use Rattle.jh_store.specs.heaps.Cells.{cell_in, heap_in};
ghost use Rattle.jh_store.specs.memory.Held.{state_of, IsNamed};
ghost use Rattle.jh_heap_layout.specs.loading.Places.{AreNumbers, IsPlace, ArePlaces, AllPlaces};

use crate::loading::places::{Place, Places};
use jh_name::{Kind, NoMemory, Row};
use jh_store::heaps::{Cell, Heap};
use jh_store::memory::Memory;
use std::alloc::Global;

/// The objects from 0 to the greatest.
fn objects_to(alloc: Global, last: u32) -> Result<Vec<u32>, NoMemory>
    ensures { IfOk result (λ made. made.items ≡ below (suc last)) }
{
    let mut made = Vec::new(alloc);
    for object in 0..=last {
        made.push(object)?;
    }
    Ok(made)
}

/// Those among objects that the set of a name has.
fn members(
    alloc: Global,
    memory: &Memory<'_>,
    objects: &[u32],
    number: usize,
) -> Result<Row<u32>, NoMemory>
    requires { number < length memory.now.names }
    ensures { (x : Name) → IsNamed memory.now number x → IfOk result (λ made. made ≡ filter ((state_of memory.now).set x) objects.now) }
{
    let mut made = Vec::new(alloc);
    for object in objects {
        if memory.has(number, *object) {
            made.push(*object)?;
        }
    }
    Ok(Row::of(made))
}

/// Those among objects that the set of a field has at an object.
fn members_at(
    alloc: Global,
    memory: &Memory<'_>,
    objects: &[u32],
    number: usize,
    at: u32,
) -> Result<Row<u32>, NoMemory>
    requires { number < length memory.now.names }
    ensures { (x : Name) → IsNamed memory.now number x → IfOk result (λ made. made ≡ filter (((state_of memory.now).field x).sets at) objects.now) }
{
    let mut made = Vec::new(alloc);
    for object in objects {
        if memory.has_at(number, at, *object) {
            made.push(*object)?;
        }
    }
    Ok(Row::of(made))
}

/// The objects of each class.
fn classes(
    alloc: Global,
    memory: &Memory<'_>,
    objects: &[u32],
    numbers: &[usize],
) -> Result<Row<Row<u32>>, NoMemory>
    requires { (cs : List Text) × AreNumbers memory.now.names numbers.now cs }
    ensures { (cs : List Text) → AreNumbers memory.now.names numbers.now cs → IfOk result (λ made. made ≡ map (λ c. filter ((state_of memory.now).set (named c)) objects.now) cs) }
{
    let mut made = Vec::new(alloc);
    for place in 0..numbers.len() {
        let row = members(alloc, memory, objects, numbers[place])?;
        made.push(row)?;
    }
    Ok(Row::of(made))
}

/// The value of a static; `objects` are all of the memory.
fn static_cell(
    alloc: Global,
    memory: &Memory<'_>,
    objects: &[u32],
    place: Place,
) -> Result<Cell, NoMemory>
    requires number { place.number < length memory.now.names }
    requires objects { objects.now ≡ below (suc memory.now.last) }
    ensures { (x : Member) → IsPlace memory.now.names place x → IfOk result (λ made. cell_in made ≡ runs.static_cell (state_of memory.now) x) }
{
    match place.kind {
        Kind::Obj => Ok(Cell::Obj(memory.object(place.number))),
        Kind::Int => Ok(Cell::Int(memory.number(place.number))),
        Kind::Bool => Ok(Cell::Bool(memory.truth(place.number))),
        Kind::Set => {
            let row = members(alloc, memory, objects, place.number)?;
            Ok(Cell::Set(row))
        }
    }
}

/// The values of the statics.
fn statics(
    alloc: Global,
    memory: &Memory<'_>,
    objects: &[u32],
    places: &[Place],
) -> Result<Row<Cell>, NoMemory>
    requires places { (xs : List Member) × ArePlaces memory.now.names places.now xs }
    requires objects { objects.now ≡ below (suc memory.now.last) }
    ensures { (xs : List Member) → ArePlaces memory.now.names places.now xs → IfOk result (λ made. map cell_in made ≡ map (runs.static_cell (state_of memory.now)) xs) }
{
    let mut made = Vec::new(alloc);
    for place in 0..places.len() {
        let cell = static_cell(alloc, memory, objects, places[place])?;
        made.push(cell)?;
    }
    Ok(Row::of(made))
}

/// The value of a field at an object.
fn field_cell(
    alloc: Global,
    memory: &Memory<'_>,
    objects: &[u32],
    place: Place,
    at: u32,
) -> Result<Cell, NoMemory>
    requires number { place.number < length memory.now.names }
    requires objects { objects.now ≡ below (suc memory.now.last) }
    ensures { (x : Member) → IsPlace memory.now.names place x → IfOk result (λ made. cell_in made ≡ runs.field_cell (state_of memory.now) x at) }
{
    match place.kind {
        Kind::Obj => Ok(Cell::Obj(memory.object_at(place.number, at))),
        Kind::Int => Ok(Cell::Int(memory.number_at(place.number, at))),
        Kind::Bool => Ok(Cell::Bool(memory.truth_at(place.number, at))),
        Kind::Set => {
            let row = members_at(alloc, memory, objects, place.number, at)?;
            Ok(Cell::Set(row))
        }
    }
}

/// The values of a field at all objects.
fn field_cells(
    alloc: Global,
    memory: &Memory<'_>,
    objects: &[u32],
    place: Place,
) -> Result<Row<Cell>, NoMemory>
    requires number { place.number < length memory.now.names }
    requires objects { objects.now ≡ below (suc memory.now.last) }
    ensures { (x : Member) → IsPlace memory.now.names place x → IfOk result (λ made. map cell_in made ≡ map (runs.field_cell (state_of memory.now) x) objects.now) }
{
    let mut made = Vec::new(alloc);
    for at in objects {
        let cell = field_cell(alloc, memory, objects, place, *at)?;
        made.push(cell)?;
    }
    Ok(Row::of(made))
}

/// The values of the fields.
fn fields(
    alloc: Global,
    memory: &Memory<'_>,
    objects: &[u32],
    places: &[Place],
) -> Result<Row<Row<Cell>>, NoMemory>
    requires places { (xs : List Member) × ArePlaces memory.now.names places.now xs }
    requires objects { objects.now ≡ below (suc memory.now.last) }
    ensures { (xs : List Member) → ArePlaces memory.now.names places.now xs → IfOk result (λ made. map (map cell_in) made ≡ map (λ x. map (runs.field_cell (state_of memory.now) x) objects.now) xs) }
{
    let mut made = Vec::new(alloc);
    for place in 0..places.len() {
        let cells = field_cells(alloc, memory, objects, places[place])?;
        made.push(cells)?;
    }
    Ok(Row::of(made))
}

/// The heap that a memory holds.
pub fn unload(alloc: Global, memory: &Memory<'_>, places: &Places) -> Result<Heap, NoMemory>
    requires { (p : Program) × AllPlaces memory.now.names p places.now }
    ensures { (p : Program) → AllPlaces memory.now.names p places.now → IfOk result (λ made. heap_in made ≡ runs.heap_of p (state_of memory.now)) }
{
    let objects = objects_to(alloc, memory.last())?;
    let objects = objects.as_slice();
    let classes = classes(alloc, memory, objects, places.classes.as_slice())?;
    let statics = statics(alloc, memory, objects, places.statics.as_slice())?;
    let fields = fields(alloc, memory, objects, places.fields.as_slice())?;
    Ok(Heap {
        greatest: memory.last(),
        classes,
        statics,
        fields,
    })
}
