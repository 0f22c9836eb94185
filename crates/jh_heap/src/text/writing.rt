ghost use Rattle.std.specs.Prelude.{◌≡◌, ◌++◌, map, OnOk, IfOk, string_bytes};
ghost use Rattle.jh_store.specs.heaps.Cells.{cell_in, heap_in};
ghost use Rattle.jh_semantics.specs.Heaps as h;
ghost use Rattle.jh_heap.specs.text.Writing as spec;
ghost use Rattle.jh_heap.specs.text.Held.{texts_in, holder_in, holders_in, outline_in};

use crate::text::outline::{Holder, Outline};
use jh_name::{NoMemory, Row};
use jh_store::heaps::{Cell, Heap};
use std::alloc::Global;

/// Adds objects, with a space before each.
fn add_objects_from(text: &mut String, objects: &[u32]) -> Result<(), NoMemory>
    ensures { OnOk result (string_bytes text.new ≡ string_bytes text.old ++ spec.objects_from objects.now) }
{
    for object in objects.iter() {
        write!(text, " {object}")?;
    }
    Ok(())
}

/// Adds objects, with a space between each two.
fn add_objects(text: &mut String, objects: &[u32]) -> Result<(), NoMemory>
    ensures { OnOk result (string_bytes text.new ≡ string_bytes text.old ++ spec.objects_text objects.now) }
{
    match objects {
        [] => Ok(()),
        [first, rest @ ..] => {
            write!(text, "{first}")?;
            add_objects_from(text, rest)
        }
    }
}

/// Adds a set.
fn add_set(text: &mut String, objects: &[u32]) -> Result<(), NoMemory>
    ensures { OnOk result (string_bytes text.new ≡ string_bytes text.old ++ spec.cell_text (h.set objects.now)) }
{
    text.push('{')?;
    add_objects(text, objects)?;
    text.push('}')?;
    Ok(())
}

/// Adds a value as a heap text has it.
pub fn add_cell(text: &mut String, cell: &Cell) -> Result<(), NoMemory>
    ensures { OnOk result (string_bytes text.new ≡ string_bytes text.old ++ spec.cell_text (cell_in cell.now)) }
{
    match cell {
        Cell::Obj(object) => write!(text, "{object}")?,
        Cell::Int(number) => write!(text, "{number}")?,
        Cell::Bool(truth) => text.push_str(if *truth { "true" } else { "false" })?,
        Cell::Set(objects) => add_set(text, objects.items())?,
    }
    Ok(())
}

/// Whether a value is the default of its kind.
fn is_default(cell: &Cell) -> bool
    ensures { result ≡ spec.is_default (cell_in cell.now) }
{
    match cell {
        Cell::Obj(object) => *object == 0,
        Cell::Int(number) => *number == 0,
        Cell::Bool(truth) => !*truth,
        Cell::Set(objects) => objects.items().is_empty(),
    }
}

/// Adds the line of a class, where it has objects.
fn add_class(text: &mut String, class: &str, objects: &[u32]) -> Result<(), NoMemory>
    ensures { OnOk result (string_bytes text.new ≡ string_bytes text.old ++ spec.class_text class.now objects.now) }
{
    if objects.is_empty() {
        return Ok(());
    }
    write!(text, "class {class} ")?;
    add_objects(text, objects)?;
    text.push('\n')?;
    Ok(())
}

/// Adds the lines of some classes.
#[tactic(auto, using(crate::proofs::text::Writings::classes_end))]
fn add_classes(text: &mut String, classes: &[&str], objects: &[Row<u32>]) -> Result<(), NoMemory>
    ensures { OnOk result (string_bytes text.new ≡ string_bytes text.old ++ spec.classes_text (texts_in classes.now) objects.now) }
{
    let count = classes.len().min(objects.len());
    for place in 0..count {
        add_class(text, classes[place], objects[place].items())?;
    }
    Ok(())
}

/// Adds the line of a static, where its value isn't the default.
fn add_static(text: &mut String, holder: Holder<'_>, cell: &Cell) -> Result<(), NoMemory>
    ensures { OnOk result (string_bytes text.new ≡ string_bytes text.old ++ spec.static_text (holder_in holder.entry) (cell_in cell.now)) }
{
    if is_default(cell) {
        return Ok(());
    }
    let name = holder.text;
    write!(text, "static {name} ")?;
    add_cell(text, cell)?;
    text.push('\n')?;
    Ok(())
}

/// Adds the lines of some statics.
#[tactic(auto, using(crate::proofs::text::Writings::statics_end))]
fn add_statics(text: &mut String, holders: &[Holder<'_>], cells: &[Cell]) -> Result<(), NoMemory>
    ensures { OnOk result (string_bytes text.new ≡ string_bytes text.old ++ spec.statics_text (holders_in holders.now) (map cell_in cells.now)) }
{
    let count = holders.len().min(cells.len());
    for place in 0..count {
        add_static(text, holders[place], &cells[place])?;
    }
    Ok(())
}

/// Adds the line of a field at an object, where its value isn't the default.
fn add_value(
    text: &mut String,
    holder: Holder<'_>,
    object: usize,
    cell: &Cell,
) -> Result<(), NoMemory>
    ensures { OnOk result (string_bytes text.new ≡ string_bytes text.old ++ spec.value_text (holder_in holder.entry) object (cell_in cell.now)) }
{
    if is_default(cell) {
        return Ok(());
    }
    let name = holder.text;
    write!(text, "field {name} {object} ")?;
    add_cell(text, cell)?;
    text.push('\n')?;
    Ok(())
}

/// Adds the lines of a field at all objects.
fn add_values(text: &mut String, holder: Holder<'_>, cells: &[Cell]) -> Result<(), NoMemory>
    ensures { OnOk result (string_bytes text.new ≡ string_bytes text.old ++ spec.values_text (holder_in holder.entry) 0 (map cell_in cells.now)) }
{
    for object in 0..cells.len() {
        add_value(text, holder, object, &cells[object])?;
    }
    Ok(())
}

/// Adds the lines of some fields.
#[tactic(auto, using(crate::proofs::text::Writings::fields_end))]
fn add_fields(
    text: &mut String,
    holders: &[Holder<'_>],
    fields: &[Row<Cell>],
) -> Result<(), NoMemory>
    ensures { OnOk result (string_bytes text.new ≡ string_bytes text.old ++ spec.fields_text (holders_in holders.now) (map (map cell_in) fields.now)) }
{
    let count = holders.len().min(fields.len());
    for place in 0..count {
        add_values(text, holders[place], fields[place].items())?;
    }
    Ok(())
}

/// The one text of a heap: what isn't written has its default.
pub fn write_heap(alloc: Global, outline: &Outline<'_>, heap: &Heap) -> Result<String, NoMemory>
    ensures { IfOk result (λ text. string_bytes text ≡ spec.heap_text (outline_in outline.now) (heap_in heap.now)) }
{
    let mut text = String::new(alloc);
    let greatest = heap.greatest;
    writeln!(&mut text, "universe {greatest}")?;
    add_classes(&mut text, &outline.classes, heap.classes.items())?;
    add_statics(&mut text, &outline.statics, heap.statics.items())?;
    add_fields(&mut text, &outline.fields, heap.fields.items())?;
    Ok(text)
}
