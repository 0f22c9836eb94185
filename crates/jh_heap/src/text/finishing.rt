ghost use Rattle.std.specs.Prelude.{◌≡◌, ◌++◌, map, option_map, slice_get, IfOk, OnOk};
ghost use Rattle.std.specs.List.{list_any};
ghost use Rattle.std.specs.Option.{is_none};
ghost use Rattle.jh_store.specs.heaps.Cells.{cell_in, heap_in, args_in};
ghost use Rattle.jh_heap.specs.text.Drafts as drafts;
ghost use Rattle.jh_heap.specs.text.Reading as spec;
ghost use Rattle.jh_heap.specs.text.Held.{holder_in, holders_in, outline_in, given_in, draft_in};

use crate::text::draft::Draft;
use crate::text::outline::{Holder, Outline};
use jh_name::{Kind, NoMemory, Row};
use jh_store::heaps::{Args, Cell, Heap};
use std::alloc::Global;

/// The default of a kind.
fn default_cell(alloc: Global, kind: Kind) -> Cell
    ensures { cell_in result ≡ drafts.default_cell kind }
{
    match kind {
        Kind::Obj => Cell::Obj(0),
        Kind::Int => Cell::Int(0),
        Kind::Bool => Cell::Bool(false),
        Kind::Set => Cell::Set(Row::of(Vec::new(alloc))),
    }
}

/// A value, or the default of a kind.
fn cell_or(alloc: Global, kind: Kind, given: Option<Cell>) -> Cell
    ensures { cell_in result ≡ spec.cell_or_default kind (option_map cell_in given) }
{
    match given {
        None => default_cell(alloc, kind),
        Some(cell) => cell,
    }
}

/// What has a place, where something has it.
fn holder_at<'a>(holders: &[Holder<'a>], place: usize) -> Option<Holder<'a>>
    ensures { option_map holder_in result ≡ slice_get (holders_in holders.now) place }
{
    match holders.get(place) {
        None => None,
        Some(holder) => Some(*holder),
    }
}

/// Adds the value of what has the place, where something has it.
fn push_cell(
    alloc: Global,
    made: &mut Vec<Cell>,
    holders: &[Holder<'_>],
    place: usize,
    given: Option<Cell>,
) -> Result<(), NoMemory>
    ensures { OnOk result (map cell_in made.new.items ≡ map cell_in made.old.items ++ spec.cell_at (holders_in holders.now) place (option_map cell_in given)) }
{
    match holder_at(holders, place) {
        None => Ok(()),
        Some(holder) => {
            made.push(cell_or(alloc, holder.kind, given))?;
            Ok(())
        }
    }
}

/// A value for each of what can have one.
fn cells_or(
    alloc: Global,
    holders: &[Holder<'_>],
    given: Vec<Option<Cell>>,
) -> Result<Row<Cell>, NoMemory>
    ensures { IfOk result (λ made. map cell_in made ≡ spec.cells_or (holders_in holders.now) (given_in given.items)) }
{
    let mut made = Vec::new(alloc);
    let mut place = 0;
    for cell in given {
        push_cell(alloc, &mut made, holders, place, cell)?;
        place += 1;
    }
    Ok(Row::of(made))
}

/// The values of a field at all objects.
fn row_or(alloc: Global, kind: Kind, given: Vec<Option<Cell>>) -> Result<Row<Cell>, NoMemory>
    ensures { IfOk result (λ made. map cell_in made ≡ map (spec.cell_or_default kind) (given_in given.items)) }
{
    let mut made = Vec::new(alloc);
    for cell in given {
        made.push(cell_or(alloc, kind, cell))?;
    }
    Ok(Row::of(made))
}

/// Adds the values of the field at the place, where there is one.
fn push_row(
    alloc: Global,
    made: &mut Vec<Row<Cell>>,
    holders: &[Holder<'_>],
    place: usize,
    given: Vec<Option<Cell>>,
) -> Result<(), NoMemory>
    ensures { OnOk result (map (map cell_in) made.new.items ≡ map (map cell_in) made.old.items ++ spec.row_at (holders_in holders.now) place (given_in given.items)) }
{
    match holder_at(holders, place) {
        None => Ok(()),
        Some(holder) => {
            let row = row_or(alloc, holder.kind, given)?;
            made.push(row)?;
            Ok(())
        }
    }
}

/// The values of all fields at all objects.
fn rows_or(
    alloc: Global,
    holders: &[Holder<'_>],
    given: Vec<Vec<Option<Cell>>>,
) -> Result<Row<Row<Cell>>, NoMemory>
    ensures { IfOk result (λ made. map (map cell_in) made ≡ spec.rows_or (holders_in holders.now) (map (λ row. given_in row.items) given.items)) }
{
    let mut made = Vec::new(alloc);
    let mut place = 0;
    for row in given {
        push_row(alloc, &mut made, holders, place, row)?;
        place += 1;
    }
    Ok(Row::of(made))
}

/// The objects of a class, of which none may have been given.
fn objects_or(alloc: Global, given: Option<Row<u32>>) -> Row<u32>
    ensures { result ≡ spec.objects_or given }
{
    match given {
        None => Row::of(Vec::new(alloc)),
        Some(objects) => objects,
    }
}

/// The objects of all classes.
fn classes_or(alloc: Global, given: Vec<Option<Row<u32>>>) -> Result<Row<Row<u32>>, NoMemory>
    ensures { IfOk result (λ made. made ≡ map spec.objects_or given.items) }
{
    let mut made = Vec::new(alloc);
    for objects in given {
        made.push(objects_or(alloc, objects))?;
    }
    Ok(Row::of(made))
}

/// Whether a value is missing.
fn is_missing(given: &Option<Cell>) -> bool
    ensures { result ≡ is_none given.now }
{
    given.is_none()
}

/// Whether some value is missing, as they stand in memory.
fn any_is_missing(given: &[Option<Cell>]) -> bool
    ensures { result ≡ list_any is_none given.now }
{
    given.iter().any(|cell| is_missing(cell))
}

/// Whether some value is missing.
fn some_missing(given: &[Option<Cell>]) -> bool
    ensures { result ≡ list_any is_none (given_in given.now) }
{
    any_is_missing(given)
}

/// Whether `this` or an argument is missing.
pub(crate) fn is_lacking(outline: &Outline<'_>, draft: &Draft) -> bool
    ensures { result ≡ spec.is_lacking (outline_in outline.now) (draft_in draft.now) }
{
    (outline.this.is_some() && draft.this.is_none()) || some_missing(&draft.arguments)
}

/// The heap and the arguments that all lines gave.
pub(crate) fn finished(
    alloc: Global,
    outline: &Outline<'_>,
    draft: Draft,
) -> Result<(Heap, Args), NoMemory>
    ensures heap { IfOk result (λ made. heap_in made.0 ≡ spec.heap_of (outline_in outline.now) (draft_in draft)) }
    ensures args { IfOk result (λ made. args_in made.1 ≡ spec.args_of (outline_in outline.now) (draft_in draft)) }
{
    let Draft {
        greatest,
        stage: _stage,
        classes,
        statics,
        fields,
        this,
        arguments,
    } = draft;
    let classes = classes_or(alloc, classes)?;
    let statics = cells_or(alloc, &outline.statics, statics)?;
    let fields = rows_or(alloc, &outline.fields, fields)?;
    let values = cells_or(alloc, &outline.params, arguments)?;
    let greatest = u32::from(greatest);
    Ok((
        Heap {
            greatest,
            classes,
            statics,
            fields,
        },
        Args { this, values },
    ))
}
