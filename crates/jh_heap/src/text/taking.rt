ghost use Rattle.std.specs.Prelude.{◌≡◌, nat_lt, false, option_map, map, slice_get, IfOk, OnOk, IfSome};
ghost use Rattle.std.specs.List.{list_any};
ghost use Rattle.jh_store.specs.heaps.Cells.{cell_in};
ghost use Rattle.jh_heap.specs.lines.Lines as lines;
ghost use Rattle.jh_heap.specs.lines.Held.{value_in, line_in};
ghost use Rattle.jh_heap.specs.text.Drafts as drafts;
ghost use Rattle.jh_heap.specs.text.Rules as rules;
ghost use Rattle.jh_heap.specs.text.Reading as spec;
ghost use Rattle.jh_heap.specs.text.Held.{holder_in, outline_in, given_in, draft_in};

use crate::lines::{Line, Value};
use crate::text::draft::{Draft, first_draft};
use crate::text::outline::{Holder, Outline, class_place, holder_place};
use crate::text::rules::natural_in;
use jh_name::{Kind, NoMemory, Row};
use jh_store::heaps::Cell;
use std::alloc::Global;

/// Objects, none of which is beyond the greatest.
fn objects_in(alloc: Global, greatest: u8, objects: &[u64]) -> Result<Row<u32>, NoMemory>
    requires { list_any (nat_lt greatest) objects.now ≡ false }
    ensures { IfOk result (λ made. made ≡ objects.now) }
{
    let mut made = Vec::new(alloc);
    for object in objects.iter() {
        made.push(*object as u32)?;
    }
    Ok(Row::of(made))
}

/// A number as a value of a kind.
fn number_cell(alloc: Global, greatest: u8, kind: Kind, number: i64) -> Cell
    requires { rules.is_beyond greatest kind (lines.number number) ≡ false }
    ensures { cell_in result ≡ drafts.cell_of kind (lines.number number) }
{
    match kind {
        Kind::Obj => match natural_in(number) {
            None => Cell::Obj(0),
            Some(object) => Cell::Obj(object as u32),
        },
        Kind::Int => Cell::Int(number),
        Kind::Bool => Cell::Bool(false),
        Kind::Set => Cell::Set(Row::of(Vec::new(alloc))),
    }
}

/// A truth as a value of a kind.
fn truth_cell(alloc: Global, kind: Kind, truth: bool) -> Cell
    ensures { cell_in result ≡ drafts.cell_of kind (lines.truth_value truth) }
{
    match kind {
        Kind::Obj => Cell::Obj(0),
        Kind::Int => Cell::Int(0),
        Kind::Bool => Cell::Bool(truth),
        Kind::Set => Cell::Set(Row::of(Vec::new(alloc))),
    }
}

/// Objects as a value of a kind.
fn set_cell(alloc: Global, greatest: u8, kind: Kind, objects: &[u64]) -> Result<Cell, NoMemory>
    requires { list_any (nat_lt greatest) objects.now ≡ false }
    ensures { IfOk result (λ made. cell_in made ≡ drafts.cell_of kind (lines.objects objects.now)) }
{
    match kind {
        Kind::Obj => Ok(Cell::Obj(0)),
        Kind::Int => Ok(Cell::Int(0)),
        Kind::Bool => Ok(Cell::Bool(false)),
        Kind::Set => Ok(Cell::Set(objects_in(alloc, greatest, objects)?)),
    }
}

/// A value of a kind, of which no object is beyond the greatest.
fn cell_of(alloc: Global, greatest: u8, kind: Kind, value: &Value) -> Result<Cell, NoMemory>
    requires { rules.is_beyond greatest kind (value_in value.now) ≡ false }
    ensures { IfOk result (λ made. cell_in made ≡ drafts.cell_of kind (value_in value.now)) }
{
    match value {
        Value::Number(number) => Ok(number_cell(alloc, greatest, kind, *number)),
        Value::Truth(truth) => Ok(truth_cell(alloc, kind, *truth)),
        Value::Objects(objects) => set_cell(alloc, greatest, kind, objects.items()),
    }
}

/// Puts a value at the place of what has it.
#[tactic(auto, using(crate::proofs::text::Settings::given_set))]
fn put_cell(
    alloc: Global,
    greatest: u8,
    holder: Option<&Holder<'_>>,
    cells: &mut Vec<Option<Cell>>,
    place: usize,
    value: &Value,
) -> Result<(), NoMemory>
    requires { IfSome holder (λ x. rules.is_beyond greatest x.now.kind (value_in value.now) ≡ false) }
    ensures { OnOk result (given_in cells.new.items ≡ spec.put_cell (option_map (λ x. holder_in x.now) holder.entry) (given_in cells.old.items) place (value_in value.now)) }
{
    if let Some(holder) = holder {
        let cell = cell_of(alloc, greatest, holder.kind, value)?;
        if place < cells.len() {
            cells[place] = Some(cell);
        }
    }
    Ok(())
}

/// Puts the value of a field at an object.
fn put_field(
    alloc: Global,
    greatest: u8,
    holder: Option<&Holder<'_>>,
    fields: &mut Vec<Vec<Option<Cell>>>,
    place: usize,
    object: u64,
    value: &Value,
) -> Result<(), NoMemory>
    requires { IfSome holder (λ x. rules.is_beyond greatest x.now.kind (value_in value.now) ≡ false) }
    ensures { OnOk result (map (λ row. given_in row.items) fields.new.items ≡ spec.put_field (option_map (λ x. holder_in x.now) holder.entry) (map (λ row. given_in row.items) fields.old.items) place object (value_in value.now)) }
{
    if place < fields.len() {
        put_cell(
            alloc,
            greatest,
            holder,
            &mut fields[place],
            object as usize,
            value,
        )?;
    }
    Ok(())
}

/// Takes the objects of a class.
#[tactic(auto, using(crate::proofs::text::Rulings::class_inside))]
fn take_class(
    alloc: Global,
    outline: &Outline<'_>,
    draft: &mut Draft,
    place: usize,
    objects: &[u64],
) -> Result<(), NoMemory>
    requires { rules.class_rule (outline_in outline.now) (draft_in draft.old) place objects.now ≡ 0 }
    ensures { OnOk result (draft_in draft.new ≡ spec.with_class (draft_in draft.old) place objects.now) }
{
    let objects = objects_in(alloc, draft.greatest, objects)?;
    draft.stage = 1;
    if place < draft.classes.len() {
        draft.classes[place] = Some(objects);
    }
    Ok(())
}

/// Takes the value of a static.
#[tactic(auto, using(crate::proofs::text::Rulings::static_inside))]
fn take_static(
    alloc: Global,
    outline: &Outline<'_>,
    draft: &mut Draft,
    place: usize,
    value: &Value,
) -> Result<(), NoMemory>
    requires { rules.static_rule (outline_in outline.now) (draft_in draft.old) place (value_in value.now) ≡ 0 }
    ensures { OnOk result (draft_in draft.new ≡ spec.with_static (outline_in outline.now) (draft_in draft.old) place (value_in value.now)) }
{
    let greatest = draft.greatest;
    let holder = outline.statics.get(place);
    put_cell(alloc, greatest, holder, &mut draft.statics, place, value)?;
    draft.stage = 2;
    Ok(())
}

/// Takes the value of a field at an object.
#[tactic(auto, using(crate::proofs::text::Rulings::value_inside))]
fn take_field(
    alloc: Global,
    outline: &Outline<'_>,
    draft: &mut Draft,
    place: usize,
    object: u64,
    value: &Value,
) -> Result<(), NoMemory>
    requires { rules.value_rule (draft_in draft.old) (slice_get (outline_in outline.now).fields place) (value_in value.now) ≡ 0 }
    ensures { OnOk result (draft_in draft.new ≡ spec.with_field (outline_in outline.now) (draft_in draft.old) place object (value_in value.now)) }
{
    let greatest = draft.greatest;
    let holder = outline.fields.get(place);
    put_field(
        alloc,
        greatest,
        holder,
        &mut draft.fields,
        place,
        object,
        value,
    )?;
    draft.stage = 3;
    Ok(())
}

/// Takes `this`.
fn take_this(draft: &mut Draft, greatest: u8, object: u64)
    requires { nat_lt greatest object ≡ false }
    ensures { draft_in draft.new ≡ spec.with_this (draft_in draft.old) object }
{
    draft.this = Some(object as u32);
    draft.stage = 4;
}

/// Takes the value of a parameter.
#[tactic(auto, using(crate::proofs::text::Rulings::argument_inside))]
fn take_argument(
    alloc: Global,
    outline: &Outline<'_>,
    draft: &mut Draft,
    place: usize,
    value: &Value,
) -> Result<(), NoMemory>
    requires { rules.argument_rule (outline_in outline.now) (draft_in draft.old) place (value_in value.now) ≡ 0 }
    ensures { OnOk result (draft_in draft.new ≡ spec.with_argument (outline_in outline.now) (draft_in draft.old) place (value_in value.now)) }
{
    let greatest = draft.greatest;
    let holder = outline.params.get(place);
    put_cell(alloc, greatest, holder, &mut draft.arguments, place, value)?;
    draft.stage = 5;
    Ok(())
}

/// Takes what a line gives that breaks no rule.
#[tactic(auto, using(crate::proofs::text::Rulings::this_inside, crate::proofs::text::Rulings::field_value))]
pub(crate) fn take(
    alloc: Global,
    outline: &Outline<'_>,
    draft: &mut Draft,
    line: &Line<'_>,
) -> Result<(), NoMemory>
    requires { rules.rule_of (outline_in outline.now) (draft_in draft.old) (line_in line.now) ≡ 0 }
    ensures { OnOk result (draft_in draft.new ≡ spec.taken (outline_in outline.now) (draft_in draft.old) (line_in line.now)) }
{
    match line {
        Line::Universe(greatest) => {
            *draft = first_draft(alloc, outline, *greatest)?;
            Ok(())
        }
        Line::Class(class, objects) => {
            let place = class_place(&outline.classes, class);
            take_class(alloc, outline, draft, place, objects.items())
        }
        Line::Static(name, value) => {
            let place = holder_place(&outline.statics, name);
            take_static(alloc, outline, draft, place, value)
        }
        Line::Field(name, object, value) => {
            let place = holder_place(&outline.fields, name);
            take_field(alloc, outline, draft, place, *object, value)
        }
        Line::This(object) => {
            take_this(draft, draft.greatest, *object);
            Ok(())
        }
        Line::Argument(name, value) => {
            let place = holder_place(&outline.params, name);
            take_argument(alloc, outline, draft, place, value)
        }
    }
}
