ghost use Rattle.std.specs.Prelude.{◌≡◌, nat_lt, not, false, option_map, map, slice_get};
ghost use Rattle.std.specs.List.{list_any};
ghost use Rattle.jh_semantics.specs.Heaps.{is_in as is_in_list};
ghost use Rattle.jh_heap.specs.lines.Held.{value_in, line_in};
ghost use Rattle.std.specs.Option.{option_map_or};
ghost use Rattle.jh_heap.specs.text.Drafts as drafts;
ghost use Rattle.jh_heap.specs.text.Rules as spec;
ghost use Rattle.jh_heap.specs.text.Held.{holder_in, outline_in, given_in, draft_in};

use crate::lines::{Line, Value};
use crate::text::draft::Draft;
use crate::text::outline::{Holder, Outline, class_place, holder_place};
use jh_name::{Kind, Row};
use jh_rules::Ty;
use jh_store::heaps::Cell;

/// Whether a list has an object.
fn is_in(objects: &[u32], object: u64) -> bool
    ensures { result ≡ is_in_list object objects.now }
{
    objects.iter().any(|one| u64::from(*one) == object)
}

/// Whether what was given of a class has an object.
fn has_object(given: &Option<Row<u32>>, object: u64) -> bool
    ensures { result ≡ spec.has_object object given.now }
{
    match given {
        None => false,
        Some(objects) => is_in(objects.items(), object),
    }
}

/// Whether an object is of the class at a place.
fn is_of(classes: &[Option<Row<u32>>], place: usize, object: u64) -> bool
    ensures { result ≡ spec.is_of classes.now place object }
{
    match classes.get(place) {
        None => false,
        Some(given) => has_object(given, object),
    }
}

/// Whether an object is of some class.
fn is_of_some(classes: &[Option<Row<u32>>], object: u64) -> bool
    ensures { result ≡ spec.is_of_some classes.now object }
{
    classes.iter().any(|given| has_object(given, object))
}

/// Whether an object is of a class that isn't at a place.
fn is_elsewhere(classes: &[Option<Row<u32>>], place: usize, object: u64) -> bool
    ensures { result ≡ spec.is_elsewhere classes.now place object }
{
    if place < classes.len() {
        is_of_some(&classes[..place], object) || is_of_some(&classes[place + 1..], object)
    } else {
        is_of_some(classes, object)
    }
}

/// Whether an object lies in a type.
fn lies_in(draft: &Draft, ty: Ty, object: u64) -> bool
    ensures { result ≡ spec.lies_in (draft_in draft.now) ty object }
{
    match ty {
        Ty::Class(number) => object == 0 || is_of(&draft.classes, number, object),
        Ty::Object => object == 0 || is_of_some(&draft.classes, object),
        Ty::Int => true,
        Ty::Boolean => true,
        Ty::Void => true,
        Ty::Null => true,
    }
}

/// The object that a number is, where it isn't negative.
pub(crate) fn natural_in(number: i64) -> Option<u64>
    ensures { result ≡ drafts.natural_in number }
{
    if number < 0 {
        None
    } else {
        Some(number as u64)
    }
}

/// Whether a value has a kind.
fn fits(kind: Kind, value: &Value) -> bool
    ensures { result ≡ spec.fits kind (value_in value.now) }
{
    match value {
        Value::Number(number) => match kind {
            Kind::Obj => natural_in(*number).is_some(),
            Kind::Int => true,
            Kind::Bool => false,
            Kind::Set => false,
        },
        Value::Truth(_) => match kind {
            Kind::Bool => true,
            Kind::Obj => false,
            Kind::Int => false,
            Kind::Set => false,
        },
        Value::Objects(_) => match kind {
            Kind::Set => true,
            Kind::Obj => false,
            Kind::Int => false,
            Kind::Bool => false,
        },
    }
}

/// Whether the values of a kind are objects.
fn is_obj(kind: Kind) -> bool
    ensures { result ≡ spec.is_obj kind }
{
    match kind {
        Kind::Obj => true,
        Kind::Int => false,
        Kind::Bool => false,
        Kind::Set => false,
    }
}

/// Whether some object is beyond the greatest.
fn some_beyond(greatest: u8, objects: &[u64]) -> bool
    ensures { result ≡ list_any (nat_lt greatest) objects.now }
{
    objects.iter().any(|object| u64::from(greatest) < *object)
}

/// Whether a number is an object beyond the greatest.
fn number_beyond(greatest: u8, number: i64) -> bool
    ensures { result ≡ option_map_or (nat_lt greatest) (drafts.natural_in number) false }
{
    match natural_in(number) {
        None => false,
        Some(object) => u64::from(greatest) < object,
    }
}

/// Whether a number is an object outside a type.
fn number_strays(draft: &Draft, ty: Ty, number: i64) -> bool
    ensures { result ≡ option_map_or (λ a. not (spec.lies_in (draft_in draft.now) ty a)) (drafts.natural_in number) false }
{
    match natural_in(number) {
        None => false,
        Some(object) => !lies_in(draft, ty, object),
    }
}

/// Whether an object of a value is beyond the greatest.
fn is_beyond(greatest: u8, kind: Kind, value: &Value) -> bool
    ensures { result ≡ spec.is_beyond greatest kind (value_in value.now) }
{
    match value {
        Value::Number(number) => is_obj(kind) && number_beyond(greatest, *number),
        Value::Truth(_) => false,
        Value::Objects(objects) => some_beyond(greatest, objects.items()),
    }
}

/// Whether a value is an object outside its type.
fn strays(draft: &Draft, ty: Option<Ty>, value: &Value) -> bool
    ensures { result ≡ spec.strays (draft_in draft.now) ty (value_in value.now) }
{
    match value {
        Value::Number(number) => match ty {
            None => false,
            Some(ty) => number_strays(draft, ty, *number),
        },
        Value::Truth(_) => false,
        Value::Objects(_) => false,
    }
}

/// The rule that a value breaks, or 0.
fn value_rule(draft: &Draft, holder: Option<&Holder<'_>>, value: &Value) -> u8
    ensures { result ≡ spec.value_rule (draft_in draft.now) (option_map (λ x. holder_in x.now) holder.entry) (value_in value.now) }
{
    match holder {
        None => {
            if is_beyond(draft.greatest, Kind::Set, value) {
                1
            } else {
                3
            }
        }
        Some(holder) => {
            if is_beyond(draft.greatest, holder.kind, value) {
                1
            } else if !fits(holder.kind, value) {
                4
            } else if strays(draft, holder.ty, value) {
                5
            } else {
                0
            }
        }
    }
}

/// The lesser one of two rules, of which 0 is none.
fn least(one: u8, other: u8) -> u8
    ensures { result ≡ spec.least one other }
{
    if one == 0 {
        other
    } else if other == 0 {
        one
    } else if one < other {
        one
    } else {
        other
    }
}

/// A rule where it is broken, and 0 where it isn't.
fn broken(test: bool, rule: u8) -> u8
    ensures { result ≡ spec.broken test rule }
{
    if test { rule } else { 0 }
}

/// Whether something was given of the class at a place.
fn is_class_given(given: &[Option<Row<u32>>], place: usize) -> bool
    ensures { result ≡ spec.is_given given.now place }
{
    match given.get(place) {
        None => false,
        Some(found) => found.is_some(),
    }
}

/// Whether an object can't be one of a class.
fn is_no_object(greatest: u8, object: u64) -> bool
    ensures { result ≡ spec.is_no_object greatest object }
{
    object == 0 || u64::from(greatest) < object
}

/// Whether some object can't be one of a class.
fn some_is_no_object(greatest: u8, objects: &[u64]) -> bool
    ensures { result ≡ list_any (spec.is_no_object greatest) objects.now }
{
    objects.iter().any(|object| is_no_object(greatest, *object))
}

/// Whether some object is of a class other than that at a place.
fn some_is_elsewhere(classes: &[Option<Row<u32>>], place: usize, objects: &[u64]) -> bool
    ensures { result ≡ list_any (spec.is_elsewhere classes.now place) objects.now }
{
    objects
        .iter()
        .any(|object| is_elsewhere(classes, place, *object))
}

/// Whether a value was given at a place.
fn is_cell_given(given: &[Option<Cell>], place: usize) -> bool
    ensures { result ≡ spec.is_given (given_in given.now) place }
{
    match given.get(place) {
        None => false,
        Some(found) => found.is_some(),
    }
}

fn class_rule(outline: &Outline<'_>, draft: &Draft, place: usize, objects: &[u64]) -> u8
    ensures { result ≡ spec.class_rule (outline_in outline.now) (draft_in draft.now) place objects.now }
{
    if some_is_no_object(draft.greatest, objects) {
        return 1;
    }
    if some_is_elsewhere(&draft.classes, place, objects) {
        return 2;
    }
    if place == outline.classes.len() {
        return 3;
    }
    broken(is_class_given(&draft.classes, place), 7)
}

fn static_rule(outline: &Outline<'_>, draft: &Draft, place: usize, value: &Value) -> u8
    ensures { result ≡ spec.static_rule (outline_in outline.now) (draft_in draft.now) place (value_in value.now) }
{
    let rule = value_rule(draft, outline.statics.get(place), value);
    least(rule, broken(is_cell_given(&draft.statics, place), 7))
}

/// Whether a field has a value at an object.
fn has_field(outline: &Outline<'_>, draft: &Draft, holder: Option<&Holder<'_>>, object: u64) -> bool
    ensures { result ≡ spec.has_field (outline_in outline.now) (draft_in draft.now) (option_map (λ x. holder_in x.now) holder.entry) object }
{
    match holder {
        None => false,
        Some(holder) => {
            let place = class_place(&outline.classes, holder.class.as_bytes());
            is_of(&draft.classes, place, object)
        }
    }
}

/// Whether a field was given at an object.
fn is_field_given(fields: &[Vec<Option<Cell>>], place: usize, object: u64) -> bool
    ensures { result ≡ spec.is_field_given (map (λ row. given_in row.items) fields.now) place object }
{
    match fields.get(place) {
        None => false,
        Some(row) => object < row.len() as u64 && is_cell_given(row.as_slice(), object as usize),
    }
}

/// Whether the field at a place has a value at an object.
fn has_field_at(outline: &Outline<'_>, draft: &Draft, place: usize, object: u64) -> bool
    ensures { result ≡ spec.has_field (outline_in outline.now) (draft_in draft.now) (slice_get (outline_in outline.now).fields place) object }
{
    has_field(outline, draft, outline.fields.get(place), object)
}

/// The rule that a value of the field at a place breaks, or 0.
fn field_value_rule(outline: &Outline<'_>, draft: &Draft, place: usize, value: &Value) -> u8
    ensures { result ≡ spec.value_rule (draft_in draft.now) (slice_get (outline_in outline.now).fields place) (value_in value.now) }
{
    value_rule(draft, outline.fields.get(place), value)
}

/// The rule that a field at an object breaks, or 0, whatever its value.
fn field_place_rule(outline: &Outline<'_>, draft: &Draft, place: usize, object: u64) -> u8
    ensures { result ≡ spec.field_place_rule (outline_in outline.now) (draft_in draft.now) place object }
{
    let lies = has_field_at(outline, draft, place, object);
    let given = is_field_given(&draft.fields, place, object);
    least(broken(!lies, 6), broken(given, 7))
}

/// Whether an object is beyond the greatest.
fn is_past(greatest: u8, object: u64) -> bool
    ensures { result ≡ nat_lt greatest object }
{
    u64::from(greatest) < object
}

fn field_rule(outline: &Outline<'_>, draft: &Draft, place: usize, object: u64, value: &Value) -> u8
    ensures { result ≡ spec.field_rule (outline_in outline.now) (draft_in draft.now) place object (value_in value.now) }
{
    let of_place = field_place_rule(outline, draft, place, object);
    let of_value = field_value_rule(outline, draft, place, value);
    let past = broken(is_past(draft.greatest, object), 1);
    least(past, least(of_value, of_place))
}

/// Whether an object may be `this`.
fn may_be_this(outline: &Outline<'_>, draft: &Draft, object: u64) -> bool
    ensures { result ≡ spec.may_be_this (outline_in outline.now) (draft_in draft.now) object }
{
    match outline.this {
        None => false,
        Some(class) => is_of(&draft.classes, class, object),
    }
}

fn this_rule(outline: &Outline<'_>, draft: &Draft, object: u64) -> u8
    ensures { result ≡ spec.this_rule (outline_in outline.now) (draft_in draft.now) object }
{
    let may = may_be_this(outline, draft, object);
    least(
        broken(u64::from(draft.greatest) < object, 1),
        least(broken(draft.this.is_some(), 7), broken(!may, 8)),
    )
}

fn argument_rule(outline: &Outline<'_>, draft: &Draft, place: usize, value: &Value) -> u8
    ensures { result ≡ spec.argument_rule (outline_in outline.now) (draft_in draft.now) place (value_in value.now) }
{
    let rule = value_rule(draft, outline.params.get(place), value);
    least(rule, broken(is_cell_given(&draft.arguments, place), 7))
}

/// The least rule that a line breaks, or 0.
pub(crate) fn rule_of(outline: &Outline<'_>, draft: &Draft, line: &Line<'_>) -> u8
    ensures { result ≡ spec.rule_of (outline_in outline.now) (draft_in draft.now) (line_in line.now) }
{
    match line {
        Line::Universe(_) => 0,
        Line::Class(class, objects) => class_rule(
            outline,
            draft,
            class_place(&outline.classes, class),
            objects.items(),
        ),
        Line::Static(name, value) => {
            static_rule(outline, draft, holder_place(&outline.statics, name), value)
        }
        Line::Field(name, object, value) => field_rule(
            outline,
            draft,
            holder_place(&outline.fields, name),
            *object,
            value,
        ),
        Line::This(object) => this_rule(outline, draft, *object),
        Line::Argument(name, value) => {
            argument_rule(outline, draft, holder_place(&outline.params, name), value)
        }
    }
}
