ghost use Rattle.std.specs.Prelude.{◌≡◌, IfOk, Some, slice_get};
ghost use Rattle.jh_form.specs.Tree.{of_object, of_number, of_set, of_field, of_truth};
ghost use Rattle.jh_form.specs.Tree as t;
ghost use Rattle.jh_arena.specs.table.Growth.{Extends};
ghost use Rattle.jh_arena.specs.table.Nodes.{nodes};
ghost use Rattle.jh_state_facts.specs.schemas.Meant as meant;

use crate::schemas::schema::{Named, NumberSchema, ObjectSchema, Schema, SetSchema, Slot, Slots};
use jh_arena::table::{Shape, Table};
use jh_name::{NoMemory, name};

/// The name in a slot.
fn named_in<'a>(slots: &Slots<'a>, slot: Slot) -> Named<'a>
    ensures { meant.name_in result ≡ meant.name_of (meant.names_in slots.now) slot }
{
    match slot {
        Slot::First => slots.first,
        Slot::Second => slots.second,
        Slot::Third => slots.third,
    }
}

/// The number of a name in the table's pool of names.
fn number_of(table: &mut Table, named: Named<'_>) -> Result<usize, NoMemory>
    ensures number { IfOk result (λ number. slice_get table.new.pools.names number ≡ Some (meant.name_in named.entry)) }
    ensures grows { Extends table.old table.new }
{
    let made = name(table.alloc(), named.text, named.turn)?;
    table.name(&made)
}

/// The number of the name in a slot, in the table's pool of names.
fn number_in(table: &mut Table, slots: &Slots<'_>, slot: Slot) -> Result<usize, NoMemory>
    ensures number { IfOk result (λ number. slice_get table.new.pools.names number ≡ Some (meant.name_of (meant.names_in slots.now) slot)) }
    ensures grows { Extends table.old table.new }
{
    number_of(table, named_in(slots, slot))
}

/// The node of the field of the name in a slot.
#[tactic(auto, using(crate::proofs::schemas::SchemaSteps::field_steps, jh_arena::proofs::table::Listed::growth_steps))]
fn field(table: &mut Table, slots: &Slots<'_>, slot: Slot) -> Result<usize, NoMemory>
    ensures node { IfOk result (λ made. slice_get (nodes table.new) made ≡ Some (of_field (t.free_field (meant.name_of (meant.names_in slots.now) slot)))) }
    ensures grows { Extends table.old table.new }
{
    let number = number_in(table, slots, slot)?;
    table.make(Shape::FreeField(number))
}

/// The node of a term for an object.
#[tactic(auto, using(crate::proofs::schemas::SchemaSteps::object_steps))]
fn object(table: &mut Table, slots: &Slots<'_>, schema: ObjectSchema) -> Result<usize, NoMemory>
    ensures node { IfOk result (λ made. slice_get (nodes table.new) made ≡ Some (of_object (meant.object_of (meant.names_in slots.now) schema))) }
    ensures grows { Extends table.old table.new }
{
    match schema {
        ObjectSchema::Variable => table.make(Shape::Bound(0)),
        ObjectSchema::Null => table.make(Shape::Null),
        ObjectSchema::Name(slot) => {
            let number = number_in(table, slots, slot)?;
            table.make(Shape::FreeObject(number))
        }
        ObjectSchema::Read(slot) => {
            let field = field(table, slots, slot)?;
            let variable = table.make(Shape::Bound(0))?;
            table.make(Shape::ReadObject(field, variable))
        }
    }
}

/// The node of a term for a number.
#[tactic(auto, using(crate::proofs::schemas::SchemaSteps::number_steps))]
fn number(table: &mut Table, slots: &Slots<'_>, schema: NumberSchema) -> Result<usize, NoMemory>
    ensures node { IfOk result (λ made. slice_get (nodes table.new) made ≡ Some (of_number (meant.number_of (meant.names_in slots.now) schema))) }
    ensures grows { Extends table.old table.new }
{
    match schema {
        NumberSchema::Zero => table.make(Shape::Const(0)),
        NumberSchema::Name(slot) => {
            let number = number_in(table, slots, slot)?;
            table.make(Shape::FreeNumber(number))
        }
        NumberSchema::Read(slot) => {
            let field = field(table, slots, slot)?;
            let variable = table.make(Shape::Bound(0))?;
            table.make(Shape::ReadNumber(field, variable))
        }
    }
}

/// The node of the set of the name in a slot.
#[tactic(auto, using(crate::proofs::schemas::SchemaSteps::set_steps))]
fn named_set(table: &mut Table, slots: &Slots<'_>, slot: Slot) -> Result<usize, NoMemory>
    ensures node { IfOk result (λ made. slice_get (nodes table.new) made ≡ Some (of_set (t.free_set (meant.name_of (meant.names_in slots.now) slot)))) }
    ensures grows { Extends table.old table.new }
{
    let number = number_in(table, slots, slot)?;
    table.make(Shape::FreeSet(number))
}

/// The node of a term for a set.
#[tactic(auto, using(crate::proofs::schemas::SchemaSteps::set_steps))]
fn set(table: &mut Table, slots: &Slots<'_>, schema: SetSchema) -> Result<usize, NoMemory>
    ensures node { IfOk result (λ made. slice_get (nodes table.new) made ≡ Some (of_set (meant.set_of (meant.names_in slots.now) schema))) }
    ensures grows { Extends table.old table.new }
{
    match schema {
        SetSchema::Empty => table.make(Shape::Empty),
        SetSchema::Name(slot) => named_set(table, slots, slot),
        SetSchema::Read(slot) => {
            let field = field(table, slots, slot)?;
            let variable = table.make(Shape::Bound(0))?;
            table.make(Shape::ReadSet(field, variable))
        }
        SetSchema::Both(left, right) => {
            let left = named_set(table, slots, left)?;
            let right = named_set(table, slots, right)?;
            table.make(Shape::Inter(left, right))
        }
    }
}

/// The node of the formula that a schema is with these names in its slots.
#[tactic(auto, using(crate::proofs::schemas::SchemaSteps::truth_steps))]
pub fn from_schema(
    table: &mut Table,
    slots: &Slots<'_>,
    schema: &Schema<'_>,
) -> Result<usize, NoMemory>
    ensures node { IfOk result (λ made. slice_get (nodes table.new) made ≡ Some (of_truth (meant.formula_of (meant.names_in slots.now) schema.now))) }
    ensures grows { Extends table.old table.new }
{
    match schema {
        Schema::Name(slot) => {
            let number = number_in(table, slots, *slot)?;
            table.make(Shape::FreeTruth(number))
        }
        Schema::Read(slot) => {
            let field = field(table, slots, *slot)?;
            let variable = table.make(Shape::Bound(0))?;
            table.make(Shape::ReadTruth(field, variable))
        }
        Schema::Not(inner) => {
            let inner = from_schema(table, slots, inner)?;
            table.make(Shape::Negation(inner))
        }
        Schema::And(left, right) => {
            let left = from_schema(table, slots, left)?;
            let right = from_schema(table, slots, right)?;
            table.make(Shape::And(left, right))
        }
        Schema::Or(left, right) => {
            let left = from_schema(table, slots, left)?;
            let right = from_schema(table, slots, right)?;
            table.make(Shape::Or(left, right))
        }
        Schema::Implies(left, right) => {
            let left = from_schema(table, slots, left)?;
            let right = from_schema(table, slots, right)?;
            table.make(Shape::Implies(left, right))
        }
        Schema::Iff(left, right) => {
            let left = from_schema(table, slots, left)?;
            let right = from_schema(table, slots, right)?;
            table.make(Shape::Iff(left, right))
        }
        Schema::All(inner) => {
            let inner = from_schema(table, slots, inner)?;
            table.make(Shape::All(inner))
        }
        Schema::SameObject(left, right) => {
            let left = object(table, slots, *left)?;
            let right = object(table, slots, *right)?;
            table.make(Shape::EqObject(left, right))
        }
        Schema::SameNumber(left, right) => {
            let left = number(table, slots, *left)?;
            let right = number(table, slots, *right)?;
            table.make(Shape::EqNumber(left, right))
        }
        Schema::SameSet(left, right) => {
            let left = set(table, slots, *left)?;
            let right = set(table, slots, *right)?;
            table.make(Shape::EqSet(left, right))
        }
        Schema::Member(left, right) => {
            let left = object(table, slots, *left)?;
            let right = set(table, slots, *right)?;
            table.make(Shape::Member(left, right))
        }
        Schema::Subset(left, right) => {
            let left = set(table, slots, *left)?;
            let right = set(table, slots, *right)?;
            table.make(Shape::Subset(left, right))
        }
    }
}
