#![tactic(auto)]

ghost use Rattle.std.specs.Prelude.{◌≡◌, ℕ, List, IfOk, Some, slice_get};
ghost use Rattle.jh_form.specs.Tree.{of_truth};
ghost use Rattle.jh_form.specs.Tree as t;
ghost use Rattle.jh_arena.specs.table.Growth.{Extends};
ghost use Rattle.jh_arena.specs.table.Nodes.{nodes};
ghost use Rattle.jh_semantics.specs.WellFormed as formed;
ghost use Rattle.jh_command_terms.specs.jh_guard.Frames as frames;
ghost use Rattle.jh_state_facts.specs.schemas.Meant.{name_in};
ghost use Rattle.jh_state_facts.specs.well_formedness.States.{member_in};

use crate::schemas::{
    Named, NumberSchema, ObjectSchema, Schema, SetSchema, Slot, Slots, from_schema,
};
use crate::well_formedness::lying::plain;
use crate::well_formedness::state::Member;
use jh_arena::table::Table;
use jh_name::{Kind, NoMemory};

/// The second and the third name have one value.
static SAME_OBJECTS: Schema<'static> = Schema::SameObject(
    ObjectSchema::Name(Slot::Second),
    ObjectSchema::Name(Slot::Third),
);

static SAME_NUMBERS: Schema<'static> = Schema::SameNumber(
    NumberSchema::Name(Slot::Second),
    NumberSchema::Name(Slot::Third),
);

static SAME_TRUTHS: Schema<'static> = Schema::Iff(
    &Schema::Name(Slot::Second),
    &Schema::Name(Slot::Third),
);

static SAME_SETS: Schema<'static> = Schema::SameSet(
    SetSchema::Name(Slot::Second),
    SetSchema::Name(Slot::Third),
);

/// The fields of the second and the third name have one value at the objects of the first set.
static READ_OBJECTS: Schema<'static> = Schema::All(&Schema::Implies(
    &Schema::Member(ObjectSchema::Variable, SetSchema::Name(Slot::First)),
    &Schema::SameObject(
        ObjectSchema::Read(Slot::Second),
        ObjectSchema::Read(Slot::Third),
    ),
));

static READ_NUMBERS: Schema<'static> = Schema::All(&Schema::Implies(
    &Schema::Member(ObjectSchema::Variable, SetSchema::Name(Slot::First)),
    &Schema::SameNumber(
        NumberSchema::Read(Slot::Second),
        NumberSchema::Read(Slot::Third),
    ),
));

static READ_TRUTHS: Schema<'static> = Schema::All(&Schema::Implies(
    &Schema::Member(ObjectSchema::Variable, SetSchema::Name(Slot::First)),
    &Schema::Iff(&Schema::Read(Slot::Second), &Schema::Read(Slot::Third)),
));

static READ_SETS: Schema<'static> = Schema::All(&Schema::Implies(
    &Schema::Member(ObjectSchema::Variable, SetSchema::Name(Slot::First)),
    &Schema::SameSet(SetSchema::Read(Slot::Second), SetSchema::Read(Slot::Third)),
));

/// The node of that two names have one value of a kind; the first name plays no part.
fn same_static(table: &mut Table, slots: &Slots<'_>, kind: Kind) -> Result<usize, NoMemory>
    ensures node { IfOk result (λ made. slice_get (nodes table.new) made ≡ Some (of_truth (frames.same_static kind (name_in slots.now.second) (name_in slots.now.third)))) }
    ensures grows { Extends table.old table.new }
{
    match kind {
        Kind::Obj => from_schema(table, slots, &SAME_OBJECTS),
        Kind::Int => from_schema(table, slots, &SAME_NUMBERS),
        Kind::Bool => from_schema(table, slots, &SAME_TRUTHS),
        Kind::Set => from_schema(table, slots, &SAME_SETS),
    }
}

/// The node of that two fields have one value of a kind at the objects of a set.
fn same_reads(table: &mut Table, slots: &Slots<'_>, kind: Kind) -> Result<usize, NoMemory>
    ensures node { IfOk result (λ made. slice_get (nodes table.new) made ≡ Some (of_truth (formed.each_in (t.free_set (name_in slots.now.first)) (frames.same_read kind (name_in slots.now.second) (name_in slots.now.third))))) }
    ensures grows { Extends table.old table.new }
{
    match kind {
        Kind::Obj => from_schema(table, slots, &READ_OBJECTS),
        Kind::Int => from_schema(table, slots, &READ_NUMBERS),
        Kind::Bool => from_schema(table, slots, &READ_TRUTHS),
        Kind::Set => from_schema(table, slots, &READ_SETS),
    }
}

/// The node of the frame fact of a member: that it is what its copy at a turn is, a field at the objects of the set of
/// all that there were.
pub fn frame_fact(
    table: &mut Table,
    old_alloc: Named<'_>,
    member: &Member,
    turn: u32,
) -> Result<usize, NoMemory>
    ensures node { (classes : List (List ℕ)) → IfOk result (λ made. slice_get (nodes table.new) made ≡ Some (of_truth (frames.frame_fact (t.free_set (name_in old_alloc.entry)) turn (member_in classes member.now)))) }
    ensures grows { Extends table.old table.new }
{
    let text = member.text.text();
    let slots = Slots {
        first: old_alloc,
        second: plain(text),
        third: Named { text, turn },
    };
    if member.is_static {
        same_static(table, &slots, member.kind)
    } else {
        same_reads(table, &slots, member.kind)
    }
}
