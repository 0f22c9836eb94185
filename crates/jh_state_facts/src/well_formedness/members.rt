#![tactic(auto, using(crate::proofs::well_formedness::FactSteps::fact_steps, jh_arena::proofs::table::Listed::growth_steps))]

ghost use Rattle.std.specs.Prelude.{◌≡◌, ◌∷◌, [], map, OnOk};
ghost use Rattle.std.specs.List.{flat_map};
ghost use Rattle.jh_form.specs.Tree as t;
ghost use Rattle.jh_arena.specs.table.Growth.{Extends};
ghost use Rattle.jh_semantics.specs.Program.{class_at};
ghost use Rattle.jh_semantics.specs.State.{named};
ghost use Rattle.jh_semantics.specs.WellFormed as formed;
ghost use Rattle.jh_state_facts.specs.well_formedness.Facts.{AddsFacts};
ghost use Rattle.jh_state_facts.specs.well_formedness.States.{member_in, members_in};

use crate::schemas::{NumberSchema, ObjectSchema, Schema, SetSchema, Slot, Slots};
use crate::well_formedness::adding::push_schema;
use crate::well_formedness::lying::{class_text, plain, push_lies};
use crate::well_formedness::state::Member;
use jh_arena::table::Table;
use jh_name::{Kind, NoMemory, Text};
use jh_rules::Ty;

/// At the objects of the first set the second field is null or in the third set.
static FIELD_LIES: Schema<'static> = Schema::All(&Schema::Implies(
    &Schema::Member(ObjectSchema::Variable, SetSchema::Name(Slot::First)),
    &Schema::Or(
        &Schema::SameObject(ObjectSchema::Read(Slot::Second), ObjectSchema::Null),
        &Schema::Member(
            ObjectSchema::Read(Slot::Second),
            SetSchema::Name(Slot::Third),
        ),
    ),
));

/// Outside the first set the second field is its default: null, 0, false, the empty set.
static NULL_OUTSIDE: Schema<'static> = Schema::All(&Schema::Implies(
    &Schema::Not(&Schema::Member(ObjectSchema::Variable, SetSchema::Name(Slot::First))),
    &Schema::SameObject(ObjectSchema::Read(Slot::Second), ObjectSchema::Null),
));

static ZERO_OUTSIDE: Schema<'static> = Schema::All(&Schema::Implies(
    &Schema::Not(&Schema::Member(ObjectSchema::Variable, SetSchema::Name(Slot::First))),
    &Schema::SameNumber(NumberSchema::Read(Slot::Second), NumberSchema::Zero),
));

static FALSE_OUTSIDE: Schema<'static> = Schema::All(&Schema::Implies(
    &Schema::Not(&Schema::Member(ObjectSchema::Variable, SetSchema::Name(Slot::First))),
    &Schema::Not(&Schema::Read(Slot::Second)),
));

static EMPTY_OUTSIDE: Schema<'static> = Schema::All(&Schema::Implies(
    &Schema::Not(&Schema::Member(ObjectSchema::Variable, SetSchema::Name(Slot::First))),
    &Schema::SameSet(SetSchema::Read(Slot::Second), SetSchema::Empty),
));

/// Adds that a static lies in its type.
fn push_static(
    table: &mut Table,
    facts: &mut Vec<usize>,
    classes: &[Text],
    member: &Member,
) -> Result<(), NoMemory>
    ensures facts { OnOk result (AddsFacts table.new facts.old.items facts.new.items (formed.static_facts classes.now (member_in classes.now member.now))) }
    ensures grows { Extends table.old table.new }
{
    if !member.is_static {
        return Ok(());
    }
    match member.ty {
        None => Ok(()),
        Some(ty) => push_lies(table, facts, classes, ty, plain(member.text.text())),
    }
}

/// Adds that a field is null or in a set, at the objects of its class.
fn push_field_in(
    table: &mut Table,
    facts: &mut Vec<usize>,
    class: &str,
    field: &str,
    set: &str,
) -> Result<(), NoMemory>
    ensures facts { OnOk result (AddsFacts table.new facts.old.items facts.new.items (formed.each_in (formed.set_of class.now) (formed.null_or_in (formed.set_of set.now) (t.read_object (t.free_field (named field.now)) (t.bound 0))) ∷ [])) }
    ensures grows { Extends table.old table.new }
{
    let slots = Slots {
        first: plain(class),
        second: plain(field),
        third: plain(set),
    };
    push_schema(table, facts, &slots, &FIELD_LIES)
}

/// Adds that a field of this type lies in it, at the objects of its class.
fn push_field_type(
    table: &mut Table,
    facts: &mut Vec<usize>,
    classes: &[Text],
    member: &Member,
    ty: Ty,
) -> Result<(), NoMemory>
    ensures facts { OnOk result (AddsFacts table.new facts.old.items facts.new.items (map (formed.each_in (formed.set_of (class_at classes.now member.now.class))) (formed.lies_in classes.now ty (t.read_object (t.free_field (named member.now.text)) (t.bound 0))))) }
    ensures grows { Extends table.old table.new }
{
    let class = class_text(classes, member.class);
    let field = member.text.text();
    match ty {
        Ty::Int => Ok(()),
        Ty::Boolean => Ok(()),
        Ty::Void => Ok(()),
        Ty::Null => Ok(()),
        Ty::Object => push_field_in(table, facts, class, field, "alloc"),
        Ty::Class(number) => {
            push_field_in(table, facts, class, field, class_text(classes, number))
        }
    }
}

/// Adds that a field lies in its type, at the objects of its class.
fn push_field(
    table: &mut Table,
    facts: &mut Vec<usize>,
    classes: &[Text],
    member: &Member,
) -> Result<(), NoMemory>
    ensures facts { OnOk result (AddsFacts table.new facts.old.items facts.new.items (formed.field_facts classes.now (member_in classes.now member.now))) }
    ensures grows { Extends table.old table.new }
{
    if member.is_static {
        return Ok(());
    }
    match member.ty {
        None => Ok(()),
        Some(ty) => push_field_type(table, facts, classes, member, ty),
    }
}

/// Adds that a field is its default at all objects outside its class.
fn push_outside(
    table: &mut Table,
    facts: &mut Vec<usize>,
    class: &str,
    field: &str,
    kind: Kind,
) -> Result<(), NoMemory>
    ensures facts { OnOk result (AddsFacts table.new facts.old.items facts.new.items (formed.each_outside (formed.set_of class.now) (formed.is_default kind field.now) ∷ [])) }
    ensures grows { Extends table.old table.new }
{
    let slots = Slots {
        first: plain(class),
        second: plain(field),
        third: plain(class),
    };
    match kind {
        Kind::Obj => push_schema(table, facts, &slots, &NULL_OUTSIDE),
        Kind::Int => push_schema(table, facts, &slots, &ZERO_OUTSIDE),
        Kind::Bool => push_schema(table, facts, &slots, &FALSE_OUTSIDE),
        Kind::Set => push_schema(table, facts, &slots, &EMPTY_OUTSIDE),
    }
}

/// Adds that a field or ghost variable of objects is its default at all objects outside its class.
fn push_default(
    table: &mut Table,
    facts: &mut Vec<usize>,
    classes: &[Text],
    member: &Member,
) -> Result<(), NoMemory>
    ensures facts { OnOk result (AddsFacts table.new facts.old.items facts.new.items (formed.default_facts (member_in classes.now member.now))) }
    ensures grows { Extends table.old table.new }
{
    if member.is_static {
        return Ok(());
    }
    push_outside(
        table,
        facts,
        class_text(classes, member.class),
        member.text.text(),
        member.kind,
    )
}

/// Adds that statics lie in their types.
pub(crate) fn push_statics(
    table: &mut Table,
    facts: &mut Vec<usize>,
    classes: &[Text],
    members: &[Member],
) -> Result<(), NoMemory>
    ensures facts { OnOk result (AddsFacts table.new facts.old.items facts.new.items (flat_map (formed.static_facts classes.now) (members_in classes.now members.now))) }
    ensures grows { Extends table.old table.new }
{
    for place in 0..members.len() {
        push_static(table, facts, classes, &members[place])?;
    }
    Ok(())
}

/// Adds that fields lie in their types.
pub(crate) fn push_fields(
    table: &mut Table,
    facts: &mut Vec<usize>,
    classes: &[Text],
    members: &[Member],
) -> Result<(), NoMemory>
    ensures facts { OnOk result (AddsFacts table.new facts.old.items facts.new.items (flat_map (formed.field_facts classes.now) (members_in classes.now members.now))) }
    ensures grows { Extends table.old table.new }
{
    for place in 0..members.len() {
        push_field(table, facts, classes, &members[place])?;
    }
    Ok(())
}

/// Adds that fields are their defaults outside their classes.
pub(crate) fn push_defaults(
    table: &mut Table,
    facts: &mut Vec<usize>,
    classes: &[Text],
    members: &[Member],
) -> Result<(), NoMemory>
    ensures facts { OnOk result (AddsFacts table.new facts.old.items facts.new.items (flat_map formed.default_facts (members_in classes.now members.now))) }
    ensures grows { Extends table.old table.new }
{
    for place in 0..members.len() {
        push_default(table, facts, classes, &members[place])?;
    }
    Ok(())
}
