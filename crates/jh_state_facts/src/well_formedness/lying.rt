#![tactic(auto, using(crate::proofs::well_formedness::FactSteps::fact_steps, jh_arena::proofs::table::Listed::growth_steps))]

ghost use Rattle.std.specs.Prelude.{◌≡◌, ◌<◌, ◌∷◌, [], Some, slice_get, length, OnOk, map};
ghost use Rattle.std.specs.List.{flat_map};
ghost use Rattle.jh_form.specs.Tree as t;
ghost use Rattle.jh_arena.specs.table.Growth.{Extends};
ghost use Rattle.jh_semantics.specs.Program.{class_at};
ghost use Rattle.jh_semantics.specs.WellFormed as formed;
ghost use Rattle.jh_state_facts.specs.schemas.Meant.{name_in};
ghost use Rattle.jh_state_facts.specs.well_formedness.Facts.{AddsFacts};
ghost use Rattle.jh_state_facts.specs.well_formedness.States.{local_of};

use crate::schemas::{Named, ObjectSchema, Schema, SetSchema, Slot, Slots};
use crate::well_formedness::adding::push_schema;
use crate::well_formedness::state::Known;
use jh_arena::table::Table;
use jh_name::{NoMemory, Text};
use jh_rules::Ty;

/// The first name is null or in the set of the second.
static NULL_OR_IN: Schema<'static> = Schema::Or(
    &Schema::SameObject(ObjectSchema::Name(Slot::First), ObjectSchema::Null),
    &Schema::Member(
        ObjectSchema::Name(Slot::First),
        SetSchema::Name(Slot::Second),
    ),
);

/// The first name is in the set of the second.
static IS_IN: Schema<'static> = Schema::Member(
    ObjectSchema::Name(Slot::First),
    SetSchema::Name(Slot::Second),
);

/// A name at turn 0.
pub(crate) fn plain(text: &str) -> Named<'_>
    ensures text { result.text.now ≡ text.now }
    ensures turn { result.turn ≡ 0 }
{
    Named { text, turn: 0 }
}

/// The text of the class of a number, or none.
pub(crate) fn class_text(classes: &[Text], number: usize) -> &str
    ensures { result.now ≡ class_at classes.now number }
{
    match classes.get(number) {
        None => "",
        Some(text) => text.text(),
    }
}

/// Adds that an object is null or in the set of a text.
fn push_null_or_in(
    table: &mut Table,
    facts: &mut Vec<usize>,
    object: Named<'_>,
    set: &str,
) -> Result<(), NoMemory>
    ensures facts { OnOk result (AddsFacts table.new facts.old.items facts.new.items (formed.null_or_in (formed.set_of set.now) (t.free_object (name_in object.entry)) ∷ [])) }
    ensures grows { Extends table.old table.new }
{
    let slots = Slots {
        first: object,
        second: plain(set),
        third: object,
    };
    push_schema(table, facts, &slots, &NULL_OR_IN)
}

/// Adds that an object lies in a type, where something is said of objects of the type.
pub fn push_lies(
    table: &mut Table,
    facts: &mut Vec<usize>,
    classes: &[Text],
    ty: Ty,
    object: Named<'_>,
) -> Result<(), NoMemory>
    ensures facts { OnOk result (AddsFacts table.new facts.old.items facts.new.items (formed.lies_in classes.now ty (t.free_object (name_in object.entry)))) }
    ensures grows { Extends table.old table.new }
{
    match ty {
        Ty::Int => Ok(()),
        Ty::Boolean => Ok(()),
        Ty::Void => Ok(()),
        Ty::Null => Ok(()),
        Ty::Object => push_null_or_in(table, facts, object, "alloc"),
        Ty::Class(number) => { push_null_or_in(table, facts, object, class_text(classes, number)) }
    }
}

/// Adds that `this` is an object of its class, where there is one.
pub(crate) fn push_this(
    table: &mut Table,
    facts: &mut Vec<usize>,
    classes: &[Text],
    this: Option<usize>,
) -> Result<(), NoMemory>
    ensures facts { OnOk result (AddsFacts table.new facts.old.items facts.new.items (formed.this_facts classes.now this)) }
    ensures grows { Extends table.old table.new }
{
    match this {
        None => Ok(()),
        Some(number) => {
            let slots = Slots {
                first: plain("this"),
                second: plain(class_text(classes, number)),
                third: plain("this"),
            };
            push_schema(table, facts, &slots, &IS_IN)
        }
    }
}

/// The local at a place.
fn local_at<'a>(scope: &[Known<'a>], place: usize) -> Known<'a>
    requires { place < length scope.now }
    ensures { slice_get scope.now place ≡ Some result }
{
    scope[place]
}

/// Adds that locals lie in their types.
pub(crate) fn push_locals(
    table: &mut Table,
    facts: &mut Vec<usize>,
    classes: &[Text],
    scope: &[Known<'_>],
) -> Result<(), NoMemory>
    ensures facts { OnOk result (AddsFacts table.new facts.old.items facts.new.items (flat_map (formed.local_facts classes.now) (map local_of scope.now))) }
    ensures grows { Extends table.old table.new }
{
    for place in 0..scope.len() {
        let local = local_at(scope, place);
        push_lies(table, facts, classes, local.ty, plain(local.text))?;
    }
    Ok(())
}
