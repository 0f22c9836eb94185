#![tactic(auto, using(crate::proofs::well_formedness::FactSteps::fact_steps, crate::proofs::well_formedness::ClassSteps::class_steps, jh_arena::proofs::table::Listed::growth_steps))]

ghost use Rattle.std.specs.Prelude.{◌≡◌, ◌<◌, ◌≤◌, ◌∷◌, [], map, length, drop, Some, slice_get, IfOk, OnOk};
ghost use Rattle.jh_form.specs.Tree.{of_set, of_truth};
ghost use Rattle.jh_form.specs.Tree as t;
ghost use Rattle.jh_arena.specs.table.Growth.{Extends};
ghost use Rattle.jh_arena.specs.table.Nodes.{nodes};
ghost use Rattle.jh_semantics.specs.WellFormed as formed;
ghost use Rattle.jh_state_facts.specs.well_formedness.Facts.{AddsFacts};
ghost use Rattle.jh_state_facts.specs.well_formedness.States.{texts_in};

use crate::schemas::{ObjectSchema, Schema, SetSchema, Slot, Slots};
use crate::well_formedness::adding::push_schema;
use crate::well_formedness::lying::plain;
use jh_arena::makers::{free_set, same_set, union_of};
use jh_arena::table::Table;
use jh_name::{NoMemory, Text, name};
use std::alloc::Global;

/// Two sets have no common object.
static APART: Schema<'static> = Schema::SameSet(
    SetSchema::Both(Slot::First, Slot::Second),
    SetSchema::Empty,
);

/// Null is not in the first set.
static NULL_OUT: Schema<'static> = Schema::Not(&Schema::Member(
    ObjectSchema::Null,
    SetSchema::Name(Slot::First),
));

/// The texts of classes, then that of the plain objects.
pub(crate) fn all_texts<'a>(alloc: Global, classes: &'a [Text]) -> Result<Vec<&'a str>, NoMemory>
    ensures { IfOk result (λ made. texts_in made.items ≡ formed.all_classes classes.now) }
{
    let mut made = Vec::new(alloc);
    for class in classes {
        made.push(class.text())?;
    }
    made.push("Object")?;
    Ok(made)
}

/// The text at a place.
fn text_at<'a>(texts: &[&'a str], place: usize) -> &'a str
    requires { place < length texts.now }
    ensures { slice_get (texts_in texts.now) place ≡ Some result.now }
{
    texts[place]
}

/// The node of the set of a text.
fn set_node(table: &mut Table, text: &str) -> Result<usize, NoMemory>
    ensures node { IfOk result (λ made. slice_get (nodes table.new) made ≡ Some (of_set (formed.set_of text.now))) }
    ensures grows { Extends table.old table.new }
{
    let made = name(table.alloc(), text, 0)?;
    free_set(table, &made)
}

/// The node of the union of the sets of some texts.
fn union_node(table: &mut Table, texts: &[&str]) -> Result<usize, NoMemory>
    requires { 0 < length texts.now }
    ensures node { IfOk result (λ made. slice_get (nodes table.new) made ≡ Some (of_set (formed.union_of (texts_in texts.now)))) }
    ensures grows { Extends table.old table.new }
{
    let mut made = set_node(table, text_at(texts, 0))?;
    for place in 1..texts.len() {
        let set = set_node(table, text_at(texts, place))?;
        made = union_of(table, made, set)?;
    }
    Ok(made)
}

/// The node of that the set of all objects is the union of those of some texts.
fn whole_node(table: &mut Table, texts: &[&str]) -> Result<usize, NoMemory>
    requires { 0 < length texts.now }
    ensures node { IfOk result (λ made. slice_get (nodes table.new) made ≡ Some (of_truth (t.eq_set formed.alloc (formed.union_of (texts_in texts.now))))) }
    ensures grows { Extends table.old table.new }
{
    let all = set_node(table, "alloc")?;
    let union = union_node(table, texts)?;
    same_set(table, all, union)
}

/// Adds that the set of all objects is the union of those of some texts.
pub(crate) fn push_whole(
    table: &mut Table,
    facts: &mut Vec<usize>,
    texts: &[&str],
) -> Result<(), NoMemory>
    requires { 0 < length texts.now }
    ensures facts { OnOk result (AddsFacts table.new facts.old.items facts.new.items (t.eq_set formed.alloc (formed.union_of (texts_in texts.now)) ∷ [])) }
    ensures grows { Extends table.old table.new }
{
    let fact = whole_node(table, texts)?;
    facts.push(fact)?;
    Ok(())
}

/// Adds that the set of a text has no object in common with that of another.
fn push_two_apart(
    table: &mut Table,
    facts: &mut Vec<usize>,
    left: &str,
    right: &str,
) -> Result<(), NoMemory>
    ensures facts { OnOk result (AddsFacts table.new facts.old.items facts.new.items (t.eq_set (t.inter (formed.set_of left.now) (formed.set_of right.now)) t.empty ∷ [])) }
    ensures grows { Extends table.old table.new }
{
    let slots = Slots {
        first: plain(left),
        second: plain(right),
        third: plain(left),
    };
    push_schema(table, facts, &slots, &APART)
}

/// Adds that the set of a text has no object in common with those of others.
fn push_apart_from(
    table: &mut Table,
    facts: &mut Vec<usize>,
    class: &str,
    others: &[&str],
) -> Result<(), NoMemory>
    ensures facts { OnOk result (AddsFacts table.new facts.old.items facts.new.items (map (λ d. t.eq_set (t.inter (formed.set_of class.now) (formed.set_of d)) t.empty) (texts_in others.now))) }
    ensures grows { Extends table.old table.new }
{
    for place in 0..others.len() {
        push_two_apart(table, facts, class, text_at(others, place))?;
    }
    Ok(())
}

/// The texts from a place on.
fn behind<'a, 'b>(texts: &'b [&'a str], start: usize) -> &'b [&'a str]
    requires { start ≤ length texts.now }
    ensures { result.now ≡ drop start texts.now }
{
    &texts[start..]
}

/// Adds that no two of the sets of some texts have a common object.
pub(crate) fn push_apart(
    table: &mut Table,
    facts: &mut Vec<usize>,
    texts: &[&str],
) -> Result<(), NoMemory>
    ensures facts { OnOk result (AddsFacts table.new facts.old.items facts.new.items (formed.apart (texts_in texts.now))) }
    ensures grows { Extends table.old table.new }
{
    for place in 0..texts.len() {
        let others = behind(texts, place + 1);
        push_apart_from(table, facts, text_at(texts, place), others)?;
    }
    Ok(())
}

/// Adds that null is no object that there is.
pub(crate) fn push_null_out(table: &mut Table, facts: &mut Vec<usize>) -> Result<(), NoMemory>
    ensures facts { OnOk result (AddsFacts table.new facts.old.items facts.new.items (t.negation (t.member t.null formed.alloc) ∷ [])) }
    ensures grows { Extends table.old table.new }
{
    let slots = Slots {
        first: plain("alloc"),
        second: plain("alloc"),
        third: plain("alloc"),
    };
    push_schema(table, facts, &slots, &NULL_OUT)
}
