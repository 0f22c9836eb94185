#![tactic(auto, using(crate::proofs::ResolveSteps::resolve_steps, jh_arena::proofs::table::Listed::growth_steps))]

ghost use Rattle.std.specs.Prelude.{◌≡◌, ◌<◌, ◌++◌, map, IfOk, OnOk, Some, None, length, slice_get};
ghost use Rattle.std.specs.Borrow.{Bor};
ghost use Rattle.jh_ast.specs.Bare.{form_tree, form_trees};
ghost use Rattle.jh_form.specs.Tree.{of_truth, of_number, of_set};
ghost use Rattle.jh_form.specs.Tree as t;
ghost use Rattle.jh_arena.specs.table.Entries.{the_value};
ghost use Rattle.jh_arena.specs.table.Growth.{Extends};
ghost use Rattle.jh_arena.specs.table.Nodes.{nodes};
ghost use Rattle.jh_rules.specs.Words.{text_of};
ghost use Rattle.jh_vars.specs.Resolved as r;
ghost use Rattle.jh_resolution.specs.Meant.{AreHeld};
ghost use Rattle.jh_resolution.specs.Spots.{texts_of, union_in, under_in, set_at, SetsStand, IsResolved};
ghost use Rattle.std.specs.Option.{option_map_or};

use crate::coercing::coerced;
use crate::context::{Context, Spot};
use crate::fields::{Path, forest_of, reach_of};
use crate::literals::literal;
use crate::operators::{Operands, operated, opposite};
use crate::values::{after_dots, name_value};
use jh_arena::table::{Shape, Table};
use jh_ast::{SpecBody, SpecOp, SpecTree, Word};
use jh_name::{NoMemory, Sort};
use jh_receiver::at_entry;
use std::alloc::Global;
use std::slice::from_ref;

/// The node of a negation.
fn negation(table: &mut Table, inner: usize) -> Result<usize, NoMemory>
    requires { inner < length (nodes table.old) }
    ensures node { IfOk result (λ made. slice_get (nodes table.new) made ≡ Some (of_truth (t.negation (r.as_truth (the_value (slice_get (nodes table.old) inner)))))) }
    ensures grows { Extends table.old table.new }
{
    let truth = coerced(table, inner, Sort::Bool)?;
    table.make(Shape::Negation(truth))
}

/// The node of the number of members of a set.
fn cardinality(table: &mut Table, inner: usize) -> Result<usize, NoMemory>
    requires { inner < length (nodes table.old) }
    ensures node { IfOk result (λ made. slice_get (nodes table.new) made ≡ Some (of_number (t.card (r.as_set (the_value (slice_get (nodes table.old) inner)))))) }
    ensures grows { Extends table.old table.new }
{
    let set = coerced(table, inner, Sort::Set)?;
    table.make(Shape::Card(set))
}

/// The node of a number.
fn constant(table: &mut Table, number: &i64) -> Result<usize, NoMemory>
    ensures node { IfOk result (λ made. slice_get (nodes table.new) made ≡ Some (of_number (t.const number.now))) }
    ensures grows { Extends table.old table.new }
{
    table.make(Shape::Const(*number))
}

/// The node of that a number divides another.
fn divides(table: &mut Table, number: &i64, inner: usize) -> Result<usize, NoMemory>
    requires { inner < length (nodes table.old) }
    ensures node { IfOk result (λ made. slice_get (nodes table.new) made ≡ Some (of_truth (t.divides number.now (r.as_number (the_value (slice_get (nodes table.old) inner)))))) }
    ensures grows { Extends table.old table.new }
{
    let divided = coerced(table, inner, Sort::Int)?;
    table.make(Shape::Divides(*number, divided))
}

/// The node of a comprehension.
fn comprehension(table: &mut Table, inner: usize) -> Result<usize, NoMemory>
    requires { inner < length (nodes table.old) }
    ensures node { IfOk result (λ made. slice_get (nodes table.new) made ≡ Some (of_set (t.compr (r.as_truth (the_value (slice_get (nodes table.old) inner)))))) }
    ensures grows { Extends table.old table.new }
{
    let truth = coerced(table, inner, Sort::Bool)?;
    table.make(Shape::Compr(truth))
}

/// The node of a formula under so many universal quantifiers.
fn for_all(table: &mut Table, count: usize, inner: usize) -> Result<usize, NoMemory>
    requires { inner < length (nodes table.old) }
    ensures node { IfOk result (λ made. slice_get (nodes table.new) made ≡ Some (of_truth (r.quantified t.all count (r.as_truth (the_value (slice_get (nodes table.old) inner)))))) }
    ensures grows { Extends table.old table.new }
{
    let mut made = coerced(table, inner, Sort::Bool)?;
    for _index in 0..count {
        made = table.make(Shape::All(made))?;
    }
    Ok(made)
}

/// The node of a formula under so many existential quantifiers.
fn for_some(table: &mut Table, count: usize, inner: usize) -> Result<usize, NoMemory>
    requires { inner < length (nodes table.old) }
    ensures node { IfOk result (λ made. slice_get (nodes table.new) made ≡ Some (of_truth (r.quantified t.ex count (r.as_truth (the_value (slice_get (nodes table.old) inner)))))) }
    ensures grows { Extends table.old table.new }
{
    let mut made = coerced(table, inner, Sort::Bool)?;
    for _index in 0..count {
        made = table.make(Shape::Ex(made))?;
    }
    Ok(made)
}

/// The node of two formulas with an operator between them, of the nodes of their values.
fn binary(
    table: &mut Table,
    op: SpecOp,
    left: &SpecTree,
    left_node: usize,
    right: &SpecTree,
    right_node: usize,
) -> Result<usize, NoMemory>
    requires left { left_node < length (nodes table.old) }
    requires right { right_node < length (nodes table.old) }
    ensures node { IfOk result (λ made. slice_get (nodes table.new) made ≡ Some (r.binary op (r.literal (form_tree left.now)) (the_value (slice_get (nodes table.old) left_node)) (r.literal (form_tree right.now)) (the_value (slice_get (nodes table.old) right_node)))) }
    ensures grows { Extends table.old table.new }
{
    let left_literal = literal(left)?;
    let right_literal = literal(right)?;
    operated(
        table,
        op,
        Operands {
            left_literal,
            left: left_node,
            right_literal,
            right: right_node,
        },
    )
}

/// The bound names under a binder of some words, the outermost first.
pub fn under<'a>(
    alloc: Global,
    bound: &[&'a Word],
    words: &'a [Word],
) -> Result<Vec<&'a Word>, NoMemory>
    ensures { IfOk result (λ made. texts_of made.items ≡ texts_of bound.now ++ map text_of words.now) }
{
    let mut made = Vec::new(alloc);
    made.extend_from_slice(bound)?;
    add_words(&mut made, words)?;
    Ok(made)
}

/// Adds words to bound names.
fn add_words<'a>(made: &mut Vec<&'a Word>, words: &'a [Word]) -> Result<(), NoMemory>
    ensures { OnOk result (texts_of made.new.items ≡ texts_of made.old.items ++ map text_of words.now) }
{
    for word in words {
        made.push(word)?;
    }
    Ok(())
}

/// The node of the first set, or of the union with one more.
fn with_single(table: &mut Table, made: Option<usize>, member: usize) -> Result<usize, NoMemory>
    requires made { SetsStand (nodes table.old) made }
    requires member { member < length (nodes table.old) }
    ensures node { IfOk result (λ node. slice_get (nodes table.new) node ≡ Some (of_set (r.with_single (set_at (nodes table.old) made) (r.as_object (the_value (slice_get (nodes table.old) member)))))) }
    ensures grows { Extends table.old table.new }
{
    let object = coerced(table, member, Sort::Obj)?;
    let single = table.make(Shape::Single(object))?;
    match made {
        None => Ok(single),
        Some(made) => table.make(Shape::Union(made, single)),
    }
}

/// The node of a set that is made so far, or of the empty set.
fn made_or_empty(table: &mut Table, made: Option<usize>) -> Result<usize, NoMemory>
    requires made { SetsStand (nodes table.old) made }
    ensures node { IfOk result (λ node. slice_get (nodes table.new) node ≡ Some (of_set (option_map_or (λ s. s) (set_at (nodes table.old) made) t.empty))) }
    ensures grows { Extends table.old table.new }
{
    match made {
        None => table.make(Shape::Empty),
        Some(made) => Ok(made),
    }
}

/// The node of the union of the singles of some objects, grouped to the left.
#[cycle(resolved)]
#[tactic(auto, using(crate::proofs::CycleSteps::cycle_steps))]
fn union_of(
    table: &mut Table,
    context: &Context,
    at: &Spot,
    forms: &[SpecTree],
) -> Result<usize, NoMemory>
    requires held { AreHeld (nodes table.old) context.now.meanings.now }
    ensures node { IfOk result (λ made. slice_get (nodes table.new) made ≡ Some (of_set (union_in (nodes table.new) context.now at.now (form_trees forms.now) None))) }
    ensures grows { Extends table.old table.new }
    ensures held { AreHeld (nodes table.new) context.now.meanings.now }
{
    let mut made = None;
    for form in forms {
        let member = resolved(table, context, at, form)?;
        made = Some(with_single(table, made, member)?);
    }
    made_or_empty(table, made)
}

/// The node of a formula under a binder of some words.
#[cycle(resolved)]
#[tactic(auto, using(crate::proofs::CycleSteps::cycle_steps))]
fn resolved_under(
    table: &mut Table,
    context: &Context,
    at: &Spot,
    words: &[Word],
    form: &SpecTree,
) -> Result<usize, NoMemory>
    requires held { AreHeld (nodes table.old) context.now.meanings.now }
    ensures node { IfOk result (λ made. slice_get (nodes table.new) made ≡ Some (under_in (nodes table.new) context.now at.now words.now (form_tree form.now))) }
    ensures grows { Extends table.old table.new }
    ensures held { AreHeld (nodes table.new) context.now.meanings.now }
{
    let bound = under(table.alloc(), at.bound, words)?;
    resolved(
        table,
        context,
        &Spot {
            bound: bound.as_slice(),
            ..*at
        },
        form,
    )
}

/// The node of the value of a formula: its names resolved, and what is defined put for each defined variable.
/// The answer is want of memory where a value is taken at a receiver or at the method's entry that nests
/// deeper than MOST_LEVELS.
#[cycle(resolved)]
#[tactic(auto, using(crate::proofs::CycleSteps::cycle_steps))]
pub fn resolved(
    table: &mut Table,
    context: &Context,
    at: &Spot,
    form: &SpecTree,
) -> Result<usize, NoMemory>
    requires held { AreHeld (nodes table.old) context.now.meanings.now }
    ensures node { IfOk result (IsResolved (nodes table.new) context.now at.now (form_tree form.now)) }
    ensures grows { Extends table.old table.new }
    ensures held { AreHeld (nodes table.new) context.now.meanings.now }
{
    match &form.body {
        SpecBody::Null => table.make(Shape::Null),
        SpecBody::True => table.make(Shape::True),
        SpecBody::False => table.make(Shape::False),
        SpecBody::Univ => table.make(Shape::Univ),
        SpecBody::Number(number) => constant(table, number),
        SpecBody::Name(word) => name_value(table, context, at, word),
        SpecBody::Member(inner, word) => {
            let node = resolved(table, context, at, inner)?;
            after_dots(table, context, at, node, word)
        }
        SpecBody::Not(inner) => {
            let node = resolved(table, context, at, inner)?;
            negation(table, node)
        }
        SpecBody::Minus(inner) => {
            let node = resolved(table, context, at, inner)?;
            opposite(table, node)
        }
        SpecBody::Old(inner) => {
            let node = resolved(table, context, at, inner)?;
            at_entry(table, node)
        }
        SpecBody::Card(inner) => {
            let node = resolved(table, context, at, inner)?;
            cardinality(table, node)
        }
        SpecBody::Binary(op, left, right) => {
            let left_node = resolved(table, context, at, left)?;
            let right_node = resolved(table, context, at, right)?;
            binary(table, *op, left, left_node, right, right_node)
        }
        SpecBody::Dvd(number, inner) => {
            let node = resolved(table, context, at, inner)?;
            divides(table, number, node)
        }
        SpecBody::All(words, inner) => {
            let node = resolved_under(table, context, at, words.items(), inner)?;
            for_all(table, words.items().len(), node)
        }
        SpecBody::Ex(words, inner) => {
            let node = resolved_under(table, context, at, words.items(), inner)?;
            for_some(table, words.items().len(), node)
        }
        SpecBody::Tree(words) => forest_of(table, context, at, words.items()),
        SpecBody::Rtrancl(first, second, body, left, right) => {
            let left_node = resolved(table, context, at, left)?;
            let right_node = resolved(table, context, at, right)?;
            let path = Path {
                first,
                second,
                body,
            };
            reach_of(table, context, at, &path, left_node, right_node)
        }
        SpecBody::Braces(forms) => union_of(table, context, at, forms.items()),
        SpecBody::Compr(word, inner) => {
            let node = resolved_under(table, context, at, from_ref(word), inner)?;
            comprehension(table, node)
        }
    }
}
