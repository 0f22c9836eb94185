// A node is evaluated by its shape. Each shape has a function of its own, so that a level of a deep formula takes little of the stack.
ghost use Rattle.std.specs.Prelude.{◌≡◌, ◌<◌, ◌&&◌, ◌∷◌, ℕ, suc, true, false, IfOk, IfErr, slice_get, length};
ghost use Rattle.jh_form.specs.Tree.{FieldTree, ValueTree, of_object, of_number, of_truth, of_set, of_field};
ghost use Rattle.jh_form.specs.Meaning.{term_value, int_value, set_value, field_value, truth, fields_value, count_below, every, some, agree};
ghost use Rattle.jh_arena.specs.declared.table.shapes.Shape.TheVariants as s;
ghost use Rattle.jh_arena.specs.table.Entries.{is_object, is_number, is_set, is_field, is_truth, the_object, the_number, the_set, the_field, the_truth, the_value, the_list, are_fields, fields_at};
ghost use Rattle.jh_arena.specs.table.Nodes.{nodes};
ghost use Rattle.jh_export.specs.Standing.{Stands, AreBelow};
ghost use Rattle.jh_sem.specs.declared.answer.SemError.TheVariants.{Wide};
ghost use Rattle.jh_sem.specs.Wide.{AreInside, IsWide};
ghost use Rattle.jh_sem.specs.Bounds.{bound_list};
ghost use Rattle.jh_sem.specs.Graphs.{listed_fields, IsRow, AreRows, HasObjects, AreSame};

use crate::SemError;
use crate::answer::{added, agree, divides, equal, follows, negated, scaled, subtracted};
use crate::bound::Bound;
use crate::forest::is_forest;
use crate::graph::leads_to;
use crate::objects::{object_of, rows_of};
use crate::standing::{fields_of, sort_of, standing};
use crate::world::World;
use jh_arena::table::Shape;
use jh_name::Sort;

/// The number of a node.
#[cycle(evaluated)]
#[inline(never)]
#[tactic(auto, using(crate::proofs::Evaluated::number_of_steps))]
pub(crate) fn number_of<W: World>(
    world: &W,
    node: usize,
    bound: &Bound<'_>,
) -> Result<i128, SemError>
    requires sort { is_number (slice_get (nodes (W.listing world.now)) node) ≡ true }
    requires bound { AreInside (W.meaning world.now).last (bound_list bound.now) }
    ensures value { IfOk result (λ answer. answer ≡ int_value (the_number (slice_get (nodes (W.listing world.now)) node)) (W.meaning world.now) (bound_list bound.now)) }
    ensures wide { IfErr result (λ e. e ≡ Wide → IsWide (W.meaning world.now) (of_number (the_number (slice_get (nodes (W.listing world.now)) node)))) }
{
    match standing(world, node) {
        Shape::Const(number) => Ok(i128::from(number)),
        Shape::FreeNumber(name) => Ok(world.number(name)),
        Shape::ReadNumber(a, b) => read_number_value(world, node, a, b, bound),
        Shape::Add(a, b) => add_value(world, node, a, b, bound),
        Shape::Sub(a, b) => sub_value(world, node, a, b, bound),
        Shape::Neg(a) => neg_value(world, node, a, bound),
        Shape::Scale(number, a) => scale_value(world, node, number, a, bound),
        Shape::Card(a) => card_value(world, node, a, bound),
        _ => unreachable!(),
    }
}

#[cycle(evaluated)]
#[inline(never)]
#[tactic(auto, using(crate::proofs::EvalSteps::read_number_steps))]
fn read_number_value<W: World>(
    world: &W,
    node: usize,
    a: usize,
    b: usize,
    bound: &Bound<'_>,
) -> Result<i128, SemError>
    requires stands { Stands (W.listing world.now) node (s.ReadNumber a b) }
    requires bound { AreInside (W.meaning world.now).last (bound_list bound.now) }
    ensures value { IfOk result (λ answer. answer ≡ int_value (the_number (slice_get (nodes (W.listing world.now)) node)) (W.meaning world.now) (bound_list bound.now)) }
    ensures wide { IfErr result (λ e. e ≡ Wide → IsWide (W.meaning world.now) (of_number (the_number (slice_get (nodes (W.listing world.now)) node)))) }
{
    let at = object_of(world, b, bound)?;
    number_in(world, a, at, bound)
}

#[cycle(evaluated)]
#[inline(never)]
#[tactic(auto, using(crate::proofs::EvalSteps::add_steps, crate::proofs::Widening::wide_steps))]
fn add_value<W: World>(
    world: &W,
    node: usize,
    a: usize,
    b: usize,
    bound: &Bound<'_>,
) -> Result<i128, SemError>
    requires stands { Stands (W.listing world.now) node (s.Add a b) }
    requires bound { AreInside (W.meaning world.now).last (bound_list bound.now) }
    ensures value { IfOk result (λ answer. answer ≡ int_value (the_number (slice_get (nodes (W.listing world.now)) node)) (W.meaning world.now) (bound_list bound.now)) }
    ensures wide { IfErr result (λ e. e ≡ Wide → IsWide (W.meaning world.now) (of_number (the_number (slice_get (nodes (W.listing world.now)) node)))) }
{
    let left = number_of(world, a, bound)?;
    let right = number_of(world, b, bound)?;
    added(&left, &right)
}

#[cycle(evaluated)]
#[inline(never)]
#[tactic(auto, using(crate::proofs::EvalSteps::sub_steps, crate::proofs::Widening::wide_steps))]
fn sub_value<W: World>(
    world: &W,
    node: usize,
    a: usize,
    b: usize,
    bound: &Bound<'_>,
) -> Result<i128, SemError>
    requires stands { Stands (W.listing world.now) node (s.Sub a b) }
    requires bound { AreInside (W.meaning world.now).last (bound_list bound.now) }
    ensures value { IfOk result (λ answer. answer ≡ int_value (the_number (slice_get (nodes (W.listing world.now)) node)) (W.meaning world.now) (bound_list bound.now)) }
    ensures wide { IfErr result (λ e. e ≡ Wide → IsWide (W.meaning world.now) (of_number (the_number (slice_get (nodes (W.listing world.now)) node)))) }
{
    let left = number_of(world, a, bound)?;
    let right = number_of(world, b, bound)?;
    subtracted(&left, &right)
}

#[cycle(evaluated)]
#[inline(never)]
#[tactic(auto, using(crate::proofs::EvalSteps::neg_steps, crate::proofs::Widening::wide_steps))]
fn neg_value<W: World>(
    world: &W,
    node: usize,
    a: usize,
    bound: &Bound<'_>,
) -> Result<i128, SemError>
    requires stands { Stands (W.listing world.now) node (s.Neg a) }
    requires bound { AreInside (W.meaning world.now).last (bound_list bound.now) }
    ensures value { IfOk result (λ answer. answer ≡ int_value (the_number (slice_get (nodes (W.listing world.now)) node)) (W.meaning world.now) (bound_list bound.now)) }
    ensures wide { IfErr result (λ e. e ≡ Wide → IsWide (W.meaning world.now) (of_number (the_number (slice_get (nodes (W.listing world.now)) node)))) }
{
    let number = number_of(world, a, bound)?;
    negated(&number)
}

#[cycle(evaluated)]
#[inline(never)]
#[tactic(auto, using(crate::proofs::EvalSteps::scale_steps, crate::proofs::Widening::wide_steps))]
fn scale_value<W: World>(
    world: &W,
    node: usize,
    number: i64,
    a: usize,
    bound: &Bound<'_>,
) -> Result<i128, SemError>
    requires stands { Stands (W.listing world.now) node (s.Scale number a) }
    requires bound { AreInside (W.meaning world.now).last (bound_list bound.now) }
    ensures value { IfOk result (λ answer. answer ≡ int_value (the_number (slice_get (nodes (W.listing world.now)) node)) (W.meaning world.now) (bound_list bound.now)) }
    ensures wide { IfErr result (λ e. e ≡ Wide → IsWide (W.meaning world.now) (of_number (the_number (slice_get (nodes (W.listing world.now)) node)))) }
{
    let term = number_of(world, a, bound)?;
    scaled(&number, &term)
}

#[cycle(evaluated)]
#[inline(never)]
#[tactic(auto, using(crate::proofs::EvalSteps::card_steps))]
fn card_value<W: World>(
    world: &W,
    node: usize,
    a: usize,
    bound: &Bound<'_>,
) -> Result<i128, SemError>
    requires stands { Stands (W.listing world.now) node (s.Card a) }
    requires bound { AreInside (W.meaning world.now).last (bound_list bound.now) }
    ensures value { IfOk result (λ answer. answer ≡ int_value (the_number (slice_get (nodes (W.listing world.now)) node)) (W.meaning world.now) (bound_list bound.now)) }
    ensures wide { IfErr result (λ e. e ≡ Wide → IsWide (W.meaning world.now) (of_number (the_number (slice_get (nodes (W.listing world.now)) node)))) }
{
    let count = members(world, a, bound)?;
    Ok(i128::from(count))
}

/// Whether an object is a member of the set of a node.
#[cycle(evaluated)]
#[inline(never)]
#[tactic(auto, using(crate::proofs::Evaluated::set_of_steps))]
pub(crate) fn has_member<W: World>(
    world: &W,
    node: usize,
    object: u32,
    bound: &Bound<'_>,
) -> Result<bool, SemError>
    requires sort { is_set (slice_get (nodes (W.listing world.now)) node) ≡ true }
    requires object { object < suc (W.meaning world.now).last }
    requires bound { AreInside (W.meaning world.now).last (bound_list bound.now) }
    ensures value { IfOk result (λ answer. answer ≡ set_value (the_set (slice_get (nodes (W.listing world.now)) node)) (W.meaning world.now) (bound_list bound.now) object) }
    ensures wide { IfErr result (λ e. e ≡ Wide → IsWide (W.meaning world.now) (of_set (the_set (slice_get (nodes (W.listing world.now)) node)))) }
{
    match standing(world, node) {
        Shape::FreeSet(name) => Ok(world.has(name, object)),
        Shape::ReadSet(a, b) => read_set_value(world, node, a, b, object, bound),
        Shape::Empty => Ok(false),
        Shape::Univ => Ok(true),
        Shape::Single(a) => single_value(world, node, a, object, bound),
        Shape::Union(a, b) => union_value(world, node, a, b, object, bound),
        Shape::Inter(a, b) => inter_value(world, node, a, b, object, bound),
        Shape::Diff(a, b) => diff_value(world, node, a, b, object, bound),
        Shape::Compl(a) => compl_value(world, node, a, object, bound),
        Shape::Compr(a) => compr_value(world, node, a, object, bound),
        _ => unreachable!(),
    }
}

#[cycle(evaluated)]
#[inline(never)]
#[tactic(auto, using(crate::proofs::EvalSteps::read_set_steps))]
fn read_set_value<W: World>(
    world: &W,
    node: usize,
    a: usize,
    b: usize,
    object: u32,
    bound: &Bound<'_>,
) -> Result<bool, SemError>
    requires stands { Stands (W.listing world.now) node (s.ReadSet a b) }
    requires object { object < suc (W.meaning world.now).last }
    requires bound { AreInside (W.meaning world.now).last (bound_list bound.now) }
    ensures value { IfOk result (λ answer. answer ≡ set_value (the_set (slice_get (nodes (W.listing world.now)) node)) (W.meaning world.now) (bound_list bound.now) object) }
    ensures wide { IfErr result (λ e. e ≡ Wide → IsWide (W.meaning world.now) (of_set (the_set (slice_get (nodes (W.listing world.now)) node)))) }
{
    let at = object_of(world, b, bound)?;
    member_in(world, a, at, object, bound)
}

#[inline(never)]
#[tactic(auto, using(crate::proofs::EvalSteps::single_steps))]
fn single_value<W: World>(
    world: &W,
    node: usize,
    a: usize,
    object: u32,
    bound: &Bound<'_>,
) -> Result<bool, SemError>
    requires stands { Stands (W.listing world.now) node (s.Single a) }
    requires object { object < suc (W.meaning world.now).last }
    requires bound { AreInside (W.meaning world.now).last (bound_list bound.now) }
    ensures value { IfOk result (λ answer. answer ≡ set_value (the_set (slice_get (nodes (W.listing world.now)) node)) (W.meaning world.now) (bound_list bound.now) object) }
    ensures wide { IfErr result (λ e. e ≡ Wide → IsWide (W.meaning world.now) (of_set (the_set (slice_get (nodes (W.listing world.now)) node)))) }
{
    let member = object_of(world, a, bound)?;
    Ok(object == member)
}

#[cycle(evaluated)]
#[inline(never)]
#[tactic(auto, using(crate::proofs::EvalSteps::union_steps))]
fn union_value<W: World>(
    world: &W,
    node: usize,
    a: usize,
    b: usize,
    object: u32,
    bound: &Bound<'_>,
) -> Result<bool, SemError>
    requires stands { Stands (W.listing world.now) node (s.Union a b) }
    requires object { object < suc (W.meaning world.now).last }
    requires bound { AreInside (W.meaning world.now).last (bound_list bound.now) }
    ensures value { IfOk result (λ answer. answer ≡ set_value (the_set (slice_get (nodes (W.listing world.now)) node)) (W.meaning world.now) (bound_list bound.now) object) }
    ensures wide { IfErr result (λ e. e ≡ Wide → IsWide (W.meaning world.now) (of_set (the_set (slice_get (nodes (W.listing world.now)) node)))) }
{
    if has_member(world, a, object, bound)? {
        return Ok(true);
    }
    has_member(world, b, object, bound)
}

#[cycle(evaluated)]
#[inline(never)]
#[tactic(auto, using(crate::proofs::EvalSteps::inter_steps))]
fn inter_value<W: World>(
    world: &W,
    node: usize,
    a: usize,
    b: usize,
    object: u32,
    bound: &Bound<'_>,
) -> Result<bool, SemError>
    requires stands { Stands (W.listing world.now) node (s.Inter a b) }
    requires object { object < suc (W.meaning world.now).last }
    requires bound { AreInside (W.meaning world.now).last (bound_list bound.now) }
    ensures value { IfOk result (λ answer. answer ≡ set_value (the_set (slice_get (nodes (W.listing world.now)) node)) (W.meaning world.now) (bound_list bound.now) object) }
    ensures wide { IfErr result (λ e. e ≡ Wide → IsWide (W.meaning world.now) (of_set (the_set (slice_get (nodes (W.listing world.now)) node)))) }
{
    if !has_member(world, a, object, bound)? {
        return Ok(false);
    }
    has_member(world, b, object, bound)
}

#[cycle(evaluated)]
#[inline(never)]
#[tactic(auto, using(crate::proofs::EvalSteps::diff_steps))]
fn diff_value<W: World>(
    world: &W,
    node: usize,
    a: usize,
    b: usize,
    object: u32,
    bound: &Bound<'_>,
) -> Result<bool, SemError>
    requires stands { Stands (W.listing world.now) node (s.Diff a b) }
    requires object { object < suc (W.meaning world.now).last }
    requires bound { AreInside (W.meaning world.now).last (bound_list bound.now) }
    ensures value { IfOk result (λ answer. answer ≡ set_value (the_set (slice_get (nodes (W.listing world.now)) node)) (W.meaning world.now) (bound_list bound.now) object) }
    ensures wide { IfErr result (λ e. e ≡ Wide → IsWide (W.meaning world.now) (of_set (the_set (slice_get (nodes (W.listing world.now)) node)))) }
{
    if !has_member(world, a, object, bound)? {
        return Ok(false);
    }
    let other = has_member(world, b, object, bound)?;
    Ok(!other)
}

#[cycle(evaluated)]
#[inline(never)]
#[tactic(auto, using(crate::proofs::EvalSteps::compl_steps))]
fn compl_value<W: World>(
    world: &W,
    node: usize,
    a: usize,
    object: u32,
    bound: &Bound<'_>,
) -> Result<bool, SemError>
    requires stands { Stands (W.listing world.now) node (s.Compl a) }
    requires object { object < suc (W.meaning world.now).last }
    requires bound { AreInside (W.meaning world.now).last (bound_list bound.now) }
    ensures value { IfOk result (λ answer. answer ≡ set_value (the_set (slice_get (nodes (W.listing world.now)) node)) (W.meaning world.now) (bound_list bound.now) object) }
    ensures wide { IfErr result (λ e. e ≡ Wide → IsWide (W.meaning world.now) (of_set (the_set (slice_get (nodes (W.listing world.now)) node)))) }
{
    let member = has_member(world, a, object, bound)?;
    Ok(!member)
}

#[cycle(evaluated)]
#[inline(never)]
#[tactic(auto, using(crate::proofs::EvalSteps::compr_steps, crate::proofs::Widening::bound_steps))]
fn compr_value<W: World>(
    world: &W,
    node: usize,
    a: usize,
    object: u32,
    bound: &Bound<'_>,
) -> Result<bool, SemError>
    requires stands { Stands (W.listing world.now) node (s.Compr a) }
    requires object { object < suc (W.meaning world.now).last }
    requires bound { AreInside (W.meaning world.now).last (bound_list bound.now) }
    ensures value { IfOk result (λ answer. answer ≡ set_value (the_set (slice_get (nodes (W.listing world.now)) node)) (W.meaning world.now) (bound_list bound.now) object) }
    ensures wide { IfErr result (λ e. e ≡ Wide → IsWide (W.meaning world.now) (of_set (the_set (slice_get (nodes (W.listing world.now)) node)))) }
{
    truth_of(world, a, &Bound::Under(object, &*bound))
}

/// The number that the field of a node has at an object.
#[cycle(evaluated)]
#[inline(never)]
#[tactic(auto, using(crate::proofs::Evaluated::field_steps))]
fn number_in<W: World>(world: &W, node: usize, at: u32, bound: &Bound<'_>) -> Result<i128, SemError>
    requires sort { is_field (slice_get (nodes (W.listing world.now)) node) ≡ true }
    requires at { at < suc (W.meaning world.now).last }
    requires bound { AreInside (W.meaning world.now).last (bound_list bound.now) }
    ensures value { IfOk result (λ answer. answer ≡ (field_value (the_field (slice_get (nodes (W.listing world.now)) node)) (W.meaning world.now) (bound_list bound.now)).numbers at) }
    ensures wide { IfErr result (λ e. e ≡ Wide → IsWide (W.meaning world.now) (of_field (the_field (slice_get (nodes (W.listing world.now)) node)))) }
{
    match standing(world, node) {
        Shape::FreeField(name) => Ok(world.number_at(name, at)),
        Shape::Update(a, b, c) => number_updated(world, node, a, b, c, at, bound),
        _ => unreachable!(),
    }
}

#[cycle(evaluated)]
#[inline(never)]
#[tactic(auto, using(crate::proofs::EvalSteps::update_steps, crate::proofs::Updates::number_steps))]
fn number_updated<W: World>(
    world: &W,
    node: usize,
    a: usize,
    b: usize,
    c: usize,
    at: u32,
    bound: &Bound<'_>,
) -> Result<i128, SemError>
    requires stands { Stands (W.listing world.now) node (s.Update a b c) }
    requires at { at < suc (W.meaning world.now).last }
    requires bound { AreInside (W.meaning world.now).last (bound_list bound.now) }
    ensures value { IfOk result (λ answer. answer ≡ (field_value (the_field (slice_get (nodes (W.listing world.now)) node)) (W.meaning world.now) (bound_list bound.now)).numbers at) }
    ensures wide { IfErr result (λ e. e ≡ Wide → IsWide (W.meaning world.now) (of_field (the_field (slice_get (nodes (W.listing world.now)) node)))) }
{
    let place = object_of(world, b, bound)?;
    if at != place {
        return number_in(world, a, at, bound);
    }
    match sort_of(world, c) {
        Sort::Int => number_of(world, c, bound),
        _ => number_in(world, a, at, bound),
    }
}

/// The truth that the field of a node has at an object.
#[cycle(evaluated)]
#[inline(never)]
#[tactic(auto, using(crate::proofs::Evaluated::field_steps))]
fn truth_in<W: World>(world: &W, node: usize, at: u32, bound: &Bound<'_>) -> Result<bool, SemError>
    requires sort { is_field (slice_get (nodes (W.listing world.now)) node) ≡ true }
    requires at { at < suc (W.meaning world.now).last }
    requires bound { AreInside (W.meaning world.now).last (bound_list bound.now) }
    ensures value { IfOk result (λ answer. answer ≡ (field_value (the_field (slice_get (nodes (W.listing world.now)) node)) (W.meaning world.now) (bound_list bound.now)).truths at) }
    ensures wide { IfErr result (λ e. e ≡ Wide → IsWide (W.meaning world.now) (of_field (the_field (slice_get (nodes (W.listing world.now)) node)))) }
{
    match standing(world, node) {
        Shape::FreeField(name) => Ok(world.truth_at(name, at)),
        Shape::Update(a, b, c) => truth_updated(world, node, a, b, c, at, bound),
        _ => unreachable!(),
    }
}

#[cycle(evaluated)]
#[inline(never)]
#[tactic(auto, using(crate::proofs::EvalSteps::update_steps, crate::proofs::Updates::truth_steps))]
fn truth_updated<W: World>(
    world: &W,
    node: usize,
    a: usize,
    b: usize,
    c: usize,
    at: u32,
    bound: &Bound<'_>,
) -> Result<bool, SemError>
    requires stands { Stands (W.listing world.now) node (s.Update a b c) }
    requires at { at < suc (W.meaning world.now).last }
    requires bound { AreInside (W.meaning world.now).last (bound_list bound.now) }
    ensures value { IfOk result (λ answer. answer ≡ (field_value (the_field (slice_get (nodes (W.listing world.now)) node)) (W.meaning world.now) (bound_list bound.now)).truths at) }
    ensures wide { IfErr result (λ e. e ≡ Wide → IsWide (W.meaning world.now) (of_field (the_field (slice_get (nodes (W.listing world.now)) node)))) }
{
    let place = object_of(world, b, bound)?;
    if at != place {
        return truth_in(world, a, at, bound);
    }
    match sort_of(world, c) {
        Sort::Bool => truth_of(world, c, bound),
        _ => truth_in(world, a, at, bound),
    }
}

/// Whether an object is a member of the set that the field of a node has at an object.
#[cycle(evaluated)]
#[inline(never)]
#[tactic(auto, using(crate::proofs::Evaluated::field_steps))]
fn member_in<W: World>(
    world: &W,
    node: usize,
    at: u32,
    object: u32,
    bound: &Bound<'_>,
) -> Result<bool, SemError>
    requires sort { is_field (slice_get (nodes (W.listing world.now)) node) ≡ true }
    requires at { at < suc (W.meaning world.now).last }
    requires object { object < suc (W.meaning world.now).last }
    requires bound { AreInside (W.meaning world.now).last (bound_list bound.now) }
    ensures value { IfOk result (λ answer. answer ≡ (field_value (the_field (slice_get (nodes (W.listing world.now)) node)) (W.meaning world.now) (bound_list bound.now)).sets at object) }
    ensures wide { IfErr result (λ e. e ≡ Wide → IsWide (W.meaning world.now) (of_field (the_field (slice_get (nodes (W.listing world.now)) node)))) }
{
    match standing(world, node) {
        Shape::FreeField(name) => Ok(world.has_at(name, at, object)),
        Shape::Update(a, b, c) => member_updated(world, node, a, b, c, at, object, bound),
        _ => unreachable!(),
    }
}

#[cycle(evaluated)]
#[inline(never)]
#[tactic(auto, using(crate::proofs::EvalSteps::update_steps, crate::proofs::Updates::member_steps))]
fn member_updated<W: World>(
    world: &W,
    node: usize,
    a: usize,
    b: usize,
    c: usize,
    at: u32,
    object: u32,
    bound: &Bound<'_>,
) -> Result<bool, SemError>
    requires stands { Stands (W.listing world.now) node (s.Update a b c) }
    requires at { at < suc (W.meaning world.now).last }
    requires object { object < suc (W.meaning world.now).last }
    requires bound { AreInside (W.meaning world.now).last (bound_list bound.now) }
    ensures value { IfOk result (λ answer. answer ≡ (field_value (the_field (slice_get (nodes (W.listing world.now)) node)) (W.meaning world.now) (bound_list bound.now)).sets at object) }
    ensures wide { IfErr result (λ e. e ≡ Wide → IsWide (W.meaning world.now) (of_field (the_field (slice_get (nodes (W.listing world.now)) node)))) }
{
    let place = object_of(world, b, bound)?;
    if at != place {
        return member_in(world, a, at, object, bound);
    }
    match sort_of(world, c) {
        Sort::Set => has_member(world, c, object, bound),
        _ => member_in(world, a, at, object, bound),
    }
}

/// The truth of a node.
#[cycle(evaluated)]
#[inline(never)]
#[tactic(auto, using(crate::proofs::Evaluated::truth_of_steps))]
pub(crate) fn truth_of<W: World>(
    world: &W,
    node: usize,
    bound: &Bound<'_>,
) -> Result<bool, SemError>
    requires sort { is_truth (slice_get (nodes (W.listing world.now)) node) ≡ true }
    requires bound { AreInside (W.meaning world.now).last (bound_list bound.now) }
    ensures value { IfOk result (λ answer. answer ≡ truth (the_truth (slice_get (nodes (W.listing world.now)) node)) (W.meaning world.now) (bound_list bound.now)) }
    ensures wide { IfErr result (λ e. e ≡ Wide → IsWide (W.meaning world.now) (of_truth (the_truth (slice_get (nodes (W.listing world.now)) node)))) }
{
    match standing(world, node) {
        Shape::True => Ok(true),
        Shape::False => Ok(false),
        Shape::FreeTruth(name) => Ok(world.truth(name)),
        Shape::ReadTruth(a, b) => read_truth_value(world, node, a, b, bound),
        Shape::Negation(a) => negation_value(world, node, a, bound),
        Shape::And(a, b) => and_value(world, node, a, b, bound),
        Shape::Or(a, b) => or_value(world, node, a, b, bound),
        Shape::Implies(a, b) => implies_value(world, node, a, b, bound),
        Shape::Iff(a, b) => iff_value(world, node, a, b, bound),
        Shape::All(a) => all_value(world, node, a, bound),
        Shape::Ex(a) => ex_value(world, node, a, bound),
        Shape::EqObject(a, b) => eq_object_value(world, node, a, b, bound),
        Shape::EqNumber(a, b) => eq_number_value(world, node, a, b, bound),
        Shape::EqSet(a, b) => eq_set_value(world, node, a, b, bound),
        Shape::Less(a, b) => less_value(world, node, a, b, bound),
        Shape::LessEqual(a, b) => less_equal_value(world, node, a, b, bound),
        Shape::Divides(number, a) => divides_value(world, node, number, a, bound),
        Shape::Member(a, b) => member_value(world, node, a, b, bound),
        Shape::Subset(a, b) => subset_value(world, node, a, b, bound),
        Shape::Reach(list, a, b) => reach_value(world, node, list, a, b, bound),
        Shape::Tree(list) => tree_value(world, node, list, bound),
        Shape::Mark(mark, a) => mark_value(world, node, mark, a, bound),
        _ => unreachable!(),
    }
}

#[cycle(evaluated)]
#[inline(never)]
#[tactic(auto, using(crate::proofs::EvalSteps::read_truth_steps))]
fn read_truth_value<W: World>(
    world: &W,
    node: usize,
    a: usize,
    b: usize,
    bound: &Bound<'_>,
) -> Result<bool, SemError>
    requires stands { Stands (W.listing world.now) node (s.ReadTruth a b) }
    requires bound { AreInside (W.meaning world.now).last (bound_list bound.now) }
    ensures value { IfOk result (λ answer. answer ≡ truth (the_truth (slice_get (nodes (W.listing world.now)) node)) (W.meaning world.now) (bound_list bound.now)) }
    ensures wide { IfErr result (λ e. e ≡ Wide → IsWide (W.meaning world.now) (of_truth (the_truth (slice_get (nodes (W.listing world.now)) node)))) }
{
    let at = object_of(world, b, bound)?;
    truth_in(world, a, at, bound)
}

#[cycle(evaluated)]
#[inline(never)]
#[tactic(auto, using(crate::proofs::EvalSteps::negation_steps))]
fn negation_value<W: World>(
    world: &W,
    node: usize,
    a: usize,
    bound: &Bound<'_>,
) -> Result<bool, SemError>
    requires stands { Stands (W.listing world.now) node (s.Negation a) }
    requires bound { AreInside (W.meaning world.now).last (bound_list bound.now) }
    ensures value { IfOk result (λ answer. answer ≡ truth (the_truth (slice_get (nodes (W.listing world.now)) node)) (W.meaning world.now) (bound_list bound.now)) }
    ensures wide { IfErr result (λ e. e ≡ Wide → IsWide (W.meaning world.now) (of_truth (the_truth (slice_get (nodes (W.listing world.now)) node)))) }
{
    let truth = truth_of(world, a, bound)?;
    Ok(!truth)
}

#[cycle(evaluated)]
#[inline(never)]
#[tactic(auto, using(crate::proofs::EvalSteps::and_steps))]
fn and_value<W: World>(
    world: &W,
    node: usize,
    a: usize,
    b: usize,
    bound: &Bound<'_>,
) -> Result<bool, SemError>
    requires stands { Stands (W.listing world.now) node (s.And a b) }
    requires bound { AreInside (W.meaning world.now).last (bound_list bound.now) }
    ensures value { IfOk result (λ answer. answer ≡ truth (the_truth (slice_get (nodes (W.listing world.now)) node)) (W.meaning world.now) (bound_list bound.now)) }
    ensures wide { IfErr result (λ e. e ≡ Wide → IsWide (W.meaning world.now) (of_truth (the_truth (slice_get (nodes (W.listing world.now)) node)))) }
{
    if !truth_of(world, a, bound)? {
        return Ok(false);
    }
    truth_of(world, b, bound)
}

#[cycle(evaluated)]
#[inline(never)]
#[tactic(auto, using(crate::proofs::EvalSteps::or_steps))]
fn or_value<W: World>(
    world: &W,
    node: usize,
    a: usize,
    b: usize,
    bound: &Bound<'_>,
) -> Result<bool, SemError>
    requires stands { Stands (W.listing world.now) node (s.Or a b) }
    requires bound { AreInside (W.meaning world.now).last (bound_list bound.now) }
    ensures value { IfOk result (λ answer. answer ≡ truth (the_truth (slice_get (nodes (W.listing world.now)) node)) (W.meaning world.now) (bound_list bound.now)) }
    ensures wide { IfErr result (λ e. e ≡ Wide → IsWide (W.meaning world.now) (of_truth (the_truth (slice_get (nodes (W.listing world.now)) node)))) }
{
    if truth_of(world, a, bound)? {
        return Ok(true);
    }
    truth_of(world, b, bound)
}

#[cycle(evaluated)]
#[inline(never)]
#[tactic(auto, using(crate::proofs::EvalSteps::implies_steps))]
fn implies_value<W: World>(
    world: &W,
    node: usize,
    a: usize,
    b: usize,
    bound: &Bound<'_>,
) -> Result<bool, SemError>
    requires stands { Stands (W.listing world.now) node (s.Implies a b) }
    requires bound { AreInside (W.meaning world.now).last (bound_list bound.now) }
    ensures value { IfOk result (λ answer. answer ≡ truth (the_truth (slice_get (nodes (W.listing world.now)) node)) (W.meaning world.now) (bound_list bound.now)) }
    ensures wide { IfErr result (λ e. e ≡ Wide → IsWide (W.meaning world.now) (of_truth (the_truth (slice_get (nodes (W.listing world.now)) node)))) }
{
    if !truth_of(world, a, bound)? {
        return Ok(true);
    }
    truth_of(world, b, bound)
}

#[cycle(evaluated)]
#[inline(never)]
#[tactic(auto, using(crate::proofs::EvalSteps::iff_steps))]
fn iff_value<W: World>(
    world: &W,
    node: usize,
    a: usize,
    b: usize,
    bound: &Bound<'_>,
) -> Result<bool, SemError>
    requires stands { Stands (W.listing world.now) node (s.Iff a b) }
    requires bound { AreInside (W.meaning world.now).last (bound_list bound.now) }
    ensures value { IfOk result (λ answer. answer ≡ truth (the_truth (slice_get (nodes (W.listing world.now)) node)) (W.meaning world.now) (bound_list bound.now)) }
    ensures wide { IfErr result (λ e. e ≡ Wide → IsWide (W.meaning world.now) (of_truth (the_truth (slice_get (nodes (W.listing world.now)) node)))) }
{
    let left = truth_of(world, a, bound)?;
    let right = truth_of(world, b, bound)?;
    Ok(agree(left, right))
}

#[cycle(evaluated)]
#[inline(never)]
#[tactic(auto, using(crate::proofs::EvalSteps::all_steps))]
fn all_value<W: World>(
    world: &W,
    node: usize,
    a: usize,
    bound: &Bound<'_>,
) -> Result<bool, SemError>
    requires stands { Stands (W.listing world.now) node (s.All a) }
    requires bound { AreInside (W.meaning world.now).last (bound_list bound.now) }
    ensures value { IfOk result (λ answer. answer ≡ truth (the_truth (slice_get (nodes (W.listing world.now)) node)) (W.meaning world.now) (bound_list bound.now)) }
    ensures wide { IfErr result (λ e. e ≡ Wide → IsWide (W.meaning world.now) (of_truth (the_truth (slice_get (nodes (W.listing world.now)) node)))) }
{
    for_all(world, a, bound)
}

#[cycle(evaluated)]
#[inline(never)]
#[tactic(auto, using(crate::proofs::EvalSteps::ex_steps))]
fn ex_value<W: World>(world: &W, node: usize, a: usize, bound: &Bound<'_>) -> Result<bool, SemError>
    requires stands { Stands (W.listing world.now) node (s.Ex a) }
    requires bound { AreInside (W.meaning world.now).last (bound_list bound.now) }
    ensures value { IfOk result (λ answer. answer ≡ truth (the_truth (slice_get (nodes (W.listing world.now)) node)) (W.meaning world.now) (bound_list bound.now)) }
    ensures wide { IfErr result (λ e. e ≡ Wide → IsWide (W.meaning world.now) (of_truth (the_truth (slice_get (nodes (W.listing world.now)) node)))) }
{
    for_some(world, a, bound)
}

#[inline(never)]
#[tactic(auto, using(crate::proofs::EvalSteps::eq_object_steps))]
fn eq_object_value<W: World>(
    world: &W,
    node: usize,
    a: usize,
    b: usize,
    bound: &Bound<'_>,
) -> Result<bool, SemError>
    requires stands { Stands (W.listing world.now) node (s.EqObject a b) }
    requires bound { AreInside (W.meaning world.now).last (bound_list bound.now) }
    ensures value { IfOk result (λ answer. answer ≡ truth (the_truth (slice_get (nodes (W.listing world.now)) node)) (W.meaning world.now) (bound_list bound.now)) }
    ensures wide { IfErr result (λ e. e ≡ Wide → IsWide (W.meaning world.now) (of_truth (the_truth (slice_get (nodes (W.listing world.now)) node)))) }
{
    let left = object_of(world, a, bound)?;
    let right = object_of(world, b, bound)?;
    Ok(left == right)
}

#[cycle(evaluated)]
#[inline(never)]
#[tactic(auto, using(crate::proofs::EvalSteps::eq_number_steps))]
fn eq_number_value<W: World>(
    world: &W,
    node: usize,
    a: usize,
    b: usize,
    bound: &Bound<'_>,
) -> Result<bool, SemError>
    requires stands { Stands (W.listing world.now) node (s.EqNumber a b) }
    requires bound { AreInside (W.meaning world.now).last (bound_list bound.now) }
    ensures value { IfOk result (λ answer. answer ≡ truth (the_truth (slice_get (nodes (W.listing world.now)) node)) (W.meaning world.now) (bound_list bound.now)) }
    ensures wide { IfErr result (λ e. e ≡ Wide → IsWide (W.meaning world.now) (of_truth (the_truth (slice_get (nodes (W.listing world.now)) node)))) }
{
    let left = number_of(world, a, bound)?;
    let right = number_of(world, b, bound)?;
    Ok(equal(left, right))
}

#[cycle(evaluated)]
#[inline(never)]
#[tactic(auto, using(crate::proofs::EvalSteps::less_steps))]
fn less_value<W: World>(
    world: &W,
    node: usize,
    a: usize,
    b: usize,
    bound: &Bound<'_>,
) -> Result<bool, SemError>
    requires stands { Stands (W.listing world.now) node (s.Less a b) }
    requires bound { AreInside (W.meaning world.now).last (bound_list bound.now) }
    ensures value { IfOk result (λ answer. answer ≡ truth (the_truth (slice_get (nodes (W.listing world.now)) node)) (W.meaning world.now) (bound_list bound.now)) }
    ensures wide { IfErr result (λ e. e ≡ Wide → IsWide (W.meaning world.now) (of_truth (the_truth (slice_get (nodes (W.listing world.now)) node)))) }
{
    let left = number_of(world, a, bound)?;
    let right = number_of(world, b, bound)?;
    Ok(left < right)
}

#[cycle(evaluated)]
#[inline(never)]
#[tactic(auto, using(crate::proofs::EvalSteps::less_equal_steps))]
fn less_equal_value<W: World>(
    world: &W,
    node: usize,
    a: usize,
    b: usize,
    bound: &Bound<'_>,
) -> Result<bool, SemError>
    requires stands { Stands (W.listing world.now) node (s.LessEqual a b) }
    requires bound { AreInside (W.meaning world.now).last (bound_list bound.now) }
    ensures value { IfOk result (λ answer. answer ≡ truth (the_truth (slice_get (nodes (W.listing world.now)) node)) (W.meaning world.now) (bound_list bound.now)) }
    ensures wide { IfErr result (λ e. e ≡ Wide → IsWide (W.meaning world.now) (of_truth (the_truth (slice_get (nodes (W.listing world.now)) node)))) }
{
    let left = number_of(world, a, bound)?;
    let right = number_of(world, b, bound)?;
    Ok(left <= right)
}

#[cycle(evaluated)]
#[inline(never)]
#[tactic(auto, using(crate::proofs::EvalSteps::eq_set_steps))]
fn eq_set_value<W: World>(
    world: &W,
    node: usize,
    a: usize,
    b: usize,
    bound: &Bound<'_>,
) -> Result<bool, SemError>
    requires stands { Stands (W.listing world.now) node (s.EqSet a b) }
    requires bound { AreInside (W.meaning world.now).last (bound_list bound.now) }
    ensures value { IfOk result (λ answer. answer ≡ truth (the_truth (slice_get (nodes (W.listing world.now)) node)) (W.meaning world.now) (bound_list bound.now)) }
    ensures wide { IfErr result (λ e. e ≡ Wide → IsWide (W.meaning world.now) (of_truth (the_truth (slice_get (nodes (W.listing world.now)) node)))) }
{
    for place in 0..world.last() as usize + 1 {
        let object = place as u32;
        let left = has_member(world, a, object, bound)?;
        let right = has_member(world, b, object, bound)?;
        if !agree(left, right) {
            return Ok(false);
        }
    }
    Ok(true)
}

#[cycle(evaluated)]
#[inline(never)]
#[tactic(auto, using(crate::proofs::EvalSteps::divides_steps))]
fn divides_value<W: World>(
    world: &W,
    node: usize,
    number: i64,
    a: usize,
    bound: &Bound<'_>,
) -> Result<bool, SemError>
    requires stands { Stands (W.listing world.now) node (s.Divides number a) }
    requires bound { AreInside (W.meaning world.now).last (bound_list bound.now) }
    ensures value { IfOk result (λ answer. answer ≡ truth (the_truth (slice_get (nodes (W.listing world.now)) node)) (W.meaning world.now) (bound_list bound.now)) }
    ensures wide { IfErr result (λ e. e ≡ Wide → IsWide (W.meaning world.now) (of_truth (the_truth (slice_get (nodes (W.listing world.now)) node)))) }
{
    let term = number_of(world, a, bound)?;
    Ok(divides(number, term))
}

#[cycle(evaluated)]
#[inline(never)]
#[tactic(auto, using(crate::proofs::EvalSteps::member_steps))]
fn member_value<W: World>(
    world: &W,
    node: usize,
    a: usize,
    b: usize,
    bound: &Bound<'_>,
) -> Result<bool, SemError>
    requires stands { Stands (W.listing world.now) node (s.Member a b) }
    requires bound { AreInside (W.meaning world.now).last (bound_list bound.now) }
    ensures value { IfOk result (λ answer. answer ≡ truth (the_truth (slice_get (nodes (W.listing world.now)) node)) (W.meaning world.now) (bound_list bound.now)) }
    ensures wide { IfErr result (λ e. e ≡ Wide → IsWide (W.meaning world.now) (of_truth (the_truth (slice_get (nodes (W.listing world.now)) node)))) }
{
    let object = object_of(world, a, bound)?;
    has_member(world, b, object, bound)
}

#[cycle(evaluated)]
#[inline(never)]
#[tactic(auto, using(crate::proofs::EvalSteps::subset_steps))]
fn subset_value<W: World>(
    world: &W,
    node: usize,
    a: usize,
    b: usize,
    bound: &Bound<'_>,
) -> Result<bool, SemError>
    requires stands { Stands (W.listing world.now) node (s.Subset a b) }
    requires bound { AreInside (W.meaning world.now).last (bound_list bound.now) }
    ensures value { IfOk result (λ answer. answer ≡ truth (the_truth (slice_get (nodes (W.listing world.now)) node)) (W.meaning world.now) (bound_list bound.now)) }
    ensures wide { IfErr result (λ e. e ≡ Wide → IsWide (W.meaning world.now) (of_truth (the_truth (slice_get (nodes (W.listing world.now)) node)))) }
{
    for place in 0..world.last() as usize + 1 {
        let object = place as u32;
        let left = has_member(world, a, object, bound)?;
        let right = has_member(world, b, object, bound)?;
        if !follows(left, right) {
            return Ok(false);
        }
    }
    Ok(true)
}

#[inline(never)]
#[tactic(auto, using(crate::proofs::EvalSteps::reach_steps))]
fn reach_value<W: World>(
    world: &W,
    node: usize,
    list: usize,
    a: usize,
    b: usize,
    bound: &Bound<'_>,
) -> Result<bool, SemError>
    requires stands { Stands (W.listing world.now) node (s.Reach list a b) }
    requires bound { AreInside (W.meaning world.now).last (bound_list bound.now) }
    ensures value { IfOk result (λ answer. answer ≡ truth (the_truth (slice_get (nodes (W.listing world.now)) node)) (W.meaning world.now) (bound_list bound.now)) }
    ensures wide { IfErr result (λ e. e ≡ Wide → IsWide (W.meaning world.now) (of_truth (the_truth (slice_get (nodes (W.listing world.now)) node)))) }
{
    let from = object_of(world, a, bound)?;
    let to = object_of(world, b, bound)?;
    let rows = rows_of(world, node, fields_of(world, list), bound)?;
    let reached = leads_to(
        world.table().alloc(),
        rows.as_slice(),
        world.last(),
        from,
        to,
    )?;
    Ok(reached)
}

#[inline(never)]
#[tactic(auto, using(crate::proofs::EvalSteps::tree_steps))]
fn tree_value<W: World>(
    world: &W,
    node: usize,
    list: usize,
    bound: &Bound<'_>,
) -> Result<bool, SemError>
    requires stands { Stands (W.listing world.now) node (s.Tree list) }
    requires bound { AreInside (W.meaning world.now).last (bound_list bound.now) }
    ensures value { IfOk result (λ answer. answer ≡ truth (the_truth (slice_get (nodes (W.listing world.now)) node)) (W.meaning world.now) (bound_list bound.now)) }
    ensures wide { IfErr result (λ e. e ≡ Wide → IsWide (W.meaning world.now) (of_truth (the_truth (slice_get (nodes (W.listing world.now)) node)))) }
{
    let rows = rows_of(world, node, fields_of(world, list), bound)?;
    let forest = is_forest(world.table().alloc(), rows.as_slice(), world.last())?;
    Ok(forest)
}

#[cycle(evaluated)]
#[inline(never)]
#[tactic(auto, using(crate::proofs::EvalSteps::mark_steps))]
fn mark_value<W: World>(
    world: &W,
    node: usize,
    mark: usize,
    a: usize,
    bound: &Bound<'_>,
) -> Result<bool, SemError>
    requires stands { Stands (W.listing world.now) node (s.Mark mark a) }
    requires bound { AreInside (W.meaning world.now).last (bound_list bound.now) }
    ensures value { IfOk result (λ answer. answer ≡ truth (the_truth (slice_get (nodes (W.listing world.now)) node)) (W.meaning world.now) (bound_list bound.now)) }
    ensures wide { IfErr result (λ e. e ≡ Wide → IsWide (W.meaning world.now) (of_truth (the_truth (slice_get (nodes (W.listing world.now)) node)))) }
{
    truth_of(world, a, bound)
}

/// Whether a formula is true of all objects.
#[cycle(evaluated)]
#[inline(never)]
#[tactic(auto, using(crate::proofs::Widening::bound_steps))]
fn for_all<W: World>(world: &W, node: usize, bound: &Bound<'_>) -> Result<bool, SemError>
    requires sort { is_truth (slice_get (nodes (W.listing world.now)) node) ≡ true }
    requires bound { AreInside (W.meaning world.now).last (bound_list bound.now) }
    ensures value { IfOk result (λ answer. answer ≡ every (W.meaning world.now).last (λ x. truth (the_truth (slice_get (nodes (W.listing world.now)) node)) (W.meaning world.now) (x ∷ (bound_list bound.now)))) }
    ensures wide { IfErr result (λ e. e ≡ Wide → IsWide (W.meaning world.now) (of_truth (the_truth (slice_get (nodes (W.listing world.now)) node)))) }
{
    for object in 0..=world.last() {
        if !truth_of(world, node, &Bound::Under(object, &*bound))? {
            return Ok(false);
        }
    }
    Ok(true)
}

/// Whether a formula is true of some object.
#[cycle(evaluated)]
#[inline(never)]
#[tactic(auto, using(crate::proofs::Widening::bound_steps))]
fn for_some<W: World>(world: &W, node: usize, bound: &Bound<'_>) -> Result<bool, SemError>
    requires sort { is_truth (slice_get (nodes (W.listing world.now)) node) ≡ true }
    requires bound { AreInside (W.meaning world.now).last (bound_list bound.now) }
    ensures value { IfOk result (λ answer. answer ≡ some (W.meaning world.now).last (λ x. truth (the_truth (slice_get (nodes (W.listing world.now)) node)) (W.meaning world.now) (x ∷ (bound_list bound.now)))) }
    ensures wide { IfErr result (λ e. e ≡ Wide → IsWide (W.meaning world.now) (of_truth (the_truth (slice_get (nodes (W.listing world.now)) node)))) }
{
    for object in 0..=world.last() {
        if truth_of(world, node, &Bound::Under(object, &*bound))? {
            return Ok(true);
        }
    }
    Ok(false)
}

/// How many objects are members of the set of a node.
#[cycle(evaluated)]
#[inline(never)]
fn members<W: World>(world: &W, node: usize, bound: &Bound<'_>) -> Result<u64, SemError>
    requires sort { is_set (slice_get (nodes (W.listing world.now)) node) ≡ true }
    requires bound { AreInside (W.meaning world.now).last (bound_list bound.now) }
    ensures value { IfOk result (λ answer. answer ≡ count_below (suc (W.meaning world.now).last) (set_value (the_set (slice_get (nodes (W.listing world.now)) node)) (W.meaning world.now) (bound_list bound.now))) }
    ensures wide { IfErr result (λ e. e ≡ Wide → IsWide (W.meaning world.now) (of_set (the_set (slice_get (nodes (W.listing world.now)) node)))) }
{
    let mut count = 0;
    for object in 0..=world.last() {
        if has_member(world, node, object, bound)? {
            count += 1;
        }
    }
    Ok(count)
}
