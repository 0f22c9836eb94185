// A node is evaluated by its shape. Each shape has a function of its own, so that a level of a deep formula takes little of the stack.
ghost use Rattle.std.specs.Prelude.{◌≡◌, ◌<◌, ◌&&◌, ◌∷◌, ℕ, suc, true, false, IfOk, IfErr, slice_get, length};
ghost use Rattle.jh_form.specs.Tree.{FieldTree, ValueTree, of_object, of_number, of_truth, of_set, of_field};
ghost use Rattle.jh_form.specs.Meaning.{term_value, int_value, set_value, field_value, truth, fields_value, count_below, every, some, agree};
ghost use Rattle.jh_boxed.specs.Parts.{Among, IsChild};
ghost use Rattle.jh_arena.specs.declared.table.shapes.Shape.TheVariants as s;
ghost use Rattle.jh_arena.specs.table.Entries.{is_object, is_number, is_set, is_field, is_truth, the_object, the_number, the_set, the_field, the_truth, the_value, the_list, are_fields, fields_at};
ghost use Rattle.jh_arena.specs.table.Nodes.{nodes};
ghost use Rattle.jh_export.specs.Standing.{Stands, AreBelow};
ghost use Rattle.jh_sem.specs.declared.answer.SemError.TheVariants.{Wide};
ghost use Rattle.jh_sem.specs.Wide.{AreInside, IsWide};
ghost use Rattle.jh_sem.specs.Bounds.{bound_list};
ghost use Rattle.jh_sem.specs.Graphs.{listed_fields, IsRow, AreRows, HasObjects, AreSame};

use crate::SemError;
use crate::bound::{Bound, object_for};
use crate::standing::{sort_of, standing};
use crate::world::World;
use jh_arena::table::Shape;
use jh_name::{Row, Sort};

/// The object of a node.
#[cycle(placed)]
#[inline(never)]
#[tactic(auto, using(crate::proofs::Evaluated::object_of_steps))]
pub(crate) fn object_of<W: World>(
    world: &W,
    node: usize,
    bound: &Bound<'_>,
) -> Result<u32, SemError>
    requires sort { is_object (slice_get (nodes (W.listing world.now)) node) ≡ true }
    requires bound { AreInside (W.meaning world.now).last (bound_list bound.now) }
    ensures value { IfOk result (λ answer. answer ≡ term_value (the_object (slice_get (nodes (W.listing world.now)) node)) (W.meaning world.now) (bound_list bound.now)) }
    ensures inside { IfOk result (λ answer. answer < suc (W.meaning world.now).last) }
    ensures wide { IfErr result (λ e. e ≡ Wide → IsWide (W.meaning world.now) (of_object (the_object (slice_get (nodes (W.listing world.now)) node)))) }
{
    match standing(world, node) {
        Shape::Bound(number) => Ok(object_for(bound, number)),
        Shape::FreeObject(name) => Ok(world.object(name)),
        Shape::Null => Ok(0),
        Shape::ReadObject(a, b) => read_object_value(world, node, a, b, bound),
        _ => unreachable!(),
    }
}

#[cycle(placed)]
#[inline(never)]
#[tactic(auto, using(crate::proofs::EvalSteps::read_object_steps))]
fn read_object_value<W: World>(
    world: &W,
    node: usize,
    a: usize,
    b: usize,
    bound: &Bound<'_>,
) -> Result<u32, SemError>
    requires stands { Stands (W.listing world.now) node (s.ReadObject a b) }
    requires bound { AreInside (W.meaning world.now).last (bound_list bound.now) }
    ensures value { IfOk result (λ answer. answer ≡ term_value (the_object (slice_get (nodes (W.listing world.now)) node)) (W.meaning world.now) (bound_list bound.now)) }
    ensures inside { IfOk result (λ answer. answer < suc (W.meaning world.now).last) }
    ensures wide { IfErr result (λ e. e ≡ Wide → IsWide (W.meaning world.now) (of_object (the_object (slice_get (nodes (W.listing world.now)) node)))) }
{
    let at = object_of(world, b, bound)?;
    object_in(world, a, at, bound)
}

/// The object that the field of a node has at an object.
#[cycle(placed)]
#[inline(never)]
#[tactic(auto, using(crate::proofs::Evaluated::field_steps))]
pub(crate) fn object_in<W: World>(
    world: &W,
    node: usize,
    at: u32,
    bound: &Bound<'_>,
) -> Result<u32, SemError>
    requires sort { is_field (slice_get (nodes (W.listing world.now)) node) ≡ true }
    requires at { at < suc (W.meaning world.now).last }
    requires bound { AreInside (W.meaning world.now).last (bound_list bound.now) }
    ensures value { IfOk result (λ answer. answer ≡ (field_value (the_field (slice_get (nodes (W.listing world.now)) node)) (W.meaning world.now) (bound_list bound.now)).objects at) }
    ensures inside { IfOk result (λ answer. answer < suc (W.meaning world.now).last) }
    ensures wide { IfErr result (λ e. e ≡ Wide → IsWide (W.meaning world.now) (of_field (the_field (slice_get (nodes (W.listing world.now)) node)))) }
{
    match standing(world, node) {
        Shape::FreeField(name) => Ok(world.object_at(name, at)),
        Shape::Update(a, b, c) => object_updated(world, node, a, b, c, at, bound),
        _ => unreachable!(),
    }
}

#[cycle(placed)]
#[inline(never)]
#[tactic(auto, using(crate::proofs::EvalSteps::update_steps, crate::proofs::Updates::object_steps))]
fn object_updated<W: World>(
    world: &W,
    node: usize,
    a: usize,
    b: usize,
    c: usize,
    at: u32,
    bound: &Bound<'_>,
) -> Result<u32, SemError>
    requires stands { Stands (W.listing world.now) node (s.Update a b c) }
    requires at { at < suc (W.meaning world.now).last }
    requires bound { AreInside (W.meaning world.now).last (bound_list bound.now) }
    ensures value { IfOk result (λ answer. answer ≡ (field_value (the_field (slice_get (nodes (W.listing world.now)) node)) (W.meaning world.now) (bound_list bound.now)).objects at) }
    ensures inside { IfOk result (λ answer. answer < suc (W.meaning world.now).last) }
    ensures wide { IfErr result (λ e. e ≡ Wide → IsWide (W.meaning world.now) (of_field (the_field (slice_get (nodes (W.listing world.now)) node)))) }
{
    let place = object_of(world, b, bound)?;
    if at != place {
        return object_in(world, a, at, bound);
    }
    match sort_of(world, c) {
        Sort::Obj => object_of(world, c, bound),
        _ => object_in(world, a, at, bound),
    }
}

/// The objects that the field of a node has at all objects.
#[inline(never)]
fn row_of<W: World>(world: &W, node: usize, bound: &Bound<'_>) -> Result<Row<u32>, SemError>
    requires sort { is_field (slice_get (nodes (W.listing world.now)) node) ≡ true }
    requires bound { AreInside (W.meaning world.now).last (bound_list bound.now) }
    ensures row { IfOk result (λ row. IsRow (W.meaning world.now).last row) }
    ensures value { IfOk result (λ row. HasObjects (W.meaning world.now).last row (field_value (the_field (slice_get (nodes (W.listing world.now)) node)) (W.meaning world.now) (bound_list bound.now))) }
    ensures wide { IfErr result (λ e. e ≡ Wide → IsWide (W.meaning world.now) (of_field (the_field (slice_get (nodes (W.listing world.now)) node)))) }
{
    let mut row = Vec::new(world.table().alloc());
    for place in 0..world.last() as usize + 1 {
        let object = object_in(world, node, place as u32, bound)?;
        row.push(object)?;
    }
    Ok(Row::of(row))
}

/// The objects that each of some fields has at all objects.
#[inline(never)]
#[tactic(auto, using(crate::proofs::Tabulated::rows_steps))]
pub(crate) fn rows_of<W: World>(
    world: &W,
    node: usize,
    fields: &[usize],
    bound: &Bound<'_>,
) -> Result<Vec<Row<u32>>, SemError>
    requires fields { are_fields (nodes (W.listing world.now)) fields.now ≡ true }
    requires below { AreBelow node fields.now }
    requires bound { AreInside (W.meaning world.now).last (bound_list bound.now) }
    ensures rows { IfOk result (λ rows. AreRows (W.meaning world.now).last rows.items) }
    ensures value { IfOk result (λ rows. AreSame (W.meaning world.now).last (listed_fields rows.items) (fields_value (fields_at (nodes (W.listing world.now)) fields.now) (W.meaning world.now) (bound_list bound.now))) }
    ensures wide { IfErr result (λ e. e ≡ Wide → (v : ValueTree) → ((f : FieldTree) → Among f (fields_at (nodes (W.listing world.now)) fields.now) → IsChild (of_field f) v) → IsWide (W.meaning world.now) v) }
{
    let mut rows = Vec::new(world.table().alloc());
    for field in fields {
        let row = row_of(world, *field, bound)?;
        rows.push(row)?;
    }
    Ok(rows)
}
