#![tactic(auto, using(jh_export::proofs::Places::inside_steps))]

ghost use Rattle.std.specs.Prelude.{◌≡◌, ◌<◌, true, suc, reverse, slice_get, IfOk, IfErr};
ghost use Rattle.jh_form.specs.Tree.{of_object, of_number, of_truth, of_set};
ghost use Rattle.jh_form.specs.Meaning.{term_value, int_value, set_value, truth};
ghost use Rattle.jh_arena.specs.table.Entries.{is_object, is_number, is_set, is_truth, the_object, the_number, the_set, the_truth};
ghost use Rattle.jh_arena.specs.table.Nodes.{nodes};
ghost use Rattle.jh_sem.specs.declared.answer.SemError.TheVariants.{Wide};
ghost use Rattle.jh_sem.specs.Wide.{AreInside, IsWide};

use crate::SemError;
use crate::bound::Bound;
use crate::evaluating::{has_member, number_of, truth_of};
use crate::objects::object_of;
use crate::world::World;

/// The truth of a node in a world. The last of the objects that are `bound` stands for bound variable 0, the one before it for 1, and so on, and null
/// for those without one. No memory is taken for quantifiers. The answer is want of memory where the node nests too deep for the stack, or
/// where a walk along fields has none.
pub fn truth_of_node<W: World>(world: &W, node: usize, bound: &[u32]) -> Result<bool, SemError>
    requires sort { is_truth (slice_get (nodes (W.listing world.now)) node) ≡ true }
    requires bound { AreInside (W.meaning world.now).last bound.now }
    ensures value { IfOk result (λ answer. answer ≡ truth (the_truth (slice_get (nodes (W.listing world.now)) node)) (W.meaning world.now) (reverse bound.now)) }
    ensures wide { IfErr result (λ e. e ≡ Wide → IsWide (W.meaning world.now) (of_truth (the_truth (slice_get (nodes (W.listing world.now)) node)))) }
{
    if !world.table().is_shallow(node) {
        return Err(SemError::Memory);
    }
    truth_of(world, node, &Bound::Given(bound))
}

/// The number of a node in a world. The last of the objects that are `bound` stands for bound variable 0, the one before it for 1, and so on, and null
/// for those without one. No memory is taken for quantifiers. The answer is want of memory where the node nests too deep for the stack, or
/// where a walk along fields has none.
pub fn number_of_node<W: World>(world: &W, node: usize, bound: &[u32]) -> Result<i128, SemError>
    requires sort { is_number (slice_get (nodes (W.listing world.now)) node) ≡ true }
    requires bound { AreInside (W.meaning world.now).last bound.now }
    ensures value { IfOk result (λ answer. answer ≡ int_value (the_number (slice_get (nodes (W.listing world.now)) node)) (W.meaning world.now) (reverse bound.now)) }
    ensures wide { IfErr result (λ e. e ≡ Wide → IsWide (W.meaning world.now) (of_number (the_number (slice_get (nodes (W.listing world.now)) node)))) }
{
    if !world.table().is_shallow(node) {
        return Err(SemError::Memory);
    }
    number_of(world, node, &Bound::Given(bound))
}

/// The object of a node in a world. The last of the objects that are `bound` stands for bound variable 0, the one before it for 1, and so on, and null
/// for those without one. No memory is taken for quantifiers. The answer is want of memory where the node nests too deep for the stack, or
/// where a walk along fields has none.
pub fn object_of_node<W: World>(world: &W, node: usize, bound: &[u32]) -> Result<u32, SemError>
    requires sort { is_object (slice_get (nodes (W.listing world.now)) node) ≡ true }
    requires bound { AreInside (W.meaning world.now).last bound.now }
    ensures value { IfOk result (λ answer. answer ≡ term_value (the_object (slice_get (nodes (W.listing world.now)) node)) (W.meaning world.now) (reverse bound.now)) }
    ensures wide { IfErr result (λ e. e ≡ Wide → IsWide (W.meaning world.now) (of_object (the_object (slice_get (nodes (W.listing world.now)) node)))) }
{
    if !world.table().is_shallow(node) {
        return Err(SemError::Memory);
    }
    object_of(world, node, &Bound::Given(bound))
}

/// Whether an object is a member of the set of a node in a world. The last of the objects that are `bound` stands for bound variable 0, the one before it for 1, and so on, and null
/// for those without one. No memory is taken for quantifiers. The answer is want of memory where the node nests too deep for the stack, or
/// where a walk along fields has none.
pub fn member_of_node<W: World>(
    world: &W,
    node: usize,
    object: u32,
    bound: &[u32],
) -> Result<bool, SemError>
    requires sort { is_set (slice_get (nodes (W.listing world.now)) node) ≡ true }
    requires object { object < suc (W.meaning world.now).last }
    requires bound { AreInside (W.meaning world.now).last bound.now }
    ensures value { IfOk result (λ answer. answer ≡ set_value (the_set (slice_get (nodes (W.listing world.now)) node)) (W.meaning world.now) (reverse bound.now) object) }
    ensures wide { IfErr result (λ e. e ≡ Wide → IsWide (W.meaning world.now) (of_set (the_set (slice_get (nodes (W.listing world.now)) node)))) }
{
    if !world.table().is_shallow(node) {
        return Err(SemError::Memory);
    }
    has_member(world, node, object, &Bound::Given(bound))
}
