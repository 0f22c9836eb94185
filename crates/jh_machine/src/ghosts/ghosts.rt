ghost use Rattle.std.specs.Prelude.{◌≡◌, ◌<◌, ◌∷◌, ◌++◌, ℕ, suc, true, [], List, Some, IfOk, IfErr, IfSome, OnOk, slice_get, length};
ghost use Rattle.jh_form.specs.Tree.{ValueTree, FormulaTree, TermTree, of_truth, of_object, of_number, of_set};
ghost use Rattle.jh_form.specs.Meaning.{Datum, datum, truth, term_value, int_value, set_value};
ghost use Rattle.jh_arena.specs.table.Entries.{is_number, is_object, is_set, is_truth, the_number, the_object, the_set, the_truth, the_value};
ghost use Rattle.jh_form.specs.Sorts.{tree_sort};
ghost use Rattle.jh_arena.specs.table.Nodes.{nodes};
ghost use Rattle.jh_semantics.specs.State.{stored, stored_at};
ghost use Rattle.jh_store.specs.memory.Held.{state_of};
ghost use Rattle.jh_sem.specs.Wide.{IsWide};
ghost use Rattle.jh_store.specs.state_pairs.Seen.{seen};
ghost use Rattle.jh_operands.specs.Exprs.{text_at, IsPlain};
ghost use Rattle.jh_machine.specs.declared.continuation.stop.Stop.TheVariants as stop;
ghost use Rattle.jh_machine.specs.ghosts.Nodes.{IsValue, ValueInside, AreMembers};
ghost use Rattle.jh_machine.specs.continuation.Formulas.{ValueOverflows, OverflowsOnly, stop_for};

use crate::continuation::Stop;
use crate::writes::{put_field, put_name, writes};
use jh_name::{NoMemory, Place, Sort};
use jh_operands::Scalar;
use jh_sem::{SemError, member_of_node, number_of_node, object_of_node, truth_of_node};
use jh_store::memory::Memory;
use jh_store::state_pairs::Moment;
use std::alloc::Global;

/// The value of a node: an object, a number or a truth, a set by the list that says of the objects from 0 on which are in
/// it, or a whole field.
#[derive(Drop)]
pub enum NodeValue {
    Scalar(Scalar),
    Set(Vec<bool>),
    Field,
}

/// Why a formula at a place has no answer.
fn stop_at(place: Place, error: SemError) -> Stop
    ensures { result ≡ stop_for place error }
{
    match error {
        SemError::Wide => Stop::Overflow(place),
        SemError::Memory => Stop::Memory,
    }
}

/// The sort of a node, where it is one.
fn sort_of(moment: &Moment<'_>, node: usize) -> Option<Sort>
    ensures sort { (v : ValueTree) → slice_get (nodes moment.now.table.now) node ≡ Some v → result ≡ Some (tree_sort v) }
    ensures there { IfSome result (λ sort. (slice_get (nodes moment.now.table.now) node ≡ Some (the_value (slice_get (nodes moment.now.table.now) node))) × (sort ≡ tree_sort (the_value (slice_get (nodes moment.now.table.now) node)))) }
{
    if node < moment.table.len() {
        Some(moment.table.sort(node))
    } else {
        None
    }
}

/// The truth of a node for a truth, whose formula begins at a place.
fn truth_there(moment: &Moment<'_>, place: Place, node: usize) -> Result<bool, Stop>
    requires { is_truth (slice_get (nodes moment.now.table.now) node) ≡ true }
    ensures value { IfOk result (λ b. b ≡ truth (the_truth (slice_get (nodes moment.now.table.now) node)) (seen moment.now) []) }
    ensures stop { IfErr result (OverflowsOnly place (IsWide (seen moment.now) (of_truth (the_truth (slice_get (nodes moment.now.table.now) node))))) }
{
    match truth_of_node(moment, node, &[]) {
        Ok(is_true) => Ok(is_true),
        Err(error) => Err(stop_at(place, error)),
    }
}

/// The truth of a node, whose formula begins at a place.
pub fn node_truth(moment: &Moment<'_>, place: Place, node: usize) -> Result<bool, Stop>
    ensures value { (f : FormulaTree) → slice_get (nodes moment.now.table.now) node ≡ Some (of_truth f) → IfOk result (λ b. b ≡ truth f (seen moment.now) []) }
    ensures stop { (f : FormulaTree) → slice_get (nodes moment.now.table.now) node ≡ Some (of_truth f) → IfErr result (OverflowsOnly place (IsWide (seen moment.now) (of_truth f))) }
{
    match sort_of(moment, node) {
        Some(Sort::Bool) => truth_there(moment, place, node),
        _ => Err(Stop::Memory),
    }
}

/// The object of a node for an object, whose formula begins at a place.
fn object_there(moment: &Moment<'_>, place: Place, node: usize) -> Result<u32, Stop>
    requires { is_object (slice_get (nodes moment.now.table.now) node) ≡ true }
    ensures value { IfOk result (λ a. a ≡ term_value (the_object (slice_get (nodes moment.now.table.now) node)) (seen moment.now) []) }
    ensures inside { IfOk result (λ a. a < suc moment.now.current.now.last) }
    ensures stop { IfErr result (OverflowsOnly place (IsWide (seen moment.now) (of_object (the_object (slice_get (nodes moment.now.table.now) node))))) }
{
    match object_of_node(moment, node, &[]) {
        Ok(object) => inside(moment.current, object),
        Err(error) => Err(stop_at(place, error)),
    }
}

/// The object of a node, whose formula begins at a place.
pub fn node_object(moment: &Moment<'_>, place: Place, node: usize) -> Result<u32, Stop>
    ensures value { (a : TermTree) → slice_get (nodes moment.now.table.now) node ≡ Some (of_object a) → IfOk result (λ object. object ≡ term_value a (seen moment.now) []) }
    ensures inside { IfOk result (λ object. object < suc moment.now.current.now.last) }
    ensures stop { (a : TermTree) → slice_get (nodes moment.now.table.now) node ≡ Some (of_object a) → IfErr result (OverflowsOnly place (IsWide (seen moment.now) (of_object a))) }
{
    match sort_of(moment, node) {
        Some(Sort::Obj) => object_there(moment, place, node),
        _ => Err(Stop::Memory),
    }
}

/// An object, which is one of a memory's; every object of a formula is.
fn inside(memory: &Memory<'_>, object: u32) -> Result<u32, Stop>
    ensures value { IfOk result (λ a. a ≡ object) }
    ensures inside { IfOk result (λ a. a < suc memory.now.last) }
    ensures stop { IfErr result (λ why. why ≡ stop.Memory) }
{
    if object <= memory.last() {
        Ok(object)
    } else {
        Err(Stop::Memory)
    }
}

/// The number of a node, whose formula begins at a place.
fn node_number(moment: &Moment<'_>, place: Place, node: usize) -> Result<i64, Stop>
    requires { is_number (slice_get (nodes moment.now.table.now) node) ≡ true }
    ensures value { IfOk result (λ z. z ≡ int_value (the_number (slice_get (nodes moment.now.table.now) node)) (seen moment.now) []) }
    ensures stop { IfErr result (OverflowsOnly place (ValueOverflows (seen moment.now) (of_number (the_number (slice_get (nodes moment.now.table.now) node))))) }
{
    match number_of_node(moment, node, &[]) {
        Ok(number) => match i64::try_from(number) {
            Ok(number) => Ok(number),
            Err(_) => Err(Stop::Overflow(place)),
        },
        Err(error) => Err(stop_at(place, error)),
    }
}

/// Whether an object is in the set of a node, whose formula begins at a place.
fn node_has(moment: &Moment<'_>, place: Place, node: usize, object: u32) -> Result<bool, Stop>
    requires set { is_set (slice_get (nodes moment.now.table.now) node) ≡ true }
    requires object { object < suc moment.now.current.now.last }
    ensures value { IfOk result (λ b. b ≡ set_value (the_set (slice_get (nodes moment.now.table.now) node)) (seen moment.now) [] object) }
    ensures stop { IfErr result (OverflowsOnly place (IsWide (seen moment.now) (of_set (the_set (slice_get (nodes moment.now.table.now) node))))) }
{
    match member_of_node(moment, node, object, &[]) {
        Ok(has) => Ok(has),
        Err(error) => Err(stop_at(place, error)),
    }
}

/// The members of the set of a node, as a list that says of each object of the universe whether it is one.
fn node_set(
    alloc: Global,
    moment: &Moment<'_>,
    place: Place,
    node: usize,
) -> Result<Vec<bool>, Stop>
    requires { is_set (slice_get (nodes moment.now.table.now) node) ≡ true }
    ensures value { IfOk result (λ row. AreMembers moment.now.current.now.last row.items (set_value (the_set (slice_get (nodes moment.now.table.now) node)) (seen moment.now) [])) }
    ensures stop { IfErr result (OverflowsOnly place (IsWide (seen moment.now) (of_set (the_set (slice_get (nodes moment.now.table.now) node))))) }
{
    let mut members = Vec::new(alloc);
    for object in 0..=moment.current.last() {
        let has = node_has(moment, place, node, object)?;
        members.push(has)?;
    }
    Ok(members)
}

/// The value of a node of a sort.
fn value_of_sort(
    alloc: Global,
    moment: &Moment<'_>,
    place: Place,
    node: usize,
    sort: Sort,
) -> Result<NodeValue, Stop>
    requires { sort ≡ tree_sort (the_value (slice_get (nodes moment.now.table.now) node)) }
    ensures value { (v : ValueTree) → slice_get (nodes moment.now.table.now) node ≡ Some v → IfOk result (λ x. IsValue moment.now.current.now.last x (datum v (seen moment.now) [])) }
    ensures inside { IfOk result (ValueInside moment.now.current.now.last) }
    ensures stop { (v : ValueTree) → slice_get (nodes moment.now.table.now) node ≡ Some v → IfErr result (OverflowsOnly place (ValueOverflows (seen moment.now) v)) }
{
    match sort {
        Sort::Obj => {
            let object = node_object(moment, place, node)?;
            Ok(NodeValue::Scalar(Scalar::Object(object)))
        }
        Sort::Int => {
            let number = node_number(moment, place, node)?;
            Ok(NodeValue::Scalar(Scalar::Number(number)))
        }
        Sort::Bool => {
            let truth = node_truth(moment, place, node)?;
            Ok(NodeValue::Scalar(Scalar::Truth(truth)))
        }
        Sort::Set => {
            let members = node_set(alloc, moment, place, node)?;
            Ok(NodeValue::Set(members))
        }
        Sort::Field => Ok(NodeValue::Field),
    }
}

/// The value of a node, whose formula begins at a place.
pub fn node_value(
    alloc: Global,
    moment: &Moment<'_>,
    place: Place,
    node: usize,
) -> Result<NodeValue, Stop>
    ensures value { (v : ValueTree) → slice_get (nodes moment.now.table.now) node ≡ Some v → IfOk result (λ x. IsValue moment.now.current.now.last x (datum v (seen moment.now) [])) }
    ensures inside { IfOk result (ValueInside moment.now.current.now.last) }
    ensures stop { (v : ValueTree) → slice_get (nodes moment.now.table.now) node ≡ Some v → IfErr result (OverflowsOnly place (ValueOverflows (seen moment.now) v)) }
{
    match sort_of(moment, node) {
        Some(sort) => value_of_sort(alloc, moment, place, node, sort),
        None => Err(Stop::Memory),
    }
}

/// Writes the value of a node to a name. A whole field is no value of a name.
pub fn store_value(memory: &mut Memory<'_>, name: usize, value: NodeValue)
    ensures names { memory.new.names ≡ memory.old.names }
    ensures last { memory.new.last ≡ memory.old.last }
    ensures state { (d : Datum) → IsPlain memory.old.names name → ValueInside memory.old.last value → IsValue memory.old.last value d → state_of memory.new ≡ stored (state_of memory.old) (text_at memory.old.names name) d }
{
    match value {
        NodeValue::Scalar(value) => put_name(memory, name, value),
        NodeValue::Set(members) => writes::put_set(memory, name, members),
        NodeValue::Field => {}
    }
}

/// Writes the value of a node to a field at an object. A whole field is no value of it.
pub fn store_value_at(
    memory: &mut Memory<'_>,
    field: usize,
    at: u32,
    value: NodeValue,
) -> Result<(), NoMemory>
    ensures names { memory.new.names ≡ memory.old.names }
    ensures last { memory.new.last ≡ memory.old.last }
    ensures state { (d : Datum) → IsPlain memory.old.names field → ValueInside memory.old.last value → IsValue memory.old.last value d → OnOk result (state_of memory.new ≡ stored_at (state_of memory.old) (text_at memory.old.names field) at d) }
{
    match value {
        NodeValue::Scalar(value) => put_field(memory, field, at, value),
        NodeValue::Set(members) => writes::put_set_at(memory, field, at, members),
        NodeValue::Field => Ok(()),
    }
}
