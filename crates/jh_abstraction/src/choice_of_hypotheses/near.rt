ghost use Rattle.std.specs.Prelude.{◌≡◌, ◌<◌, ◌||◌, Bool, length};
ghost use Rattle.std.specs.List.{list_all};
ghost use Rattle.jh_form.specs.Tree.{FormulaTree, of_truth};
ghost use Rattle.jh_arena.specs.table.Nodes.{nodes};
ghost use Rattle.jh_query_names.specs.query_names.Kinds.{value_at};
ghost use Rattle.jh_approx.specs.free_name_tests.Passing.{name_passes};
ghost use Rattle.jh_approx.specs.definition.Links as spec;
ghost use Rattle.jh_query_names.specs.mentioned_names.Notes.{AreInside, AreFree, IsNote};
ghost use Rattle.jh_abstraction.specs.choice_of_hypotheses.Choosing as choosing;

use crate::choice_of_hypotheses::reached::number_at;
use jh_approx::free_name_tests::free_names_decide;
use jh_approx::jh_normal_forms::parts::NodeList;
use jh_arena::table::{Shape, Table};
use jh_containers::connected_component::{Known, shares};
use jh_query_names::mentioned_names::{Note, is_class_set};

/// Whether a free name is none of `alloc` and the class sets but those of a goal, of which the free names are known.
fn stands_within(table: &Table, reads: &NodeList, node: usize) -> bool
    requires { node < length (nodes table.now) }
    ensures { (goal : FormulaTree) → AreFree (nodes table.now) (of_truth goal) reads.now → result ≡ name_passes (choosing.stands_within goal) (value_at (nodes table.now) node) }
{
    table.nodes_differ();
    free_names_decide();
    match table.shape(node) {
        Shape::FreeSet(name) => !is_class_set(table.name_at(name)) || reads.has(node),
        _ => true,
    }
}

/// Whether each of the free names is none of `alloc` and the class sets but those of a goal.
fn reads_within(table: &Table, reads: &NodeList, free: &[usize]) -> bool
    requires { AreInside (nodes table.now) free.now }
    ensures { (goal : FormulaTree) → AreFree (nodes table.now) (of_truth goal) reads.now → result ≡ list_all (λ n. name_passes (choosing.stands_within goal) (value_at (nodes table.now) n)) free.now }
{
    for place in 0..free.len() {
        if !stands_within(table, reads, number_at(free, place)) {
            return false;
        }
    }
    true
}

/// Whether a free name is `alloc` or a class set.
fn is_class(table: &Table, node: usize) -> bool
    requires { node < length (nodes table.now) }
    ensures { result ≡ name_passes spec.is_set_of_class (value_at (nodes table.now) node) }
{
    match table.shape(node) {
        Shape::FreeSet(name) => is_class_set(table.name_at(name)),
        Shape::FreeObject(_) => false,
        Shape::FreeNumber(_) => false,
        Shape::FreeTruth(_) => false,
        Shape::FreeField(_) => false,
        _ => true,
    }
}

/// Whether each of the free names is `alloc` or a class set.
fn is_nameless(table: &Table, free: &[usize]) -> bool
    requires { AreInside (nodes table.now) free.now }
    ensures { result ≡ list_all (λ n. name_passes spec.is_set_of_class (value_at (nodes table.now) n)) free.now }
{
    for place in 0..free.len() {
        if !is_class(table, number_at(free, place)) {
            return false;
        }
    }
    true
}

/// Whether a fact is linked, or says nothing of any other name than `alloc` and class sets.
fn is_linked(table: &Table, note: &Note, known: &Known) -> bool
    requires { (a : FormulaTree) × IsNote (nodes table.now) a note.now }
    ensures { (a : FormulaTree) (linked : FormulaTree → Bool) → IsNote (nodes table.now) a note.now → choosing.DecideLinks (nodes table.now) known.now.numbers.keys linked → result ≡ (linked a || spec.is_nameless a) }
{
    free_names_decide();
    let names = note.names.items();
    let free = note.free.items();
    shares(names, known) || is_nameless(table, free)
}

/// Whether a hypothesis is kept by what it speaks of.
pub(crate) fn is_near(table: &Table, note: &Note, reads: &NodeList, known: &Known) -> bool
    requires { (a : FormulaTree) × IsNote (nodes table.now) a note.now }
    ensures { (a goal : FormulaTree) (linked : FormulaTree → Bool) → IsNote (nodes table.now) a note.now → AreFree (nodes table.now) (of_truth goal) reads.now → choosing.DecideLinks (nodes table.now) known.now.numbers.keys linked → result ≡ choosing.is_near goal linked a }
{
    free_names_decide();
    reads_within(table, reads, note.free.items()) && is_linked(table, note, known)
}
