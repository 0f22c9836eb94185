#![tactic(auto, using(crate::proofs::interpretations::Entered::entered_steps))]

ghost use Rattle.std.specs.Prelude.{◌≡◌, ◌<◌, true, suc, reverse, slice_get, IfOk, IfErr};
ghost use Rattle.jh_form.specs.Tree.{of_object, of_number, of_truth, of_set};
ghost use Rattle.jh_form.specs.Bare.{term_tree, int_tree, set_tree, formula_tree};
ghost use Rattle.jh_form.specs.Meaning.{InUniverse, term_value, int_value, set_value, truth};
ghost use Rattle.jh_arena.specs.table.Entries.{is_object, is_number, is_set, is_truth, the_object, the_number, the_set, the_truth};
ghost use Rattle.jh_arena.specs.table.Nodes.{nodes};
ghost use Rattle.jh_sem.specs.declared.answer.SemError.TheVariants.{Wide};
ghost use Rattle.jh_boxed_calls.specs.interpretations.Interps.{interp_of};
ghost use Rattle.jh_sem.specs.Wide.{AreInside, IsWide};

use crate::interpretations::interp::Interp;
use crate::interpretations::listed::{Listed, all_slots};
use jh_arena::table::Table;
use jh_form::{Formula, IntTerm, SetTerm, Term};
use jh_import::entering::{enter_formula, enter_int, enter_set, enter_term};
use jh_sem::{SemError, member_of_node, number_of_node, object_of_node, truth_of_node};
use std::alloc::Global;

/// The truth of a formula, as a node of a table.
fn truth_listed(
    interp: &Interp,
    table: &Table,
    node: usize,
    bound: &[u32],
) -> Result<bool, SemError>
    requires inside { InUniverse (interp_of interp.now) }
    requires sort { is_truth (slice_get (nodes table.now) node) ≡ true }
    requires bound { AreInside interp.now.greatest bound.now }
    ensures value { IfOk result (λ answer. answer ≡ truth (the_truth (slice_get (nodes table.now) node)) (interp_of interp.now) (reverse bound.now)) }
    ensures wide { IfErr result (λ e. e ≡ Wide → IsWide (interp_of interp.now) (of_truth (the_truth (slice_get (nodes table.now) node)))) }
{
    let slots = all_slots(interp, table)?;
    let world = Listed {
        interp,
        table,
        slots,
    };
    truth_of_node(&world, node, bound)
}

/// The truth of a formula, which is entered into a table.
fn truth_entered(
    table: &mut Table,
    interp: &Interp,
    formula: &Formula,
    bound: &[u32],
) -> Result<bool, SemError>
    requires inside { InUniverse (interp_of interp.now) }
    requires bound { AreInside interp.now.greatest bound.now }
    ensures value { IfOk result (λ answer. answer ≡ truth (formula_tree formula.now) (interp_of interp.now) (reverse bound.now)) }
    ensures wide { IfErr result (λ e. e ≡ Wide → IsWide (interp_of interp.now) (of_truth (formula_tree formula.now))) }
{
    let node = enter_formula(table, formula)?;
    truth_listed(interp, table, node, bound)
}

/// The truth of a formula in an interpretation. The last of the objects that are `bound` stands for bound variable 0, the one before it for 1, and so on,
/// and null for those without one. The answer is want of memory where memory is short or the tree nests too deep for the stack.
pub fn truth(
    alloc: Global,
    interp: &Interp,
    formula: &Formula,
    bound: &[u32],
) -> Result<bool, SemError>
    requires inside { InUniverse (interp_of interp.now) }
    requires bound { AreInside interp.now.greatest bound.now }
    ensures value { IfOk result (λ answer. answer ≡ truth (formula_tree formula.now) (interp_of interp.now) (reverse bound.now)) }
    ensures wide { IfErr result (λ e. e ≡ Wide → IsWide (interp_of interp.now) (of_truth (formula_tree formula.now))) }
{
    let mut table = Table::new(alloc)?;
    truth_entered(&mut table, interp, formula, bound)
}

/// Whether an object is a member of a set, as a node of a table.
fn member_listed(
    interp: &Interp,
    table: &Table,
    node: usize,
    object: u32,
    bound: &[u32],
) -> Result<bool, SemError>
    requires inside { InUniverse (interp_of interp.now) }
    requires sort { is_set (slice_get (nodes table.now) node) ≡ true }
    requires object { object < suc interp.now.greatest }
    requires bound { AreInside interp.now.greatest bound.now }
    ensures value { IfOk result (λ answer. answer ≡ set_value (the_set (slice_get (nodes table.now) node)) (interp_of interp.now) (reverse bound.now) object) }
    ensures wide { IfErr result (λ e. e ≡ Wide → IsWide (interp_of interp.now) (of_set (the_set (slice_get (nodes table.now) node)))) }
{
    let slots = all_slots(interp, table)?;
    let world = Listed {
        interp,
        table,
        slots,
    };
    member_of_node(&world, node, object, bound)
}

/// Whether an object is a member of a set, which is entered into a table.
fn member_entered(
    table: &mut Table,
    interp: &Interp,
    object: u32,
    set: &SetTerm,
    bound: &[u32],
) -> Result<bool, SemError>
    requires inside { InUniverse (interp_of interp.now) }
    requires object { object < suc interp.now.greatest }
    requires bound { AreInside interp.now.greatest bound.now }
    ensures value { IfOk result (λ answer. answer ≡ set_value (set_tree set.now) (interp_of interp.now) (reverse bound.now) object) }
    ensures wide { IfErr result (λ e. e ≡ Wide → IsWide (interp_of interp.now) (of_set (set_tree set.now))) }
{
    let node = enter_set(table, set)?;
    member_listed(interp, table, node, object, bound)
}

/// Whether an object is a member of a set in an interpretation. The last of the objects that are `bound` stands for bound variable 0, the one before it for 1, and so on,
/// and null for those without one. The answer is want of memory where memory is short or the tree nests too deep for the stack.
pub fn member(
    alloc: Global,
    interp: &Interp,
    object: u32,
    set: &SetTerm,
    bound: &[u32],
) -> Result<bool, SemError>
    requires inside { InUniverse (interp_of interp.now) }
    requires object { object < suc interp.now.greatest }
    requires bound { AreInside interp.now.greatest bound.now }
    ensures value { IfOk result (λ answer. answer ≡ set_value (set_tree set.now) (interp_of interp.now) (reverse bound.now) object) }
    ensures wide { IfErr result (λ e. e ≡ Wide → IsWide (interp_of interp.now) (of_set (set_tree set.now))) }
{
    let mut table = Table::new(alloc)?;
    member_entered(&mut table, interp, object, set, bound)
}

/// The number of a term, as a node of a table.
fn number_listed(
    interp: &Interp,
    table: &Table,
    node: usize,
    bound: &[u32],
) -> Result<i128, SemError>
    requires inside { InUniverse (interp_of interp.now) }
    requires sort { is_number (slice_get (nodes table.now) node) ≡ true }
    requires bound { AreInside interp.now.greatest bound.now }
    ensures value { IfOk result (λ answer. answer ≡ int_value (the_number (slice_get (nodes table.now) node)) (interp_of interp.now) (reverse bound.now)) }
    ensures wide { IfErr result (λ e. e ≡ Wide → IsWide (interp_of interp.now) (of_number (the_number (slice_get (nodes table.now) node)))) }
{
    let slots = all_slots(interp, table)?;
    let world = Listed {
        interp,
        table,
        slots,
    };
    number_of_node(&world, node, bound)
}

/// The number of a term, which is entered into a table.
fn number_entered(
    table: &mut Table,
    interp: &Interp,
    term: &IntTerm,
    bound: &[u32],
) -> Result<i128, SemError>
    requires inside { InUniverse (interp_of interp.now) }
    requires bound { AreInside interp.now.greatest bound.now }
    ensures value { IfOk result (λ answer. answer ≡ int_value (int_tree term.now) (interp_of interp.now) (reverse bound.now)) }
    ensures wide { IfErr result (λ e. e ≡ Wide → IsWide (interp_of interp.now) (of_number (int_tree term.now))) }
{
    let node = enter_int(table, term)?;
    number_listed(interp, table, node, bound)
}

/// The number of a term in an interpretation. The last of the objects that are `bound` stands for bound variable 0, the one before it for 1, and so on,
/// and null for those without one. The answer is want of memory where memory is short or the tree nests too deep for the stack.
pub fn number(
    alloc: Global,
    interp: &Interp,
    term: &IntTerm,
    bound: &[u32],
) -> Result<i128, SemError>
    requires inside { InUniverse (interp_of interp.now) }
    requires bound { AreInside interp.now.greatest bound.now }
    ensures value { IfOk result (λ answer. answer ≡ int_value (int_tree term.now) (interp_of interp.now) (reverse bound.now)) }
    ensures wide { IfErr result (λ e. e ≡ Wide → IsWide (interp_of interp.now) (of_number (int_tree term.now))) }
{
    let mut table = Table::new(alloc)?;
    number_entered(&mut table, interp, term, bound)
}

/// The object of a term, as a node of a table.
fn object_listed(
    interp: &Interp,
    table: &Table,
    node: usize,
    bound: &[u32],
) -> Result<u32, SemError>
    requires inside { InUniverse (interp_of interp.now) }
    requires sort { is_object (slice_get (nodes table.now) node) ≡ true }
    requires bound { AreInside interp.now.greatest bound.now }
    ensures value { IfOk result (λ answer. answer ≡ term_value (the_object (slice_get (nodes table.now) node)) (interp_of interp.now) (reverse bound.now)) }
    ensures wide { IfErr result (λ e. e ≡ Wide → IsWide (interp_of interp.now) (of_object (the_object (slice_get (nodes table.now) node)))) }
{
    let slots = all_slots(interp, table)?;
    let world = Listed {
        interp,
        table,
        slots,
    };
    object_of_node(&world, node, bound)
}

/// The object of a term, which is entered into a table.
fn object_entered(
    table: &mut Table,
    interp: &Interp,
    term: &Term,
    bound: &[u32],
) -> Result<u32, SemError>
    requires inside { InUniverse (interp_of interp.now) }
    requires bound { AreInside interp.now.greatest bound.now }
    ensures value { IfOk result (λ answer. answer ≡ term_value (term_tree term.now) (interp_of interp.now) (reverse bound.now)) }
    ensures wide { IfErr result (λ e. e ≡ Wide → IsWide (interp_of interp.now) (of_object (term_tree term.now))) }
{
    let node = enter_term(table, term)?;
    object_listed(interp, table, node, bound)
}

/// The object of a term in an interpretation. The last of the objects that are `bound` stands for bound variable 0, the one before it for 1, and so on,
/// and null for those without one. The answer is want of memory where memory is short or the tree nests too deep for the stack.
pub fn object(alloc: Global, interp: &Interp, term: &Term, bound: &[u32]) -> Result<u32, SemError>
    requires inside { InUniverse (interp_of interp.now) }
    requires bound { AreInside interp.now.greatest bound.now }
    ensures value { IfOk result (λ answer. answer ≡ term_value (term_tree term.now) (interp_of interp.now) (reverse bound.now)) }
    ensures wide { IfErr result (λ e. e ≡ Wide → IsWide (interp_of interp.now) (of_object (term_tree term.now))) }
{
    let mut table = Table::new(alloc)?;
    object_entered(&mut table, interp, term, bound)
}
