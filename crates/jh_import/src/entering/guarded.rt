// Written by tools/enter.py.
ghost use Rattle.std.specs.Prelude.{◌≡◌, ◌≤◌, IfOk, Some, slice_get};
ghost use Rattle.jh_form.specs.Tree.{of_object, of_number, of_truth, of_set, of_field};
ghost use Rattle.jh_form.specs.Bare.{term_tree, int_tree, set_tree, field_tree, value_tree, formula_tree};
ghost use Rattle.jh_arena.specs.jh_boxed.Sizes.{value_depth};
ghost use Rattle.jh_arena.specs.table.Growth.{Extends};
ghost use Rattle.jh_arena.specs.table.Nodes.{nodes};
ghost use Rattle.jh_import.specs.entering.Entered.{AddsParts, IsKept};

use crate::entering::entering;
use jh_arena::jh_boxed::Walk;
use jh_arena::table::{MOST_LEVELS, Table};
use jh_form::{FieldTerm, Formula, IntTerm, SetTerm, Term, Value};
use jh_name::NoMemory;

/// The node of a term for an object. Nodes that are new are made, each a part of it; those before stay. Where the tree is
/// listed already, no node is made. The answer is want of memory where the tree nests deeper than MOST_LEVELS, and
/// nothing is entered then.
pub fn enter_term(table: &mut Table, term: &Term) -> Result<usize, NoMemory>
    ensures node { IfOk result (λ node. slice_get (nodes table.new) node ≡ Some (of_object (term_tree term.now))) }
    ensures shallow { IfOk result (λ node. value_depth (of_object (term_tree term.now)) ≤ 10001) }
    ensures grows { Extends table.old table.new }
    ensures only { AddsParts table.old table.new (of_object (term_tree term.now)) }
    ensures kept { IsKept table.old table.new (of_object (term_tree term.now)) }
{
    if term.depth() > MOST_LEVELS {
        return Err(NoMemory);
    }
    table.parts_come_first();
    let node = entering::enter_term(table, term);
    table.nodes_differ();
    node
}

/// The node of a term for a number. Nodes that are new are made, each a part of it; those before stay. Where the tree is
/// listed already, no node is made. The answer is want of memory where the tree nests deeper than MOST_LEVELS, and
/// nothing is entered then.
pub fn enter_int(table: &mut Table, term: &IntTerm) -> Result<usize, NoMemory>
    ensures node { IfOk result (λ node. slice_get (nodes table.new) node ≡ Some (of_number (int_tree term.now))) }
    ensures shallow { IfOk result (λ node. value_depth (of_number (int_tree term.now)) ≤ 10001) }
    ensures grows { Extends table.old table.new }
    ensures only { AddsParts table.old table.new (of_number (int_tree term.now)) }
    ensures kept { IsKept table.old table.new (of_number (int_tree term.now)) }
{
    if term.depth() > MOST_LEVELS {
        return Err(NoMemory);
    }
    table.parts_come_first();
    let node = entering::enter_int(table, term);
    table.nodes_differ();
    node
}

/// The node of a term for a set. Nodes that are new are made, each a part of it; those before stay. Where the tree is
/// listed already, no node is made. The answer is want of memory where the tree nests deeper than MOST_LEVELS, and
/// nothing is entered then.
pub fn enter_set(table: &mut Table, term: &SetTerm) -> Result<usize, NoMemory>
    ensures node { IfOk result (λ node. slice_get (nodes table.new) node ≡ Some (of_set (set_tree term.now))) }
    ensures shallow { IfOk result (λ node. value_depth (of_set (set_tree term.now)) ≤ 10001) }
    ensures grows { Extends table.old table.new }
    ensures only { AddsParts table.old table.new (of_set (set_tree term.now)) }
    ensures kept { IsKept table.old table.new (of_set (set_tree term.now)) }
{
    if term.depth() > MOST_LEVELS {
        return Err(NoMemory);
    }
    table.parts_come_first();
    let node = entering::enter_set(table, term);
    table.nodes_differ();
    node
}

/// The node of a field. Nodes that are new are made, each a part of it; those before stay. Where the tree is
/// listed already, no node is made. The answer is want of memory where the tree nests deeper than MOST_LEVELS, and
/// nothing is entered then.
pub fn enter_field(table: &mut Table, field: &FieldTerm) -> Result<usize, NoMemory>
    ensures node { IfOk result (λ node. slice_get (nodes table.new) node ≡ Some (of_field (field_tree field.now))) }
    ensures shallow { IfOk result (λ node. value_depth (of_field (field_tree field.now)) ≤ 10001) }
    ensures grows { Extends table.old table.new }
    ensures only { AddsParts table.old table.new (of_field (field_tree field.now)) }
    ensures kept { IsKept table.old table.new (of_field (field_tree field.now)) }
{
    if field.depth() > MOST_LEVELS {
        return Err(NoMemory);
    }
    table.parts_come_first();
    let node = entering::enter_field(table, field);
    table.nodes_differ();
    node
}

/// The node of a formula. Nodes that are new are made, each a part of it; those before stay. Where the tree is
/// listed already, no node is made. The answer is want of memory where the tree nests deeper than MOST_LEVELS, and
/// nothing is entered then.
pub fn enter_formula(table: &mut Table, formula: &Formula) -> Result<usize, NoMemory>
    ensures node { IfOk result (λ node. slice_get (nodes table.new) node ≡ Some (of_truth (formula_tree formula.now))) }
    ensures shallow { IfOk result (λ node. value_depth (of_truth (formula_tree formula.now)) ≤ 10001) }
    ensures grows { Extends table.old table.new }
    ensures only { AddsParts table.old table.new (of_truth (formula_tree formula.now)) }
    ensures kept { IsKept table.old table.new (of_truth (formula_tree formula.now)) }
{
    if formula.depth() > MOST_LEVELS {
        return Err(NoMemory);
    }
    table.parts_come_first();
    let node = entering::enter_formula(table, formula);
    table.nodes_differ();
    node
}

/// The node of a value of any sort. Nodes that are new are made, each a part of it; those before stay. Where the tree is
/// listed already, no node is made. The answer is want of memory where the tree nests deeper than MOST_LEVELS, and
/// nothing is entered then.
#[tactic(auto, using(crate::proofs::entering::EnterSteps::value_steps))]
pub fn enter(table: &mut Table, value: &Value) -> Result<usize, NoMemory>
    ensures node { IfOk result (λ node. slice_get (nodes table.new) node ≡ Some (value_tree value.now)) }
    ensures shallow { IfOk result (λ node. value_depth (value_tree value.now) ≤ 10001) }
    ensures grows { Extends table.old table.new }
    ensures only { AddsParts table.old table.new (value_tree value.now) }
    ensures kept { IsKept table.old table.new (value_tree value.now) }
{
    match value {
        Value::Obj(a) => enter_term(table, a),
        Value::Int(a) => enter_int(table, a),
        Value::Bool(a) => enter_formula(table, a),
        Value::Set(a) => enter_set(table, a),
        Value::Field(a) => enter_field(table, a),
    }
}
