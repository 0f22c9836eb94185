#![tactic(auto, using(crate::proofs::simple_statements::ValueSteps::value_steps, jh_arena::proofs::table::Listed::growth_steps))]

ghost use Rattle.std.specs.Prelude.{◌≡◌, ◌<◌, length, IfOk, Some, slice_get};
ghost use Rattle.jh_ast.specs.Programs.{ProgramTree};
ghost use Rattle.jh_form.specs.Tree.{of_object, of_number, of_truth, of_set};
ghost use Rattle.jh_arena.specs.table.Entries.{the_value};
ghost use Rattle.jh_arena.specs.table.Growth.{Extends};
ghost use Rattle.jh_arena.specs.table.Nodes.{nodes};
ghost use Rattle.jh_vars.specs.Resolved.{as_object, as_number, as_truth, as_set};
ghost use Rattle.jh_semantics.specs.LoweredStmts.{of_kind};
ghost use Rattle.jh_semantics.specs.typed_code.Statements.{value_of};
ghost use Rattle.jh_command_statements.specs.checks.Told.{node_of, AreFormulas};

use jh_arena::makers::{constant, empty_set, null, truth};
use jh_arena::table::Table;
use jh_name::{Kind, NoMemory, Sort};

/// The node of the formula of a number, where there is one.
fn node_at(formulas: &[Option<usize>], number: u32) -> Option<usize>
    ensures { result ≡ node_of formulas.now number }
{
    match formulas.get(number as usize) {
        None => None,
        Some(node) => *node,
    }
}

/// The node of the value of a number in the source, True where there is none.
pub fn value_node(
    table: &mut Table,
    formulas: &[Option<usize>],
    number: u32,
) -> Result<usize, NoMemory>
    ensures inside { IfOk result (λ made. made < length (nodes table.new)) }
    ensures node { IfOk result (λ made. (p : ProgramTree) → AreFormulas p table.old formulas.now → slice_get (nodes table.new) made ≡ Some (value_of p number)) }
    ensures grows { Extends table.old table.new }
{
    match node_at(formulas, number) {
        None => truth(table),
        Some(node) => {
            if node < table.len() {
                return Ok(node);
            }
            truth(table)
        }
    }
}

/// The node itself where it is an object, and else null.
fn object_of(table: &mut Table, node: usize) -> Result<usize, NoMemory>
    requires { node < length (nodes table.old) }
    ensures node { IfOk result (λ made. slice_get (nodes table.new) made ≡ Some (of_object (as_object (the_value (slice_get (nodes table.old) node))))) }
    ensures grows { Extends table.old table.new }
{
    match table.sort(node) {
        Sort::Obj => Ok(node),
        _ => null(table),
    }
}

/// The node itself where it is a number, and else 0.
fn number_of(table: &mut Table, node: usize) -> Result<usize, NoMemory>
    requires { node < length (nodes table.old) }
    ensures node { IfOk result (λ made. slice_get (nodes table.new) made ≡ Some (of_number (as_number (the_value (slice_get (nodes table.old) node))))) }
    ensures grows { Extends table.old table.new }
{
    match table.sort(node) {
        Sort::Int => Ok(node),
        _ => constant(table, 0),
    }
}

/// The node itself where it is a formula, and else True.
fn truth_of(table: &mut Table, node: usize) -> Result<usize, NoMemory>
    requires { node < length (nodes table.old) }
    ensures node { IfOk result (λ made. slice_get (nodes table.new) made ≡ Some (of_truth (as_truth (the_value (slice_get (nodes table.old) node))))) }
    ensures grows { Extends table.old table.new }
{
    match table.sort(node) {
        Sort::Bool => Ok(node),
        _ => truth(table),
    }
}

/// The node itself where it is a set, and else the empty one.
fn set_of(table: &mut Table, node: usize) -> Result<usize, NoMemory>
    requires { node < length (nodes table.old) }
    ensures node { IfOk result (λ made. slice_get (nodes table.new) made ≡ Some (of_set (as_set (the_value (slice_get (nodes table.old) node))))) }
    ensures grows { Extends table.old table.new }
{
    match table.sort(node) {
        Sort::Set => Ok(node),
        _ => empty_set(table),
    }
}

/// The node itself where it has a kind, and else anything of the kind.
pub(crate) fn of_this_kind(table: &mut Table, kind: Kind, node: usize) -> Result<usize, NoMemory>
    requires { node < length (nodes table.old) }
    ensures node { IfOk result (λ made. slice_get (nodes table.new) made ≡ Some (of_kind kind (the_value (slice_get (nodes table.old) node)))) }
    ensures grows { Extends table.old table.new }
{
    match kind {
        Kind::Obj => object_of(table, node),
        Kind::Int => number_of(table, node),
        Kind::Bool => truth_of(table, node),
        Kind::Set => set_of(table, node),
    }
}
