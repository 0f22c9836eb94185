#![tactic(auto, using(crate::proofs::checks::ToldSteps::told_steps, jh_arena::proofs::table::Listed::growth_steps))]

ghost use Rattle.std.specs.Prelude.{◌≡◌, IfOk, Some, slice_get};
ghost use Rattle.jh_ast.specs.Programs.{ProgramTree};
ghost use Rattle.jh_form.specs.Tree.{of_truth};
ghost use Rattle.jh_arena.specs.table.Entries.{is_truth, the_truth};
ghost use Rattle.jh_arena.specs.table.Growth.{Extends};
ghost use Rattle.jh_arena.specs.table.Nodes.{nodes};
ghost use Rattle.jh_vars.specs.Resolved.{as_truth};
ghost use Rattle.jh_semantics.specs.typed_code.Statements.{value_of};
ghost use Rattle.jh_command_statements.specs.checks.Told.{node_of, told_at, AreFormulas};

use jh_arena::makers::truth;
use jh_arena::table::Table;
use jh_name::{NoMemory, Sort};

/// The node of the formula of a number, where there is one.
fn node_at(formulas: &[Option<usize>], number: u32) -> Option<usize>
    ensures { result ≡ node_of formulas.now number }
{
    match formulas.get(number as usize) {
        None => None,
        Some(node) => *node,
    }
}

/// Whether a node is that of a formula.
fn is_formula(table: &Table, node: usize) -> bool
    ensures { result ≡ is_truth (slice_get (nodes table.now) node) }
{
    if node >= table.len() {
        return false;
    }
    match table.sort(node) {
        Sort::Bool => true,
        _ => false,
    }
}

/// The node of a formula, or that of True where it is none.
fn truth_of(table: &mut Table, node: usize) -> Result<usize, NoMemory>
    ensures node { IfOk result (λ made. slice_get (nodes table.new) made ≡ Some (of_truth (the_truth (slice_get (nodes table.old) node)))) }
    ensures grows { Extends table.old table.new }
{
    if is_formula(table, node) {
        return Ok(node);
    }
    truth(table)
}

/// The node of a formula where there is one, or that of True.
fn truth_at(table: &mut Table, node: Option<usize>) -> Result<usize, NoMemory>
    ensures node { IfOk result (λ made. slice_get (nodes table.new) made ≡ Some (of_truth (the_truth (told_at table.old node)))) }
    ensures grows { Extends table.old table.new }
{
    match node {
        None => truth(table),
        Some(node) => truth_of(table, node),
    }
}

/// The node of the formula of a number, of which there is one or it is True.
pub fn formula_node(
    table: &mut Table,
    formulas: &[Option<usize>],
    number: u32,
) -> Result<usize, NoMemory>
    ensures node { IfOk result (λ made. slice_get (nodes table.new) made ≡ Some (of_truth (the_truth (told_at table.old (node_of formulas.now number))))) }
    ensures formula { IfOk result (λ made. (p : ProgramTree) → AreFormulas p table.old formulas.now → slice_get (nodes table.new) made ≡ Some (of_truth (as_truth (value_of p number)))) }
    ensures grows { Extends table.old table.new }
{
    truth_at(table, node_at(formulas, number))
}
