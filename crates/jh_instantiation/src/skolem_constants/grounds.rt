ghost use Rattle.std.specs.Prelude.{◌≡◌, ◌<◌, ◌&&◌, true, slice_get};
ghost use Rattle.jh_form.specs.Tree.{FormulaTree};
ghost use Rattle.jh_arena.specs.table.Entries.{is_truth};
ghost use Rattle.jh_arena.specs.table.Nodes.{nodes};
ghost use Rattle.jh_inst.specs.instances.Instances as spec;
ghost use Rattle.jh_instantiation.specs.skolem_constants.Standing.{IsFormula};

use jh_arena::table::{Shape, Table};

/// Whether a formula has no quantifier. It takes no memory.
#[cycle(is_ground)]
pub fn is_ground(table: &Table, node: usize) -> bool
    requires there { is_truth (slice_get (nodes table.now) node) ≡ true }
    ensures { (a : FormulaTree) → IsFormula table.now node a → result ≡ spec.is_ground a }
{
    match table.shape(node) {
        Shape::Negation(a) => is_ground(table, a),
        Shape::Mark(_, a) => is_ground(table, a),
        Shape::And(a, b) => are_ground(table, node, a, b),
        Shape::Or(a, b) => are_ground(table, node, a, b),
        Shape::Implies(a, b) => are_ground(table, node, a, b),
        Shape::Iff(a, b) => are_ground(table, node, a, b),
        Shape::All(_) => false,
        Shape::Ex(_) => false,
        _ => true,
    }
}

/// Whether two parts of a formula have no quantifier.
#[cycle(is_ground)]
fn are_ground(table: &Table, node: usize, a: usize, b: usize) -> bool
    requires first { is_truth (slice_get (nodes table.now) a) ≡ true }
    requires second { is_truth (slice_get (nodes table.now) b) ≡ true }
    requires below { (a < node) × (b < node) }
    ensures { (p q : FormulaTree) → IsFormula table.now a p → IsFormula table.now b q → result ≡ (spec.is_ground p && spec.is_ground q) }
{
    let first = is_ground(table, a);
    let second = is_ground(table, b);
    first && second
}
