ghost use Rattle.std.specs.Prelude.{◌≡◌, ◌<◌, ◌≤◌, ◌↔◌, IsTrue, Some, IfOk, length, slice_get};
ghost use Rattle.jh_boxed.specs.Sizes.{value_depth};
ghost use Rattle.jh_substitution.specs.jh_boxed_operations.comparison.Unmarked.{unmarked_value};
ghost use Rattle.jh_arena.specs.table.Entries.{the_value};
ghost use Rattle.jh_arena.specs.table.Growth.{Extends};
ghost use Rattle.jh_arena.specs.table.Nodes.{nodes};
ghost use Rattle.jh_normal_forms.specs.negation_normal_form.Unlabelling.{unlabelling};

use crate::rebuilding::{BuildRules, Polarity, rebuild};
use jh_arena::table::{Shape, Table};
use jh_name::NoMemory;

/// The rule that takes labels off.
#[derive(Clone, Copy)]
struct Unlabelling;

impl BuildRules for Unlabelling {
    ghost rule = { λ rules. unlabelling };

    fn made(
        &self,
        table: &mut Table,
        shape: Shape,
        _polarity: Polarity,
    ) -> Result<usize, NoMemory> {
        match shape {
            Shape::Mark(_, a) => Ok(a),
            _ => table.make(shape),
        }
    }
}

/// The node of a node's tree without labels: two trees are the same but for labels exactly where their nodes without
/// labels are one. What the table held stays in its place, after any answer. The answer is want of memory where the tree
/// nests deeper than MOST_LEVELS; no part of it is looked at then.
pub fn unlabelled(table: &mut Table, node: usize) -> Result<usize, NoMemory>
    requires inside { node < length (nodes table.old) }
    ensures tree { IfOk result (λ made. slice_get (nodes table.new) made ≡ Some (unmarked_value (the_value (slice_get (nodes table.old) node)))) }
    ensures shallow { IfOk result (λ made. value_depth (the_value (slice_get (nodes table.old) node)) ≤ 10001) }
    ensures grows { Extends table.old table.new }
{
    rebuild(table, &Unlabelling, node, Polarity::Both)
}

/// Whether two nodes are the same tree but for labels. What the table held stays in its place, after any answer.
pub fn same_but_labels(table: &mut Table, a: usize, b: usize) -> Result<bool, NoMemory>
    requires a { a < length (nodes table.old) }
    requires b { b < length (nodes table.old) }
    ensures same { IfOk result (λ same. IsTrue same ↔ (unmarked_value (the_value (slice_get (nodes table.old) a)) ≡ unmarked_value (the_value (slice_get (nodes table.old) b)))) }
    ensures grows { Extends table.old table.new }
{
    let left = unlabelled(table, a)?;
    let right = unlabelled(table, b)?;
    table.nodes_differ();
    Ok(left == right)
}
