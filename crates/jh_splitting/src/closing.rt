ghost use Rattle.std.specs.Prelude.{◌≡◌, List, map, true, IfOk, Some, slice_get};
ghost use Rattle.jh_name.specs.declared.naming.Name.{Name};
ghost use Rattle.jh_form.specs.Tree.{FormulaTree, of_object};
ghost use Rattle.jh_form.specs.Tree as t;
ghost use Rattle.jh_arena.specs.table.Entries.{is_truth};
ghost use Rattle.jh_arena.specs.table.Growth.{Extends};
ghost use Rattle.jh_arena.specs.table.Nodes.{nodes, tree_in};
ghost use Rattle.jh_substitution.specs.rewriting.Rewritten.{leaves_alone};
ghost use Rattle.jh_substitution.specs.rewriting.Walks.{IsRewritten};
ghost use Rattle.jh_seq.specs.splitting.Split.{closed_by, closing, constant};
ghost use Rattle.jh_splitting.specs.Closed.{closing-stays};
ghost use Rattle.jh_splitting.specs.Standing.{IsFormula};
ghost use Rattle.jh_splitting.specs.Left.{AreConstants};

use jh_arena::makers::{free_object, null};
use jh_arena::table::{Shape, Table};
use jh_containers::shared_lists::Chains;
use jh_name::{NoMemory, name};
use jh_substitution::rewriting::{LeafRules, walked};

/// The rules by which constants stand for the variables of binders that were passed: their turns, that of the
/// innermost binder first.
#[derive(Clone, Copy)]
struct Closing<'a> {
    turns: &'a [u32],
}

impl LeafRules for Closing<'_> {
    ghost rewriting = { λ rules t. leaves_alone (closing (map constant rules.turns.now)) };

    ghost ready = { λ rules t. Unit {0} };

    fn leaf(
        &self,
        table: &mut Table,
        node: usize,
        shape: Shape,
        depth: u32,
    ) -> Result<usize, NoMemory> {
        match shape {
            Shape::Bound(number) => bound(table, node, number, depth, self.turns),
            _ => Ok(node),
        }
    }

    fn whole(
        &self,
        table: &mut Table,
        node: usize,
        _shape: Shape,
        depth: u32,
    ) -> Result<Option<usize>, NoMemory> {
        if table.loose(node) <= depth as u64 {
            Ok(Some(node))
        } else {
            Ok(None)
        }
    }

    ghost stays = { λ rules. closing-stays (map constant rules.turns.now) };
}

/// The node of the constant of a turn.
fn constant_of(table: &mut Table, turn: u32) -> Result<usize, NoMemory>
    ensures node { IfOk result (λ made. slice_get (nodes table.new) made ≡ Some (of_object (t.free_object (constant turn)))) }
    ensures grows { Extends table.old table.new }
{
    let named = name(table.alloc(), "c", turn)?;
    free_object(table, &named)
}

/// The node for a bound variable under `depth` inner binders: the variables of these stay, and those of the binders
/// that were passed are exchanged.
fn bound(
    table: &mut Table,
    node: usize,
    number: u32,
    depth: u32,
    turns: &[u32],
) -> Result<usize, NoMemory>
    requires there { slice_get (nodes table.old) node ≡ Some (tree_in table.old (Shape.Bound number)) }
    ensures node { IfOk result (λ made. IsRewritten (leaves_alone (closing (map constant turns.now))) (nodes table.new) node depth made) }
    ensures grows { Extends table.old table.new }
{
    if number < depth {
        return Ok(node);
    }
    let place = (number - depth) as usize;
    if place < turns.len() {
        constant_of(table, turns[place])
    } else {
        null(table)
    }
}

/// The node of a formula with the constants of a list for the variables of the binders that were passed. A formula
/// without loose bound variables is left alone. Otherwise the answer is want of memory where it nests deeper than a
/// walk goes.
pub(crate) fn closed(
    table: &mut Table,
    binders: &Chains<u32>,
    list: Option<usize>,
    node: usize,
) -> Result<usize, NoMemory>
    requires there { is_truth (slice_get (nodes table.old) node) ≡ true }
    ensures node { (a : FormulaTree) (ws : List Name) → IsFormula table.old node a → AreConstants binders.now list ws → IfOk result (λ made. IsFormula table.new made (closed_by a ws)) }
    ensures grows { Extends table.old table.new }
{
    if table.is_closed(node) {
        return Ok(node);
    }
    let turns = binders.items(table.alloc(), list)?;
    walked(
        table,
        &Closing {
            turns: turns.as_slice(),
        },
        node,
        0,
    )
}
