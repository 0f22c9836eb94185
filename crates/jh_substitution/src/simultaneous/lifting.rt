ghost use Rattle.std.specs.Prelude.{◌≡◌, ◌≤◌, ◌<◌, ℕ, List, drop, true, IfOk, Some, length, slice_get};
ghost use Rattle.jh_form.specs.Meaning.{Interp, datum};
ghost use Rattle.jh_boxed.specs.Mapped.{mapped_value};
ghost use Rattle.jh_boxed.specs.Sizes.{value_depth};
ghost use Rattle.jh_arena.specs.table.Entries.{the_value};
ghost use Rattle.jh_arena.specs.table.Growth.{Extends};
ghost use Rattle.jh_arena.specs.table.Nodes.{nodes, tree_in};
ghost use Rattle.jh_substitution.specs.rewriting.Rewritten.{leaves_alone};
ghost use Rattle.jh_substitution.specs.rewriting.Walks.{IsRewritten};
ghost use Rattle.jh_substitution.specs.simultaneous.Lifted.{lifting, lifting-stays};

use crate::rewriting::{LeafRules, walked};
use jh_arena::table::{Shape, Table};
use jh_name::NoMemory;

/// The rules by which loose bound variables rise.
#[derive(Clone, Copy)]
struct Lifting {
    by: u32,
}

impl LeafRules for Lifting {
    ghost rewriting = { λ rules t. leaves_alone (lifting rules.by) };

    ghost ready = { λ rules t. Unit {0} };

    fn leaf(
        &self,
        table: &mut Table,
        node: usize,
        shape: Shape,
        depth: u32,
    ) -> Result<usize, NoMemory> {
        match shape {
            Shape::Bound(number) => risen(table, node, number, depth, self.by),
            _ => Ok(node),
        }
    }

    fn whole(
        &self,
        table: &mut Table,
        node: usize,
        _shape: Shape,
        depth: u32,
    ) -> Result<Option<usize>, NoMemory> {
        if table.loose(node) <= depth as u64 {
            Ok(Some(node))
        } else {
            Ok(None)
        }
    }

    ghost stays = { λ rules. lifting-stays rules.by };
}

/// The node for a bound variable under `depth` inner binders: the variables of these stay, the loose ones
/// rise.
fn risen(
    table: &mut Table,
    node: usize,
    number: u32,
    depth: u32,
    by: u32,
) -> Result<usize, NoMemory>
    requires { slice_get (nodes table.old) node ≡ Some (tree_in table.old (Shape.Bound number)) }
    ensures node { IfOk result (λ made. IsRewritten (leaves_alone (lifting by)) (nodes table.new) node depth made) }
    ensures grows { Extends table.old table.new }
{
    if number < depth {
        return Ok(node);
    }
    match number.checked_add(by) {
        Some(sum) => table.make(Shape::Bound(sum)),
        None => Err(NoMemory),
    }
}

/// The node of the tree of a node whose loose bound variables rise by this number, so that the tree can stand
/// under as many more binders. Parts without loose bound variables are left alone. The answer is want of
/// memory where a number leaves u32, and where the tree nests deeper than MOST_LEVELS.
pub fn lift(table: &mut Table, node: usize, by: u32) -> Result<usize, NoMemory>
    requires { node < length (nodes table.old) }
    ensures tree { IfOk result (λ made. slice_get (nodes table.new) made ≡ Some (mapped_value (the_value (slice_get (nodes table.old) node)) (lifting by) 0)) }
    ensures meaning { IfOk result (λ made. (m : Interp) (env : List ℕ) → datum (the_value (slice_get (nodes table.new) made)) m env ≡ datum (the_value (slice_get (nodes table.old) node)) m (drop by env)) }
    ensures shallow { IfOk result (λ made. value_depth (the_value (slice_get (nodes table.old) node)) ≤ 10001) }
    ensures grows { Extends table.old table.new }
{
    walked(table, &Lifting { by }, node, 0)
}
