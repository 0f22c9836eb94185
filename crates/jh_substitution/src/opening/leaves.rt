#![tactic(auto, using(jh_arena::proofs::table::Listed::growth_steps))]

ghost use Rattle.std.specs.Prelude.{◌≡◌, true, Some, IfOk, slice_get};
ghost use Rattle.jh_arena.specs.table.Entries.{is_object};
ghost use Rattle.jh_arena.specs.table.Growth.{Extends};
ghost use Rattle.jh_arena.specs.table.Nodes.{nodes, tree_in};
ghost use Rattle.jh_substitution.specs.rewriting.Leaf.{is_leaf};
ghost use Rattle.jh_substitution.specs.opening.Openings.{IsOpened};

use jh_arena::table::{Shape, Table};
use jh_name::NoMemory;

/// Whether a shape is a free name or a bound variable.
#[tactic(auto, unfolding(crate::specs::rewriting::Leaf::is_leaf))]
pub(crate) fn is_leaf(shape: Shape) -> bool
    ensures { result ≡ is_leaf shape }
{
    match shape {
        Shape::Bound(_) => true,
        Shape::FreeObject(_) => true,
        Shape::FreeNumber(_) => true,
        Shape::FreeTruth(_) => true,
        Shape::FreeSet(_) => true,
        Shape::FreeField(_) => true,
        _ => false,
    }
}

/// The node for a bound variable under `depth` inner binders: the variables of these stay, the binder's own is exchanged, and the
/// numbers of the loose ones beyond it fall by one.
fn bound(
    table: &mut Table,
    with: usize,
    node: usize,
    number: u32,
    depth: u32,
) -> Result<usize, NoMemory>
    requires there { slice_get (nodes table.old) node ≡ Some (tree_in table.old (Shape.Bound number)) }
    requires with { is_object (slice_get (nodes table.old) with) ≡ true }
    ensures node { IfOk result (λ made. IsOpened table.new with node depth made) }
    ensures grows { Extends table.old table.new }
{
    if number < depth {
        Ok(node)
    } else if number == depth {
        Ok(with)
    } else {
        table.make(Shape::Bound(number - 1))
    }
}

/// The node for a leaf under `depth` inner binders. Free names stay.
pub(crate) fn leaf(
    table: &mut Table,
    with: usize,
    node: usize,
    shape: Shape,
    depth: u32,
) -> Result<usize, NoMemory>
    requires there { slice_get (nodes table.old) node ≡ Some (tree_in table.old shape) }
    requires leaf { is_leaf shape ≡ true }
    requires with { is_object (slice_get (nodes table.old) with) ≡ true }
    ensures node { IfOk result (λ made. IsOpened table.new with node depth made) }
    ensures grows { Extends table.old table.new }
{
    match shape {
        Shape::Bound(number) => bound(table, with, node, number, depth),
        _ => Ok(node),
    }
}
