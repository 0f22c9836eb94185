ghost use Rattle.std.specs.Prelude.{◌≡◌, ◌<◌, true, IfOk, Some, length, slice_get};
ghost use Rattle.jh_boxed.specs.Mapped.{mapped_value};
ghost use Rattle.jh_arena.specs.table.Entries.{is_object, the_object, the_value};
ghost use Rattle.jh_arena.specs.table.Growth.{Extends};
ghost use Rattle.jh_arena.specs.table.Nodes.{nodes, tree_in};
ghost use Rattle.jh_substitution.specs.rewriting.Rewritten.{leaves_alone};
ghost use Rattle.jh_substitution.specs.rewriting.Walks.{IsRewritten};
ghost use Rattle.jh_vars.specs.Resolved.{receiving};
ghost use Rattle.jh_receiver.specs.Staying.{receiving-stays};

use jh_arena::table::{Shape, Table};
use jh_name::NoMemory;
use jh_substitution::rewriting::{LeafRules, walked};
use jh_substitution::simultaneous::lift;

/// The rules by which a node stands for the one loose variable of a definition's value.
#[derive(Clone, Copy)]
struct Receiving {
    receiver: usize,
}

impl LeafRules for Receiving {
    ghost rewriting = { λ rules t. leaves_alone (receiving (the_object (slice_get (nodes t) rules.receiver))) };

    ghost ready = { λ rules t. is_object (slice_get (nodes t) rules.receiver) ≡ true };

    fn leaf(
        &self,
        table: &mut Table,
        node: usize,
        shape: Shape,
        depth: u32,
    ) -> Result<usize, NoMemory> {
        match shape {
            Shape::Bound(number) => received_bound(table, node, number, depth, self.receiver),
            _ => Ok(node),
        }
    }

    fn whole(
        &self,
        table: &mut Table,
        node: usize,
        _shape: Shape,
        depth: u32,
    ) -> Result<Option<usize>, NoMemory> {
        if table.loose(node) <= depth as u64 {
            Ok(Some(node))
        } else {
            Ok(None)
        }
    }

    ghost stays = { λ rules. receiving-stays rules.receiver };
}

/// The node for a bound variable under `depth` inner binders: the variables of these stay, and the loose one
/// is the receiver, whose own loose variables rise by as many.
fn received_bound(
    table: &mut Table,
    node: usize,
    number: u32,
    depth: u32,
    receiver: usize,
) -> Result<usize, NoMemory>
    requires there { slice_get (nodes table.old) node ≡ Some (tree_in table.old (Shape.Bound number)) }
    requires receiver { is_object (slice_get (nodes table.old) receiver) ≡ true }
    ensures node { IfOk result (λ made. IsRewritten (leaves_alone (receiving (the_object (slice_get (nodes table.new) receiver)))) (nodes table.new) node depth made) }
    ensures grows { Extends table.old table.new }
{
    if number < depth {
        Ok(node)
    } else {
        lift(table, receiver, depth)
    }
}

/// The node of the value of a definition with the object at `receiver` for its `this`. Under the binders of
/// the value the loose bound variables of the receiver rise. Parts without `this` are left alone. The answer
/// is want of memory where the value nests deeper than MOST_LEVELS.
pub fn received(table: &mut Table, node: usize, receiver: usize) -> Result<usize, NoMemory>
    requires node { node < length (nodes table.old) }
    requires receiver { is_object (slice_get (nodes table.old) receiver) ≡ true }
    ensures tree { IfOk result (λ made. slice_get (nodes table.new) made ≡ Some (mapped_value (the_value (slice_get (nodes table.old) node)) (receiving (the_object (slice_get (nodes table.old) receiver))) 0)) }
    ensures grows { Extends table.old table.new }
{
    walked(table, &Receiving { receiver }, node, 0)
}
