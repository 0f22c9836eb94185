ghost use Rattle.std.specs.Prelude.{◌≡◌, ◌<◌, ◌≤◌, Bool, true, [], ◌∷◌, Some, OnOk, length, slice_get};
ghost use Rattle.std.specs.List.{filter};
ghost use Rattle.jh_form.specs.Tree.{ValueTree};
ghost use Rattle.jh_boxed.specs.Sizes.{value_depth};
ghost use Rattle.jh_arena.specs.table.Entries.{the_value};
ghost use Rattle.jh_arena.specs.table.Growth.{Grows};
ghost use Rattle.jh_arena.specs.table.Nodes.{nodes, fits_in, tree_in};
ghost use Rattle.jh_arena.specs.table.Parts.{parts, ArePartsBelow};
ghost use Rattle.jh_normal_forms.specs.parts.Standing.{before, behind, value_parts};
ghost use Rattle.jh_normal_forms.specs.parts.Collected.{IsCollected, IsCovered, all_parts};

use crate::parts::{NodeList, Order};
use jh_arena::table::{Shape, Table};
use jh_name::NoMemory;

/// Which parts are asked for.
pub trait PartTest {
    ghost test: { Self → ValueTree → Bool };

    /// Whether a node is asked for.
    fn asks(&self, table: &Table, node: usize) -> bool
        requires inside { node < length (nodes table.now) }
        ensures { result ≡ test self.now (the_value (slice_get (nodes table.now) node)) };
}

/// Adds a node where the test asks for it.
fn add_itself<T: PartTest>(
    table: &Table,
    test: &T,
    list: &mut NodeList,
    node: usize,
) -> Result<(), NoMemory>
    requires inside { node < length (nodes table.now) }
    ensures found { OnOk result (IsCollected (nodes table.now) list.old (filter (T.test test.now) (the_value (slice_get (nodes table.now) node) ∷ [])) list.new) }
    ensures grows { Grows list.old list.new }
{
    if test.asks(table, node) {
        list.add(node)?;
    }
    Ok(())
}

/// Adds a node before the parts inside it, where it goes there and the test asks for it.
fn add_before<T: PartTest>(
    table: &Table,
    test: &T,
    order: Order,
    list: &mut NodeList,
    node: usize,
) -> Result<(), NoMemory>
    requires inside { node < length (nodes table.now) }
    ensures found { OnOk result (IsCollected (nodes table.now) list.old (filter (T.test test.now) (before order (the_value (slice_get (nodes table.now) node)))) list.new) }
    ensures grows { Grows list.old list.new }
{
    match order {
        Order::OuterFirst => add_itself(table, test, list, node),
        Order::InnerFirst => Ok(()),
    }
}

/// Adds a node behind the parts inside it, where it goes there and the test asks for it.
fn add_behind<T: PartTest>(
    table: &Table,
    test: &T,
    order: Order,
    list: &mut NodeList,
    node: usize,
) -> Result<(), NoMemory>
    requires inside { node < length (nodes table.now) }
    ensures found { OnOk result (IsCollected (nodes table.now) list.old (filter (T.test test.now) (behind order (the_value (slice_get (nodes table.now) node)))) list.new) }
    ensures grows { Grows list.old list.new }
{
    match order {
        Order::OuterFirst => Ok(()),
        Order::InnerFirst => add_itself(table, test, list, node),
    }
}

/// Adds the parts of a node, where those of the nodes that were seen are in the list.
#[cycle(added)]
fn add<T: PartTest>(
    table: &Table,
    test: &T,
    order: Order,
    seen: &mut NodeList,
    list: &mut NodeList,
    node: usize,
) -> Result<(), NoMemory>
    requires inside { node < length (nodes table.now) }
    requires seen { IsCovered (T.test test.now) order (nodes table.now) seen.old list.old }
    ensures found { OnOk result (IsCollected (nodes table.now) list.old (filter (T.test test.now) (value_parts (the_value (slice_get (nodes table.now) node)) order)) list.new) }
    ensures seen { OnOk result (IsCovered (T.test test.now) order (nodes table.now) seen.new list.new) }
    ensures grows { Grows list.old list.new }
{
    if seen.has(node) {
        return Ok(());
    }
    let shape = table.shape(node);
    add_before(table, test, order, list, node)?;
    add_inner(table, test, order, seen, list, node, shape)?;
    add_behind(table, test, order, list, node)?;
    seen.add(node)?;
    Ok(())
}

/// Adds the parts of the parts of a shape.
#[cycle(added)]
fn add_inner<T: PartTest>(
    table: &Table,
    test: &T,
    order: Order,
    seen: &mut NodeList,
    list: &mut NodeList,
    node: usize,
    shape: Shape,
) -> Result<(), NoMemory>
    requires there { slice_get (nodes table.now) node ≡ Some (tree_in table.now shape) }
    requires fits { fits_in table.now shape ≡ true }
    requires below { ArePartsBelow node table.now.pools.lists shape }
    requires seen { IsCovered (T.test test.now) order (nodes table.now) seen.old list.old }
    ensures found { OnOk result (IsCollected (nodes table.now) list.old (filter (T.test test.now) (all_parts order (nodes table.now) (parts table.now.pools.lists shape))) list.new) }
    ensures seen { OnOk result (IsCovered (T.test test.now) order (nodes table.now) seen.new list.new) }
    ensures grows { Grows list.old list.new }
{
    for index in 0..table.count(shape) {
        let part = table.part(shape, index);
        add(table, test, order, seen, list, part)?;
    }
    Ok(())
}

impl NodeList {
    /// Adds the parts of a node for which the test asks, the node itself among them, each where it isn't in the list,
    /// in the order in which they stand. What the list held stays in its place, after any answer. Each part is looked
    /// at once, however often it stands in the tree. The answer is want of memory where the tree nests deeper than
    /// MOST_LEVELS; no part of it is looked at then.
    pub fn add_parts<T: PartTest>(
        &mut self,
        table: &Table,
        test: &T,
        order: Order,
        node: usize,
    ) -> Result<(), NoMemory>
        requires inside { node < length (nodes table.now) }
        ensures parts { OnOk result (IsCollected (nodes table.now) self.old (filter (T.test test.now) (value_parts (the_value (slice_get (nodes table.now) node)) order)) self.new) }
        ensures shallow { OnOk result (value_depth (the_value (slice_get (nodes table.now) node)) ≤ 10001) }
        ensures grows { Grows self.old self.new }
    {
        if !table.is_shallow(node) {
            return Err(NoMemory);
        }
        let mut seen = NodeList::new(table.alloc());
        add(table, test, order, &mut seen, self, node)
    }
}
