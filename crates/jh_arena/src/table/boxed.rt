ghost use Rattle.jh_boxed.specs.jh_name.declared.naming.Name.{Name};
ghost use Rattle.jh_arena.specs.table.Entries.{the_value};
ghost use Rattle.jh_arena.specs.table.Facing.{IsLeast, turn_below};
ghost use Rattle.jh_arena.specs.table.Growth.{AddsOnly, AreDifferent, Extends};
ghost use Rattle.jh_arena.specs.table.Nodes.{fits_in, nodes, tree_in};
ghost use Rattle.jh_arena.specs.table.Parts.{ArePartsBelow, IsPut, parts};
ghost use Rattle.jh_arena.specs.declared.table.shapes.Shape.{Shape};
ghost use Rattle.jh_form.specs.Closed.{is_closed_value};
ghost use Rattle.jh_form.specs.Passing.{name_equal, value_passes};
ghost use Rattle.jh_form.specs.Sorts.{tree_sort};
ghost use Rattle.jh_form.specs.Tree.{ValueTree};
ghost use Rattle.jh_boxed.specs.Parts.{IsChild};
ghost use Rattle.jh_boxed.specs.Sizes.{value_depth, value_size};
ghost use Rattle.std.specs.Prelude.{IfOk, IfSome, IsTrue, None, Some, [], false, length, min, not, slice_get, true, ℕ, ◌+◌, ◌-◌, ◌<◌, ◌^◌, ◌↔◌, ◌≡◌, ◌≤◌};

use crate::table::measures::MOST_LEVELS;
use crate::table::{Arena, Shape};
use jh_boxed::jh_name::{Name, NoMemory, Sort};
use jh_form::Mark;
use std::alloc::Global;
use std::marker::Model;

/// Terms, fields and formulas as shared nodes. Each node stands once: it is a shape over the numbers of
/// its parts, which were made before it, and no two nodes are the same tree, labels included. Contracts
/// see a table as the list `nodes` of its trees, and its pools of names, labels and lists of fields. What it
/// holds is in a box, so handing a table on moves one pointer, and proofs of what does so are short.
#[derive(Drop)]
pub struct Table {
    inner: Box<Arena>,
}

impl Model for Table {
    ghost use Rattle.jh_arena.specs.table.Entries.{Listing};

    ghost Value = { Listing };

    ghost view = { λ t. t.inner.value };
}

impl Table {
    /// An empty table, which takes its memory from this allocator.
    pub fn new(alloc: Global) -> Result<Table, NoMemory>
        ensures { IfOk result (λ made. nodes made ≡ []) }
    {
        let inner = Arena::new(alloc)?;
        Ok(Table {
            inner: Box::new(alloc, inner)?,
        })
    }

    /// The number of nodes. It takes no memory.
    pub fn len(&self) -> usize
        ensures { result ≡ length (nodes self.now) }
    {
        self.inner.len()
    }

    /// The allocator that the table was made with.
    pub fn alloc(&self) -> Global {
        self.inner.alloc()
    }

    /// No two nodes are the same tree, labels included, and a node that is the tree of a shape is of that shape. It
    /// is a law, and changes nothing.
    pub fn nodes_differ(&self)
        ensures different { AreDifferent (nodes self.now) }
        ensures known { (node : ℕ) (shape : Shape) → fits_in self.now shape ≡ true → slice_get (nodes self.now) node ≡ Some (tree_in self.now shape) → slice_get self.now.shapes node ≡ Some shape }
    {
        self.inner.nodes_differ()
    }

    /// Each part of a node is a node before it. It is a law, and changes nothing.
    pub fn parts_come_first(&self)
        ensures { (n : ℕ) (v w : ValueTree) → slice_get (nodes self.now) n ≡ Some v → IsChild w v → (m : ℕ) × (m < n) × (slice_get (nodes self.now) m ≡ Some w) }
    {
        self.inner.parts_come_first()
    }

    /// A table can be moved to another thread, and be read by several: where it can't, this is refused.
    pub fn crosses_threads(&self) {
        may_cross(self);
    }

    /// The number of nodes of a node's tree, each counted where it stands, or the greatest u64 where that is
    /// passed. It takes no memory and looks at one node alone.
    pub fn size(&self, node: usize) -> u64
        requires { node < length (nodes self.now) }
        ensures { result ≡ min (value_size (the_value (slice_get (nodes self.now) node))) (2 ^ 64 - 1) }
    {
        self.inner.size(node)
    }

    /// How deep a node's tree nests, or the greatest u64 where that is passed. It takes no memory and looks at
    /// one node alone.
    pub fn depth(&self, node: usize) -> u64
        requires { node < length (nodes self.now) }
        ensures { result ≡ min (value_depth (the_value (slice_get (nodes self.now) node))) (2 ^ 64 - 1) }
    {
        self.inner.depth(node)
    }

    /// Whether a node's tree nests at most MOST_LEVELS deep. It takes no memory and looks at one node alone.
    pub fn is_shallow(&self, node: usize) -> bool
        requires { node < length (nodes self.now) }
        ensures { IsTrue result ↔ (value_depth (the_value (slice_get (nodes self.now) node)) ≤ 10001) }
    {
        self.depth(node) <= MOST_LEVELS
    }

    /// The number of binders that a node needs around it: no bound variable of its tree is loose where
    /// these stand around it, and one is where fewer do. It takes no memory and looks at one node alone.
    pub fn loose(&self, node: usize) -> u64
        requires { node < length (nodes self.now) }
        ensures { IsLeast (λ d. is_closed_value (the_value (slice_get (nodes self.now) node)) d) result }
    {
        self.inner.loose(node)
    }

    /// Whether a node has no loose bound variable. It takes no memory and looks at one node alone.
    pub fn is_closed(&self, node: usize) -> bool
        requires { node < length (nodes self.now) }
        ensures { result ≡ is_closed_value (the_value (slice_get (nodes self.now) node)) 0 }
    {
        self.loose(node) == 0
    }

    /// Whether a name of this number may stand free in a node's tree. Where the answer is no, it doesn't, at
    /// any sort. It takes no memory and looks at one node alone.
    pub fn may_hold(&self, node: usize, number: usize) -> bool
        requires { node < length (nodes self.now) }
        ensures { result ≡ false → (x : Name) → slice_get self.now.pools.names number ≡ Some x → value_passes (the_value (slice_get (nodes self.now) node)) (λ y s. not (name_equal y x)) ≡ true }
    {
        self.inner.may_hold(node, number)
    }

    /// The least turn that is greater than that of each free name of a node, and 0 where it has none: a name of
    /// this turn stands nowhere in the node. It takes no memory and looks at one node alone.
    pub fn next_turn(&self, node: usize) -> u64
        requires { node < length (nodes self.now) }
        ensures { IsLeast (λ n. value_passes (the_value (slice_get (nodes self.now) node)) (turn_below n)) result }
    {
        self.inner.next_turn(node)
    }

    /// The node of this shape, which is made where it is new. Where the shape's tree is a node, the answer is that
    /// node and the table stays as it is. At most this one node is added, after any answer.
    pub fn make(&mut self, shape: Shape) -> Result<usize, NoMemory>
        requires { fits_in self.old shape ≡ true }
        ensures node { IfOk result (λ node. slice_get (nodes self.new) node ≡ Some (tree_in self.old shape)) }
        ensures grows { Extends self.old self.new }
        ensures pools { self.new.pools ≡ self.old.pools }
        ensures kept { (node : ℕ) → slice_get (nodes self.old) node ≡ Some (tree_in self.old shape) → (self.new ≡ self.old) × (result ≡ Ok node) }
        ensures one { length (nodes self.new) ≤ length (nodes self.old) + 1 }
        ensures only { AddsOnly (λ v. v ≡ tree_in self.old shape) self.old self.new }
    {
        self.inner.make(shape)
    }

    /// The shape of a node. Its parts are nodes before it.
    pub fn shape(&self, node: usize) -> Shape
        requires { node < length (nodes self.now) }
        ensures tree { slice_get (nodes self.now) node ≡ Some (tree_in self.now result) }
        ensures fits { fits_in self.now result ≡ true }
        ensures below { ArePartsBelow node self.now.pools.lists result }
    {
        self.inner.shape(node)
    }

    /// The number of parts of a shape, the fields of its list among them.
    pub fn count(&self, shape: Shape) -> usize
        requires { fits_in self.now shape ≡ true }
        ensures { result ≡ length (parts self.now.pools.lists shape) }
    {
        self.inner.count(shape)
    }

    /// A part of a shape, in their order: the fields of its list first.
    pub fn part(&self, shape: Shape, index: usize) -> usize
        requires fits { fits_in self.now shape ≡ true }
        requires within { index < length (parts self.now.pools.lists shape) }
        ensures { slice_get (parts self.now.pools.lists shape) index ≡ Some result }
    {
        self.inner.part(shape, index)
    }

    /// The shape with other parts, as many as it has and in the same order. A new list of fields is added to the
    /// pool of lists.
    pub fn with_parts(&mut self, shape: Shape, given: &[usize]) -> Result<Shape, NoMemory>
        requires fits { fits_in self.old shape ≡ true }
        requires counted { length given.now ≡ length (parts self.old.pools.lists shape) }
        ensures put { IfOk result (λ made. IsPut self.new.pools.lists given.now shape made) }
        ensures grows { Extends self.old self.new }
        ensures nodes { nodes self.new ≡ nodes self.old }
    {
        self.inner.with_parts(shape, given)
    }

    /// The number of a name in the pool of names, to which it is added where it is new.
    pub fn name(&mut self, name: &Name) -> Result<usize, NoMemory>
        ensures number { IfOk result (λ number. slice_get self.new.pools.names number ≡ Some name.now) }
        ensures grows { Extends self.old self.new }
        ensures nodes { nodes self.new ≡ nodes self.old }
    {
        self.inner.name(name)
    }

    /// The number of a name in the pool of names, or none where it has none: then it stands free in no node. It
    /// takes no memory.
    pub fn number_of(&self, name: &Name) -> Option<usize>
        ensures number { IfSome result (λ number. slice_get self.now.pools.names number ≡ Some name.now) }
        ensures nowhere { result ≡ None → (node : ℕ) → node < length (nodes self.now) → value_passes (the_value (slice_get (nodes self.now) node)) (λ y s. not (name_equal y name.now)) ≡ true }
    {
        self.inner.number_of(name)
    }

    /// How many names there are in the pool of names.
    pub fn name_count(&self) -> usize
        ensures { result ≡ length self.now.pools.names }
    {
        self.inner.name_count()
    }

    /// The number of a label in the pool of labels, to which it is added where it is new.
    pub fn mark(&mut self, mark: &Mark) -> Result<usize, NoMemory>
        ensures number { IfOk result (λ number. slice_get self.new.pools.marks number ≡ Some mark.now) }
        ensures grows { Extends self.old self.new }
        ensures nodes { nodes self.new ≡ nodes self.old }
    {
        self.inner.mark(mark)
    }

    /// The number of a list of nodes in the pool of lists, to which it is added where it is new.
    pub fn list(&mut self, items: &[usize]) -> Result<usize, NoMemory>
        ensures number { IfOk result (λ number. slice_get self.new.pools.lists number ≡ Some items.now) }
        ensures grows { Extends self.old self.new }
        ensures nodes { nodes self.new ≡ nodes self.old }
    {
        self.inner.list(items)
    }

    /// The name of this number.
    pub fn name_at(&self, number: usize) -> &Name
        requires { number < length self.now.pools.names }
        ensures { slice_get self.now.pools.names number ≡ Some result.now }
    {
        self.inner.name_at(number)
    }

    /// The label of this number.
    pub fn mark_at(&self, number: usize) -> &Mark
        requires { number < length self.now.pools.marks }
        ensures { slice_get self.now.pools.marks number ≡ Some result.now }
    {
        self.inner.mark_at(number)
    }

    /// The list of nodes of this number.
    pub fn list_at(&self, number: usize) -> &[usize]
        requires { number < length self.now.pools.lists }
        ensures { slice_get self.now.pools.lists number ≡ Some result.now }
    {
        self.inner.list_at(number)
    }

    /// The sort of a node. It takes no memory and looks at one node alone.
    pub fn sort(&self, node: usize) -> Sort
        requires { node < length (nodes self.now) }
        ensures { result ≡ tree_sort (the_value (slice_get (nodes self.now) node)) }
    {
        self.shape(node).sort()
    }
}

fn may_cross<T: Send + Sync>(_value: &T) {}
