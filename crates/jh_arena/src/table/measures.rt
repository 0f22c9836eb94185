ghost use Rattle.std.specs.Prelude.{◌≡◌, ◌+◌, ◌<◌, is_some, ◌-◌, ◌^◌, true, false, not, Some, min, length, slice_get};
ghost use Rattle.jh_boxed.specs.Sizes.{value_size, value_depth};
ghost use Rattle.jh_arena.specs.table.Entries.{the_name, the_value};
ghost use Rattle.jh_arena.specs.table.Measures.{AreFacts};
ghost use Rattle.jh_arena.specs.table.Facing.{IsLeast, own_turn, turn_below};
ghost use Rattle.jh_form.specs.Closed.{is_closed_value};
ghost use Rattle.jh_form.specs.Passing.{value_passes, name_equal};
ghost use Rattle.jh_boxed.specs.jh_name.declared.naming.Name.{Name};
ghost use Rattle.jh_arena.specs.table.Nodes.{nodes, fits_in, tree_in};

use crate::table::facts::{Facts, NO_FACTS, above, has_bit, side};
use crate::table::{Arena, Shape};

/// The deepest nesting of a tree over which a walk goes: as deep as the stack carries.
pub const MOST_LEVELS: u64 = 10_001;

impl Arena {
    /// As `Table::size`.
    pub fn size(&self, node: usize) -> u64
        requires { node < length (nodes self.now) }
        ensures { result ≡ min (value_size (the_value (slice_get (nodes self.now) node))) (2 ^ 64 - 1) }
    {
        self.nodes[node].extent.nodes
    }

    /// As `Table::depth`.
    pub fn depth(&self, node: usize) -> u64
        requires { node < length (nodes self.now) }
        ensures { result ≡ min (value_depth (the_value (slice_get (nodes self.now) node))) (2 ^ 64 - 1) }
    {
        self.nodes[node].extent.depth
    }

    /// As `Table::loose`.
    pub fn loose(&self, node: usize) -> u64
        requires { node < length (nodes self.now) }
        ensures { IsLeast (λ d. is_closed_value (the_value (slice_get (nodes self.now) node)) d) result }
    {
        self.nodes[node].loose
    }

    /// As `Table::may_hold`.
    pub fn may_hold(&self, node: usize, number: usize) -> bool
        requires { node < length (nodes self.now) }
        ensures { result ≡ false → (x : Name) → slice_get self.now.pools.names number ≡ Some x → value_passes (the_value (slice_get (nodes self.now) node)) (λ y s. not (name_equal y x)) ≡ true }
    {
        let _names = self.names.len();
        has_bit(self.nodes[node].names, number)
    }

    /// As `Table::next_turn`.
    pub fn next_turn(&self, node: usize) -> u64
        requires { node < length (nodes self.now) }
        ensures { IsLeast (λ n. value_passes (the_value (slice_get (nodes self.now) node)) (turn_below n)) result }
    {
        self.nodes[node].turn
    }

    #[tactic(auto, unfolding(crate::specs::table::Nodes::fits, crate::specs::table::Facing::own_turn))]
    fn own_turn(&self, shape: Shape) -> u64
        requires { fits_in self.now shape ≡ true }
        ensures { result ≡ own_turn self.now.pools.names shape }
    {
        match shape {
            Shape::FreeObject(name) => self.turn_after(name),
            Shape::FreeNumber(name) => self.turn_after(name),
            Shape::FreeTruth(name) => self.turn_after(name),
            Shape::FreeSet(name) => self.turn_after(name),
            Shape::FreeField(name) => self.turn_after(name),
            _ => 0,
        }
    }

    fn turn_after(&self, name: usize) -> u64
        requires { is_some (slice_get self.now.pools.names name) ≡ true }
        ensures { result ≡ (the_name (slice_get self.now.pools.names name)).turn + 1 }
    {
        self.name_at(name).turn() as u64 + 1
    }

    pub(crate) fn measured(&self, shape: Shape) -> Facts
        requires { fits_in self.now shape ≡ true }
        ensures { AreFacts self.now.pools (tree_in self.now shape) result }
    {
        let mut sum = NO_FACTS;
        for index in 0..self.count(shape) {
            sum = side(sum, self.nodes[self.part(shape, index)]);
        }
        above(shape, sum, self.own_turn(shape))
    }
}
