#![tactic(auto, unfolding(crate::specs::table::Facing::own_bits, crate::specs::table::Facing::loose_over))]

ghost use Rattle.std.specs.Prelude.{◌≡◌, ◌+◌, ◌-◌, ◌^◌, ◌%◌, ◌<◌, ◌↔◌, min, max, IsTrue};
ghost use Rattle.std.specs.Int.{bit_at};
ghost use Rattle.std.specs.Int.Bits.{bit_or};
ghost use Rattle.jh_arena.specs.table.Facing.{own_bits, loose_over};

use crate::table::Shape;
use jh_boxed::{Extent, NOTHING, beside, over};

/// What is kept beside a node: its extent, the number of binders that it needs around it, 64 bits of the
/// numbers of its free names, and the least turn that is greater than that of each of them.
#[derive(Clone, Copy)]
pub struct Facts {
    pub extent: Extent,
    pub loose: u64,
    pub names: u64,
    pub turn: u64,
}

pub(crate) const NO_FACTS: Facts = Facts {
    extent: NOTHING,
    loose: 0,
    names: 0,
    turn: 0,
};

/// Two nodes side by side.
pub(crate) fn side(left: Facts, right: Facts) -> Facts
    ensures nodes { result.extent.nodes ≡ min (left.extent.nodes + right.extent.nodes) (2 ^ 64 - 1) }
    ensures depth { result.extent.depth ≡ max left.extent.depth right.extent.depth }
    ensures loose { result.loose ≡ max left.loose right.loose }
    ensures names { result.names ≡ bit_or left.names right.names }
    ensures turn { result.turn ≡ max left.turn right.turn }
{
    Facts {
        extent: beside(left.extent, right.extent),
        loose: left.loose.max(right.loose),
        names: left.names | right.names,
        turn: left.turn.max(right.turn),
    }
}

/// A shape over parts of these facts, with the turn after that of its own name.
pub(crate) fn above(shape: Shape, parts: Facts, turn: u64) -> Facts
    ensures nodes { result.extent.nodes ≡ min (1 + parts.extent.nodes) (2 ^ 64 - 1) }
    ensures depth { result.extent.depth ≡ min (1 + parts.extent.depth) (2 ^ 64 - 1) }
    ensures loose { result.loose ≡ loose_over shape parts.loose }
    ensures names { result.names ≡ bit_or (own_bits shape) parts.names }
    ensures turn { result.turn ≡ max turn parts.turn }
{
    Facts {
        extent: over(parts.extent),
        loose: loose_above(shape, parts.loose),
        names: bits_of(shape) | parts.names,
        turn: turn.max(parts.turn),
    }
}

fn loose_above(shape: Shape, parts: u64) -> u64
    ensures { result ≡ loose_over shape parts }
{
    match shape {
        Shape::Bound(number) => number as u64 + 1,
        Shape::Compr(_) => parts.saturating_sub(1),
        Shape::All(_) => parts.saturating_sub(1),
        Shape::Ex(_) => parts.saturating_sub(1),
        _ => parts,
    }
}

fn bits_of(shape: Shape) -> u64
    ensures { result ≡ own_bits shape }
{
    match shape {
        Shape::FreeObject(name) => bit_of(name),
        Shape::FreeNumber(name) => bit_of(name),
        Shape::FreeTruth(name) => bit_of(name),
        Shape::FreeSet(name) => bit_of(name),
        Shape::FreeField(name) => bit_of(name),
        _ => 0,
    }
}

fn bit_of(number: usize) -> u64
    ensures { result ≡ 2 ^ (number % 64) }
{
    1 << (number % 64)
}

/// Whether a bit is set.
pub(crate) fn has_bit(bits: u64, number: usize) -> bool
    ensures { IsTrue result ↔ (bit_at bits (number % 64) ≡ 1) }
{
    (bits >> (number % 64)) & 1 != 0
}
