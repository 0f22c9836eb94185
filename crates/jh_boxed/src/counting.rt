ghost use Rattle.std.specs.Prelude.{◌≡◌, ◌+◌, ◌-◌, ◌^◌, min, max, IfOk};

use jh_name::NoMemory;

/// The number of nodes of a tree and the number of nodes on its longest way down, or the greatest u64
/// where that is passed.
#[derive(Clone, Copy, PartialEq, Eq)]
pub struct Extent {
    pub nodes: u64,
    pub depth: u64,
}

pub const NOTHING: Extent = Extent { nodes: 0, depth: 0 };

pub const LEAF: Extent = Extent { nodes: 1, depth: 1 };

/// A node over parts of this extent.
pub fn over(parts: Extent) -> Extent
    ensures nodes { result.nodes ≡ min (1 + parts.nodes) (2 ^ 64 - 1) }
    ensures depth { result.depth ≡ min (1 + parts.depth) (2 ^ 64 - 1) }
{
    Extent {
        nodes: parts.nodes.saturating_add(1),
        depth: parts.depth.saturating_add(1),
    }
}

/// Two trees side by side.
pub fn beside(left: Extent, right: Extent) -> Extent
    ensures nodes { result.nodes ≡ min (left.nodes + right.nodes) (2 ^ 64 - 1) }
    ensures depth { result.depth ≡ max left.depth right.depth }
{
    Extent {
        nodes: left.nodes.saturating_add(right.nodes),
        depth: left.depth.max(right.depth),
    }
}

/// One more binder, or want of memory where there are too many.
pub fn deeper(depth: u32) -> Result<u32, NoMemory>
    ensures { IfOk result (λ below. below ≡ depth + 1) }
{
    match depth.checked_add(1) {
        Some(below) => Ok(below),
        None => Err(NoMemory),
    }
}
