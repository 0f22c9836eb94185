ghost use Rattle.std.specs.Prelude.{◌≡◌, ◌+◌, ◌<◌, ◌≤◌, Some, length, slice_get};

use crate::closed_terms::Terms;
use crate::instances::entry::NodeEntries;
use jh_name::NoMemory;

/// Why there are no instances: there can be so many, or there is no memory.
#[derive(Clone, Copy)]
pub enum InstanceError {
    TooMany(u128),
    Memory,
}

impl From<NoMemory> for InstanceError {
    ghost use Rattle.std.specs.Prelude.{◌≡◌};
    ghost use Rattle.jh_instantiation.specs.declared.instances.making.InstanceError.TheVariants.{Memory};

    ghost from_gives = { λ _ error. error ≡ Memory };

    fn from(_error: NoMemory) -> InstanceError {
        InstanceError::Memory
    }
}

/// A universal at hand: its place in the list, its node, how many variables it has, and at how many of the terms it was
/// put.
#[derive(Clone, Copy)]
pub(crate) struct AtHand {
    pub(crate) place: usize,
    pub(crate) node: usize,
    pub(crate) variables: usize,
    pub(crate) old: usize,
}

/// What was made so far, the universals at hand, the terms, and the number of the first free constant.
#[derive(Drop)]
pub struct Progress {
    pub entries: NodeEntries,
    pub(crate) at_hand: Vec<AtHand>,
    pub(crate) terms: Terms,
    pub(crate) next: u32,
}

/// How many constants there are between two numbers.
pub(crate) fn between(first: u32, next: u32) -> u32
    requires { first ≤ next }
    ensures { first + result ≡ next }
{
    next - first
}

/// The node at a place.
pub(crate) fn node_at(nodes: &[usize], place: usize) -> usize
    requires { place < length nodes.now }
    ensures { slice_get nodes.now place ≡ Some result }
{
    nodes[place]
}

/// The universal at a place.
pub(crate) fn universal_at(at_hand: &[AtHand], place: usize) -> AtHand
    requires { place < length at_hand.now }
    ensures { slice_get at_hand.now place ≡ Some result }
{
    at_hand[place]
}
