ghost use Rattle.std.specs.Prelude.{◌≡◌, ◌<◌, Some, length, slice_get, true};
ghost use Rattle.jh_closure.specs.union_find.Merges.{class_of};
ghost use Rattle.jh_closure.specs.congruence_closure.Closing.{PartsInside};
ghost use Rattle.jh_closure.specs.congruence_closure.Nodes.{sig, EachPart};

use crate::union_find::Forest;

/// An operation without parts, or an operation of two nodes, which are named by their numbers. An operation of one part
/// has it twice; one of more parts is made of several of these.
#[derive(Clone, Copy, PartialEq, Eq, Hash)]
pub enum Node {
    Leaf(usize),
    Apply(usize, usize, usize),
}

/// The node of a number.
pub(crate) fn node_at(nodes: &[Node], number: usize) -> Node
    requires { number < length nodes.now }
    ensures { slice_get nodes.now number ≡ Some result }
{
    nodes[number]
}

/// The signature of a node: each part exchanged for the representative of its class.
pub(crate) fn signature(forest: &Forest, node: Node) -> Node
    requires { EachPart (λ p. p < forest.now.count) node }
    ensures { result ≡ sig (class_of forest.now.merges) node }
{
    match node {
        Node::Leaf(operation) => Node::Leaf(operation),
        Node::Apply(operation, left, right) => {
            Node::Apply(operation, forest.find(left), forest.find(right))
        }
    }
}

/// Whether the parts of a node are among so many nodes.
fn is_inside(node: Node, count: usize) -> bool
    ensures { result ≡ true → EachPart (λ p. p < count) node }
{
    match node {
        Node::Leaf(_) => true,
        Node::Apply(_, left, right) => left < count && right < count,
    }
}

/// Whether the parts of each node are among the nodes.
pub fn are_parts_inside(nodes: &[Node]) -> bool
    ensures { result ≡ true → PartsInside (length nodes.now) nodes.now }
{
    for number in 0..nodes.len() {
        if !is_inside(node_at(nodes, number), nodes.len()) {
            return false;
        }
    }
    true
}
