ghost use Rattle.std.specs.Prelude.{◌≡◌, ◌<◌, ◌++◌, ◌⊎◌, [], ◌∷◌, ℕ, IfOk, OnOk, Some, length, slice_get};
ghost use Rattle.jh_closure.specs.union_find.Merges.{class_of};
ghost use Rattle.jh_closure.specs.congruence_closure.Nodes.{Has, EachPart};
ghost use Rattle.jh_closure.specs.congruence_closure.Closing.{PartsInside};
ghost use Rattle.jh_closure.specs.congruence_closure.Cores.{IsCore};
ghost use Rattle.jh_closure.specs.congruence_closure.Levels.{IsSettled, IsState};
ghost use Rattle.jh_closure.specs.congruence_closure.Uses.{row};
ghost use Rattle.jh_closure.specs.declared.congruence_closure.node.Node.{Node};

use crate::congruence_closure::Node;
use crate::congruence_closure::classes::Core;
use crate::congruence_closure::levels::{State, add_mark};
use crate::congruence_closure::node::node_at;
use crate::congruence_closure::settling::{settle, sign_all};
use crate::congruence_closure::signatures::Signatures;
use crate::union_find::Forest;
use crate::use_lists::{add_use, no_uses, uses_of};
use jh_name::NoMemory;
use std::alloc::Global;

/// Adds a node to the lists of its parts.
fn add_uses(uses: &mut Vec<Vec<usize>>, node: Node, number: usize) -> Result<(), NoMemory>
    requires { EachPart (λ p. p < length uses.old.items) node }
    ensures covers { OnOk result (EachPart (λ p. Has (row uses.new.items p) number) node) }
    ensures keeps { OnOk result ((p k : ℕ) → Has (row uses.old.items p) k → Has (row uses.new.items p) k) }
    ensures only { OnOk result ((p k : ℕ) → Has (row uses.new.items p) k → Has (row uses.old.items p) k ⊎ (k ≡ number)) }
    ensures count { OnOk result (length uses.new.items ≡ length uses.old.items) }
{
    match node {
        Node::Leaf(_) => Ok(()),
        Node::Apply(_, left, right) => {
            add_use(uses, left, number)?;
            add_use(uses, right, number)
        }
    }
}

/// For each node those of which it is a part.
fn first_uses(alloc: Global, nodes: &[Node]) -> Result<Vec<Vec<usize>>, NoMemory>
    requires { PartsInside (length nodes.now) nodes.now }
    ensures covers { IfOk result (λ made. (k : ℕ) (x : Node) → slice_get nodes.now k ≡ Some x → EachPart (λ p. Has (row made.items p) k) x) }
    ensures inside { IfOk result (λ made. (p k : ℕ) → Has (row made.items p) k → k < length nodes.now) }
    ensures count { IfOk result (λ made. length made.items ≡ length nodes.now) }
{
    let mut uses = no_uses(alloc, nodes.len())?;
    for number in 0..nodes.len() {
        add_uses(&mut uses, node_at(nodes, number), number)?;
    }
    Ok(uses)
}

/// What each node weighs: one more than it is a part of.
fn weights(alloc: Global, uses: &Vec<Vec<usize>>) -> Result<Vec<usize>, NoMemory>
    ensures { IfOk result (λ made. length made.items ≡ length uses.now.items) }
{
    let mut made = Vec::new(alloc);
    let count = uses.as_slice().len();
    for node in 0..count {
        made.push(uses_of(uses, node).len().wrapping_add(1))?;
    }
    Ok(made)
}

/// Each node is a class of its own, and none was looked up.
fn first_core(alloc: Global, nodes: &[Node]) -> Result<Core, NoMemory>
    requires { PartsInside (length nodes.now) nodes.now }
    ensures core { IfOk result (λ core. IsCore nodes.now core) }
    ensures merges { IfOk result (λ core. core.forest.merges ≡ []) }
    ensures entries { IfOk result (λ core. core.table.nodes.entries ≡ []) }
{
    let uses = first_uses(alloc, nodes)?;
    let forest = Forest::new(alloc, weights(alloc, &uses)?)?;
    Ok(Core {
        forest,
        uses,
        table: Signatures::new(alloc),
    })
}

/// The numbers up to a count.
fn numbers(alloc: Global, count: usize) -> Result<Vec<usize>, NoMemory>
    ensures all { IfOk result (λ made. (k : ℕ) → k < count → Has made.items k) }
    ensures inside { IfOk result (λ made. (k : ℕ) → Has made.items k → k < count) }
{
    let mut made = Vec::new(alloc);
    for number in 0..count {
        made.push(number)?;
    }
    Ok(made)
}

/// Looks all nodes up, and joins those of one signature.
fn settle_all(alloc: Global, nodes: &[Node], core: &mut Core) -> Result<(), NoMemory>
    requires parts { PartsInside (length nodes.now) nodes.now }
    requires core { IsCore nodes.now core.old }
    requires merges { core.old.forest.merges ≡ [] }
    requires entries { core.old.table.nodes.entries ≡ [] }
    ensures core { OnOk result (IsCore nodes.now core.new) }
    ensures settled { OnOk result (IsSettled nodes.now [] core.new.forest.merges core.new.table.nodes.entries) }
{
    let dirty = numbers(alloc, nodes.len())?;
    let mut pending = Vec::new(alloc);
    sign_all(
        nodes,
        &core.forest,
        &mut core.table,
        &mut pending,
        dirty.as_slice(),
    )?;
    settle(alloc, nodes, core, &mut pending)
}

/// Nodes, and no equation.
pub(crate) fn begin(alloc: Global, nodes: Vec<Node>) -> Result<State, NoMemory>
    requires { PartsInside (length nodes.items) nodes.items }
    ensures state { IfOk result (λ state. IsState state) }
    ensures nodes { IfOk result (λ state. state.nodes.items ≡ nodes.items) }
    ensures said { IfOk result (λ state. state.said.items ≡ []) }
{
    let mut core = first_core(alloc, nodes.as_slice())?;
    settle_all(alloc, nodes.as_slice(), &mut core)?;
    with_mark(alloc, nodes, core)
}

/// Nodes and their classes, with the mark of no equation.
fn with_mark(alloc: Global, nodes: Vec<Node>, core: Core) -> Result<State, NoMemory>
    requires parts { PartsInside (length nodes.items) nodes.items }
    requires core { IsCore nodes.items core }
    requires settled { IsSettled nodes.items [] core.forest.merges core.table.nodes.entries }
    ensures state { IfOk result (λ state. IsState state) }
    ensures nodes { IfOk result (λ state. state.nodes.items ≡ nodes.items) }
    ensures said { IfOk result (λ state. state.said.items ≡ []) }
{
    let mut state = State {
        nodes,
        said: Vec::new(alloc),
        marks: Vec::new(alloc),
        core,
    };
    add_mark(&mut state)?;
    Ok(state)
}
