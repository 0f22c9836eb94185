ghost use Rattle.std.specs.Prelude.{◌≡◌, ◌≢◌, ◌<◌, ◌⊎◌, ◌+◌, ◌≤◌, [], ◌∷◌, ℕ, IfNone, IfSome, List, OnOk, length};
ghost use Rattle.jh_closure.specs.union_find.Merges.{class_of};
ghost use Rattle.jh_closure.specs.declared.union_find.merge.Cause.{Cause};
ghost use Rattle.jh_closure.specs.congruence_closure.Nodes.{Has};
ghost use Rattle.jh_closure.specs.congruence_closure.Closing.{IsTable, AreAlike, AreRight, Keeps, alike};
ghost use Rattle.jh_closure.specs.congruence_closure.Cores.{Begins, IsCore, IsGrown};
ghost use Rattle.jh_closure.specs.congruence_closure.Tables.{found};
ghost use Rattle.jh_closure.specs.declared.congruence_closure.equation.Equation.{Equation};

use crate::congruence_closure::Node;
use crate::congruence_closure::classes::{Core, unite};
use crate::congruence_closure::node::{node_at, signature};
use crate::congruence_closure::signatures::Signatures;
use crate::union_find::{Cause, Forest, Why};
use crate::use_lists::uses_of;
use jh_name::NoMemory;
use std::alloc::Global;

/// Looks a node up by its signature. Where another one has it, both wait to be one.
fn sign(
    nodes: &[Node],
    forest: &Forest,
    table: &mut Signatures,
    pending: &mut Vec<Cause>,
    node: usize,
    rest: &[usize],
) -> Result<(), NoMemory>
    requires count { forest.now.count ≡ length nodes.now }
    requires table { IsTable nodes.now (class_of forest.now.merges) (found table.old.nodes.entries) pending.old.items (node ∷ rest.now) }
    ensures table { OnOk result (IsTable nodes.now (class_of forest.now.merges) (found table.new.nodes.entries) pending.new.items rest.now) }
    ensures alike { OnOk result ((p : Cause) → Has pending.new.items p → Has pending.old.items p ⊎ ((p ≡ alike p.left p.right) × AreAlike nodes.now (class_of forest.now.merges) p.left p.right)) }
    ensures waits { OnOk result ((p : Cause) → Has pending.old.items p → Has pending.new.items p) }
    ensures entries { Begins table.old.nodes.entries table.new.nodes.entries }
{
    let signature = signature(forest, node_at(nodes, node));
    match table.known(signature) {
        Some(other) => {
            if forest.find(other) != forest.find(node) {
                pending.push(Cause {
                    left: other,
                    right: node,
                    why: Why::Alike,
                })?;
            }
            Ok(())
        }
        None => table.note(signature, node),
    }
}

/// Looks nodes up by their signatures.
pub(crate) fn sign_all(
    nodes: &[Node],
    forest: &Forest,
    table: &mut Signatures,
    pending: &mut Vec<Cause>,
    dirty: &[usize],
) -> Result<(), NoMemory>
    requires count { forest.now.count ≡ length nodes.now }
    requires table { IsTable nodes.now (class_of forest.now.merges) (found table.old.nodes.entries) pending.old.items dirty.now }
    ensures table { OnOk result (IsTable nodes.now (class_of forest.now.merges) (found table.new.nodes.entries) pending.new.items []) }
    ensures alike { OnOk result ((p : Cause) → Has pending.new.items p → Has pending.old.items p ⊎ ((p ≡ alike p.left p.right) × AreAlike nodes.now (class_of forest.now.merges) p.left p.right)) }
    ensures waits { OnOk result ((p : Cause) → Has pending.old.items p → Has pending.new.items p) }
    ensures entries { Begins table.old.nodes.entries table.new.nodes.entries }
{
    for index in 0..dirty.len() {
        sign(
            nodes,
            forest,
            table,
            pending,
            dirty[index],
            &dirty[index + 1..],
        )?;
    }
    Ok(())
}

/// Takes the next two nodes of two classes out of those that wait.
fn next_apart(nodes: &[Node], core: &Core, pending: &mut Vec<Cause>) -> Option<Cause>
    requires count { core.now.forest.count ≡ length nodes.now }
    requires table { IsTable nodes.now (class_of core.now.forest.merges) (found core.now.table.nodes.entries) pending.old.items [] }
    ensures apart { IfSome result (λ p. class_of core.now.forest.merges p.left ≢ class_of core.now.forest.merges p.right) }
    ensures table { IfSome result (λ p. IsTable nodes.now (class_of core.now.forest.merges) (found core.now.table.nodes.entries) (p ∷ pending.new.items) []) }
    ensures among { IfSome result (λ p. (q : Cause) → Has (p ∷ pending.new.items) q → Has pending.old.items q) }
    ensures kept { IfSome result (λ p. (q : Cause) → Has pending.old.items q → Has (p ∷ pending.new.items) q ⊎ (class_of core.now.forest.merges q.left ≡ class_of core.now.forest.merges q.right)) }
    ensures gone { IfNone result ((q : Cause) → Has pending.old.items q → class_of core.now.forest.merges q.left ≡ class_of core.now.forest.merges q.right) }
    ensures none { IfNone result (pending.new.items ≡ []) }
    ensures done { IfNone result (IsTable nodes.now (class_of core.now.forest.merges) (found core.now.table.nodes.entries) [] []) }
{
    while let Some(cause) = pending.pop() {
        if core.forest.find(cause.left) != core.forest.find(cause.right) {
            return Some(cause);
        }
    }
    None
}

/// Makes the classes of two nodes one.
fn join(
    alloc: Global,
    nodes: &[Node],
    core: &mut Core,
    pending: &mut Vec<Cause>,
    cause: Cause,
) -> Result<(), NoMemory>
    requires core { IsCore nodes.now core.old }
    requires table { IsTable nodes.now (class_of core.old.forest.merges) (found core.old.table.nodes.entries) (cause ∷ pending.old.items) [] }
    requires apart { class_of core.old.forest.merges cause.left ≢ class_of core.old.forest.merges cause.right }
    ensures grown { IsGrown nodes.now core.old core.new }
    ensures table { OnOk result (IsTable nodes.now (class_of core.new.forest.merges) (found core.new.table.nodes.entries) pending.new.items []) }
    ensures right { OnOk result ((said : List Equation) → AreRight nodes.now said core.old.forest.merges (cause ∷ pending.old.items) → AreRight nodes.now said core.new.forest.merges pending.new.items) }
    ensures keeps { OnOk result (Keeps (length nodes.now) (class_of core.old.forest.merges) (class_of core.new.forest.merges)) }
    ensures joined { OnOk result (class_of core.new.forest.merges cause.left ≡ class_of core.new.forest.merges cause.right) }
    ensures waits { OnOk result ((p : Cause) → Has pending.old.items p → Has pending.new.items p) }
    ensures more { OnOk result (length core.new.forest.merges ≡ length core.old.forest.merges + 1) }
    ensures few { OnOk result (length core.new.forest.merges ≤ length nodes.now) }
{
    let first = core.forest.find(cause.left);
    let second = core.forest.find(cause.right);
    let merge = core.forest.merge_of(cause, first, second);
    unite(alloc, core, merge)?;
    sign_all(
        nodes,
        &core.forest,
        &mut core.table,
        pending,
        uses_of(&core.uses, merge.small),
    )
}

/// Joins classes until nothing waits.
pub(crate) fn settle(
    alloc: Global,
    nodes: &[Node],
    core: &mut Core,
    pending: &mut Vec<Cause>,
) -> Result<(), NoMemory>
    requires core { IsCore nodes.now core.old }
    requires table { IsTable nodes.now (class_of core.old.forest.merges) (found core.old.table.nodes.entries) pending.old.items [] }
    ensures grown { IsGrown nodes.now core.old core.new }
    ensures table { OnOk result (IsTable nodes.now (class_of core.new.forest.merges) (found core.new.table.nodes.entries) [] []) }
    ensures right { OnOk result ((said : List Equation) → AreRight nodes.now said core.old.forest.merges pending.old.items → AreRight nodes.now said core.new.forest.merges []) }
    ensures keeps { OnOk result (Keeps (length nodes.now) (class_of core.old.forest.merges) (class_of core.new.forest.merges)) }
    ensures joined { OnOk result ((q : Cause) → Has pending.old.items q → class_of core.new.forest.merges q.left ≡ class_of core.new.forest.merges q.right) }
{
    while let Some(cause) = next_apart(nodes, core, pending) {
        join(alloc, nodes, core, pending, cause)?;
    }
    Ok(())
}
