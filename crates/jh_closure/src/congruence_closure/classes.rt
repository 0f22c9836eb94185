ghost use Rattle.std.specs.Prelude.{◌≡◌, ◌≢◌, ◌<◌, ◌≤◌, ◌++◌, ◌-◌, [], ◌∷◌, List, OnErr, OnOk, length, take};
ghost use Rattle.jh_closure.specs.union_find.Merges.{class_of};
ghost use Rattle.jh_closure.specs.congruence_closure.Uses.{AreUses};
ghost use Rattle.jh_closure.specs.declared.congruence_closure.node.Node.{Node};

use crate::congruence_closure::signatures::Signatures;
use crate::union_find::{Forest, Merge};
use crate::use_lists::{pass_uses, take_uses};
use jh_name::NoMemory;
use std::alloc::Global;

/// The classes of nodes: how they were joined, the nodes with a part in each, and the nodes by their signatures.
#[derive(Drop)]
pub(crate) struct Core {
    pub(crate) forest: Forest,
    pub(crate) uses: Vec<Vec<usize>>,
    pub(crate) table: Signatures,
}

/// Joins two classes by a merge. Where memory is wanting the merges are as before.
pub(crate) fn unite(alloc: Global, core: &mut Core, merge: Merge) -> Result<(), NoMemory>
    requires count { length core.old.uses.items ≡ core.old.forest.count }
    requires small { merge.small < core.old.forest.count }
    requires large { merge.large < core.old.forest.count }
    requires small_root { class_of core.old.forest.merges merge.small ≡ merge.small }
    requires large_root { class_of core.old.forest.merges merge.large ≡ merge.large }
    requires apart { merge.small ≢ merge.large }
    ensures uses { (ns : List Node) → AreUses ns core.old.forest.merges core.old.uses.items → AreUses ns core.new.forest.merges core.new.uses.items }
    ensures ok { OnOk result (core.new.forest.merges ≡ core.old.forest.merges ++ merge ∷ []) }
    ensures few { OnOk result (length core.new.forest.merges ≤ core.new.forest.count) }
    ensures err { OnErr result (core.new.forest.merges ≡ core.old.forest.merges) }
    ensures count { core.new.forest.count ≡ core.old.forest.count }
    ensures table { core.new.table.nodes.entries ≡ core.old.table.nodes.entries }
{
    pass_uses(alloc, &mut core.uses, merge.small, merge.large)?;
    let attached = core.forest.attach(merge);
    if attached.is_err() {
        take_uses(&mut core.uses, merge.small, merge.large);
    }
    attached
}

/// Takes the last merge back.
pub(crate) fn part(core: &mut Core)
    requires count { length core.old.uses.items ≡ core.old.forest.count }
    ensures uses { (ns : List Node) → AreUses ns core.old.forest.merges core.old.uses.items → AreUses ns core.new.forest.merges core.new.uses.items }
    ensures merges { core.new.forest.merges ≡ take (length core.old.forest.merges - 1) core.old.forest.merges }
    ensures count { core.new.forest.count ≡ core.old.forest.count }
    ensures lists { length core.new.uses.items ≡ length core.old.uses.items }
    ensures table { core.new.table.nodes.entries ≡ core.old.table.nodes.entries }
{
    if let Some(merge) = core.forest.detach() {
        take_uses(&mut core.uses, merge.small, merge.large);
    }
}

/// Takes all back but the first merges and the first signatures.
pub(crate) fn cut(core: &mut Core, merges: usize, entries: usize)
    requires count { length core.old.uses.items ≡ core.old.forest.count }
    ensures uses { (ns : List Node) → AreUses ns core.old.forest.merges core.old.uses.items → AreUses ns core.new.forest.merges core.new.uses.items }
    ensures merges { core.new.forest.merges ≡ take merges core.old.forest.merges }
    ensures entries { core.new.table.nodes.entries ≡ take entries core.old.table.nodes.entries }
    ensures count { core.new.forest.count ≡ core.old.forest.count }
{
    while core.forest.len() > merges {
        part(core);
    }
    core.table.cut(entries);
}
