ghost use Rattle.std.specs.Prelude.{◌≡◌, ◌<◌, List, true, IfOk, Some, length, slice_get};
ghost use Rattle.jh_form.specs.Tree.{ValueTree, of_truth};
ghost use Rattle.jh_arena.specs.table.Entries.{is_truth, the_truth, the_value};
ghost use Rattle.jh_arena.specs.table.Growth.{Extends};
ghost use Rattle.jh_arena.specs.table.Nodes.{nodes};
ghost use Rattle.jh_substitution.specs.rewriting.Rewritten.{rewritten_value};
ghost use Rattle.jh_fca.specs.local_form.Named.{naming, named};
ghost use Rattle.jh_local_form.specs.updates.Updating.{IsNaming, HasNames, values_in};
ghost use Rattle.jh_local_form.specs.updates.Remaining.{naming-stays};

use crate::updates::naming::Naming;
use jh_arena::table::{Shape, Table};
use jh_name::NoMemory;
use jh_substitution::rewriting::{LeafRules, walked};

impl LeafRules for Naming {
    ghost rewriting = { λ rules t. naming (values_in (nodes t) rules.updates) rules.first };

    ghost ready = { λ rules t. HasNames rules t };

    fn leaf(
        &self,
        _table: &mut Table,
        node: usize,
        _shape: Shape,
        _depth: u32,
    ) -> Result<usize, NoMemory> {
        Ok(node)
    }

    fn whole(
        &self,
        table: &mut Table,
        node: usize,
        _shape: Shape,
        _depth: u32,
    ) -> Result<Option<usize>, NoMemory> {
        table.nodes_differ();
        match self.place_of(node) {
            Some(place) => Ok(Some(self.name_at(place))),
            None => Ok(None),
        }
    }

    ghost stays = { λ rules. naming-stays rules };
}

/// The node of any value in which each update that has a name is exchanged for it, with all that it holds. What the table held
/// stays in its place, after any answer. The answer is want of memory where the value nests deeper than MOST_LEVELS.
pub fn named_value(table: &mut Table, names: &Naming, node: usize) -> Result<usize, NoMemory>
    requires inside { node < length (nodes table.old) }
    requires names { (us : List ValueTree) × IsNaming table.old names.now us }
    ensures tree { IfOk result (λ made. (us : List ValueTree) → IsNaming table.old names.now us → slice_get (nodes table.new) made ≡ Some (rewritten_value (the_value (slice_get (nodes table.old) node)) (naming us names.now.first) 0)) }
    ensures grows { Extends table.old table.new }
{
    walked(table, names, node, 0)
}

/// The same for a formula.
pub fn named(table: &mut Table, names: &Naming, formula: usize) -> Result<usize, NoMemory>
    requires formula { is_truth (slice_get (nodes table.old) formula) ≡ true }
    requires names { (us : List ValueTree) × IsNaming table.old names.now us }
    ensures tree { IfOk result (λ made. (us : List ValueTree) → IsNaming table.old names.now us → slice_get (nodes table.new) made ≡ Some (of_truth (named us names.now.first (the_truth (slice_get (nodes table.old) formula))))) }
    ensures grows { Extends table.old table.new }
{
    named_value(table, names, formula)
}
