ghost use Rattle.std.specs.Prelude.{◌≡◌, ◌<◌, true, IfOk, Some, length, slice_get};
ghost use Rattle.jh_form.specs.Tree.{of_truth};
ghost use Rattle.jh_boxed_operations.specs.substitution.Substituted.{substituted, substituting};
ghost use Rattle.jh_arena.specs.table.Entries.{is_truth, the_name, the_value, the_truth};
ghost use Rattle.jh_arena.specs.table.Growth.{Extends};
ghost use Rattle.jh_arena.specs.table.Nodes.{nodes};
ghost use Rattle.jh_substitution.specs.rewriting.Leaf.{free_shape};
ghost use Rattle.jh_substitution.specs.rewriting.Rewritten.{leaves_alone};
ghost use Rattle.jh_substitution.specs.rewriting.Substitution.{IsReady};
ghost use Rattle.jh_substitution.specs.rewriting.Staying.{substituting-stays};

use crate::precondition::standing::standing;
use jh_arena::table::{Shape, Table};
use jh_name::{Name, NoMemory, Sort};
use jh_substitution::rewriting::{LeafRules, walked};

/// The rules by which a node stands for a free name of its sort: the name's number, its node at that
/// sort, and the node that stands for it. They are those of `jh_substitution::rewriting`, which keeps them to itself.
#[derive(Clone, Copy)]
struct Substituting {
    name: usize,
    leaf: usize,
    value: usize,
}

impl LeafRules for Substituting {
    ghost rewriting = { λ rules t. leaves_alone (substituting (the_name (slice_get t.pools.names rules.name)) (the_value (slice_get (nodes t) rules.value))) };

    ghost ready = { λ rules t. IsReady rules.name rules.leaf rules.value t };

    fn leaf(
        &self,
        table: &mut Table,
        node: usize,
        _shape: Shape,
        _depth: u32,
    ) -> Result<usize, NoMemory> {
        table.nodes_differ();
        if node == self.leaf {
            Ok(self.value)
        } else {
            Ok(node)
        }
    }

    fn whole(
        &self,
        table: &mut Table,
        node: usize,
        _shape: Shape,
        _depth: u32,
    ) -> Result<Option<usize>, NoMemory> {
        if table.may_hold(node, self.name) {
            Ok(None)
        } else {
            Ok(Some(node))
        }
    }

    ghost stays = { λ rules. substituting-stays rules.name rules.leaf rules.value };
}

/// The shape of a free name of a sort.
#[tactic(auto, unfolding(jh_substitution::specs::rewriting::Leaf::free_shape))]
fn free_name(name: usize, sort: Sort) -> Shape
    ensures { result ≡ free_shape name sort }
{
    match sort {
        Sort::Obj => Shape::FreeObject(name),
        Sort::Int => Shape::FreeNumber(name),
        Sort::Bool => Shape::FreeTruth(name),
        Sort::Set => Shape::FreeSet(name),
        Sort::Field => Shape::FreeField(name),
    }
}

/// The node of a formula with a value for a free name, wherever the name stands at the value's sort; names in
/// labels stay. Where the name doesn't stand in the formula, nothing is made, however deep it is. Otherwise
/// the answer is want of memory where the formula nests deeper than a walk goes.
pub fn substitute(
    table: &mut Table,
    formula: usize,
    name: &Name,
    value: usize,
) -> Result<usize, NoMemory>
    requires formula { is_truth (slice_get (nodes table.old) formula) ≡ true }
    requires value { value < length (nodes table.old) }
    ensures tree { IfOk result (λ made. slice_get (nodes table.new) made ≡ Some (of_truth (substituted (the_truth (slice_get (nodes table.old) formula)) name.now (the_value (slice_get (nodes table.old) value))))) }
    ensures grows { Extends table.old table.new }
{
    match standing(table, formula, name) {
        None => Ok(formula),
        Some(number) => exchanged(table, formula, name, number, value),
    }
}

/// The same, where the name has this number.
fn exchanged(
    table: &mut Table,
    formula: usize,
    _name: &Name,
    number: usize,
    value: usize,
) -> Result<usize, NoMemory>
    requires formula { is_truth (slice_get (nodes table.old) formula) ≡ true }
    requires value { value < length (nodes table.old) }
    requires named { slice_get table.old.pools.names number ≡ Some _name.now }
    ensures tree { IfOk result (λ made. slice_get (nodes table.new) made ≡ Some (of_truth (substituted (the_truth (slice_get (nodes table.old) formula)) _name.now (the_value (slice_get (nodes table.old) value))))) }
    ensures grows { Extends table.old table.new }
{
    let sort = table.sort(value);
    let leaf = table.make(free_name(number, sort))?;
    walked(
        table,
        &Substituting {
            name: number,
            leaf,
            value,
        },
        formula,
        0,
    )
}
