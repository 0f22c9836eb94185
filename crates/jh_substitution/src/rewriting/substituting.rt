ghost use Rattle.std.specs.Prelude.{◌≡◌, ◌<◌, ◌≤◌, ◌↔◌, ℕ, List, [], true, false, IfOk, Some, length, slice_get};
ghost use Rattle.jh_form.specs.Tree.{of_truth};
ghost use Rattle.jh_form.specs.Closed.{is_closed_value};
ghost use Rattle.jh_form.specs.Passing.{formula_passes};
ghost use Rattle.jh_form.specs.Meaning.{Interp, truth, datum};
ghost use Rattle.jh_form.specs.Assigned.{assigned};
ghost use Rattle.jh_boxed.specs.Sizes.{value_depth};
ghost use Rattle.jh_arena.specs.table.Entries.{is_truth, the_name, the_value, the_truth};
ghost use Rattle.jh_arena.specs.table.Growth.{Extends};
ghost use Rattle.jh_arena.specs.table.Nodes.{nodes};
ghost use Rattle.jh_form.specs.Sorts.{tree_sort};
ghost use Rattle.jh_boxed_operations.specs.substitution.Substituted.{substituted, substituting, stands_only_at};
ghost use Rattle.jh_substitution.specs.rewriting.Leaf.{free_shape};
ghost use Rattle.jh_substitution.specs.rewriting.Rewritten.{leaves_alone};
ghost use Rattle.jh_substitution.specs.rewriting.Substitution.{IsReady};
ghost use Rattle.jh_substitution.specs.rewriting.Staying.{substituting-stays};

use crate::rewriting::naming::passes_but;
use crate::rewriting::rules::LeafRules;
use crate::rewriting::walking::walked;
use jh_arena::table::{Shape, Table};
use jh_boxed_operations::substitution::{FormFault, StandsOnlyAt};
use jh_name::{Name, NoMemory, Sort};

/// The rules by which a node stands for a free name of its sort: the name's number, its node at that
/// sort, and the node that stands for it.
#[derive(Clone, Copy)]
struct Substituting {
    name: usize,
    leaf: usize,
    value: usize,
}

impl LeafRules for Substituting {
    ghost rewriting = { λ rules t. leaves_alone (substituting (the_name (slice_get t.pools.names rules.name)) (the_value (slice_get (nodes t) rules.value))) };

    ghost ready = { λ rules t. IsReady rules.name rules.leaf rules.value t };

    fn leaf(
        &self,
        table: &mut Table,
        node: usize,
        _shape: Shape,
        _depth: u32,
    ) -> Result<usize, NoMemory> {
        table.nodes_differ();
        if node == self.leaf {
            Ok(self.value)
        } else {
            Ok(node)
        }
    }

    fn whole(
        &self,
        table: &mut Table,
        node: usize,
        _shape: Shape,
        _depth: u32,
    ) -> Result<Option<usize>, NoMemory> {
        if table.may_hold(node, self.name) {
            Ok(None)
        } else {
            Ok(Some(node))
        }
    }

    ghost stays = { λ rules. substituting-stays rules.name rules.leaf rules.value };
}

/// The shape of a free name of a sort.
#[tactic(auto, unfolding(crate::specs::rewriting::Leaf::free_shape))]
fn free_name(name: usize, sort: Sort) -> Shape
    ensures { result ≡ free_shape name sort }
{
    match sort {
        Sort::Obj => Shape::FreeObject(name),
        Sort::Int => Shape::FreeNumber(name),
        Sort::Bool => Shape::FreeTruth(name),
        Sort::Set => Shape::FreeSet(name),
        Sort::Field => Shape::FreeField(name),
    }
}

/// The node of a formula with a value, which has no loose bound variables, for a free name. The name is
/// exchanged wherever it stands as a term or formula; names in labels stay. Parts that don't hold the name
/// are left alone. It is an error exactly where the name stands in the formula at another sort than the
/// value's, but where the formula nests deeper than MOST_LEVELS: then the answer is want of memory, and no
/// part of it is looked at.
pub fn subst(
    table: &mut Table,
    formula: usize,
    name: &Name,
    value: usize,
) -> Result<usize, FormFault>
    requires formula { is_truth (slice_get (nodes table.old) formula) ≡ true }
    requires value { value < length (nodes table.old) }
    requires closed { is_closed_value (the_value (slice_get (nodes table.old) value)) 0 ≡ true }
    ensures tree { IfOk result (λ made. slice_get (nodes table.new) made ≡ Some (of_truth (substituted (the_truth (slice_get (nodes table.old) formula)) name.now (the_value (slice_get (nodes table.old) value))))) }
    ensures meaning { IfOk result (λ made. (m : Interp) (env : List ℕ) → truth (the_truth (slice_get (nodes table.new) made)) m env ≡ truth (the_truth (slice_get (nodes table.old) formula)) (assigned m name.now (datum (the_value (slice_get (nodes table.old) value)) m [])) env) }
    ensures ill_sorted { value_depth (the_value (slice_get (nodes table.old) formula)) ≤ 10001 → ((result ≡ Err FormFault.IllSorted) ↔ (formula_passes (the_truth (slice_get (nodes table.old) formula)) (stands_only_at name.now (tree_sort (the_value (slice_get (nodes table.old) value)))) ≡ false)) }
    ensures shallow { IfOk result (λ made. value_depth (the_value (slice_get (nodes table.old) formula)) ≤ 10001) }
    ensures grows { Extends table.old table.new }
{
    if !table.is_shallow(formula) {
        return Err(FormFault::Memory);
    }
    match table.number_of(name) {
        None => Ok(formula),
        Some(number) => subst_numbered(table, formula, name, number, value),
    }
}

/// The same, where the name has this number and the formula is no deeper than a walk goes.
fn subst_numbered(
    table: &mut Table,
    formula: usize,
    name: &Name,
    number: usize,
    value: usize,
) -> Result<usize, FormFault>
    requires formula { is_truth (slice_get (nodes table.old) formula) ≡ true }
    requires value { value < length (nodes table.old) }
    requires named { slice_get table.old.pools.names number ≡ Some name.now }
    ensures tree { IfOk result (λ made. slice_get (nodes table.new) made ≡ Some (of_truth (substituted (the_truth (slice_get (nodes table.old) formula)) name.now (the_value (slice_get (nodes table.old) value))))) }
    ensures ill_sorted { (result ≡ Err FormFault.IllSorted) ↔ (formula_passes (the_truth (slice_get (nodes table.old) formula)) (stands_only_at name.now (tree_sort (the_value (slice_get (nodes table.old) value)))) ≡ false) }
    ensures grows { Extends table.old table.new }
{
    let sort = table.sort(value);
    if !passes_but(table, formula, &StandsOnlyAt { name, sort }, number) {
        return Err(FormFault::IllSorted);
    }
    match exchanged(table, formula, name, number, sort, value) {
        Ok(made) => Ok(made),
        Err(_) => Err(FormFault::Memory),
    }
}

fn exchanged(
    table: &mut Table,
    formula: usize,
    _name: &Name,
    number: usize,
    sort: Sort,
    value: usize,
) -> Result<usize, NoMemory>
    requires formula { is_truth (slice_get (nodes table.old) formula) ≡ true }
    requires value { value < length (nodes table.old) }
    requires named { slice_get table.old.pools.names number ≡ Some _name.now }
    requires sort { sort ≡ tree_sort (the_value (slice_get (nodes table.old) value)) }
    ensures tree { IfOk result (λ made. slice_get (nodes table.new) made ≡ Some (of_truth (substituted (the_truth (slice_get (nodes table.old) formula)) _name.now (the_value (slice_get (nodes table.old) value))))) }
    ensures grows { Extends table.old table.new }
{
    let leaf = table.make(free_name(number, sort))?;
    walked(
        table,
        &Substituting {
            name: number,
            leaf,
            value,
        },
        formula,
        0,
    )
}
