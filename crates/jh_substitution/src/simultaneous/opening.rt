ghost use Rattle.std.specs.Prelude.{◌≡◌, ◌≤◌, ℕ, List, true, IfOk, Some, slice_get};
ghost use Rattle.jh_form.specs.Tree.{of_truth};
ghost use Rattle.jh_form.specs.Meaning.{Interp, truth};
ghost use Rattle.jh_boxed.specs.Sizes.{value_depth};
ghost use Rattle.jh_arena.specs.table.Entries.{is_truth, the_truth, the_value};
ghost use Rattle.jh_arena.specs.table.Growth.{Extends};
ghost use Rattle.jh_arena.specs.table.Nodes.{nodes, tree_in};
ghost use Rattle.jh_substitution.specs.rewriting.Rewritten.{leaves_alone};
ghost use Rattle.jh_substitution.specs.rewriting.Walks.{IsRewritten};
ghost use Rattle.jh_substitution.specs.simultaneous.OpenedAll.{opening_all, opened_all, values_before, terms_closed, are_objects, objects_at};
ghost use Rattle.jh_substitution.specs.simultaneous.OpeningStays.{opening_all-stays};

use crate::rewriting::{LeafRules, walked};
use jh_arena::table::{Shape, Table};
use jh_name::NoMemory;

/// The rules by which nodes stand for the variables of several binders.
#[derive(Clone, Copy)]
struct OpeningAll<'a> {
    with: &'a [usize],
}

impl LeafRules for OpeningAll<'_> {
    ghost rewriting = { λ rules t. leaves_alone (opening_all (objects_at (nodes t) rules.with.now)) };

    ghost ready = { λ rules t. are_objects (nodes t) rules.with.now ≡ true };

    fn leaf(
        &self,
        table: &mut Table,
        node: usize,
        shape: Shape,
        depth: u32,
    ) -> Result<usize, NoMemory> {
        match shape {
            Shape::Bound(number) => bound(table, node, number, depth, self.with),
            _ => Ok(node),
        }
    }

    fn whole(
        &self,
        table: &mut Table,
        node: usize,
        _shape: Shape,
        depth: u32,
    ) -> Result<Option<usize>, NoMemory> {
        if table.loose(node) <= depth as u64 {
            Ok(Some(node))
        } else {
            Ok(None)
        }
    }

    ghost stays = { λ rules. opening_all-stays rules.with.now };
}

/// The node for a bound variable under `depth` inner binders: the variables of these stay, those of the
/// opened binders are exchanged, and the numbers of the loose ones beyond fall.
fn bound(
    table: &mut Table,
    node: usize,
    number: u32,
    depth: u32,
    with: &[usize],
) -> Result<usize, NoMemory>
    requires there { slice_get (nodes table.old) node ≡ Some (tree_in table.old (Shape.Bound number)) }
    requires with { are_objects (nodes table.old) with.now ≡ true }
    ensures node { IfOk result (λ made. IsRewritten (leaves_alone (opening_all (objects_at (nodes table.new) with.now))) (nodes table.new) node depth made) }
    ensures grows { Extends table.old table.new }
{
    if number < depth {
        return Ok(node);
    }
    let place = (number - depth) as usize;
    if place < with.len() {
        Ok(with[place])
    } else {
        table.make(Shape::Bound(number - with.len() as u32))
    }
}

/// The node of a body with the terms at `with` for the variables of as many binders around it, the innermost
/// binder's first. The numbers of the loose bound variables beyond fall by as many. Parts without loose
/// bound variables are left alone. No term has a loose bound variable. The answer is want of memory where
/// the body nests deeper than MOST_LEVELS.
pub fn open_several(table: &mut Table, body: usize, with: &[usize]) -> Result<usize, NoMemory>
    requires body { is_truth (slice_get (nodes table.old) body) ≡ true }
    requires with { are_objects (nodes table.old) with.now ≡ true }
    requires closed { terms_closed (objects_at (nodes table.old) with.now) ≡ true }
    ensures tree { IfOk result (λ made. slice_get (nodes table.new) made ≡ Some (of_truth (opened_all (the_truth (slice_get (nodes table.old) body)) (objects_at (nodes table.old) with.now)))) }
    ensures meaning { IfOk result (λ made. (m : Interp) (env : List ℕ) → truth (the_truth (slice_get (nodes table.new) made)) m env ≡ truth (the_truth (slice_get (nodes table.old) body)) m (values_before (objects_at (nodes table.old) with.now) m env)) }
    ensures shallow { IfOk result (λ made. value_depth (the_value (slice_get (nodes table.old) body)) ≤ 10001) }
    ensures grows { Extends table.old table.new }
{
    walked(table, &OpeningAll { with }, body, 0)
}
