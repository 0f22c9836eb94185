ghost use Rattle.std.specs.Prelude.{◌≡◌, ℕ, List, ◌∷◌, true, IfOk, Some, slice_get};
ghost use Rattle.jh_form.specs.Tree.{of_truth};
ghost use Rattle.jh_form.specs.Meaning.{Interp, truth, term_value};
ghost use Rattle.jh_arena.specs.table.Entries.{is_object, is_truth, the_object, the_truth};
ghost use Rattle.jh_arena.specs.table.Growth.{Extends};
ghost use Rattle.jh_arena.specs.table.Nodes.{nodes, tree_in};
ghost use Rattle.jh_substitution.specs.rewriting.Rewritten.{leaves_alone};
ghost use Rattle.jh_substitution.specs.rewriting.Walks.{IsRewritten};
ghost use Rattle.jh_substitution.specs.instantiation.Putting.{put, putting};
ghost use Rattle.jh_substitution.specs.instantiation.Staying.{putting-stays};

use crate::rewriting::{LeafRules, walked};
use crate::simultaneous::lift;
use jh_arena::table::{Shape, Table};
use jh_name::NoMemory;

/// The rules by which a node stands for a binder's own variable, with its loose bound variables raised by the binders that
/// were passed.
#[derive(Clone, Copy)]
struct Putting {
    with: usize,
}

impl LeafRules for Putting {
    ghost rewriting = { λ rules t. leaves_alone (putting (the_object (slice_get (nodes t) rules.with))) };

    ghost ready = { λ rules t. is_object (slice_get (nodes t) rules.with) ≡ true };

    fn leaf(
        &self,
        table: &mut Table,
        node: usize,
        shape: Shape,
        depth: u32,
    ) -> Result<usize, NoMemory> {
        match shape {
            Shape::Bound(number) => bound(table, node, number, depth, self.with),
            _ => Ok(node),
        }
    }

    fn whole(
        &self,
        table: &mut Table,
        node: usize,
        _shape: Shape,
        depth: u32,
    ) -> Result<Option<usize>, NoMemory> {
        if table.loose(node) <= depth as u64 {
            Ok(Some(node))
        } else {
            Ok(None)
        }
    }

    ghost stays = { λ rules. putting-stays rules.with };
}

/// The node for a bound variable under `depth` inner binders: the variables of these stay, the term stands for the binder's
/// own, and the numbers of the loose ones beyond it fall by one.
fn bound(
    table: &mut Table,
    node: usize,
    number: u32,
    depth: u32,
    with: usize,
) -> Result<usize, NoMemory>
    requires there { slice_get (nodes table.old) node ≡ Some (tree_in table.old (Shape.Bound number)) }
    requires with { is_object (slice_get (nodes table.old) with) ≡ true }
    ensures node { IfOk result (λ made. IsRewritten (leaves_alone (putting (the_object (slice_get (nodes table.new) with)))) (nodes table.new) node depth made) }
    ensures grows { Extends table.old table.new }
{
    if number < depth {
        Ok(node)
    } else if number == depth {
        lift(table, with, depth)
    } else {
        table.make(Shape::Bound(number - 1))
    }
}

/// The node of a binder's body with the term at `with` for the binder's own variable. The loose bound variables of the term
/// are those round the body; the numbers of the body's own fall by one. Parts without loose bound variables are left alone. The
/// answer is want of memory where a number leaves u32, and where one of the two nests deeper than MOST_LEVELS.
pub fn put(table: &mut Table, body: usize, with: usize) -> Result<usize, NoMemory>
    requires body { is_truth (slice_get (nodes table.old) body) ≡ true }
    requires with { is_object (slice_get (nodes table.old) with) ≡ true }
    ensures tree { IfOk result (λ made. slice_get (nodes table.new) made ≡ Some (of_truth (put (the_truth (slice_get (nodes table.old) body)) (the_object (slice_get (nodes table.old) with))))) }
    ensures meaning { IfOk result (λ made. (m : Interp) (e : List ℕ) → truth (the_truth (slice_get (nodes table.new) made)) m e ≡ truth (the_truth (slice_get (nodes table.old) body)) m (term_value (the_object (slice_get (nodes table.old) with)) m e ∷ e)) }
    ensures grows { Extends table.old table.new }
{
    walked(table, &Putting { with }, body, 0)
}
