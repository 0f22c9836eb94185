ghost use Rattle.std.specs.Prelude.{◌≡◌, true, IfOk, Some, slice_get};
ghost use Rattle.jh_form.specs.Tree.{of_truth};
ghost use Rattle.jh_arena.specs.table.Entries.{is_truth, the_truth};
ghost use Rattle.jh_arena.specs.table.Growth.{Extends};
ghost use Rattle.jh_arena.specs.table.Nodes.{nodes};
ghost use Rattle.jh_query.specs.queries.Named.{is_divisor};
ghost use Rattle.jh_query_names.specs.visible_part.Showing as spec;

use crate::visible_part::memo::Made;
use jh_arena::makers::{falsehood, truth};
use jh_arena::table::{Shape, Table};
use jh_name::NoMemory;

/// Whether a constant is 1 or more.
fn is_divisor(factor: i64) -> bool
    ensures { result ≡ is_divisor factor }
{
    factor > 0
}

/// Whether a query can't speak of what has this shape.
#[tactic(auto, unfolding(crate::specs::visible_part::Showing::is_replaced))]
pub(crate) fn is_replaced(shape: Shape) -> bool
    ensures { result ≡ spec.is_replaced shape }
{
    match shape {
        Shape::All(_) => true,
        Shape::Ex(_) => true,
        Shape::Reach(_, _, _) => true,
        Shape::Tree(_) => true,
        Shape::Divides(factor, _) => !is_divisor(factor),
        _ => false,
    }
}

/// What stands for a part of which a query can't speak.
fn replacement(table: &mut Table, positive: bool) -> Result<usize, NoMemory>
    ensures node { IfOk result (λ made. slice_get (nodes table.new) made ≡ Some (of_truth (spec.replacement positive))) }
    ensures grows { Extends table.old table.new }
{
    if positive {
        falsehood(table)
    } else {
        truth(table)
    }
}

/// What is shown of a formula that is no connective and has no label.
pub(crate) fn leaf(
    table: &mut Table,
    node: usize,
    positive: bool,
    replaced: bool,
) -> Result<Made, NoMemory>
    requires { is_truth (slice_get (nodes table.old) node) ≡ true }
    ensures made { IfOk result (λ made. spec.IsMade (nodes table.new) made (spec.leaf (the_truth (slice_get (nodes table.old) node)) positive replaced) (spec.is_kept replaced)) }
    ensures grows { Extends table.old table.new }
{
    if replaced {
        let node = replacement(table, positive)?;
        return Ok(Made {
            node,
            sayable: false,
        });
    }
    Ok(Made {
        node,
        sayable: true,
    })
}
