ghost use Rattle.std.specs.Prelude.{◌≡◌, ◌<◌, ◌&&◌, true, not, IfOk, length, slice_get};
ghost use Rattle.std.specs.List.{list_any};
ghost use Rattle.jh_arena.specs.table.Entries.{is_number, the_number, the_value};
ghost use Rattle.jh_arena.specs.table.Nodes.{nodes};
ghost use Rattle.jh_normal_forms.specs.parts.Standing.{value_parts};
ghost use Rattle.jh_normal_forms.specs.declared.parts.order.Order.TheVariants as order;
ghost use Rattle.jh_fca.specs.cutting.Cut.{is_foreign, is_simple};

use jh_arena::table::{Shape, Table};
use jh_name::NoMemory;
use jh_normal_forms::parts::{NodeList, Order, PartTest};

/// Asks for what has no local form.
#[derive(Clone, Copy)]
struct Foreign;

impl PartTest for Foreign {
    ghost test = { λ test. is_foreign };

    fn asks(&self, table: &Table, node: usize) -> bool {
        is_foreign(table, node)
    }
}

/// Whether a number is a constant, a name or a read.
fn is_simple(table: &Table, node: usize) -> bool
    requires number { is_number (slice_get (nodes table.now) node) ≡ true }
    ensures { result ≡ is_simple (the_number (slice_get (nodes table.now) node)) }
{
    match table.shape(node) {
        Shape::Const(_) => true,
        Shape::FreeNumber(_) => true,
        Shape::ReadNumber(_, _) => true,
        _ => false,
    }
}

/// Whether two numbers are none that may stand in an equation.
fn are_foreign(table: &Table, a: usize, b: usize) -> bool
    requires a { is_number (slice_get (nodes table.now) a) ≡ true }
    requires b { is_number (slice_get (nodes table.now) b) ≡ true }
    ensures { result ≡ not (is_simple (the_number (slice_get (nodes table.now) a)) && is_simple (the_number (slice_get (nodes table.now) b))) }
{
    !(is_simple(table, a) && is_simple(table, b))
}

/// Whether what stands at a node has no local form.
fn is_foreign(table: &Table, node: usize) -> bool
    requires inside { node < length (nodes table.now) }
    ensures { result ≡ is_foreign (the_value (slice_get (nodes table.now) node)) }
{
    match table.shape(node) {
        Shape::Update(_, _, _) => true,
        Shape::Less(_, _) => true,
        Shape::LessEqual(_, _) => true,
        Shape::Divides(_, _) => true,
        Shape::EqNumber(a, b) => are_foreign(table, a, b),
        _ => false,
    }
}

/// Whether what stands at a node, or a part of it, has no local form. Each part is looked at once. The answer is want of memory
/// where the tree nests deeper than MOST_LEVELS.
pub(crate) fn holds_foreign(table: &Table, node: usize) -> Result<bool, NoMemory>
    requires inside { node < length (nodes table.now) }
    ensures { IfOk result (λ holds. holds ≡ list_any is_foreign (value_parts (the_value (slice_get (nodes table.now) node)) order.InnerFirst)) }
{
    let mut list = NodeList::new(table.alloc());
    list.add_parts(table, &Foreign, Order::InnerFirst, node)?;
    Ok(list.len() != 0)
}
