ghost use Rattle.std.specs.Prelude.{◌≡◌, ◌<◌, ◌≤◌, true, false, IfOk, IsOk, IfSome, IsTrue, Some, length, slice_get};
ghost use Rattle.jh_form.specs.Passing.{value_passes};
ghost use Rattle.jh_boxed.specs.Sizes.{value_depth};
ghost use Rattle.jh_arena.specs.table.Entries.{the_value};
ghost use Rattle.jh_arena.specs.table.Nodes.{nodes, fits_in, tree_in};
ghost use Rattle.jh_substitution.specs.rewriting.Leaf.{is_leaf};
ghost use Rattle.jh_substitution.specs.rewriting.Passed.{Passed, PassesBut};
ghost use Rattle.jh_substitution.specs.rewriting.Seen.{has};

use crate::rewriting::leaves::is_leaf;
use crate::rewriting::seen::Seen;
use jh_arena::table::{Shape, Table};
use jh_boxed::NameTest;
use jh_name::{NoMemory, Sort};

/// Whether a leaf passes: a free name at its sort does where it passes the test, and a bound variable
/// always.
fn leaf_passes<T: NameTest>(table: &Table, shape: Shape, test: &T) -> bool
    requires leaf { is_leaf shape ≡ true }
    requires fits { fits_in table.now shape ≡ true }
    ensures { result ≡ value_passes (tree_in table.now shape) (T.test test.now) }
{
    match shape {
        Shape::FreeObject(name) => test.passes(table.name_at(name), Sort::Obj),
        Shape::FreeNumber(name) => test.passes(table.name_at(name), Sort::Int),
        Shape::FreeTruth(name) => test.passes(table.name_at(name), Sort::Bool),
        Shape::FreeSet(name) => test.passes(table.name_at(name), Sort::Set),
        Shape::FreeField(name) => test.passes(table.name_at(name), Sort::Field),
        _ => true,
    }
}

/// Whether all names of a node pass at once, where the test passes each name but the one of this number.
fn passes_at_once<T: NameTest>(table: &Table, _test: &T, node: usize, only: Option<usize>) -> bool
    requires inside { node < length (nodes table.now) }
    requires only { IfSome only (λ number. PassesBut (T.test _test.now) table.now.pools.names number) }
    ensures { IsTrue result → value_passes (the_value (slice_get (nodes table.now) node)) (T.test _test.now) ≡ true }
{
    match only {
        Some(number) => !table.may_hold(node, number),
        None => false,
    }
}

/// Whether a node passes, where those that were seen do. Where there is no memory to note it, it is asked
/// once more when it is met again.
#[cycle(passes)]
fn passes<T: NameTest>(
    table: &Table,
    test: &T,
    only: Option<usize>,
    seen: &mut Seen,
    node: usize,
) -> bool
    requires inside { node < length (nodes table.now) }
    requires only { IfSome only (λ number. PassesBut (T.test test.now) table.now.pools.names number) }
    requires seen { Passed (T.test test.now) (nodes table.now) (has seen.old.nodes) }
    ensures passes { result ≡ value_passes (the_value (slice_get (nodes table.now) node)) (T.test test.now) }
    ensures seen { Passed (T.test test.now) (nodes table.now) (has seen.new.nodes) }
{
    if passes_at_once(table, test, node, only) {
        return true;
    }
    if seen.has(node) {
        return true;
    }
    let passes = shape_passes(table, test, only, seen, node);
    if passes {
        let _noted = seen.add(node);
    }
    passes
}

/// Whether a node passes, by its shape.
#[cycle(passes)]
fn shape_passes<T: NameTest>(
    table: &Table,
    test: &T,
    only: Option<usize>,
    seen: &mut Seen,
    node: usize,
) -> bool
    requires inside { node < length (nodes table.now) }
    requires only { IfSome only (λ number. PassesBut (T.test test.now) table.now.pools.names number) }
    requires seen { Passed (T.test test.now) (nodes table.now) (has seen.old.nodes) }
    ensures passes { result ≡ value_passes (the_value (slice_get (nodes table.now) node)) (T.test test.now) }
    ensures seen { Passed (T.test test.now) (nodes table.now) (has seen.new.nodes) }
{
    let shape = table.shape(node);
    if is_leaf(shape) {
        return leaf_passes(table, shape, test);
    }
    for index in 0..table.count(shape) {
        let part = table.part(shape, index);
        let passes = passes(table, test, only, seen, part);
        if !passes {
            return false;
        }
    }
    true
}

/// Whether each free name in the tree of a node passes the test, which passes each name but the one of
/// this number. Parts that don't hold that name are left alone.
pub fn passes_but<T: NameTest>(table: &Table, node: usize, test: &T, number: usize) -> bool
    requires inside { node < length (nodes table.now) }
    requires others { PassesBut (T.test test.now) table.now.pools.names number }
    ensures { result ≡ value_passes (the_value (slice_get (nodes table.now) node)) (T.test test.now) }
{
    let mut seen = Seen::new(table.alloc());
    passes(table, test, Some(number), &mut seen, node)
}

/// Whether each free name in the tree of a node passes the test at the sort at which it stands. Names in
/// labels are no free names. Each part is asked once, however often it stands in the tree, as long as there
/// is memory to note it. The answer is want of memory only where the tree nests deeper than MOST_LEVELS; no
/// part of it is looked at then.
pub fn names<T: NameTest>(table: &Table, node: usize, test: &T) -> Result<bool, NoMemory>
    requires { node < length (nodes table.now) }
    ensures passes { IfOk result (λ passes. passes ≡ value_passes (the_value (slice_get (nodes table.now) node)) (T.test test.now)) }
    ensures answers { value_depth (the_value (slice_get (nodes table.now) node)) ≤ 10001 → IsOk result }
{
    if !table.is_shallow(node) {
        return Err(NoMemory);
    }
    let mut seen = Seen::new(table.alloc());
    Ok(passes(table, test, None, &mut seen, node))
}
