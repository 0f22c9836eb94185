#![tactic(auto, unfolding(crate::specs::classes::Constants::constant_shape, crate::specs::classes::Constants::int_sort))]

ghost use Rattle.std.specs.Prelude.{◌≡◌, ◌<◌, ◌↔◌, ◌⊎◌, ℕ, IfOk, IsTrue, OnOk, Some, length, slice_get, true};
ghost use Rattle.jh_closure.specs.congruence_closure.Nodes.{Has};
ghost use Rattle.jh_closure.specs.declared.congruence_closure.equation.Equation.{Equation};
ghost use Rattle.jh_form.specs.Sorts.{tree_sort};
ghost use Rattle.jh_arena.specs.table.Nodes.{nodes};
ghost use Rattle.jh_cong.specs.flattening.TreeValues.{AreApart};
ghost use Rattle.jh_cong.specs.classes.Constants.{AreConstants, ArePair, ArePairs, constant_shape, int_sort, is_constant};
ghost use Rattle.jh_cong.specs.classes.Saying.{pair_of, tree_at};

use jh_arena::table::{Shape, Table};
use jh_closure::congruence_closure::Equation;
use jh_name::{NoMemory, Sort};
use std::alloc::Global;

/// Whether a shape is an integer constant, True or False.
fn is_constant_shape(shape: Shape) -> bool
    ensures { result ≡ constant_shape shape }
{
    match shape {
        Shape::Const(_) => true,
        Shape::True => true,
        Shape::False => true,
        _ => false,
    }
}

/// Whether a node is an integer constant, True or False.
fn is_constant_node(table: &Table, node: usize) -> bool
    requires { node < length (nodes table.now) }
    ensures { result ≡ is_constant (tree_at (nodes table.now) node) }
{
    is_constant_shape(table.shape(node))
}

/// Adds a node where it is a constant.
fn add_constant(table: &Table, node: usize, made: &mut Vec<usize>) -> Result<(), NoMemory>
    requires { node < length (nodes table.now) }
    ensures covers { OnOk result (is_constant (tree_at (nodes table.now) node) ≡ true → Has made.new.items node) }
    ensures keeps { OnOk result ((k : ℕ) → Has made.old.items k → Has made.new.items k) }
    ensures only { OnOk result ((k : ℕ) → Has made.new.items k → Has made.old.items k ⊎ ((node ≡ k) × (is_constant (tree_at (nodes table.now) node) ≡ true))) }
{
    if is_constant_node(table, node) {
        made.push(node)?;
    }
    Ok(())
}

/// The nodes that are constants.
fn constants(alloc: Global, table: &Table) -> Result<Vec<usize>, NoMemory>
    ensures { IfOk result (λ made. AreConstants (nodes table.now) made.items) }
{
    let mut made = Vec::new(alloc);
    for node in 0..table.len() {
        add_constant(table, node, &mut made)?;
    }
    Ok(made)
}

/// Whether a sort is that of numbers.
fn is_int(sort: Sort) -> bool
    ensures { result ≡ int_sort sort }
{
    match sort {
        Sort::Int => true,
        _ => false,
    }
}

/// Whether of two nodes both are numbers, or neither is.
fn are_alike(table: &Table, left: usize, right: usize) -> bool
    requires left { left < length (nodes table.now) }
    requires right { right < length (nodes table.now) }
    ensures { IsTrue result ↔ (int_sort (tree_sort (tree_at (nodes table.now) left)) ≡ int_sort (tree_sort (tree_at (nodes table.now) right))) }
{
    is_int(table.sort(left)) == is_int(table.sort(right))
}

/// Whether two constants are apart: they are different, and of one sort.
fn are_apart(table: &Table, left: usize, right: usize) -> bool
    requires left { left < length (nodes table.now) }
    requires right { right < length (nodes table.now) }
    requires left_constant { is_constant (tree_at (nodes table.now) left) ≡ true }
    requires right_constant { is_constant (tree_at (nodes table.now) right) ≡ true }
    ensures { IsTrue result ↔ AreApart (tree_at (nodes table.now) left) (tree_at (nodes table.now) right) }
{
    table.nodes_differ();
    if left == right {
        return false;
    }
    are_alike(table, left, right)
}

/// The node at a place of a list.
fn node_at(listed: &[usize], place: usize) -> usize
    requires { place < length listed.now }
    ensures { slice_get listed.now place ≡ Some result }
{
    listed[place]
}

/// Adds the pair of two constants where they are apart.
fn add_pair(
    table: &Table,
    left: usize,
    right: usize,
    pairs: &mut Vec<Equation>,
) -> Result<(), NoMemory>
    requires left { left < length (nodes table.now) }
    requires right { right < length (nodes table.now) }
    requires left_constant { is_constant (tree_at (nodes table.now) left) ≡ true }
    requires right_constant { is_constant (tree_at (nodes table.now) right) ≡ true }
    ensures covers { OnOk result (AreApart (tree_at (nodes table.now) left) (tree_at (nodes table.now) right) → Has pairs.new.items (pair_of left right)) }
    ensures keeps { OnOk result ((e : Equation) → Has pairs.old.items e → Has pairs.new.items e) }
    ensures only { OnOk result ((e : Equation) → Has pairs.new.items e → Has pairs.old.items e ⊎ ArePair (nodes table.now) e) }
{
    if are_apart(table, left, right) {
        pairs.push(Equation { left, right })?;
    }
    Ok(())
}

/// Adds the pairs of a constant with each constant from which it is apart.
fn add_pairs(
    table: &Table,
    listed: &[usize],
    node: usize,
    pairs: &mut Vec<Equation>,
) -> Result<(), NoMemory>
    requires listed { AreConstants (nodes table.now) listed.now }
    requires node { Has listed.now node }
    ensures covers { OnOk result ((k : ℕ) → Has listed.now k → AreApart (tree_at (nodes table.now) node) (tree_at (nodes table.now) k) → Has pairs.new.items (pair_of node k)) }
    ensures keeps { OnOk result ((e : Equation) → Has pairs.old.items e → Has pairs.new.items e) }
    ensures only { OnOk result ((e : Equation) → Has pairs.new.items e → Has pairs.old.items e ⊎ ArePair (nodes table.now) e) }
{
    for place in 0..listed.len() {
        add_pair(table, node, node_at(listed, place), pairs)?;
    }
    Ok(())
}

/// Adds the pairs of each constant with each one from which it is apart.
fn add_all(table: &Table, listed: &[usize], pairs: &mut Vec<Equation>) -> Result<(), NoMemory>
    requires listed { AreConstants (nodes table.now) listed.now }
    ensures covers { OnOk result ((m k : ℕ) → Has listed.now m → Has listed.now k → AreApart (tree_at (nodes table.now) m) (tree_at (nodes table.now) k) → Has pairs.new.items (pair_of m k)) }
    ensures only { OnOk result ((e : Equation) → Has pairs.new.items e → Has pairs.old.items e ⊎ ArePair (nodes table.now) e) }
{
    for place in 0..listed.len() {
        add_pairs(table, listed, node_at(listed, place), pairs)?;
    }
    Ok(())
}

/// The pairs of each constant with each one from which it is apart.
pub(crate) fn pairs_of(alloc: Global, table: &Table) -> Result<Vec<Equation>, NoMemory>
    ensures { IfOk result (λ made. ArePairs (nodes table.now) made.items) }
{
    let listed = constants(alloc, table)?;
    let mut pairs = Vec::new(alloc);
    add_all(table, listed.as_slice(), &mut pairs)?;
    Ok(pairs)
}
