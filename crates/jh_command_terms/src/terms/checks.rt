#![tactic(auto, using(crate::proofs::terms::CheckSteps::check_steps, jh_arena::proofs::table::Listed::growth_steps))]

ghost use Rattle.std.specs.Prelude.{◌≡◌, ◌∷◌, [], ◌≤◌, true, List, map, length, take, drop, IfOk, OnOk, Some, slice_get};
ghost use Rattle.jh_form.specs.Tree.{TermTree, FormulaTree, of_object, of_truth};
ghost use Rattle.jh_arena.specs.table.Entries.{is_object, is_truth};
ghost use Rattle.jh_arena.specs.table.Growth.{Extends};
ghost use Rattle.jh_arena.specs.table.Nodes.{nodes};
ghost use Rattle.jh_guard.specs.Terms.{Check, is_not_null, guarded};
ghost use Rattle.jh_command_terms.specs.terms.Checks.{AreChecks, AddsChecks, are_facts};

use jh_arena::table::{Shape, Table};
use jh_name::{NoMemory, Place};
use std::alloc::Global;

/// A fact that is checked, by its node, and the place for which it is.
#[derive(Clone, Copy)]
pub struct CheckNode {
    pub place: Place,
    pub fact: usize,
}

/// The node of that an object isn't null.
fn not_null(table: &mut Table, object: usize) -> Result<usize, NoMemory>
    requires { is_object (slice_get (nodes table.old) object) ≡ true }
    ensures node { IfOk result (λ made. (a : TermTree) → slice_get (nodes table.old) object ≡ Some (of_object a) → slice_get (nodes table.new) made ≡ Some (of_truth (is_not_null a))) }
    ensures grows { Extends table.old table.new }
{
    let null = table.make(Shape::Null)?;
    let same = table.make(Shape::EqObject(object, null))?;
    table.make(Shape::Negation(same))
}

/// Adds the check that an object isn't null.
pub fn push_not_null(
    table: &mut Table,
    checks: &mut Vec<CheckNode>,
    object: usize,
    place: Place,
) -> Result<(), NoMemory>
    requires { is_object (slice_get (nodes table.old) object) ≡ true }
    ensures checks { OnOk result ((a : TermTree) → slice_get (nodes table.old) object ≡ Some (of_object a) → AddsChecks table.new checks.old.items checks.new.items (record { place = place; fact = is_not_null a } ∷ [])) }
    ensures grows { Extends table.old table.new }
{
    let fact = not_null(table, object)?;
    checks.push(CheckNode { place, fact })?;
    Ok(())
}

/// Adds a check, asked for only where a formula is true.
fn push_guarded(
    table: &mut Table,
    checks: &mut Vec<CheckNode>,
    guard: usize,
    check: CheckNode,
) -> Result<(), NoMemory>
    requires guard { is_truth (slice_get (nodes table.old) guard) ≡ true }
    requires fact { is_truth (slice_get (nodes table.old) check.fact) ≡ true }
    ensures checks { OnOk result ((f : FormulaTree) (c : Check) → slice_get (nodes table.old) guard ≡ Some (of_truth f) → AreChecks table.old (check ∷ []) (c ∷ []) → AddsChecks table.new checks.old.items checks.new.items (guarded f c ∷ [])) }
    ensures grows { Extends table.old table.new }
{
    let fact = table.make(Shape::Implies(guard, check.fact))?;
    checks.push(CheckNode {
        place: check.place,
        fact,
    })?;
    Ok(())
}

/// Adds checks, asked for only where a formula is true.
fn push_all_guarded(
    table: &mut Table,
    checks: &mut Vec<CheckNode>,
    guard: usize,
    more: &[CheckNode],
) -> Result<(), NoMemory>
    requires guard { is_truth (slice_get (nodes table.old) guard) ≡ true }
    requires facts { are_facts table.old more.now ≡ true }
    ensures checks { OnOk result ((f : FormulaTree) (cs : List Check) → slice_get (nodes table.old) guard ≡ Some (of_truth f) → AreChecks table.old more.now cs → AddsChecks table.new checks.old.items checks.new.items (map (guarded f) cs)) }
    ensures grows { Extends table.old table.new }
{
    for index in 0..more.len() {
        push_guarded(table, checks, guard, more[index])?;
    }
    Ok(())
}

/// The checks from a place of a list on.
fn copied_from(
    alloc: Global,
    checks: &[CheckNode],
    start: usize,
) -> Result<Vec<CheckNode>, NoMemory>
    requires { start ≤ length checks.now }
    ensures { IfOk result (λ made. made.items ≡ drop start checks.now) }
{
    let mut made = Vec::new(alloc);
    made.extend_from_slice(&checks[start..])?;
    Ok(made)
}

/// Asks for the checks from a place of a list on only where a formula is true.
pub(crate) fn guard_from(
    table: &mut Table,
    checks: &mut Vec<CheckNode>,
    start: usize,
    guard: usize,
) -> Result<(), NoMemory>
    requires start { start ≤ length checks.old.items }
    requires guard { is_truth (slice_get (nodes table.old) guard) ≡ true }
    requires facts { are_facts table.old (drop start checks.old.items) ≡ true }
    ensures checks { OnOk result ((f : FormulaTree) (cs : List Check) → slice_get (nodes table.old) guard ≡ Some (of_truth f) → AreChecks table.old (drop start checks.old.items) cs → AddsChecks table.new (take start checks.old.items) checks.new.items (map (guarded f) cs)) }
    ensures grows { Extends table.old table.new }
{
    let inner = copied_from(table.alloc(), checks.as_slice(), start)?;
    checks.truncate(start);
    push_all_guarded(table, checks, guard, inner.as_slice())
}
