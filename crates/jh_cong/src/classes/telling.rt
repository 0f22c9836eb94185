ghost use Rattle.std.specs.Prelude.{◌≡◌, ◌<◌, ◌≤◌, ◌++◌, [], ◌∷◌, ℕ, Err, IfNone, IfOk, IfSome, List, OnErr, OnOk, false, length, take};
ghost use Rattle.jh_closure.specs.congruence_closure.Cores.{Begins};
ghost use Rattle.jh_closure.specs.congruence_closure.Nodes.{Has};
ghost use Rattle.jh_arena.specs.table.Nodes.{nodes};
ghost use Rattle.jh_cong.specs.flattening.Flattening.{Flattens};
ghost use Rattle.jh_cong.specs.classes.Constants.{ArePairs};
ghost use Rattle.jh_cong.specs.classes.Saying.{AreSayable, CanBeSaid, IsUnmet, picked};
ghost use Rattle.jh_cong.specs.classes.States.{AreEnough, Continues, IsState, IsTold, told};
ghost use Rattle.jh_cong.specs.declared.classes.literal.CongError.TheVariants.{Conflict};

use crate::classes::apart::pairs_of;
use crate::classes::clashing::{number_at, reason, said_at};
use crate::classes::state::State;
use crate::classes::{CongError, Said};
use crate::flattening::flattened;
use jh_arena::table::Table;
use jh_closure::congruence_closure::{Closure, Equation};
use jh_name::{NoMemory, Row};
use std::alloc::Global;

/// What the closure is told of a literal: its equation, or that its first node is equal to itself where it says that both
/// differ. So equations and literals have the same numbers.
fn told_of(said: Said) -> Equation
    ensures { result ≡ told said }
{
    if said.holds {
        Equation {
            left: said.left,
            right: said.right,
        }
    } else {
        Equation {
            left: said.left,
            right: said.left,
        }
    }
}

/// Notes the number of a literal where it says that two nodes differ.
fn note(denied: &mut Vec<usize>, number: usize, said: Said) -> Result<(), NoMemory>
    ensures noted { OnOk result (said.holds ≡ false → Has denied.new.items number) }
    ensures grows { Begins denied.old.items denied.new.items }
{
    if !said.holds {
        denied.push(number)?;
    }
    Ok(())
}

/// Tells the closure of an equation. The answer is how many equations are then enough for what follows: as many as before where both
/// nodes were equal already, and else all.
fn tell_closure(
    alloc: Global,
    closure: &mut Closure,
    equation: Equation,
    enough: usize,
) -> Result<usize, NoMemory>
    requires left { equation.left < length closure.old.nodes }
    requires right { equation.right < length closure.old.nodes }
    requires inside { enough ≤ length closure.old.said }
    requires enough { AreEnough closure.old.nodes closure.old.said enough }
    ensures ok { OnOk result (closure.new ≡ record { nodes = closure.old.nodes; said = closure.old.said ++ equation ∷ [] }) }
    ensures err { OnErr result (closure.new ≡ closure.old) }
    ensures inside { IfOk result (λ count. count ≤ length closure.new.said) }
    ensures enough { IfOk result (λ count. AreEnough closure.new.nodes closure.new.said count) }
{
    let is_known = closure.same(equation.left, equation.right);
    closure.assert(alloc, equation.left, equation.right)?;
    if is_known {
        Ok(enough)
    } else {
        Ok(closure.len())
    }
}

/// Tells the closure of one more literal. Where memory is wanting it may be said and not told.
fn tell_one(alloc: Global, state: &mut State, said: Said) -> Result<(), NoMemory>
    requires told { IsTold state.old }
    requires said { CanBeSaid (nodes state.old.table) said.left said.right }
    ensures told { OnOk result (IsTold state.new) }
    ensures said { OnOk result (state.new.said.items ≡ state.old.said.items ++ said ∷ []) }
    ensures continues { Continues state.old state.new }
{
    let number = state.said.as_slice().len();
    let equation = told_of(said);
    note(&mut state.denied, number, said)?;
    state.said.push(said)?;
    state.enough = tell_closure(alloc, &mut state.closure, equation, state.enough)?;
    Ok(())
}

/// Tells the closure of literals, one after the other. Where memory is wanting some may be said and told.
fn tell(alloc: Global, state: &mut State, said: &[Said]) -> Result<(), NoMemory>
    requires told { IsTold state.old }
    requires said { AreSayable (nodes state.old.table) said.now }
    ensures told { OnOk result (IsTold state.new) }
    ensures said { OnOk result (state.new.said.items ≡ state.old.said.items ++ said.now) }
    ensures continues { Continues state.old state.new }
{
    for place in 0..said.len() {
        tell_one(alloc, state, said_at(said, place))?;
    }
    Ok(())
}

/// Tells the closure of literals, and looks for a reason why no structure meets all.
fn settle(alloc: Global, state: &mut State, said: &[Said]) -> Result<Option<Vec<usize>>, NoMemory>
    requires state { IsState state.old }
    requires said { AreSayable (nodes state.old.table) said.now }
    ensures said { OnOk result (state.new.said.items ≡ state.old.said.items ++ said.now) }
    ensures continues { Continues state.old state.new }
    ensures unmet { IfOk result (λ found. IfSome found (λ listed. IsUnmet (nodes state.old.table) (picked (state.old.said.items ++ said.now) listed.items))) }
    ensures numbers { IfOk result (λ found. IfSome found (λ listed. (i : ℕ) → Has listed.items i → i < length (state.old.said.items ++ said.now))) }
    ensures met { IfOk result (λ found. IfNone found (IsState state.new)) }
{
    let count = state.said.as_slice().len();
    tell(alloc, state, said)?;
    reason(alloc, state, count)
}

/// How many numbers of a list are left where those at its end go that are no less than another one.
fn left_below(numbers: &[usize], count: usize) -> usize
    ensures { (k : ℕ) → k < count → Has numbers.now k → Has (take result numbers.now) k }
{
    let mut left = numbers.len();
    while left > 0 {
        if number_at(numbers, left - 1) < count {
            return left;
        }
        left -= 1;
    }
    left
}

/// Takes numbers off the end of a list that are no less than another one.
fn forget(denied: &mut Vec<usize>, count: usize)
    ensures { (k : ℕ) → k < count → Has denied.old.items k → Has denied.new.items k }
{
    let left = left_below(denied.as_slice(), count);
    denied.truncate(left);
}

/// Takes all literals back but the first ones.
fn cut(state: &mut State, count: usize)
    requires { count ≤ length state.old.closure.said }
    ensures said { state.new.said.items ≡ take count state.old.said.items }
    ensures closure { state.new.closure ≡ record { nodes = state.old.closure.nodes; said = take count state.old.closure.said } }
    ensures apart { state.new.apart.items ≡ state.old.apart.items }
    ensures table { state.new.table ≡ state.old.table }
    ensures denied { (k : ℕ) → k < count → Has state.old.denied.items k → Has state.new.denied.items k }
    ensures enough { state.new.enough ≡ count }
{
    forget(&mut state.denied, count);
    state.said.truncate(count);
    state.closure.undo(count);
    state.enough = count;
}

/// Asserts literals, unless no structure meets them with what was said before. After a refusal nothing has changed.
pub(crate) fn add(alloc: Global, state: &mut State, said: &[Said]) -> Result<(), CongError>
    requires state { IsState state.old }
    requires said { AreSayable (nodes state.old.table) said.now }
    ensures state { IsState state.new }
    ensures table { state.new.table ≡ state.old.table }
    ensures ok { OnOk result (state.new.said.items ≡ state.old.said.items ++ said.now) }
    ensures err { OnErr result (state.new.said.items ≡ state.old.said.items) }
    ensures conflict { (listed : List ℕ) → result ≡ Err (Conflict listed) → IsUnmet (nodes state.old.table) (picked (state.old.said.items ++ said.now) listed) }
    ensures numbers { (listed : List ℕ) → result ≡ Err (Conflict listed) → (i : ℕ) → Has listed i → i < length (state.old.said.items ++ said.now) }
{
    let count = state.said.as_slice().len();
    match settle(alloc, state, said) {
        Ok(None) => Ok(()),
        Ok(Some(listed)) => {
            cut(state, count);
            Err(CongError::Conflict(Row::of(listed)))
        }
        Err(_) => {
            cut(state, count);
            Err(CongError::Memory)
        }
    }
}

/// Takes all literals back but the first ones. What some structure meets it meets with fewer.
pub(crate) fn back(state: &mut State, count: usize)
    requires state { IsState state.old }
    requires count { count ≤ length state.old.said.items }
    ensures state { IsState state.new }
    ensures table { state.new.table ≡ state.old.table }
    ensures said { state.new.said.items ≡ take count state.old.said.items }
{
    cut(state, count);
}

/// The pairs of a table that are apart, and the closure of its plain nodes.
fn parts_of(alloc: Global, table: &Table) -> Result<(Vec<Equation>, Closure), NoMemory>
    ensures pairs { IfOk result (λ made. ArePairs (nodes table.now) made.0.items) }
    ensures flattens { IfOk result (λ made. Flattens (nodes table.now) made.1.nodes) }
    ensures nothing { IfOk result (λ made. made.1.said ≡ []) }
{
    let apart = pairs_of(alloc, table)?;
    let closure = Closure::new(alloc, flattened(alloc, table)?)?;
    Ok((apart, closure))
}

/// A table, of whose nodes nothing is said.
pub(crate) fn begin(alloc: Global, table: Table) -> Result<State, NoMemory>
    ensures state { IfOk result (λ state. IsState state) }
    ensures table { IfOk result (λ state. state.table ≡ table) }
    ensures said { IfOk result (λ state. state.said.items ≡ []) }
{
    let (apart, closure) = parts_of(alloc, &table)?;
    let said = Vec::new(alloc);
    let denied = Vec::new(alloc);
    Ok(State {
        table,
        closure,
        apart,
        said,
        denied,
        enough: 0,
    })
}
