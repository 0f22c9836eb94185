ghost use Rattle.std.specs.Prelude.{◌≡◌, ◌<◌, ◌≤◌, ◌++◌, [], ◌∷◌, ℕ, IfOk, OnErr, OnOk, Some, length, slice_get, take};
ghost use Rattle.jh_closure.specs.declared.union_find.merge.Why.TheVariants as why;
ghost use Rattle.jh_closure.specs.congruence_closure.Closing.{PartsInside};
ghost use Rattle.jh_closure.specs.congruence_closure.Cores.{IsCore};
ghost use Rattle.jh_closure.specs.congruence_closure.Levels.{IsOpen, IsState};

use crate::congruence_closure::classes::{Core, cut};
use crate::congruence_closure::settling::settle;
use crate::congruence_closure::{Equation, Node};
use crate::union_find::{Cause, Why};
use jh_name::NoMemory;
use std::alloc::Global;

/// How many merges and signatures there are.
#[derive(Clone, Copy)]
pub(crate) struct Mark {
    pub(crate) merges: usize,
    pub(crate) entries: usize,
}

/// Nodes, the equations asserted so far, their classes, and a mark for each number of equations.
#[derive(Drop)]
pub(crate) struct State {
    pub(crate) nodes: Vec<Node>,
    pub(crate) said: Vec<Equation>,
    pub(crate) marks: Vec<Mark>,
    pub(crate) core: Core,
}

/// The mark at a place.
fn mark_at(marks: &[Mark], level: usize) -> Mark
    requires { level < length marks.now }
    ensures { slice_get marks.now level ≡ Some result }
{
    marks[level]
}

/// The mark of what there is.
fn mark_of(core: &Core) -> Mark
    ensures { result ≡ record { merges = length core.now.forest.merges; entries = length core.now.table.nodes.entries } }
{
    Mark {
        merges: core.forest.len(),
        entries: core.table.len(),
    }
}

/// Takes all back but the first equations.
pub(crate) fn back(state: &mut State, level: usize)
    requires opened { IsOpen state.old }
    requires level { level < length state.old.marks.items }
    ensures state { IsState state.new }
    ensures nodes { state.new.nodes.items ≡ state.old.nodes.items }
    ensures said { state.new.said.items ≡ take level state.old.said.items }
{
    let mark = mark_at(state.marks.as_slice(), level);
    state.said.truncate(level);
    state.marks.truncate(level + 1);
    cut(&mut state.core, mark.merges, mark.entries);
}

/// One equation that waits.
fn first_cause(alloc: Global, equation: Equation, number: usize) -> Result<Vec<Cause>, NoMemory>
    ensures { IfOk result (λ made. made.items ≡ record { left = equation.left; right = equation.right; why = why.Given number } ∷ []) }
{
    let mut pending = Vec::new(alloc);
    pending.push(Cause {
        left: equation.left,
        right: equation.right,
        why: Why::Given(number),
    })?;
    Ok(pending)
}

/// Adds a mark of what there is.
pub(crate) fn add_mark(state: &mut State) -> Result<(), NoMemory>
    ensures marks { OnOk result (state.new.marks.items ≡ state.old.marks.items ++ record { merges = length state.old.core.forest.merges; entries = length state.old.core.table.nodes.entries } ∷ []) }
    ensures err { OnErr result (state.new.marks.items ≡ state.old.marks.items) }
    ensures nodes { state.new.nodes.items ≡ state.old.nodes.items }
    ensures said { state.new.said.items ≡ state.old.said.items }
    ensures core { state.new.core ≡ state.old.core }
{
    let mark = mark_of(&state.core);
    state.marks.push(mark)?;
    Ok(())
}

/// Joins what follows from one more equation, which is at hand. Where memory is wanting some of it may be joined.
fn take_in(alloc: Global, state: &mut State, equation: Equation) -> Result<(), NoMemory>
    requires state { IsState state.old }
    requires left { equation.left < length state.old.nodes.items }
    requires right { equation.right < length state.old.nodes.items }
    ensures opened { IsOpen state.new }
    ensures ok { OnOk result (IsState state.new) }
    ensures said { OnOk result (state.new.said.items ≡ state.old.said.items ++ equation ∷ []) }
    ensures nodes { state.new.nodes.items ≡ state.old.nodes.items }
    ensures before { OnErr result (take (length state.old.said.items) state.new.said.items ≡ state.old.said.items) }
    ensures marks { OnErr result (state.new.marks.items ≡ state.old.marks.items) }
{
    let number = state.said.as_slice().len();
    state.said.push(equation)?;
    let mut pending = first_cause(alloc, equation, number)?;
    settle(alloc, state.nodes.as_slice(), &mut state.core, &mut pending)?;
    add_mark(state)
}

/// Adds an equation. Where memory is wanting all is as before.
pub(crate) fn add(alloc: Global, state: &mut State, equation: Equation) -> Result<(), NoMemory>
    requires state { IsState state.old }
    requires left { equation.left < length state.old.nodes.items }
    requires right { equation.right < length state.old.nodes.items }
    ensures state { IsState state.new }
    ensures nodes { state.new.nodes.items ≡ state.old.nodes.items }
    ensures ok { OnOk result (state.new.said.items ≡ state.old.said.items ++ equation ∷ []) }
    ensures err { OnErr result (state.new.said.items ≡ state.old.said.items) }
{
    let level = state.said.as_slice().len();
    let taken = take_in(alloc, state, equation);
    if taken.is_err() {
        back(state, level);
    }
    taken
}
