#![tactic(auto, using(crate::proofs::checks::StepSteps::step_steps, jh_state_facts::proofs::changes::AddedSteps::added_steps, jh_arena::proofs::table::Listed::growth_steps))]

ghost use Rattle.std.specs.Prelude.{◌≡◌, ◌<◌, ◌∷◌, [], List, true, length, OnOk, Some, slice_get};
ghost use Rattle.jh_form.specs.Tree.{FormulaTree, of_truth};
ghost use Rattle.jh_form.specs.Tree as t;
ghost use Rattle.jh_arena.specs.table.Entries.{is_truth};
ghost use Rattle.jh_arena.specs.table.Growth.{Extends};
ghost use Rattle.jh_arena.specs.table.Nodes.{nodes};
ghost use Rattle.jh_wp.specs.Command as w;
ghost use Rattle.jh_guard.specs.Terms.{Check};
ghost use Rattle.jh_guard.specs.Steps as steps;
ghost use Rattle.jh_command_terms.specs.terms.Checks.{AreChecks, are_facts};
ghost use Rattle.jh_state_facts.specs.changes.Added.{AddsCommands};

use crate::checks::facts::bare_mark;
use jh_arena::makers::labelled;
use jh_arena::table::Table;
use jh_command_terms::command::Command;
use jh_command_terms::terms::CheckNode;
use jh_form::{Mark, MarkKind};
use jh_name::{NoMemory, Place};

/// Adds that a formula is asserted under a label.
pub(crate) fn assert_marked(
    table: &mut Table,
    commands: &mut Vec<Command>,
    mark: &Mark,
    goal: usize,
) -> Result<(), NoMemory>
    requires { is_truth (slice_get (nodes table.old) goal) ≡ true }
    ensures commands { OnOk result ((f : FormulaTree) → slice_get (nodes table.old) goal ≡ Some (of_truth f) → AddsCommands table.new commands.old.items commands.new.items (w.assert (t.mark mark.now f) ∷ [])) }
    ensures grows { Extends table.old table.new }
{
    let goal = labelled(table, mark, goal)?;
    commands.push(Command::Assert(goal))?;
    Ok(())
}

/// Adds that a formula is asserted, at a place and without a name.
pub fn assert_bare(
    table: &mut Table,
    commands: &mut Vec<Command>,
    kind: MarkKind,
    place: Place,
    goal: usize,
) -> Result<(), NoMemory>
    requires { is_truth (slice_get (nodes table.old) goal) ≡ true }
    ensures commands { OnOk result ((f : FormulaTree) → slice_get (nodes table.old) goal ≡ Some (of_truth f) → AddsCommands table.new commands.old.items commands.new.items (w.assert (t.mark (steps.mark_without_name kind place) f) ∷ [])) }
    ensures grows { Extends table.old table.new }
{
    let mark = bare_mark(table.alloc(), kind, place);
    assert_marked(table, commands, &mark, goal)
}

/// Adds that a check is asserted.
pub fn assert_check(
    table: &mut Table,
    commands: &mut Vec<Command>,
    check: CheckNode,
) -> Result<(), NoMemory>
    requires { is_truth (slice_get (nodes table.old) check.fact) ≡ true }
    ensures commands { OnOk result ((c : Check) → AreChecks table.old (check ∷ []) (c ∷ []) → AddsCommands table.new commands.old.items commands.new.items (steps.assert_check c ∷ [])) }
    ensures grows { Extends table.old table.new }
{
    assert_bare(table, commands, MarkKind::Null, check.place, check.fact)
}

/// The check at a place.
fn check_at(checks: &[CheckNode], place: usize) -> CheckNode
    requires { place < length checks.now }
    ensures { slice_get checks.now place ≡ Some result }
{
    checks[place]
}

/// Adds that checks are asserted, one after another.
pub fn assert_checks(
    table: &mut Table,
    commands: &mut Vec<Command>,
    checks: &[CheckNode],
) -> Result<(), NoMemory>
    requires { are_facts table.old checks.now ≡ true }
    ensures commands { OnOk result ((cs : List Check) → AreChecks table.old checks.now cs → AddsCommands table.new commands.old.items commands.new.items (steps.assert_checks cs)) }
    ensures grows { Extends table.old table.new }
{
    for place in 0..checks.len() {
        assert_check(table, commands, check_at(checks, place))?;
    }
    Ok(())
}
