#![tactic(auto, using(crate::proofs::entry_state::RecallSteps::recall_steps))]

ghost use Rattle.std.specs.Prelude.{◌≡◌, ◌<◌, true, false, length};
ghost use Rattle.jh_arena.specs.table.Nodes.{nodes};
ghost use Rattle.jh_machine_code.specs.entry_state.Now.{is_now, reads_now, step_now, steps_now};

use crate::code::Step;
use jh_arena::table::Table;
use jh_boxed::NameTest;
use jh_name::{Name, Sort};
use jh_substitution::rewriting::names;

/// The test of a name that stands for the state now, and not for that at the method's entry.
struct Now;

impl NameTest for Now {
    ghost test = { λ now name sort. is_now name sort };

    fn passes(&self, name: &Name, _sort: Sort) -> bool {
        name.turn() == 0
    }
}

/// Whether the value of a node that stands in the table may hang on the state at entry. So it is also said of a tree that
/// nests deeper than is looked at.
fn may_recall(table: &Table, node: usize) -> bool
    requires { node < length (nodes table.now) }
    ensures { result ≡ false → reads_now table.now node ≡ true }
{
    match names(table, node, &Now) {
        Ok(is_now) => !is_now,
        Err(_) => true,
    }
}

/// Whether the value of a node may hang on the state at the method's entry.
fn node_recalls(table: &Table, node: usize) -> bool
    ensures { result ≡ false → reads_now table.now node ≡ true }
{
    if node < table.len() {
        may_recall(table, node)
    } else {
        true
    }
}

/// Whether a formula of a step may read the state at the method's entry.
#[cycle(step_recalls)]
fn step_recalls(table: &Table, step: &Step) -> bool
    ensures { result ≡ false → step_now table.now step.now ≡ true }
{
    match step {
        Step::Block(steps) => steps_recall(table, steps.items()),
        Step::Branch(_, first, second) => {
            step_recalls(table, first) || steps_recall(table, second.items())
        }
        Step::Loop(_, body) => step_recalls(table, body),
        Step::Ask(_, node) => node_recalls(table, *node),
        Step::Ghost(_, _, node) => node_recalls(table, *node),
        Step::GhostAt(assigned) => {
            node_recalls(table, assigned.object) || node_recalls(table, assigned.value)
        }
        Step::Empty => false,
        Step::Assign(_, _) => false,
        Step::New(_, _, _) => false,
        Step::Call(_) => false,
        Step::Return(_) => false,
    }
}

/// Whether a formula of some steps may read the state at the method's entry. Where none does, the steps are the same statements
/// for a run that doesn't keep that state: the law `steps_that_recall_nothing`. A tree that nests deeper than `MOST_LEVELS` of
/// `jh_arena::table` isn't looked at, and neither is a node that isn't there; either is said to recall.
#[cycle(step_recalls)]
pub fn steps_recall(table: &Table, steps: &[Step]) -> bool
    ensures { result ≡ false → steps_now table.now steps.now ≡ true }
{
    for step in steps {
        if step_recalls(table, step) {
            return true;
        }
    }
    false
}
