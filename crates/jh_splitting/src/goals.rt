ghost use Rattle.std.specs.Prelude.{◌≡◌, ◌+◌, ◌∷◌, ◌++◌, [], List, true, OnOk, None, slice_get};
ghost use Rattle.jh_name.specs.declared.place.MethodId.{MethodId};
ghost use Rattle.jh_seq.specs.sequent.Sequents.{SequentTree};
ghost use Rattle.jh_arena.specs.table.Entries.{is_truth};
ghost use Rattle.jh_arena.specs.table.Growth.{Extends};
ghost use Rattle.jh_arena.specs.table.Nodes.{nodes};
ghost use Rattle.jh_splitting.specs.Left.{GoalsLeft, HasLeft, Kept, closed_goal, closed_goals};

use crate::closing::closed;
use crate::facts::{Facts, after, with_facts};
use crate::forests::forest_goals;
use crate::lists::Lists;
use crate::sequent::NodeSequent;
use jh_arena::table::{Shape, Table};
use jh_name::NoMemory;

/// A goal that is to be split: its node, its innermost label, the list of the binders that were passed, and the
/// hypotheses.
#[derive(Clone, Copy)]
pub(crate) struct Goal {
    pub(crate) node: usize,
    pub(crate) mark: Option<usize>,
    pub(crate) binders: Option<usize>,
    pub(crate) facts: Facts,
}

/// Another goal at the place of one.
fn instead(goal: Goal, node: usize, facts: Facts) -> Goal
    ensures { result ≡ record { node = node; mark = goal.mark; binders = goal.binders; facts = facts } }
{
    Goal {
        node,
        mark: goal.mark,
        binders: goal.binders,
        facts,
    }
}

/// Splits one goal: what isn't a sequent yet waits as its parts.
pub(crate) fn split_one(
    table: &mut Table,
    lists: &mut Lists,
    waiting: &mut Vec<Goal>,
    made: &mut Vec<NodeSequent>,
    goal: Goal,
) -> Result<(), NoMemory>
    requires there { is_truth (slice_get (nodes table.old) goal.node) ≡ true }
    requires some { HasLeft table.old lists.old (waiting.old.items ++ goal ∷ []) made.old.items }
    ensures left { (method : MethodId) (total : List SequentTree) → GoalsLeft table.old lists.old method (waiting.old.items ++ goal ∷ []) made.old.items total → OnOk result (GoalsLeft table.new lists.new method waiting.new.items made.new.items total) }
    ensures grows { Extends table.old table.new }
    ensures kept { Kept lists.old lists.new }
{
    match table.shape(goal.node) {
        Shape::Mark(mark, inside) => {
            waiting.push(Goal {
                node: inside,
                mark: Some(mark),
                binders: goal.binders,
                facts: goal.facts,
            })?;
            Ok(())
        }
        Shape::And(left, right) => {
            waiting.push(instead(goal, right, goal.facts))?;
            waiting.push(instead(goal, left, goal.facts))?;
            Ok(())
        }
        Shape::Implies(left, right) => {
            let facts = with_facts(table, lists, left, goal.binders, goal.facts)?;
            waiting.push(instead(goal, right, facts))?;
            Ok(())
        }
        Shape::Iff(left, right) => {
            let first = with_facts(table, lists, left, goal.binders, goal.facts)?;
            let second = with_facts(table, lists, right, goal.binders, goal.facts)?;
            waiting.push(instead(goal, left, second))?;
            waiting.push(instead(goal, right, first))?;
            Ok(())
        }
        Shape::All(body) => {
            let turn = goal.facts.next;
            let binders = lists.binders.extend(goal.binders, turn)?;
            let next = after(turn)?;
            waiting.push(Goal {
                node: body,
                mark: goal.mark,
                binders: Some(binders),
                facts: Facts {
                    hyps: goal.facts.hyps,
                    next,
                },
            })?;
            Ok(())
        }
        Shape::Tree(_) => {
            let forest = closed(table, &lists.binders, goal.binders, goal.node)?;
            let goals = forest_goals(table, forest)?;
            wait_for_all(waiting, goals.as_slice(), goal)?;
            Ok(())
        }
        Shape::True => match goal.mark {
            None => Ok(()),
            Some(_) => {
                sequent(made, goal, goal.node)?;
                Ok(())
            }
        },
        _ => {
            let node = closed(table, &lists.binders, goal.binders, goal.node)?;
            sequent(made, goal, node)?;
            Ok(())
        }
    }
}

/// Adds the sequent of a goal that isn't split, which is now this node.
fn sequent(made: &mut Vec<NodeSequent>, goal: Goal, node: usize) -> Result<(), NoMemory>
    ensures { OnOk result (made.new.items ≡ made.old.items ++ record { mark = goal.mark; hyps = goal.facts.hyps; goal = node } ∷ []) }
{
    made.push(NodeSequent {
        mark: goal.mark,
        hyps: goal.facts.hyps,
        goal: node,
    })?;
    Ok(())
}

/// A goal without binders at the place of one.
fn closed_goal(goal: Goal, node: usize) -> Goal
    ensures { result ≡ closed_goal goal node }
{
    Goal {
        node,
        mark: goal.mark,
        binders: None,
        facts: goal.facts,
    }
}

/// Lets goals without binders wait in place of one, so that the first of them is the next.
fn wait_for_all(waiting: &mut Vec<Goal>, nodes: &[usize], goal: Goal) -> Result<(), NoMemory>
    ensures { OnOk result (waiting.new.items ≡ waiting.old.items ++ closed_goals goal nodes.now) }
{
    let mut at = nodes.len();
    'goals: while at > 0 {
        at -= 1;
        waiting.push(closed_goal(goal, nodes[at]))?;
    }
    Ok(())
}
