ghost use Rattle.std.specs.Prelude.{◌≡◌, ◌+◌, ◌∷◌, ◌++◌, [], List, ℕ, true, IfOk, OnOk, None, slice_get};
ghost use Rattle.jh_name.specs.declared.naming.Name.{Name};
ghost use Rattle.jh_form.specs.Tree.{FormulaTree};
ghost use Rattle.jh_seq.specs.sequent.Sequents.{HypTree};
ghost use Rattle.jh_arena.specs.table.Entries.{is_truth};
ghost use Rattle.jh_arena.specs.table.Growth.{Extends};
ghost use Rattle.jh_arena.specs.table.Nodes.{nodes};
ghost use Rattle.jh_seq.specs.splitting.Split.{facts_of, facts_next};
ghost use Rattle.jh_splitting.specs.Standing.{IsFormula, AreHyps};
ghost use Rattle.jh_splitting.specs.Left.{AreConstants, FactsLeft, IsReady, Kept};

use crate::closing::closed;
use crate::lists::Lists;
use crate::sequent::NodeHyp;
use jh_arena::table::{Shape, Table};
use jh_name::NoMemory;

/// An assumption that is to be taken apart: its node, its innermost label, and the list of the binders that were
/// passed.
#[derive(Clone, Copy)]
pub(crate) struct Assumed {
    pub(crate) node: usize,
    pub(crate) mark: Option<usize>,
    pub(crate) binders: Option<usize>,
}

/// A list of hypotheses, and the turn of the first constant that is free behind them.
#[derive(Clone, Copy)]
pub(crate) struct Facts {
    pub(crate) hyps: Option<usize>,
    pub(crate) next: u32,
}

/// The turn behind this one.
pub(crate) fn after(turn: u32) -> Result<u32, NoMemory>
    ensures { IfOk result (λ after. after ≡ turn + 1) }
{
    match turn.checked_add(1) {
        Some(after) => Ok(after),
        None => Err(NoMemory),
    }
}

/// A part of an assumption, under the same label.
fn part(assumed: Assumed, node: usize) -> Assumed
    ensures { result ≡ record { node = node; mark = assumed.mark; binders = assumed.binders } }
{
    Assumed {
        node,
        mark: assumed.mark,
        binders: assumed.binders,
    }
}

/// The hypotheses with the facts of one more assumption, which stands behind binders.
pub(crate) fn with_facts(
    table: &mut Table,
    lists: &mut Lists,
    node: usize,
    binders: Option<usize>,
    facts: Facts,
) -> Result<Facts, NoMemory>
    requires there { is_truth (slice_get (nodes table.old) node) ≡ true }
    requires ready { IsReady table.old lists.old binders facts }
    ensures hyps { (a : FormulaTree) (ws : List Name) (hs : List HypTree) → IsFormula table.old node a → AreConstants lists.old.binders binders ws → AreHyps table.old lists.old.hyps facts.hyps hs → IfOk result (λ made. AreHyps table.new lists.new.hyps made.hyps (hs ++ facts_of a None ws facts.next)) }
    ensures next { (a : FormulaTree) → IsFormula table.old node a → IfOk result (λ made. made.next ≡ facts_next a facts.next) }
    ensures grows { Extends table.old table.new }
    ensures kept { Kept lists.old lists.new }
{
    let mut waiting = Vec::new(table.alloc());
    waiting.push(Assumed {
        node,
        mark: None,
        binders,
    })?;
    let mut found = facts;
    for _turn in 0..u64::MAX {
        match waiting.pop() {
            None => return Ok(found),
            Some(assumed) => take_apart(table, lists, &mut waiting, &mut found, assumed)?,
        }
    }
    Err(NoMemory)
}

/// Takes one assumption apart: what is And or Ex waits as its parts, and a fact is found.
fn take_apart(
    table: &mut Table,
    lists: &mut Lists,
    waiting: &mut Vec<Assumed>,
    found: &mut Facts,
    assumed: Assumed,
) -> Result<(), NoMemory>
    requires there { is_truth (slice_get (nodes table.old) assumed.node) ≡ true }
    ensures left { (total : List HypTree) (next : ℕ) → FactsLeft table.old lists.old (waiting.old.items ++ assumed ∷ []) found.old total next → OnOk result (FactsLeft table.new lists.new waiting.new.items found.new total next) }
    ensures grows { Extends table.old table.new }
    ensures kept { Kept lists.old lists.new }
{
    match table.shape(assumed.node) {
        Shape::And(left, right) => {
            waiting.push(part(assumed, right))?;
            waiting.push(part(assumed, left))?;
            Ok(())
        }
        Shape::Ex(body) => {
            let turn = found.next;
            let binders = lists.binders.extend(assumed.binders, turn)?;
            found.next = after(turn)?;
            waiting.push(Assumed {
                node: body,
                mark: assumed.mark,
                binders: Some(binders),
            })?;
            Ok(())
        }
        Shape::Mark(mark, inside) => {
            waiting.push(Assumed {
                node: inside,
                mark: Some(mark),
                binders: assumed.binders,
            })?;
            Ok(())
        }
        _ => {
            let fact = closed(table, &lists.binders, assumed.binders, assumed.node)?;
            let hyp = NodeHyp {
                mark: assumed.mark,
                fact,
            };
            let hyps = lists.hyps.extend(found.hyps, hyp)?;
            found.hyps = Some(hyps);
            Ok(())
        }
    }
}
