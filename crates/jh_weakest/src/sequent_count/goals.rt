#![tactic(auto, using(crate::proofs::sequent_count::Goings::going_steps))]

ghost use Rattle.std.specs.Prelude.{◌≡◌, ◌+◌, ◌*◌, true, OnOk, slice_get};
ghost use Rattle.jh_arena.specs.table.Entries.{is_truth, the_truth};
ghost use Rattle.jh_arena.specs.table.Nodes.{nodes};
ghost use Rattle.jh_weakest.specs.sequent_count.Forms.{form_of};
ghost use Rattle.jh_seq.specs.counting.Goals.{Weights, capped, forest_count, goals};
ghost use Rattle.jh_weakest.specs.sequent_count.Tallies.{tally_of, AreNames};

use crate::sequent_count::capped::{plus, times};
use crate::sequent_count::forms::{Form, form_of};
use crate::sequent_count::tally::Tally;
use jh_arena::table::Table;
use jh_name::NoMemory;

/// The most nodes of a formula whose goals are counted, each counted where it stands.
pub const MOST_NODES: u64 = 1 << 26;

/// The number of goals of `tree` along so many fields.
fn forest(fields: usize) -> u128
    ensures { result ≡ capped (forest_count fields) }
{
    let mut sum: u128 = 0;
    for index in 0..fields {
        sum = plus(sum, 2 + index as u128);
    }
    sum
}

/// Adds the goals of a formula, so often, to a tally. The answer is want of memory where the formula has more nodes
/// than MOST_NODES, each counted where it stands, or nests deeper than MOST_LEVELS of the table.
pub(crate) fn add_formula(
    table: &Table,
    tally: &mut Tally,
    node: usize,
    marked: bool,
    often: u128,
) -> Result<(), NoMemory>
    requires there { is_truth (slice_get (nodes table.now) node) ≡ true }
    ensures names { AreNames table.now tally.old.shares.items → OnOk result (AreNames table.now tally.new.shares.items) }
    ensures goals { OnOk result ((w : Weights) → capped (tally_of table.now tally.new.fixed tally.new.shares.items w) ≡ capped (tally_of table.now tally.old.fixed tally.old.shares.items w + often * goals (the_truth (slice_get (nodes table.now) node)) w marked)) }
{
    if table.size(node) > MOST_NODES || !table.is_shallow(node) {
        return Err(NoMemory);
    }
    add_goals(table, tally, node, marked, often)
}

/// The same, with no look at how large the formula is.
#[cycle(goals)]
fn add_goals(
    table: &Table,
    tally: &mut Tally,
    node: usize,
    marked: bool,
    often: u128,
) -> Result<(), NoMemory>
    requires there { is_truth (slice_get (nodes table.now) node) ≡ true }
    ensures names { AreNames table.now tally.old.shares.items → OnOk result (AreNames table.now tally.new.shares.items) }
    ensures goals { OnOk result ((w : Weights) → capped (tally_of table.now tally.new.fixed tally.new.shares.items w) ≡ capped (tally_of table.now tally.old.fixed tally.old.shares.items w + often * goals (the_truth (slice_get (nodes table.now) node)) w marked)) }
{
    let shape = table.shape(node);
    match form_of(shape) {
        Form::Both(left, right) => {
            add_goals(table, tally, left, marked, often)?;
            add_goals(table, tally, right, marked, often)
        }
        Form::Part(part) => add_goals(table, tally, part, marked, often),
        Form::Labelled(part) => add_goals(table, tally, part, true, often),
        Form::Forest => {
            tally.add_fixed(times(often, forest(table.count(shape))));
            Ok(())
        }
        Form::Name => tally.add(node, marked, often),
        Form::Truth => {
            if marked {
                tally.add_fixed(often);
            }
            Ok(())
        }
        Form::Alone => {
            tally.add_fixed(often);
            Ok(())
        }
    }
}
