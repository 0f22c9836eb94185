ghost use Rattle.std.specs.Prelude.{◌≡◌, ◌<◌, ℕ, true, IfOk, Some, length, slice_get};
ghost use Rattle.jh_form.specs.Tree.{of_truth};
ghost use Rattle.jh_form.specs.Tree as t;
ghost use Rattle.jh_arena.specs.table.Entries.{is_truth, the_value};
ghost use Rattle.jh_arena.specs.table.Growth.{Extends};
ghost use Rattle.jh_arena.specs.table.Nodes.{nodes};
ghost use Rattle.jh_seq.specs.counting.Counted.{with_value, with_name};
ghost use Rattle.jh_seq.specs.counting.Goals.{Weights};
ghost use Rattle.jh_weakest.specs.sequent_count.Tallies.{Counts};

use crate::sequent_count::goals::add_formula;
use crate::sequent_count::tally::{Taken, Tally, take_out};
use jh_arena::table::{Shape, Table};
use jh_name::{Name, NoMemory, Sort};

/// The node of a truth name.
fn truth_leaf(table: &mut Table, name: &Name) -> Result<usize, NoMemory>
    ensures node { IfOk result (λ made. slice_get (nodes table.new) made ≡ Some (of_truth (t.free_truth name.now))) }
    ensures grows { Extends table.old table.new }
{
    let number = table.name(name)?;
    table.make(Shape::FreeTruth(number))
}

/// The tally in which a name gives what a value does.
pub(crate) fn given(
    table: &mut Table,
    tally: Tally,
    name: &Name,
    value: usize,
) -> Result<Tally, NoMemory>
    requires { value < length (nodes table.old) }
    ensures goals { (g : Weights → ℕ) → Counts table.old tally.fixed tally.shares.items g → IfOk result (λ made. Counts table.new made.fixed made.shares.items (λ w. g (with_value w name.now (the_value (slice_get (nodes table.old) value))))) }
    ensures grows { Extends table.old table.new }
{
    if tally.shares.is_empty() {
        return Ok(tally);
    }
    match table.sort(value) {
        Sort::Bool => given_truth(table, tally, name, value),
        _ => Ok(tally),
    }
}

/// The same for a value that is a formula: its goals come in place of the name.
fn given_truth(
    table: &mut Table,
    tally: Tally,
    name: &Name,
    value: usize,
) -> Result<Tally, NoMemory>
    requires { is_truth (slice_get (nodes table.old) value) ≡ true }
    ensures goals { (g : Weights → ℕ) → Counts table.old tally.fixed tally.shares.items g → IfOk result (λ made. Counts table.new made.fixed made.shares.items (λ w. g (with_value w name.now (the_value (slice_get (nodes table.old) value))))) }
    ensures grows { Extends table.old table.new }
{
    let leaf = truth_leaf(table, name)?;
    table.nodes_differ();
    let Taken {
        rest,
        plain,
        marked,
    } = take_out(table.alloc(), tally.shares.as_slice(), leaf)?;
    let mut made = Tally {
        fixed: tally.fixed,
        shares: rest,
    };
    add_formula(table, &mut made, value, false, plain)?;
    add_formula(table, &mut made, value, true, marked)?;
    Ok(made)
}

/// The tally in which a name gives what another does.
pub(crate) fn renamed(
    table: &mut Table,
    tally: Tally,
    name: &Name,
    with: &Name,
) -> Result<Tally, NoMemory>
    ensures goals { (g : Weights → ℕ) → Counts table.old tally.fixed tally.shares.items g → IfOk result (λ made. Counts table.new made.fixed made.shares.items (λ w. g (with_name w name.now with.now))) }
    ensures grows { Extends table.old table.new }
{
    if tally.shares.is_empty() {
        return Ok(tally);
    }
    let leaf = truth_leaf(table, name)?;
    let other = truth_leaf(table, with)?;
    table.nodes_differ();
    let Taken {
        rest,
        plain,
        marked,
    } = take_out(table.alloc(), tally.shares.as_slice(), leaf)?;
    let mut made = Tally {
        fixed: tally.fixed,
        shares: rest,
    };
    made.add(other, false, plain)?;
    made.add(other, true, marked)?;
    Ok(made)
}
