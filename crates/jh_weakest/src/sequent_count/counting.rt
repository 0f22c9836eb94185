#![tactic(auto, using(jh_arena::proofs::table::Listed::growth_steps, jh_command_terms::proofs::command::CodeSteps::code_steps, jh_command_terms::proofs::command::CodeSteps::part_steps))]

ghost use Rattle.std.specs.Prelude.{◌≡◌, ◌+◌, ℕ, true, false, IfOk, length};
ghost use Rattle.jh_name.specs.declared.place.MethodId.{MethodId};
ghost use Rattle.jh_arena.specs.table.Growth.{Extends};
ghost use Rattle.jh_command_terms.specs.command.Code.{truth_at, is_truth_at, command_in, command_fits, list_in, list_fits};
ghost use Rattle.jh_seq.specs.splitting.Split.{split_of};
ghost use Rattle.jh_wp.specs.Wp.{wp};
ghost use Rattle.jh_seq.specs.counting.Counted as spec;
ghost use Rattle.jh_seq.specs.counting.Goals.{Weights, capped, goals};
ghost use Rattle.jh_weakest.specs.sequent_count.Tallies.{Counts};

use crate::sequent_count::goals::add_formula;
use crate::sequent_count::names::{given, renamed};
use crate::sequent_count::tally::Tally;
use jh_arena::table::Table;
use jh_command_terms::command::Command;
use jh_name::NoMemory;
use jh_seq::counting::counted_is_exact;

/// How deep commands may nest, as for their weakest preconditions.
pub const MOST_NESTED: u32 = 1000;

/// The number of sequents of the weakest precondition of a command, for the formula at `normal` to be true after it and
/// the one at `returned` where the method returns, or the greatest u128 where that is passed. Neither the formula nor
/// a sequent is made; the table gets the nodes of truth names that are assigned. The answer is want of memory where
/// commands nest deeper than MOST_NESTED, and where a formula has more nodes than MOST_NODES, each counted where it
/// stands, or nests deeper than MOST_LEVELS of the table.
pub fn count(
    table: &mut Table,
    command: &Command,
    normal: usize,
    returned: usize,
) -> Result<u128, NoMemory>
    requires fits { command_fits table.old command.now ≡ true }
    requires normal { is_truth_at table.old normal ≡ true }
    requires returned { is_truth_at table.old returned ≡ true }
    ensures count { IfOk result (λ counted. (method : MethodId) (k : ℕ) → counted ≡ capped (length (split_of method (wp (command_in table.old command.now) (truth_at table.old normal) (truth_at table.old returned)) k))) }
    ensures grows { Extends table.old table.new }
{
    counted_is_exact();
    let after = goals_of(table, normal)?;
    let at_return = goals_of(table, returned)?;
    let tally = counted(table, command, after, &at_return, MOST_NESTED)?;
    Ok(tally.total())
}

/// The goals of a formula.
fn goals_of(table: &Table, node: usize) -> Result<Tally, NoMemory>
    requires there { is_truth_at table.now node ≡ true }
    ensures { IfOk result (λ made. Counts table.now made.fixed made.shares.items (λ w. goals (truth_at table.now node) w false)) }
{
    let mut tally = Tally::new(table.alloc());
    add_formula(table, &mut tally, node, false, 1)?;
    Ok(tally)
}

/// The number of levels that are left below.
fn lower(levels: u32) -> Result<u32, NoMemory>
    ensures { IfOk result (λ lower. lower + 1 ≡ levels) }
{
    match levels.checked_sub(1) {
        Some(lower) => Ok(lower),
        None => Err(NoMemory),
    }
}

/// The goals that have to be true before a command that nests at most `levels` deep, from those after it and where the
/// method returns.
#[cycle(count)]
fn counted(
    table: &mut Table,
    command: &Command,
    normal: Tally,
    returned: &Tally,
    levels: u32,
) -> Result<Tally, NoMemory>
    requires fits { command_fits table.old command.now ≡ true }
    ensures goals { (q r : Weights → ℕ) → Counts table.old normal.fixed normal.shares.items q → Counts table.old returned.now.fixed returned.now.shares.items r → IfOk result (λ made. Counts table.new made.fixed made.shares.items (spec.counted (command_in table.old command.now) q r)) }
    ensures grows { Extends table.old table.new }
{
    match command {
        Command::Assume(_) => Ok(normal),
        Command::Assert(fact) => with_goals(table, normal, *fact),
        Command::Assign(name, value) => given(table, normal, name, *value),
        Command::Havoc(name, with) => renamed(table, normal, name, with),
        Command::Leave => returned.copy(table.alloc()),
        Command::Stop => Ok(Tally::new(table.alloc())),
        Command::Seq(steps) => counted_all(table, steps.items(), normal, returned, lower(levels)?),
        Command::Choice(left, right) => {
            counted_both(table, left, right, normal, returned, lower(levels)?)
        }
    }
}

/// The goals after what is asserted.
fn with_goals(table: &Table, tally: Tally, fact: usize) -> Result<Tally, NoMemory>
    requires there { is_truth_at table.now fact ≡ true }
    ensures { (g : Weights → ℕ) → Counts table.now tally.fixed tally.shares.items g → IfOk result (λ made. Counts table.now made.fixed made.shares.items (λ w. goals (truth_at table.now fact) w false + g w)) }
{
    let mut made = tally;
    add_formula(table, &mut made, fact, false, 1)?;
    Ok(made)
}

/// The same for one command after another, from the last to the first.
#[cycle(count)]
fn counted_all(
    table: &mut Table,
    steps: &[Command],
    normal: Tally,
    returned: &Tally,
    levels: u32,
) -> Result<Tally, NoMemory>
    requires fits { list_fits table.old steps.now ≡ true }
    ensures goals { (q r : Weights → ℕ) → Counts table.old normal.fixed normal.shares.items q → Counts table.old returned.now.fixed returned.now.shares.items r → IfOk result (λ made. Counts table.new made.fixed made.shares.items (spec.counted_all (list_in table.old steps.now) q r)) }
    ensures grows { Extends table.old table.new }
{
    let mut tally = normal;
    let mut at = steps.len();
    'steps: while at > 0 {
        at -= 1;
        tally = counted(table, &steps[at], tally, returned, levels)?;
    }
    Ok(tally)
}

/// The same for a choice of two commands.
#[cycle(count)]
fn counted_both(
    table: &mut Table,
    left: &Command,
    right: &Command,
    normal: Tally,
    returned: &Tally,
    levels: u32,
) -> Result<Tally, NoMemory>
    requires left { command_fits table.old left.now ≡ true }
    requires right { command_fits table.old right.now ≡ true }
    ensures goals { (q r : Weights → ℕ) → Counts table.old normal.fixed normal.shares.items q → Counts table.old returned.now.fixed returned.now.shares.items r → IfOk result (λ made. Counts table.new made.fixed made.shares.items (λ w. spec.counted (command_in table.old left.now) q r w + spec.counted (command_in table.old right.now) q r w)) }
    ensures grows { Extends table.old table.new }
{
    let again = normal.copy(table.alloc())?;
    let first = counted(table, left, normal, returned, levels)?;
    let second = counted(table, right, again, returned, levels)?;
    first.join(second.fixed, second.shares.as_slice())
}
