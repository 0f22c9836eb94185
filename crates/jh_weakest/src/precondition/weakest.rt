#![tactic(auto, using(jh_arena::proofs::table::Listed::growth_steps, jh_command_terms::proofs::command::CodeSteps::code_steps, jh_command_terms::proofs::command::CodeSteps::part_steps, crate::proofs::precondition::WpSteps::wp_steps))]

ghost use Rattle.std.specs.Prelude.{◌≡◌, ◌+◌, true, IfOk, List};
ghost use Rattle.jh_form.specs.Tree as t;
ghost use Rattle.jh_arena.specs.table.Growth.{Extends};
ghost use Rattle.jh_command_terms.specs.command.Code.{truth_at, is_truth_at, IsTruth, command_in, command_fits, list_in, list_fits};
ghost use Rattle.jh_wp.specs.Wp.{wp, wp_all};

use crate::precondition::renaming::rename;
use crate::precondition::substituting::substitute;
use jh_arena::makers::{conjunction, implication, truth};
use jh_arena::table::Table;
use jh_command_terms::command::Command;
use jh_name::NoMemory;

/// How deep commands may nest: a method has at most 256 statements, and the command of a statement stands at
/// most three levels below that of the statement round it.
pub const MOST_NESTED: u32 = 1000;

/// The node of the weakest precondition of a command, for the formula at `normal` to be true after it and the one
/// at `returned` where the method returns. What the table held stays in its place, after any answer. The answer is
/// want of memory where commands nest deeper than MOST_NESTED, and where something is put for a name in a formula
/// that nests deeper than MOST_LEVELS of the table.
pub fn wp_in(
    table: &mut Table,
    command: &Command,
    normal: usize,
    returned: usize,
) -> Result<usize, NoMemory>
    requires fits { command_fits table.old command.now ≡ true }
    requires normal { is_truth_at table.old normal ≡ true }
    requires returned { is_truth_at table.old returned ≡ true }
    ensures node { IfOk result (λ made. IsTruth table.new made (wp (command_in table.old command.now) (truth_at table.old normal) (truth_at table.old returned))) }
    ensures grows { Extends table.old table.new }
{
    weakest(table, command, normal, returned, MOST_NESTED)
}

/// The number of levels that are left below.
fn lower(levels: u32) -> Result<u32, NoMemory>
    ensures { IfOk result (λ lower. lower + 1 ≡ levels) }
{
    match levels.checked_sub(1) {
        Some(lower) => Ok(lower),
        None => Err(NoMemory),
    }
}

/// The same for a command that nests at most `levels` deep.
#[cycle(wp)]
fn weakest(
    table: &mut Table,
    command: &Command,
    normal: usize,
    returned: usize,
    levels: u32,
) -> Result<usize, NoMemory>
    requires fits { command_fits table.old command.now ≡ true }
    requires normal { is_truth_at table.old normal ≡ true }
    requires returned { is_truth_at table.old returned ≡ true }
    ensures node { IfOk result (λ made. IsTruth table.new made (wp (command_in table.old command.now) (truth_at table.old normal) (truth_at table.old returned))) }
    ensures grows { Extends table.old table.new }
{
    match command {
        Command::Assume(fact) => implication(table, *fact, normal),
        Command::Assert(fact) => conjunction(table, *fact, normal),
        Command::Assign(name, value) => substitute(table, normal, name, *value),
        Command::Havoc(name, with) => rename(table, normal, name, with),
        Command::Leave => Ok(returned),
        Command::Stop => truth(table),
        Command::Seq(steps) => weakest_of_all(
            table,
            steps.items(),
            normal,
            returned,
            lower(levels)?,
        ),
        Command::Choice(left, right) => {
            weakest_of_both(table, left, right, normal, returned, lower(levels)?)
        }
    }
}

/// The same for one command after another, from the last to the first.
#[cycle(wp)]
fn weakest_of_all(
    table: &mut Table,
    steps: &[Command],
    normal: usize,
    returned: usize,
    levels: u32,
) -> Result<usize, NoMemory>
    requires fits { list_fits table.old steps.now ≡ true }
    requires normal { is_truth_at table.old normal ≡ true }
    requires returned { is_truth_at table.old returned ≡ true }
    ensures node { IfOk result (λ made. IsTruth table.new made (wp_all (list_in table.old steps.now) (truth_at table.old normal) (truth_at table.old returned))) }
    ensures grows { Extends table.old table.new }
{
    let mut formula = normal;
    let mut at = steps.len();
    'steps: while at > 0 {
        at -= 1;
        formula = weakest(table, &steps[at], formula, returned, levels)?;
    }
    Ok(formula)
}

/// The same for a choice of two commands.
#[cycle(wp)]
fn weakest_of_both(
    table: &mut Table,
    left: &Command,
    right: &Command,
    normal: usize,
    returned: usize,
    levels: u32,
) -> Result<usize, NoMemory>
    requires left { command_fits table.old left.now ≡ true }
    requires right { command_fits table.old right.now ≡ true }
    requires normal { is_truth_at table.old normal ≡ true }
    requires returned { is_truth_at table.old returned ≡ true }
    ensures node { IfOk result (λ made. IsTruth table.new made (t.and (wp (command_in table.old left.now) (truth_at table.old normal) (truth_at table.old returned)) (wp (command_in table.old right.now) (truth_at table.old normal) (truth_at table.old returned)))) }
    ensures grows { Extends table.old table.new }
{
    let left = weakest(table, left, normal, returned, levels)?;
    let right = weakest(table, right, normal, returned, levels)?;
    conjunction(table, left, right)
}
