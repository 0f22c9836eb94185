ghost use Rattle.std.specs.Prelude.{◌≡◌, ◌≤◌, ◌<◌, ◌↔◌, ℕ, true, length, IfErr, IfOk};
ghost use Rattle.jh_name.specs.declared.place.MethodId.{MethodId};
ghost use Rattle.jh_arena.specs.table.Growth.{Extends};
ghost use Rattle.jh_weakest.specs.jh_command_terms.command.Code.{command_fits, is_truth_at};
ghost use Rattle.jh_seq.specs.splitting.Laws.{AllValid, IsTautology};
ghost use Rattle.jh_seq.specs.splitting.Split.{split_of};
ghost use Rattle.jh_splitting.specs.Numbering.{IsFirst};
ghost use Rattle.jh_splitting.specs.Standing.{AreSequents};
ghost use Rattle.jh_obligations.specs.command_sequents.Owed.{IsFault, owed};

use crate::command_sequents::fault::GoalsFault;
use jh_arena::table::Table;
use jh_name::{MethodId, NoMemory};
use jh_splitting::{Sequents, split_in};
use jh_weakest::jh_command_terms::command::Command;
use jh_weakest::precondition::wp_in;
use jh_weakest::sequent_count::count;

/// The most sequents that a command may have.
pub const MOST_SEQUENTS: u128 = 2000;

/// The sequents of the weakest precondition of a command, for the formula at `returned` to be true after it and where the
/// method returns.
fn split_command(
    table: &mut Table,
    command: &Command,
    returned: usize,
    method: MethodId,
) -> Result<Sequents, NoMemory>
    requires fits { command_fits table.old command.now ≡ true }
    requires returned { is_truth_at table.old returned ≡ true }
    ensures sequents { IfOk result (λ made. (k : ℕ) × IsFirst (owed table.old command.now returned) k × AreSequents table.new made.hyps made.method made.sequents.items (split_of method (owed table.old command.now returned) k)) }
    ensures exact { IfOk result (λ made. (k : ℕ) → IsFirst (owed table.old command.now returned) k → AllValid (split_of method (owed table.old command.now returned) k) ↔ IsTautology (owed table.old command.now returned)) }
    ensures of_method { IfOk result (λ made. made.method ≡ method) }
    ensures grows { Extends table.old table.new }
{
    let node = wp_in(table, command, returned, returned)?;
    split_in(table, method, node)
}

/// The sequents of the weakest precondition of a command, for the formula at `returned` to be true after it and where the
/// method returns; all of them are valid exactly where that formula is. Where there are more than `MOST_SEQUENTS` it says
/// how many, and makes none. What the table held stays in its place, after any answer.
pub fn sequents_of(
    table: &mut Table,
    command: &Command,
    returned: usize,
    method: MethodId,
) -> Result<Sequents, GoalsFault>
    requires fits { command_fits table.old command.now ≡ true }
    requires returned { is_truth_at table.old returned ≡ true }
    ensures sequents { IfOk result (λ made. (k : ℕ) × IsFirst (owed table.old command.now returned) k × AreSequents table.new made.hyps made.method made.sequents.items (split_of method (owed table.old command.now returned) k)) }
    ensures exact { IfOk result (λ made. (k : ℕ) → IsFirst (owed table.old command.now returned) k → AllValid (split_of method (owed table.old command.now returned) k) ↔ IsTautology (owed table.old command.now returned)) }
    ensures of_method { IfOk result (λ made. made.method ≡ method) }
    ensures few { IfOk result (λ made. (k : ℕ) → length (split_of method (owed table.old command.now returned) k) ≤ 2000) }
    ensures fault { IfErr result (IsFault (owed table.old command.now returned)) }
    ensures grows { Extends table.old table.new }
{
    let counted = count(table, command, returned, returned)?;
    if counted > MOST_SEQUENTS {
        return Err(GoalsFault::TooMany(counted));
    }
    let made = split_command(table, command, returned, method)?;
    Ok(made)
}
