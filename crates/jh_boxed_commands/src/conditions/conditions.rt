#![tactic(auto)]

ghost use Rattle.std.specs.Prelude.{◌≡◌, ℕ, [], true, length, IfOk};
ghost use Rattle.std.specs.List.{list_all};
ghost use Rattle.jh_name.specs.declared.place.MethodId.{MethodId};
ghost use Rattle.jh_form.specs.Bare.{formula_tree};
ghost use Rattle.jh_form.specs.Meaning.{Interp, truth};
ghost use Rattle.jh_form.specs.Tree.{FormulaTree};
ghost use Rattle.jh_wp.specs.Command.{CommandTree, is_closed_command};
ghost use Rattle.jh_wp.specs.Runs.{ends};
ghost use Rattle.jh_wp.specs.Wp.{wp, ends_well};
ghost use Rattle.jh_seq.specs.splitting.Split.{split_of};
ghost use Rattle.jh_seq.specs.counting.Goals.{capped};
ghost use Rattle.jh_boxed_commands.specs.commands.Trees.{command_tree};
ghost use Rattle.jh_boxed_commands.specs.conditions.Entered.{IsEntered, Entering};

use crate::commands::Command;
use crate::conditions::entered::{Entered, enter_parts};
use jh_arena::table::Table;
use jh_export::boxed_formula;
use jh_form::Formula;
use jh_name::NoMemory;
use jh_weakest::precondition::wp_in;
use jh_wp::wp_is_weakest;
use std::alloc::Global;

/// The weakest precondition of what was entered.
fn weakest(table: &mut Table, entered: &Entered) -> Result<Formula, NoMemory>
    requires { Entering table.old entered.now }
    ensures { (c : CommandTree) (q r : FormulaTree) → IsEntered table.old c q r entered.now → IfOk result (λ made. formula_tree made ≡ wp c q r) }
{
    let node = wp_in(table, &entered.command, entered.normal, entered.returned)?;
    boxed_formula(table, node)
}

/// The weakest precondition of a command, for `normal` to be true after it and `returned` where the method returns. It is
/// true exactly where no guarded run fails, each that ends after the command makes `normal` true, and each that ends where
/// the method returns makes `returned` true.
pub fn wp(
    alloc: Global,
    command: &Command,
    normal: &Formula,
    returned: &Formula,
) -> Result<Formula, NoMemory>
    ensures tree { IfOk result (λ made. formula_tree made ≡ wp (command_tree command.now) (formula_tree normal.now) (formula_tree returned.now)) }
    ensures exact { IfOk result (λ made. is_closed_command (command_tree command.now) ≡ true → (m : Interp) → truth (formula_tree made) m [] ≡ list_all (ends_well (formula_tree normal.now) (formula_tree returned.now)) (ends (command_tree command.now) m)) }
{
    wp_is_weakest();
    let mut table = Table::new(alloc)?;
    let entered = enter_parts(&mut table, command, normal, returned)?;
    weakest(&mut table, &entered)
}

/// The count of what was entered.
fn counted(table: &mut Table, entered: &Entered) -> Result<u128, NoMemory>
    requires { Entering table.old entered.now }
    ensures { (c : CommandTree) (q r : FormulaTree) → IsEntered table.old c q r entered.now → IfOk result (λ counted. (method : MethodId) (k : ℕ) → counted ≡ capped (length (split_of method (wp c q r) k))) }
{
    jh_weakest::sequent_count::count(table, &entered.command, entered.normal, entered.returned)
}

/// The number of sequents of the weakest precondition of a command, or the greatest `u128` where that is passed. Neither the
/// formula nor a sequent is made.
pub fn count(
    alloc: Global,
    command: &Command,
    normal: &Formula,
    returned: &Formula,
) -> Result<u128, NoMemory>
    ensures { IfOk result (λ counted. (method : MethodId) (k : ℕ) → counted ≡ capped (length (split_of method (wp (command_tree command.now) (formula_tree normal.now) (formula_tree returned.now)) k))) }
{
    let mut table = Table::new(alloc)?;
    let entered = enter_parts(&mut table, command, normal, returned)?;
    counted(&mut table, &entered)
}
