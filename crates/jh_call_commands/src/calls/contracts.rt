#![tactic(auto, using(jh_arena::proofs::table::Listed::growth_steps))]

ghost use Rattle.std.specs.Prelude.{◌≡◌, true, IfOk, Some, slice_get};
ghost use Rattle.jh_ast.specs.Programs.{ProgramTree};
ghost use Rattle.jh_form.specs.Tree.{of_truth};
ghost use Rattle.jh_arena.specs.table.Entries.{is_truth};
ghost use Rattle.jh_arena.specs.table.Growth.{Extends};
ghost use Rattle.jh_arena.specs.table.Nodes.{nodes};
ghost use Rattle.jh_guard.specs.Calls.{renamed_by};
ghost use Rattle.jh_semantics.specs.typed_code.Statements.{claim_in};
ghost use Rattle.jh_havoc.specs.jh_command_statements.checks.Told.{AreFormulas};
ghost use Rattle.jh_call_commands.specs.contract_instances.Calling.{HasTurns, name_at};
ghost use Rattle.jh_call_commands.specs.calls.TurnsOf.{turns_in};

use crate::calls::called::Called;
use crate::calls::turns::Turns;
use crate::contract_instances::{Calling, at_call};
use jh_arena::table::Table;
use jh_havoc::jh_command_statements::checks::formula_node;
use jh_name::NoMemory;
use jh_semantics::typed_code::Claim;

/// What the names of the contract of the method that is called are at the call.
pub(crate) fn calling_of<'a>(called: &Called<'a>, turns: &Turns) -> Calling<'a>
    ensures params { result.params.now ≡ called.now.method.now.params }
    ensures written { result.written.now ≡ called.now.written.now }
    ensures turns { HasTurns (turns_in turns.now) result }
{
    Calling {
        params: called.method.params.items(),
        written: called.written,
        receiver: turns.receiver,
        args: turns.args,
        copies: turns.copies,
        result: turns.result,
    }
}

/// The node of a formula of a contract, with the names that it has at a call.
pub(crate) fn renamed_claim(
    table: &mut Table,
    formulas: &[Option<usize>],
    claim: &Claim,
    calling: Calling<'_>,
) -> Result<usize, NoMemory>
    ensures truth { IfOk result (λ made. is_truth (slice_get (nodes table.new) made) ≡ true) }
    ensures node { IfOk result (λ made. (p : ProgramTree) → AreFormulas p table.old formulas.now → slice_get (nodes table.new) made ≡ Some (of_truth (renamed_by (name_at calling.entry) (claim_in p claim.now).formula))) }
    ensures grows { Extends table.old table.new }
{
    let formula = formula_node(table, formulas, claim.number)?;
    at_call(table, formula, calling)
}
