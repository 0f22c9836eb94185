ghost use Rattle.std.specs.Prelude.{IfOk, ℕ, Option, true};
ghost use Rattle.jh_ast.specs.Programs.{ProgramTree};
ghost use Rattle.jh_arena.specs.table.Growth.{Extends};
ghost use Rattle.jh_name.specs.declared.naming.Name.{Name};
ghost use Rattle.std.specs.Prelude.{List};
ghost use Rattle.jh_vars.specs.Written.{Callee};
ghost use Rattle.jh_semantics.specs.Code as c;
ghost use Rattle.jh_semantics.specs.typed_code.Statements.{claim_in};
ghost use Rattle.jh_command_statements.specs.checks.Told.{AreFormulas};
ghost use Rattle.jh_machine_compiler.specs.Lasting.{Makes};

use jh_arena::table::Table;
use jh_command_statements::checks::formula_node;
use jh_machine_code::code::Step;
use jh_name::NoMemory;
use jh_semantics::typed_code::Claim;

/// A formula that is asked: that of an assert or a note.
#[tactic(auto, using(crate::proofs::FormulaSteps::formula_steps))]
pub(crate) fn ask_step(
    table: &mut Table,
    formulas: &[Option<usize>],
    claim: &Claim,
) -> Result<Step, NoMemory>
    ensures assert { IfOk result (λ made. (p : ProgramTree) → AreFormulas p table.old formulas.now → (numbered : Callee → Option ℕ) (names : List Name) → Makes numbered true names table.new (c.assert (claim_in p claim.now)) made) }
    ensures note { IfOk result (λ made. (p : ProgramTree) → AreFormulas p table.old formulas.now → (numbered : Callee → Option ℕ) (names : List Name) → Makes numbered true names table.new (c.note (claim_in p claim.now)) made) }
    ensures grows { Extends table.old table.new }
{
    let node = formula_node(table, formulas, claim.number)?;
    Ok(Step::Ask(claim.place, node))
}
