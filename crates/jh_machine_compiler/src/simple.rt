ghost use Rattle.std.specs.Prelude.{ℕ, Bool, Option, IfOk, option_map};
ghost use Rattle.jh_ast.specs.Programs.{ProgramTree};
ghost use Rattle.jh_arena.specs.table.Entries.{Listing};
ghost use Rattle.jh_arena.specs.table.Growth.{Grows};
ghost use Rattle.jh_vars.specs.Written.{Callee};
ghost use Rattle.jh_semantics.specs.Code as c;
ghost use Rattle.jh_semantics.specs.typed_code.Codes.{any_code};
ghost use Rattle.jh_semantics.specs.typed_code.Statements.{target_in, return_in};
ghost use Rattle.jh_machine_compiler.specs.Lasting.{Makes};

use crate::destinations::destination_of;
use jh_machine_code::code::Step;
use jh_machine_code::numbering::{any_expr, name_number};
use jh_name::{Name, NoMemory, Place};
use jh_semantics::typed_code::{AnyCode, Target};
use jh_store::memory::Names;
use std::alloc::Global;

/// An assignment.
#[tactic(auto, using(crate::proofs::SimpleSteps::simple_steps))]
pub(crate) fn assign_step(
    alloc: Global,
    names: &mut Names,
    target: &Target,
    value: &AnyCode,
) -> Result<Step, NoMemory>
    ensures is { IfOk result (λ made. (numbered : Callee → Option ℕ) (keeps : Bool) (t : Listing) → Makes numbered keeps names.new t (c.assign (target_in target.now) (any_code value.now)) made) }
    ensures grows { Grows names.old names.new }
{
    let destination = destination_of(alloc, names, target)?;
    let value = any_expr(alloc, names, value)?;
    Ok(Step::Assign(destination, value))
}

/// A new object of a class.
#[tactic(auto, using(crate::proofs::SimpleSteps::simple_steps))]
pub(crate) fn new_step(
    alloc: Global,
    names: &mut Names,
    place: Place,
    target: &Target,
    class: &Name,
) -> Result<Step, NoMemory>
    ensures is { IfOk result (λ made. (numbered : Callee → Option ℕ) (keeps : Bool) (t : Listing) → Makes numbered keeps names.new t (c.new_object place (target_in target.now) class.now.text) made) }
    ensures grows { Grows names.old names.new }
{
    let class = name_number(alloc, names, class)?;
    let destination = destination_of(alloc, names, target)?;
    Ok(Step::New(place, destination, class))
}

/// A return, of a value where there is one.
#[tactic(auto, using(crate::proofs::SimpleSteps::simple_steps))]
pub(crate) fn return_step(
    alloc: Global,
    names: &mut Names,
    value: &Option<AnyCode>,
) -> Result<Step, NoMemory>
    ensures is { IfOk result (λ made. (p : ProgramTree) (numbered : Callee → Option ℕ) (keeps : Bool) (t : Listing) → Makes numbered keeps names.new t (return_in p (option_map any_code value.now)) made) }
    ensures grows { Grows names.old names.new }
{
    match value {
        None => Ok(Step::Return(None)),
        Some(value) => {
            let value = any_expr(alloc, names, value)?;
            Ok(Step::Return(Some(value)))
        }
    }
}
