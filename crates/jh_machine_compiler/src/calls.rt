ghost use Rattle.std.specs.Prelude.{◌≡◌, ◌∷◌, ◌++◌, [], Bool, IfOk, OnOk, map, option_map};
ghost use Rattle.jh_ast.specs.Programs.{ProgramTree};
ghost use Rattle.jh_arena.specs.table.Entries.{Listing};
ghost use Rattle.jh_arena.specs.table.Growth.{Grows};
ghost use Rattle.jh_semantics.specs.typed_code.Codes.{object_code, any_code};
ghost use Rattle.jh_semantics.specs.typed_code.Statements.{call_in};
ghost use Rattle.jh_machine_compiler.specs.Lasting.{Makes, IsReceiver, AreArguments};
ghost use Rattle.jh_machine_compiler.specs.Sources.{numbered_in};

use crate::destinations::destination_of;
use crate::source::Source;
use jh_machine_code::code::{CallStep, Step};
use jh_machine_code::numbering::{any_expr, object_expr};
use jh_name::{NoMemory, Row};
use jh_operands::{AnyExpr, ObjectExpr};
use jh_semantics::typed_code::{AnyCode, CallCode, ObjectCode};
use jh_store::memory::Names;
use std::alloc::Global;

impl<'a> Source<'a> {
    /// The number of a method, where there is such a method.
    pub fn number(&self, class: usize, name: &str) -> Option<usize>
        ensures { result ≡ numbered_in self.now (record { class = class; name = name.now }) }
    {
        match self.numbers.number(class, name) {
            None => None,
            Some(number) => {
                if number < self.methods.len() {
                    Some(number)
                } else {
                    None
                }
            }
        }
    }
}

/// The receiver of a call, where there is one.
#[tactic(auto, using(crate::proofs::CallSteps::receiver_steps))]
fn receiver_of(
    alloc: Global,
    names: &mut Names,
    receiver: &Option<ObjectCode>,
) -> Result<Option<ObjectExpr>, NoMemory>
    ensures is { IfOk result (IsReceiver names.new (option_map object_code receiver.now)) }
    ensures grows { Grows names.old names.new }
{
    match receiver {
        None => Ok(None),
        Some(receiver) => {
            let receiver = object_expr(alloc, names, receiver)?;
            Ok(Some(receiver))
        }
    }
}

/// Adds an argument. What can't be added is dropped here alone.
fn push_value(made: &mut Vec<AnyExpr>, value: AnyExpr) -> Result<(), NoMemory>
    ensures items { OnOk result (made.new.items ≡ made.old.items ++ value ∷ []) }
{
    made.push(value)?;
    Ok(())
}

/// The arguments of a call.
#[tactic(auto, using(crate::proofs::CallSteps::argument_steps))]
fn arguments_of(
    alloc: Global,
    names: &mut Names,
    codes: &[AnyCode],
) -> Result<Row<AnyExpr>, NoMemory>
    ensures are { IfOk result (AreArguments names.new (map any_code codes.now)) }
    ensures grows { Grows names.old names.new }
{
    let mut made = Vec::new(alloc);
    for code in codes {
        let value = any_expr(alloc, names, code)?;
        push_value(&mut made, value)?;
    }
    Ok(Row::of(made))
}

/// A call.
#[tactic(auto, using(crate::proofs::CallSteps::call_steps))]
pub(crate) fn call_step(
    alloc: Global,
    source: &Source<'_>,
    names: &mut Names,
    call: &CallCode,
) -> Result<Step, NoMemory>
    ensures is { IfOk result (λ made. (p : ProgramTree) (keeps : Bool) (t : Listing) → Makes (numbered_in source.now) keeps names.new t (call_in p call.now) made) }
    ensures grows { Grows names.old names.new }
{
    let method = source.number(call.class, call.method.text());
    let destination = destination_of(alloc, names, &call.target)?;
    let receiver = receiver_of(alloc, names, &call.receiver)?;
    let args = arguments_of(alloc, names, call.args.items())?;
    Ok(Step::Call(CallStep {
        destination,
        receiver,
        receiver_place: call.receiver_place,
        method,
        args,
    }))
}
