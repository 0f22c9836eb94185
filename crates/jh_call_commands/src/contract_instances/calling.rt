#![tactic(auto)]

ghost use Rattle.std.specs.Prelude.{◌≡◌, suc, map, IfOk, if◌then◌else◌};
ghost use Rattle.jh_rules.specs.Words.{same_text};
ghost use Rattle.jh_guard.specs.Calls.{this_text, result_text};
ghost use Rattle.jh_semantics.specs.typed_code.Statements.{local_in};
ghost use Rattle.jh_call_commands.specs.contract_instances.Calling as call;

use jh_name::{Name, NoMemory};
use jh_semantics::typed_code::Local;
use jh_state_facts::changes::SortedName;

/// What the names of a contract are at a call: the parameters of the method, the state that it may write, and the turns
/// of the receiver, of the first argument, of the copies of the state and of the result.
#[derive(Clone, Copy)]
pub struct Calling<'a> {
    pub params: &'a [Local],
    pub written: &'a [SortedName<'a>],
    pub receiver: u32,
    pub args: u32,
    pub copies: u32,
    pub result: u32,
}

/// Whether a text is that of one of these names.
pub fn is_among(names: &[SortedName<'_>], text: &str) -> bool
    ensures { result ≡ call.is_among names.now text.now }
{
    names.iter().any(|name| name.text == text)
}

/// The next turn; the answer is want of memory where there is none.
fn next_turn(turn: u32) -> Result<u32, NoMemory>
    ensures { IfOk result (λ next. next ≡ suc turn) }
{
    match turn.checked_add(1) {
        Some(next) => Ok(next),
        None => Err(NoMemory),
    }
}

/// The turn of the argument of a parameter of this text; 0 where there is none.
fn argument_turn(params: &[Local], first: u32, text: &str) -> Result<u32, NoMemory>
    ensures { IfOk result (λ turn. turn ≡ call.argument_turn (map local_in params.now) first text.now) }
{
    let mut turn = first;
    for param in params {
        if param.name.text() == text {
            return Ok(turn);
        }
        turn = next_turn(turn)?;
    }
    Ok(0)
}

/// The turn at a call of a name of the contract.
pub(crate) fn turn_at(calling: &Calling<'_>, name: &Name) -> Result<u32, NoMemory>
    ensures { IfOk result (λ turn. turn ≡ call.turn_at calling.now name.now) }
{
    if name.turn() != 0 {
        return Ok(written_turn(calling, name.text()));
    }
    plain_turn(calling, name.text())
}

/// The turn for a name of the state at entry.
fn written_turn(calling: &Calling<'_>, text: &str) -> u32
    ensures { result ≡ (if call.is_among calling.now.written.now text.now then calling.now.copies else 0) }
{
    if is_among(calling.written, text) {
        calling.copies
    } else {
        0
    }
}

/// The turn for a name at turn 0.
fn plain_turn(calling: &Calling<'_>, text: &str) -> Result<u32, NoMemory>
    ensures { IfOk result (λ turn. turn ≡ (if same_text text.now this_text then calling.now.receiver else if same_text text.now result_text then calling.now.result else call.argument_turn (map local_in calling.now.params.now) calling.now.args text.now)) }
{
    if text == "this" {
        Ok(calling.receiver)
    } else if text == "result" {
        Ok(calling.result)
    } else {
        argument_turn(calling.params, calling.args, text)
    }
}
