ghost use Rattle.std.specs.Prelude.{◌≡◌, ◌+◌, ◌≤◌, ◌<◌, length, IfOk, IfSome};
ghost use Rattle.jh_operators.specs.lookahead.Answers.{Gives};
ghost use Rattle.jh_operators.specs.lookahead.Modifiers as modifier;

use crate::lookahead::error::ReadError;
use crate::lookahead::standing::is_symbol;
use jh_lex::lexer::{Symbol, Token};

/// Whether a symbol is among these.
pub fn has(symbols: &[Symbol], symbol: Symbol) -> bool
    ensures { result ≡ modifier.has symbols.now symbol }
{
    symbols
        .iter()
        .any(|other| other.number() == symbol.number())
}

/// The one of the allowed symbols that stands at a place.
#[tactic(auto, unfolding(crate::specs::lookahead::Modifiers::allowed_at, crate::specs::lookahead::Choices::choose))]
pub fn allowed(tokens: &[Token], symbols: &[Symbol], at: usize) -> Option<Symbol>
    ensures value { result ≡ modifier.allowed_at tokens.now symbols.now at }
    ensures within { IfSome result (λ _. at < length tokens.now) }
{
    match symbols {
        [] => None,
        [first, rest @ ..] => {
            if is_symbol(tokens, at, *first) {
                return Some(*first);
            }
            allowed(tokens, rest, at)
        }
    }
}

/// The modifiers that stand from a place on, added to those before, and the place after them. Each is one of the
/// symbols. `Refused` is answered where one stands twice; `room` is more than there are symbols.
#[tactic(auto, unfolding(crate::specs::lookahead::Modifiers::modifiers_at, crate::specs::lookahead::Choices::choose, crate::specs::lookahead::Choices::given))]
pub fn modifiers(
    tokens: &[Token],
    symbols: &[Symbol],
    room: usize,
    seen: &mut Vec<Symbol>,
    at: usize,
) -> Result<usize, ReadError>
    requires { at ≤ length tokens.now }
    ensures value { Gives (λ next. (seen.new.items, next)) (modifier.modifiers_at tokens.now symbols.now room seen.old.items at) result }
    ensures within { IfOk result (λ next. (at ≤ next) × (next ≤ length tokens.now)) }
{
    if room == 0 {
        return Err(ReadError::Refused(at));
    }
    match allowed(tokens, symbols, at) {
        None => Ok(at),
        Some(symbol) => {
            if has(seen, symbol) {
                return Err(ReadError::Refused(at));
            }
            seen.push(symbol)?;
            modifiers(tokens, symbols, room - 1, seen, at + 1)
        }
    }
}
