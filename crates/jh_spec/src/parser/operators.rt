//! The constants that stand at a place, and what a quantifier ends before.
ghost use Rattle.std.specs.Prelude.{◌≡◌, ◌<◌, length, IfSome};
ghost use Rattle.std.specs.Option.{option_map};
ghost use Rattle.jh_ast.specs.Bare.{form_body_tree};
ghost use Rattle.jh_operators.specs.lookahead.Standing.{place_at};
ghost use Rattle.jh_spec.specs.parser.Operators as token;

use jh_ast::SpecBody;
use jh_lex::lexer::{Symbol, Token};
use jh_operators::lookahead::{is_quote_close, is_symbol};

/// Whether a quantifier without brackets may end before this token.
#[tactic(auto, unfolding(crate::specs::parser::Operators::closes_at))]
pub(crate) fn closes(tokens: &[Token], at: usize) -> bool
    ensures { result ≡ token.closes_at tokens.now at }
{
    is_quote_close(tokens, at)
        || is_symbol(tokens, at, Symbol::RightParenthesis)
        || is_symbol(tokens, at, Symbol::RightBracket)
        || is_symbol(tokens, at, Symbol::RightBrace)
        || is_symbol(tokens, at, Symbol::Comma)
}

/// What stands for itself there.
#[tactic(auto, using(jh_ast::proofs::FormSteps::form_steps), unfolding(crate::specs::parser::Operators::constant_at, jh_operators::specs::lookahead::Choices::choose))]
pub(crate) fn constant(tokens: &[Token], at: usize) -> Option<SpecBody>
    ensures value { option_map (form_body_tree (place_at tokens.now at)) result ≡ token.constant_at tokens.now at }
    ensures within { IfSome result (λ _. at < length tokens.now) }
{
    if is_symbol(tokens, at, Symbol::Null) {
        Some(SpecBody::Null)
    } else if is_symbol(tokens, at, Symbol::TrueFormula) {
        Some(SpecBody::True)
    } else if is_symbol(tokens, at, Symbol::FalseFormula) {
        Some(SpecBody::False)
    } else if is_symbol(tokens, at, Symbol::Univ) {
        Some(SpecBody::Univ)
    } else {
        None
    }
}
