//! The operators and the constants that stand at a place.
ghost use Rattle.std.specs.Prelude.{◌≡◌, ◌<◌, length, IfSome};
ghost use Rattle.std.specs.Option.{option_map};
ghost use Rattle.jh_ast.specs.Bare.{expr_body_tree};
ghost use Rattle.jh_operators.specs.lookahead.Standing.{place_at};
ghost use Rattle.jh_parse.specs.expressions.Operators as token;

use jh_ast::{ExprBody, Op};
use jh_lex::lexer::{Symbol, Token};
use jh_operators::lookahead::is_symbol;

/// The operator that stands there, with the rank of how loosely it binds.
#[tactic(auto, unfolding(crate::specs::expressions::Operators::infix_at, jh_operators::specs::lookahead::Choices::choose))]
fn infix(tokens: &[Token], at: usize) -> Option<(u8, Op)>
    ensures value { result ≡ token.infix_at tokens.now at }
    ensures within { IfSome result (λ _. at < length tokens.now) }
{
    if is_symbol(tokens, at, Symbol::BarBar) {
        Some((7, Op::Or))
    } else if is_symbol(tokens, at, Symbol::AmpersandAmpersand) {
        Some((6, Op::And))
    } else if is_symbol(tokens, at, Symbol::EqualEqual) {
        Some((5, Op::Equal))
    } else if is_symbol(tokens, at, Symbol::BangEqual) {
        Some((5, Op::NotEqual))
    } else if is_symbol(tokens, at, Symbol::Less) {
        Some((4, Op::Less))
    } else if is_symbol(tokens, at, Symbol::LessEqual) {
        Some((4, Op::LessEq))
    } else if is_symbol(tokens, at, Symbol::Greater) {
        Some((4, Op::Greater))
    } else if is_symbol(tokens, at, Symbol::GreaterEqual) {
        Some((4, Op::GreaterEq))
    } else if is_symbol(tokens, at, Symbol::Plus) {
        Some((3, Op::Add))
    } else if is_symbol(tokens, at, Symbol::Minus) {
        Some((3, Op::Sub))
    } else if is_symbol(tokens, at, Symbol::Star) {
        Some((2, Op::Mul))
    } else {
        None
    }
}

/// The operator of that rank which stands there.
#[tactic(auto, unfolding(crate::specs::expressions::Operators::operator_at, jh_operators::specs::lookahead::Choices::choose, jh_operators::specs::lookahead::Choices::and_then))]
pub(crate) fn operator(tokens: &[Token], rank: u8, at: usize) -> Option<Op>
    ensures value { result ≡ token.operator_at tokens.now rank at }
    ensures within { IfSome result (λ _. at < length tokens.now) }
{
    match infix(tokens, at) {
        Some((found, operator)) => { if found == rank { Some(operator) } else { None } }
        None => None,
    }
}

/// What stands for itself there.
#[tactic(auto, using(jh_ast::proofs::ExprSteps::expr_steps), unfolding(crate::specs::expressions::Operators::constant_at, jh_operators::specs::lookahead::Choices::choose))]
pub(crate) fn constant(tokens: &[Token], at: usize) -> Option<ExprBody>
    ensures value { option_map (expr_body_tree (place_at tokens.now at)) result ≡ token.constant_at tokens.now at }
    ensures within { IfSome result (λ _. at < length tokens.now) }
{
    if is_symbol(tokens, at, Symbol::Null) {
        Some(ExprBody::Null)
    } else if is_symbol(tokens, at, Symbol::True) {
        Some(ExprBody::True)
    } else if is_symbol(tokens, at, Symbol::False) {
        Some(ExprBody::False)
    } else if is_symbol(tokens, at, Symbol::This) {
        Some(ExprBody::This)
    } else {
        None
    }
}
