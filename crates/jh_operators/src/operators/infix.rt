ghost use Rattle.std.specs.Prelude.{◌≡◌, ◌<◌, length, IfSome};
ghost use Rattle.jh_operators.specs.operators.Infixes as token;

use crate::lookahead::is_symbol;
use jh_ast::SpecOp;
use jh_lex::lexer::{Symbol, Token};

/// The operator that stands there, with the rank of how loosely it binds.
#[tactic(auto, unfolding(crate::specs::operators::Infixes::infix_at, crate::specs::lookahead::Choices::choose))]
fn infix(tokens: &[Token], at: usize) -> Option<(u8, SpecOp)>
    ensures value { result ≡ token.infix_at tokens.now at }
    ensures within { IfSome result (λ _. at < length tokens.now) }
{
    if is_symbol(tokens, at, Symbol::Arrow) {
        Some((7, SpecOp::Implies))
    } else if is_symbol(tokens, at, Symbol::Bar) {
        Some((6, SpecOp::Or))
    } else if is_symbol(tokens, at, Symbol::Ampersand) {
        Some((5, SpecOp::And))
    } else if is_symbol(tokens, at, Symbol::Equal) {
        Some((4, SpecOp::Equal))
    } else if is_symbol(tokens, at, Symbol::TildeEqual) {
        Some((4, SpecOp::NotEqual))
    } else if is_symbol(tokens, at, Symbol::Colon) {
        Some((4, SpecOp::Elem))
    } else if is_symbol(tokens, at, Symbol::TildeColon) {
        Some((4, SpecOp::NotElem))
    } else if is_symbol(tokens, at, Symbol::Less) {
        Some((4, SpecOp::Less))
    } else if is_symbol(tokens, at, Symbol::LessEqual) {
        Some((4, SpecOp::LessEq))
    } else if is_symbol(tokens, at, Symbol::Greater) {
        Some((4, SpecOp::Greater))
    } else if is_symbol(tokens, at, Symbol::GreaterEqual) {
        Some((4, SpecOp::GreaterEq))
    } else if is_symbol(tokens, at, Symbol::Union) {
        Some((3, SpecOp::Union))
    } else if is_symbol(tokens, at, Symbol::Plus) {
        Some((3, SpecOp::Add))
    } else if is_symbol(tokens, at, Symbol::Minus) {
        Some((3, SpecOp::Sub))
    } else if is_symbol(tokens, at, Symbol::Intersection) {
        Some((2, SpecOp::Inter))
    } else if is_symbol(tokens, at, Symbol::Star) {
        Some((2, SpecOp::Mul))
    } else {
        None
    }
}

/// The operator of that rank which stands there.
#[tactic(auto, unfolding(crate::specs::operators::Infixes::operator_at, crate::specs::lookahead::Choices::choose, crate::specs::lookahead::Choices::and_then))]
pub fn operator(tokens: &[Token], rank: u8, at: usize) -> Option<SpecOp>
    ensures value { result ≡ token.operator_at tokens.now rank at }
    ensures within { IfSome result (λ _. at < length tokens.now) }
{
    match infix(tokens, at) {
        Some((found, operator)) => { if found == rank { Some(operator) } else { None } }
        None => None,
    }
}
