//! Fields of a class.
ghost use Rattle.std.specs.Prelude.{◌≡◌, ◌+◌, ◌≤◌, ◌<◌, length, IfOk};
ghost use Rattle.jh_ast.specs.Bare.{expr_body_tree, expr_tree};
ghost use Rattle.jh_operators.specs.lookahead.Answers.{Gives, IsWithin};
ghost use Rattle.jh_parse.specs.programs.Literals as literal;
ghost use Rattle.jh_parse.specs.programs.MemberReading as read;
ghost use Rattle.jh_parse.specs.programs.MemberReads.{GivesField, GivesFields, GivesInit};
ghost use Rattle.jh_operators.specs.lookahead.Standing.{place_at};
ghost use Rattle.jh_parse.specs.programs.Separated as comma;

use jh_ast::{Expr, ExprBody, Field, JType, Word};
use jh_lex::lexer::{Symbol, Token};
use jh_name::NoMemory;
use jh_operators::lookahead::{ReadError, behind, is_symbol, number, place, word};
use std::alloc::Global;

#[tactic(auto, using(jh_ast::proofs::ExprSteps::expr_steps))]
fn at_place(tokens: &[Token], at: usize, body: ExprBody) -> Expr
    ensures { expr_tree result ≡ expr_body_tree (place_at tokens.now at) body }
{
    Expr {
        place: place(tokens, at),
        body,
    }
}

/// The literal at a place, which is one token.
#[tactic(auto, using(jh_ast::proofs::ExprSteps::expr_steps), unfolding(crate::specs::programs::Literals::literal_at, jh_operators::specs::lookahead::Choices::choose, jh_operators::specs::lookahead::Choices::given))]
fn literal(tokens: &[Token], at: usize) -> Result<Expr, ReadError>
    ensures value { Gives expr_tree (literal.literal_at tokens.now at) result }
    ensures within { IfOk result (λ _. at < length tokens.now) }
{
    if is_symbol(tokens, at, Symbol::Null) {
        return Ok(at_place(tokens, at, ExprBody::Null));
    }
    if is_symbol(tokens, at, Symbol::True) {
        return Ok(at_place(tokens, at, ExprBody::True));
    }
    if is_symbol(tokens, at, Symbol::False) {
        return Ok(at_place(tokens, at, ExprBody::False));
    }
    match number(tokens, at) {
        Some(number) => Ok(at_place(tokens, at, ExprBody::Number(number))),
        None => Err(ReadError::Refused(at)),
    }
}

/// What a field is set to, where it is.
#[tactic(auto, unfolding(crate::specs::programs::MemberReading::init_at, jh_operators::specs::lookahead::Choices::and_then, jh_operators::specs::lookahead::Choices::choose))]
fn init(tokens: &[Token], at: usize) -> Result<(Option<Expr>, usize), ReadError>
    requires { at ≤ length tokens.now }
    ensures value { GivesInit (read.init_at tokens.now at) result }
    ensures within { IfOk result (λ read. (at ≤ read.1) × (read.1 ≤ length tokens.now)) }
{
    if !is_symbol(tokens, at, Symbol::Equal) {
        return Ok((None, at));
    }
    let value = literal(tokens, at + 1)?;
    Ok((Some(value), at + 2))
}

/// The same word.
fn copied_word(alloc: Global, word: &Word) -> Result<Word, NoMemory>
    ensures { IfOk result (λ copy. copy ≡ word.now) }
{
    let text = word.text.copy(alloc)?;
    Ok(Word {
        text,
        place: word.place,
    })
}

/// The same type.
fn copied(alloc: Global, jtype: &JType) -> Result<JType, NoMemory>
    ensures { IfOk result (λ copy. copy ≡ jtype.now) }
{
    match jtype {
        JType::Int => Ok(JType::Int),
        JType::Boolean => Ok(JType::Boolean),
        JType::Void => Ok(JType::Void),
        JType::Class(word) => {
            let word = copied_word(alloc, word)?;
            Ok(JType::Class(word))
        }
    }
}

/// A field of a type.
#[tactic(auto, unfolding(crate::specs::programs::MemberReading::one_at, jh_operators::specs::lookahead::Choices::and_then))]
fn field(
    alloc: Global,
    tokens: &[Token],
    jtype: &JType,
    fixed: bool,
    at: usize,
) -> Result<(Field, usize), ReadError>
    requires { at ≤ length tokens.now }
    ensures value { GivesField (read.one_at tokens.now jtype.now fixed at) result }
    ensures within { IfOk result (λ read. IsWithin (length tokens.now) at read.1) }
{
    let name = word(alloc, tokens, at)?;
    let (init, next) = init(tokens, at + 1)?;
    let jtype = copied(alloc, jtype)?;
    Ok((
        Field {
            name,
            jtype,
            fixed,
            init,
        },
        next,
    ))
}

/// Fields of a type, with commas between them.
fn several(
    alloc: Global,
    tokens: &[Token],
    jtype: &JType,
    fixed: bool,
    from: usize,
) -> Result<(Vec<Field>, usize), ReadError>
    requires { from ≤ length tokens.now }
    ensures value { GivesFields (comma.separated_at tokens.now (read.one_at tokens.now jtype.now fixed) (length tokens.now) from) result }
    ensures within { IfOk result (λ read. IsWithin (length tokens.now) from read.1) }
{
    let mut made = Vec::new(alloc);
    let mut at = from;
    let mut turns = tokens.len();
    'each: while turns > 0 {
        let (one, next) = field(alloc, tokens, jtype, fixed, at)?;
        made.push(one)?;
        if !is_symbol(tokens, next, Symbol::Comma) {
            return Ok((made, next));
        }
        at = next + 1;
        turns -= 1;
    }
    Err(ReadError::Refused(at))
}

/// Fields of a type, up to their semicolon.
#[tactic(auto, unfolding(crate::specs::programs::MemberReading::fields_at, jh_operators::specs::lookahead::Choices::and_then))]
pub(crate) fn fields(
    alloc: Global,
    tokens: &[Token],
    jtype: &JType,
    fixed: bool,
    at: usize,
) -> Result<(Vec<Field>, usize), ReadError>
    requires { at ≤ length tokens.now }
    ensures value { GivesFields (read.fields_at tokens.now jtype.now fixed at) result }
    ensures within { IfOk result (λ read. IsWithin (length tokens.now) at read.1) }
{
    let (made, next) = several(alloc, tokens, jtype, fixed, at)?;
    let next = behind(tokens, next, Symbol::Semicolon)?;
    Ok((made, next))
}
