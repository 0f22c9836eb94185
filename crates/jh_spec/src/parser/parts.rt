//! What a specification holds: the items of a class, the contract of a method, the invariants of a loop, statements.
ghost use Rattle.std.specs.Prelude.{◌≡◌, ◌+◌, ◌≤◌, ◌<◌, length, IfOk, IsTrue};
ghost use Rattle.jh_operators.specs.lookahead.Answers.{Gives, IsWithin};
ghost use Rattle.jh_spec.specs.parser.PartReading as part;
ghost use Rattle.jh_spec.specs.parser.PartReads.{
  GivesItem,
  GivesLoopItem,
  GivesStatement,
  GivesSpec,
  GivesLabelled,
  numbered_part,
};
ghost use Rattle.jh_ast.specs.Stmts as stmt;

use crate::parser::SpecItem;
use crate::parser::clauses::{
    Listed, clause, label, next_number, numbered, quoted, quoted_formula, semicolon, words_after,
};
use crate::parser::formulas::{at_place, postfix};
use crate::parser::held::{Numbered, Said, spec_of};
use jh_ast::{Labelled, SpecBody, SpecVar, Stmt, StmtBody, VarDef, Word};
use jh_lex::lexer::{Symbol, Token};
use jh_name::{Kind, Row};
use jh_operators::lookahead::{
    ReadError, behind, has, is_quote_close, is_quote_open, is_symbol, is_word, modifiers, name,
    place, word,
};
use std::alloc::Global;

/// The kind of a variable.
#[tactic(auto, unfolding(crate::specs::parser::PartReading::kind_of_at, jh_operators::specs::lookahead::Choices::choose))]
fn kind(tokens: &[Token], at: usize) -> Result<(Kind, usize), ReadError>
    requires { at ≤ length tokens.now }
    ensures value { Gives (λ read. read) (part.kind_of_at tokens.now at) result }
    ensures within { IfOk result (λ read. IsWithin (length tokens.now) at read.1) }
{
    if is_word(tokens, at, "obj") {
        Ok((Kind::Obj, at + 1))
    } else if is_symbol(tokens, at, Symbol::Int) {
        Ok((Kind::Int, at + 1))
    } else if is_word(tokens, at, "bool") {
        Ok((Kind::Bool, at + 1))
    } else if is_word(tokens, at, "objset") {
        Ok((Kind::Set, at + 1))
    } else if is_quoted_set(tokens, at) {
        Ok((Kind::Set, at + 4))
    } else {
        Err(ReadError::Refused(at))
    }
}

/// Whether `"obj set"` stands at a place.
fn is_quoted_set(tokens: &[Token], at: usize) -> bool
    requires { at ≤ length tokens.now }
    ensures value { result ≡ part.is_quoted_set_at tokens.now at }
    ensures within { IsTrue result → at + 4 ≤ length tokens.now }
{
    is_quote_open(tokens, at)
        && is_word(tokens, at + 1, "obj")
        && is_word(tokens, at + 2, "set")
        && is_quote_close(tokens, at + 3)
}

/// The name and the kind of a variable.
#[tactic(auto, unfolding(crate::specs::parser::PartReading::declared_at, jh_operators::specs::lookahead::Choices::and_then))]
fn declared(alloc: Global, tokens: &[Token], at: usize) -> Result<((Word, Kind), usize), ReadError>
    requires { at ≤ length tokens.now }
    ensures value { Gives (λ read. read) (part.declared_at tokens.now at) result }
    ensures within { IfOk result (λ read. IsWithin (length tokens.now) at read.1) }
{
    let word = word(alloc, tokens, at)?;
    let _colons = behind(tokens, at + 1, Symbol::ColonColon)?;
    let (kind, next) = kind(tokens, at + 2)?;
    Ok(((word, kind), next))
}

/// Whether `static` and `ghost` stand before a variable.
#[tactic(auto, unfolding(crate::specs::parser::PartReading::flags_at, jh_operators::specs::lookahead::Choices::and_then))]
fn flags(alloc: Global, tokens: &[Token], at: usize) -> Result<((bool, bool), usize), ReadError>
    requires { at ≤ length tokens.now }
    ensures value { Gives (λ read. read) (part.flags_at tokens.now at) result }
    ensures within { IfOk result (λ read. (at ≤ read.1) × (read.1 ≤ length tokens.now)) }
{
    let allowed = [
        Symbol::Public,
        Symbol::Private,
        Symbol::Static,
        Symbol::Ghost,
    ];
    let mut seen = Vec::new(alloc);
    let next = modifiers(tokens, &allowed, tokens.len() + 1, &mut seen, at)?;
    Ok((
        (has(&seen, Symbol::Static), has(&seen, Symbol::Ghost)),
        next,
    ))
}

/// A variable of a class.
#[tactic(auto, unfolding(crate::specs::parser::PartReading::variable_at, jh_operators::specs::lookahead::Choices::and_then))]
fn variable(
    alloc: Global,
    tokens: &[Token],
    number: u32,
    at: usize,
) -> Result<(SpecItem, usize, u32), ReadError>
    requires { at ≤ length tokens.now }
    ensures value { GivesItem (part.variable_at tokens.now number at) result }
    ensures within { IfOk result (λ read. IsWithin (length tokens.now) at read.1) }
{
    let ((fixed, is_ghost), next) = flags(alloc, tokens, at)?;
    let next = behind(tokens, next, Symbol::Specvar)?;
    let ((name, kind), next) = declared(alloc, tokens, next)?;
    let (init, next, number) = clause(alloc, tokens, Symbol::Equal, number, next)?;
    let next = behind(tokens, next, Symbol::Semicolon)?;
    Ok((
        SpecItem::Var(SpecVar {
            name,
            kind,
            fixed,
            is_ghost,
            init: spec_of(init),
        }),
        next,
        number,
    ))
}

/// A definition in quotes: its variable, its formula and the place of the closing quote.
#[tactic(auto, unfolding(crate::specs::parser::PartReading::defined_at, jh_operators::specs::lookahead::Choices::and_then, jh_operators::specs::lookahead::Choices::choose))]
fn defined(
    alloc: Global,
    tokens: &[Token],
    number: u32,
    at: usize,
) -> Result<((Word, Numbered), usize), ReadError>
    requires { at ≤ length tokens.now }
    ensures value { Gives (λ read. ((read.0.0, numbered_part read.0.1), read.1)) (part.defined_at tokens.now number at) result }
    ensures within { IfOk result (λ read. IsWithin (length tokens.now) at read.1) }
{
    if !is_quote_open(tokens, at) {
        return Err(ReadError::Refused(at));
    }
    let name = word(alloc, tokens, at + 1)?;
    let _equals = behind(tokens, at + 2, Symbol::EqualEqual)?;
    let (body, next) = quoted_formula(alloc, tokens, at + 3)?;
    let form = numbered(tokens, at, number, body);
    Ok(((name, form), next + 1))
}

/// A definition of a variable.
#[tactic(auto, unfolding(crate::specs::parser::PartReading::definition_at, jh_operators::specs::lookahead::Choices::and_then, jh_operators::specs::lookahead::Choices::choose))]
fn definition(
    alloc: Global,
    tokens: &[Token],
    number: u32,
    at: usize,
) -> Result<(SpecItem, usize, u32), ReadError>
    requires { at < length tokens.now }
    ensures value { GivesItem (part.definition_at tokens.now number at) result }
    ensures within { IfOk result (λ read. IsWithin (length tokens.now) at read.1) }
{
    let after = next_number(number)?;
    let ((name, form), next) = defined(alloc, tokens, number, at + 1)?;
    let next = behind(tokens, next, Symbol::Semicolon)?;
    let body = form.spec();
    Ok((SpecItem::Def(VarDef { name, body }), next, after))
}

/// A formula with a label before it, where one stands, and no facts named.
#[tactic(auto, unfolding(crate::specs::parser::PartReading::labelled_at, jh_operators::specs::lookahead::Choices::and_then))]
fn labelled(
    alloc: Global,
    tokens: &[Token],
    number: u32,
    at: usize,
) -> Result<(Said, usize), ReadError>
    requires { at ≤ length tokens.now }
    ensures value { GivesLabelled (part.labelled_at tokens.now number at) result }
    ensures within { IfOk result (λ read. IsWithin (length tokens.now) at read.1) }
{
    let (name, next) = label(alloc, tokens, at)?;
    let (form, next) = quoted(alloc, tokens, number, next)?;
    let from = Row::of(Vec::new(alloc));
    Ok((Said { name, form, from }, next))
}

/// An invariant of a class, whose word `invariant` stands at a place.
#[tactic(auto, unfolding(crate::specs::parser::PartReading::invariant_at, jh_operators::specs::lookahead::Choices::and_then))]
fn invariant(
    alloc: Global,
    tokens: &[Token],
    number: u32,
    at: usize,
) -> Result<(SpecItem, usize, u32), ReadError>
    requires { at < length tokens.now }
    ensures value { GivesItem (part.invariant_at tokens.now number at) result }
    ensures within { IfOk result (λ read. IsWithin (length tokens.now) at read.1) }
{
    let after = next_number(number)?;
    let (said, next) = labelled(alloc, tokens, number, at + 1)?;
    let next = behind(tokens, next, Symbol::Semicolon)?;
    Ok((SpecItem::Invariant(said.labelled()), next, after))
}

/// Whether an invariant begins at a place with a word that says who may see it.
fn is_seen_invariant(tokens: &[Token], at: usize) -> bool
    requires { at ≤ length tokens.now }
    ensures value { result ≡ part.is_seen_invariant_at tokens.now at }
    ensures within { IsTrue result → at + 2 ≤ length tokens.now }
{
    (is_symbol(tokens, at, Symbol::Public) || is_symbol(tokens, at, Symbol::Private))
        && is_symbol(tokens, at + 1, Symbol::Invariant)
}

/// One of the items of a class.
#[tactic(auto, unfolding(crate::specs::parser::PartReading::item_at, jh_operators::specs::lookahead::Choices::choose))]
pub(crate) fn item(
    alloc: Global,
    tokens: &[Token],
    number: u32,
    at: usize,
) -> Result<(SpecItem, usize, u32), ReadError>
    requires { at ≤ length tokens.now }
    ensures value { GivesItem (part.item_at tokens.now number at) result }
    ensures within { IfOk result (λ read. IsWithin (length tokens.now) at read.1) }
{
    if is_symbol(tokens, at, Symbol::Vardefs) {
        return definition(alloc, tokens, number, at);
    }
    if is_symbol(tokens, at, Symbol::Invariant) {
        return invariant(alloc, tokens, number, at);
    }
    if is_seen_invariant(tokens, at) {
        return invariant(alloc, tokens, number, at + 1);
    }
    variable(alloc, tokens, number, at)
}

/// One of the invariants of a loop.
#[tactic(auto, unfolding(crate::specs::parser::PartReading::loop_item_at, jh_operators::specs::lookahead::Choices::and_then))]
pub(crate) fn loop_item(
    alloc: Global,
    tokens: &[Token],
    number: u32,
    at: usize,
) -> Result<(Labelled, usize, u32), ReadError>
    requires { at ≤ length tokens.now }
    ensures value { GivesLoopItem (part.loop_item_at tokens.now number at) result }
    ensures within { IfOk result (λ read. IsWithin (length tokens.now) at read.1) }
{
    let next = behind(tokens, at, Symbol::Inv)?;
    let after = next_number(number)?;
    let (said, next) = labelled(alloc, tokens, number, next)?;
    Ok((said.labelled(), semicolon(tokens, next), after))
}

/// What is spoken after `assert` or `note`.
#[tactic(auto, unfolding(crate::specs::parser::PartReading::spoken_at, jh_operators::specs::lookahead::Choices::and_then))]
fn spoken(
    alloc: Global,
    tokens: &[Token],
    number: u32,
    at: usize,
) -> Result<(Said, usize), ReadError>
    requires { at ≤ length tokens.now }
    ensures value { GivesLabelled (part.spoken_at tokens.now number at) result }
    ensures within { IfOk result (λ read. IsWithin (length tokens.now) at read.1) }
{
    let (name, next) = label(alloc, tokens, at)?;
    let (form, next) = quoted(alloc, tokens, number, next)?;
    let (from, next) = words_after(alloc, tokens, Symbol::From, Listed::Facts, next)?;
    let from = Row::of(from);
    Ok((Said { name, form, from }, next))
}

/// The name of a ghost variable, as a formula of the file.
#[tactic(auto, using(jh_ast::proofs::FormSteps::form_steps), unfolding(crate::specs::parser::PartReading::named_at, jh_operators::specs::lookahead::Choices::and_then))]
fn named(
    alloc: Global,
    tokens: &[Token],
    number: u32,
    at: usize,
) -> Result<(Numbered, usize), ReadError>
    requires { at ≤ length tokens.now }
    ensures value { GivesSpec (part.named_at tokens.now number at) result }
    ensures within { IfOk result (λ read. IsWithin (length tokens.now) at read.1) }
{
    let name = name(alloc, tokens, at)?;
    let body = at_place(alloc, tokens, at, SpecBody::Name(name))?;
    Ok((numbered(tokens, at, number, body), at + 1))
}

/// What a ghost assignment assigns to: a name, or a read in quotes.
#[tactic(auto, unfolding(crate::specs::parser::PartReading::target_at, jh_operators::specs::lookahead::Choices::and_then, jh_operators::specs::lookahead::Choices::choose))]
fn target(
    alloc: Global,
    tokens: &[Token],
    number: u32,
    at: usize,
) -> Result<(Numbered, usize), ReadError>
    requires { at ≤ length tokens.now }
    ensures value { GivesSpec (part.target_at tokens.now number at) result }
    ensures within { IfOk result (λ read. IsWithin (length tokens.now) at read.1) }
{
    if !is_quote_open(tokens, at) {
        return named(alloc, tokens, number, at);
    }
    let (body, next) = postfix(alloc, tokens, tokens.len(), at + 1)?;
    if !is_quote_close(tokens, next) {
        return Err(ReadError::Refused(next));
    }
    Ok((numbered(tokens, at, number, body), next + 1))
}

/// A ghost assignment.
#[tactic(auto, using(jh_ast::proofs::StmtSteps::stmt_steps), unfolding(crate::specs::parser::PartReading::ghost_at, jh_operators::specs::lookahead::Choices::and_then))]
fn ghost_assignment(
    alloc: Global,
    tokens: &[Token],
    number: u32,
    at: usize,
) -> Result<(Stmt, usize, u32), ReadError>
    requires { at ≤ length tokens.now }
    ensures value { GivesStatement (part.ghost_at tokens.now number at) result }
    ensures within { IfOk result (λ read. IsWithin (length tokens.now) at read.1) }
{
    let second = next_number(number)?;
    let after = next_number(second)?;
    let (variable, next) = target(alloc, tokens, number, at)?;
    let next = behind(tokens, next, Symbol::ColonEqual)?;
    let (value, next) = quoted(alloc, tokens, second, next)?;
    let body = StmtBody::Ghost(variable.spec(), value.spec());
    Ok((
        Stmt {
            place: place(tokens, at),
            body,
        },
        semicolon(tokens, next),
        after,
    ))
}

/// `assert` and what is asserted.
#[tactic(auto, using(jh_ast::proofs::StmtSteps::stmt_steps), unfolding(crate::specs::parser::PartReading::said_at, jh_operators::specs::lookahead::Choices::and_then))]
fn assert_statement(
    alloc: Global,
    tokens: &[Token],
    number: u32,
    at: usize,
) -> Result<(Stmt, usize, u32), ReadError>
    requires { at < length tokens.now }
    ensures value { GivesStatement (part.said_at tokens.now stmt.assert number at) result }
    ensures within { IfOk result (λ read. IsWithin (length tokens.now) at read.1) }
{
    let after = next_number(number)?;
    let (said, next) = spoken(alloc, tokens, number, at + 1)?;
    let body = StmtBody::Assert(said.labelled());
    Ok((
        Stmt {
            place: place(tokens, at),
            body,
        },
        semicolon(tokens, next),
        after,
    ))
}

/// `note` and what is noted.
#[tactic(auto, using(jh_ast::proofs::StmtSteps::stmt_steps), unfolding(crate::specs::parser::PartReading::said_at, jh_operators::specs::lookahead::Choices::and_then))]
fn note_statement(
    alloc: Global,
    tokens: &[Token],
    number: u32,
    at: usize,
) -> Result<(Stmt, usize, u32), ReadError>
    requires { at < length tokens.now }
    ensures value { GivesStatement (part.said_at tokens.now stmt.note number at) result }
    ensures within { IfOk result (λ read. IsWithin (length tokens.now) at read.1) }
{
    let after = next_number(number)?;
    let (said, next) = spoken(alloc, tokens, number, at + 1)?;
    let body = StmtBody::Note(said.labelled());
    Ok((
        Stmt {
            place: place(tokens, at),
            body,
        },
        semicolon(tokens, next),
        after,
    ))
}

/// A statement of a specification.
#[tactic(auto, unfolding(crate::specs::parser::PartReading::statement_at, jh_operators::specs::lookahead::Choices::choose))]
pub(crate) fn statement(
    alloc: Global,
    tokens: &[Token],
    number: u32,
    at: usize,
) -> Result<(Stmt, usize, u32), ReadError>
    requires { at ≤ length tokens.now }
    ensures value { GivesStatement (part.statement_at tokens.now number at) result }
    ensures within { IfOk result (λ read. IsWithin (length tokens.now) at read.1) }
{
    if is_symbol(tokens, at, Symbol::Assert) {
        return assert_statement(alloc, tokens, number, at);
    }
    if is_symbol(tokens, at, Symbol::Note) {
        return note_statement(alloc, tokens, number, at);
    }
    ghost_assignment(alloc, tokens, number, at)
}
