ghost use Rattle.std.specs.Prelude.{◌≡◌, ◌+◌, ◌-◌, ◌≤◌, ◌<◌, ◌∷◌, [], length, sum, drop, IfOk, IfSome, IfNone, IsTrue, Some, None, ℕ};
ghost use Rattle.jh_spec.specs.nesting.Nesting as nest;
ghost use Rattle.jh_spec.specs.nesting.Nesting.{IsFirstDeep, AllShallow, nesting_at};
ghost use Rattle.jh_lex.specs.declared.lexer.mode.Mode.TheVariants as mode;

use jh_lex::lexer::{Mode, Symbol, Token, TokenKind};
use jh_name::{NoMemory, Place};
use std::alloc::Global;

/// Whether a token is that symbol.
fn is(kind: &TokenKind, symbol: Symbol) -> bool
    ensures { result ≡ nest.is kind.now symbol }
{
    kind.number() == symbol.number()
}

/// Whether a token opens a level.
fn opens(kind: &TokenKind) -> bool
    ensures { result ≡ nest.opens kind.now }
{
    match kind {
        TokenKind::QuoteOpen => true,
        _ => is(kind, Symbol::LeftParenthesis)
            || is(kind, Symbol::LeftBracket)
            || is(kind, Symbol::LeftBrace),
    }
}

/// Whether a token closes a level.
fn closes(kind: &TokenKind) -> bool
    ensures { result ≡ nest.closes kind.now }
{
    match kind {
        TokenKind::QuoteClose => true,
        _ => is(kind, Symbol::RightParenthesis)
            || is(kind, Symbol::RightBracket)
            || is(kind, Symbol::RightBrace),
    }
}

/// Whether a token of code is counted.
fn counts_in_code(kind: &TokenKind) -> bool
    ensures { result ≡ nest.counts mode.Code kind.now }
{
    is(kind, Symbol::Dot)
        || is(kind, Symbol::AmpersandAmpersand)
        || is(kind, Symbol::BarBar)
        || is(kind, Symbol::EqualEqual)
        || is(kind, Symbol::BangEqual)
        || is(kind, Symbol::Bang)
        || is(kind, Symbol::Plus)
        || is(kind, Symbol::Minus)
        || is(kind, Symbol::Star)
        || is(kind, Symbol::If)
        || is(kind, Symbol::Else)
        || is(kind, Symbol::While)
}

/// Whether a token of a formula is counted.
fn counts_in_formula(kind: &TokenKind) -> bool
    ensures { result ≡ nest.counts mode.Formula kind.now }
{
    is(kind, Symbol::Ampersand)
        || is(kind, Symbol::Bar)
        || is(kind, Symbol::Arrow)
        || is(kind, Symbol::Tilde)
        || is(kind, Symbol::Plus)
        || is(kind, Symbol::Minus)
        || is(kind, Symbol::Star)
        || is(kind, Symbol::Percent)
        || is(kind, Symbol::DotDot)
        || is(kind, Symbol::Comma)
        || is(kind, Symbol::All)
        || is(kind, Symbol::Ex)
        || is(kind, Symbol::Old)
        || is(kind, Symbol::Card)
        || is(kind, Symbol::Union)
        || is(kind, Symbol::Intersection)
}

/// Whether a token is counted in its level.
fn counts(mode: Mode, kind: &TokenKind) -> bool
    ensures { result ≡ nest.counts mode kind.now }
{
    match mode {
        Mode::Code => counts_in_code(kind),
        Mode::Specification => false,
        Mode::Formula => counts_in_formula(kind),
    }
}

/// Whether the counting begins anew behind a token.
fn separates(mode: Mode, kind: &TokenKind) -> bool
    ensures { result ≡ nest.separates mode kind.now }
{
    match mode {
        Mode::Code => is(kind, Symbol::Semicolon)
            || is(kind, Symbol::RightBrace)
            || is(kind, Symbol::Comma),
        Mode::Specification => is(kind, Symbol::Semicolon) || is(kind, Symbol::RightBrace),
        Mode::Formula => false,
    }
}

/// Takes a token into the counts of the levels.
#[tactic(auto, unfolding(crate::specs::nesting::Nesting::with_token, crate::specs::nesting::Nesting::behind_token))]
fn take_token(mode: Mode, kind: &TokenKind, levels: &mut Vec<u64>) -> Result<(), NoMemory>
    requires some { 0 < length levels.old.items }
    requires few { nest.nesting levels.old.items ≤ 64 }
    ensures value { IfOk result (λ _. levels.new.items ≡ nest.with_token mode kind.now levels.old.items) }
{
    if opens(kind) {
        levels.push(0)?;
        return Ok(());
    }
    let last = levels.len() - 1;
    if closes(kind) {
        if last > 0 {
            levels.truncate(last);
        }
        return Ok(());
    }
    if counts(mode, kind) {
        levels[last] += 1;
    }
    Ok(())
}

/// Begins the innermost level anew behind a separator, where the statement doesn't go on.
#[tactic(auto, unfolding(crate::specs::nesting::Nesting::with_token, crate::specs::nesting::Nesting::behind_token))]
fn end_token(mode: Mode, kind: &TokenKind, goes_on: bool, levels: &mut Vec<u64>)
    requires some { 0 < length levels.old.items }
    ensures value { levels.new.items ≡ nest.behind_token mode kind.now goes_on levels.old.items }
{
    if separates(mode, kind) && !goes_on {
        let last = levels.len() - 1;
        levels[last] = 0;
    }
}

/// The nesting of these levels.
#[tactic(auto, using(std::proofs::lemmas::Grind::common_steps, crate::proofs::nesting::Bounds::partial_sum))]
fn nesting(levels: &[u64]) -> u64
    requires some { 0 < length levels.now }
    requires few { nest.nesting levels.now ≤ 65 }
    ensures { result ≡ nest.nesting levels.now }
{
    let mut total = 0;
    for count in levels {
        total += *count;
    }
    total + (levels.len() as u64 - 1)
}

/// Whether `else` stands there.
fn is_else(tokens: &[Token], at: usize) -> bool
    ensures { result ≡ nest.is_else (drop at tokens.now) }
{
    match tokens.get(at) {
        Some(token) => is(&token.kind, Symbol::Else),
        None => false,
    }
}

/// Whether `else` or `(` stands there.
fn continues(tokens: &[Token], at: usize) -> bool
    ensures { result ≡ nest.continues (drop at tokens.now) }
{
    match tokens.get(at) {
        Some(token) => { is(&token.kind, Symbol::Else) || is(&token.kind, Symbol::LeftParenthesis) }
        None => false,
    }
}

/// Whether a token ends a specification.
fn ends_specification(kind: &TokenKind) -> bool
    ensures { result ≡ nest.ends_specification kind.now }
{
    matches!(kind, TokenKind::SpecClose)
}

/// Whether `else` or `(` stands behind the end of the specification in which a token stands.
fn leads_on(tokens: &[Token], from: usize) -> bool
    ensures { result ≡ nest.leads_on (drop from tokens.now) }
{
    for at in from..tokens.len() {
        if ends_specification(&tokens[at].kind) {
            return continues(tokens, at + 1);
        }
    }
    false
}

/// The same of the next token, by what it is of a token: so each specification is looked through once.
fn leads_behind(tokens: &[Token], at: usize, leads: bool) -> bool
    requires at { at < length tokens.now }
    requires leads { leads ≡ nest.leads_on (drop at tokens.now) }
    ensures { result ≡ nest.leads_on (drop (at + 1) tokens.now) }
{
    if ends_specification(&tokens[at].kind) {
        leads_on(tokens, at + 1)
    } else {
        leads
    }
}

/// Whether the statement goes on behind a token, in front of the one there.
fn goes_on(mode: Mode, kind: &TokenKind, tokens: &[Token], at: usize, leads: bool) -> bool
    requires { leads ≡ nest.leads_on (drop at tokens.now) }
    ensures { result ≡ nest.goes_on mode kind.now (drop at tokens.now) }
{
    match mode {
        Mode::Specification => (is(kind, Symbol::Semicolon) && leads) || is_else(tokens, at),
        Mode::Code | Mode::Formula => is_else(tokens, at),
    }
}

/// The place of the first token whose nesting exceeds 64, where there is one: brackets and quotes are levels, and each level
/// counts its operators, dots, conditionals and loops since its last separator.
///
/// # Errors
/// Only for want of memory.
pub fn too_deep(alloc: Global, tokens: &[Token]) -> Result<Option<Place>, NoMemory>
    ensures found { IfOk result (λ found. IfSome found (λ p. IsFirstDeep tokens.now p)) }
    ensures none { IfOk result (λ found. IfNone found (AllShallow tokens.now)) }
{
    let found = first_deep(alloc, tokens)?;
    Ok(found)
}

/// The first token that is nested too deep.
fn first_deep(alloc: Global, tokens: &[Token]) -> Result<Option<Place>, NoMemory>
    ensures { IfOk result (λ found. found ≡ nest.first_deep (nest.nestings mode.Code (0 ∷ []) tokens.now) tokens.now) }
{
    let mut levels = Vec::new(alloc);
    levels.push(0)?;
    let mut mode = Mode::Code;
    let mut leads = leads_on(tokens, 0);
    let mut at = 0;
    'each: while at < tokens.len() {
        let token = &tokens[at];
        take_token(mode, &token.kind, &mut levels)?;
        if nesting(&levels) > 64 {
            return Ok(Some(token.place));
        }
        leads = leads_behind(tokens, at, leads);
        let continues = goes_on(mode, &token.kind, tokens, at + 1, leads);
        end_token(mode, &token.kind, continues, &mut levels);
        mode = mode.after(&token.kind);
        at += 1;
    }
    Ok(None)
}
