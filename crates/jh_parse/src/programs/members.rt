//! Members of a class.
ghost use Rattle.std.specs.Prelude.{◌≡◌, ◌+◌, ◌≤◌, ◌<◌, length, suc, IfOk};
ghost use Rattle.jh_operators.specs.lookahead.Answers.{Gives, IsWithin};
ghost use Rattle.jh_parse.specs.programs.MemberReading as read;
ghost use Rattle.jh_parse.specs.programs.MemberReads.{GivesMember, GivesMembers, draft_tree};

use crate::programs::draft::Draft;
use crate::programs::fields::fields;
use crate::programs::methods::method;
use crate::statements::typed;
use jh_ast::JType;
use jh_lex::lexer::{Symbol, Token};
use jh_operators::lookahead::{ReadError, has, is_spec_open, is_symbol, modifiers};
use jh_spec::parser::items_part;
use std::alloc::Global;

/// A method with these modifiers and this result, whose name stands at a place.
#[tactic(auto, unfolding(crate::specs::programs::MemberReading::methods_at, jh_operators::specs::lookahead::Choices::and_then))]
fn method_member(
    alloc: Global,
    tokens: &[Token],
    draft: &mut Draft,
    public: bool,
    fixed: bool,
    answer: JType,
    number: u32,
    at: usize,
) -> Result<(usize, u32), ReadError>
    requires { at ≤ length tokens.now }
    ensures value { GivesMember (draft_tree draft.old) (draft_tree draft.new) (read.methods_at tokens.now (record { is_public = public; fixed = fixed; jtype = answer }) number at) result }
    ensures within { IfOk result (λ read. IsWithin (length tokens.now) at read.0) }
{
    let (one, next, number) = method(alloc, tokens, public, fixed, answer, number, at)?;
    draft.methods.push(one)?;
    Ok((next, number))
}

/// Fields or a method with these modifiers, whose type stands at a place.
#[tactic(auto, unfolding(crate::specs::programs::MemberReading::typed_at, jh_operators::specs::lookahead::Choices::and_then, jh_operators::specs::lookahead::Choices::choose))]
fn typed_member(
    alloc: Global,
    tokens: &[Token],
    draft: &mut Draft,
    public: bool,
    fixed: bool,
    number: u32,
    at: usize,
) -> Result<(usize, u32), ReadError>
    requires { at ≤ length tokens.now }
    ensures value { GivesMember (draft_tree draft.old) (draft_tree draft.new) (read.typed_at tokens.now public fixed number at) result }
    ensures within { IfOk result (λ read. IsWithin (length tokens.now) at read.0) }
{
    let (jtype, next) = typed(alloc, tokens, at)?;
    if is_symbol(tokens, next + 1, Symbol::LeftParenthesis) {
        return method_member(alloc, tokens, draft, public, fixed, jtype, number, next);
    }
    let (mut made, next) = fields(alloc, tokens, &jtype, fixed, next)?;
    draft.fields.append(&mut made)?;
    Ok((next, number))
}

/// The modifiers before a member: whether it is public and whether it is static.
#[tactic(auto, unfolding(crate::specs::programs::MemberReading::flags_at, jh_operators::specs::lookahead::Choices::and_then))]
fn flags(alloc: Global, tokens: &[Token], at: usize) -> Result<((bool, bool), usize), ReadError>
    requires { at ≤ length tokens.now }
    ensures value { Gives (λ read. read) (read.flags_at tokens.now at) result }
    ensures within { IfOk result (λ read. (at ≤ read.1) × (read.1 ≤ length tokens.now)) }
{
    let allowed = [
        Symbol::Public,
        Symbol::Private,
        Symbol::Protected,
        Symbol::Static,
        Symbol::Final,
    ];
    let mut seen = Vec::new(alloc);
    let next = modifiers(tokens, &allowed, tokens.len() + 1, &mut seen, at)?;
    Ok((
        (has(&seen, Symbol::Public), has(&seen, Symbol::Static)),
        next,
    ))
}

/// Fields or a method.
#[tactic(auto, unfolding(crate::specs::programs::MemberReading::modified_at, jh_operators::specs::lookahead::Choices::and_then, jh_operators::specs::lookahead::Choices::choose))]
fn modified_member(
    alloc: Global,
    tokens: &[Token],
    draft: &mut Draft,
    number: u32,
    at: usize,
) -> Result<(usize, u32), ReadError>
    requires { at ≤ length tokens.now }
    ensures value { GivesMember (draft_tree draft.old) (draft_tree draft.new) (read.modified_at tokens.now number at) result }
    ensures within { IfOk result (λ read. IsWithin (length tokens.now) at read.0) }
{
    let ((public, fixed), next) = flags(alloc, tokens, at)?;
    if is_symbol(tokens, next, Symbol::Void) {
        return method_member(
            alloc,
            tokens,
            draft,
            public,
            fixed,
            JType::Void,
            number,
            next + 1,
        );
    }
    typed_member(alloc, tokens, draft, public, fixed, number, next)
}

/// What a specification among the members declares.
#[tactic(auto, unfolding(crate::specs::programs::MemberReading::declares_at, jh_operators::specs::lookahead::Choices::and_then))]
fn items_member(
    alloc: Global,
    tokens: &[Token],
    draft: &mut Draft,
    number: u32,
    at: usize,
) -> Result<(usize, u32), ReadError>
    requires { at < length tokens.now }
    ensures value { GivesMember (draft_tree draft.old) (draft_tree draft.new) (read.declares_at tokens.now number at) result }
    ensures within { IfOk result (λ read. IsWithin (length tokens.now) at read.0) }
{
    let (items, next, number) = items_part(alloc, tokens, number, at + 1)?;
    draft.add_items(items)?;
    Ok((next + 1, number))
}

/// A member of a class.
#[tactic(auto, unfolding(crate::specs::programs::MemberReading::member_at, jh_operators::specs::lookahead::Choices::choose))]
fn member(
    alloc: Global,
    tokens: &[Token],
    draft: &mut Draft,
    number: u32,
    at: usize,
) -> Result<(usize, u32), ReadError>
    requires { at ≤ length tokens.now }
    ensures value { GivesMember (draft_tree draft.old) (draft_tree draft.new) (read.member_at tokens.now number at) result }
    ensures within { IfOk result (λ read. IsWithin (length tokens.now) at read.0) }
{
    if is_spec_open(tokens, at) {
        return items_member(alloc, tokens, draft, number, at);
    }
    modified_member(alloc, tokens, draft, number, at)
}

/// The members of a class, up to its closing brace.
pub(crate) fn members(
    alloc: Global,
    tokens: &[Token],
    draft: &mut Draft,
    number: u32,
    from: usize,
) -> Result<(usize, u32), ReadError>
    requires { from ≤ length tokens.now }
    ensures value { GivesMembers (draft_tree draft.old) (draft_tree draft.new) (read.members_at tokens.now number from) result }
    ensures within { IfOk result (λ read. (from ≤ read.0) × (read.0 < length tokens.now)) }
{
    let mut at = from;
    let mut after = number;
    let mut turns = tokens.len();
    'each: while !is_symbol(tokens, at, Symbol::RightBrace) {
        if turns == 0 {
            return Err(ReadError::Refused(at));
        }
        let (next, number) = member(alloc, tokens, draft, after, at)?;
        at = next;
        after = number;
        turns -= 1;
    }
    Ok((at, after))
}
