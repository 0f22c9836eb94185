ghost use Rattle.std.specs.Prelude.{◌≡◌};
ghost use Rattle.jh_lex.specs.lexer.Symbols.{signs, reserved};

use crate::lexer::{Mode, Symbol};

static CODE_SIGNS: [Symbol; 20] = [
    Symbol::LeftBrace,
    Symbol::RightBrace,
    Symbol::LeftParenthesis,
    Symbol::RightParenthesis,
    Symbol::Semicolon,
    Symbol::Comma,
    Symbol::Dot,
    Symbol::Equal,
    Symbol::EqualEqual,
    Symbol::BangEqual,
    Symbol::Less,
    Symbol::LessEqual,
    Symbol::Greater,
    Symbol::GreaterEqual,
    Symbol::Plus,
    Symbol::Minus,
    Symbol::Star,
    Symbol::AmpersandAmpersand,
    Symbol::BarBar,
    Symbol::Bang,
];

static SPECIFICATION_SIGNS: [Symbol; 6] = [
    Symbol::Semicolon,
    Symbol::Comma,
    Symbol::Colon,
    Symbol::ColonColon,
    Symbol::Equal,
    Symbol::ColonEqual,
];

static FORMULA_SIGNS: [Symbol; 27] = [
    Symbol::DotDot,
    Symbol::Dot,
    Symbol::Comma,
    Symbol::Colon,
    Symbol::ColonColon,
    Symbol::TildeColon,
    Symbol::TildeEqual,
    Symbol::Equal,
    Symbol::EqualEqual,
    Symbol::Less,
    Symbol::LessEqual,
    Symbol::Greater,
    Symbol::GreaterEqual,
    Symbol::Arrow,
    Symbol::Ampersand,
    Symbol::Bar,
    Symbol::Tilde,
    Symbol::Plus,
    Symbol::Minus,
    Symbol::Star,
    Symbol::Percent,
    Symbol::LeftParenthesis,
    Symbol::RightParenthesis,
    Symbol::LeftBrace,
    Symbol::RightBrace,
    Symbol::LeftBracket,
    Symbol::RightBracket,
];

static CODE_WORDS: [Symbol; 18] = [
    Symbol::Class,
    Symbol::Public,
    Symbol::Private,
    Symbol::Protected,
    Symbol::Static,
    Symbol::Final,
    Symbol::Void,
    Symbol::Int,
    Symbol::Boolean,
    Symbol::Null,
    Symbol::True,
    Symbol::False,
    Symbol::This,
    Symbol::If,
    Symbol::Else,
    Symbol::While,
    Symbol::Return,
    Symbol::New,
];

static SPECIFICATION_WORDS: [Symbol; 30] = [
    Symbol::Class,
    Symbol::Public,
    Symbol::Private,
    Symbol::Protected,
    Symbol::Static,
    Symbol::Final,
    Symbol::Void,
    Symbol::Int,
    Symbol::Boolean,
    Symbol::Null,
    Symbol::True,
    Symbol::False,
    Symbol::This,
    Symbol::If,
    Symbol::Else,
    Symbol::While,
    Symbol::Return,
    Symbol::New,
    Symbol::Specvar,
    Symbol::Ghost,
    Symbol::Vardefs,
    Symbol::Invariant,
    Symbol::Requires,
    Symbol::Modifies,
    Symbol::Ensures,
    Symbol::Inv,
    Symbol::Assert,
    Symbol::Note,
    Symbol::From,
    Symbol::ClaimedBy,
];

static FORMULA_WORDS: [Symbol; 13] = [
    Symbol::All,
    Symbol::Ex,
    Symbol::Old,
    Symbol::Card,
    Symbol::Tree,
    Symbol::RtranclPt,
    Symbol::Union,
    Symbol::Intersection,
    Symbol::Dvd,
    Symbol::Univ,
    Symbol::Null,
    Symbol::TrueFormula,
    Symbol::FalseFormula,
];

/// The signs of a mode.
pub(crate) fn signs(mode: Mode) -> &'static [Symbol]
    ensures { result.now ≡ signs mode }
{
    match mode {
        Mode::Code => &CODE_SIGNS,
        Mode::Specification => &SPECIFICATION_SIGNS,
        Mode::Formula => &FORMULA_SIGNS,
    }
}

/// The reserved words of a mode.
pub(crate) fn reserved(mode: Mode) -> &'static [Symbol]
    ensures { result.now ≡ reserved mode }
{
    match mode {
        Mode::Code => &CODE_WORDS,
        Mode::Specification => &SPECIFICATION_WORDS,
        Mode::Formula => &FORMULA_WORDS,
    }
}
