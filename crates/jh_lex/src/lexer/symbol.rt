ghost use Rattle.std.specs.Prelude.{◌≡◌};
ghost use Rattle.jh_lex.specs.lexer.Numbers.{symbol_number};
ghost use Rattle.jh_lex.specs.lexer.Symbols.{text_of};

/// A token whose text is fixed: a sign or a reserved word.
#[derive(Clone, Copy, PartialEq, Eq, Hash)]
pub enum Symbol {
    /// `{`
    LeftBrace,
    /// `}`
    RightBrace,
    /// `(`
    LeftParenthesis,
    /// `)`
    RightParenthesis,
    /// `[`
    LeftBracket,
    /// `]`
    RightBracket,
    /// `;`
    Semicolon,
    /// `,`
    Comma,
    /// `.`
    Dot,
    /// `..`
    DotDot,
    /// `:`
    Colon,
    /// `::`
    ColonColon,
    /// `:=`
    ColonEqual,
    /// `~:`
    TildeColon,
    /// `~=`
    TildeEqual,
    /// `~`
    Tilde,
    /// `=`
    Equal,
    /// `==`
    EqualEqual,
    /// `!=`
    BangEqual,
    /// `<`
    Less,
    /// `<=`
    LessEqual,
    /// `>`
    Greater,
    /// `>=`
    GreaterEqual,
    /// `+`
    Plus,
    /// `-`
    Minus,
    /// `*`
    Star,
    /// `%`
    Percent,
    /// `&`
    Ampersand,
    /// `&&`
    AmpersandAmpersand,
    /// `|`
    Bar,
    /// `||`
    BarBar,
    /// `!`
    Bang,
    /// `-->`
    Arrow,
    /// `class`
    Class,
    /// `public`
    Public,
    /// `private`
    Private,
    /// `protected`
    Protected,
    /// `static`
    Static,
    /// `final`
    Final,
    /// `void`
    Void,
    /// `int`
    Int,
    /// `boolean`
    Boolean,
    /// `null`
    Null,
    /// `true`
    True,
    /// `false`
    False,
    /// `this`
    This,
    /// `if`
    If,
    /// `else`
    Else,
    /// `while`
    While,
    /// `return`
    Return,
    /// `new`
    New,
    /// `specvar`
    Specvar,
    /// `ghost`
    Ghost,
    /// `vardefs`
    Vardefs,
    /// `invariant`
    Invariant,
    /// `requires`
    Requires,
    /// `modifies`
    Modifies,
    /// `ensures`
    Ensures,
    /// `inv`
    Inv,
    /// `assert`
    Assert,
    /// `note`
    Note,
    /// `from`
    From,
    /// `claimedby`
    ClaimedBy,
    /// `ALL`
    All,
    /// `EX`
    Ex,
    /// `old`
    Old,
    /// `card`
    Card,
    /// `tree`
    Tree,
    /// `rtrancl_pt`
    RtranclPt,
    /// `Un`
    Union,
    /// `Int`
    Intersection,
    /// `dvd`
    Dvd,
    /// `UNIV`
    Univ,
    /// `True`
    TrueFormula,
    /// `False`
    FalseFormula,
}

impl Symbol {
    /// Its number, from 0, in the order of the declaration: two symbols are the same where their numbers are.
    pub fn number(self) -> u8
        ensures { result ≡ symbol_number self }
    {
        self as u8
    }

    /// The text.
    pub fn text(self) -> &'static str
        ensures { result.now ≡ text_of self }
    {
        match self {
            Symbol::LeftBrace => "{",
            Symbol::RightBrace => "}",
            Symbol::LeftParenthesis => "(",
            Symbol::RightParenthesis => ")",
            Symbol::LeftBracket => "[",
            Symbol::RightBracket => "]",
            Symbol::Semicolon => ";",
            Symbol::Comma => ",",
            Symbol::Dot => ".",
            Symbol::DotDot => "..",
            Symbol::Colon => ":",
            Symbol::ColonColon => "::",
            Symbol::ColonEqual => ":=",
            Symbol::TildeColon => "~:",
            Symbol::TildeEqual => "~=",
            Symbol::Tilde => "~",
            Symbol::Equal => "=",
            Symbol::EqualEqual => "==",
            Symbol::BangEqual => "!=",
            Symbol::Less => "<",
            Symbol::LessEqual => "<=",
            Symbol::Greater => ">",
            Symbol::GreaterEqual => ">=",
            Symbol::Plus => "+",
            Symbol::Minus => "-",
            Symbol::Star => "*",
            Symbol::Percent => "%",
            Symbol::Ampersand => "&",
            Symbol::AmpersandAmpersand => "&&",
            Symbol::Bar => "|",
            Symbol::BarBar => "||",
            Symbol::Bang => "!",
            Symbol::Arrow => "-->",
            Symbol::Class => "class",
            Symbol::Public => "public",
            Symbol::Private => "private",
            Symbol::Protected => "protected",
            Symbol::Static => "static",
            Symbol::Final => "final",
            Symbol::Void => "void",
            Symbol::Int => "int",
            Symbol::Boolean => "boolean",
            Symbol::Null => "null",
            Symbol::True => "true",
            Symbol::False => "false",
            Symbol::This => "this",
            Symbol::If => "if",
            Symbol::Else => "else",
            Symbol::While => "while",
            Symbol::Return => "return",
            Symbol::New => "new",
            Symbol::Specvar => "specvar",
            Symbol::Ghost => "ghost",
            Symbol::Vardefs => "vardefs",
            Symbol::Invariant => "invariant",
            Symbol::Requires => "requires",
            Symbol::Modifies => "modifies",
            Symbol::Ensures => "ensures",
            Symbol::Inv => "inv",
            Symbol::Assert => "assert",
            Symbol::Note => "note",
            Symbol::From => "from",
            Symbol::ClaimedBy => "claimedby",
            Symbol::All => "ALL",
            Symbol::Ex => "EX",
            Symbol::Old => "old",
            Symbol::Card => "card",
            Symbol::Tree => "tree",
            Symbol::RtranclPt => "rtrancl_pt",
            Symbol::Union => "Un",
            Symbol::Intersection => "Int",
            Symbol::Dvd => "dvd",
            Symbol::Univ => "UNIV",
            Symbol::TrueFormula => "True",
            Symbol::FalseFormula => "False",
        }
    }
}
