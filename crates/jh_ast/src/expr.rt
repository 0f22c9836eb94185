use crate::Word;
use jh_name::Place;

/// An expression of code, at the place of its first token. What stands in brackets is the inside,
/// at the place of the bracket.
#[cycle(expr)]
#[derive(Drop)]
pub struct Expr {
    pub place: Place,
    pub body: ExprBody,
}

/// What an expression is.
#[cycle(expr)]
#[derive(Drop)]
pub enum ExprBody {
    /// `null`
    Null,
    /// `true`
    True,
    /// `false`
    False,
    /// A literal, which is never below 0.
    Number(i64),
    /// `this`
    This,
    /// A word: a local, a parameter, a static, a field of `this` or a class.
    Name(Word),
    /// `e.f`
    Member(Box<Expr>, Word),
    /// `!e`
    Not(Box<Expr>),
    /// `-e`
    Minus(Box<Expr>),
    /// Two operands with an operator between them.
    Binary(Op, Box<Expr>, Box<Expr>),
}

/// An operator between two operands in code.
#[derive(Clone, Copy, PartialEq, Eq)]
pub enum Op {
    /// `||`
    Or,
    /// `&&`
    And,
    /// `==`
    Equal,
    /// `!=`
    NotEqual,
    /// `<`
    Less,
    /// `<=`
    LessEq,
    /// `>`
    Greater,
    /// `>=`
    GreaterEq,
    /// `+`
    Add,
    /// `-`
    Sub,
    /// `*`
    Mul,
}
