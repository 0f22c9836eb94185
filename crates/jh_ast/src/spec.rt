use crate::Word;
use jh_name::{Place, Row};

/// A formula of a specification as it is written, at the place of its first token. What stands in
/// brackets is the inside, at the place of the bracket.
#[cycle(spec)]
#[derive(Drop)]
pub struct SpecTree {
    pub place: Place,
    pub body: SpecBody,
}

/// What a formula, a term or a set is. Their sorts are told apart by the type rules alone.
#[cycle(spec)]
#[derive(Drop)]
pub enum SpecBody {
    /// `null`
    Null,
    /// `True`
    True,
    /// `False`
    False,
    /// `UNIV`, the set of all objects.
    Univ,
    /// A literal, which is never below 0.
    Number(i64),
    /// A word, plain or qualified.
    Name(Word),
    /// `x..f`
    Member(Box<SpecTree>, Word),
    /// `~ F`
    Not(Box<SpecTree>),
    /// `- t`: a negated number, or the complement of a set.
    Minus(Box<SpecTree>),
    /// `old t`, the value at the method's entry.
    Old(Box<SpecTree>),
    /// `card S`, the number of members.
    Card(Box<SpecTree>),
    /// Two operands with an operator between them.
    Binary(SpecOp, Box<SpecTree>, Box<SpecTree>),
    /// `k dvd t`: k times some whole number is t.
    Dvd(i64, Box<SpecTree>),
    /// `ALL x y. F`
    All(Row<Word>, Box<SpecTree>),
    /// `EX x y. F`
    Ex(Row<Word>, Box<SpecTree>),
    /// `tree [f, g]`
    Tree(Row<Word>),
    /// `rtrancl_pt (% u v. F) a b`: the two words, F, a and b.
    Rtrancl(Word, Word, Box<SpecTree>, Box<SpecTree>, Box<SpecTree>),
    /// `{a, b}`, and `{}` where there are none.
    Braces(Row<SpecTree>),
    /// `{x. F}`
    Compr(Word, Box<SpecTree>),
}

/// An operator between two operands in a formula.
#[derive(Clone, Copy, PartialEq, Eq)]
pub enum SpecOp {
    /// `-->`
    Implies,
    /// `|`
    Or,
    /// `&`
    And,
    /// `=`
    Equal,
    /// `~=`
    NotEqual,
    /// `:`
    Elem,
    /// `~:`
    NotElem,
    /// `<`
    Less,
    /// `<=`
    LessEq,
    /// `>`
    Greater,
    /// `>=`
    GreaterEq,
    /// `Un`
    Union,
    /// `Int`
    Inter,
    /// `+`
    Add,
    /// `-`
    Sub,
    /// `*`
    Mul,
}

/// A formula of the file: the place of its opening quote, its number, counted from 0 in the order of the
/// text, and what it says. The left side of a ghost assignment has a number too, and where it has no
/// quotes the place of its word.
#[derive(Drop)]
pub struct Spec {
    pub place: Place,
    pub number: u32,
    pub body: SpecTree,
}

/// A formula with its label, where it has one, and the names of the facts that it is to follow from.
#[derive(Drop)]
pub struct Labelled {
    pub name: Option<Word>,
    pub body: Spec,
    pub from: Row<Word>,
}
