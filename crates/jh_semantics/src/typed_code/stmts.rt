use crate::typed_code::code::{AnyCode, ObjectCode, TruthCode};
use jh_name::{Name, Place, Row, Text};
use jh_rules::Ty;

/// A parameter or a local, with its type.
#[derive(Drop)]
pub struct Local {
    pub name: Name,
    pub ty: Ty,
}

/// Where a value goes: nowhere, to a local that is declared here, to another local or a static, or to a field of an
/// object, with the place of the object's first token.
#[derive(Drop)]
pub enum Target {
    Nowhere,
    New(Local),
    Name(Name),
    Field(Name, ObjectCode, Place),
}

/// A formula of a contract, an invariant, an assert or a note, by its number in the source: with the place of its opening
/// quote, its label and the names of the facts that it follows from.
#[derive(Drop)]
pub struct Claim {
    pub label: Option<Name>,
    pub place: Place,
    pub from: Row<Name>,
    pub number: u32,
}

/// A call, by the class of its method and the method's own name. `place` is that of the statement, `receiver_place` that
/// of the receiver where there is one.
#[derive(Drop)]
pub struct CallCode {
    pub place: Place,
    pub target: Target,
    pub receiver: Option<ObjectCode>,
    pub receiver_place: Place,
    pub class: usize,
    pub method: Text,
    pub args: Row<AnyCode>,
}

/// A statement.
#[cycle(code)]
#[derive(Drop)]
pub enum Code {
    Empty,
    Block(Row<Code>),
    Assign(Target, AnyCode),
    /// A new object of a class.
    New(Place, Target, Name),
    Call(CallCode),
    /// The second part is one statement or none.
    Branch(Place, TruthCode, Box<Code>, Row<Code>),
    Loop(Place, Row<Claim>, TruthCode, Box<Code>),
    Return(Option<AnyCode>),
    Assert(Claim),
    Note(Claim),
    /// A ghost assignment: the places and the numbers of the formulas on its left and on its right.
    Ghost(Place, u32, Place, u32),
}

/// A method: `this` is the class of its receiver, where it is not static.
#[derive(Drop)]
pub struct MethodCode {
    pub place: Place,
    pub is_public: bool,
    pub this: Option<usize>,
    pub params: Row<Local>,
    pub result: Ty,
    pub pre: Option<Claim>,
    pub post: Option<Claim>,
    pub body: Row<Code>,
}
