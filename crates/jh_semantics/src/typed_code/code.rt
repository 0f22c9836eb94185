use jh_name::{Name, Place};

/// An expression whose value is an object. A name is that of a parameter, a local or a static; a read has its field, its
/// receiver, and the place of the receiver's first token.
#[cycle(object_code)]
#[derive(Drop)]
pub enum ObjectCode {
    Null,
    This,
    Name(Name),
    Read(Name, Box<ObjectCode>, Place),
}

/// An expression whose value is a number. Arithmetic has the place of its own first token.
#[cycle(number_code)]
#[derive(Drop)]
pub enum NumberCode {
    Const(i64),
    Name(Name),
    Read(Name, ObjectCode, Place),
    Add(Place, Box<NumberCode>, Box<NumberCode>),
    Sub(Place, Box<NumberCode>, Box<NumberCode>),
    Minus(Place, Box<NumberCode>),
    Times(Place, i64, Box<NumberCode>),
}

/// An expression whose value is a truth.
#[cycle(truth_code)]
#[derive(Drop)]
pub enum TruthCode {
    Literal(bool),
    Name(Name),
    Read(Name, ObjectCode, Place),
    Not(Box<TruthCode>),
    And(Box<TruthCode>, Box<TruthCode>),
    Or(Box<TruthCode>, Box<TruthCode>),
    SameObject(ObjectCode, ObjectCode),
    SameNumber(NumberCode, NumberCode),
    SameTruth(Box<TruthCode>, Box<TruthCode>),
    Less(NumberCode, NumberCode),
    LessEq(NumberCode, NumberCode),
    Greater(NumberCode, NumberCode),
    GreaterEq(NumberCode, NumberCode),
}

/// An expression of code, by the type of its values.
#[derive(Drop)]
pub enum AnyCode {
    Object(ObjectCode),
    Number(NumberCode),
    Truth(TruthCode),
}
