use jh_name::Place;

/// An expression whose value is an object. A name is that of a parameter, a local or a static, and stands by its number in
/// a run, as `this` does; a read has its field, its receiver, and the place of the receiver's first token.
#[cycle(object_expr)]
#[derive(Drop)]
pub enum ObjectExpr {
    Null,
    This(usize),
    Name(usize),
    Read(usize, Box<ObjectExpr>, Place),
}

/// An expression whose value is a number. Arithmetic has the place of its own first token.
#[cycle(number_expr)]
#[derive(Drop)]
pub enum NumberExpr {
    Const(i64),
    Name(usize),
    Read(usize, ObjectExpr, Place),
    Add(Place, Box<NumberExpr>, Box<NumberExpr>),
    Sub(Place, Box<NumberExpr>, Box<NumberExpr>),
    Minus(Place, Box<NumberExpr>),
    Times(Place, i64, Box<NumberExpr>),
}

/// An expression whose value is a truth.
#[cycle(truth_expr)]
#[derive(Drop)]
pub enum TruthExpr {
    Literal(bool),
    Name(usize),
    Read(usize, ObjectExpr, Place),
    Not(Box<TruthExpr>),
    And(Box<TruthExpr>, Box<TruthExpr>),
    Or(Box<TruthExpr>, Box<TruthExpr>),
    SameObject(ObjectExpr, ObjectExpr),
    SameNumber(NumberExpr, NumberExpr),
    SameTruth(Box<TruthExpr>, Box<TruthExpr>),
    Less(NumberExpr, NumberExpr),
    LessEq(NumberExpr, NumberExpr),
    Greater(NumberExpr, NumberExpr),
    GreaterEq(NumberExpr, NumberExpr),
}

/// An expression of code, by the type of its values.
#[derive(Drop)]
pub enum AnyExpr {
    Object(ObjectExpr),
    Number(NumberExpr),
    Truth(TruthExpr),
}
