use jh_name::Row;

/// A set of objects.
#[derive(Drop)]
pub enum SetExpr {
    /// The set with this number.
    Var(u32),
    Empty,
    /// The set of all objects.
    All,
    /// The set of the object that is the element with this number.
    One(u32),
    Union(Box<SetExpr>, Box<SetExpr>),
    Inter(Box<SetExpr>, Box<SetExpr>),
    Diff(Box<SetExpr>, Box<SetExpr>),
    Compl(Box<SetExpr>),
}

/// A whole number, which has no bounds.
#[derive(Drop)]
pub enum Num {
    Const(i64),
    /// The number with this number.
    Var(u32),
    Add(Box<Num>, Box<Num>),
    Sub(Box<Num>, Box<Num>),
    Neg(Box<Num>),
    /// A constant times a number.
    Scale(i64, Box<Num>),
    /// How many objects are in a set.
    Card(Box<SetExpr>),
}

/// What may be true or false.
#[derive(Drop)]
pub enum Cond {
    True,
    False,
    /// The flag with this number.
    Flag(u32),
    /// Two elements are one object.
    SameElement(u32, u32),
    /// An element is in a set.
    In(u32, SetExpr),
    EqualSet(SetExpr, SetExpr),
    /// Each object of the first set is in the second.
    Within(SetExpr, SetExpr),
    EqualNum(Num, Num),
    LessNum(Num, Num),
    /// Some whole number times the constant is the number.
    Divides(i64, Num),
    Not(Box<Cond>),
    And(Box<Cond>, Box<Cond>),
    Or(Box<Cond>, Box<Cond>),
    Implies(Box<Cond>, Box<Cond>),
    Iff(Box<Cond>, Box<Cond>),
}

/// Whether the goal follows from the hypotheses, whatever sets, elements, numbers and flags there are.
/// Element 0 is null, and is always there.
#[derive(Drop)]
pub struct Query {
    /// How many sets there are.
    pub sets: u32,
    /// How many elements there are.
    pub elements: u32,
    /// How many numbers there are.
    pub numbers: u32,
    /// How many flags there are.
    pub flags: u32,
    pub hyps: Row<Cond>,
    pub goal: Cond,
}
