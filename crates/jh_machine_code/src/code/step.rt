use crate::code::destination::Destination;
use jh_name::{Place, Row};
use jh_operands::{AnyExpr, ObjectExpr, TruthExpr};

/// A call: the receiver with the place of its first token, the method by its number, where there is such a method, and
/// the arguments.
#[derive(Drop)]
pub struct CallStep {
    pub destination: Destination,
    pub receiver: Option<ObjectExpr>,
    pub receiver_place: Place,
    pub method: Option<usize>,
    pub args: Row<AnyExpr>,
}

/// A ghost assignment to a field: the places of both sides, the numbers of the class and of the field, and the nodes of
/// the object and of the value.
#[derive(Clone, Copy)]
pub struct GhostField {
    pub left: Place,
    pub class: usize,
    pub field: usize,
    pub object: usize,
    pub right: Place,
    pub value: usize,
}

/// A statement.
#[cycle(step)]
#[derive(Drop)]
pub enum Step {
    Empty,
    Block(Row<Step>),
    Assign(Destination, AnyExpr),
    /// A new object, which joins the set of a class. The place is that of the statement.
    New(Place, Destination, usize),
    Call(CallStep),
    /// The second part is one statement or none.
    Branch(TruthExpr, Box<Step>, Row<Step>),
    Loop(TruthExpr, Box<Step>),
    Return(Option<AnyExpr>),
    /// A formula of an assert or a note, by its node, with the place of its opening quote.
    Ask(Place, usize),
    /// A ghost variable gets the value of a node, whose formula begins at a place.
    Ghost(usize, Place, usize),
    /// A ghost variable of the object of a node gets the value of another, where the object is in the set of a class.
    GhostAt(GhostField),
}
