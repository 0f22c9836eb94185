#![tactic(auto, unfolding(crate::specs::flattening::Plain::flat, crate::specs::flattening::Plain::update_operation))]

ghost use Rattle.std.specs.Prelude.{◌≡◌};
ghost use Rattle.jh_cong.specs.flattening.Plain.{flat, update_operation};

use jh_arena::table::Shape;
use jh_name::Sort;

// The numbers of the operations.
pub(crate) const READ_OBJECT: usize = 0;

pub(crate) const READ_NUMBER: usize = 1;

pub(crate) const ADD: usize = 2;

pub(crate) const SUB: usize = 3;

pub(crate) const NEG: usize = 4;

pub(crate) const SCALE: usize = 5;

pub(crate) const CARD: usize = 6;

pub(crate) const READ_SET: usize = 7;

pub(crate) const SINGLE: usize = 8;

pub(crate) const UNION: usize = 9;

pub(crate) const INTER: usize = 10;

pub(crate) const DIFF: usize = 11;

pub(crate) const COMPL: usize = 12;

pub(crate) const COMPR: usize = 13;

pub(crate) const UPDATE_OBJECT: usize = 14;

pub(crate) const UPDATE_NUMBER: usize = 15;

pub(crate) const UPDATE_TRUTH: usize = 16;

pub(crate) const UPDATE_SET: usize = 17;

pub(crate) const UPDATE_FIELD: usize = 18;

pub(crate) const READ_TRUTH: usize = 19;

pub(crate) const NEGATION: usize = 20;

pub(crate) const AND: usize = 21;

pub(crate) const OR: usize = 22;

pub(crate) const IMPLIES: usize = 23;

pub(crate) const IFF: usize = 24;

pub(crate) const ALL: usize = 25;

pub(crate) const EX: usize = 26;

pub(crate) const EQ_OBJECT: usize = 27;

pub(crate) const EQ_NUMBER: usize = 28;

pub(crate) const EQ_SET: usize = 29;

pub(crate) const LESS: usize = 30;

pub(crate) const LESS_EQUAL: usize = 31;

pub(crate) const DIVIDES: usize = 32;

pub(crate) const MEMBER: usize = 33;

pub(crate) const SUBSET: usize = 34;

pub(crate) const REACH: usize = 35;

pub(crate) const TREE: usize = 36;

pub(crate) const PAIR: usize = 37;

pub(crate) const CONS: usize = 38;

pub(crate) const OWN: usize = 39;

/// What is made of a shape: a node without parts; an operation of one or of two parts; an operation with a number; an
/// update; a question whether a path leads from one node to another; one over a list of fields alone; or the part itself,
/// for a label.
#[derive(Clone, Copy)]
pub(crate) enum Flat {
    Leaf,
    Unary(usize, usize),
    Binary(usize, usize, usize),
    Scaled(usize, i64, usize),
    Updated(usize, usize, usize),
    Reaches(usize, usize),
    Listed,
    Same(usize),
}

/// What is made of a shape.
pub(crate) fn flat_of(shape: Shape) -> Flat
    ensures { result ≡ flat shape }
{
    match shape {
        Shape::Bound(_) => Flat::Leaf,
        Shape::FreeObject(_) => Flat::Leaf,
        Shape::Null => Flat::Leaf,
        Shape::ReadObject(a, b) => Flat::Binary(READ_OBJECT, a, b),
        Shape::Const(_) => Flat::Leaf,
        Shape::FreeNumber(_) => Flat::Leaf,
        Shape::ReadNumber(a, b) => Flat::Binary(READ_NUMBER, a, b),
        Shape::Add(a, b) => Flat::Binary(ADD, a, b),
        Shape::Sub(a, b) => Flat::Binary(SUB, a, b),
        Shape::Neg(a) => Flat::Unary(NEG, a),
        Shape::Scale(number, a) => Flat::Scaled(SCALE, number, a),
        Shape::Card(a) => Flat::Unary(CARD, a),
        Shape::FreeSet(_) => Flat::Leaf,
        Shape::ReadSet(a, b) => Flat::Binary(READ_SET, a, b),
        Shape::Empty => Flat::Leaf,
        Shape::Univ => Flat::Leaf,
        Shape::Single(a) => Flat::Unary(SINGLE, a),
        Shape::Union(a, b) => Flat::Binary(UNION, a, b),
        Shape::Inter(a, b) => Flat::Binary(INTER, a, b),
        Shape::Diff(a, b) => Flat::Binary(DIFF, a, b),
        Shape::Compl(a) => Flat::Unary(COMPL, a),
        Shape::Compr(a) => Flat::Unary(COMPR, a),
        Shape::FreeField(_) => Flat::Leaf,
        Shape::Update(a, b, c) => Flat::Updated(a, b, c),
        Shape::True => Flat::Leaf,
        Shape::False => Flat::Leaf,
        Shape::FreeTruth(_) => Flat::Leaf,
        Shape::ReadTruth(a, b) => Flat::Binary(READ_TRUTH, a, b),
        Shape::Negation(a) => Flat::Unary(NEGATION, a),
        Shape::And(a, b) => Flat::Binary(AND, a, b),
        Shape::Or(a, b) => Flat::Binary(OR, a, b),
        Shape::Implies(a, b) => Flat::Binary(IMPLIES, a, b),
        Shape::Iff(a, b) => Flat::Binary(IFF, a, b),
        Shape::All(a) => Flat::Unary(ALL, a),
        Shape::Ex(a) => Flat::Unary(EX, a),
        Shape::EqObject(a, b) => Flat::Binary(EQ_OBJECT, a, b),
        Shape::EqNumber(a, b) => Flat::Binary(EQ_NUMBER, a, b),
        Shape::EqSet(a, b) => Flat::Binary(EQ_SET, a, b),
        Shape::Less(a, b) => Flat::Binary(LESS, a, b),
        Shape::LessEqual(a, b) => Flat::Binary(LESS_EQUAL, a, b),
        Shape::Divides(number, a) => Flat::Scaled(DIVIDES, number, a),
        Shape::Member(a, b) => Flat::Binary(MEMBER, a, b),
        Shape::Subset(a, b) => Flat::Binary(SUBSET, a, b),
        Shape::Reach(_, a, b) => Flat::Reaches(a, b),
        Shape::Tree(_) => Flat::Listed,
        Shape::Mark(_, a) => Flat::Same(a),
    }
}

/// The operation of an update, by the sort of what is stored.
pub(crate) fn update_of(sort: Sort) -> usize
    ensures { result ≡ update_operation sort }
{
    match sort {
        Sort::Obj => UPDATE_OBJECT,
        Sort::Int => UPDATE_NUMBER,
        Sort::Bool => UPDATE_TRUTH,
        Sort::Set => UPDATE_SET,
        Sort::Field => UPDATE_FIELD,
    }
}
