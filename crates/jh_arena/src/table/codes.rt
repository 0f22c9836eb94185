// Written by tools/table.py.
#![tactic(auto, unfolding(crate::specs::table::Codes::code_of))]

ghost use Rattle.std.specs.Prelude.{◌≡◌, ◌++◌, fold};
ghost use Rattle.jh_arena.specs.table.Codes.{code, code_of, code_input, same_code, same_numbers};

use crate::table::Shape;
use std::hash::{Hash, Hasher};

/// A shape as numbers alone: which constructor it is, its constant, and its other arguments in their order. What it
/// has none of is 0.
#[derive(Clone, Copy)]
pub(crate) struct Code {
    kind: u8,
    constant: i64,
    first: usize,
    second: usize,
    third: usize,
}

fn coded(kind: u8, constant: i64, first: usize, second: usize, third: usize) -> Code
    ensures { result ≡ code kind constant first second third }
{
    Code {
        kind,
        constant,
        first,
        second,
        third,
    }
}

impl Code {
    fn has_numbers_of(self, other: Code) -> bool
        ensures { result ≡ same_numbers self other }
    {
        self.first == other.first && self.second == other.second && self.third == other.third
    }

    /// Whether it is the code of the same shape.
    pub(crate) fn is(self, other: Code) -> bool
        ensures { result ≡ same_code self other }
    {
        self.kind == other.kind && self.constant == other.constant && self.has_numbers_of(other)
    }

    /// Gives its numbers to a hash.
    pub(crate) fn feed<H: Hasher>(self, state: &mut H)
        ensures { state.new ≡ fold H.write state.old (code_input self) }
    {
        self.kind.hash(state);
        self.constant.hash(state);
        self.first.hash(state);
        self.second.hash(state);
        self.third.hash(state);
    }
}

impl Shape {
    /// The shape as numbers.
    pub(crate) fn code(self) -> Code
        ensures { result ≡ code_of self }
    {
        match self {
            Shape::Bound(number) => coded(0, 0, number as usize, 0, 0),
            Shape::FreeObject(name) => coded(1, 0, name, 0, 0),
            Shape::Null => coded(2, 0, 0, 0, 0),
            Shape::ReadObject(a, b) => coded(3, 0, a, b, 0),
            Shape::Const(constant) => coded(4, constant, 0, 0, 0),
            Shape::FreeNumber(name) => coded(5, 0, name, 0, 0),
            Shape::ReadNumber(a, b) => coded(6, 0, a, b, 0),
            Shape::Add(a, b) => coded(7, 0, a, b, 0),
            Shape::Sub(a, b) => coded(8, 0, a, b, 0),
            Shape::Neg(a) => coded(9, 0, a, 0, 0),
            Shape::Scale(constant, a) => coded(10, constant, a, 0, 0),
            Shape::Card(a) => coded(11, 0, a, 0, 0),
            Shape::FreeSet(name) => coded(12, 0, name, 0, 0),
            Shape::ReadSet(a, b) => coded(13, 0, a, b, 0),
            Shape::Empty => coded(14, 0, 0, 0, 0),
            Shape::Univ => coded(15, 0, 0, 0, 0),
            Shape::Single(a) => coded(16, 0, a, 0, 0),
            Shape::Union(a, b) => coded(17, 0, a, b, 0),
            Shape::Inter(a, b) => coded(18, 0, a, b, 0),
            Shape::Diff(a, b) => coded(19, 0, a, b, 0),
            Shape::Compl(a) => coded(20, 0, a, 0, 0),
            Shape::Compr(a) => coded(21, 0, a, 0, 0),
            Shape::FreeField(name) => coded(22, 0, name, 0, 0),
            Shape::Update(a, b, c) => coded(23, 0, a, b, c),
            Shape::True => coded(24, 0, 0, 0, 0),
            Shape::False => coded(25, 0, 0, 0, 0),
            Shape::FreeTruth(name) => coded(26, 0, name, 0, 0),
            Shape::ReadTruth(a, b) => coded(27, 0, a, b, 0),
            Shape::Negation(a) => coded(28, 0, a, 0, 0),
            Shape::And(a, b) => coded(29, 0, a, b, 0),
            Shape::Or(a, b) => coded(30, 0, a, b, 0),
            Shape::Implies(a, b) => coded(31, 0, a, b, 0),
            Shape::Iff(a, b) => coded(32, 0, a, b, 0),
            Shape::All(a) => coded(33, 0, a, 0, 0),
            Shape::Ex(a) => coded(34, 0, a, 0, 0),
            Shape::EqObject(a, b) => coded(35, 0, a, b, 0),
            Shape::EqNumber(a, b) => coded(36, 0, a, b, 0),
            Shape::EqSet(a, b) => coded(37, 0, a, b, 0),
            Shape::Less(a, b) => coded(38, 0, a, b, 0),
            Shape::LessEqual(a, b) => coded(39, 0, a, b, 0),
            Shape::Divides(constant, a) => coded(40, constant, a, 0, 0),
            Shape::Member(a, b) => coded(41, 0, a, b, 0),
            Shape::Subset(a, b) => coded(42, 0, a, b, 0),
            Shape::Reach(list, a, b) => coded(43, 0, list, a, b),
            Shape::Tree(list) => coded(44, 0, list, 0, 0),
            Shape::Mark(mark, a) => coded(45, 0, mark, a, 0),
        }
    }
}
