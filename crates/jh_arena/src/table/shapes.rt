// Written by tools/table.py.
#![tactic(auto, unfolding(crate::specs::table::Parts::own_parts, crate::specs::table::Parts::list_of, crate::specs::table::Parts::binders, crate::specs::table::Parts::put))]

ghost use Rattle.std.specs.Prelude.{◌≡◌, ◌<◌, Some, length, slice_get};
ghost use Rattle.jh_arena.specs.table.Parts.{own_parts, list_of, binders, put};
ghost use Rattle.jh_arena.specs.table.Own.{own_list};

use std::hash::{Hash, Hasher};

/// One node of a table: a constructor of terms, fields or formulas over the numbers of its parts. Names,
/// labels and lists of fields stand in pools of the table and are given by their numbers there. The
/// constructors of each sort are variants of their own, so a shape tells its sort.
#[derive(Clone, Copy)]
pub enum Shape {
    Bound(u32),
    FreeObject(usize),
    Null,
    ReadObject(usize, usize),
    Const(i64),
    FreeNumber(usize),
    ReadNumber(usize, usize),
    Add(usize, usize),
    Sub(usize, usize),
    Neg(usize),
    Scale(i64, usize),
    Card(usize),
    FreeSet(usize),
    ReadSet(usize, usize),
    Empty,
    Univ,
    Single(usize),
    Union(usize, usize),
    Inter(usize, usize),
    Diff(usize, usize),
    Compl(usize),
    Compr(usize),
    FreeField(usize),
    Update(usize, usize, usize),
    True,
    False,
    FreeTruth(usize),
    ReadTruth(usize, usize),
    Negation(usize),
    And(usize, usize),
    Or(usize, usize),
    Implies(usize, usize),
    Iff(usize, usize),
    All(usize),
    Ex(usize),
    EqObject(usize, usize),
    EqNumber(usize, usize),
    EqSet(usize, usize),
    Less(usize, usize),
    LessEqual(usize, usize),
    Divides(i64, usize),
    Member(usize, usize),
    Subset(usize, usize),
    Reach(usize, usize, usize),
    Tree(usize),
    Mark(usize, usize),
}

// Shapes are compared and hashed by their codes, since derived tests have an arm for each constructor, with goals of its own.
impl PartialEq for Shape {
    ghost use Rattle.std.specs.Ordering.{on};
    ghost use Rattle.std.specs.Cmp.Rules.{comparing};
    ghost use Rattle.std.proofs.Common.{rules};
    ghost use Rattle.jh_arena.specs.table.Codes.{code_of, same_code, code_laws};

    ghost eq = { on code_of same_code };

    ghost laws = { Prim.search (comparing, code_laws, rules) };

    fn eq(&self, other: &Shape) -> bool {
        self.code().is(other.code())
    }
}

impl Eq for Shape {
    ghost use Rattle.std.specs.Cmp.Rules.{comparing};
    ghost use Rattle.std.proofs.Common.{rules};
    ghost use Rattle.jh_arena.specs.table.Codes.{code_laws};

    ghost laws = { Prim.search (comparing, code_laws, rules) };
}

impl Hash for Shape {
    ghost use Rattle.jh_arena.specs.table.Codes.{code_of, code_input, same_input};

    ghost hash_input = { λ x. code_input (code_of x) };

    ghost respects_eq = { λ x y. same_input (code_of x) (code_of y) };

    fn hash<H: Hasher>(&self, state: &mut H) {
        self.code().feed(state);
    }
}

/// The parts of a shape that are no fields of a list.
#[derive(Clone, Copy, PartialEq, Eq)]
pub enum Own {
    None,
    One(usize),
    Two(usize, usize),
    Three(usize, usize, usize),
}

impl Own {
    /// The number of parts.
    pub fn count(self) -> usize
        ensures { result ≡ length (own_list self) }
    {
        match self {
            Own::None => 0,
            Own::One(_) => 1,
            Own::Two(_, _) => 2,
            Own::Three(_, _, _) => 3,
        }
    }

    /// The part of this number.
    pub fn at(self, index: usize) -> usize
        requires { index < length (own_list self) }
        ensures { slice_get (own_list self) index ≡ Some result }
    {
        match self {
            Own::None => 0,
            Own::One(a) => a,
            Own::Two(a, b) => if index == 0 { a } else { b },
            Own::Three(a, b, c) => match index {
                0 => a,
                1 => b,
                _ => c,
            },
        }
    }
}

impl Shape {
    /// The parts that are no fields of a list.
    pub fn own(self) -> Own
        ensures { own_list result ≡ own_parts self }
    {
        match self {
            Shape::Bound(_) => Own::None,
            Shape::FreeObject(_) => Own::None,
            Shape::Null => Own::None,
            Shape::ReadObject(a, b) => Own::Two(a, b),
            Shape::Const(_) => Own::None,
            Shape::FreeNumber(_) => Own::None,
            Shape::ReadNumber(a, b) => Own::Two(a, b),
            Shape::Add(a, b) => Own::Two(a, b),
            Shape::Sub(a, b) => Own::Two(a, b),
            Shape::Neg(a) => Own::One(a),
            Shape::Scale(_, a) => Own::One(a),
            Shape::Card(a) => Own::One(a),
            Shape::FreeSet(_) => Own::None,
            Shape::ReadSet(a, b) => Own::Two(a, b),
            Shape::Empty => Own::None,
            Shape::Univ => Own::None,
            Shape::Single(a) => Own::One(a),
            Shape::Union(a, b) => Own::Two(a, b),
            Shape::Inter(a, b) => Own::Two(a, b),
            Shape::Diff(a, b) => Own::Two(a, b),
            Shape::Compl(a) => Own::One(a),
            Shape::Compr(a) => Own::One(a),
            Shape::FreeField(_) => Own::None,
            Shape::Update(a, b, c) => Own::Three(a, b, c),
            Shape::True => Own::None,
            Shape::False => Own::None,
            Shape::FreeTruth(_) => Own::None,
            Shape::ReadTruth(a, b) => Own::Two(a, b),
            Shape::Negation(a) => Own::One(a),
            Shape::And(a, b) => Own::Two(a, b),
            Shape::Or(a, b) => Own::Two(a, b),
            Shape::Implies(a, b) => Own::Two(a, b),
            Shape::Iff(a, b) => Own::Two(a, b),
            Shape::All(a) => Own::One(a),
            Shape::Ex(a) => Own::One(a),
            Shape::EqObject(a, b) => Own::Two(a, b),
            Shape::EqNumber(a, b) => Own::Two(a, b),
            Shape::EqSet(a, b) => Own::Two(a, b),
            Shape::Less(a, b) => Own::Two(a, b),
            Shape::LessEqual(a, b) => Own::Two(a, b),
            Shape::Divides(_, a) => Own::One(a),
            Shape::Member(a, b) => Own::Two(a, b),
            Shape::Subset(a, b) => Own::Two(a, b),
            Shape::Reach(_, a, b) => Own::Two(a, b),
            Shape::Tree(_) => Own::None,
            Shape::Mark(_, a) => Own::One(a),
        }
    }

    /// The shape with other parts: with this list of fields, where it has one, and with these parts in
    /// place of its own.
    pub fn put(self, list: usize, own: &[usize]) -> Shape
        requires { length own.now ≡ length (own_parts self) }
        ensures { result ≡ put list own.now self }
    {
        match self {
            Shape::Bound(k) => Shape::Bound(k),
            Shape::FreeObject(n) => Shape::FreeObject(n),
            Shape::Null => Shape::Null,
            Shape::ReadObject(_, _) => Shape::ReadObject(own[0], own[1]),
            Shape::Const(z) => Shape::Const(z),
            Shape::FreeNumber(n) => Shape::FreeNumber(n),
            Shape::ReadNumber(_, _) => Shape::ReadNumber(own[0], own[1]),
            Shape::Add(_, _) => Shape::Add(own[0], own[1]),
            Shape::Sub(_, _) => Shape::Sub(own[0], own[1]),
            Shape::Neg(_) => Shape::Neg(own[0]),
            Shape::Scale(z, _) => Shape::Scale(z, own[0]),
            Shape::Card(_) => Shape::Card(own[0]),
            Shape::FreeSet(n) => Shape::FreeSet(n),
            Shape::ReadSet(_, _) => Shape::ReadSet(own[0], own[1]),
            Shape::Empty => Shape::Empty,
            Shape::Univ => Shape::Univ,
            Shape::Single(_) => Shape::Single(own[0]),
            Shape::Union(_, _) => Shape::Union(own[0], own[1]),
            Shape::Inter(_, _) => Shape::Inter(own[0], own[1]),
            Shape::Diff(_, _) => Shape::Diff(own[0], own[1]),
            Shape::Compl(_) => Shape::Compl(own[0]),
            Shape::Compr(_) => Shape::Compr(own[0]),
            Shape::FreeField(n) => Shape::FreeField(n),
            Shape::Update(_, _, _) => Shape::Update(own[0], own[1], own[2]),
            Shape::True => Shape::True,
            Shape::False => Shape::False,
            Shape::FreeTruth(n) => Shape::FreeTruth(n),
            Shape::ReadTruth(_, _) => Shape::ReadTruth(own[0], own[1]),
            Shape::Negation(_) => Shape::Negation(own[0]),
            Shape::And(_, _) => Shape::And(own[0], own[1]),
            Shape::Or(_, _) => Shape::Or(own[0], own[1]),
            Shape::Implies(_, _) => Shape::Implies(own[0], own[1]),
            Shape::Iff(_, _) => Shape::Iff(own[0], own[1]),
            Shape::All(_) => Shape::All(own[0]),
            Shape::Ex(_) => Shape::Ex(own[0]),
            Shape::EqObject(_, _) => Shape::EqObject(own[0], own[1]),
            Shape::EqNumber(_, _) => Shape::EqNumber(own[0], own[1]),
            Shape::EqSet(_, _) => Shape::EqSet(own[0], own[1]),
            Shape::Less(_, _) => Shape::Less(own[0], own[1]),
            Shape::LessEqual(_, _) => Shape::LessEqual(own[0], own[1]),
            Shape::Divides(z, _) => Shape::Divides(z, own[0]),
            Shape::Member(_, _) => Shape::Member(own[0], own[1]),
            Shape::Subset(_, _) => Shape::Subset(own[0], own[1]),
            Shape::Reach(_, _, _) => Shape::Reach(list, own[0], own[1]),
            Shape::Tree(_) => Shape::Tree(list),
            Shape::Mark(m, _) => Shape::Mark(m, own[0]),
        }
    }

    /// The number of the list of fields, where the shape has one.
    pub fn list(self) -> Option<usize>
        ensures { result ≡ list_of self }
    {
        match self {
            Shape::Reach(list, _, _) => Some(list),
            Shape::Tree(list) => Some(list),
            _ => None,
        }
    }

    /// How many variables the shape binds in its parts: one for a quantifier and for a comprehension, and
    /// else none.
    pub fn binders(self) -> u32
        ensures { result ≡ binders self }
    {
        match self {
            Shape::Compr(_) | Shape::All(_) | Shape::Ex(_) => 1,
            _ => 0,
        }
    }
}
