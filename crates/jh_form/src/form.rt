ghost use Rattle.std.specs.Prelude.{◌≡◌};
ghost use Rattle.jh_form.specs.Kinds.{kind_of};
ghost use Rattle.jh_form.specs.declared.form.Kind.TheVariants as kind;

use crate::Mark;
use jh_name::{Name, Row};

/// A term for an object. A bound variable is the number of binders between it and its own.
#[cycle(form)]
#[derive(Drop)]
pub enum Term {
    Bound(u32),
    Free(Name),
    Null,
    /// The value of a field of objects at an object.
    Read(Box<FieldTerm>, Box<Term>),
}

/// A term for a whole number, which has no bounds.
#[cycle(form)]
#[derive(Drop)]
pub enum IntTerm {
    Const(i64),
    Free(Name),
    /// The value of a field of numbers at an object.
    Read(Box<FieldTerm>, Box<Term>),
    Add(Box<IntTerm>, Box<IntTerm>),
    Sub(Box<IntTerm>, Box<IntTerm>),
    Neg(Box<IntTerm>),
    /// A constant times a term.
    Scale(i64, Box<IntTerm>),
    /// The number of members of a set.
    Card(Box<SetTerm>),
}

/// A term for a set of objects.
#[cycle(form)]
#[derive(Drop)]
pub enum SetTerm {
    Free(Name),
    /// The value of a field of sets at an object.
    Read(Box<FieldTerm>, Box<Term>),
    Empty,
    /// The set of all objects.
    Univ,
    /// The set of one object.
    Single(Box<Term>),
    Union(Box<SetTerm>, Box<SetTerm>),
    Inter(Box<SetTerm>, Box<SetTerm>),
    Diff(Box<SetTerm>, Box<SetTerm>),
    Compl(Box<SetTerm>),
    /// The set of the objects of which a formula is true; it binds one variable.
    Compr(Box<Formula>),
}

/// A term for a whole field.
#[cycle(form)]
#[derive(Drop)]
pub enum FieldTerm {
    Free(Name),
    /// A field with another value at one object.
    Update(Box<FieldTerm>, Box<Term>, Box<Value>),
}

/// A term of any sort. A truth is a formula.
#[cycle(form)]
#[derive(Drop)]
pub enum Value {
    Obj(Term),
    Int(IntTerm),
    Bool(Formula),
    Set(SetTerm),
    Field(FieldTerm),
}

/// A formula.
#[cycle(form)]
pub enum Formula {
    True,
    False,
    Free(Name),
    /// The value of a field of truths at an object.
    Read(Box<FieldTerm>, Box<Term>),
    Not(Box<Formula>),
    And(Box<Formula>, Box<Formula>),
    Or(Box<Formula>, Box<Formula>),
    Implies(Box<Formula>, Box<Formula>),
    Iff(Box<Formula>, Box<Formula>),
    /// For all objects; it binds one variable.
    All(Box<Formula>),
    /// For some object; it binds one variable.
    Ex(Box<Formula>),
    EqObj(Term, Term),
    EqInt(IntTerm, IntTerm),
    EqSet(SetTerm, SetTerm),
    Less(IntTerm, IntTerm),
    LessEq(IntTerm, IntTerm),
    /// A constant divides a number: some whole number times the constant is the number.
    Divides(i64, IntTerm),
    Member(Term, SetTerm),
    /// Each member of the first set is one of the second.
    Subset(SetTerm, SetTerm),
    /// The second object is reached from the first by steps along the fields.
    Reach(Row<FieldTerm>, Term, Term),
    /// The fields are the edges of a forest.
    Tree(Row<FieldTerm>),
    /// The formula itself, with a label.
    Mark(Mark, Box<Formula>),
}

/// What the parts of a formula are.
#[derive(Clone, Copy)]
enum Kind {
    /// Formulas, a field at an object, or none.
    Connective,
    /// Terms for numbers, or terms for sets alone.
    Pair,
    /// A label and a formula, or other terms.
    Other,
}

// The parts are let go in functions of their own, so that a level of a deep formula takes little of
// the stack: a derived drop has room for the parts of all kinds at each level.
impl Drop for Formula {
    #[cycle(let_go)]
    fn drop(self) {
        match self.kind() {
            Kind::Connective => match self {
                Formula::True => {}
                Formula::False => {}
                Formula::Free(_name) => {}
                Formula::Read(field, at) => {
                    let_go_field(field);
                    let_go_at(at);
                }
                Formula::Not(inner) => let_go_inner(inner),
                Formula::And(left, right) => {
                    let_go_inner(left);
                    let_go_inner(right);
                }
                Formula::Or(left, right) => {
                    let_go_inner(left);
                    let_go_inner(right);
                }
                Formula::Implies(left, right) => {
                    let_go_inner(left);
                    let_go_inner(right);
                }
                Formula::Iff(left, right) => {
                    let_go_inner(left);
                    let_go_inner(right);
                }
                Formula::All(inner) => let_go_inner(inner),
                Formula::Ex(inner) => let_go_inner(inner),
                Formula::Mark(_mark, _inner) => unreachable!(),
                Formula::EqObj(_left, _right) => unreachable!(),
                Formula::Member(_term, _set) => unreachable!(),
                Formula::Reach(_fields, _from, _to) => unreachable!(),
                Formula::Tree(_fields) => unreachable!(),
                Formula::EqInt(_left, _right) => unreachable!(),
                Formula::Less(_left, _right) => unreachable!(),
                Formula::LessEq(_left, _right) => unreachable!(),
                Formula::Divides(_number, _term) => unreachable!(),
                Formula::EqSet(_left, _right) => unreachable!(),
                Formula::Subset(_left, _right) => unreachable!(),
            },
            Kind::Pair => self.let_go_pair(),
            Kind::Other => self.let_go_others(),
        }
    }
}

impl Formula {
    fn kind(&self) -> Kind
        ensures { result ≡ kind_of self.now }
    {
        match self {
            Formula::True => Kind::Connective,
            Formula::False => Kind::Connective,
            Formula::Free(_) => Kind::Connective,
            Formula::Read(_, _) => Kind::Connective,
            Formula::Not(_) => Kind::Connective,
            Formula::And(_, _) => Kind::Connective,
            Formula::Or(_, _) => Kind::Connective,
            Formula::Implies(_, _) => Kind::Connective,
            Formula::Iff(_, _) => Kind::Connective,
            Formula::All(_) => Kind::Connective,
            Formula::Ex(_) => Kind::Connective,
            Formula::Mark(_, _) => Kind::Other,
            Formula::EqObj(_, _) => Kind::Other,
            Formula::Member(_, _) => Kind::Other,
            Formula::Reach(_, _, _) => Kind::Other,
            Formula::Tree(_) => Kind::Other,
            Formula::EqInt(_, _) => Kind::Pair,
            Formula::Less(_, _) => Kind::Pair,
            Formula::LessEq(_, _) => Kind::Pair,
            Formula::Divides(_, _) => Kind::Pair,
            Formula::EqSet(_, _) => Kind::Pair,
            Formula::Subset(_, _) => Kind::Pair,
        }
    }

    #[cycle(let_go)]
    #[inline(never)]
    fn let_go_others(self)
        requires { kind_of self ≡ kind.Other }
    {
        match self {
            Formula::Mark(_mark, inner) => let_go_inner(inner),
            Formula::EqObj(left, right) => {
                let_go_term(left);
                let_go_term(right);
            }
            Formula::Member(term, set) => {
                let_go_term(term);
                let_go_set(set);
            }
            Formula::Reach(_fields, from, to) => {
                let_go_term(from);
                let_go_term(to);
            }
            Formula::Tree(_fields) => {}
            _ => unreachable!(),
        }
    }

    #[cycle(let_go)]
    #[inline(never)]
    fn let_go_pair(self)
        requires { kind_of self ≡ kind.Pair }
    {
        match self {
            Formula::EqInt(left, right) => {
                let_go_int(left);
                let_go_int(right);
            }
            Formula::Less(left, right) => {
                let_go_int(left);
                let_go_int(right);
            }
            Formula::LessEq(left, right) => {
                let_go_int(left);
                let_go_int(right);
            }
            Formula::Divides(_number, term) => let_go_int(term),
            Formula::EqSet(left, right) => {
                let_go_set(left);
                let_go_set(right);
            }
            Formula::Subset(left, right) => {
                let_go_set(left);
                let_go_set(right);
            }
            _ => unreachable!(),
        }
    }
}

#[cycle(let_go)]
#[inline(never)]
fn let_go_inner(_formula: Box<Formula>) {}

#[cycle(let_go)]
#[inline(never)]
fn let_go_field(_field: Box<FieldTerm>) {}

#[cycle(let_go)]
#[inline(never)]
fn let_go_at(_term: Box<Term>) {}

#[cycle(let_go)]
#[inline(never)]
fn let_go_term(_term: Term) {}

#[cycle(let_go)]
#[inline(never)]
fn let_go_int(_term: IntTerm) {}

#[cycle(let_go)]
#[inline(never)]
fn let_go_set(_set: SetTerm) {}
