#![tactic(auto, using(crate::proofs::queries::Others::other_steps), unfolding(crate::specs::queries::Bare::set_tree, crate::specs::queries::Bare::num_tree, crate::specs::queries::Bare::cond_tree))]

ghost use Rattle.std.specs.Prelude.{◌≡◌, ◌==◌};
ghost use Rattle.std.specs.Ordering.{int_eq};
ghost use Rattle.jh_query.specs.queries.Bare.{cond_tree, num_tree, set_tree};
ghost use Rattle.jh_query.specs.queries.Same.{same_atom, same_num, same_set};

use crate::queries::{Cond, Num, SetExpr};

/// Whether two constants are equal.
fn same_constant(left: &i64, right: &i64) -> bool
    ensures { result ≡ int_eq left.now right.now }
{
    *left == *right
}

/// Whether two sets are written in the same way.
fn same_set(left: &SetExpr, right: &SetExpr) -> bool
    ensures { result ≡ same_set (set_tree left.now) (set_tree right.now) }
{
    match left {
        SetExpr::Var(set) => match right {
            SetExpr::Var(other) => *set == *other,
            _ => false,
        },
        SetExpr::Empty => match right {
            SetExpr::Empty => true,
            _ => false,
        },
        SetExpr::All => match right {
            SetExpr::All => true,
            _ => false,
        },
        SetExpr::One(element) => match right {
            SetExpr::One(other) => *element == *other,
            _ => false,
        },
        SetExpr::Union(first, second) => match right {
            SetExpr::Union(third, fourth) => same_set(first, third) && same_set(second, fourth),
            _ => false,
        },
        SetExpr::Inter(first, second) => match right {
            SetExpr::Inter(third, fourth) => same_set(first, third) && same_set(second, fourth),
            _ => false,
        },
        SetExpr::Diff(first, second) => match right {
            SetExpr::Diff(third, fourth) => same_set(first, third) && same_set(second, fourth),
            _ => false,
        },
        SetExpr::Compl(inner) => match right {
            SetExpr::Compl(other) => same_set(inner, other),
            _ => false,
        },
    }
}

/// Whether two numbers are written in the same way.
fn same_num(left: &Num, right: &Num) -> bool
    ensures { result ≡ same_num (num_tree left.now) (num_tree right.now) }
{
    match left {
        Num::Const(constant) => match right {
            Num::Const(other) => same_constant(constant, other),
            _ => false,
        },
        Num::Var(number) => match right {
            Num::Var(other) => *number == *other,
            _ => false,
        },
        Num::Add(first, second) => match right {
            Num::Add(third, fourth) => same_num(first, third) && same_num(second, fourth),
            _ => false,
        },
        Num::Sub(first, second) => match right {
            Num::Sub(third, fourth) => same_num(first, third) && same_num(second, fourth),
            _ => false,
        },
        Num::Neg(inner) => match right {
            Num::Neg(other) => same_num(inner, other),
            _ => false,
        },
        Num::Scale(factor, inner) => match right {
            Num::Scale(number, other) => { same_constant(factor, number) && same_num(inner, other) }
            _ => false,
        },
        Num::Card(set) => match right {
            Num::Card(other) => same_set(set, other),
            _ => false,
        },
    }
}

/// Whether two atoms are written in the same way. What is no atom is the same as nothing.
pub fn same_atom(left: &Cond, right: &Cond) -> bool
    ensures { result ≡ same_atom (cond_tree left.now) (cond_tree right.now) }
{
    match left {
        Cond::Flag(flag) => match right {
            Cond::Flag(other) => *flag == *other,
            _ => false,
        },
        Cond::SameElement(first, second) => match right {
            Cond::SameElement(third, fourth) => *first == *third && *second == *fourth,
            _ => false,
        },
        Cond::In(element, set) => match right {
            Cond::In(other, right_set) => *element == *other && same_set(set, right_set),
            _ => false,
        },
        Cond::EqualSet(first, second) => match right {
            Cond::EqualSet(third, fourth) => same_set(first, third) && same_set(second, fourth),
            _ => false,
        },
        Cond::Within(first, second) => match right {
            Cond::Within(third, fourth) => same_set(first, third) && same_set(second, fourth),
            _ => false,
        },
        Cond::EqualNum(first, second) => match right {
            Cond::EqualNum(third, fourth) => same_num(first, third) && same_num(second, fourth),
            _ => false,
        },
        Cond::LessNum(first, second) => match right {
            Cond::LessNum(third, fourth) => same_num(first, third) && same_num(second, fourth),
            _ => false,
        },
        Cond::Divides(factor, number) => match right {
            Cond::Divides(other, right_number) => {
                same_constant(factor, other) && same_num(number, right_number)
            }
            _ => false,
        },
        _ => false,
    }
}
