#![tactic(auto, unfolding(jh_query::specs::queries::Bare::set_tree, jh_query::specs::queries::Bare::num_tree, jh_query::specs::queries::Bare::cond_tree))]

ghost use Rattle.std.specs.Prelude.{◌≡◌, Some, [], ◌∷◌, length, true};
ghost use Rattle.jh_query.specs.queries.Bare.{cond_tree, num_tree};
ghost use Rattle.jh_query.specs.queries.Named.{is_divisor};
ghost use Rattle.jh_query.specs.queries.Tree as t;
ghost use Rattle.jh_bapa.specs.decision.Cases.{is_case_of, line_of};
ghost use Rattle.jh_bapa.specs.decision.Counted.{has_divisor};
ghost use Rattle.jh_bapa.specs.decision.Lining.{maybe_tree, slack_list};

use jh_query::partial_truth::{Atom, Case};
use jh_query::queries::{Cond, Num, Side};

/// The factors of the columns that an equation adds.
#[derive(Clone, Copy)]
pub(crate) enum Slacks {
    One(i64),
    Two(i64, i64),
}

/// A number atom in its case as an equation: its side and the factors of what it lacks come to what is
/// added.
#[derive(Clone, Copy)]
pub(crate) struct Line<'a> {
    pub(crate) side: Side<'a>,
    pub(crate) slacks: Slacks,
    pub(crate) added: i64,
}

/// The equation of two numbers that lack a multiple of a slack.
fn difference<'a>(left: &'a Num, right: &'a Num, slack: i64, added: i64) -> Option<Line<'a>>
    ensures { maybe_tree result ≡ Some (record { side = t.sub (num_tree left.now) (num_tree right.now); slacks = slack ∷ []; added = added }) }
{
    Some(Line {
        side: Side::Difference(left, right),
        slacks: Slacks::One(slack),
        added,
    })
}

/// The equation of an equality of numbers in its case.
fn equal_line<'a>(left: &'a Num, right: &'a Num, case: Case) -> Option<Line<'a>>
    ensures { maybe_tree result ≡ line_of (t.equal_num (num_tree left.now) (num_tree right.now)) case }
{
    match case {
        Case::Open | Case::Remainder(_) => None,
        Case::True => difference(left, right, 0, 0),
        Case::False => difference(left, right, 1, -1),
        Case::Greater => difference(left, right, -1, 1),
    }
}

/// The equation of a comparison of numbers in its case.
fn less_line<'a>(left: &'a Num, right: &'a Num, case: Case) -> Option<Line<'a>>
    ensures { maybe_tree result ≡ line_of (t.less_num (num_tree left.now) (num_tree right.now)) case }
{
    match case {
        Case::Open | Case::Remainder(_) | Case::Greater => None,
        Case::True => difference(left, right, 1, -1),
        Case::False => difference(left, right, -1, 0),
    }
}

/// The equation of a divided number in its case.
fn divided_line<'a>(factor: i64, number: &'a Num, case: Case) -> Option<Line<'a>>
    requires suits { is_case_of (t.divides factor (num_tree number.now)) case ≡ true }
    requires divisor { is_divisor factor ≡ true }
    ensures { maybe_tree result ≡ line_of (t.divides factor (num_tree number.now)) case }
{
    match case {
        Case::Open | Case::True | Case::False | Case::Greater => None,
        Case::Remainder(remainder) => Some(Line {
            side: Side::Alone(number),
            slacks: Slacks::Two(-factor, factor),
            added: remainder as i64,
        }),
    }
}

/// The equation of a number atom in its case.
pub(crate) fn line_of<'a>(atom: &Atom<'a>) -> Option<Line<'a>>
    requires suits { is_case_of (cond_tree atom.now.cond.now) atom.now.case ≡ true }
    requires divisor { has_divisor (cond_tree atom.now.cond.now) ≡ true }
    ensures { maybe_tree result ≡ line_of (cond_tree atom.now.cond.now) atom.now.case }
{
    match atom.cond {
        Cond::EqualNum(left, right) => equal_line(left, right, atom.case),
        Cond::LessNum(left, right) => less_line(left, right, atom.case),
        Cond::Divides(factor, number) => divided_line(*factor, number, atom.case),
        Cond::True
        | Cond::False
        | Cond::Flag(_)
        | Cond::SameElement(_, _)
        | Cond::In(_, _)
        | Cond::EqualSet(_, _)
        | Cond::Within(_, _)
        | Cond::Not(_)
        | Cond::And(_, _)
        | Cond::Or(_, _)
        | Cond::Implies(_, _)
        | Cond::Iff(_, _) => None,
    }
}

/// How many columns an equation adds.
pub(crate) fn slack_count(line: &Line<'_>) -> usize
    ensures { result ≡ length (slack_list line.now.slacks) }
{
    match line.slacks {
        Slacks::One(_) => 1,
        Slacks::Two(_, _) => 2,
    }
}
