#![tactic(auto, using(crate::proofs::queries::Standing::standing_steps), unfolding(crate::specs::queries::Bare::set_tree, crate::specs::queries::Bare::num_tree, crate::specs::queries::Bare::cond_tree))]

ghost use Rattle.std.specs.Prelude.{◌≡◌, map};
ghost use Rattle.std.specs.List.{flat_map, list_any};
ghost use Rattle.jh_query.specs.queries.Bare.{cond_tree};
ghost use Rattle.jh_query.specs.queries.Later.{later_atoms};
ghost use Rattle.jh_query.specs.queries.Same.{same_atom};
ghost use Rattle.jh_query.specs.queries.Size.{atoms};

use crate::queries::Cond;
use crate::queries::matching::same_atom;

/// What stands behind a place of a query.
#[derive(Clone, Copy)]
pub(crate) enum Later<'a> {
    Nothing,
    /// A condition, and what stands behind it.
    One(&'a Cond, &'a Later<'a>),
    /// Several conditions, and what stands behind them.
    Several(&'a [Cond], &'a Later<'a>),
}

/// Whether an atom stands in a condition.
fn is_in(cond: &Cond, atom: &Cond) -> bool
    ensures { result ≡ list_any (same_atom (cond_tree atom.now)) (atoms (cond_tree cond.now)) }
{
    match cond {
        Cond::True | Cond::False => false,
        Cond::Not(inner) => is_in(inner, atom),
        Cond::And(left, right)
        | Cond::Or(left, right)
        | Cond::Implies(left, right)
        | Cond::Iff(left, right) => is_in(left, atom) || is_in(right, atom),
        Cond::Flag(_)
        | Cond::SameElement(_, _)
        | Cond::In(_, _)
        | Cond::EqualSet(_, _)
        | Cond::Within(_, _)
        | Cond::EqualNum(_, _)
        | Cond::LessNum(_, _)
        | Cond::Divides(_, _) => same_atom(atom, cond),
    }
}

/// Whether an atom stands in one of several conditions.
fn is_among(conds: &[Cond], atom: &Cond) -> bool
    ensures { result ≡ list_any (same_atom (cond_tree atom.now)) (flat_map atoms (map cond_tree conds.now)) }
{
    let mut any = false;
    for cond in conds {
        any = any || is_in(cond, atom);
    }
    any
}

/// Whether an atom stands behind a place.
pub(crate) fn is_later(later: &Later<'_>, atom: &Cond) -> bool
    ensures { result ≡ list_any (same_atom (cond_tree atom.now)) (later_atoms later.now) }
{
    match later {
        Later::Nothing => false,
        Later::One(cond, rest) => is_in(cond, atom) || is_later(rest, atom),
        Later::Several(conds, rest) => is_among(conds, atom) || is_later(rest, atom),
    }
}
