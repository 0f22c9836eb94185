#![tactic(auto, using(crate::proofs::decision::Known::known_steps), unfolding(jh_query::specs::queries::Bare::set_tree, jh_query::specs::queries::Bare::num_tree, jh_query::specs::queries::Bare::cond_tree))]

ghost use Rattle.std.specs.Prelude.{◌≡◌, IfNone, IfSome, None, Some, if◌then◌else◌, is_some, length, map, true};
ghost use Rattle.std.specs.List.{list_all};
ghost use Rattle.jh_query.specs.queries.Bare.{cond_tree, query_tree};
ghost use Rattle.jh_query.specs.partial_truth.Judged.{chosen, query_told, told};
ghost use Rattle.jh_bapa.specs.decision.Cases.{conds_of};
ghost use Rattle.jh_bapa.specs.decision.Searching.{is_among, is_covered, is_open};
ghost use Rattle.jh_bapa.specs.decision.Standing.{KnownWhole, opens_at, stands};

use jh_query::partial_truth::{Atom, Case, judge};
use jh_query::queries::{Cond, Query, Spot, same_atom};

/// A place, if the case there isn't chosen.
fn if_open(case: Case, place: usize) -> Option<usize>
    ensures { result ≡ (if is_open case then Some place else None) }
{
    match case {
        Case::Open => Some(place),
        Case::True | Case::False | Case::Greater | Case::Remainder(_) => None,
    }
}

/// The place of an atom, if it has no case yet.
fn open_place(atoms: &[Atom<'_>], cond: &Cond) -> Option<usize>
    ensures place { IfSome result (λ place. opens_at atoms.now place ≡ true) }
    ensures none { IfNone result (is_among (conds_of atoms.now) (cond_tree cond.now) ≡ true → is_some (chosen atoms.now (cond_tree cond.now)) ≡ true) }
{
    for place in 0..atoms.len() {
        let atom = atoms[place];
        if same_atom(atom.cond, cond) {
            return if_open(atom.case, place);
        }
    }
    None
}

/// The place of an atom without a case on which the truth of a condition hangs, if that isn't known.
fn open_atom(cond: &Cond, spots: &[Spot], atoms: &[Atom<'_>]) -> Option<usize>
    ensures place { IfSome result (λ place. opens_at atoms.now place ≡ true) }
    ensures none { IfNone result (KnownWhole spots.now atoms.now (cond_tree cond.now)) }
{
    if judge(cond, spots, atoms).is_some() {
        return None;
    }
    match cond {
        Cond::True | Cond::False | Cond::SameElement(_, _) | Cond::In(_, _) => None,
        Cond::Flag(_)
        | Cond::EqualSet(_, _)
        | Cond::Within(_, _)
        | Cond::EqualNum(_, _)
        | Cond::LessNum(_, _)
        | Cond::Divides(_, _) => open_place(atoms, cond),
        Cond::Not(inner) => open_atom(inner, spots, atoms),
        Cond::And(left, right)
        | Cond::Or(left, right)
        | Cond::Implies(left, right)
        | Cond::Iff(left, right) => match open_atom(left, spots, atoms) {
            Some(place) => Some(place),
            None => open_atom(right, spots, atoms),
        },
    }
}

/// The place of an atom without a case on which the truth of a hypothesis or else of the goal hangs, if
/// that isn't known.
pub(crate) fn open_query(query: &Query, spots: &[Spot], atoms: &[Atom<'_>]) -> Option<usize>
    requires hyps_covered { list_all (is_covered (conds_of atoms.now)) (query_tree query.now).hyps ≡ true }
    requires goal_covered { is_covered (conds_of atoms.now) (query_tree query.now).goal ≡ true }
    requires hyps_stand { list_all (stands (length spots.now)) (query_tree query.now).hyps ≡ true }
    requires goal_stands { stands (length spots.now) (query_tree query.now).goal ≡ true }
    ensures place { IfSome result (λ place. opens_at atoms.now place ≡ true) }
    ensures none { IfNone result (is_some (query_told spots.now atoms.now (query_tree query.now)) ≡ true) }
{
    for hyp in query.hyps.items() {
        if let Some(place) = open_atom(hyp, spots, atoms) {
            return Some(place);
        }
    }
    open_atom(&query.goal, spots, atoms)
}
