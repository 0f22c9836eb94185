#![tactic(auto, unfolding(jh_query::specs::queries::Bare::set_tree, jh_query::specs::queries::Bare::num_tree, jh_query::specs::queries::Bare::cond_tree))]

ghost use Rattle.std.specs.Prelude.{◌≡◌, [], IfOk, true};
ghost use Rattle.std.specs.List.{list_all};
ghost use Rattle.jh_query.specs.queries.Bare.{cond_tree, query_tree};
ghost use Rattle.jh_bapa.specs.decision.Cases.{conds_of};
ghost use Rattle.jh_bapa.specs.decision.Searching.{added_to, are_open, gathered, gathered_all, is_among};

use jh_name::NoMemory;
use jh_query::partial_truth::{Atom, Case};
use jh_query::queries::{Cond, Query, same_atom};
use std::alloc::Global;

/// Whether an atom stands in a list.
fn is_among(atoms: &[Atom<'_>], cond: &Cond) -> bool
    ensures { result ≡ is_among (conds_of atoms.now) (cond_tree cond.now) }
{
    let mut any = false;
    for atom in atoms {
        any = any || same_atom(atom.cond, cond);
    }
    any
}

/// Adds an atom that doesn't stand in the list yet.
fn add<'a>(atoms: &mut Vec<Atom<'a>>, cond: &'a Cond) -> Result<(), NoMemory>
    ensures conds { IfOk result (λ x. conds_of atoms.new.items ≡ added_to (conds_of atoms.old.items) (cond_tree cond.now)) }
    ensures fresh { IfOk result (λ x. are_open atoms.old.items ≡ true → are_open atoms.new.items ≡ true) }
{
    if is_among(atoms, cond) {
        return Ok(());
    }
    atoms.push(Atom {
        cond,
        case: Case::Open,
    })?;
    Ok(())
}

/// Adds the atoms of a condition that are not on elements alone, each once.
fn gather<'a>(atoms: &mut Vec<Atom<'a>>, cond: &'a Cond) -> Result<(), NoMemory>
    ensures conds { IfOk result (λ x. conds_of atoms.new.items ≡ gathered (conds_of atoms.old.items) (cond_tree cond.now)) }
    ensures fresh { IfOk result (λ x. are_open atoms.old.items ≡ true → are_open atoms.new.items ≡ true) }
{
    match cond {
        Cond::True | Cond::False | Cond::SameElement(_, _) | Cond::In(_, _) => Ok(()),
        Cond::Not(inner) => gather(atoms, inner),
        Cond::And(left, right)
        | Cond::Or(left, right)
        | Cond::Implies(left, right)
        | Cond::Iff(left, right) => {
            gather(atoms, left)?;
            gather(atoms, right)
        }
        Cond::Flag(_)
        | Cond::EqualSet(_, _)
        | Cond::Within(_, _)
        | Cond::EqualNum(_, _)
        | Cond::LessNum(_, _)
        | Cond::Divides(_, _) => add(atoms, cond),
    }
}

/// The atoms of a query that are not on elements alone, each once.
pub(crate) fn atoms_of<'a>(alloc: Global, query: &'a Query) -> Result<Vec<Atom<'a>>, NoMemory>
    ensures conds { IfOk result (λ atoms. conds_of atoms.items ≡ gathered (gathered_all [] (query_tree query.now).hyps) (query_tree query.now).goal) }
    ensures fresh { IfOk result (λ atoms. are_open atoms.items ≡ true) }
{
    let mut atoms = Vec::new(alloc);
    for hyp in query.hyps.items() {
        gather(&mut atoms, hyp)?;
    }
    gather(&mut atoms, &query.goal)?;
    Ok(atoms)
}
