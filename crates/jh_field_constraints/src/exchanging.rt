#![tactic(auto, using(jh_arena::proofs::table::Listed::growth_steps))]

ghost use Rattle.std.specs.Prelude.{◌≡◌, ◌∷◌, List, map, true, IfOk, slice_get};
ghost use Rattle.jh_form.specs.Tree.{TermTree, FormulaTree};
ghost use Rattle.jh_arena.specs.table.Entries.{is_object, is_truth, the_truth};
ghost use Rattle.jh_arena.specs.table.Growth.{Extends};
ghost use Rattle.jh_arena.specs.table.Nodes.{nodes};
ghost use Rattle.jh_fca.specs.elimination.Constraints.{Constraint};
ghost use Rattle.jh_fca.specs.elimination.Exchanged.{varied_term, exchanged, atom_exchanged};
ghost use Rattle.jh_field_constraints.specs.Standing.{IsFormula, IsTerm, AreTerms, IsConstraint};
ghost use Rattle.jh_field_constraints.specs.Reading.{IsLocalAtom};

use crate::constraints::NodeConstraint;
use crate::naming::{name_of, node_at};
use crate::reading::reads_of;
use crate::saying::{around, said, vary_term};
use jh_arena::makers::read_object;
use jh_arena::table::Table;
use jh_name::NoMemory;
use jh_substitution::exchange::vary;

/// The most reads of an atom that are exchanged: as many binders come round it.
const MOST_READS: usize = 1000;

/// Terms under one more binder, whose variable stands for each occurrence of another term.
fn vary_all(table: &mut Table, terms: &[usize], read: usize) -> Result<Vec<usize>, NoMemory>
    requires terms { (all : List TermTree) × AreTerms table.old terms.now all }
    requires read { is_object (slice_get (nodes table.old) read) ≡ true }
    ensures nodes { IfOk result (λ made. (all : List TermTree) (b : TermTree) → AreTerms table.old terms.now all → IsTerm table.old read b → AreTerms table.new made.items (map (λ a. varied_term a b) all)) }
    ensures grows { Extends table.old table.new }
{
    let mut made = Vec::new(table.alloc());
    for place in 0..terms.len() {
        let node = vary_term(table, node_at(terms, place), read)?;
        made.push(node)?;
    }
    Ok(made)
}

/// An atom with its reads at these terms exchanged, one after another.
#[cycle(exchanged)]
fn exchanged(
    table: &mut Table,
    of: NodeConstraint,
    reads: &[usize],
    atom: usize,
    positive: bool,
) -> Result<usize, NoMemory>
    requires of { (c : Constraint) × IsConstraint table.old of c }
    requires reads { (all : List TermTree) × AreTerms table.old reads.now all }
    requires atom { is_truth (slice_get (nodes table.old) atom) ≡ true }
    ensures node { IfOk result (λ made. (c : Constraint) (more : List TermTree) (now : TermTree → TermTree) (p : FormulaTree) → IsConstraint table.old of c → AreTerms table.old reads.now (map now more) → IsFormula table.old atom p → IsFormula table.new made (exchanged c more now p positive)) }
    ensures grows { Extends table.old table.new }
{
    match reads {
        [] => Ok(atom),
        [_, rest @ ..] => first_exchanged(table, of, node_at(reads, 0), rest, atom, positive),
    }
}

/// The same, where the first of these terms is known.
#[cycle(exchanged)]
fn first_exchanged(
    table: &mut Table,
    of: NodeConstraint,
    first: usize,
    rest: &[usize],
    atom: usize,
    positive: bool,
) -> Result<usize, NoMemory>
    requires of { (c : Constraint) × IsConstraint table.old of c }
    requires first { is_object (slice_get (nodes table.old) first) ≡ true }
    requires rest { (all : List TermTree) × AreTerms table.old rest.now all }
    requires atom { is_truth (slice_get (nodes table.old) atom) ≡ true }
    ensures node { IfOk result (λ made. (c : Constraint) (a : TermTree) (more : List TermTree) (now : TermTree → TermTree) (p : FormulaTree) → IsConstraint table.old of c → IsTerm table.old first (now a) → AreTerms table.old rest.now (map now more) → IsFormula table.old atom p → IsFormula table.new made (exchanged c (a ∷ more) now p positive)) }
    ensures grows { Extends table.old table.new }
{
    let told = said(table, of.says, first)?;
    let read = read_object(table, of.field, first)?;
    let varied = vary(table, atom, read)?;
    let left = vary_all(table, rest, read)?;
    let inner = exchanged(table, of, left.as_slice(), varied, positive)?;
    around(table, positive, told, inner)
}

/// An atom of local shape with its reads of a field exchanged. The answer is want of memory where there are more than 1,000.
pub(crate) fn atom_exchanged(
    table: &mut Table,
    of: NodeConstraint,
    atom: usize,
    positive: bool,
) -> Result<usize, NoMemory>
    requires of { (c : Constraint) × IsConstraint table.old of c }
    requires atom { IsLocalAtom (nodes table.old) atom }
    ensures node { IfOk result (λ made. (c : Constraint) → IsConstraint table.old of c → IsFormula table.new made (atom_exchanged c (the_truth (slice_get (nodes table.old) atom)) positive)) }
    ensures grows { Extends table.old table.new }
{
    let reads = reads_of(table, name_of(table, of.field), atom)?;
    if reads.len() > MOST_READS {
        return Err(NoMemory);
    }
    exchanged(table, of, reads.as_slice(), atom, positive)
}
