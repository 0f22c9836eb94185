ghost use Rattle.std.specs.Prelude.{◌≡◌, ◌<◌, length, Some, IfOk, slice_get};
ghost use Rattle.jh_form.specs.Bare.{formula_tree};
ghost use Rattle.jh_arena.specs.table.Nodes.{nodes};
ghost use Rattle.jh_local_form.specs.local_sequents.Forming.{IsFormed};
ghost use Rattle.jh_seq.specs.sequent.Sequents.{SequentTree, sequent_tree};
ghost use Rattle.jh_derivation_rules.specs.Closes.{ClosesSequent, facts_of};
ghost use Rattle.jh_derivation_rules.specs.Steps.{steps_of};
ghost use Rattle.jh_instance_proofs.specs.derivations.Facts.{formula_at, formulas_at, hyp_fact, hyp_facts};
ghost use Rattle.jh_instance_proofs.specs.derivations.Nesting.{OperandsNestWithin};

use crate::derivations::nesting::nests_within;
use jh_arena::table::Table;
use jh_deriv::{Replayed, replay};
use jh_derivation_rules::Derivation;
use jh_export::boxed_formula;
use jh_form::{Formula, Mark, MarkKind};
use jh_local_form::local_sequents::LocalForm;
use jh_name::{MethodId, NoMemory, Place, Row};
use jh_proof_builder::is_formula;
use jh_seq::sequent::{Hyp, Sequent};

/// The formula of a node. The answer is want of memory where it is none.
fn formula_of(table: &Table, node: usize) -> Result<Formula, NoMemory>
    ensures { IfOk result (λ made. formula_tree made ≡ formula_at (nodes table.now) node) }
{
    if is_formula(table, node) {
        boxed_formula(table, node)
    } else {
        Err(NoMemory)
    }
}

/// A hypothesis without a name, boxed.
fn hyp_of(table: &Table, node: usize) -> Result<Hyp, NoMemory>
    ensures { IfOk result (λ made. hyp_fact made ≡ formula_at (nodes table.now) node) }
{
    Ok(Hyp {
        name: None,
        fact: formula_of(table, node)?,
    })
}

/// The node at a place.
fn node_at(nodes: &[usize], place: usize) -> usize
    requires { place < length nodes.now }
    ensures { slice_get nodes.now place ≡ Some result }
{
    nodes[place]
}

/// Hypotheses without names, whose facts are these nodes, boxed.
fn hyps_of(table: &Table, facts: &[usize]) -> Result<Row<Hyp>, NoMemory>
    ensures { IfOk result (λ made. hyp_facts made ≡ formulas_at (nodes table.now) facts.now) }
{
    let mut made = Vec::new(table.alloc());
    for place in 0..facts.len() {
        made.push(hyp_of(table, node_at(facts, place))?)?;
    }
    Ok(Row::of(made))
}

/// A label that says nothing.
fn no_mark(table: &Table) -> Mark {
    Mark {
        kind: MarkKind::Assert,
        place: Place { line: 0, column: 0 },
        name: None,
        from: Row::of(Vec::new(table.alloc())),
    }
}

/// A sequent of no method, with a label that says nothing.
fn unlabelled_sequent(table: &Table, hyps: Row<Hyp>, goal: Formula) -> Sequent
    ensures hyps { result.hyps ≡ hyps }
    ensures goal { result.goal ≡ goal }
{
    Sequent {
        method: MethodId {
            class: 0,
            method: 0,
        },
        mark: no_mark(table),
        hyps,
        goal,
    }
}

/// The sequent of a local form, boxed, of no method.
fn sequent_of(table: &Table, form: &LocalForm) -> Result<Sequent, NoMemory>
    ensures facts { IfOk result (λ made. (s : SequentTree) → IsFormed table.now form.now s → facts_of (sequent_tree made) ≡ facts_of s) }
{
    let hyps = hyps_of(table, form.facts.items())?;
    let goal = formula_of(table, form.goal)?;
    Ok(unlabelled_sequent(table, hyps, goal))
}

/// A derivation, where it closes a sequent and no operand of it nests deeper than MOST_NESTED: it is followed first. The answer is want of
/// memory otherwise.
fn followed(
    table: &Table,
    derivation: Derivation,
    sequent: &Sequent,
) -> Result<Derivation, NoMemory>
    ensures closes { IfOk result (λ made. ClosesSequent (steps_of made) (sequent_tree sequent.now)) }
    ensures nests { IfOk result (λ made. OperandsNestWithin 4096 (steps_of made)) }
{
    if !nests_within(&derivation) {
        return Err(NoMemory);
    }
    match replay(table.alloc(), &derivation, sequent) {
        Replayed::Yes => Ok(derivation),
        Replayed::No(_) => Err(NoMemory),
        Replayed::Memory => Err(NoMemory),
    }
}

/// A derivation, where it closes the sequent of a local form and no operand of it nests deeper than MOST_NESTED: it is followed first, over
/// a table of its own. The answer is want of memory otherwise.
pub(crate) fn closing(
    table: &Table,
    form: &LocalForm,
    derivation: Derivation,
) -> Result<Derivation, NoMemory>
    ensures closes { IfOk result (λ made. (s : SequentTree) → IsFormed table.now form.now s → ClosesSequent (steps_of made) s) }
    ensures nests { IfOk result (λ made. OperandsNestWithin 4096 (steps_of made)) }
{
    let sequent = sequent_of(table, form)?;
    followed(table, derivation, &sequent)
}
