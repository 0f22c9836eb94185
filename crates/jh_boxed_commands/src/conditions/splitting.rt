#![tactic(auto, using(crate::proofs::conditions::SequentSteps::sequent_steps))]

ghost use Rattle.std.specs.Prelude.{◌≡◌, ◌↔◌, ℕ, List, map, IfOk, length, slice_get, Some, ◌<◌};
ghost use Rattle.jh_form.specs.Bare.{formula_tree};
ghost use Rattle.jh_seq.specs.splitting.Laws.{AllValid, IsTautology};
ghost use Rattle.jh_seq.specs.splitting.Split.{split_of};
ghost use Rattle.jh_seq.specs.sequent.Sequents.{SequentTree, hyp_tree, sequent_tree};
ghost use Rattle.jh_splitting.specs.Numbering.{IsFirst};
ghost use Rattle.jh_splitting.specs.Standing.{AreSequents, IsSequent};

use crate::conditions::hypotheses::{boxed_hyps, boxed_mark};
use jh_arena::table::Table;
use jh_export::boxed_formula;
use jh_form::Formula;
use jh_import::entering::enter_formula;
use jh_name::{MethodId, NoMemory, Row};
use jh_seq::sequent::{Hyp, Sequent};
use jh_splitting::{NodeSequent, Sequents, split_in};
use std::alloc::Global;

/// The hypotheses of a sequent.
fn hyps_of(table: &Table, made: &Sequents, sequent: NodeSequent) -> Result<Vec<Hyp>, NoMemory>
    requires { (s : SequentTree) × IsSequent table.now made.now.hyps made.now.method sequent s }
    ensures { (s : SequentTree) → IsSequent table.now made.now.hyps made.now.method sequent s → IfOk result (λ hyps. map hyp_tree hyps.items ≡ s.hyps) }
{
    let hyps = made.hyps(table.alloc(), sequent.hyps)?;
    boxed_hyps(table, hyps.as_slice())
}

/// A sequent.
fn boxed_sequent(table: &Table, made: &Sequents, sequent: NodeSequent) -> Result<Sequent, NoMemory>
    requires { (s : SequentTree) × IsSequent table.now made.now.hyps made.now.method sequent s }
    ensures { (s : SequentTree) → IsSequent table.now made.now.hyps made.now.method sequent s → IfOk result (λ boxed. sequent_tree boxed ≡ s) }
{
    let mark = boxed_mark(table, sequent.mark)?;
    let hyps = hyps_of(table, made, sequent)?;
    let goal = boxed_formula(table, sequent.goal)?;
    Ok(Sequent {
        method: made.method,
        mark,
        hyps: Row::of(hyps),
        goal,
    })
}

/// The sequent at a place of a list.
fn sequent_at(sequents: &[NodeSequent], place: usize) -> NodeSequent
    requires { place < length sequents.now }
    ensures { slice_get sequents.now place ≡ Some result }
{
    sequents[place]
}

/// The sequents of a method.
fn boxed_sequents(table: &Table, made: &Sequents) -> Result<Vec<Sequent>, NoMemory>
    requires { (ss : List SequentTree) × AreSequents table.now made.now.hyps made.now.method made.now.sequents.items ss }
    ensures { (ss : List SequentTree) → AreSequents table.now made.now.hyps made.now.method made.now.sequents.items ss → IfOk result (λ boxed. map sequent_tree boxed.items ≡ ss) }
{
    let sequents = made.sequents.as_slice();
    let mut boxed = Vec::new(table.alloc());
    for place in 0..sequents.len() {
        let sequent = sequent_at(sequents, place);
        let one = boxed_sequent(table, made, sequent)?;
        boxed.push(one)?;
    }
    Ok(boxed)
}

/// The sequents of a formula of a method, in the order of the definition; their constants are the first that are free in
/// the formula. All of them are valid exactly where the formula is.
pub fn split(alloc: Global, method: MethodId, formula: &Formula) -> Result<Vec<Sequent>, NoMemory>
    ensures sequents { IfOk result (λ made. (k : ℕ) × IsFirst (formula_tree formula.now) k × (map sequent_tree made.items ≡ split_of method (formula_tree formula.now) k)) }
    ensures exact { IfOk result (λ made. AllValid (map sequent_tree made.items) ↔ IsTautology (formula_tree formula.now)) }
{
    let mut table = Table::new(alloc)?;
    let node = enter_formula(&mut table, formula)?;
    let made = split_in(&mut table, method, node)?;
    boxed_sequents(&table, &made)
}
