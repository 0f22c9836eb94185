#![tactic(auto, using(jh_arena::proofs::table::Listed::growth_steps))]

ghost use Rattle.std.specs.Prelude.{◌≡◌, ◌+◌, [], ℕ, true, IfOk, slice_get};
ghost use Rattle.jh_form.specs.Tree.{FormulaTree};
ghost use Rattle.jh_arena.specs.table.Entries.{is_truth};
ghost use Rattle.jh_arena.specs.table.Growth.{Extends};
ghost use Rattle.jh_arena.specs.table.Nodes.{nodes};
ghost use Rattle.jh_inst.specs.instances.Prenex.{prenex};
ghost use Rattle.jh_inst.specs.instances.Witnesses.{witnesses, witnessed};
ghost use Rattle.jh_instantiation.specs.skolem_constants.Standing.{IsFormula};

use crate::skolem_constants::grounds::is_ground;
use crate::skolem_constants::pulling::prenexed;
use crate::skolem_constants::witnessing::witnessed;
use jh_arena::table::Table;
use jh_name::NoMemory;

/// A formula with constants for what is said to be there, and the number behind those of the constants.
#[derive(Clone, Copy)]
pub struct Settled {
    pub node: usize,
    pub next: u32,
}

/// Whether a formula has no loose bound variable and no quantifier, so that nothing is to be done.
fn is_settled(table: &Table, node: usize) -> bool
    requires there { is_truth (slice_get (nodes table.now) node) ≡ true }
    ensures node { result ≡ true → (a : FormulaTree) (k : ℕ) → IsFormula table.now node a → prenex (witnessed a [] k) ≡ a }
    ensures prenex { result ≡ true → (a : FormulaTree) → IsFormula table.now node a → prenex a ≡ a }
    ensures next { result ≡ true → (a : FormulaTree) → IsFormula table.now node a → witnesses a ≡ 0 }
{
    if !table.is_closed(node) {
        return false;
    }
    if !table.is_shallow(node) {
        return false;
    }
    is_ground(table, node)
}

/// The node of a formula in negation normal form in which each `ex` under no `all` becomes a constant, and each `all` that
/// is then under no `ex` is in front.
pub fn settle(table: &mut Table, node: usize, first: u32) -> Result<Settled, NoMemory>
    requires there { is_truth (slice_get (nodes table.old) node) ≡ true }
    ensures node { (a : FormulaTree) → IsFormula table.old node a → IfOk result (λ made. IsFormula table.new made.node (prenex (witnessed a [] first))) }
    ensures next { (a : FormulaTree) → IsFormula table.old node a → IfOk result (λ made. made.next ≡ first + witnesses a) }
    ensures grows { Extends table.old table.new }
{
    if is_settled(table, node) {
        return Ok(Settled { node, next: first });
    }
    let there = witnessed(table, node, first)?;
    if is_settled(table, there.node) {
        return Ok(there);
    }
    let node = prenexed(table, there.node)?;
    Ok(Settled {
        node,
        next: there.next,
    })
}
