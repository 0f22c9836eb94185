#![tactic(auto, using(crate::proofs::conditions::SequentSteps::sequent_steps))]

ghost use Rattle.std.specs.Prelude.{◌≡◌, ◌<◌, List, Option, None, Some, map, length, slice_get, IfOk};
ghost use Rattle.jh_name.specs.declared.naming.Name.{Name};
ghost use Rattle.jh_form.specs.declared.mark.Mark.{Mark};
ghost use Rattle.jh_seq.specs.splitting.Split.{mark_of};
ghost use Rattle.jh_seq.specs.sequent.Sequents.{HypTree, hyp_tree};
ghost use Rattle.jh_splitting.specs.Pairs.{ArePaired};
ghost use Rattle.jh_splitting.specs.Standing.{IsHyp, IsLabel, name_under};

use jh_arena::jh_boxed::copy_mark;
use jh_arena::table::Table;
use jh_export::boxed_formula;
use jh_form::{Mark, MarkKind};
use jh_name::{Name, NoMemory, Place, Row};
use jh_seq::sequent::Hyp;
use jh_splitting::NodeHyp;
use std::alloc::Global;

/// The label of a goal that stands under none.
fn no_mark(alloc: Global) -> Mark
    ensures { result ≡ mark_of None }
{
    Mark {
        kind: MarkKind::Assert,
        place: Place { line: 0, column: 0 },
        name: None,
        from: Row::of(Vec::new(alloc)),
    }
}

/// The label of a sequent by its number.
pub(crate) fn boxed_mark(table: &Table, label: Option<usize>) -> Result<Mark, NoMemory>
    requires { (m : Option Mark) × IsLabel table.now label m }
    ensures { (m : Option Mark) → IsLabel table.now label m → IfOk result (λ made. made ≡ mark_of m) }
{
    match label {
        None => Ok(no_mark(table.alloc())),
        Some(number) => copy_mark(table.alloc(), table.mark_at(number)),
    }
}

/// The name of what stands under the label of a number.
fn name_of(table: &Table, label: Option<usize>) -> Result<Option<Name>, NoMemory>
    requires { (m : Option Mark) × IsLabel table.now label m }
    ensures { (m : Option Mark) → IsLabel table.now label m → IfOk result (λ made. made ≡ name_under m) }
{
    match label {
        None => Ok(None),
        Some(number) => copied(table.alloc(), &table.mark_at(number).name),
    }
}

/// A name, where there is one.
fn copied(alloc: Global, name: &Option<Name>) -> Result<Option<Name>, NoMemory>
    ensures { IfOk result (λ made. made ≡ name.now) }
{
    match name {
        None => Ok(None),
        Some(name) => Ok(Some(name.copy(alloc)?)),
    }
}

/// A hypothesis.
fn boxed_hyp(table: &Table, hyp: NodeHyp) -> Result<Hyp, NoMemory>
    requires { (h : HypTree) × IsHyp table.now hyp h }
    ensures { (h : HypTree) → IsHyp table.now hyp h → IfOk result (λ made. hyp_tree made ≡ h) }
{
    let name = name_of(table, hyp.mark)?;
    let fact = boxed_formula(table, hyp.fact)?;
    Ok(Hyp { name, fact })
}

/// The hypothesis at a place of a list.
fn hyp_at(hyps: &[NodeHyp], place: usize) -> NodeHyp
    requires { place < length hyps.now }
    ensures { slice_get hyps.now place ≡ Some result }
{
    hyps[place]
}

/// The hypotheses of a list.
pub(crate) fn boxed_hyps(table: &Table, hyps: &[NodeHyp]) -> Result<Vec<Hyp>, NoMemory>
    requires { (hs : List HypTree) × ArePaired (IsHyp table.now) hyps.now hs }
    ensures { (hs : List HypTree) → ArePaired (IsHyp table.now) hyps.now hs → IfOk result (λ made. map hyp_tree made.items ≡ hs) }
{
    let mut made = Vec::new(table.alloc());
    for place in 0..hyps.len() {
        let hyp = hyp_at(hyps, place);
        let one = boxed_hyp(table, hyp)?;
        made.push(one)?;
    }
    Ok(made)
}
