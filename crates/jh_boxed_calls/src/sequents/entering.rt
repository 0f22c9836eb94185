#![tactic(auto, using(jh_arena::proofs::table::Listed::growth_steps, crate::proofs::sequents::EnteredSteps::entered_steps))]

ghost use Rattle.std.specs.Prelude.{◌≡◌, ◌∷◌, [], Some, map, slice_get, IfOk};
ghost use Rattle.jh_arena.specs.table.Growth.{Extends};
ghost use Rattle.jh_seq.specs.sequent.Sequents.{hyp_tree, sequent_tree};
ghost use Rattle.jh_prove.specs.jh_splitting.Standing.{IsHyp, AreHyps, AreSequents};
ghost use Rattle.jh_boxed_calls.specs.sequents.Marks.{IsNamed};

use jh_arena::table::Table;
use jh_containers::shared_lists::Chains;
use jh_form::{Mark, MarkKind};
use jh_import::entering::enter_formula;
use jh_name::{Name, NoMemory, Place, Row};
use jh_prove::jh_splitting::{NodeHyp, NodeSequent, Sequents};
use jh_seq::sequent::{Hyp, Sequent};
use std::alloc::Global;

/// The number of a label with a name, which says nothing else.
fn mark_named(table: &mut Table, name: &Name) -> Result<usize, NoMemory>
    ensures mark { IfOk result (λ number. IsNamed table.new number name.now) }
    ensures grows { Extends table.old table.new }
{
    let name = name.copy(table.alloc())?;
    let mark = Mark {
        kind: MarkKind::Fact,
        place: Place { line: 0, column: 0 },
        name: Some(name),
        from: Row::of(Vec::new(table.alloc())),
    };
    table.mark(&mark)
}

/// A hypothesis, entered into a table.
fn enter_hyp(table: &mut Table, hyp: &Hyp) -> Result<NodeHyp, NoMemory>
    ensures hyp { IfOk result (λ made. IsHyp table.new made (hyp_tree hyp.now)) }
    ensures grows { Extends table.old table.new }
{
    let fact = enter_formula(table, &hyp.fact)?;
    match &hyp.name {
        None => Ok(NodeHyp { mark: None, fact }),
        Some(name) => {
            let mark = mark_named(table, name)?;
            Ok(NodeHyp {
                mark: Some(mark),
                fact,
            })
        }
    }
}

/// The list of hypotheses, entered into a table and into lists.
fn enter_hyps(
    table: &mut Table,
    lists: &mut Chains<NodeHyp>,
    hyps: &[Hyp],
) -> Result<Option<usize>, NoMemory>
    ensures hyps { IfOk result (λ list. AreHyps table.new lists.new list (map hyp_tree hyps.now)) }
    ensures grows { Extends table.old table.new }
{
    let mut list = None;
    for hyp in hyps {
        let made = enter_hyp(table, hyp)?;
        list = Some(lists.extend(list, made)?);
    }
    Ok(list)
}

/// A sequent, entered into a table, as the sequents of its method.
pub(crate) fn enter_sequent(
    alloc: Global,
    table: &mut Table,
    sequent: &Sequent,
) -> Result<Sequents, NoMemory>
    ensures sequents { IfOk result (λ made. AreSequents table.new made.hyps made.method made.sequents.items (sequent_tree sequent.now ∷ [])) }
    ensures grows { Extends table.old table.new }
{
    let mut lists = Chains::new(alloc);
    let hyps = enter_hyps(table, &mut lists, sequent.hyps.items())?;
    let mark = table.mark(&sequent.mark)?;
    let goal = enter_formula(table, &sequent.goal)?;
    let mut made = Vec::new(alloc);
    made.push(NodeSequent {
        mark: Some(mark),
        hyps,
        goal,
    })?;
    Ok(Sequents {
        method: sequent.method,
        hyps: lists,
        sequents: made,
    })
}
