#![tactic(auto, using(crate::proofs::commands::SideSteps::side_steps, crate::proofs::commands::OutlinedSteps::outlined_steps, jh_state_facts::proofs::well_formedness::FactSteps::fact_steps, jh_arena::proofs::table::Listed::growth_steps))]

ghost use Rattle.std.specs.Prelude.{◌≡◌, ◌<◌, ◌∷◌, [], List, true, map, length, codes, option_map, IfOk, OnOk, Some, slice_get};
ghost use Rattle.jh_form.specs.Tree.{FormulaTree, of_truth};
ghost use Rattle.jh_form.specs.Tree as t;
ghost use Rattle.jh_arena.specs.table.Entries.{is_truth};
ghost use Rattle.jh_arena.specs.table.Growth.{Extends};
ghost use Rattle.jh_arena.specs.table.Nodes.{nodes};
ghost use Rattle.jh_arena.specs.makers.Joined.{are_truths};
ghost use Rattle.jh_guard.specs.Frames as frames;
ghost use Rattle.jh_guard.specs.Methods as methods;
ghost use Rattle.jh_guard.specs.Steps as steps;
ghost use Rattle.jh_semantics.specs.typed_code.Statements.{claim_in, method_in};
ghost use Rattle.jh_state_facts.specs.well_formedness.Facts.{AreFacts, AddsFacts};
ghost use Rattle.jh_method_commands.specs.commands.Made as made;
ghost use Rattle.jh_method_commands.specs.environment.Outlines.{IsCallable, callee_of, program_in, writes_in, source_of};

use crate::environment::{Callable, Outline};
use jh_arena::makers::{conjunction_of, labelled, truth};
use jh_arena::table::Table;
use jh_call_commands::jh_command_statements::checks::{bare_mark, claim_mark, formula_node};
use jh_call_commands::jh_havoc::owed;
use jh_form::{Mark, MarkKind};
use jh_name::{NoMemory, Place};
use jh_semantics::typed_code::{Claim, MethodCode};
use jh_state_facts::changes::push_frames;
use jh_state_facts::schemas::Named;

/// Adds a formula under a label.
fn push_marked(
    table: &mut Table,
    facts: &mut Vec<usize>,
    mark: &Mark,
    formula: usize,
) -> Result<(), NoMemory>
    requires { is_truth (slice_get (nodes table.old) formula) ≡ true }
    ensures facts { OnOk result ((f : FormulaTree) → slice_get (nodes table.old) formula ≡ Some (of_truth f) → AddsFacts table.new facts.old.items facts.new.items (t.mark mark.now f ∷ [])) }
    ensures grows { Extends table.old table.new }
{
    let marked = labelled(table, mark, formula)?;
    facts.push(marked)?;
    Ok(())
}

/// Adds a formula under a label that has no name.
fn push_bare(
    table: &mut Table,
    facts: &mut Vec<usize>,
    kind: MarkKind,
    place: Place,
    formula: usize,
) -> Result<(), NoMemory>
    requires { is_truth (slice_get (nodes table.old) formula) ≡ true }
    ensures facts { OnOk result ((f : FormulaTree) → slice_get (nodes table.old) formula ≡ Some (of_truth f) → AddsFacts table.new facts.old.items facts.new.items (t.mark (steps.mark_without_name kind place) f ∷ [])) }
    ensures grows { Extends table.old table.new }
{
    let mark = bare_mark(table.alloc(), kind, place);
    push_marked(table, facts, &mark, formula)
}

/// Adds `ensures`; where there is none, the formula that is true, at the name of the method.
fn push_ensures(
    table: &mut Table,
    facts: &mut Vec<usize>,
    outline: &Outline<'_>,
    method: &MethodCode,
) -> Result<(), NoMemory>
    requires { made.Outlined table.old outline.now }
    ensures facts { OnOk result (AddsFacts table.new facts.old.items facts.new.items (methods.post_formula method.now.place (option_map (claim_in (source_of outline.now)) method.now.post) ∷ [])) }
    ensures grows { Extends table.old table.new }
{
    match &method.post {
        None => {
            let formula = truth(table)?;
            push_bare(table, facts, MarkKind::Post, method.place, formula)
        }
        Some(claim) => {
            let formula = formula_node(table, outline.formulas, claim.number)?;
            push_bare(table, facts, MarkKind::Post, claim.place, formula)
        }
    }
}

/// Adds an invariant.
fn push_invariant(
    table: &mut Table,
    facts: &mut Vec<usize>,
    outline: &Outline<'_>,
    claim: &Claim,
) -> Result<(), NoMemory>
    requires { made.Outlined table.old outline.now }
    ensures facts { OnOk result (AddsFacts table.new facts.old.items facts.new.items (made.invariant_formula (claim_in (source_of outline.now) claim.now) ∷ [])) }
    ensures grows { Extends table.old table.new }
{
    let formula = formula_node(table, outline.formulas, claim.number)?;
    let mark = claim_mark(table.alloc(), MarkKind::Inv, claim)?;
    push_marked(table, facts, &mark, formula)
}

/// Adds invariants.
fn push_invariants(
    table: &mut Table,
    facts: &mut Vec<usize>,
    outline: &Outline<'_>,
    claims: &[Claim],
) -> Result<(), NoMemory>
    requires { made.Outlined table.old outline.now }
    ensures facts { OnOk result (AddsFacts table.new facts.old.items facts.new.items (map made.invariant_formula (map (claim_in (source_of outline.now)) claims.now))) }
    ensures grows { Extends table.old table.new }
{
    for place in 0..claims.len() {
        push_invariant(table, facts, outline, &claims[place])?;
    }
    Ok(())
}

/// The node at a place.
fn node_at(nodes: &[usize], place: usize) -> usize
    requires { place < length nodes.now }
    ensures { slice_get nodes.now place ≡ Some result }
{
    nodes[place]
}

/// Adds formulas under the label of frame facts.
fn push_all_frames(
    table: &mut Table,
    facts: &mut Vec<usize>,
    place: Place,
    frames: &[usize],
) -> Result<(), NoMemory>
    requires { are_truths (nodes table.old) frames.now ≡ true }
    ensures facts { OnOk result ((fs : List FormulaTree) → AreFacts table.old frames.now fs → AddsFacts table.new facts.old.items facts.new.items (map (made.frame_formula place) fs)) }
    ensures grows { Extends table.old table.new }
{
    for index in 0..frames.len() {
        push_bare(table, facts, MarkKind::Frame, place, node_at(frames, index))?;
    }
    Ok(())
}

/// Adds the frame facts of a method.
fn push_framed(
    table: &mut Table,
    facts: &mut Vec<usize>,
    outline: &Outline<'_>,
    method: &Callable<'_>,
) -> Result<(), NoMemory>
    requires outline { made.Outlined table.old outline.now }
    requires method { IsCallable outline.now method.now }
    ensures facts { OnOk result (AddsFacts table.new facts.old.items facts.new.items (map (made.frame_formula method.now.code.now.place) (frames.frame_facts (program_in outline.now) (writes_in outline.now) (callee_of method.now) (t.free_set (steps.fresh (codes "alloc") 1)) 1))) }
    ensures grows { Extends table.old table.new }
{
    let mut frames = Vec::new(table.alloc());
    let old = Named {
        text: "alloc",
        turn: 1,
    };
    push_frames(table, &mut frames, old, outline.members, method.framed, 1)?;
    push_all_frames(table, facts, method.code.place, frames.as_slice())
}

/// Adds all that has to be true where a method returns.
fn push_returned(
    table: &mut Table,
    facts: &mut Vec<usize>,
    outline: &Outline<'_>,
    method: &Callable<'_>,
) -> Result<(), NoMemory>
    requires outline { made.Outlined table.old outline.now }
    requires method { IsCallable outline.now method.now }
    ensures facts { OnOk result (AddsFacts table.new facts.old.items facts.new.items (methods.returned_formulas (program_in outline.now) (writes_in outline.now) (callee_of method.now) (method_in (source_of outline.now) method.now.code.now))) }
    ensures grows { Extends table.old table.new }
{
    push_ensures(table, facts, outline, method.code)?;
    push_invariants(
        table,
        facts,
        outline,
        owed(outline.invariants, method.code.is_public),
    )?;
    push_framed(table, facts, outline, method)
}

/// The node of what has to be true where a method returns.
pub(crate) fn returned_node(
    table: &mut Table,
    outline: &Outline<'_>,
    method: &Callable<'_>,
) -> Result<usize, NoMemory>
    requires outline { made.Outlined table.old outline.now }
    requires method { IsCallable outline.now method.now }
    ensures node { IfOk result (λ made. slice_get (nodes table.new) made ≡ Some (of_truth (methods.method_command (program_in outline.now) (writes_in outline.now) (callee_of method.now) (method_in (source_of outline.now) method.now.code.now)).returned)) }
    ensures grows { Extends table.old table.new }
{
    let mut facts = Vec::new(table.alloc());
    push_returned(table, &mut facts, outline, method)?;
    conjunction_of(table, facts.as_slice())
}
