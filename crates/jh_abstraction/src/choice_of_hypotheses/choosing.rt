ghost use Rattle.std.specs.Prelude.{◌≡◌, ◌<◌, Bool, IfOk, OnOk, List, Option, Some, length, slice_get};
ghost use Rattle.jh_form.specs.declared.mark.Mark.{Mark};
ghost use Rattle.jh_form.specs.Tree.{FormulaTree, of_truth};
ghost use Rattle.jh_arena.specs.table.Growth.{Extends};
ghost use Rattle.jh_arena.specs.table.Nodes.{nodes};
ghost use Rattle.jh_approx.specs.definition.Links.{named_in, is_linked};
ghost use Rattle.jh_approx.specs.definition.Regions.{kept_facts};
ghost use Rattle.jh_seq.specs.sequent.Sequents.{HypTree, SequentTree};
ghost use Rattle.jh_seq.specs.splitting.Split.{mark_of};
ghost use Rattle.jh_splitting.specs.Pairs.{ArePaired};
ghost use Rattle.jh_splitting.specs.Standing.{IsLabel};
ghost use Rattle.jh_query_names.specs.visible_part.Memos.{found as found_shown};
ghost use Rattle.jh_query_names.specs.visible_part.Showing.{HoldsShown};
ghost use Rattle.jh_query_names.specs.mentioned_names.Notes.{AreFree, IsNoted, IsRight};
ghost use Rattle.jh_abstraction.specs.choice_of_hypotheses.Asking.{AreNodes, AreTruths, AddsSaid, HasName, HasFact, IsStated, IsAsked};
ghost use Rattle.jh_abstraction.specs.choice_of_hypotheses.Choosing.{HaveNotes, DecideLinks, IsOver, is_near, said_of};

use crate::choice_of_hypotheses::labels::{is_chosen, names_facts};
use crate::choice_of_hypotheses::near::is_near;
use crate::choice_of_hypotheses::reached::{note_at, number_at, reached};
use jh_approx::definition::linked_is_least;
use jh_approx::jh_normal_forms::parts::NodeList;
use jh_arena::table::Table;
use jh_containers::connected_component::Known;
use jh_name::NoMemory;
use jh_query_names::mentioned_names::{Memo, Note, free_names, mention, names_of};
use jh_query_names::visible_part::shown;
use jh_splitting::NodeHyp;
use std::alloc::Global;

/// The hypothesis at a place.
fn hyp_at(hyps: &[NodeHyp], place: usize) -> NodeHyp
    requires { place < length hyps.now }
    ensures { slice_get hyps.now place ≡ Some result }
{
    hyps[place]
}

/// Adds what a query can say of a fact, where its hypothesis has one of the names that a label gives.
fn add_named(
    table: &mut Table,
    memo: &mut jh_query_names::visible_part::Memo,
    kept: &mut Vec<usize>,
    label: Option<usize>,
    hyp: NodeHyp,
    fact: usize,
) -> Result<(), NoMemory>
    requires label { (mark : Option Mark) × IsLabel table.old label mark }
    requires hyp { (h : HypTree) × HasName table.old hyp h × HasFact (nodes table.old) fact h }
    requires memo { HoldsShown (nodes table.old) (found_shown memo.old.answers) }
    ensures kept { OnOk result ((h : HypTree) (mark : Option Mark) → HasName table.old hyp h → HasFact (nodes table.old) fact h → IsLabel table.old label mark → AddsSaid (nodes table.new) kept.old.items kept.new.items (named_in (mark_of mark).from h.name) h.fact) }
    ensures memo { OnOk result (HoldsShown (nodes table.new) (found_shown memo.new.answers)) }
    ensures grows { Extends table.old table.new }
{
    if !is_chosen(table, label, hyp.mark) {
        return Ok(());
    }
    let node = shown(table, memo, fact, false)?;
    kept.push(node)?;
    Ok(())
}

/// The nodes of what a query can say of the hypotheses that have one of the names that a label gives.
fn kept_by_names(
    alloc: Global,
    table: &mut Table,
    memo: &mut jh_query_names::visible_part::Memo,
    hyps: &[NodeHyp],
    label: Option<usize>,
    facts: &[usize],
    goal: usize,
) -> Result<Vec<usize>, NoMemory>
    requires sequent { (s : SequentTree) × IsAsked table.old hyps.now label facts.now goal s }
    requires memo { HoldsShown (nodes table.old) (found_shown memo.old.answers) }
    ensures kept { IfOk result (λ made. (s : SequentTree) → IsAsked table.old hyps.now label facts.now goal s → AreNodes (nodes table.new) made.items (said_of (λ h. named_in s.mark.from h.name) s.hyps)) }
    ensures memo { OnOk result (HoldsShown (nodes table.new) (found_shown memo.new.answers)) }
    ensures grows { Extends table.old table.new }
{
    let mut kept = Vec::new(alloc);
    for place in 0..hyps.len() {
        let hyp = hyp_at(hyps, place);
        let fact = number_at(facts, place);
        add_named(table, memo, &mut kept, label, hyp, fact)?;
    }
    Ok(kept)
}

/// The places of the notes of facts.
fn mention_all(
    alloc: Global,
    table: &mut Table,
    memo: &mut Memo,
    facts: &[usize],
) -> Result<Vec<usize>, NoMemory>
    requires facts { AreTruths (nodes table.old) facts.now }
    requires memo { IsRight (nodes table.old) memo.old }
    ensures places { IfOk result (λ made. ArePaired (IsNoted (nodes table.new) memo.new.notes.items) facts.now made.items) }
    ensures memo { OnOk result (IsRight (nodes table.new) memo.new) }
    ensures grows { Extends table.old table.new }
{
    let mut places = Vec::new(alloc);
    for place in 0..facts.len() {
        let noted = mention(alloc, table, memo, number_at(facts, place))?;
        places.push(noted)?;
    }
    Ok(places)
}

/// The names that decide which facts are linked with a goal of which a query can say this.
fn linked(
    alloc: Global,
    table: &Table,
    notes: &[Note],
    places: &[usize],
    goal: usize,
    said: usize,
) -> Result<Known, NoMemory>
    requires { (s : SequentTree) × IsOver (nodes table.now) notes.now places.now goal said s }
    ensures { IfOk result (λ made. (s : SequentTree) → IsOver (nodes table.now) notes.now places.now goal said s → DecideLinks (nodes table.now) made.numbers.keys (is_linked s)) }
{
    table.nodes_differ();
    linked_is_least();
    let names = names_of(alloc, table, said)?;
    reached(alloc, table, notes, places, names.items())
}

/// The nodes of what a query can say of the hypotheses that are kept by what they speak of.
fn near_facts(
    alloc: Global,
    table: &Table,
    notes: &[Note],
    places: &[usize],
    reads: &NodeList,
    known: &Known,
) -> Result<Vec<usize>, NoMemory>
    requires { (hs : List HypTree) × HaveNotes (nodes table.now) notes.now places.now hs }
    ensures { IfOk result (λ made. (hs : List HypTree) (goal : FormulaTree) (linked : FormulaTree → Bool) → HaveNotes (nodes table.now) notes.now places.now hs → AreFree (nodes table.now) (of_truth goal) reads.now → DecideLinks (nodes table.now) known.now.numbers.keys linked → AreNodes (nodes table.now) made.items (said_of (λ h. is_near goal linked h.fact) hs)) }
{
    let mut kept = Vec::new(alloc);
    for place in 0..places.len() {
        let note = note_at(notes, number_at(places, place));
        if is_near(table, note, reads, known) {
            kept.push(note.shown)?;
        }
    }
    Ok(kept)
}

/// The same, by the goal, of which a query can say this.
fn near_goal(
    alloc: Global,
    table: &Table,
    notes: &[Note],
    places: &[usize],
    goal: usize,
    said: usize,
) -> Result<Vec<usize>, NoMemory>
    requires { (s : SequentTree) × IsOver (nodes table.now) notes.now places.now goal said s }
    ensures { IfOk result (λ made. (s : SequentTree) → IsOver (nodes table.now) notes.now places.now goal said s → AreNodes (nodes table.now) made.items (said_of (λ h. is_near s.goal (is_linked s) h.fact) s.hyps)) }
{
    let known = linked(alloc, table, notes, places, goal, said)?;
    let reads = free_names(alloc, table, goal)?;
    near_facts(alloc, table, notes, places, &reads, &known)
}

/// The nodes of what a query can say of the hypotheses that are kept where the goal names no facts.
fn kept_by_links(
    alloc: Global,
    table: &mut Table,
    memo: &mut Memo,
    facts: &[usize],
    goal: usize,
) -> Result<Vec<usize>, NoMemory>
    requires sequent { (s : SequentTree) × IsStated (nodes table.old) facts.now goal s }
    requires memo { IsRight (nodes table.old) memo.old }
    ensures kept { IfOk result (λ made. (s : SequentTree) → IsStated (nodes table.old) facts.now goal s → AreNodes (nodes table.new) made.items (said_of (λ h. is_near s.goal (is_linked s) h.fact) s.hyps)) }
    ensures memo { OnOk result (IsRight (nodes table.new) memo.new) }
    ensures grows { Extends table.old table.new }
{
    let places = mention_all(alloc, table, memo, facts)?;
    let said = shown(table, &mut memo.shown, goal, true)?;
    let notes = memo.notes.as_slice();
    let held = places.as_slice();
    near_goal(alloc, table, notes, held, goal, said)
}

/// The nodes of what a query can say of the hypotheses of a sequent that it keeps, in their order: where its label
/// names facts, those of these names; else each that reads none of `alloc` and the class sets but those of the goal,
/// and is linked with the goal or says nothing of any other name. The hypotheses are known by their labels and by the
/// nodes of their facts. What the table held stays in its place, after any answer. Each fact is looked at once,
/// however many sequents it stands in; beside that the time is in proportion to the names of the facts, for each turn
/// in which links are followed. The answer is want of memory where a tree nests deeper than MOST_LEVELS.
pub fn kept_facts(
    alloc: Global,
    table: &mut Table,
    memo: &mut Memo,
    hyps: &[NodeHyp],
    label: Option<usize>,
    facts: &[usize],
    goal: usize,
) -> Result<Vec<usize>, NoMemory>
    requires sequent { (s : SequentTree) × IsAsked table.old hyps.now label facts.now goal s }
    requires memo { IsRight (nodes table.old) memo.old }
    ensures kept { IfOk result (λ made. (s : SequentTree) → IsAsked table.old hyps.now label facts.now goal s → AreNodes (nodes table.new) made.items (kept_facts s)) }
    ensures memo { OnOk result (IsRight (nodes table.new) memo.new) }
    ensures grows { Extends table.old table.new }
{
    if names_facts(table, label) {
        kept_by_names(alloc, table, &mut memo.shown, hyps, label, facts, goal)
    } else {
        kept_by_links(alloc, table, memo, facts, goal)
    }
}
