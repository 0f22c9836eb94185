#![tactic(auto, using(jh_arena::proofs::table::Listed::growth_steps))]

ghost use Rattle.std.specs.Prelude.{◌≡◌, ◌+◌, ◌-◌, ◌<◌, ◌≤◌, ◌∷◌, ◌++◌, [], ◌||◌, ℕ, List, not, take, length, true, false, Some, IfOk, OnOk, slice_get};
ghost use Rattle.jh_form.specs.Tree.{FormulaTree, TermTree};
ghost use Rattle.jh_arena.specs.table.Entries.{is_truth};
ghost use Rattle.jh_arena.specs.table.Growth.{Extends};
ghost use Rattle.jh_arena.specs.table.Nodes.{nodes};
ghost use Rattle.jh_instantiation.specs.closed_terms.Listed.{AreTerms};
ghost use Rattle.jh_instantiation.specs.skolem_constants.Standing.{IsFormula};
ghost use Rattle.jh_inst.specs.instances.Entries.{Entry};
ghost use Rattle.jh_inst.specs.instances.Terms.{is_among};
ghost use Rattle.jh_inst.specs.instances.Rounds as rounds;
ghost use Rattle.jh_inst.specs.instances.Rounds.{made_constants, puts, new_puts};
ghost use Rattle.jh_instantiation.specs.instances.Choosing.{AreUsable, Leads, choices_from};
ghost use Rattle.jh_instantiation.specs.instances.Standing.{IsMade};
ghost use Rattle.jh_instantiation.specs.instances.Progressing.{IsAtHand};

use crate::closed_terms::Terms;
use crate::instances::entry::{NodeEntries, NodeEntry, Origin};
use crate::instances::making::{AtHand, between};
use crate::skolem_constants::{put_one, settle};
use jh_arena::table::Table;
use jh_name::NoMemory;

/// Whether the term at a place isn't one of so many first ones.
fn is_new_term(table: &Table, terms: &Terms, place: usize, old: usize) -> bool
    requires { place < length terms.now.nodes.keys }
    ensures { (ts : List TermTree) (w : TermTree) → AreTerms table.now terms.now.nodes.keys ts → slice_get ts place ≡ Some w → result ≡ not (is_among w (take old ts)) }
{
    terms.differ();
    table.nodes_differ();
    if place < old {
        return false;
    }
    true
}

/// Whether a choice has a new term: one that was chosen, or the one at a place.
fn has_new(table: &Table, terms: &Terms, place: usize, old: usize, is_new: bool) -> bool
    requires { place < length terms.now.nodes.keys }
    ensures { (ts : List TermTree) (w : TermTree) → AreTerms table.now terms.now.nodes.keys ts → slice_get ts place ≡ Some w → result ≡ (is_new || not (is_among w (take old ts))) }
{
    if is_new {
        return true;
    }
    is_new_term(table, terms, place, old)
}

/// Whether a choice is whole and has no new term, once one more is chosen.
fn is_old(is_new: bool, left: usize) -> bool
    ensures { result ≡ true → (is_new ≡ false) × (left ≡ 1) }
{
    if is_new {
        return false;
    }
    left == 1
}

/// Takes the newest one off the terms that were chosen.
fn drop_last(chosen: &mut Vec<usize>)
    ensures { (ns : List ℕ) (n : ℕ) → chosen.old.items ≡ ns ++ n ∷ [] → chosen.new.items ≡ ns }
{
    chosen.pop();
}

/// Adds what comes of a universal that was put at terms, and answers the number behind those of its constants.
fn add_put(
    table: &mut Table,
    entries: &mut NodeEntries,
    universal: AtHand,
    chosen: &[usize],
    node: usize,
    next: u32,
) -> Result<u32, NoMemory>
    requires there { is_truth (slice_get (nodes table.old) node) ≡ true }
    ensures made { (es : List Entry) (ts : List TermTree) (h : rounds.AtHand) (c : List TermTree) → IsMade table.old entries.old es → IsAtHand table.old ts universal h → AreTerms table.old chosen.now c → IsFormula table.old node (rounds.put_at h.formula c) → OnOk result (IsMade table.new entries.new (es ++ (rounds.put h c next ∷ []))) }
    ensures next { (h : rounds.AtHand) (c : List TermTree) → IsFormula table.old node (rounds.put_at h.formula c) → IfOk result (λ free. free ≡ next + made_constants (rounds.put h c next ∷ [])) }
    ensures grows { Extends table.old table.new }
{
    let made = settle(table, node, next)?;
    let terms = entries.add_terms(chosen)?;
    entries.add(NodeEntry {
        formula: made.node,
        source: Origin::Entry(universal.place),
        terms,
        variables: chosen.len(),
        first: next,
        fresh: between(next, made.next),
    })?;
    Ok(made.next)
}

/// Adds what comes of a universal for whose variables terms were chosen, where one of them is new.
fn put_chosen(
    table: &mut Table,
    entries: &mut NodeEntries,
    universal: AtHand,
    chosen: &[usize],
    node: usize,
    is_new: bool,
    next: u32,
) -> Result<u32, NoMemory>
    requires there { is_truth (slice_get (nodes table.old) node) ≡ true }
    ensures made { (es : List Entry) (ts : List TermTree) (h : rounds.AtHand) (a : FormulaTree) (c : List TermTree) → IsMade table.old entries.old es → IsAtHand table.old ts universal h → AreTerms table.old chosen.now c → IsFormula table.old node a → Leads h.formula c a → OnOk result (IsMade table.new entries.new (es ++ puts h (choices_from c is_new 0 ts h.old) next)) }
    ensures next { (ts : List TermTree) (h : rounds.AtHand) (a : FormulaTree) (c : List TermTree) → IsFormula table.old node a → Leads h.formula c a → IfOk result (λ free. free ≡ next + made_constants (puts h (choices_from c is_new 0 ts h.old) next)) }
    ensures grows { Extends table.old table.new }
{
    if !is_new {
        return Ok(next);
    }
    add_put(table, entries, universal, chosen, node, next)
}

/// Puts what is left of a universal, after terms were chosen for its outer variables, at all choices for so many more: at
/// those that have a new term, where none was chosen yet.
#[cycle(put_rest)]
fn put_rest(
    table: &mut Table,
    entries: &mut NodeEntries,
    terms: &Terms,
    universal: AtHand,
    chosen: &mut Vec<usize>,
    node: usize,
    left: usize,
    is_new: bool,
    next: u32,
) -> Result<u32, NoMemory>
    requires there { is_truth (slice_get (nodes table.old) node) ≡ true }
    requires usable { AreUsable table.old terms.now.nodes.keys }
    ensures made { (es : List Entry) (ts : List TermTree) (h : rounds.AtHand) (a : FormulaTree) (c : List TermTree) → IsMade table.old entries.old es → AreTerms table.old terms.now.nodes.keys ts → IsAtHand table.old ts universal h → AreTerms table.old chosen.old.items c → IsFormula table.old node a → Leads h.formula c a → OnOk result (IsMade table.new entries.new (es ++ puts h (choices_from c is_new left ts h.old) next)) }
    ensures next { (ts : List TermTree) (h : rounds.AtHand) (a : FormulaTree) (c : List TermTree) → AreTerms table.old terms.now.nodes.keys ts → IsAtHand table.old ts universal h → AreTerms table.old chosen.old.items c → IsFormula table.old node a → Leads h.formula c a → IfOk result (λ free. free ≡ next + made_constants (puts h (choices_from c is_new left ts h.old) next)) }
    ensures chosen { OnOk result (chosen.new.items ≡ chosen.old.items) }
    ensures grows { Extends table.old table.new }
{
    if left == 0 {
        return put_chosen(
            table,
            entries,
            universal,
            chosen.as_slice(),
            node,
            is_new,
            next,
        );
    }
    let mut free = next;
    for place in 0..terms.len() {
        free = put_next(
            table, entries, terms, universal, chosen, node, left, is_new, place, free,
        )?;
    }
    Ok(free)
}

/// Puts it at one term for the next variable, and then at all choices for those that are left.
#[cycle(put_rest)]
fn put_next(
    table: &mut Table,
    entries: &mut NodeEntries,
    terms: &Terms,
    universal: AtHand,
    chosen: &mut Vec<usize>,
    node: usize,
    left: usize,
    is_new: bool,
    place: usize,
    next: u32,
) -> Result<u32, NoMemory>
    requires there { is_truth (slice_get (nodes table.old) node) ≡ true }
    requires usable { AreUsable table.old terms.now.nodes.keys }
    requires left { 1 ≤ left }
    requires place { place < length terms.now.nodes.keys }
    ensures made { (es : List Entry) (ts : List TermTree) (h : rounds.AtHand) (a : FormulaTree) (c : List TermTree) (w : TermTree) → IsMade table.old entries.old es → AreTerms table.old terms.now.nodes.keys ts → IsAtHand table.old ts universal h → AreTerms table.old chosen.old.items c → IsFormula table.old node a → Leads h.formula c a → slice_get ts place ≡ Some w → OnOk result (IsMade table.new entries.new (es ++ puts h (choices_from (c ++ (w ∷ [])) (is_new || not (is_among w h.old)) (left - 1) ts h.old) next)) }
    ensures next { (ts : List TermTree) (h : rounds.AtHand) (a : FormulaTree) (c : List TermTree) (w : TermTree) → AreTerms table.old terms.now.nodes.keys ts → IsAtHand table.old ts universal h → AreTerms table.old chosen.old.items c → IsFormula table.old node a → Leads h.formula c a → slice_get ts place ≡ Some w → IfOk result (λ free. free ≡ next + made_constants (puts h (choices_from (c ++ (w ∷ [])) (is_new || not (is_among w h.old)) (left - 1) ts h.old) next)) }
    ensures chosen { OnOk result (chosen.new.items ≡ chosen.old.items) }
    ensures grows { Extends table.old table.new }
{
    let new = has_new(table, terms, place, universal.old, is_new);
    if is_old(new, left) {
        return Ok(next);
    }
    let term = terms.at(place);
    let inner = put_one(table, node, term)?;
    chosen.push(term)?;
    let free = put_rest(
        table,
        entries,
        terms,
        universal,
        chosen,
        inner,
        left - 1,
        new,
        next,
    )?;
    drop_last(chosen);
    Ok(free)
}

/// Puts a universal at all choices of terms at which it wasn't put before, and answers the number behind those of the
/// constants.
pub(crate) fn put_all(
    table: &mut Table,
    entries: &mut NodeEntries,
    terms: &Terms,
    universal: AtHand,
    next: u32,
) -> Result<u32, NoMemory>
    requires there { is_truth (slice_get (nodes table.old) universal.node) ≡ true }
    requires usable { AreUsable table.old terms.now.nodes.keys }
    ensures made { (es : List Entry) (ts : List TermTree) (h : rounds.AtHand) → IsMade table.old entries.old es → AreTerms table.old terms.now.nodes.keys ts → IsAtHand table.old ts universal h → OnOk result (IsMade table.new entries.new (es ++ new_puts h ts next)) }
    ensures next { (ts : List TermTree) (h : rounds.AtHand) → AreTerms table.old terms.now.nodes.keys ts → IsAtHand table.old ts universal h → IfOk result (λ free. free ≡ next + made_constants (new_puts h ts next)) }
    ensures grows { Extends table.old table.new }
{
    terms.differ();
    let mut chosen = Vec::new(table.alloc());
    put_rest(
        table,
        entries,
        terms,
        universal,
        &mut chosen,
        universal.node,
        universal.variables,
        false,
        next,
    )
}
