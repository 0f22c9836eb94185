#![tactic(auto, using(jh_arena::proofs::table::Listed::growth_steps))]

ghost use Rattle.std.specs.Prelude.{◌≡◌, ◌<◌, ◌≤◌, ◌∷◌, [], List, ℕ, ◌==◌, if◌then◌else◌, true, false, Some, map, length, IfOk, OnOk, IsErrOf, slice_get};
ghost use Rattle.jh_form.specs.Tree.{FormulaTree};
ghost use Rattle.jh_instantiation.specs.instance_count.Grouping.{AreFormulas};
ghost use Rattle.jh_arena.specs.table.Growth.{Extends};
ghost use Rattle.jh_query.specs.queries.Size.{capped};
ghost use Rattle.jh_inst.specs.instances.Count.{count_all};
ghost use Rattle.jh_inst.specs.instances.Entries.{Entry};
ghost use Rattle.jh_inst.specs.instances.Rounds as spec;
ghost use Rattle.jh_instantiation.specs.instances.Standing.{IsMade};
ghost use Rattle.jh_instantiation.specs.instances.Progressing.{IsProgress, put_each_of, put_now, noted_at, after_puts};

use crate::instances::beginning::{add_terms, add_universals, begun};
use crate::instances::counting::count_begun;
use crate::instances::entry::NodeEntries;
use crate::instances::making::{AtHand, InstanceError, Progress, universal_at};
use crate::instances::putting::put_all;
use jh_arena::table::Table;
use jh_name::NoMemory;

/// The most instances that there can be.
pub const MOST_INSTANCES: u128 = 100_000;

/// Whether a universal of so many variables is put: one of one variable, or any.
fn is_put(of_one: bool, variables: usize) -> bool
    ensures { result ≡ (if of_one then variables == 1 else true) }
{
    if of_one {
        return variables == 1;
    }
    true
}

/// Puts the universal at a place at all choices of terms at which it wasn't put before, where it is to be put.
fn put_place(
    table: &mut Table,
    progress: &mut Progress,
    place: usize,
    of_one: bool,
) -> Result<(), NoMemory>
    requires there { (p : spec.Progress) × IsProgress table.old progress.old p }
    requires place { place < length progress.old.at_hand.items }
    ensures made { (p : spec.Progress) (h : spec.AtHand) → IsProgress table.old progress.old p → slice_get p.at_hand place ≡ Some h → OnOk result (IsProgress table.new progress.new (after_puts p (spec.all_puts (put_each_of of_one (h ∷ [])) p.terms p.next))) }
    ensures grows { Extends table.old table.new }
    ensures at_hand { OnOk result (progress.new.at_hand.items ≡ progress.old.at_hand.items) }
{
    let universal = universal_at(progress.at_hand.as_slice(), place);
    if !is_put(of_one, universal.variables) {
        return Ok(());
    }
    let next = put_all(
        table,
        &mut progress.entries,
        &progress.terms,
        universal,
        progress.next,
    )?;
    progress.next = next;
    Ok(())
}

/// Puts each universal at hand, or each of one variable, at all choices of terms at which it wasn't put before.
fn put_each(table: &mut Table, progress: &mut Progress, of_one: bool) -> Result<(), NoMemory>
    requires there { (p : spec.Progress) × IsProgress table.old progress.old p }
    ensures made { (p : spec.Progress) → IsProgress table.old progress.old p → OnOk result (IsProgress table.new progress.new (after_puts p (spec.all_puts (put_each_of of_one p.at_hand) p.terms p.next))) }
    ensures grows { Extends table.old table.new }
{
    for place in 0..progress.at_hand.len() {
        put_place(table, progress, place, of_one)?;
    }
    Ok(())
}

/// A universal that was put at all choices of so many terms.
fn put_at_all(universal: AtHand, count: usize) -> AtHand
    ensures { result ≡ put_now count universal }
{
    AtHand {
        old: count,
        ..universal
    }
}

/// Notes that the universal at a place was put at all choices of so many terms.
fn note_at(at_hand: &mut Vec<AtHand>, place: usize, count: usize)
    requires { place < length at_hand.old.items }
    ensures { at_hand.new.items ≡ noted_at count at_hand.old.items place }
{
    let universal = universal_at(at_hand.as_slice(), place);
    at_hand[place] = put_at_all(universal, count);
}

/// Each universal at hand was put at all choices of so many terms.
fn note_put(at_hand: &mut Vec<AtHand>, count: usize)
    ensures { at_hand.new.items ≡ map (put_now count) at_hand.old.items }
{
    for place in 0..at_hand.len() {
        note_at(at_hand, place, count);
    }
}

/// Notes what was put in a round: each universal at hand, and from the next round on those that came of it, with their terms.
fn note_round(table: &Table, progress: &mut Progress, from: usize) -> Result<(), NoMemory>
    requires there { (es : List Entry) × IsMade table.now progress.old.entries es }
    ensures { (p : spec.Progress) (es : List Entry) → IsProgress table.now progress.old (after_puts p es) → from ≡ length p.entries → OnOk result (IsProgress table.now progress.new (spec.with_puts p es)) }
{
    note_put(&mut progress.at_hand, progress.terms.len());
    add_universals(table, &progress.entries, &mut progress.at_hand, from)?;
    add_terms(table, &progress.entries, &mut progress.terms, from)
}

/// A round.
fn round(table: &mut Table, progress: &mut Progress) -> Result<(), NoMemory>
    requires there { (p : spec.Progress) × IsProgress table.old progress.old p }
    ensures made { (p : spec.Progress) → IsProgress table.old progress.old p → OnOk result (IsProgress table.new progress.new (spec.round p)) }
    ensures grows { Extends table.old table.new }
{
    let from = progress.entries.items.as_slice().len();
    put_each(table, progress, false)?;
    note_round(table, progress, from)
}

/// Whether no universal is at hand.
fn none_at_hand(at_hand: &[AtHand]) -> bool
    ensures { result ≡ true → at_hand.now ≡ [] }
{
    at_hand.len() == 0
}

/// The rounds, up to the first one in which no universal is at hand.
fn all_rounds(table: &mut Table, progress: &mut Progress, rounds: u32) -> Result<(), NoMemory>
    requires there { (p : spec.Progress) × IsProgress table.old progress.old p }
    ensures made { (p : spec.Progress) → IsProgress table.old progress.old p → OnOk result ((q : spec.Progress) × IsProgress table.new progress.new q × (spec.ended q ≡ spec.ended (spec.rounds rounds p))) }
    ensures grows { Extends table.old table.new }
{
    for _turn in 0..rounds {
        if none_at_hand(progress.at_hand.as_slice()) {
            return Ok(());
        }
        round(table, progress)?;
    }
    Ok(())
}

/// Whether there can be more instances than MOST_INSTANCES.
fn is_too_many(count: u128) -> bool
    ensures more { result ≡ true → 100000 < count }
    ensures few { result ≡ false → count ≤ 100000 }
{
    count > MOST_INSTANCES
}

/// The facts, in negation normal form, and what so many rounds make of them, in the order of the definition: the formula, the source, the
/// terms and the constants of each. Constants from `first` on are free. What the table held stays in its place, after any answer. The answer
/// is `TooMany` exactly where there can be more than MOST_INSTANCES instances, those of the last pass included, with their count, which is
/// the greatest u128 where that is passed; no instance is made then. It is want of memory, too, where a number of a constant leaves u32,
/// where a fact has more nodes than MOST_NODES, each counted where it stands, and where a formula nests deeper than MOST_LEVELS of the table.
pub fn first_entries(
    table: &mut Table,
    facts: &[usize],
    first: u32,
    rounds: u32,
) -> Result<Progress, InstanceError>
    requires there { (fs : List FormulaTree) × AreFormulas table.old facts.now fs }
    ensures made { (fs : List FormulaTree) → AreFormulas table.old facts.now fs → IfOk result (λ made. (p : spec.Progress) × IsProgress table.new made p × (spec.ended p ≡ spec.all_made fs first rounds)) }
    ensures few { (fs : List FormulaTree) → AreFormulas table.old facts.now fs → IfOk result (λ made. count_all fs first rounds ≤ 100000) }
    ensures too_many { (fs : List FormulaTree) (n : ℕ) → AreFormulas table.old facts.now fs → IsErrOf result (InstanceError.TooMany n) → (n ≡ capped (count_all fs first rounds)) × (100000 < n) }
    ensures grows { Extends table.old table.new }
{
    let mut progress = begun(table, facts, first)?;
    let count = count_begun(table, &progress, rounds)?;
    if is_too_many(count) {
        return Err(InstanceError::TooMany(count));
    }
    all_rounds(table, &mut progress, rounds)?;
    Ok(progress)
}

/// All entries: those of the rounds, as they come from `first_entries`, and then those of the last pass, in which each universal of one
/// variable is put at what came of the last round. What the table held stays in its place, after any answer.
pub fn last_entries(table: &mut Table, mut progress: Progress) -> Result<NodeEntries, NoMemory>
    requires there { (p : spec.Progress) × IsProgress table.old progress p }
    ensures made { (p : spec.Progress) → IsProgress table.old progress p → IfOk result (λ made. IsMade table.new made (spec.ended p)) }
    ensures grows { Extends table.old table.new }
{
    put_each(table, &mut progress, true)?;
    Ok(progress.entries)
}

/// All entries at once, as they come from `first_entries` and `last_entries`.
pub fn entries(
    table: &mut Table,
    facts: &[usize],
    first: u32,
    rounds: u32,
) -> Result<NodeEntries, InstanceError>
    requires there { (fs : List FormulaTree) × AreFormulas table.old facts.now fs }
    ensures made { (fs : List FormulaTree) → AreFormulas table.old facts.now fs → IfOk result (λ made. IsMade table.new made (spec.all_made fs first rounds)) }
    ensures few { (fs : List FormulaTree) → AreFormulas table.old facts.now fs → IfOk result (λ made. count_all fs first rounds ≤ 100000) }
    ensures too_many { (fs : List FormulaTree) (n : ℕ) → AreFormulas table.old facts.now fs → IsErrOf result (InstanceError.TooMany n) → (n ≡ capped (count_all fs first rounds)) × (100000 < n) }
    ensures grows { Extends table.old table.new }
{
    match first_entries(table, facts, first, rounds) {
        Ok(progress) => Ok(last_entries(table, progress)?),
        Err(error) => Err(error),
    }
}
