ghost use Rattle.std.specs.Prelude.{◌≡◌, ◌++◌, map, true, List, IfOk};
ghost use Rattle.jh_form.specs.Tree.{FormulaTree, ValueTree};
ghost use Rattle.jh_arena.specs.table.Growth.{Extends};
ghost use Rattle.jh_seq.specs.sequent.Sequents.{SequentTree};
ghost use Rattle.jh_reach.specs.Standing.{AreFormulas};
ghost use Rattle.jh_abstraction.specs.choice_of_hypotheses.Asking.{IsAsked};
ghost use Rattle.jh_normal_forms.specs.idle_updates.Dropped.{dropped};
ghost use Rattle.jh_fca.specs.elimination.Eliminated.{eliminate};
ghost use Rattle.jh_seq.specs.splitting.Local.{is_local};
ghost use Rattle.jh_fca.specs.local_form.Each.{over_each, formulas};
ghost use Rattle.jh_fca.specs.local_form.Chosen.{chosen};
ghost use Rattle.jh_fca.specs.local_form.Named.{first_turn, updates, named, update_facts};
ghost use Rattle.jh_fca.specs.local_form.Chains.{changes, reach_axioms};
ghost use Rattle.jh_fca.specs.local_form.LocalOf.{with_names, cut_down, with_axioms, local_with, local_of};
ghost use Rattle.jh_local_form.specs.updates.Updating.{IsNaming};
ghost use Rattle.jh_local_form.specs.local_sequents.Forming.{IsFormed};

use crate::field_lists::{changes, reach_axioms};
use crate::local_sequents::choosing::chosen;
use crate::local_sequents::each::{all_cut, all_dropped, all_named, cut_one};
use crate::local_sequents::forming::{LocalForm, joined};
use crate::updates::{Naming, first_turn, named, names, update_facts, updates};
use jh_abstraction::jh_splitting::NodeHyp;
use jh_arena::table::Table;
use jh_field_constraints::eliminate;
use jh_name::{NoMemory, Row};
use jh_normal_forms::idle_updates::dropped;

/// The formulas without the updates that change nothing.
fn begun(table: &mut Table, form: &LocalForm) -> Result<LocalForm, NoMemory>
    requires form { (s : SequentTree) × IsFormed table.old form.now s }
    ensures form { IfOk result (λ made. (s : SequentTree) → IsFormed table.old form.now s → IsFormed table.new made (over_each dropped dropped s)) }
    ensures grows { Extends table.old table.new }
{
    let goal = dropped(table, form.goal)?;
    let facts = all_dropped(table, form.facts.items())?;
    Ok(LocalForm {
        facts: Row::of(facts),
        goal,
    })
}

/// The first turn beyond those of the formulas.
fn turn_beyond(table: &Table, form: &LocalForm) -> Result<u32, NoMemory>
    requires form { (s : SequentTree) × IsFormed table.now form.now s }
    ensures { IfOk result (λ made. (s : SequentTree) → IsFormed table.now form.now s → made ≡ first_turn (formulas s)) }
{
    let formulas = form.formulas(table.alloc())?;
    first_turn(table, formulas.items())
}

/// The names of the updates of the formulas, from this turn on.
fn naming_of(table: &mut Table, form: &LocalForm, first: u32) -> Result<Naming, NoMemory>
    requires form { (s : SequentTree) × IsFormed table.old form.now s }
    ensures naming { IfOk result (λ made. (s : SequentTree) → IsFormed table.old form.now s → IsNaming table.new made (updates (formulas s))) }
    ensures first { IfOk result (λ made. made.first ≡ first) }
    ensures grows { Extends table.old table.new }
{
    let formulas = form.formulas(table.alloc())?;
    let list = updates(table, formulas.items())?;
    names(table, &list, first)
}

/// The facts with the names of updates, and behind them what the names say.
fn named_facts(table: &mut Table, naming: &Naming, facts: &[usize]) -> Result<Row<usize>, NoMemory>
    requires naming { (us : List ValueTree) × IsNaming table.old naming.now us }
    requires facts { (all : List FormulaTree) × AreFormulas table.old facts.now all }
    ensures facts { IfOk result (λ made. (us : List ValueTree) (all : List FormulaTree) → IsNaming table.old naming.now us → AreFormulas table.old facts.now all → AreFormulas table.new made (map (named us naming.now.first) all ++ update_facts us naming.now.first)) }
    ensures grows { Extends table.old table.new }
{
    let old = all_named(table, naming, facts)?;
    let told = update_facts(table, naming)?;
    joined(table.alloc(), old.as_slice(), told.as_slice())
}

/// The formulas with the names of updates, and behind the facts what the names say.
fn with_names(table: &mut Table, naming: &Naming, form: &LocalForm) -> Result<LocalForm, NoMemory>
    requires naming { (us : List ValueTree) × IsNaming table.old naming.now us }
    requires form { (s : SequentTree) × IsFormed table.old form.now s }
    ensures form { IfOk result (λ made. (us : List ValueTree) (s : SequentTree) → IsNaming table.old naming.now us → IsFormed table.old form.now s → IsFormed table.new made (with_names us naming.now.first s)) }
    ensures grows { Extends table.old table.new }
{
    let goal = named(table, naming, form.goal)?;
    let facts = named_facts(table, naming, form.facts.items())?;
    Ok(LocalForm { facts, goal })
}

/// What is left of the formulas, with their sets opened.
fn cut_down(table: &mut Table, form: &LocalForm) -> Result<LocalForm, NoMemory>
    requires form { (s : SequentTree) × IsFormed table.old form.now s }
    ensures form { IfOk result (λ made. (s : SequentTree) → IsFormed table.old form.now s → IsFormed table.new made (cut_down s)) }
    ensures grows { Extends table.old table.new }
{
    let goal = cut_one(table, form.goal, true)?;
    let facts = all_cut(table, form.facts.items())?;
    Ok(LocalForm {
        facts: Row::of(facts),
        goal,
    })
}

/// The formulas without derived fields.
fn without_derived(table: &mut Table, form: &LocalForm) -> Result<LocalForm, NoMemory>
    requires form { (s : SequentTree) × IsFormed table.old form.now s × (is_local s ≡ true) }
    ensures form { IfOk result (λ made. (s : SequentTree) → IsFormed table.old form.now s → is_local s ≡ true → IsFormed table.new made (eliminate s)) }
    ensures grows { Extends table.old table.new }
{
    let made = eliminate(table, form.facts.items(), form.goal)?;
    Ok(LocalForm {
        facts: made.facts,
        goal: made.goal,
    })
}

/// The axioms of reachability of the formulas.
fn axioms_for(table: &mut Table, naming: &Naming, form: &LocalForm) -> Result<Vec<usize>, NoMemory>
    requires naming { (us : List ValueTree) × IsNaming table.old naming.now us }
    requires form { (s : SequentTree) × IsFormed table.old form.now s }
    ensures axioms { IfOk result (λ made. (us : List ValueTree) (s : SequentTree) → IsNaming table.old naming.now us → IsFormed table.old form.now s → AreFormulas table.new made.items (reach_axioms (formulas s) (changes us naming.now.first))) }
    ensures grows { Extends table.old table.new }
{
    let formulas = form.formulas(table.alloc())?;
    let made = changes(table, naming)?;
    reach_axioms(table, formulas.items(), made.as_slice())
}

/// The formulas with the axioms of reachability behind the facts.
fn with_axioms(table: &mut Table, naming: &Naming, form: &LocalForm) -> Result<LocalForm, NoMemory>
    requires naming { (us : List ValueTree) × IsNaming table.old naming.now us }
    requires form { (s : SequentTree) × IsFormed table.old form.now s }
    ensures form { IfOk result (λ made. (us : List ValueTree) (s : SequentTree) → IsNaming table.old naming.now us → IsFormed table.old form.now s → IsFormed table.new made (with_axioms us naming.now.first s)) }
    ensures grows { Extends table.old table.new }
{
    let axioms = axioms_for(table, naming, form)?;
    let facts = joined(table.alloc(), form.facts.items(), axioms.as_slice())?;
    Ok(LocalForm {
        facts,
        goal: form.goal,
    })
}

/// The local form of formulas without updates that change nothing, where names have turns from this one on.
fn local_from(table: &mut Table, form: &LocalForm, first: u32) -> Result<LocalForm, NoMemory>
    requires form { (s : SequentTree) × IsFormed table.old form.now s }
    ensures form { IfOk result (λ made. (s : SequentTree) → IsFormed table.old form.now s → IsFormed table.new made (local_with (updates (formulas s)) first s)) }
    ensures grows { Extends table.old table.new }
{
    let naming = naming_of(table, form, first)?;
    let named = with_names(table, &naming, form)?;
    let left = cut_down(table, &named)?;
    let without = without_derived(table, &left)?;
    with_axioms(table, &naming, &without)
}

/// The local form of formulas.
fn local_form(table: &mut Table, form: &LocalForm) -> Result<LocalForm, NoMemory>
    requires form { (s : SequentTree) × IsFormed table.old form.now s }
    ensures form { IfOk result (λ made. (s : SequentTree) → IsFormed table.old form.now (chosen s) → IsFormed table.new made (local_of s)) }
    ensures grows { Extends table.old table.new }
{
    let first = turn_beyond(table, form)?;
    let made = begun(table, form)?;
    local_from(table, &made, first)
}

/// The nodes of the local form of a sequent. The hypotheses are known by their labels and by the nodes of their facts. What the
/// table held stays in its place, after any answer. The answer is want of memory where a tree nests deeper than MOST_LEVELS, and
/// where a turn of a name or a number of a bound variable leaves u32.
pub fn local_of(
    table: &mut Table,
    hyps: &[NodeHyp],
    label: Option<usize>,
    facts: &[usize],
    goal: usize,
) -> Result<LocalForm, NoMemory>
    requires sequent { (s : SequentTree) × IsAsked table.old hyps.now label facts.now goal s }
    ensures local { IfOk result (λ made. (s : SequentTree) → IsAsked table.old hyps.now label facts.now goal s → IsFormed table.new made (local_of s)) }
    ensures grows { Extends table.old table.new }
{
    let form = chosen(table, hyps, label, facts, goal)?;
    local_form(table, &form)
}
