#![tactic(auto, using(jh_arena::proofs::table::Listed::growth_steps))]

ghost use Rattle.std.specs.Prelude.{◌≡◌, ◌+◌, ◌<◌, ℕ, List, [], ◌++◌, Some, length, slice_get, IfOk, OnOk};
ghost use Rattle.jh_form.specs.Tree.{FormulaTree};
ghost use Rattle.jh_arena.specs.table.Entries.{Listing};
ghost use Rattle.jh_arena.specs.table.Growth.{Extends};
ghost use Rattle.jh_query.specs.queries.Size.{capped};
ghost use Rattle.jh_inst.specs.instances.Count as spec;
ghost use Rattle.jh_instantiation.specs.instance_count.Grouping.{AreGroups, AreFormulas, IsTally, single_groups};

use crate::instance_count::capped::plus;
use crate::instance_count::groups::{Group, add_group};
use crate::instance_count::tallies::Tally;
use jh_arena::table::Table;
use jh_name::NoMemory;

/// The group at a place.
fn group_at(groups: &[Group], place: usize) -> Group
    requires { place < length groups.now }
    ensures { slice_get groups.now place ≡ Some result }
{
    groups[place]
}

/// The formula at a place.
fn formula_at(formulas: &[usize], place: usize) -> usize
    requires { place < length formulas.now }
    ensures { slice_get formulas.now place ≡ Some result }
{
    formulas[place]
}

/// The universals among formulas, each a group of its own.
fn groups_of(table: &Table, formulas: &[usize]) -> Result<Vec<Group>, NoMemory>
    requires there { (fs : List FormulaTree) × AreFormulas table.now formulas.now fs }
    ensures { (fs : List FormulaTree) → AreFormulas table.now formulas.now fs → IfOk result (λ made. AreGroups table.now made.items (single_groups fs)) }
{
    let mut groups = Vec::new(table.alloc());
    for index in 0..formulas.len() {
        let formula = formula_at(formulas, index);
        add_group(table, &mut groups, formula, 1)?;
    }
    Ok(groups)
}

/// The puts and terms of a round.
fn sums(table: &Table, groups: &[Group], tally: Tally) -> Result<Tally, NoMemory>
    requires there { (gs : List spec.Group) × AreGroups table.now groups.now gs }
    ensures { (c : spec.Tally) → IsTally table.now groups.now tally c → IfOk result (λ made. (made.puts ≡ capped (c.puts + spec.total (spec.group_puts c.terms) c.at_hand)) × (made.terms ≡ capped (c.terms + spec.total (spec.group_terms c.terms) c.at_hand))) }
{
    let mut puts = tally.puts;
    let mut terms = tally.terms;
    for index in 0..groups.len() {
        let group = group_at(groups, index);
        puts = plus(puts, group.puts(tally.terms));
        let added = group.added(table, tally.terms)?;
        terms = plus(terms, added);
    }
    Ok(Tally { puts, terms })
}

/// What the puts of a round leave.
fn all_left(table: &mut Table, groups: &[Group], terms: u128) -> Result<Vec<Group>, NoMemory>
    requires there { (gs : List spec.Group) × AreGroups table.old groups.now gs }
    ensures left { (gs : List spec.Group) (n : ℕ) → AreGroups table.old groups.now gs → terms ≡ capped n → IfOk result (λ made. AreGroups table.new made.items (spec.all_left n gs)) }
    ensures grows { Extends table.old table.new }
{
    let mut left = Vec::new(table.alloc());
    for index in 0..groups.len() {
        let group = group_at(groups, index);
        group.add_left(table, &mut left, terms)?;
    }
    Ok(left)
}

/// A round: the puts and terms of each group, and behind the groups what their puts leave.
fn round(table: &mut Table, groups: &mut Vec<Group>, tally: Tally) -> Result<Tally, NoMemory>
    requires there { (c : spec.Tally) × IsTally table.old groups.old.items tally c }
    ensures tally { (c : spec.Tally) → IsTally table.old groups.old.items tally c → IfOk result (λ made. IsTally table.new groups.new.items made (spec.tally_round c)) }
    ensures grows { Extends table.old table.new }
{
    let next = sums(table, groups.as_slice(), tally)?;
    let left = all_left(table, groups.as_slice(), tally.terms)?;
    groups.extend_from_slice(left.as_slice())?;
    Ok(next)
}

/// The rounds.
fn all_rounds(
    table: &mut Table,
    groups: &mut Vec<Group>,
    first: Tally,
    rounds: u32,
) -> Result<Tally, NoMemory>
    requires there { (c : spec.Tally) × IsTally table.old groups.old.items first c }
    ensures tally { (c : spec.Tally) → IsTally table.old groups.old.items first c → IfOk result (λ made. IsTally table.new groups.new.items made (spec.tally_rounds rounds c)) }
    ensures grows { Extends table.old table.new }
{
    let mut tally = first;
    for _round in 0..rounds {
        if groups.as_slice().is_empty() {
            return Ok(tally);
        }
        tally = round(table, groups, tally)?;
    }
    Ok(tally)
}

/// The puts, with those of the last pass.
fn ended(groups: &[Group], tally: Tally) -> u128
    ensures { (t : Listing) (c : spec.Tally) → IsTally t groups.now tally c → result ≡ capped (spec.tally_end c) }
{
    let mut puts = tally.puts;
    for index in 0..groups.len() {
        let group = group_at(groups, index);
        puts = plus(puts, group.last_puts(tally.terms));
    }
    puts
}

/// How many instances the universals among formulas have at most in so many rounds and the last pass, where there are so many
/// terms at the beginning: the greatest u128 where that is passed. The table gets what is left by puts at null. The answer is
/// want of memory where a formula nests deeper than MOST_LEVELS of the table.
pub fn count_from(
    table: &mut Table,
    formulas: &[usize],
    terms: usize,
    rounds: u32,
) -> Result<u128, NoMemory>
    requires there { (fs : List FormulaTree) × AreFormulas table.old formulas.now fs }
    ensures count { (fs : List FormulaTree) → AreFormulas table.old formulas.now fs → IfOk result (λ made. made ≡ capped (spec.tally_end (spec.tally_rounds rounds (record { puts = 0; at_hand = single_groups fs; terms = terms })))) }
    ensures grows { Extends table.old table.new }
{
    let mut groups = groups_of(table, formulas)?;
    let first = Tally {
        puts: 0,
        terms: terms as u128,
    };
    let tally = all_rounds(table, &mut groups, first, rounds)?;
    Ok(ended(groups.as_slice(), tally))
}
