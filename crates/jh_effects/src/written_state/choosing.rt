ghost use Rattle.std.specs.Prelude.{◌≡◌, ◌<◌, ◌↔◌, ℕ, Some, nat_eq, length, IfOk, OnOk};
ghost use Rattle.std.specs.Prelude.{if◌then◌else◌};
ghost use Rattle.std.specs.List.{list_any};
ghost use Rattle.jh_containers.specs.declared.transitive_closure.facts.Fact.{Fact};
ghost use Rattle.jh_containers.specs.transitive_closure.Spreads.{IsIn, passed_to};
ghost use Rattle.jh_effects.specs.written_state.Chosen.{IsChosen, put_last};

use crate::written_state::rows::Rows;
use jh_containers::transitive_closure::{Edges, FactList};
use jh_name::{NoMemory, Row};
use std::alloc::Global;

/// The row of a number, or none.
pub fn row_of(rows: &[Row<usize>], number: usize) -> &[usize]
    ensures { result.now ≡ passed_to rows.now number }
{
    match rows.get(number) {
        None => &[],
        Some(row) => row.items(),
    }
}

/// For each fact that something may be so, the things of which it is so.
fn things_by_fact(
    alloc: Global,
    facts: &FactList,
    kinds: usize,
) -> Result<Vec<Row<usize>>, NoMemory>
    requires { (fact : Fact) → IsIn facts.now fact → fact.what < kinds }
    ensures { IfOk result (λ made. (thing what : ℕ) → IsIn (passed_to made.items what) thing ↔ IsIn facts.now (record { of = thing; what = what })) }
{
    let mut things = Edges::none(alloc, kinds)?;
    for index in 0..facts.len() {
        let fact = facts.at(index);
        things.add(fact.what, fact.of)?;
    }
    things.into_rows(alloc)
}

/// Puts a place at the end of the row of a thing that has one.
fn put_known(rows: &mut Rows, thing: usize, place: usize) -> Result<(), NoMemory>
    ensures put { OnOk result ((other : ℕ) → other < length rows.old → passed_to rows.new other ≡ (if nat_eq other thing then put_last place (passed_to rows.old other) else passed_to rows.old other)) }
    ensures count { OnOk result (length rows.new ≡ length rows.old) }
{
    if thing >= rows.len() {
        return Ok(());
    }
    rows.put(thing, place)
}

/// Puts a place at the end of the rows of some things, once for each.
fn put_all(rows: &mut Rows, things: &[usize], place: usize) -> Result<(), NoMemory>
    ensures put { OnOk result ((other : ℕ) → other < length rows.old → passed_to rows.new other ≡ (if list_any (nat_eq other) things.now then put_last place (passed_to rows.old other) else passed_to rows.old other)) }
    ensures count { OnOk result (length rows.new ≡ length rows.old) }
{
    for thing in things {
        put_known(rows, *thing, place)?;
    }
    Ok(())
}

/// For each of so many things the places of a list, in order, of which the thing has the fact that stands there. The
/// time is in proportion to the facts, the things and the list.
pub fn choose(
    alloc: Global,
    facts: &FactList,
    kinds: usize,
    things: usize,
    list: &[usize],
) -> Result<Vec<Row<usize>>, NoMemory>
    requires { (fact : Fact) → IsIn facts.now fact → fact.what < kinds }
    ensures chosen { IfOk result (λ made. (thing : ℕ) → thing < things → IsChosen facts.now list.now thing (passed_to made.items thing)) }
    ensures count { IfOk result (λ made. length made.items ≡ things) }
{
    let by_fact = things_by_fact(alloc, facts, kinds)?;
    let mut rows = Rows::none(alloc, things)?;
    for place in 0..list.len() {
        put_all(&mut rows, row_of(by_fact.as_slice(), list[place]), place)?;
    }
    rows.into_rows(alloc)
}
