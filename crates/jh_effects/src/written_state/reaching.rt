ghost use Rattle.std.specs.Prelude.{◌≡◌, ◌<◌, ◌⊎◌, ◌↔◌, ℕ, List, [], ◌∷◌, Some, length, slice_get, IfOk, OnOk};
ghost use Rattle.jh_containers.specs.declared.transitive_closure.facts.Fact.{Fact};
ghost use Rattle.jh_containers.specs.transitive_closure.Spreads.{IsIn, passed_to};
ghost use Rattle.jh_effects.specs.declared.written_state.flow.Given.{Given};
ghost use Rattle.jh_effects.specs.declared.written_state.flow.Key.{Key};
ghost use Rattle.jh_effects.specs.declared.written_state.flow.Link.{Link};
ghost use Rattle.jh_effects.specs.written_state.Arising.{Arises, ArePlaces, AreTold, AreNumbers};
ghost use Rattle.jh_effects.specs.written_state.Reaching.{IsReached};

use crate::written_state::choosing::{choose, row_of};
use crate::written_state::flow::{Flow, Key, Link};
use crate::written_state::numbering::{Numbered, number_all};
use jh_containers::transitive_closure::{Edges, Fact, FactList, spread};
use jh_name::{NoMemory, Row};
use std::alloc::Global;

/// For each of so many things those from which links lead to it.
fn sources_of(alloc: Global, links: &[Link], things: usize) -> Result<Vec<Row<usize>>, NoMemory>
    requires { (link : Link) → IsIn links.now link → link.to < things }
    ensures { IfOk result (λ made. (to from : ℕ) → IsIn (passed_to made.items to) from ↔ IsIn links.now (record { from = from; to = to })) }
{
    let mut sources = Edges::none(alloc, things)?;
    for link in links {
        sources.add(link.to, link.from)?;
    }
    sources.into_rows(alloc)
}

/// For each of so many things what is given to it.
fn given_rows(alloc: Global, facts: &[Fact], things: usize) -> Result<Vec<Row<usize>>, NoMemory>
    requires { (fact : Fact) → IsIn facts.now fact → fact.of < things }
    ensures { IfOk result (λ made. (of what : ℕ) → IsIn (passed_to made.items of) what ↔ IsIn facts.now (record { of = of; what = what })) }
{
    let mut given = Edges::none(alloc, things)?;
    for fact in facts {
        given.add(fact.of, fact.what)?;
    }
    given.into_rows(alloc)
}

/// Adds what is in a row to a thing.
fn add_row(list: &mut FactList, of: usize, row: &[usize]) -> Result<(), NoMemory>
    ensures added { OnOk result ((what : ℕ) → IsIn row.now what → IsIn list.new (record { of = of; what = what })) }
    ensures keeps { (place : ℕ) (f : Fact) → slice_get list.old place ≡ Some f → slice_get list.new place ≡ Some f }
    ensures only { (f : Fact) → IsIn list.new f → ((f.of ≡ of) × IsIn row.now f.what) ⊎ IsIn list.old f }
{
    for what in row {
        list.add(Fact { of, what: *what })?;
    }
    Ok(())
}

/// Adds to a thing what is given to those that are reached.
fn add_rows(
    list: &mut FactList,
    of: usize,
    given: &[Row<usize>],
    reached: &FactList,
) -> Result<(), NoMemory>
    ensures added { OnOk result ((f : Fact) (what : ℕ) → IsIn reached.now f → IsIn (passed_to given.now f.of) what → IsIn list.new (record { of = of; what = what })) }
    ensures keeps { (place : ℕ) (f : Fact) → slice_get list.old place ≡ Some f → slice_get list.new place ≡ Some f }
    ensures only { (f : Fact) → IsIn list.new f → ((f.of ≡ of) × ((g : Fact) × IsIn reached.now g × IsIn (passed_to given.now g.of) f.what)) ⊎ IsIn list.old f }
{
    for index in 0..reached.len() {
        let fact = reached.at(index);
        add_row(list, of, row_of(given, fact.of))?;
    }
    Ok(())
}

/// Adds to a thing what is given to it, and to those from which links lead to it.
fn add_reached(
    alloc: Global,
    list: &mut FactList,
    of: usize,
    given: &[Row<usize>],
    sources: &[Row<usize>],
) -> Result<(), NoMemory>
    ensures added { OnOk result ((what : ℕ) → IsReached given.now sources.now of what → IsIn list.new (record { of = of; what = what })) }
    ensures keeps { (place : ℕ) (f : Fact) → slice_get list.old place ≡ Some f → slice_get list.new place ≡ Some f }
    ensures only { (f : Fact) → IsIn list.new f → ((f.of ≡ of) × IsReached given.now sources.now of f.what) ⊎ IsIn list.old f }
{
    let start = [Fact { of, what: 0 }];
    let reached = spread(alloc, &start, sources)?;
    add_rows(list, of, given, &reached)
}

/// Of so many things at the start what is given to each, and to those from which links lead to it.
fn reached_facts(
    alloc: Global,
    wanted: usize,
    given: &[Row<usize>],
    sources: &[Row<usize>],
) -> Result<FactList, NoMemory>
    ensures added { IfOk result (λ made. (of what : ℕ) → of < wanted → IsReached given.now sources.now of what → IsIn made (record { of = of; what = what })) }
    ensures only { IfOk result (λ made. (f : Fact) → IsIn made f → IsReached given.now sources.now f.of f.what) }
{
    let mut list = FactList::new(alloc);
    for of in 0..wanted {
        add_reached(alloc, &mut list, of, given, sources)?;
    }
    Ok(list)
}

/// For each of so many things at the start the places, in a list of keys, of what it has, over the numbers of keys.
fn places_reached(
    alloc: Global,
    numbered: &Numbered,
    sources: &[Row<usize>],
    things: usize,
    wanted: usize,
) -> Result<Vec<Row<usize>>, NoMemory>
    requires numbers { (fact : Fact) → IsIn numbered.now.facts.items fact → fact.what < length numbered.now.keys.keys }
    requires things { (fact : Fact) → IsIn numbered.now.facts.items fact → fact.of < things }
    ensures places { IfOk result (λ made. (given : List Given) (links : List Link) (list : List Key) (n : ℕ) → AreTold numbered.now.keys.keys numbered.now.facts.items given → AreNumbers numbered.now.keys.keys numbered.now.list.items list → ((to from : ℕ) → IsIn (passed_to sources.now to) from ↔ IsIn links (record { from = from; to = to })) → n < wanted → ArePlaces (Arises given links n) list (passed_to made.items n)) }
    ensures count { IfOk result (λ made. length made.items ≡ wanted) }
{
    let given = given_rows(alloc, numbered.facts.as_slice(), things)?;
    let reached = reached_facts(alloc, wanted, given.as_slice(), sources)?;
    choose(
        alloc,
        &reached,
        numbered.keys.len(),
        wanted,
        numbered.list.as_slice(),
    )
}

/// Of so many things, for each of those at the start the places, in a list of the state, of what the thing has by itself
/// or from others, in order. Each is walked from, so the time is in proportion to what lies behind each of them.
pub fn first_places(
    alloc: Global,
    flow: Flow,
    things: usize,
    wanted: usize,
    list: Vec<Key>,
) -> Result<Vec<Row<usize>>, NoMemory>
    requires links { (link : Link) → IsIn flow.links.items link → link.to < things }
    requires given { (given : Given) → IsIn flow.given.items given → given.of < things }
    ensures places { IfOk result (λ made. (n : ℕ) → n < wanted → ArePlaces (Arises flow.given.items flow.links.items n) list.items (passed_to made.items n)) }
    ensures count { IfOk result (λ made. length made.items ≡ wanted) }
{
    let Flow { given, links } = flow;
    let sources = sources_of(alloc, links.as_slice(), things)?;
    let numbered = number_all(alloc, given, list)?;
    places_reached(alloc, &numbered, sources.as_slice(), things, wanted)
}
