ghost use Rattle.std.specs.Prelude.{◌≡◌, ◌<◌, ◌↔◌, ℕ, List, length, IfOk};
ghost use Rattle.jh_containers.specs.declared.transitive_closure.facts.Fact.{Fact};
ghost use Rattle.jh_containers.specs.transitive_closure.Spreads.{IsIn, passed_to};
ghost use Rattle.jh_effects.specs.declared.written_state.flow.Given.{Given};
ghost use Rattle.jh_effects.specs.declared.written_state.flow.Key.{Key};
ghost use Rattle.jh_effects.specs.declared.written_state.flow.Link.{Link};
ghost use Rattle.jh_effects.specs.written_state.Arising.{Arises, ArePlaces, AreTold, AreNumbers};

use crate::written_state::choosing::choose;
use crate::written_state::flow::{Flow, Key, Link};
use crate::written_state::numbering::{Numbered, number_all};
use jh_containers::transitive_closure::{Edges, spread};
use jh_name::{NoMemory, Row};
use std::alloc::Global;

/// For each of so many things those to which links lead from it.
fn edges_of(alloc: Global, links: &[Link], things: usize) -> Result<Vec<Row<usize>>, NoMemory>
    requires { (link : Link) → IsIn links.now link → link.from < things }
    ensures { IfOk result (λ made. (from to : ℕ) → IsIn (passed_to made.items from) to ↔ IsIn links.now (record { from = from; to = to })) }
{
    let mut edges = Edges::none(alloc, things)?;
    for link in links {
        edges.add(link.from, link.to)?;
    }
    edges.into_rows(alloc)
}

/// For each of so many things the places, in a list of keys, of what it has, over the numbers of keys.
fn places_of(
    alloc: Global,
    numbered: &Numbered,
    edges: &[Row<usize>],
    things: usize,
) -> Result<Vec<Row<usize>>, NoMemory>
    requires { (fact : Fact) → IsIn numbered.now.facts.items fact → fact.what < length numbered.now.keys.keys }
    ensures places { IfOk result (λ made. (given : List Given) (links : List Link) (list : List Key) (n : ℕ) → AreTold numbered.now.keys.keys numbered.now.facts.items given → AreNumbers numbered.now.keys.keys numbered.now.list.items list → ((from to : ℕ) → IsIn (passed_to edges.now from) to ↔ IsIn links (record { from = from; to = to })) → n < things → ArePlaces (Arises given links n) list (passed_to made.items n)) }
    ensures count { IfOk result (λ made. length made.items ≡ things) }
{
    let spread = spread(alloc, numbered.facts.as_slice(), edges)?;
    choose(
        alloc,
        &spread,
        numbered.keys.len(),
        things,
        numbered.list.as_slice(),
    )
}

/// For each of so many things the places, in a list of the state, of what the thing has by itself or from others, in
/// order. The time is in proportion to what all things have, the links and the list.
pub fn all_places(
    alloc: Global,
    flow: Flow,
    things: usize,
    list: Vec<Key>,
) -> Result<Vec<Row<usize>>, NoMemory>
    requires { (link : Link) → IsIn flow.links.items link → link.from < things }
    ensures places { IfOk result (λ made. (n : ℕ) → n < things → ArePlaces (Arises flow.given.items flow.links.items n) list.items (passed_to made.items n)) }
    ensures count { IfOk result (λ made. length made.items ≡ things) }
{
    let Flow { given, links } = flow;
    let edges = edges_of(alloc, links.as_slice(), things)?;
    let numbered = number_all(alloc, given, list)?;
    places_of(alloc, &numbered, edges.as_slice(), things)
}
