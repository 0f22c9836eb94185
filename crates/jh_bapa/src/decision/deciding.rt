ghost use Rattle.std.specs.Prelude.{◌≡◌, IfNone, IfOk, IfSome};
ghost use Rattle.jh_query.specs.queries.Bare.{query_tree};
ghost use Rattle.jh_query.specs.queries.Named.{IsWellFormed};
ghost use Rattle.jh_query.specs.queries.Sizing.{sizing_of};
ghost use Rattle.jh_query.specs.queries.Truth.{IsTrueQuery};
ghost use Rattle.jh_bapa.specs.decision.Answers.{IfRefuted, IfTooLarge, IfValid};
ghost use Rattle.jh_bapa.specs.decision.Searching.{Refutes};
ghost use Rattle.jh_bapa.specs.decision.Within.{IsWithin};

use crate::decision::casing::atoms_of;
use crate::decision::placing::place;
use jh_name::NoMemory;
use jh_query::queries::{Query, Sizes, size};
use std::alloc::Global;

/// The most sets, the most elements, and the greatest size of a query that is decided.
const SETS: u32 = 6;

const ELEMENTS: u32 = 8;

const SIZE: u128 = 67_108_864;

/// What is decided of a query.
#[derive(Drop)]
pub enum Decided {
    /// It is true under all sizes that fit it.
    Valid,
    /// Under these sizes, which fit it, all hypotheses are true and the goal is false.
    Refuted(Sizes),
    /// It has so many sets and elements, and this size, one of which is more than is decided.
    TooLarge {
        sets: u32,
        elements: u32,
        size: u128,
    },
    /// Memory ran out.
    Memory,
}

/// Sizes that refute a query, where there are any.
fn refute(alloc: Global, query: &Query) -> Result<Option<Sizes>, NoMemory>
    requires formed { IsWellFormed (query_tree query.now) }
    requires within { IsWithin (query_tree query.now) }
    ensures none { IfOk result (λ found. IfNone found (IsTrueQuery (query_tree query.now))) }
    ensures some { IfOk result (λ found. IfSome found (λ sizes. Refutes (query_tree query.now) (sizing_of sizes))) }
{
    let mut atoms = atoms_of(alloc, query)?;
    let mut spots = Vec::new(alloc);
    let found = place(alloc, query, &mut atoms, &mut spots)?;
    Ok(found)
}

/// Decides a query of at most 6 sets, 8 elements and a size of 67,108,864, which names only its own sets, elements,
/// numbers and flags, has an element 0, and divides by 1 or more.
pub fn decide(alloc: Global, query: &Query) -> Decided
    requires { IsWellFormed (query_tree query.now) }
    ensures valid { IfValid (query_tree query.now) result }
    ensures refuted { IfRefuted (query_tree query.now) result }
    ensures too_large { IfTooLarge (query_tree query.now) result }
{
    let size = size(query);
    if query.sets > SETS || query.elements > ELEMENTS || size > SIZE {
        return Decided::TooLarge {
            sets: query.sets,
            elements: query.elements,
            size,
        };
    }
    match refute(alloc, query) {
        Ok(None) => Decided::Valid,
        Ok(Some(sizes)) => Decided::Refuted(sizes),
        Err(NoMemory) => Decided::Memory,
    }
}
