ghost use Rattle.std.specs.Prelude.{IfOk};
ghost use Rattle.jh_query.specs.queries.Bare.{query_tree};
ghost use Rattle.jh_query.specs.queries.Named.{IsWellFormed};
ghost use Rattle.jh_bapa.specs.answers.Causes.{IsRegional};

use crate::decision::{Decided, decide};
use jh_name::NoMemory;
use jh_query::queries::{Query, Sizes};
use std::alloc::Global;

/// Why regions don't prove a sequent.
#[derive(Drop)]
pub enum BapaCause {
    /// These sizes fit the query of the sequent, and make its hypotheses true and its goal false.
    Refuted(Sizes),
    /// The query has so many sets and elements, and this size, one of which is beyond its limit.
    TooLarge {
        sets: u32,
        elements: u32,
        size: u128,
    },
}

/// What regions say of a sequent: this is its query, which is true; or why it is no proof.
#[derive(Drop)]
pub enum Regional {
    Proved(Query),
    Unproved(BapaCause),
}

/// What regions say of a sequent with this query.
pub fn answer_of(alloc: Global, query: Query) -> Result<Regional, NoMemory>
    requires { IsWellFormed (query_tree query) }
    ensures { IfOk result (IsRegional (query_tree query)) }
{
    match decide(alloc, &query) {
        Decided::Valid => Ok(Regional::Proved(query)),
        Decided::Refuted(sizes) => Ok(Regional::Unproved(BapaCause::Refuted(sizes))),
        Decided::TooLarge {
            sets,
            elements,
            size,
        } => Ok(Regional::Unproved(BapaCause::TooLarge {
            sets,
            elements,
            size,
        })),
        Decided::Memory => Err(NoMemory),
    }
}
