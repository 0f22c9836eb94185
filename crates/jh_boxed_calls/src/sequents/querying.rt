ghost use Rattle.std.specs.Prelude.{◌≡◌, ◌<◌, Some, length, slice_get, IfOk};
ghost use Rattle.jh_prove.specs.jh_approx.definition.Regions.{bapa_of};
ghost use Rattle.jh_query.specs.queries.Bare.{query_tree};
ghost use Rattle.jh_query.specs.queries.Truth.{IsTrueQuery};
ghost use Rattle.jh_seq.specs.sequent.Sequents.{IsValid, sequent_tree};

use crate::sequents::entering::enter_sequent;
use jh_arena::table::Table;
use jh_name::NoMemory;
use jh_prove::jh_approx::definition::true_query_is_valid;
use jh_prove::jh_splitting::{NodeSequent, Sequents};
use jh_prove::prover::query_of_sequent;
use jh_query::queries::Query;
use jh_seq::sequent::Sequent;
use std::alloc::Global;

/// The first sequent.
fn first_sequent(sequents: &Sequents) -> NodeSequent
    requires { 0 < length sequents.now.sequents.items }
    ensures { slice_get sequents.now.sequents.items 0 ≡ Some result }
{
    sequents.sequents[0]
}

/// The query of a sequent: what the hypotheses that it keeps and its goal say of sets, elements, numbers and flags. Where it is
/// true under all sizes that fit it, the sequent is valid. The answer is want of memory where a formula nests deeper than a table
/// takes in, and where the query has more than 1,048,576 parts.
pub fn bapa_of(alloc: Global, sequent: &Sequent) -> Result<Query, NoMemory>
    ensures query { IfOk result (λ made. query_tree made ≡ bapa_of (sequent_tree sequent.now)) }
    ensures valid { IfOk result (λ made. IsTrueQuery (query_tree made) → IsValid (sequent_tree sequent.now)) }
{
    true_query_is_valid();
    let mut table = Table::new(alloc)?;
    let entered = enter_sequent(alloc, &mut table, sequent)?;
    let first = first_sequent(&entered);
    query_of_sequent(alloc, &mut table, &entered, first)
}
