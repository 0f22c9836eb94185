#![tactic(auto, using(crate::proofs::well_formedness::FactSteps::fact_steps, jh_arena::proofs::table::Listed::growth_steps))]

ghost use Rattle.std.specs.Prelude.{◌≡◌, ◌∷◌, [], OnOk};
ghost use Rattle.jh_arena.specs.table.Growth.{Extends};
ghost use Rattle.jh_state_facts.specs.schemas.Meant.{formula_of, names_in};
ghost use Rattle.jh_state_facts.specs.well_formedness.Facts.{AddsFacts};

use crate::schemas::{Schema, Slots, from_schema};
use jh_arena::table::Table;
use jh_name::NoMemory;

/// Adds the formula that a schema is with names in its slots.
pub(crate) fn push_schema(
    table: &mut Table,
    facts: &mut Vec<usize>,
    slots: &Slots<'_>,
    schema: &Schema<'_>,
) -> Result<(), NoMemory>
    ensures facts { OnOk result (AddsFacts table.new facts.old.items facts.new.items (formula_of (names_in slots.now) schema.now ∷ [])) }
    ensures grows { Extends table.old table.new }
{
    let fact = from_schema(table, slots, schema)?;
    facts.push(fact)?;
    Ok(())
}
