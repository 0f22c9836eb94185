ghost use Rattle.jh_arena.specs.table.Growth.{Extends};
ghost use Rattle.jh_arena.specs.table.Nodes.{nodes};
ghost use Rattle.jh_derivation_rules.specs.Rules.{described, update_rule};
ghost use Rattle.jh_derivation_steps.specs.premises.Nodes.{term_at, field_at, value_at, IsTerm, IsField, IsValue, Gives, Makes};

use crate::premises::adding::adding;
use crate::premises::making;
use crate::premises::nodes::{NodeRule, Nodes};
use jh_arena::table::{Shape, Table};
use jh_name::{NoMemory, Sort};

/// The node of what an update gives at each object; none where its value is a field.
fn described(
    table: &mut Table,
    new: usize,
    old: usize,
    at: usize,
    value: usize,
) -> Result<Option<usize>, NoMemory>
    requires new { IsField (nodes table.old) new }
    requires old { IsField (nodes table.old) old }
    requires at { IsTerm (nodes table.old) at }
    requires value { IsValue (nodes table.old) value }
    ensures made { Makes (nodes table.new) (described (field_at (nodes table.old) new) (field_at (nodes table.old) old) (term_at (nodes table.old) at) (value_at (nodes table.old) value)) result }
    ensures grows { Extends table.old table.new }
{
    match table.sort(value) {
        Sort::Obj => Ok(Some(making::updated_objects(table, new, old, at, value)?)),
        Sort::Int => Ok(Some(making::updated_numbers(table, new, old, at, value)?)),
        Sort::Bool => Ok(Some(making::updated_truths(table, new, old, at, value)?)),
        Sort::Set => Ok(Some(making::updated_sets(table, new, old, at, value)?)),
        Sort::Field => Ok(None),
    }
}

/// The rule that adds what an update gives at each object.
pub fn updating(table: &mut Table, field: usize) -> Result<Option<NodeRule>, NoMemory>
    requires field { IsField (nodes table.old) field }
    ensures rule { Gives (nodes table.new) (update_rule (field_at (nodes table.old) field)) result }
    ensures grows { Extends table.old table.new }
{
    match table.shape(field) {
        Shape::Update(old, at, value) => {
            let made = described(table, field, old, at, value)?;
            Ok(adding(Nodes::Nothing, made))
        }
        _ => Ok(None),
    }
}
