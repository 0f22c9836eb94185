ghost use Rattle.std.specs.Prelude.{◌≡◌, ◌<◌, ◌==◌, true, IfOk, Some, length, slice_get};
ghost use Rattle.std.specs.List.{list_any};
ghost use Rattle.jh_boxed.specs.Mapped.{mapped_value};
ghost use Rattle.jh_arena.specs.table.Entries.{the_value, the_name};
ghost use Rattle.jh_arena.specs.table.Growth.{Extends};
ghost use Rattle.jh_arena.specs.table.Nodes.{nodes};
ghost use Rattle.jh_substitution.specs.rewriting.Rewritten.{leaves_alone};
ghost use Rattle.jh_vars.specs.Resolved as resolved;
ghost use Rattle.jh_receiver.specs.Staying.{entry-stays};

use jh_arena::table::{Shape, Table};
use jh_name::{Name, NoMemory, name};
use jh_substitution::rewriting::{LeafRules, walked};

/// The rules by which state at the method's entry stands for state.
#[derive(Clone, Copy)]
struct Entry {}

impl LeafRules for Entry {
    ghost rewriting = { λ rules t. leaves_alone resolved.at_entry };

    ghost ready = { λ rules t. Unit {0} };

    fn leaf(
        &self,
        table: &mut Table,
        node: usize,
        shape: Shape,
        _depth: u32,
    ) -> Result<usize, NoMemory> {
        match shape {
            Shape::FreeObject(number) => {
                let turned = turned_state(table, number)?;
                table.make(Shape::FreeObject(turned))
            }
            Shape::FreeNumber(number) => {
                let turned = turned_state(table, number)?;
                table.make(Shape::FreeNumber(turned))
            }
            Shape::FreeTruth(number) => {
                let turned = turned_state(table, number)?;
                table.make(Shape::FreeTruth(turned))
            }
            Shape::FreeSet(number) => {
                let turned = at_turn_one(table, number)?;
                table.make(Shape::FreeSet(turned))
            }
            Shape::FreeField(number) => {
                let turned = at_turn_one(table, number)?;
                table.make(Shape::FreeField(turned))
            }
            _ => Ok(node),
        }
    }

    fn whole(
        &self,
        _table: &mut Table,
        _node: usize,
        _shape: Shape,
        _depth: u32,
    ) -> Result<Option<usize>, NoMemory> {
        Ok(None)
    }

    ghost stays = { λ rules. entry-stays };
}

/// Whether a text has a dot, as the names of statics, fields and ghost variables do.
fn has_dot(name: &Name) -> bool
    ensures { result ≡ list_any (λ c. c == 46) name.now.text }
{
    name.text().as_bytes().iter().any(|byte| *byte == b'.')
}

/// The number of the name of the same text at turn 1.
fn at_turn_one(table: &mut Table, number: usize) -> Result<usize, NoMemory>
    requires { number < length table.old.pools.names }
    ensures name { IfOk result (λ made. slice_get table.new.pools.names made ≡ Some (resolved.own (the_name (slice_get table.old.pools.names number)).text 1)) }
    ensures grows { Extends table.old table.new }
    ensures nodes { nodes table.new ≡ nodes table.old }
{
    let turned = name(table.alloc(), table.name_at(number).text(), 1)?;
    table.name(&turned)
}

/// The number of the name of a piece of state at the method's entry; another name stays.
fn turned_state(table: &mut Table, number: usize) -> Result<usize, NoMemory>
    requires { number < length table.old.pools.names }
    ensures name { IfOk result (λ made. slice_get table.new.pools.names made ≡ Some (resolved.turned (the_name (slice_get table.old.pools.names number)))) }
    ensures grows { Extends table.old table.new }
    ensures nodes { nodes table.new ≡ nodes table.old }
{
    if has_dot(table.name_at(number)) {
        at_turn_one(table, number)
    } else {
        Ok(number)
    }
}

/// The node of a value with the state at the method's entry, at turn 1, for state. Names without a dot that
/// are no sets and no fields are no state, and stay. The answer is want of memory where the value nests deeper
/// than MOST_LEVELS.
pub fn at_entry(table: &mut Table, node: usize) -> Result<usize, NoMemory>
    requires { node < length (nodes table.old) }
    ensures tree { IfOk result (λ made. slice_get (nodes table.new) made ≡ Some (mapped_value (the_value (slice_get (nodes table.old) node)) resolved.at_entry 0)) }
    ensures grows { Extends table.old table.new }
{
    walked(table, &Entry {}, node, 0)
}
