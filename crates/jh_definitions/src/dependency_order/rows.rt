ghost use Rattle.std.specs.Prelude.{◌≡◌, ◌<◌, ℕ, map, length, IfOk, OnOk};
ghost use Rattle.jh_symbols.specs.scopes.Lookings.{declared_by};
ghost use Rattle.jh_containers.specs.topological_order.Orders.{reads_of, AreThingsRead, IsReversed};
ghost use Rattle.jh_containers.specs.transitive_closure.Spreads.{IsIn, passed_to};
ghost use Rattle.jh_definitions.specs.reads.Listed.{states_in};
ghost use Rattle.jh_definitions.specs.dependency_order.Defining.{numbers_of, row_of};

use crate::expansion::Definition;
use crate::reads::{Read, Reading, add_reads};
use jh_containers::transitive_closure::Edges;
use jh_name::{NoMemory, Row};
use jh_symbols::member_numbers::Numbers;
use jh_symbols::scopes::Lookups;
use std::alloc::Global;

/// The numbers of what is read, of that which has a definition.
fn numbers_of(alloc: Global, numbers: &Numbers, reads: &[Read]) -> Result<Vec<usize>, NoMemory>
    ensures { IfOk result (λ made. made.items ≡ numbers_of numbers.now (states_in reads.now)) }
{
    let mut made = Vec::new(alloc);
    for read in reads {
        match numbers.number(read.entry.class, read.own.text()) {
            None => {}
            Some(number) => made.push(number)?,
        }
    }
    Ok(made)
}

/// The numbers of the definitions that a definition reads.
fn row_of(
    alloc: Global,
    lookups: &Lookups,
    numbers: &Numbers,
    definition: &Definition,
) -> Result<Row<usize>, NoMemory>
    ensures { IfOk result (λ made. made ≡ row_of (declared_by lookups.now) numbers.now definition.now) }
{
    let mut reads = Vec::new(alloc);
    let at = Reading {
        lookups,
        class: definition.class,
        bound: &[],
    };
    add_reads(alloc, &mut reads, &at, definition.body)?;
    let numbers = numbers_of(alloc, numbers, reads.as_slice())?;
    Ok(Row::of(numbers))
}

/// For each of some definitions the numbers of those that it reads.
pub fn rows_of(
    alloc: Global,
    lookups: &Lookups,
    numbers: &Numbers,
    definitions: &[Definition],
) -> Result<Vec<Row<usize>>, NoMemory>
    ensures { IfOk result (λ made. made.items ≡ map (row_of (declared_by lookups.now) numbers.now) definitions.now) }
{
    let mut made = Vec::new(alloc);
    for definition in definitions {
        made.push(row_of(alloc, lookups, numbers, definition)?)?;
    }
    Ok(made)
}

/// Adds edges to a thing, from those that it reads.
fn add_edges(edges: &mut Edges, read: &[usize], reader: usize) -> Result<(), NoMemory>
    requires { (d : ℕ) → IsIn read.now d → d < length edges.old }
    ensures added { OnOk result ((d : ℕ) → IsIn read.now d → IsIn (passed_to edges.new d) reader) }
    ensures keeps { OnOk result ((d r : ℕ) → IsIn (passed_to edges.old d) r → IsIn (passed_to edges.new d) r) }
    ensures count { OnOk result (length edges.new ≡ length edges.old) }
{
    for thing in read {
        edges.add(*thing, reader)?;
    }
    Ok(())
}

/// For each thing those that read it.
pub fn readers_of(alloc: Global, reads: &[Row<usize>]) -> Result<Vec<Row<usize>>, NoMemory>
    requires { AreThingsRead reads.now }
    ensures { IfOk result (λ made. IsReversed reads.now made.items) }
{
    let mut edges = Edges::none(alloc, reads.len())?;
    for reader in 0..reads.len() {
        add_edges(&mut edges, reads[reader].items(), reader)?;
    }
    edges.into_rows(alloc)
}
