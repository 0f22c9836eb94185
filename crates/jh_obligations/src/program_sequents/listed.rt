ghost use Rattle.std.specs.Prelude.{◌≡◌, ◌<◌, List, None, Some, length, map, slice_get, IfErr, IfOk};
ghost use Rattle.jh_arena.specs.table.Growth.{Extends};
ghost use Rattle.jh_outline.specs.jh_method_commands.environment.Outlines.{IsOutline, program_in, source_of, writes_in};
ghost use Rattle.jh_obligations.specs.program_sequents.Owed.{AllStand, AreOwed, AreThere, Debt, IsOwed, IsOwnWhy, IsWhy, Stand};
ghost use Rattle.jh_obligations.specs.program_sequents.Owing.{owing_in, owing_of};

use crate::program_sequents::fault::{LogicError, fault_of};
use crate::program_sequents::owners::{Owner, owners};
use crate::program_sequents::single::method_sequents;
use jh_arena::table::Table;
use jh_outline::jh_method_commands::environment::Outline;
use jh_splitting::Sequents;
use std::alloc::Global;

/// What a method owes.
fn owed(table: &mut Table, outline: &Outline<'_>, owner: &Owner<'_>) -> Result<Sequents, LogicError>
    requires outline { IsOutline table.old outline.now }
    requires there { (program_in outline.now).method (owing_in owner.now).callee ≡ None → ⊥ }
    ensures owed { IfOk result (λ made. (d : Debt) × IsOwed (program_in outline.now) (writes_in outline.now) (owing_in owner.now) d × Stand table.new made d) }
    ensures why { IfErr result (IsOwnWhy (program_in outline.now) (writes_in outline.now) (owing_in owner.now)) }
    ensures grows { Extends table.old table.new }
{
    match outline.callable(owner.id.class as usize, owner.name) {
        None => unreachable!(),
        Some(method) => match method_sequents(table, outline, &method, owner.id) {
            Err(fault) => Err(fault_of(owner.id, fault)),
            Ok(made) => Ok(made),
        },
    }
}

/// The method at a place.
fn owner_at<'a>(owners: &[Owner<'a>], place: usize) -> Owner<'a>
    requires { place < length owners.now }
    ensures { slice_get owners.now place ≡ Some result }
{
    owners[place]
}

/// What some methods owe.
fn all_owed(
    alloc: Global,
    table: &mut Table,
    outline: &Outline<'_>,
    owners: &[Owner<'_>],
) -> Result<Vec<Sequents>, LogicError>
    requires outline { IsOutline table.old outline.now }
    requires there { AreThere (program_in outline.now) (map owing_in owners.now) }
    ensures owed { IfOk result (λ made. (ds : List Debt) × AreOwed (program_in outline.now) (writes_in outline.now) (map owing_in owners.now) ds × AllStand table.new made.items ds) }
    ensures why { IfErr result (IsWhy (program_in outline.now) (writes_in outline.now) (map owing_in owners.now)) }
    ensures grows { Extends table.old table.new }
{
    let mut made = Vec::new(alloc);
    for place in 0..owners.len() {
        let owner = owner_at(owners, place);
        match owed(table, outline, &owner) {
            Err(fault) => return Err(fault),
            Ok(one) => made.push(one)?,
        }
    }
    Ok(made)
}

/// The sequents of all methods of a program, each of which is in its outline, method by method in the order of the text. Where a method has more than
/// 2,000 the first such is named. What the table held stays in its place, after any answer.
pub fn sequents(
    alloc: Global,
    table: &mut Table,
    outline: &Outline<'_>,
) -> Result<Vec<Sequents>, LogicError>
    requires outline { IsOutline table.old outline.now }
    requires there { AreThere (program_in outline.now) (owing_of (source_of outline.now)) }
    ensures owed { IfOk result (λ made. (ds : List Debt) × AreOwed (program_in outline.now) (writes_in outline.now) (owing_of (source_of outline.now)) ds × AllStand table.new made.items ds) }
    ensures why { IfErr result (IsWhy (program_in outline.now) (writes_in outline.now) (owing_of (source_of outline.now))) }
    ensures grows { Extends table.old table.new }
{
    let owners = owners(alloc, outline.source)?;
    all_owed(alloc, table, outline, owners.as_slice())
}
