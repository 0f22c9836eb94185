//! Calls over formulas as nodes.
#![tactic(auto, using(jh_arena::proofs::table::Listed::growth_steps), unfolding(jh_arena::specs::table::Entries::is_truth, jh_arena::specs::table::Entries::is_set, jh_arena::specs::table::Entries::is_object, jh_arena::specs::table::Entries::the_value, jh_arena::specs::table::Entries::the_object, jh_form::specs::Closed::is_closed_value, jh_form::specs::Closed::is_closed_term))]

use crate::Called;
use jh_boxed_calls::formulas::{
    Formulas, Table, all_objects, falsehood, implication_of, null, open_several, same_but_labels,
    set_difference, subst_several, truth,
};
use jh_boxed_calls::jh_instantiation::instances::{InstanceError, count, entries};
use jh_form::{Term, Value};
use jh_name::{NoMemory, name};
use std::alloc::Global;

fn entered(alloc: Global) -> Result<(), NoMemory> {
    let mut table = Table::new(alloc)?;
    let node = table.enter(&Value::Obj(Term::Null))?;
    let _value = table.value(node)?;
    Ok(())
}

fn opened(alloc: Global) -> Result<(), NoMemory> {
    let mut table = Table::new(alloc)?;
    let with = null(&mut table)?;
    let body = truth(&mut table)?;
    let _opened = table.open(body, with)?;
    Ok(())
}

fn substituted(alloc: Global) -> Result<(), NoMemory> {
    let mut table = Table::new(alloc)?;
    let value = null(&mut table)?;
    let formula = truth(&mut table)?;
    let name = name(alloc, "A.x", 0)?;
    match table.subst(formula, &name, value) {
        Ok(_) => Ok(()),
        Err(_) => Err(NoMemory),
    }
}

fn exchanged(alloc: Global) -> Result<(), NoMemory> {
    let mut table = Table::new(alloc)?;
    let value = null(&mut table)?;
    let formula = truth(&mut table)?;
    let _exchanged = table.exchange(formula, value, value)?;
    Ok(())
}

fn opened_several(alloc: Global) -> Result<(), NoMemory> {
    let mut table = Table::new(alloc)?;
    let body = truth(&mut table)?;
    let _opened = open_several(&mut table, body, &[])?;
    Ok(())
}

fn substituted_several(alloc: Global) -> Result<(), NoMemory> {
    let mut table = Table::new(alloc)?;
    let formula = truth(&mut table)?;
    let _substituted = subst_several(&mut table, formula, &[])?;
    Ok(())
}

fn compared(alloc: Global) -> Result<bool, NoMemory> {
    let mut table = Table::new(alloc)?;
    let left = truth(&mut table)?;
    let right = falsehood(&mut table)?;
    same_but_labels(&mut table, left, right)
}

fn sets_made(alloc: Global) -> Result<(), NoMemory> {
    let mut table = Table::new(alloc)?;
    let all = all_objects(&mut table)?;
    let _none = set_difference(&mut table, all, all)?;
    Ok(())
}

fn implied(alloc: Global) -> Result<(), NoMemory> {
    let mut table = Table::new(alloc)?;
    let goal = truth(&mut table)?;
    let _implication = implication_of(&mut table, &[], goal)?;
    Ok(())
}

fn counted(alloc: Global) -> Result<u128, NoMemory> {
    let mut table = Table::new(alloc)?;
    count(&mut table, &[], 1, 1)
}

fn instances_made(alloc: Global) -> Result<(), NoMemory> {
    let mut table = Table::new(alloc)?;
    match entries(&mut table, &[], 1, 1) {
        Ok(_) | Err(InstanceError::TooMany(_)) => Ok(()),
        Err(InstanceError::Memory) => Err(NoMemory),
    }
}

/// Makes them.
pub fn all_called(alloc: Global) -> [Called; 11] {
    [
        Called::of("Formulas::enter, value", entered(alloc).is_ok()),
        Called::of("Formulas::open", opened(alloc).is_ok()),
        Called::of("Formulas::subst", substituted(alloc).is_ok()),
        Called::of("Formulas::exchange", exchanged(alloc).is_ok()),
        Called::of("open_several", opened_several(alloc).is_ok()),
        Called::of("subst_several", substituted_several(alloc).is_ok()),
        Called::of("same_but_labels", compared(alloc).is_ok()),
        Called::of("all_objects, set_difference", sets_made(alloc).is_ok()),
        Called::of("implication_of", implied(alloc).is_ok()),
        Called::of("count of instances", counted(alloc).is_ok()),
        Called::of("entries", instances_made(alloc).is_ok()),
    ]
}
