#![tactic(auto, using(crate::proofs::environment::ItemSteps::item_steps))]

ghost use Rattle.std.specs.Prelude.{◌≡◌, ◌++◌, map, filter, take, IfOk, OnOk};
ghost use Rattle.jh_arena.specs.table.Entries.{Listing};
ghost use Rattle.jh_guard.specs.Items.{sorted_item, items_where, is_of_objects};
ghost use Rattle.jh_state_facts.specs.changes.Added.{sorted_in};
ghost use Rattle.jh_method_commands.specs.environment.Outlines.{IsOutline, IsCallable, callee_of, program_in, writes_in, standing_at, standing};

use crate::environment::outline::{Callable, Outline};
use jh_name::NoMemory;
use jh_state_facts::changes::SortedName;
use std::alloc::Global;

/// Adds the name at a place, where there is one.
fn push_at<'a>(
    made: &mut Vec<SortedName<'a>>,
    names: &[SortedName<'a>],
    place: usize,
) -> Result<(), NoMemory>
    ensures { OnOk result (made.new.items ≡ made.old.items ++ standing_at names.now place) }
{
    match names.get(place) {
        None => Ok(()),
        Some(name) => {
            made.push(*name)?;
            Ok(())
        }
    }
}

/// The names at some places.
fn names_at<'a>(
    alloc: Global,
    names: &[SortedName<'a>],
    places: &[usize],
) -> Result<Vec<SortedName<'a>>, NoMemory>
    ensures { IfOk result (λ made. made.items ≡ standing names.now places.now) }
{
    let mut made = Vec::new(alloc);
    for place in places {
        push_at(&mut made, names, *place)?;
    }
    Ok(made)
}

/// So many names, from the first on.
fn first_names<'a>(names: &'a [SortedName<'a>], count: usize) -> &'a [SortedName<'a>]
    ensures { result.now ≡ take count names.now }
{
    if count < names.len() {
        &names[..count]
    } else {
        names
    }
}

impl<'a> Outline<'a> {
    /// The names of the state that a method may write, in the order of the state.
    pub fn written_names(
        &self,
        alloc: Global,
        method: &Callable<'a>,
    ) -> Result<Vec<SortedName<'a>>, NoMemory>
        ensures places { IfOk result (λ made. made.items ≡ standing self.now.state.now method.now.written.now) }
        ensures names { IfOk result (λ made. (t : Listing) → IsOutline t self.now → IsCallable self.now method.now → sorted_in made.items ≡ map sorted_item (items_where (program_in self.now) ((writes_in self.now).written (callee_of method.now)))) }
    {
        names_at(alloc, self.state, method.written)
    }

    /// The sets of objects among these.
    pub fn written_sets(
        &self,
        alloc: Global,
        method: &Callable<'a>,
    ) -> Result<Vec<SortedName<'a>>, NoMemory>
        ensures { IfOk result (λ made. (t : Listing) → IsOutline t self.now → IsCallable self.now method.now → sorted_in made.items ≡ map sorted_item (filter is_of_objects (items_where (program_in self.now) ((writes_in self.now).written (callee_of method.now))))) }
    {
        let sets = first_names(self.state, self.classes.len() + 2);
        names_at(alloc, sets, method.written)
    }
}
