ghost use Rattle.std.specs.Prelude.{◌≡◌, ◌++◌, ◌∷◌, [], Bool, map, filter, length, slice_get, IfOk, OnOk};
ghost use Rattle.std.specs.Option.{option_map_or};
ghost use Rattle.jh_effects.specs.jh_ast.Programs.{ProgramTree, MethodPart};
ghost use Rattle.jh_effects.specs.jh_vars.Written.{Written, MayWrite, Names, all_state, state_names, written_name, named_by};
ghost use Rattle.jh_effects.specs.written_state.Arising.{ArePlaces, passes_at};
ghost use Rattle.jh_effects.specs.written_state.Chosen.{places_below};
ghost use Rattle.jh_effects.specs.written_state.Methods.{callee, places_in};
ghost use Rattle.jh_effects.specs.jh_vars.declared.state_names.state.StateName.{StateName as State};
ghost use Rattle.jh_boxed_calls.specs.state_lists.Named.{AreNamesOf};

use jh_effects::jh_vars::state_names::StateName;
use jh_effects::written_state::MethodPlaces;
use jh_name::{Name, NoMemory};
use std::alloc::Global;

/// Adds the name at a place, where there is one.
fn push_name(
    alloc: Global,
    states: &[StateName],
    place: usize,
    names: &mut Vec<Name>,
) -> Result<(), NoMemory>
    ensures { OnOk result (names.new.items ≡ names.old.items ++ option_map_or (λ (s : State). s.name ∷ []) (slice_get states.now place) []) }
{
    match states.get(place) {
        None => Ok(()),
        Some(state) => {
            let name = state.name.copy(alloc)?;
            names.push(name)?;
            Ok(())
        }
    }
}

/// The names at places of the list of all state. For the places of what passes a test, these are the names of what
/// passes it.
fn names_at(alloc: Global, states: &[StateName], places: &[usize]) -> Result<Vec<Name>, NoMemory>
    ensures { IfOk result (λ made. (p : ProgramTree) (test : Written → Bool) → map (λ (s : State). s.name) states.now ≡ state_names p → places.now ≡ places_below (passes_at test (all_state p)) (length (all_state p)) → made.items ≡ map (written_name p) (filter test (all_state p))) }
{
    let mut names = Vec::new(alloc);
    for place in places.iter() {
        push_name(alloc, states, *place, &mut names)?;
    }
    Ok(names)
}

/// The names of the state that a method may write, by the class of the method and its own name.
pub fn written_names(
    alloc: Global,
    states: &[StateName],
    written: &MethodPlaces,
    class: usize,
    name: &str,
) -> Result<Vec<Name>, NoMemory>
    ensures { IfOk result (λ made. (p : ProgramTree) → map (λ (s : State). s.name) states.now ≡ state_names p → ArePlaces (MayWrite p (callee class name.now)) (all_state p) (places_in written.now (callee class name.now)) → AreNamesOf p (MayWrite p (callee class name.now)) made.items) }
{
    names_at(alloc, states, written.places(class, name))
}

/// The names of the state that the `modifies` of a method names, by the class of the method and its own name.
pub fn modified_names(
    alloc: Global,
    states: &[StateName],
    modified: &MethodPlaces,
    class: usize,
    name: &str,
) -> Result<Vec<Name>, NoMemory>
    ensures { IfOk result (λ made. (p : ProgramTree) (part : MethodPart) → map (λ (s : State). s.name) states.now ≡ state_names p → ArePlaces (Names p (named_by p class part)) (all_state p) (places_in modified.now (callee class name.now)) → AreNamesOf p (Names p (named_by p class part)) made.items) }
{
    names_at(alloc, states, modified.places(class, name))
}
