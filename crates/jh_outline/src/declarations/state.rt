#![tactic(auto)]

ghost use Rattle.std.specs.Prelude.{◌≡◌, ◌++◌, ◌∷◌, [], not, map, IfOk, OnOk};
ghost use Rattle.std.specs.List.{flat_map};
ghost use Rattle.std.specs.Option.{option_map_or};
ghost use Rattle.jh_form.specs.Sorts.{same_sort};
ghost use Rattle.jh_semantics.specs.LoweredProgram as lowered;
ghost use Rattle.jh_state_facts.specs.well_formedness.States.{member_in, members_in};
ghost use Rattle.jh_lowering.specs.Lowering.{IsDeclared, source_of};

use crate::declarations::classes::copied;
use jh_effects::jh_resolution::own_name;
use jh_lowering::Context;
use jh_name::{NoMemory, Sort};
use jh_rules::Ty;
use jh_state_facts::well_formedness::Member;
use jh_vars::state_names::{StateName, state_list};
use std::alloc::Global;

/// Whether what stands at a sort is static.
fn is_static(sort: Sort) -> bool
    ensures { result ≡ not (same_sort sort Sort.Field) }
{
    match sort {
        Sort::Obj => true,
        Sort::Int => true,
        Sort::Bool => true,
        Sort::Set => true,
        Sort::Field => false,
    }
}

/// The type of a static or a field; a ghost variable has none.
fn member_type(context: &Context, state: &StateName, class: usize) -> Option<Ty>
    requires { IsDeclared context.now }
    ensures { result ≡ lowered.member_type (source_of context.now) state.now class }
{
    if state.is_ghost {
        return None;
    }
    match context.lookups.field_of(class, own_name(state.name.text())) {
        None => None,
        Some(entry) => entry.ty,
    }
}

/// A member of a class.
fn member_of(
    alloc: Global,
    context: &Context,
    state: &StateName,
    class: usize,
) -> Result<Member, NoMemory>
    requires { IsDeclared context.now }
    ensures { IfOk result (λ made. member_in (lowered.program_of (source_of context.now)).classes made ≡ lowered.member_in (source_of context.now) state.now class) }
{
    let text = copied(alloc, state.name.text())?;
    Ok(Member {
        text,
        class,
        kind: state.kind,
        is_static: is_static(state.sort),
        ty: member_type(context, state, class),
    })
}

/// The class of which a piece of state is a member.
fn owner_of(state: &StateName) -> Option<usize>
    ensures { (p : _) → option_map_or (λ n. lowered.member_in p state.now n ∷ []) result [] ≡ lowered.member_from p state.now }
{
    if state.is_member { state.class } else { None }
}

/// Adds a piece of state, where it is a member of a class.
fn push_member(
    alloc: Global,
    context: &Context,
    state: &StateName,
    made: &mut Vec<Member>,
) -> Result<(), NoMemory>
    requires { IsDeclared context.now }
    ensures { OnOk result (members_in (lowered.program_of (source_of context.now)).classes made.new.items ≡ members_in (lowered.program_of (source_of context.now)).classes made.old.items ++ lowered.member_from (source_of context.now) state.now) }
{
    match owner_of(state) {
        None => Ok(()),
        Some(class) => {
            let member = member_of(alloc, context, state, class)?;
            made.push(member)?;
            Ok(())
        }
    }
}

/// The members among the pieces of state.
fn members_of(
    alloc: Global,
    context: &Context,
    states: &[StateName],
) -> Result<Vec<Member>, NoMemory>
    requires { IsDeclared context.now }
    ensures { IfOk result (λ made. members_in (lowered.program_of (source_of context.now)).classes made.items ≡ flat_map (lowered.member_from (source_of context.now)) states.now) }
{
    let mut made = Vec::new(alloc);
    for state in states.iter() {
        push_member(alloc, context, state, &mut made)?;
    }
    Ok(made)
}

/// The statics, fields and ghost variables of a program, in the order of the state.
pub fn members(alloc: Global, context: &Context) -> Result<Vec<Member>, NoMemory>
    requires { IsDeclared context.now }
    ensures { IfOk result (λ made. members_in (lowered.program_of (source_of context.now)).classes made.items ≡ (lowered.program_of (source_of context.now)).members) }
{
    let states = state_list(alloc, context.program)?;
    members_of(alloc, context, states.as_slice())
}
