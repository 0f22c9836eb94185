#![tactic(auto)]

ghost use Rattle.std.specs.Prelude.{◌≡◌, ◌++◌, ◌∷◌, [], map, IfOk, OnOk};
ghost use Rattle.jh_semantics.specs.jh_vars.state_names.States as states;
ghost use Rattle.jh_semantics.specs.Program.{Program};
ghost use Rattle.jh_command_terms.specs.jh_guard.Items.{items, sorted_item};
ghost use Rattle.jh_state_facts.specs.well_formedness.States.{members_in};
ghost use Rattle.jh_state_facts.specs.changes.Added.{sorted_in, set_sorted, member_sorted};

use crate::changes::names::SortedName;
use crate::well_formedness::Member;
use jh_name::{Kind, NoMemory, Sort, Text};
use std::alloc::Global;

/// The sort at which a member stands.
fn member_sort(kind: Kind, is_static: bool) -> Sort
    ensures { result ≡ states.member_sort kind is_static }
{
    if !is_static {
        return Sort::Field;
    }
    match kind {
        Kind::Obj => Sort::Obj,
        Kind::Int => Sort::Int,
        Kind::Bool => Sort::Bool,
        Kind::Set => Sort::Set,
    }
}

/// Adds the set of a text.
fn push_set_name<'a>(names: &mut Vec<SortedName<'a>>, text: &'a str) -> Result<(), NoMemory>
    ensures { OnOk result (sorted_in names.new.items ≡ sorted_in names.old.items ++ set_sorted text.now ∷ []) }
{
    names.push(SortedName {
        text,
        sort: Sort::Set,
    })?;
    Ok(())
}

/// Adds the sets of texts.
fn push_set_names<'a>(names: &mut Vec<SortedName<'a>>, classes: &'a [Text]) -> Result<(), NoMemory>
    ensures { OnOk result (sorted_in names.new.items ≡ sorted_in names.old.items ++ map set_sorted classes.now) }
{
    for class in classes {
        push_set_name(names, class.text())?;
    }
    Ok(())
}

/// Adds a member.
fn push_member_name<'a>(names: &mut Vec<SortedName<'a>>, member: &'a Member) -> Result<(), NoMemory>
    ensures { OnOk result (sorted_in names.new.items ≡ sorted_in names.old.items ++ member_sorted member.now ∷ []) }
{
    names.push(SortedName {
        text: member.text.text(),
        sort: member_sort(member.kind, member.is_static),
    })?;
    Ok(())
}

/// Adds members.
fn push_member_names<'a>(
    names: &mut Vec<SortedName<'a>>,
    members: &'a [Member],
) -> Result<(), NoMemory>
    ensures { OnOk result (sorted_in names.new.items ≡ sorted_in names.old.items ++ map member_sorted members.now) }
{
    for member in members {
        push_member_name(names, member)?;
    }
    Ok(())
}

/// The names of the state of a program, in their order.
pub fn state_names<'a>(
    alloc: Global,
    classes: &'a [Text],
    members: &'a [Member],
) -> Result<Vec<SortedName<'a>>, NoMemory>
    ensures { IfOk result (λ made. (p : Program) → p.classes ≡ classes.now → p.members ≡ members_in classes.now members.now → sorted_in made.items ≡ map sorted_item (items p)) }
{
    let mut names = Vec::new(alloc);
    push_set_name(&mut names, "alloc")?;
    push_set_names(&mut names, classes)?;
    push_set_name(&mut names, "Object")?;
    push_member_names(&mut names, members)?;
    Ok(names)
}
