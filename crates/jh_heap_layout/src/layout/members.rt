ghost use Rattle.std.specs.Prelude.{◌≡◌, List, map, filter, IfOk};
ghost use Rattle.jh_semantics.specs.Code.{Text};
ghost use Rattle.jh_semantics.specs.typed_code.Statements.{local_in};
ghost use Rattle.jh_state_facts.specs.well_formedness.States.{member_in, members_in};
ghost use Rattle.jh_heap.specs.text.Held.{holder_in, holders_in};
ghost use Rattle.jh_heap.specs.text.Outlines.{member_holder, parameter_holder};
ghost use Rattle.jh_heap_layout.specs.layout.Chosen.{is_chosen};

use crate::layout::classes::class_at;
use jh_heap::text::Holder;
use jh_name::{NoMemory, Text};
use jh_rules::kind_of;
use jh_semantics::typed_code::Local;
use jh_state_facts::well_formedness::Member;
use std::alloc::Global;

/// Whether a member is a static where statics are asked for, and a field where fields are.
pub(crate) fn is_among(member: &Member, statics: bool) -> bool
    ensures { (classes : List Text) → result ≡ is_chosen statics (member_in classes member.now) }
{
    if statics {
        member.is_static
    } else {
        !member.is_static
    }
}

/// A member as what can have a value.
fn holder_of<'a>(classes: &'a [Text], member: &'a Member) -> Holder<'a>
    ensures { holder_in result ≡ member_holder (member_in classes.now member.now) }
{
    Holder {
        text: member.text.text(),
        kind: member.kind,
        ty: member.ty,
        class: class_at(classes, member.class),
    }
}

/// The statics, or the fields, as what can have a value.
pub(crate) fn holders<'a>(
    alloc: Global,
    classes: &'a [Text],
    members: &'a [Member],
    statics: bool,
) -> Result<Vec<Holder<'a>>, NoMemory>
    ensures { IfOk result (λ made. holders_in made.items ≡ map member_holder (filter (is_chosen statics) (members_in classes.now members.now))) }
{
    let mut made = Vec::new(alloc);
    for member in members {
        if is_among(member, statics) {
            made.push(holder_of(classes, member))?;
        }
    }
    Ok(made)
}

/// A parameter as what can have a value.
fn param_of<'a>(param: &'a Local) -> Holder<'a>
    ensures { holder_in result ≡ parameter_holder (local_in param.now) }
{
    Holder {
        text: param.name.text(),
        kind: kind_of(param.ty),
        ty: Some(param.ty),
        class: "",
    }
}

/// The parameters as what can have a value.
pub(crate) fn params<'a>(alloc: Global, params: &'a [Local]) -> Result<Vec<Holder<'a>>, NoMemory>
    ensures { IfOk result (λ made. holders_in made.items ≡ map parameter_holder (map local_in params.now)) }
{
    let mut made = Vec::new(alloc);
    for param in params {
        made.push(param_of(param))?;
    }
    Ok(made)
}
