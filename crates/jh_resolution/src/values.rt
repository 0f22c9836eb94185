#![tactic(auto, using(crate::proofs::ValueSteps::value_steps, jh_arena::proofs::table::Listed::growth_steps))]

ghost use Rattle.std.specs.Prelude.{◌≡◌, ◌<◌, true, IfOk, Some, codes, slice_get, length};
ghost use Rattle.jh_form.specs.Tree.{of_object, of_set};
ghost use Rattle.jh_form.specs.Tree as t;
ghost use Rattle.jh_arena.specs.table.Entries.{is_object, the_object, the_value};
ghost use Rattle.jh_arena.specs.table.Growth.{Extends};
ghost use Rattle.jh_arena.specs.table.Nodes.{nodes};
ghost use Rattle.jh_rules.specs.Words.{is_one_of};
ghost use Rattle.std.specs.Prelude.{◌∷◌, []};
ghost use Rattle.jh_vars.specs.Resolved as r;
ghost use Rattle.jh_resolution.specs.Meant.{AreHeld};
ghost use Rattle.jh_resolution.specs.Spots.{spot_of, static_in, member_in, state_in, outer_in, local_in, name_in, state_or_class_in, after_dots_in, texts_of};

use crate::coercing::coerced;
use crate::context::{Context, Spot};
use crate::naming::{free, kind_of_state, plain, read, state_name};
use crate::own::own_name;
use jh_arena::table::{Shape, Table};
use jh_ast::Word;
use jh_name::{Kind, NoMemory, Sort};
use jh_receiver::received;
use jh_rules::{LocalEntry, StateEntry, kind_of};
use jh_type::formula_kinds::{state_named, state_spelled};

/// The node of a static, or of what is defined for a static variable.
fn static_value(
    table: &mut Table,
    context: &Context,
    state: StateEntry,
    own: &str,
) -> Result<usize, NoMemory>
    requires held { AreHeld (nodes table.old) context.now.meanings.now }
    ensures node { IfOk result (λ made. slice_get (nodes table.new) made ≡ Some (static_in (nodes table.new) context.now state own.now)) }
    ensures grows { Extends table.old table.new }
{
    if state.is_defined {
        context.meaning(table, state.class, own)
    } else {
        let name = state_name(table.alloc(), context, state.class, own)?;
        free(table, kind_of_state(state), &name)
    }
}

/// The node of what is defined for a variable of an object.
fn defined_member(
    table: &mut Table,
    context: &Context,
    state: StateEntry,
    own: &str,
    receiver: usize,
) -> Result<usize, NoMemory>
    requires held { AreHeld (nodes table.old) context.now.meanings.now }
    requires receiver { is_object (slice_get (nodes table.old) receiver) ≡ true }
    requires defined { state.is_defined ≡ true }
    ensures node { IfOk result (λ made. slice_get (nodes table.new) made ≡ Some (member_in (nodes table.new) context.now state own.now (the_object (slice_get (nodes table.old) receiver)))) }
    ensures grows { Extends table.old table.new }
{
    let defined = context.meaning(table, state.class, own)?;
    received(table, defined, receiver)
}

/// The node of a member of an object, or of what is defined for it.
fn member_value(
    table: &mut Table,
    context: &Context,
    state: StateEntry,
    own: &str,
    receiver: usize,
) -> Result<usize, NoMemory>
    requires held { AreHeld (nodes table.old) context.now.meanings.now }
    requires receiver { is_object (slice_get (nodes table.old) receiver) ≡ true }
    ensures node { IfOk result (λ made. slice_get (nodes table.new) made ≡ Some (member_in (nodes table.new) context.now state own.now (the_object (slice_get (nodes table.old) receiver)))) }
    ensures grows { Extends table.old table.new }
{
    if state.is_defined {
        defined_member(table, context, state, own, receiver)
    } else {
        let name = state_name(table.alloc(), context, state.class, own)?;
        read(table, kind_of_state(state), &name, receiver)
    }
}

/// The node of `this`: the variable of the binder round the whole, or the free name.
fn this_at(table: &mut Table, at: &Spot) -> Result<usize, NoMemory>
    ensures node { IfOk result (λ made. slice_get (nodes table.new) made ≡ Some (of_object (r.this_at (spot_of at.now)))) }
    ensures grows { Extends table.old table.new }
{
    if at.this_bound {
        bound_at(table, at.bound.len())
    } else {
        plain(table, Kind::Obj, "this")
    }
}

/// The node of the bound variable of a number.
fn bound_at(table: &mut Table, number: usize) -> Result<usize, NoMemory>
    ensures node { IfOk result (λ made. slice_get (nodes table.new) made ≡ Some (of_object (t.bound number))) }
    ensures grows { Extends table.old table.new }
{
    match u32::try_from(number) {
        Err(_) => Err(NoMemory),
        Ok(number) => table.make(Shape::Bound(number)),
    }
}

/// The node of a static, or of a member of `this`.
fn state_value(
    table: &mut Table,
    context: &Context,
    at: &Spot,
    state: StateEntry,
    own: &str,
) -> Result<usize, NoMemory>
    requires held { AreHeld (nodes table.old) context.now.meanings.now }
    ensures node { IfOk result (λ made. slice_get (nodes table.new) made ≡ Some (state_in (nodes table.new) context.now at.now state own.now)) }
    ensures grows { Extends table.old table.new }
{
    if state.fixed {
        static_value(table, context, state, own)
    } else {
        let this = this_at(table, at)?;
        member_value(table, context, state, own, this)
    }
}

/// The node of a field, static or variable, or else of the set of the objects of a class.
fn state_or_class(
    table: &mut Table,
    context: &Context,
    at: &Spot,
    word: &Word,
) -> Result<usize, NoMemory>
    requires held { AreHeld (nodes table.old) context.now.meanings.now }
    ensures node { IfOk result (λ made. slice_get (nodes table.new) made ≡ Some (state_or_class_in (nodes table.new) context.now at.now word.now)) }
    ensures grows { Extends table.old table.new }
{
    let text = word.text.text();
    match state_spelled(context.lookups, at.class, text) {
        None => plain(table, Kind::Set, text),
        Some(state) => state_value(table, context, at, state, own_name(text)),
    }
}

/// Whether a word spells the set of the allocated objects.
fn spells_alloc(text: &str) -> bool
    ensures { result ≡ is_one_of text.now (codes "alloc" ∷ codes "Object" ∷ codes "Object.alloc" ∷ []) }
{
    text == "alloc" || text == "Object" || text == "Object.alloc"
}

/// The node of a name that is neither bound nor a parameter or local.
fn outer_value(
    table: &mut Table,
    context: &Context,
    at: &Spot,
    word: &Word,
) -> Result<usize, NoMemory>
    requires held { AreHeld (nodes table.old) context.now.meanings.now }
    ensures node { IfOk result (λ made. slice_get (nodes table.new) made ≡ Some (outer_in (nodes table.new) context.now at.now word.now)) }
    ensures grows { Extends table.old table.new }
{
    let text = word.text.text();
    if text == "this" {
        this_at(table, at)
    } else if text == "result" {
        plain(table, at.result, "result")
    } else if spells_alloc(text) {
        plain(table, Kind::Set, "alloc")
    } else {
        state_or_class(table, context, at, word)
    }
}

/// The kind of a parameter or local.
fn kind_of_local(local: LocalEntry) -> Kind
    ensures { result ≡ r.kind_of_local local }
{
    match local.ty {
        None => Kind::Obj,
        Some(ty) => kind_of(ty),
    }
}

/// The node of a name that isn't bound.
fn local_value(
    table: &mut Table,
    context: &Context,
    at: &Spot,
    word: &Word,
) -> Result<usize, NoMemory>
    requires held { AreHeld (nodes table.old) context.now.meanings.now }
    ensures node { IfOk result (λ made. slice_get (nodes table.new) made ≡ Some (local_in (nodes table.new) context.now at.now word.now)) }
    ensures grows { Extends table.old table.new }
{
    match at.scope.local(word.text.text()) {
        None => outer_value(table, context, at, word),
        Some(local) => plain(table, kind_of_local(local), word.text.text()),
    }
}

/// The number of names bound inside the last one of a text.
fn bound_as(bound: &[&Word], text: &str) -> Option<usize>
    ensures { result ≡ r.bound_as text.now (texts_of bound.now) }
{
    let mut found = None;
    for index in 0..bound.len() {
        if bound[index].text.text() == text {
            found = Some(bound.len() - index - 1);
        }
    }
    found
}

/// The node of a name.
pub fn name_value(
    table: &mut Table,
    context: &Context,
    at: &Spot,
    word: &Word,
) -> Result<usize, NoMemory>
    requires held { AreHeld (nodes table.old) context.now.meanings.now }
    ensures node { IfOk result (λ made. slice_get (nodes table.new) made ≡ Some (name_in (nodes table.new) context.now at.now word.now)) }
    ensures grows { Extends table.old table.new }
{
    match bound_as(at.bound, word.text.text()) {
        None => local_value(table, context, at, word),
        Some(number) => bound_at(table, number),
    }
}

/// The node of what stands after the dots of a value.
pub fn after_dots(
    table: &mut Table,
    context: &Context,
    at: &Spot,
    receiver: usize,
    word: &Word,
) -> Result<usize, NoMemory>
    requires held { AreHeld (nodes table.old) context.now.meanings.now }
    requires receiver { receiver < length (nodes table.old) }
    ensures node { IfOk result (λ made. slice_get (nodes table.new) made ≡ Some (after_dots_in (nodes table.new) context.now at.now (r.as_object (the_value (slice_get (nodes table.old) receiver))) word.now)) }
    ensures grows { Extends table.old table.new }
{
    let receiver = coerced(table, receiver, Sort::Obj)?;
    let text = word.text.text();
    match state_named(context.lookups, at.class, text) {
        None => Ok(receiver),
        Some(state) => member_value(table, context, state, own_name(text), receiver),
    }
}
