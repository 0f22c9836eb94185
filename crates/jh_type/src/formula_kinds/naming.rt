#![tactic(auto, using(jh_rules::proofs::Judgements::find_steps))]

ghost use Rattle.jh_rules.specs.Kinds as kinds;
ghost use Rattle.std.specs.Prelude.{◌≡◌, not, Option, option_map, []};
ghost use Rattle.jh_rules.specs.Formulas as forms;
ghost use Rattle.jh_rules.specs.Rules as rules;
ghost use Rattle.jh_rules.specs.Found.{Finds};
ghost use Rattle.jh_symbols.specs.scopes.Lookings.{declared_by, scope_by};
ghost use Rattle.jh_type.specs.formula_kinds.Standing.{where_by};
ghost use Rattle.jh_type.specs.formula_kinds.Parts as parts;

use crate::formula_kinds::Spot;
use crate::formula_kinds::binding::is_bound;
use crate::formula_kinds::spelling::state_spelled;
use jh_ast::Word;
use jh_name::{Kind, Place, Text};
use jh_rules::{Found, StateEntry, Ty, given, kind_of, needs, right, wrong};
use jh_symbols::scopes::{Lookups, ScopeTable};

/// A field, static or specification variable without receiver.
fn own_state(at: &ScopeTable, word: &Word, entry: StateEntry) -> Found<Kind>
    ensures { Finds result (parts.own_state (not at.now.fixed) word.now entry) }
{
    if entry.fixed || !at.fixed {
        given(entry.kind)
    } else {
        wrong(14, word.place)
    }
}

/// The set of a class, where a word names one.
fn set_or_unknown(lookups: &Lookups, word: &Word) -> Found<Kind>
    ensures { Finds result (parts.set_or_unknown (declared_by lookups.now) word.now) }
{
    if lookups.class_named(word.text.text()).is_some() {
        right(Kind::Set)
    } else {
        wrong(27, word.place)
    }
}

/// A member of the own class, or the set of a class.
fn member_or_class(lookups: &Lookups, at: &ScopeTable, word: &Word) -> Found<Kind>
    ensures { Finds result (parts.member_or_class (declared_by lookups.now) at.now.class (not at.now.fixed) word.now) }
{
    match state_spelled(lookups, at.class, word.text.text()) {
        None => set_or_unknown(lookups, word),
        Some(entry) => own_state(at, word, entry),
    }
}

/// Whether a name is that of the set of all objects that are allocated.
fn is_set_word(text: &str) -> bool
    ensures { result ≡ parts.is_set_word text.now }
{
    text == "alloc" || text == "Object" || text == "Object.alloc"
}

/// The set of the allocated objects, a member or the set of a class.
fn set_or_member(lookups: &Lookups, at: &ScopeTable, word: &Word) -> Found<Kind>
    ensures { Finds result (parts.set_or_member (declared_by lookups.now) at.now.class (not at.now.fixed) word.now) }
{
    if is_set_word(word.text.text()) {
        right(Kind::Set)
    } else {
        member_or_class(lookups, at, word)
    }
}

/// The kind of `result`, where it may stand.
fn result_kind(place: Place, wanted: Option<Option<Kind>>) -> Found<Kind>
    ensures { Finds result (rules.rule_31_result place wanted) }
{
    match wanted {
        None => wrong(31, place),
        Some(kind) => given(kind),
    }
}

/// The result, or what a name is that is neither that nor `this`.
fn result_or_more(lookups: &Lookups, at: &ScopeTable, spot: Spot, word: &Word) -> Found<Kind>
    ensures { Finds result (parts.result_or_more (declared_by lookups.now) at.now.class (not at.now.fixed) spot.result word.now) }
{
    if word.text.text() == "result" {
        result_kind(word.place, spot.result)
    } else {
        set_or_member(lookups, at, word)
    }
}

/// What a name is that is no bound name and no local.
fn outer_kind(lookups: &Lookups, at: &ScopeTable, spot: Spot, word: &Word) -> Found<Kind>
    ensures { Finds result (forms.outer_kind (declared_by lookups.now) (where_by spot (scope_by at.now) []) word.now) }
{
    if word.text.text() == "this" {
        needs(!at.fixed, 14, word.place, Kind::Obj)
    } else {
        result_or_more(lookups, at, spot, word)
    }
}

/// The kind of a type that may be unknown.
fn kind_known(ty: Option<Ty>) -> Option<Kind>
    ensures { result ≡ option_map kinds.kind_of ty }
{
    match ty {
        None => None,
        Some(ty) => Some(kind_of(ty)),
    }
}

/// What a name is that is no bound name.
fn free_kind(lookups: &Lookups, at: &ScopeTable, spot: Spot, word: &Word) -> Found<Kind>
    ensures { Finds result (parts.free_kind (declared_by lookups.now) (where_by spot (scope_by at.now) []) word.now) }
{
    match at.local(word.text.text()) {
        None => outer_kind(lookups, at, spot, word),
        Some(local) => given(kind_known(local.ty)),
    }
}

/// What a name of a formula is.
pub fn name_kind(
    lookups: &Lookups,
    at: &ScopeTable,
    spot: Spot,
    bound: &[Text],
    word: &Word,
) -> Found<Kind>
    ensures { Finds result (forms.name_kind (declared_by lookups.now) (where_by spot (scope_by at.now) bound.now) word.now) }
{
    if is_bound(word.text.text(), bound) {
        right(Kind::Obj)
    } else {
        free_kind(lookups, at, spot, word)
    }
}
