#![tactic(auto, using(jh_rules::proofs::Judgements::find_steps, jh_ast::proofs::FormSteps::form_steps, crate::proofs::formula_kinds::Steps::kind_steps), unfolding(jh_rules::specs::Formulas::form_kind, jh_rules::specs::Formulas::form_kinds))]

ghost use Rattle.std.specs.Prelude.{◌≡◌, not, ◌∷◌, [], map, Bool, List, IfOk};
ghost use Rattle.std.specs.List.{list_all};
ghost use Rattle.jh_name.specs.declared.place.Kind.{Kind};
ghost use Rattle.jh_ast.specs.Bare.{form_tree, form_trees, spec_part};
ghost use Rattle.jh_rules.specs.Faults as faults;
ghost use Rattle.jh_rules.specs.Faults.{Judged};
ghost use Rattle.jh_rules.specs.Found.{Finds, asked_of, least};
ghost use Rattle.jh_rules.specs.Formulas as forms;
ghost use Rattle.jh_rules.specs.Kinds as kinds;
ghost use Rattle.jh_rules.specs.Rules as rules;
ghost use Rattle.jh_rules.specs.Words.{text_of};
ghost use Rattle.jh_symbols.specs.scopes.Lookings.{declared_by, scope_by};
ghost use Rattle.jh_type.specs.formula_kinds.Standing.{where_by};
ghost use Rattle.jh_type.specs.formula_kinds.Parts as parts;

use crate::formula_kinds::Spot;
use crate::formula_kinds::binding::{bound_by, bound_under};
use crate::formula_kinds::fields::{fields_kind, merge};
use crate::formula_kinds::naming::name_kind;
use crate::formula_kinds::operators::{
    Wanted, behind, binary_kind, complement, multiple, one, path, read, unless,
};
use crate::formula_kinds::shapes::path_fields;
use crate::formula_kinds::spelling::field_named;
use jh_ast::{Spec, SpecBody, SpecTree, Word};
use jh_name::{Kind, NoMemory, Place, Text};
use jh_rules::{Fault, Found, after, is_obj, is_truth, needs, right, stop};
use jh_symbols::scopes::{Lookups, ScopeTable};
use std::alloc::Global;

/// Whether what is known is an object.
fn note_object(found: Found<Kind>) -> Found<bool>
    ensures { result ≡ parts.noted kinds.is_obj found }
{
    let known = match found.known {
        None => None,
        Some(kind) => Some(is_obj(kind)),
    };
    Found {
        least: found.least,
        known,
    }
}

/// The place of the first of some formulas.
fn first_place(place: Place, items: &[SpecTree]) -> Place
    ensures { result ≡ forms.first_place place (form_trees items.now) }
{
    match items {
        [] => place,
        [first, ..] => first.place,
    }
}

/// The set of some objects.
fn braces(place: Place, items: &[SpecTree], found: Found<bool>) -> Found<Kind>
    ensures { (j : Judged Bool) → Finds found j → Finds result (asked_of j (parts.braces place (form_trees items.now))) }
{
    match found.known {
        None => stop(found),
        Some(good) => after(found, needs(good, 28, first_place(place, items), Kind::Set)),
    }
}

/// That `old` may stand.
fn needs_old(spot: Spot, place: Place) -> Found<()>
    ensures { Finds result (rules.rule_31_old spot.old place) }
{
    needs(spot.old, 31, place, ())
}

/// What is found of each of some formulas: whether all are objects.
#[cycle(form_kind)]
fn objects(
    alloc: Global,
    lookups: &Lookups,
    at: &ScopeTable,
    spot: Spot,
    bound: &[Text],
    items: &[SpecTree],
) -> Result<Found<bool>, NoMemory>
    ensures { IfOk result (λ found. Finds found (parts.seen (list_all kinds.is_obj) (forms.form_kinds (declared_by lookups.now) (form_trees items.now) (where_by spot (scope_by at.now) bound.now)))) }
{
    let mut found = right(true);
    for form in items.iter() {
        let next = form_kind(alloc, lookups, at, spot, bound, form)?;
        found = merge(found, note_object(next));
    }
    Ok(found)
}

/// What is found of a formula under some binders.
#[cycle(form_kind)]
fn under(
    alloc: Global,
    lookups: &Lookups,
    at: &ScopeTable,
    spot: Spot,
    bound: &[Text],
    words: &[Word],
    form: &SpecTree,
) -> Result<Found<Kind>, NoMemory>
    ensures { IfOk result (λ found. Finds found (forms.form_kind (declared_by lookups.now) (form_tree form.now) (forms.under (where_by spot (scope_by at.now) bound.now) words.now))) }
{
    let names = bound_under(alloc, words, bound)?;
    form_kind(alloc, lookups, at, spot, &names, form)
}

/// What is found of a formula under one binder.
#[cycle(form_kind)]
fn under_one(
    alloc: Global,
    lookups: &Lookups,
    at: &ScopeTable,
    spot: Spot,
    bound: &[Text],
    word: &Word,
    form: &SpecTree,
) -> Result<Found<Kind>, NoMemory>
    ensures { IfOk result (λ found. Finds found (forms.form_kind (declared_by lookups.now) (form_tree form.now) (forms.under (where_by spot (scope_by at.now) bound.now) (word.now ∷ [])))) }
{
    let names = bound_by(alloc, word, bound)?;
    form_kind(alloc, lookups, at, spot, &names, form)
}

/// What is found of a formula: its kind, or the least fault in it.
#[cycle(form_kind)]
pub fn form_kind(
    alloc: Global,
    lookups: &Lookups,
    at: &ScopeTable,
    spot: Spot,
    bound: &[Text],
    form: &SpecTree,
) -> Result<Found<Kind>, NoMemory>
    ensures { IfOk result (λ found. Finds found (forms.form_kind (declared_by lookups.now) (form_tree form.now) (where_by spot (scope_by at.now) bound.now))) }
{
    match &form.body {
        SpecBody::Null => Ok(right(Kind::Obj)),
        SpecBody::True => Ok(right(Kind::Bool)),
        SpecBody::False => Ok(right(Kind::Bool)),
        SpecBody::Univ => Ok(right(Kind::Set)),
        SpecBody::Number(_) => Ok(right(Kind::Int)),
        SpecBody::Name(word) => Ok(name_kind(lookups, at, spot, bound, word)),
        SpecBody::Member(of, word) => {
            let object = form_kind(alloc, lookups, at, spot, bound, of)?;
            Ok(read(of, object, field_named(lookups, at.class, word)))
        }
        SpecBody::Not(inner) => {
            let found = form_kind(alloc, lookups, at, spot, bound, inner)?;
            Ok(one(Wanted::Truth, inner, found, Kind::Bool))
        }
        SpecBody::Minus(inner) => {
            let found = form_kind(alloc, lookups, at, spot, bound, inner)?;
            Ok(complement(inner, found))
        }
        SpecBody::Old(inner) => {
            let found = form_kind(alloc, lookups, at, spot.in_old(), bound, inner)?;
            Ok(behind(needs_old(spot, form.place), found))
        }
        SpecBody::Card(inner) => {
            let found = form_kind(alloc, lookups, at, spot, bound, inner)?;
            Ok(one(Wanted::Set, inner, found, Kind::Int))
        }
        SpecBody::Binary(op, left, right) => {
            let first = form_kind(alloc, lookups, at, spot, bound, left)?;
            let second = form_kind(alloc, lookups, at, spot, bound, right)?;
            Ok(binary_kind(lookups, form.place, *op, left, first, right, second))
        }
        SpecBody::Dvd(number, inner) => {
            let found = form_kind(alloc, lookups, at, spot, bound, inner)?;
            Ok(multiple(form.place, number, found))
        }
        SpecBody::All(words, inner) => {
            let found = under(alloc, lookups, at, spot, bound, words.items(), inner)?;
            Ok(one(Wanted::Truth, inner, found, Kind::Bool))
        }
        SpecBody::Ex(words, inner) => {
            let found = under(alloc, lookups, at, spot, bound, words.items(), inner)?;
            Ok(one(Wanted::Truth, inner, found, Kind::Bool))
        }
        SpecBody::Tree(words) => { Ok(fields_kind(lookups, at.class, form.place, words.items())) }
        SpecBody::Rtrancl(first, second, body, left, right) => {
            let fields = path_fields(alloc, lookups, at.class, form.place, first, second, body)?;
            let start = form_kind(alloc, lookups, at, spot, bound, left)?;
            let end = form_kind(alloc, lookups, at, spot, bound, right)?;
            Ok(path(fields, left, start, end))
        }
        SpecBody::Braces(items) => {
            let found = objects(alloc, lookups, at, spot, bound, items.items())?;
            Ok(braces(form.place, items.items(), found))
        }
        SpecBody::Compr(word, inner) => {
            let found = under_one(alloc, lookups, at, spot, bound, word, inner)?;
            Ok(one(Wanted::Truth, inner, found, Kind::Set))
        }
    }
}

/// That a formula is a truth, at the place of its quote.
fn needs_truth(place: Place, kind: Kind) -> Found<()>
    ensures { Finds result (faults.needs_none (faults.broken 11 place (not (kinds.is_truth kind)))) }
{
    unless(!is_truth(kind), 11, place)
}

/// The faults of a formula that is to be a truth.
fn truth_found(place: Place, found: Found<Kind>) -> Found<()>
    ensures { (j : Judged Kind) → Finds found j → Finds result (asked_of j (parts.truth_at place)) }
{
    match found.known {
        None => stop(found),
        Some(kind) => after(found, needs_truth(place, kind)),
    }
}

/// The least fault of a formula that is to be a truth.
pub fn truth_faults(
    alloc: Global,
    lookups: &Lookups,
    at: &ScopeTable,
    spot: Spot,
    spec: &Spec,
) -> Result<Option<Fault>, NoMemory>
    ensures { IfOk result (λ found. found ≡ least (forms.truth_faults (declared_by lookups.now) (where_by spot (scope_by at.now) []) (spec_part spec.now))) }
{
    let kind = form_kind(alloc, lookups, at, spot, &[], &spec.body)?;
    Ok(truth_found(spec.place, kind).least)
}
