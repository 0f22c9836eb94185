#![tactic(auto, using(jh_rules::proofs::Judgements::find_steps, crate::proofs::method_bodies::Leasts::least_steps, jh_ast::proofs::FormSteps::form_steps), unfolding(jh_rules::specs::Found::least))]

ghost use Rattle.std.specs.Prelude.{◌≡◌, ◌∷◌, [], map, Option, None, true, IfOk, OnOk};
ghost use Rattle.std.specs.List.{flat_map};
ghost use Rattle.jh_name.specs.declared.place.Kind.{Kind};
ghost use Rattle.jh_ast.specs.Bare.{form_tree, spec_part, labelled_part};
ghost use Rattle.jh_rules.specs.Faults.{Judged};
ghost use Rattle.jh_rules.specs.Found.{Finds, least};
ghost use Rattle.jh_rules.specs.Formulas as forms;
ghost use Rattle.jh_rules.specs.Names.{label_of};
ghost use Rattle.jh_rules.specs.Rules as rules;
ghost use Rattle.jh_rules.specs.Statements as statements;
ghost use Rattle.jh_symbols.specs.scopes.Lookings.{declared_by, scope_by};
ghost use Rattle.jh_type.specs.method_bodies.Parts as parts;
ghost use Rattle.jh_type.specs.method_bodies.Scoping as scoping;

use crate::formula_kinds::{Spot, form_kind, state_named, state_spelled, truth_faults};
use crate::method_bodies::faulting::broken;
use jh_ast::{Labelled, Spec, SpecBody, SpecTree, Word};
use jh_name::{Kind, NoMemory, Place};
use jh_rules::{Fault, Found, StateEntry, lesser, same_kind};
use jh_symbols::scopes::{Lookups, ScopeTable};
use std::alloc::Global;

/// What a formula in a body may say: `old`, and no `result`.
fn inside() -> Spot
    ensures { result ≡ parts.inside_spot }
{
    Spot {
        old: true,
        result: None,
    }
}

/// Whether a name after `from` is always one of facts.
fn is_source(text: &str) -> bool
    ensures { result ≡ parts.is_source text.now }
{
    text == "pre" || text == "post" || text == "cond" || text == "wf"
}

/// A name after `from` that no fact before it has.
fn from_fault(lookups: &Lookups, at: &ScopeTable, word: &Word) -> Option<Fault>
    ensures { result ≡ least (rules.rule_27_from (declared_by lookups.now) (scope_by at.now) word.now) }
{
    let text = word.text.text();
    let is_known = is_source(text) || lookups.is_invariant(text) || at.has_label(text);
    broken(27, word.place, !is_known)
}

/// The least fault of some names after `from`.
fn from_faults(lookups: &Lookups, at: &ScopeTable, words: &[Word]) -> Option<Fault>
    ensures { result ≡ least (flat_map (rules.rule_27_from (declared_by lookups.now) (scope_by at.now)) words.now) }
{
    let mut found = None;
    for word in words.iter() {
        found = lesser(found, from_fault(lookups, at, word));
    }
    found
}

/// The least fault of a formula in a body that is to be a truth.
pub fn truth_inside(
    alloc: Global,
    lookups: &Lookups,
    at: &ScopeTable,
    spec: &Spec,
) -> Result<Option<Fault>, NoMemory>
    ensures { IfOk result (λ found. found ≡ least (forms.truth_faults (declared_by lookups.now) (statements.inside (declared_by lookups.now) (scope_by at.now)) (spec_part spec.now))) }
{
    truth_faults(alloc, lookups, at, inside(), spec)
}

/// The least fault of an `assert` or a `note`.
pub fn labelled_faults(
    alloc: Global,
    lookups: &Lookups,
    at: &ScopeTable,
    labelled: &Labelled,
) -> Result<Option<Fault>, NoMemory>
    ensures { IfOk result (λ found. found ≡ least (statements.labelled_faults (declared_by lookups.now) (scope_by at.now) (labelled_part labelled.now))) }
{
    let truth = truth_inside(alloc, lookups, at, &labelled.body)?;
    Ok(lesser(truth, from_faults(lookups, at, labelled.from.items())))
}

/// The least fault of the invariants of a loop.
pub fn invariant_faults(
    alloc: Global,
    lookups: &Lookups,
    at: &ScopeTable,
    invariants: &[Labelled],
) -> Result<Option<Fault>, NoMemory>
    ensures { IfOk result (λ found. found ≡ least (flat_map (parts.invariant (declared_by lookups.now) (scope_by at.now)) (map labelled_part invariants.now))) }
{
    let mut found = None;
    for invariant in invariants.iter() {
        let truth = truth_inside(alloc, lookups, at, &invariant.body)?;
        found = lesser(found, truth);
    }
    Ok(found)
}

/// Takes in the label of a loop invariant or note, where it has one.
pub fn add_label(at: &mut ScopeTable, labelled: &Labelled) -> Result<(), NoMemory>
    ensures scope { OnOk result (scope_by at.new ≡ scoping.labelled (scope_by at.old) (label_of (labelled_part labelled.now))) }
    ensures undos { OnOk result (at.new.undos.items ≡ at.old.undos.items) }
{
    match &labelled.name {
        None => Ok(()),
        Some(word) => at.put_label(word.text.text()),
    }
}

/// Takes in the labels of the invariants of a loop.
pub fn add_labels(at: &mut ScopeTable, invariants: &[Labelled]) -> Result<(), NoMemory>
    ensures scope { OnOk result (scope_by at.new ≡ scoping.labelled (scope_by at.old) (flat_map label_of (map labelled_part invariants.now))) }
    ensures undos { OnOk result (at.new.undos.items ≡ at.old.undos.items) }
{
    for invariant in invariants.iter() {
        add_label(at, invariant)?;
    }
    Ok(())
}

/// Whether a state is a ghost variable.
fn is_ghost_state(state: Option<StateEntry>) -> bool
    ensures { result ≡ parts.is_ghost_state state }
{
    match state {
        None => false,
        Some(entry) => entry.is_ghost,
    }
}

/// Whether what is written is a ghost variable, or one read of it; `Object` by itself is the set of all objects.
fn is_ghost_target(lookups: &Lookups, at: &ScopeTable, form: &SpecTree) -> bool
    ensures { result ≡ statements.is_ghost_target (declared_by lookups.now) (scope_by at.now) (form_tree form.now) }
{
    match &form.body {
        SpecBody::Name(word) => {
            let text = word.text.text();
            let is_ghost = is_ghost_state(state_spelled(lookups, at.class, text));
            at.local(text).is_none() && text != "Object" && is_ghost
        }
        SpecBody::Member(_, word) => {
            is_ghost_state(state_named(lookups, at.class, word.text.text()))
        }
        _ => false,
    }
}

/// A left side of `:=` of a known kind that isn't a ghost variable.
fn target_fault(place: Place, known: Option<Kind>, is_ghost: bool) -> Option<Fault>
    ensures { result ≡ least (parts.target place known is_ghost) }
{
    match known {
        None => None,
        Some(_) => broken(31, place, !is_ghost),
    }
}

/// Two sides of `:=` of known kinds that aren't one.
fn same_fault(place: Place, left: Option<Kind>, right: Option<Kind>) -> Option<Fault>
    ensures { result ≡ least (parts.same place left right) }
{
    match right {
        None => None,
        Some(value) => match left {
            None => None,
            Some(target) => broken(31, place, !same_kind(target, value)),
        },
    }
}

/// The least fault of `:=`, of which the sides are found.
fn sides_faults(
    place: Place,
    left: Found<Kind>,
    right: Found<Kind>,
    is_ghost: bool,
) -> Option<Fault>
    ensures { (j m : Judged Kind) → Finds left j → Finds right m → result ≡ least (parts.sides place j m is_ghost) }
{
    let target = target_fault(place, left.known, is_ghost);
    let same = same_fault(place, left.known, right.known);
    lesser(lesser(left.least, target), lesser(right.least, same))
}

/// The least fault of `:=`.
pub fn ghost_faults(
    alloc: Global,
    lookups: &Lookups,
    at: &ScopeTable,
    place: Place,
    left: &Spec,
    right: &Spec,
) -> Result<Option<Fault>, NoMemory>
    ensures { IfOk result (λ found. found ≡ least (parts.ghost_sides (declared_by lookups.now) (scope_by at.now) place (form_tree left.now.body) (form_tree right.now.body))) }
{
    let first = form_kind(alloc, lookups, at, inside(), &[], &left.body)?;
    let second = form_kind(alloc, lookups, at, inside(), &[], &right.body)?;
    let is_ghost = is_ghost_target(lookups, at, &left.body);
    Ok(sides_faults(place, first, second, is_ghost))
}
