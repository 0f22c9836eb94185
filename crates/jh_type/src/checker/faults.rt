#![tactic(auto, using(crate::proofs::checker::Leasts::least_steps), unfolding(jh_rules::specs::Found::least))]

ghost use Rattle.std.specs.Prelude.{◌≡◌, not, [], map, Option, option_map, IfOk};
ghost use Rattle.std.specs.List.{flat_map};
ghost use Rattle.jh_ast.specs.declared.program.Field.{Field};
ghost use Rattle.jh_ast.specs.declared.program.Method.{Method};
ghost use Rattle.jh_ast.specs.declared.program.SpecVar.{SpecVar};
ghost use Rattle.jh_ast.specs.Bare.{expr_tree, field_part, var_part, def_part, spec_part, method_part, labelled_part};
ghost use Rattle.jh_name.specs.declared.place.Kind.{Kind};
ghost use Rattle.jh_rules.specs.Faults.{Judged};
ghost use Rattle.jh_rules.specs.Found.{Finds, least};
ghost use Rattle.jh_rules.specs.Formulas as forms;
ghost use Rattle.jh_rules.specs.Rules as rules;
ghost use Rattle.jh_rules.specs.Statements as statements;
ghost use Rattle.jh_symbols.specs.scopes.Firsts.{is_behind};
ghost use Rattle.jh_symbols.specs.scopes.Lookings.{declared_by, scope_by};
ghost use Rattle.jh_type.specs.formula_kinds.Standing.{where_by};
ghost use Rattle.jh_type.specs.checker.Parts as parts;

use crate::checker::defaults::{is_default, is_default_form};
use crate::formula_kinds::{Spot, form_kind, truth_faults};
use crate::method_bodies::{broken, method_faults, outermost, word_fault};
use jh_ast::{Expr, Field, Labelled, Method, SpecVar, VarDef, Word};
use jh_name::{Kind, NoMemory, Place};
use jh_rules::{Fault, StateEntry, Ty, lesser, same_kind};
use jh_symbols::scopes::{Firsts, Lookups, ScopeTable, type_of};
use std::alloc::Global;

/// What a formula outside methods may say.
fn outside() -> Spot
    ensures { result ≡ parts.outside_spot }
{
    Spot {
        old: false,
        result: None,
    }
}

/// Whether no class may have a name.
fn is_kept(text: &str) -> bool
    ensures { result ≡ parts.is_kept text.now }
{
    text == "Object" || text == "result" || text == "alloc"
}

/// Whether no member may have a name.
fn is_word(text: &str) -> bool
    ensures { result ≡ parts.is_word text.now }
{
    text == "result" || text == "alloc"
}

/// A class name used before, or one that no class may have.
pub fn class_name_fault(words: &Firsts, word: &Word) -> Option<Fault>
    ensures { result ≡ least (parts.class_name_faults (is_behind words.now) word.now) }
{
    let is_wrong = words.is_behind(word) || is_kept(word.text.text());
    broken(1, word.place, is_wrong)
}

/// A member name used before, or one that no member may have.
fn member_fault(words: &Firsts, word: &Word) -> Option<Fault>
    ensures { result ≡ least (parts.member_faults (is_behind words.now) word.now) }
{
    let again = broken(2, word.place, words.is_behind(word));
    lesser(again, broken(6, word.place, is_word(word.text.text())))
}

/// An invariant name used before.
fn label_fault(words: &Firsts, invariant: &Labelled) -> Option<Fault>
    ensures { result ≡ least (flat_map (parts.label_faults (is_behind words.now)) (parts.words_of invariant.now)) }
{
    match &invariant.name {
        None => None,
        Some(word) => broken(3, word.place, words.is_behind(word)),
    }
}

/// An initialiser that isn't its default, where the type is known.
fn default_fault(ty: Option<Ty>, expr: &Expr) -> Option<Fault>
    ensures { result ≡ least (parts.init_faults ty (expr_tree expr.now)) }
{
    match ty {
        None => None,
        Some(ty) => broken(7, expr.place, !is_default(ty, expr)),
    }
}

/// An initialiser that isn't its default, where there is one.
fn init_fault(ty: Option<Ty>, init: &Option<Expr>) -> Option<Fault>
    ensures { result ≡ least (statements.of_some (parts.init_faults ty) (option_map expr_tree init.now)) }
{
    match init {
        None => None,
        Some(expr) => default_fault(ty, expr),
    }
}

/// The least fault of a field or static.
fn field_fault(lookups: &Lookups, field: &Field) -> Option<Fault>
    ensures { result ≡ least (statements.field_faults (declared_by lookups.now) (field_part field.now)) }
{
    let word = word_fault(lookups, &field.jtype);
    let init = init_fault(type_of(lookups, &field.jtype), &field.init);
    lesser(word, init)
}

/// An initialiser of a specification variable that isn't its default.
fn var_init_fault(var: &SpecVar) -> Option<Fault>
    ensures { result ≡ least (statements.of_some (rules.rule_7_var var.now.kind) (option_map spec_part var.now.init)) }
{
    match &var.init {
        None => None,
        Some(spec) => broken(7, spec.place, !is_default_form(var.kind, &spec.body)),
    }
}

/// Whether a state has a definition.
fn has_definition(state: Option<StateEntry>) -> bool
    ensures { result ≡ parts.has_definition state }
{
    match state {
        None => false,
        Some(entry) => entry.is_defined,
    }
}

/// A specification variable that is neither ghost nor defined.
fn var_name_fault(lookups: &Lookups, number: usize, var: &SpecVar) -> Option<Fault>
    ensures { result ≡ least (rules.rule_9 (declared_by lookups.now) number (var_part var.now)) }
{
    let state = lookups.state_of(number, var.name.text.text());
    let is_there = var.is_ghost || has_definition(state);
    broken(9, var.name.place, !is_there)
}

/// The least fault of a specification variable.
fn var_fault(lookups: &Lookups, number: usize, var: &SpecVar) -> Option<Fault>
    ensures { result ≡ least (statements.var_faults (declared_by lookups.now) number (var_part var.now)) }
{
    lesser(var_init_fault(var), var_name_fault(lookups, number, var))
}

/// Whether a state is a variable that may be defined.
fn is_plain_variable(state: Option<StateEntry>) -> bool
    ensures { result ≡ parts.is_plain_variable state }
{
    match state {
        None => false,
        Some(entry) => entry.is_variable && !entry.is_ghost,
    }
}

/// Whether a state is a static variable.
fn is_static_variable(state: Option<StateEntry>) -> bool
    ensures { result ≡ parts.is_static_variable state }
{
    match state {
        None => false,
        Some(entry) => entry.is_variable && entry.fixed,
    }
}

/// A name of a definition that may have none, or has one before.
fn def_name_fault(lookups: &Lookups, number: usize, words: &Firsts, word: &Word) -> Option<Fault>
    ensures { result ≡ least (parts.def_name_faults (declared_by lookups.now) number (is_behind words.now) word.now) }
{
    let state = lookups.state_of(number, word.text.text());
    let is_wrong = !is_plain_variable(state) || words.is_behind(word);
    broken(8, word.place, is_wrong)
}

/// Whether a kind is that of a state, or the state has none.
fn is_kind_of(kind: Kind, known: Option<Kind>) -> bool
    ensures { result ≡ parts.is_kind_of kind known }
{
    match known {
        None => true,
        Some(other) => same_kind(kind, other),
    }
}

/// Whether a state is a variable of another kind.
fn is_other_variable(kind: Kind, state: Option<StateEntry>) -> bool
    ensures { result ≡ parts.is_other kind state }
{
    match state {
        None => false,
        Some(entry) => entry.is_variable && !is_kind_of(kind, entry.kind),
    }
}

/// A definition of another kind than the variable's, where its kind is known.
fn kind_fault(place: Place, known: Option<Kind>, state: Option<StateEntry>) -> Option<Fault>
    ensures { result ≡ least (parts.kind_faults place known state) }
{
    match known {
        None => None,
        Some(kind) => broken(10, place, is_other_variable(kind, state)),
    }
}

/// The least fault of the body of a definition.
fn def_body_fault(
    alloc: Global,
    lookups: &Lookups,
    number: usize,
    definition: &VarDef,
) -> Result<Option<Fault>, NoMemory>
    ensures { IfOk result (λ found. found ≡ least (parts.def_body_faults (declared_by lookups.now) number (def_part definition.now))) }
{
    let state = lookups.state_of(number, definition.name.text.text());
    let at = outermost(alloc, number, is_static_variable(state));
    let found = form_kind(alloc, lookups, &at, outside(), &[], &definition.body.body)?;
    let kind = kind_fault(definition.body.place, found.known, state);
    Ok(lesser(found.least, kind))
}

/// The least fault of a definition.
fn def_fault(
    alloc: Global,
    lookups: &Lookups,
    number: usize,
    words: &Firsts,
    definition: &VarDef,
) -> Result<Option<Fault>, NoMemory>
    ensures { IfOk result (λ found. found ≡ least (parts.def_faults (declared_by lookups.now) number (is_behind words.now) (def_part definition.now))) }
{
    let name = def_name_fault(lookups, number, words, &definition.name);
    let body = def_body_fault(alloc, lookups, number, definition)?;
    Ok(lesser(name, body))
}

/// The least fault of an invariant, in a scope.
fn invariant_fault(
    alloc: Global,
    lookups: &Lookups,
    at: &ScopeTable,
    invariant: &Labelled,
) -> Result<Option<Fault>, NoMemory>
    ensures { IfOk result (λ found. found ≡ least (parts.invariant_in (declared_by lookups.now) (scope_by at.now) (labelled_part invariant.now))) }
{
    truth_faults(alloc, lookups, at, outside(), &invariant.body)
}

/// The least fault of the names of some fields.
pub fn field_names(words: &Firsts, fields: &[Field]) -> Option<Fault>
    ensures { result ≡ least (flat_map (λ (x : Field). parts.member_faults (is_behind words.now) x.name) fields.now) }
{
    let mut found = None;
    for field in fields.iter() {
        found = lesser(found, member_fault(words, &field.name));
    }
    found
}

/// The least fault of the names of some methods.
pub fn method_names(words: &Firsts, methods: &[Method]) -> Option<Fault>
    ensures { result ≡ least (flat_map (λ (x : Method). parts.member_faults (is_behind words.now) x.name) methods.now) }
{
    let mut found = None;
    for method in methods.iter() {
        found = lesser(found, member_fault(words, &method.name));
    }
    found
}

/// The least fault of the names of some variables.
pub fn var_names(words: &Firsts, vars: &[SpecVar]) -> Option<Fault>
    ensures { result ≡ least (flat_map (λ (x : SpecVar). parts.member_faults (is_behind words.now) x.name) vars.now) }
{
    let mut found = None;
    for var in vars.iter() {
        found = lesser(found, member_fault(words, &var.name));
    }
    found
}

/// The least fault of the names of some invariants.
pub fn label_names(words: &Firsts, invariants: &[Labelled]) -> Option<Fault>
    ensures { result ≡ least (flat_map (λ x. flat_map (parts.label_faults (is_behind words.now)) (parts.words_of x)) invariants.now) }
{
    let mut found = None;
    for invariant in invariants.iter() {
        found = lesser(found, label_fault(words, invariant));
    }
    found
}

/// The least fault of some fields and statics.
pub fn all_fields(lookups: &Lookups, fields: &[Field]) -> Option<Fault>
    ensures { result ≡ least (flat_map (statements.field_faults (declared_by lookups.now)) (map field_part fields.now)) }
{
    let mut found = None;
    for field in fields.iter() {
        found = lesser(found, field_fault(lookups, field));
    }
    found
}

/// The least fault of some specification variables.
pub fn all_vars(lookups: &Lookups, number: usize, vars: &[SpecVar]) -> Option<Fault>
    ensures { result ≡ least (flat_map (statements.var_faults (declared_by lookups.now) number) (map var_part vars.now)) }
{
    let mut found = None;
    for var in vars.iter() {
        found = lesser(found, var_fault(lookups, number, var));
    }
    found
}

/// The least fault of some definitions.
pub fn all_defs(
    alloc: Global,
    lookups: &Lookups,
    number: usize,
    words: &Firsts,
    defs: &[VarDef],
) -> Result<Option<Fault>, NoMemory>
    ensures { IfOk result (λ found. found ≡ least (flat_map (parts.def_faults (declared_by lookups.now) number (is_behind words.now)) (map def_part defs.now))) }
{
    let mut found = None;
    for definition in defs.iter() {
        let next = def_fault(alloc, lookups, number, words, definition)?;
        found = lesser(found, next);
    }
    Ok(found)
}

/// The least fault of some invariants, in a scope.
pub fn all_invariants(
    alloc: Global,
    lookups: &Lookups,
    at: &ScopeTable,
    invariants: &[Labelled],
) -> Result<Option<Fault>, NoMemory>
    ensures { IfOk result (λ found. found ≡ least (flat_map (parts.invariant_in (declared_by lookups.now) (scope_by at.now)) (map labelled_part invariants.now))) }
{
    let mut found = None;
    for invariant in invariants.iter() {
        let next = invariant_fault(alloc, lookups, at, invariant)?;
        found = lesser(found, next);
    }
    Ok(found)
}

/// The least fault of some methods.
pub fn all_methods(
    alloc: Global,
    lookups: &Lookups,
    number: usize,
    methods: &[Method],
) -> Result<Option<Fault>, NoMemory>
    ensures { IfOk result (λ found. found ≡ least (flat_map (statements.method_faults (declared_by lookups.now) number) (map method_part methods.now))) }
{
    let mut found = None;
    for method in methods.iter() {
        let next = method_faults(alloc, lookups, number, method)?;
        found = lesser(found, next);
    }
    Ok(found)
}
