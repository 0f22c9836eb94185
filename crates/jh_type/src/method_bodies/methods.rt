#![tactic(auto, using(crate::proofs::method_bodies::Leasts::least_steps), unfolding(jh_rules::specs::Found::least, jh_ast::specs::Bare::method_part))]

ghost use Rattle.std.specs.Prelude.{◌≡◌, nat_lt, [], Option, option_map, IfOk, OnOk};
ghost use Rattle.std.specs.List.{flat_map};
ghost use Rattle.jh_ast.specs.Bare.{spec_part, method_part};
ghost use Rattle.jh_rules.specs.Found.{least, lesser};
ghost use Rattle.jh_rules.specs.Formulas as forms;
ghost use Rattle.jh_rules.specs.Kinds.{kind_of};
ghost use Rattle.jh_rules.specs.Rules as rules;
ghost use Rattle.jh_rules.specs.Scopes as scopes;
ghost use Rattle.jh_rules.specs.Statements as statements;
ghost use Rattle.jh_symbols.specs.scopes.Lookings.{declared_by, scope_by};
ghost use Rattle.jh_type.specs.formula_kinds.Standing.{where_by};
ghost use Rattle.jh_type.specs.method_bodies.Parts as parts;

use crate::formula_kinds::{Spot, state_named, truth_faults};
use crate::method_bodies::assigning::is_void_word;
use crate::method_bodies::declaring::{param_faults, word_fault};
use crate::method_bodies::faulting::broken;
use crate::method_bodies::statements::all_faults;
use indexmap::IndexMap;
use jh_ast::{JType, Method, Spec, Word};
use jh_name::{Kind, NoMemory};
use jh_rules::{Fault, Ty, all_counted, ends_closed, kind_of, lesser};
use jh_symbols::scopes::{Lookups, ScopeTable, type_of};
use std::alloc::Global;

/// A scope without names, in a class.
pub fn outermost(alloc: Global, class: usize, fixed: bool) -> ScopeTable
    ensures { scope_by result ≡ scopes.outermost class fixed }
{
    ScopeTable {
        alloc,
        class,
        fixed,
        locals: IndexMap::new(alloc),
        earlier: IndexMap::new(alloc),
        labels: IndexMap::new(alloc),
        undos: Vec::new(alloc),
    }
}

/// The least fault of a formula that is to be a truth, where there is one.
fn some_truth(
    alloc: Global,
    lookups: &Lookups,
    at: &ScopeTable,
    spot: Spot,
    spec: &Option<Spec>,
) -> Result<Option<Fault>, NoMemory>
    ensures { IfOk result (λ found. found ≡ least (statements.of_some (forms.truth_faults (declared_by lookups.now) (where_by spot (scope_by at.now) [])) (option_map spec_part spec.now))) }
{
    match spec {
        None => Ok(None),
        Some(spec) => truth_faults(alloc, lookups, at, spot, spec),
    }
}

/// A word of `modifies` that names no state.
fn modified_fault(lookups: &Lookups, class: usize, word: &Word) -> Option<Fault>
    ensures { result ≡ least (rules.rule_12 (declared_by lookups.now) class word.now) }
{
    let is_state = state_named(lookups, class, word.text.text()).is_some();
    broken(12, word.place, !is_state)
}

/// The least fault of the words of `modifies`.
fn modified_faults(lookups: &Lookups, class: usize, words: &[Word]) -> Option<Fault>
    ensures { result ≡ least (flat_map (rules.rule_12 (declared_by lookups.now) class) words.now) }
{
    let mut found = None;
    for word in words.iter() {
        found = lesser(found, modified_fault(lookups, class, word));
    }
    found
}

/// The kind of a type that may be unknown.
fn kind_known(ty: Option<Ty>) -> Option<Kind>
    ensures { result ≡ option_map kind_of ty }
{
    match ty {
        None => None,
        Some(ty) => Some(kind_of(ty)),
    }
}

/// What may be said of the result of a method.
fn result_kind(lookups: &Lookups, jtype: &JType) -> Option<Option<Kind>>
    ensures { result ≡ statements.result_kind (declared_by lookups.now) jtype.now }
{
    match jtype {
        JType::Void => None,
        JType::Int => Some(kind_known(type_of(lookups, jtype))),
        JType::Boolean => Some(kind_known(type_of(lookups, jtype))),
        JType::Class(_) => Some(kind_known(type_of(lookups, jtype))),
    }
}

/// Whether a method has more statements than it may.
fn is_long(count: u64) -> bool
    ensures { result ≡ nat_lt 256 count }
{
    count > 256
}

/// A method with more statements than it may have.
fn size_fault(method: &Method) -> Option<Fault>
    ensures { result ≡ least (rules.rule_32 (method_part method.now)) }
{
    broken(
        32,
        method.name.place,
        is_long(all_counted(method.body.items())),
    )
}

/// The end of a body that could be left without a `return`.
fn end_fault(method: &Method) -> Option<Fault>
    ensures { result ≡ least (rules.rule_25 (method_part method.now)) }
{
    let is_open = !is_void_word(&method.result) && !ends_closed(method.body.items());
    broken(25, method.end, is_open)
}

/// The least fault of `requires`, `modifies` and `ensures`.
fn contract_faults(
    alloc: Global,
    lookups: &Lookups,
    class: usize,
    at: &ScopeTable,
    method: &Method,
    found: Option<Fault>,
) -> Result<Option<Fault>, NoMemory>
    ensures { IfOk result (λ made. made ≡ parts.with_contract (declared_by lookups.now) class (scope_by at.now) (method_part method.now) found) }
{
    let spot = Spot {
        old: false,
        result: None,
    };
    let pre = some_truth(alloc, lookups, at, spot, &method.pre)?;
    let modified = modified_faults(lookups, class, method.modifies.items());
    let spot = Spot {
        old: true,
        result: result_kind(lookups, &method.result),
    };
    let post = some_truth(alloc, lookups, at, spot, &method.post)?;
    Ok(lesser(lesser(lesser(found, pre), modified), post))
}

/// The least fault of a method, in the scope of its first parameter.
fn faults_in(
    alloc: Global,
    lookups: &Lookups,
    class: usize,
    at: &mut ScopeTable,
    method: &Method,
) -> Result<Option<Fault>, NoMemory>
    ensures { IfOk result (λ found. found ≡ parts.method_least (declared_by lookups.now) class (scope_by at.old) (method_part method.now)) }
{
    let word = word_fault(lookups, &method.result);
    let params = param_faults(lookups, at, method.params.items())?;
    let head = contract_faults(alloc, lookups, class, at, method, lesser(word, params))?;
    let body = all_faults(alloc, lookups, method, at, method.body.items())?;
    let found = lesser(head, body);
    Ok(lesser(lesser(found, size_fault(method)), end_fault(method)))
}

/// The least fault of a method.
pub fn method_faults(
    alloc: Global,
    lookups: &Lookups,
    class: usize,
    method: &Method,
) -> Result<Option<Fault>, NoMemory>
    ensures { IfOk result (λ found. found ≡ least (statements.method_faults (declared_by lookups.now) class (method_part method.now))) }
{
    let mut at = outermost(alloc, class, method.fixed);
    faults_in(alloc, lookups, class, &mut at, method)
}
