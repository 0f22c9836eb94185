#![tactic(auto, using(jh_rules::proofs::Judgements::find_steps, crate::proofs::method_bodies::Leasts::least_steps, jh_ast::proofs::StmtSteps::stmt_steps, jh_ast::proofs::ExprSteps::expr_steps), unfolding(jh_ast::specs::Bare::rhs_tree, jh_rules::specs::Found::least))]

ghost use Rattle.std.specs.Prelude.{◌≡◌, Option, option_map};
ghost use Rattle.jh_name.specs.declared.place.Place.{Place};
ghost use Rattle.jh_ast.specs.Bare.{expr_tree, rhs_tree};
ghost use Rattle.jh_rules.specs.Faults.{Judged};
ghost use Rattle.jh_rules.specs.Found.{Finds, asked_of, least};
ghost use Rattle.jh_rules.specs.Rules as rules;
ghost use Rattle.jh_rules.specs.Statements as statements;
ghost use Rattle.jh_symbols.specs.scopes.Lookings.{declared_by, scope_by};
ghost use Rattle.jh_type.specs.method_bodies.Parts as parts;

use crate::method_bodies::faulting::broken;
use jh_ast::{Expr, ExprBody, JType, Rhs, Word};
use jh_name::Place;
use jh_rules::{
    Fault, Found, LocalEntry, Ty, after, fits, is_void, lesser, needs, right, stop, wrong,
};
use jh_symbols::scopes::{
    Lookups, ScopeTable, call_place, call_type, class_type, expr_type, type_of,
};

/// That a call gives a value.
fn needs_value(place: Place, ty: Ty) -> Found<Ty>
    ensures { Finds result (rules.rule_24_value place ty) }
{
    needs(!is_void(ty), 24, place, ty)
}

/// A call as a value.
fn call_value(place: Place, found: Found<Ty>) -> Found<Ty>
    ensures { (j : Judged Ty) → Finds found j → Finds result (asked_of j (rules.rule_24_value place)) }
{
    match found.known {
        None => stop(found),
        Some(ty) => after(found, needs_value(place, ty)),
    }
}

/// The type of a new object.
fn new_type(lookups: &Lookups, word: &Word) -> Found<Ty>
    ensures { Finds result (rules.rule_26 (declared_by lookups.now) word.now) }
{
    match class_type(lookups, word.text.text()) {
        None => wrong(26, word.place),
        Some(ty) => right(ty),
    }
}

/// The type of what is assigned.
fn rhs_type(lookups: &Lookups, at: &ScopeTable, rhs: &Rhs) -> Found<Ty>
    ensures { Finds result (statements.rhs_type (declared_by lookups.now) (scope_by at.now) (rhs_tree rhs.now)) }
{
    match rhs {
        Rhs::Value(expr) => expr_type(lookups, at, expr),
        Rhs::Call(call) => call_value(call_place(call), call_type(lookups, at, call)),
        Rhs::New(word) => new_type(lookups, word),
    }
}

/// The place of what is assigned.
fn rhs_place(lookups: &Lookups, at: &ScopeTable, rhs: &Rhs) -> Place
    ensures { result ≡ statements.rhs_place (declared_by lookups.now) (scope_by at.now) (rhs_tree rhs.now) }
{
    match rhs {
        Rhs::Value(expr) => expr.place,
        Rhs::Call(call) => call_place(call),
        Rhs::New(word) => word.place,
    }
}

/// A value that doesn't fit its target, where that has a type.
fn fit_target(place: Place, ty: Ty, target: Option<Ty>) -> Option<Fault>
    ensures { result ≡ least (statements.of_some (rules.rule_16 place ty) target) }
{
    match target {
        None => None,
        Some(other) => broken(16, place, !fits(ty, other)),
    }
}

/// A value that doesn't fit its target, where both have a type.
fn fit_known(place: Place, known: Option<Ty>, target: Option<Ty>) -> Option<Fault>
    ensures { result ≡ least (parts.fit place known target) }
{
    match known {
        None => None,
        Some(ty) => fit_target(place, ty, target),
    }
}

/// The least fault of what is assigned.
pub fn rhs_faults(
    lookups: &Lookups,
    at: &ScopeTable,
    target: Option<Ty>,
    rhs: &Rhs,
) -> Option<Fault>
    ensures { result ≡ least (statements.rhs_faults (declared_by lookups.now) (scope_by at.now) target (rhs_tree rhs.now)) }
{
    let found = rhs_type(lookups, at, rhs);
    let misfit = fit_known(rhs_place(lookups, at, rhs), found.known, target);
    lesser(found.least, misfit)
}

/// The least fault of what may be assigned.
pub fn some_rhs_faults(
    lookups: &Lookups,
    at: &ScopeTable,
    target: Option<Ty>,
    rhs: &Option<Rhs>,
) -> Option<Fault>
    ensures { result ≡ least (statements.of_some (statements.rhs_faults (declared_by lookups.now) (scope_by at.now) target) (option_map rhs_tree rhs.now)) }
{
    match rhs {
        None => None,
        Some(rhs) => rhs_faults(lookups, at, target, rhs),
    }
}

/// Whether a name in scope is a parameter.
fn is_param(local: Option<LocalEntry>) -> bool
    ensures { result ≡ parts.is_param local }
{
    match local {
        None => false,
        Some(entry) => entry.is_param,
    }
}

/// An assignment to a parameter.
fn param_fault(at: &ScopeTable, place: Place, target: &Expr) -> Option<Fault>
    ensures { result ≡ least (rules.rule_17 (scope_by at.now) place (expr_tree target.now)) }
{
    match &target.body {
        ExprBody::Name(word) => broken(17, place, is_param(at.local(word.text.text()))),
        ExprBody::Null => None,
        ExprBody::True => None,
        ExprBody::False => None,
        ExprBody::Number(_) => None,
        ExprBody::This => None,
        ExprBody::Member(_, _) => None,
        ExprBody::Not(_) => None,
        ExprBody::Minus(_) => None,
        ExprBody::Binary(_, _, _) => None,
    }
}

/// The least fault of an assignment.
pub fn assign_faults(
    lookups: &Lookups,
    at: &ScopeTable,
    place: Place,
    target: &Expr,
    rhs: &Rhs,
) -> Option<Fault>
    ensures { result ≡ least (parts.assigned (declared_by lookups.now) (scope_by at.now) place (expr_tree target.now) (rhs_tree rhs.now)) }
{
    let found = expr_type(lookups, at, target);
    let param = param_fault(at, place, target);
    let value = rhs_faults(lookups, at, found.known, rhs);
    lesser(lesser(found.least, param), value)
}

/// Whether a type word is that of a call without a value.
pub fn is_void_word(jtype: &JType) -> bool
    ensures { result ≡ rules.is_void_word jtype.now }
{
    match jtype {
        JType::Void => true,
        JType::Int => false,
        JType::Boolean => false,
        JType::Class(_) => false,
    }
}

/// Whether a value doesn't fit a result, where both have a type.
fn misfits(value: Option<Ty>, wanted: Option<Ty>) -> bool
    ensures { result ≡ parts.misfits value wanted }
{
    match value {
        None => false,
        Some(ty) => match wanted {
            None => false,
            Some(other) => !fits(ty, other),
        },
    }
}

/// A value that a method returns and that doesn't fit, or that there may not be.
fn value_fault(lookups: &Lookups, place: Place, jtype: &JType, value: Option<Ty>) -> Option<Fault>
    ensures { result ≡ least (rules.rule_24_some (declared_by lookups.now) place jtype.now value) }
{
    match jtype {
        JType::Void => broken(24, place, true),
        JType::Int => broken(24, place, misfits(value, type_of(lookups, jtype))),
        JType::Boolean => broken(24, place, misfits(value, type_of(lookups, jtype))),
        JType::Class(_) => broken(24, place, misfits(value, type_of(lookups, jtype))),
    }
}

/// The least fault of a `return`.
pub fn return_faults(
    lookups: &Lookups,
    at: &ScopeTable,
    place: Place,
    jtype: &JType,
    value: &Option<Expr>,
) -> Option<Fault>
    ensures { result ≡ least (parts.returned (declared_by lookups.now) (scope_by at.now) place jtype.now (option_map expr_tree value.now)) }
{
    match value {
        None => broken(24, place, !is_void_word(jtype)),
        Some(expr) => {
            let found = expr_type(lookups, at, expr);
            lesser(found.least, value_fault(lookups, place, jtype, found.known))
        }
    }
}
