#![tactic(auto, using(jh_rules::proofs::Judgements::find_steps, jh_ast::proofs::ExprSteps::expr_steps), unfolding(jh_rules::specs::Exprs::arguments))]

ghost use Rattle.std.specs.Prelude.{◌≡◌, ℕ, Bool, Option, Some, None, length, option_map};
ghost use Rattle.std.specs.List.{flat_map};
ghost use Rattle.jh_ast.specs.Bare.{expr_tree, expr_body_tree, call_tree};
ghost use Rattle.jh_rules.specs.Faults.{Judged};
ghost use Rattle.jh_rules.specs.Found.{Finds, asked_of, least};
ghost use Rattle.jh_rules.specs.Rules as rules;
ghost use Rattle.jh_rules.specs.Exprs as exprs;
ghost use Rattle.jh_symbols.specs.scopes.Lookings.{declared_by, scope_by};
ghost use Rattle.jh_symbols.specs.scopes.Asking as asking;

use crate::scopes::expressions::{class_spelled, expr_type, value_class};
use crate::scopes::{Lookups, ScopeTable};
use jh_ast::{Call, Expr};
use jh_name::Place;
use jh_rules::{
    Fault, Found, MethodEntry, Ty, after, both, fits, given, lesser, needs, right, stop, wrong,
};

/// The least fault in a list of expressions.
fn least_in(lookups: &Lookups, at: &ScopeTable, exprs: &[Expr]) -> Option<Fault>
    ensures { result ≡ least (asking.all_faults (declared_by lookups.now) (scope_by at.now) exprs.now) }
{
    let mut found = None;
    for expr in exprs.iter() {
        found = lesser(found, expr_type(lookups, at, expr).least);
    }
    found
}

/// That an argument fits its parameter.
fn needs_fit(expr: &Expr, value: Ty, param: Ty) -> Found<Ty>
    ensures { Finds result (rules.rule_23 (expr_tree expr.now) value param) }
{
    needs(fits(value, param), 23, expr.place, value)
}

/// An argument against its parameter, where both have a type.
fn argument(lookups: &Lookups, at: &ScopeTable, expr: &Expr, param: Option<Ty>) -> Found<Ty>
    ensures { Finds result (asking.argument (declared_by lookups.now) (scope_by at.now) (expr_tree expr.now) param) }
{
    let value = given(expr_type(lookups, at, expr).known);
    let found = both(value, given(param));
    match found.known {
        None => stop(found),
        Some((first, second)) => after(found, needs_fit(expr, first, second)),
    }
}

/// What is found of two parts, of which nothing is asked but that they are known.
fn join<T: Copy>(found: Found<()>, next: Found<T>) -> Found<()>
    ensures { result ≡ asking.joined found next }
{
    let known = match found.known {
        None => None,
        Some(()) => match next.known {
            None => None,
            Some(_) => Some(()),
        },
    };
    Found {
        least: lesser(found.least, next.least),
        known,
    }
}

/// Each argument against its parameter, where both have a type.
fn arguments(lookups: &Lookups, at: &ScopeTable, exprs: &[Expr], params: &[Option<Ty>]) -> Found<()>
    ensures { Finds result (asking.arguments_of (declared_by lookups.now) (scope_by at.now) exprs.now params.now) }
{
    let mut found = right(());
    for index in 0..exprs.len() {
        match params.get(index) {
            None => return found,
            Some(param) => {
                found = join(found, argument(lookups, at, &exprs[index], *param));
            }
        }
    }
    found
}

/// The place of a call.
pub fn call_place(call: &Call) -> Place
    ensures { result ≡ asking.call_place (call_tree call.now) }
{
    match &call.receiver {
        None => call.method.place,
        Some(receiver) => receiver.place,
    }
}

/// What a method gives where its arguments are in order.
fn finish(found: Found<()>, ty: Option<Ty>) -> Found<Ty>
    ensures { (j : Judged (Unit {0})) → Finds found j → Finds result (asked_of j (λ u. Rattle.jh_rules.specs.Faults.given ty)) }
{
    match found.known {
        None => stop(found),
        Some(()) => after(found, given(ty)),
    }
}

/// What a call of a method gives, its arguments looked at.
fn method_result(
    lookups: &Lookups,
    at: &ScopeTable,
    place: Place,
    method: &MethodEntry,
    args: &[Expr],
) -> Found<Ty>
    ensures { Finds result (asking.method_result (declared_by lookups.now) (scope_by at.now) place args.now method.now) }
{
    if args.len() != method.params.items().len() {
        return wrong(23, place);
    }
    finish(
        arguments(lookups, at, args, method.params.items()),
        method.result,
    )
}

/// Whether a method is of the kind that is wanted: static, of an object, or any.
fn is_wanted(wanted: Option<bool>, fixed: bool) -> bool
    ensures { result ≡ asking.is_wanted wanted fixed }
{
    match wanted {
        None => true,
        Some(true) => fixed,
        Some(false) => !fixed,
    }
}

/// A call of a method that is looked for in a class.
fn called(
    lookups: &Lookups,
    at: &ScopeTable,
    call: &Call,
    class: Option<usize>,
    wanted: Option<bool>,
) -> Found<Ty>
    ensures { Finds result (asking.called (declared_by lookups.now) (scope_by at.now) (call_tree call.now) call.now.args (class, wanted)) }
{
    let Some(class) = class else {
        return wrong(22, call_place(call));
    };
    match lookups.method_of(class, call.method.text.text()) {
        None => wrong(22, call_place(call)),
        Some(method) => {
            if is_wanted(wanted, method.fixed) {
                method_result(lookups, at, call_place(call), method, call.args.items())
            } else {
                wrong(22, call_place(call))
            }
        }
    }
}

/// The class that is looked in for a method, and which methods are wanted there.
fn callee_class(
    lookups: &Lookups,
    at: &ScopeTable,
    receiver: &Option<Expr>,
) -> Found<(Option<usize>, Option<bool>)>
    ensures { Finds result (exprs.callee_class (declared_by lookups.now) (scope_by at.now) (option_map expr_tree receiver.now)) }
{
    match receiver {
        None => {
            let wanted = if at.fixed { Some(true) } else { None };
            right((Some(at.class), wanted))
        }
        Some(expr) => match class_spelled(lookups, at, expr) {
            Some(class) => right((class, Some(true))),
            None => value_callee(value_class(lookups, at, expr_type(lookups, at, expr))),
        },
    }
}

/// The class of a value in which a method is looked for.
fn value_callee(found: Found<(Option<usize>, bool)>) -> Found<(Option<usize>, Option<bool>)>
    ensures { (j : Judged (Option ℕ × Bool)) → Finds found j → Finds result (asking.wanted_of j) }
{
    match found.known {
        None => stop(found),
        Some((class, fixed)) => after(found, right((class, Some(fixed)))),
    }
}

/// What is found of a call, without the faults in its arguments.
fn callee_type(lookups: &Lookups, at: &ScopeTable, call: &Call) -> Found<Ty>
    ensures { Finds result (asking.callee_type (declared_by lookups.now) (scope_by at.now) (call_tree call.now) call.now.args) }
{
    let found = callee_class(lookups, at, &call.receiver);
    match found.known {
        None => stop(found),
        Some((class, wanted)) => after(found, called(lookups, at, call, class, wanted)),
    }
}

/// What is found of a call: the type of its result, and the faults in it.
pub fn call_type(lookups: &Lookups, at: &ScopeTable, call: &Call) -> Found<Ty>
    ensures { Finds result (exprs.call_type (declared_by lookups.now) (scope_by at.now) (call_tree call.now)) }
{
    let found = callee_type(lookups, at, call);
    Found {
        least: lesser(least_in(lookups, at, call.args.items()), found.least),
        known: found.known,
    }
}
