#![tactic(auto, using(jh_ast::proofs::ExprSteps::expr_steps, jh_semantics::proofs::typed_code::CodeSteps::code_steps), unfolding(jh_semantics::specs::typed_code::Codes::any_code))]

ghost use Rattle.std.specs.Prelude.{◌≡◌, map, option_map, IfOk, Some};
ghost use Rattle.jh_ast.specs.Bare.{expr_tree, call_tree};
ghost use Rattle.jh_symbols.specs.scopes.Lookings.{scope_by};
ghost use Rattle.jh_vars.specs.Written as w;
ghost use Rattle.jh_semantics.specs.Lowered as exprs;
ghost use Rattle.jh_semantics.specs.LoweredStmts as lowered;
ghost use Rattle.jh_semantics.specs.typed_code.Codes.{object_code, any_code};
ghost use Rattle.jh_lowering.specs.Lowering.{IsDeclared, source_of};
ghost use Rattle.jh_semantics.specs.typed_code.Statements.{code_in, target_in};

use crate::context::Context;
use crate::expressions::{boxed_expr, expr_code, receiver_class};
use crate::making::{as_object, boxed};
use jh_ast::{Call, Expr};
use jh_name::{NoMemory, Place, Row, Text};
use jh_semantics::typed_code::{AnyCode, CallCode, Code, ObjectCode, Target};
use jh_symbols::scopes::{ScopeTable, call_place, class_spelled};
use std::alloc::Global;

/// The class in which the method of a call is looked for.
fn called_class(context: &Context, at: &ScopeTable, call: &Call) -> Option<usize>
    requires { IsDeclared context.now }
    ensures { result ≡ lowered.called_class (source_of context.now) (scope_by at.now) (call_tree call.now) }
{
    match &call.receiver {
        None => Some(at.class),
        Some(expr) => match class_spelled(context.lookups, at, expr) {
            Some(class) => class,
            None => receiver_class(context, at, expr),
        },
    }
}

/// The class of the method of a call: the own one, where there is no other.
fn class_called(context: &Context, at: &ScopeTable, call: &Call) -> usize
    requires { IsDeclared context.now }
    ensures { result ≡ (lowered.callee_of (source_of context.now) (scope_by at.now) (call_tree call.now)).class }
{
    match called_class(context, at, call) {
        None => at.class,
        Some(class) => class,
    }
}

/// Whether a method is static.
fn calls_static(context: &Context, class: usize, name: &str) -> bool
    requires { IsDeclared context.now }
    ensures { result ≡ lowered.calls_static (source_of context.now) (record { class = class; name = name.now }) }
{
    match context.lookups.method_of(class, name) {
        None => true,
        Some(method) => method.fixed,
    }
}

/// The receiver of a call of a method of a class, where one is written.
fn written_receiver(
    alloc: Global,
    context: &Context,
    at: &ScopeTable,
    expr: &Expr,
) -> Result<Option<ObjectCode>, NoMemory>
    requires { IsDeclared context.now }
    ensures { (m : w.Callee) → IfOk result (λ made. option_map object_code made ≡ lowered.receiver_code (source_of context.now) (scope_by at.now) m (Some (expr_tree expr.now))) }
{
    if class_spelled(context.lookups, at, expr).is_some() {
        return Ok(None);
    }
    let code = boxed_expr(alloc, context, at, expr)?;
    Ok(Some(as_object(code)))
}

/// The receiver of a call: `this` where none is written and the method is of an object; none of a static method.
fn receiver_code(
    alloc: Global,
    context: &Context,
    at: &ScopeTable,
    class: usize,
    call: &Call,
) -> Result<Option<ObjectCode>, NoMemory>
    requires { IsDeclared context.now }
    ensures { IfOk result (λ made. option_map object_code made ≡ lowered.receiver_code (source_of context.now) (scope_by at.now) (record { class = class; name = call.now.method.text.text }) (option_map expr_tree call.now.receiver)) }
{
    match &call.receiver {
        Some(expr) => written_receiver(alloc, context, at, expr),
        None => {
            if calls_static(context, class, call.method.text.text()) {
                Ok(None)
            } else {
                Ok(Some(ObjectCode::This))
            }
        }
    }
}

/// The code of some arguments.
fn arguments(
    alloc: Global,
    context: &Context,
    at: &ScopeTable,
    args: &[Expr],
) -> Result<Row<AnyCode>, NoMemory>
    requires { IsDeclared context.now }
    ensures { IfOk result (λ made. map any_code made ≡ map (λ a. exprs.expr_code (source_of context.now) a (scope_by at.now)) (map expr_tree args.now)) }
{
    let mut codes = Vec::new(alloc);
    for arg in args.iter() {
        codes.push(expr_code(alloc, context, at, arg)?)?;
    }
    Ok(Row::of(codes))
}

/// The receiver of a call, the name of its method and its arguments.
#[derive(Drop)]
struct Parts {
    receiver: Option<ObjectCode>,
    method: Text,
    args: Row<AnyCode>,
}

/// The parts of a call of a method of a class.
fn parts_of(
    alloc: Global,
    context: &Context,
    at: &ScopeTable,
    class: usize,
    call: &Call,
) -> Result<Parts, NoMemory>
    requires { IsDeclared context.now }
    ensures receiver { IfOk result (λ made. option_map object_code made.receiver ≡ lowered.receiver_code (source_of context.now) (scope_by at.now) (record { class = class; name = call.now.method.text.text }) (option_map expr_tree call.now.receiver)) }
    ensures method { IfOk result (λ made. made.method ≡ call.now.method.text.text) }
    ensures args { IfOk result (λ made. map any_code made.args ≡ map (λ a. exprs.expr_code (source_of context.now) a (scope_by at.now)) (map expr_tree call.now.args)) }
{
    let method = Text::of(String::from_str(alloc, call.method.text.text())?);
    let args = arguments(alloc, context, at, call.args.items())?;
    let receiver = receiver_code(alloc, context, at, class, call)?;
    Ok(Parts {
        receiver,
        method,
        args,
    })
}

/// A call whose result goes to a target.
pub fn call_code(
    alloc: Global,
    context: &Context,
    at: &ScopeTable,
    place: Place,
    target: Box<Target>,
    call: &Call,
) -> Result<Box<Code>, NoMemory>
    requires { IsDeclared context.now }
    ensures { IfOk result (λ made. code_in (source_of context.now) made.value ≡ lowered.call_code (source_of context.now) place (scope_by at.now) (target_in target.value) (call_tree call.now)) }
{
    let class = class_called(context, at, call);
    let parts = parts_of(alloc, context, at, class, call)?;
    let code = Code::Call(CallCode {
        place,
        target: Box::into_inner(target),
        receiver: parts.receiver,
        receiver_place: call_place(call),
        class,
        method: parts.method,
        args: parts.args,
    });
    boxed(alloc, code)
}
