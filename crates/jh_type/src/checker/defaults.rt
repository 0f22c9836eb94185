#![tactic(auto, using(jh_ast::proofs::ExprSteps::expr_steps, jh_ast::proofs::FormSteps::form_steps, crate::proofs::checker::Values::default_steps))]

ghost use Rattle.std.specs.Prelude.{◌≡◌};
ghost use Rattle.jh_ast.specs.Bare.{expr_tree, form_tree, form_trees};
ghost use Rattle.jh_rules.specs.Rules as rules;
ghost use Rattle.jh_type.specs.checker.Defaults as defaults;

use jh_ast::{Expr, ExprBody, SpecBody, SpecTree};
use jh_name::Kind;
use jh_rules::Ty;

/// Whether a number is 0.
fn is_zero(number: &i64) -> bool
    ensures { result ≡ defaults.is_zero number.now }
{
    *number == 0
}

/// Whether there are no formulas.
fn has_none(items: &[SpecTree]) -> bool
    ensures { result ≡ defaults.has_none (form_trees items.now) }
{
    match items {
        [] => true,
        [_, ..] => false,
    }
}

/// Whether an expression is the literal 0.
fn is_zero_expr(expr: &Expr) -> bool
    ensures { result ≡ defaults.is_zero_expr (expr_tree expr.now) }
{
    match &expr.body {
        ExprBody::Number(number) => is_zero(number),
        _ => false,
    }
}

/// Whether an expression is `false`.
fn is_false_expr(expr: &Expr) -> bool
    ensures { result ≡ defaults.is_false_expr (expr_tree expr.now) }
{
    match &expr.body {
        ExprBody::False => true,
        _ => false,
    }
}

/// Whether an expression is `null`.
fn is_null_expr(expr: &Expr) -> bool
    ensures { result ≡ defaults.is_null_expr (expr_tree expr.now) }
{
    match &expr.body {
        ExprBody::Null => true,
        _ => false,
    }
}

/// Whether a formula is `null`.
fn is_null_form(form: &SpecTree) -> bool
    ensures { result ≡ defaults.is_null_form (form_tree form.now) }
{
    match &form.body {
        SpecBody::Null => true,
        _ => false,
    }
}

/// Whether a formula is the literal 0.
fn is_zero_form(form: &SpecTree) -> bool
    ensures { result ≡ defaults.is_zero_form (form_tree form.now) }
{
    match &form.body {
        SpecBody::Number(number) => is_zero(number),
        _ => false,
    }
}

/// Whether a formula is `False`.
fn is_false_form(form: &SpecTree) -> bool
    ensures { result ≡ defaults.is_false_form (form_tree form.now) }
{
    match &form.body {
        SpecBody::False => true,
        _ => false,
    }
}

/// Whether a formula is `{}`.
fn is_empty_form(form: &SpecTree) -> bool
    ensures { result ≡ defaults.is_empty_form (form_tree form.now) }
{
    match &form.body {
        SpecBody::Braces(items) => has_none(items.items()),
        SpecBody::Null => false,
        SpecBody::True => false,
        SpecBody::False => false,
        SpecBody::Univ => false,
        SpecBody::Number(_) => false,
        SpecBody::Name(_) => false,
        SpecBody::Member(_, _) => false,
        SpecBody::Not(_) => false,
        SpecBody::Minus(_) => false,
        SpecBody::Old(_) => false,
        SpecBody::Card(_) => false,
        SpecBody::Binary(_, _, _) => false,
        SpecBody::Dvd(_, _) => false,
        SpecBody::All(_, _) => false,
        SpecBody::Ex(_, _) => false,
        SpecBody::Tree(_) => false,
        SpecBody::Rtrancl(_, _, _, _, _) => false,
        SpecBody::Compr(_, _) => false,
    }
}

/// Whether an expression is the default of a type.
pub fn is_default(ty: Ty, expr: &Expr) -> bool
    ensures { result ≡ rules.is_default ty (expr_tree expr.now) }
{
    match ty {
        Ty::Int => is_zero_expr(expr),
        Ty::Boolean => is_false_expr(expr),
        Ty::Object => is_null_expr(expr),
        Ty::Class(_) => is_null_expr(expr),
        Ty::Void => false,
        Ty::Null => false,
    }
}

/// Whether a formula is the default of a kind.
pub fn is_default_form(kind: Kind, form: &SpecTree) -> bool
    ensures { result ≡ rules.is_default_form kind (form_tree form.now) }
{
    match kind {
        Kind::Obj => is_null_form(form),
        Kind::Int => is_zero_form(form),
        Kind::Bool => is_false_form(form),
        Kind::Set => is_empty_form(form),
    }
}
