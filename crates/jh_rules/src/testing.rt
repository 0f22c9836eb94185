#![tactic(auto, using(jh_ast::proofs::ExprSteps::expr_steps))]

ghost use Rattle.std.specs.Prelude.{◌≡◌};
ghost use Rattle.jh_rules.specs.Kinds as kinds;
ghost use Rattle.jh_rules.specs.Rules as rules;
ghost use Rattle.jh_rules.specs.Words.{is_before};
ghost use Rattle.jh_ast.specs.Bare.{expr_tree, expr_body_tree};

use crate::Ty;
use jh_ast::jh_name::{Kind, Place};
use jh_ast::{Expr, ExprBody};

/// Whether a type is int.
pub fn is_int(ty: Ty) -> bool
    ensures { result ≡ kinds.is_int ty }
{
    matches!(ty, Ty::Int)
}

/// Whether a type is boolean.
pub fn is_boolean(ty: Ty) -> bool
    ensures { result ≡ kinds.is_boolean ty }
{
    matches!(ty, Ty::Boolean)
}

/// Whether a type is that of a call without a value.
pub fn is_void(ty: Ty) -> bool
    ensures { result ≡ kinds.is_void ty }
{
    matches!(ty, Ty::Void)
}

/// Whether a value of a type fits a target of a type.
pub fn fits(value: Ty, target: Ty) -> bool
    ensures { result ≡ kinds.fits value target }
{
    match value {
        Ty::Int => matches!(target, Ty::Int),
        Ty::Boolean => matches!(target, Ty::Boolean),
        Ty::Void => matches!(target, Ty::Void),
        Ty::Null => matches!(target, Ty::Null | Ty::Object | Ty::Class(_)),
        Ty::Object => matches!(target, Ty::Object),
        Ty::Class(class) => match target {
            Ty::Object => true,
            Ty::Class(other) => class == other,
            _ => false,
        },
    }
}

/// The class of an object type.
pub fn class_of(ty: Ty) -> Option<usize>
    ensures { result ≡ kinds.class_of ty }
{
    match ty {
        Ty::Class(class) => Some(class),
        _ => None,
    }
}

/// The kind of the values of a type.
pub fn kind_of(ty: Ty) -> Kind
    ensures { result ≡ kinds.kind_of ty }
{
    match ty {
        Ty::Int => Kind::Int,
        Ty::Boolean => Kind::Bool,
        _ => Kind::Obj,
    }
}

/// Whether a kind is that of objects.
pub fn is_obj(kind: Kind) -> bool
    ensures { result ≡ kinds.is_obj kind }
{
    matches!(kind, Kind::Obj)
}

/// Whether a kind is that of numbers.
pub fn is_number(kind: Kind) -> bool
    ensures { result ≡ kinds.is_number kind }
{
    matches!(kind, Kind::Int)
}

/// Whether a kind is that of truths.
pub fn is_truth(kind: Kind) -> bool
    ensures { result ≡ kinds.is_truth kind }
{
    matches!(kind, Kind::Bool)
}

/// Whether a kind is that of sets.
pub fn is_set(kind: Kind) -> bool
    ensures { result ≡ kinds.is_set kind }
{
    matches!(kind, Kind::Set)
}

/// Whether a kind is that of numbers or sets.
pub fn is_number_or_set(kind: Kind) -> bool
    ensures { result ≡ kinds.is_number_or_set kind }
{
    is_number(kind) || is_set(kind)
}

/// Whether two kinds are one.
pub fn same_kind(left: Kind, right: Kind) -> bool
    ensures { result ≡ kinds.same_kind left right }
{
    match left {
        Kind::Obj => is_obj(right),
        Kind::Int => is_number(right),
        Kind::Bool => is_truth(right),
        Kind::Set => is_set(right),
    }
}

/// Whether a place is earlier than another.
pub fn is_before(left: Place, right: Place) -> bool
    ensures { result ≡ is_before left right }
{
    left.line < right.line || (left.line == right.line && left.column < right.column)
}

/// Whether an expression is a literal.
fn is_plain_literal(expr: &Expr) -> bool
    ensures { result ≡ rules.is_plain_literal (expr_tree expr.now) }
{
    match &expr.body {
        ExprBody::Null => true,
        ExprBody::True => true,
        ExprBody::False => true,
        ExprBody::Number(_) => true,
        _ => false,
    }
}

/// Whether an expression is a literal, plain or negated.
pub fn is_literal(expr: &Expr) -> bool
    ensures { result ≡ rules.is_literal (expr_tree expr.now) }
{
    match &expr.body {
        ExprBody::Minus(inner) => is_plain_literal(inner),
        _ => is_plain_literal(expr),
    }
}
