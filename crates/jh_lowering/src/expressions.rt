#![tactic(auto, using(jh_ast::proofs::ExprSteps::expr_steps), unfolding(jh_semantics::specs::Lowered::expr_code, jh_semantics::specs::typed_code::Codes::any_code, jh_semantics::specs::typed_code::Codes::object_code, jh_semantics::specs::typed_code::Codes::number_code, jh_semantics::specs::typed_code::Codes::truth_code))]

ghost use Rattle.std.specs.Prelude.{◌≡◌, IfOk, option_map, neg_ℤ};
ghost use Rattle.jh_ast.specs.Bare.{expr_tree};
ghost use Rattle.jh_symbols.specs.scopes.Lookings.{scope_by};
ghost use Rattle.jh_vars.specs.Resolved.{kind_of_local};
ghost use Rattle.jh_semantics.specs.Lowered as lowered;
ghost use Rattle.jh_semantics.specs.typed_code.Codes.{object_code, any_code};
ghost use Rattle.jh_lowering.specs.Lowering.{IsDeclared, boxed_code, source_of};

use crate::context::Context;
use crate::making::{
    BoxedCode, an_object, boxed_object, constant, name_code, null_code, out_of_box, read_code,
    truth_value,
};
use crate::numbers::negative;
use crate::operators::{binary, negation};
use jh_ast::{Expr, ExprBody, Word};
use jh_name::{Kind, NoMemory, Place, name};
use jh_rules::{FieldEntry, LocalEntry, class_of, kind_of};
use jh_semantics::typed_code::{AnyCode, ObjectCode};
use jh_symbols::scopes::{ScopeTable, class_spelled, expr_type};
use std::alloc::Global;

/// The number of a literal that isn't negated.
fn plain_literal(expr: &Expr) -> Option<i64>
    ensures { result ≡ lowered.plain_literal (expr_tree expr.now) }
{
    match &expr.body {
        ExprBody::Number(number) => Some(*number),
        _ => None,
    }
}

/// The number of a literal, negated. The answer is want of memory where that is no i64, which no source can bring about.
fn negated_literal(expr: &Expr) -> Result<Option<i64>, NoMemory>
    ensures { IfOk result (λ number. number ≡ option_map neg_ℤ (lowered.plain_literal (expr_tree expr.now))) }
{
    match plain_literal(expr) {
        None => Ok(None),
        Some(number) => match number.checked_neg() {
            None => Err(NoMemory),
            Some(negated) => Ok(Some(negated)),
        },
    }
}

/// The number of a literal, plain or negated.
fn literal(expr: &Expr) -> Result<Option<i64>, NoMemory>
    ensures { IfOk result (λ number. number ≡ lowered.literal (expr_tree expr.now)) }
{
    match &expr.body {
        ExprBody::Number(number) => Ok(Some(*number)),
        ExprBody::Minus(inner) => negated_literal(inner),
        _ => Ok(None),
    }
}

/// The kind of a parameter or local.
fn kind_of_local(local: LocalEntry) -> Kind
    ensures { result ≡ kind_of_local local }
{
    match local.ty {
        None => Kind::Obj,
        Some(ty) => kind_of(ty),
    }
}

/// The class of what stands before a dot.
pub fn receiver_class(context: &Context, at: &ScopeTable, expr: &Expr) -> Option<usize>
    requires { IsDeclared context.now }
    ensures { result ≡ lowered.receiver_class (source_of context.now) (scope_by at.now) (expr_tree expr.now) }
{
    match expr_type(context.lookups, at, expr).known {
        None => None,
        Some(ty) => class_of(ty),
    }
}

/// A static of a class.
fn static_code(
    alloc: Global,
    context: &Context,
    class: Option<usize>,
    word: &Word,
) -> Result<BoxedCode, NoMemory>
    requires { IsDeclared context.now }
    ensures { IfOk result (λ made. boxed_code made ≡ lowered.static_code (source_of context.now) class word.now) }
{
    match class {
        None => null_code(alloc),
        Some(class) => {
            let own = word.text.text();
            let name = context.member_name(alloc, class, own)?;
            name_code(alloc, context.member_kind(class, own), name)
        }
    }
}

/// A field of a class, read of a receiver.
fn field_code(
    alloc: Global,
    context: &Context,
    class: Option<usize>,
    word: &Word,
    receiver: Box<ObjectCode>,
    place: Place,
) -> Result<BoxedCode, NoMemory>
    requires { IsDeclared context.now }
    ensures { IfOk result (λ made. boxed_code made ≡ lowered.field_code (source_of context.now) class word.now (object_code receiver.value) place) }
{
    match class {
        None => null_code(alloc),
        Some(class) => {
            let own = word.text.text();
            let name = context.member_name(alloc, class, own)?;
            read_code(
                alloc,
                context.member_kind(class, own),
                name,
                receiver,
                place,
            )
        }
    }
}

/// A member of the own class: a static, or a field of `this`.
fn own_code(
    alloc: Global,
    context: &Context,
    at: &ScopeTable,
    word: &Word,
    entry: FieldEntry,
) -> Result<BoxedCode, NoMemory>
    requires { IsDeclared context.now }
    ensures { IfOk result (λ made. boxed_code made ≡ lowered.own_code (source_of context.now) (scope_by at.now) word.now entry) }
{
    if entry.fixed {
        static_code(alloc, context, Some(at.class), word)
    } else {
        let receiver = Box::new(alloc, ObjectCode::This)?;
        field_code(alloc, context, Some(at.class), word, receiver, word.place)
    }
}

/// What a word names: a parameter or local in scope, or else a member of the own class.
fn word_code(
    alloc: Global,
    context: &Context,
    at: &ScopeTable,
    word: &Word,
) -> Result<BoxedCode, NoMemory>
    requires { IsDeclared context.now }
    ensures { IfOk result (λ made. boxed_code made ≡ lowered.word_code (source_of context.now) (scope_by at.now) word.now) }
{
    let text = word.text.text();
    match at.local(text) {
        Some(local) => {
            let name = name(alloc, text, 0)?;
            name_code(alloc, kind_of_local(local), name)
        }
        None => match context.lookups.field_of(at.class, text) {
            None => null_code(alloc),
            Some(entry) => own_code(alloc, context, at, word, entry),
        },
    }
}

/// The code of an expression in a box, each part of the type that is asked of it.
#[cycle(boxed_expr)]
pub fn boxed_expr(
    alloc: Global,
    context: &Context,
    at: &ScopeTable,
    expr: &Expr,
) -> Result<BoxedCode, NoMemory>
    requires { IsDeclared context.now }
    ensures { IfOk result (λ made. boxed_code made ≡ lowered.expr_code (source_of context.now) (expr_tree expr.now) (scope_by at.now)) }
{
    match &expr.body {
        ExprBody::Null => null_code(alloc),
        ExprBody::True => truth_value(alloc, true),
        ExprBody::False => truth_value(alloc, false),
        ExprBody::Number(number) => constant(alloc, *number),
        ExprBody::This => an_object(alloc, ObjectCode::This),
        ExprBody::Name(word) => word_code(alloc, context, at, word),
        ExprBody::Member(inner, word) => match class_spelled(context.lookups, at, inner) {
            Some(class) => static_code(alloc, context, class, word),
            None => {
                let inside = boxed_expr(alloc, context, at, inner)?;
                let receiver = boxed_object(alloc, inside)?;
                let class = receiver_class(context, at, inner);
                field_code(alloc, context, class, word, receiver, inner.place)
            }
        },
        ExprBody::Not(inner) => {
            let inside = boxed_expr(alloc, context, at, inner)?;
            negation(alloc, inside)
        }
        ExprBody::Minus(inner) => {
            let inside = boxed_expr(alloc, context, at, inner)?;
            negative(alloc, expr.place, inside)
        }
        ExprBody::Binary(op, left, right) => {
            let first = literal(left)?;
            let second = literal(right)?;
            let left = boxed_expr(alloc, context, at, left)?;
            let right = boxed_expr(alloc, context, at, right)?;
            binary(alloc, expr.place, *op, (first, second), left, right)
        }
    }
}

/// The code of an expression, each part of the type that is asked of it.
pub fn expr_code(
    alloc: Global,
    context: &Context,
    at: &ScopeTable,
    expr: &Expr,
) -> Result<AnyCode, NoMemory>
    requires { IsDeclared context.now }
    ensures { IfOk result (λ made. any_code made ≡ lowered.expr_code (source_of context.now) (expr_tree expr.now) (scope_by at.now)) }
{
    Ok(out_of_box(boxed_expr(alloc, context, at, expr)?))
}
