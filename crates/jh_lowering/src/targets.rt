#![tactic(auto, using(jh_ast::proofs::ExprSteps::expr_steps), unfolding(jh_semantics::specs::typed_code::Statements::target_in, jh_semantics::specs::typed_code::Codes::object_code))]

ghost use Rattle.std.specs.Prelude.{◌≡◌, IfOk};
ghost use Rattle.jh_ast.specs.Bare.{expr_tree};
ghost use Rattle.jh_ast.specs.Exprs as e;
ghost use Rattle.jh_symbols.specs.scopes.Lookings.{scope_by};
ghost use Rattle.jh_semantics.specs.Lowered as exprs;
ghost use Rattle.jh_semantics.specs.LoweredStmts as lowered;
ghost use Rattle.jh_semantics.specs.typed_code.Codes.{object_code, any_code};
ghost use Rattle.jh_lowering.specs.Lowering.{IsDeclared, source_of};
ghost use Rattle.jh_semantics.specs.typed_code.Statements.{target_in};

use crate::context::Context;
use crate::expressions::{boxed_expr, receiver_class};
use crate::making::boxed_object;
use jh_ast::{Expr, ExprBody, Word};
use jh_name::{NoMemory, Place};
use jh_rules::FieldEntry;
use jh_semantics::typed_code::{ObjectCode, Target};
use jh_symbols::scopes::{ScopeTable, class_spelled};
use std::alloc::Global;

/// A static of a class.
fn static_target(
    alloc: Global,
    context: &Context,
    class: Option<usize>,
    word: &Word,
) -> Result<Target, NoMemory>
    ensures { IfOk result (λ made. target_in made ≡ lowered.static_target (source_of context.now) class word.now) }
{
    match class {
        None => Ok(Target::Nowhere),
        Some(class) => Ok(Target::Name(context.member_name(alloc, class, word.text.text())?)),
    }
}

/// A field of a receiver.
fn field_target(
    alloc: Global,
    context: &Context,
    class: Option<usize>,
    word: &Word,
    receiver: Box<ObjectCode>,
    place: Place,
) -> Result<Target, NoMemory>
    ensures { IfOk result (λ made. target_in made ≡ lowered.field_target (source_of context.now) class word.now (object_code receiver.value) place) }
{
    match class {
        None => Ok(Target::Nowhere),
        Some(class) => {
            let name = context.member_name(alloc, class, word.text.text())?;
            Ok(Target::Field(name, Box::into_inner(receiver), place))
        }
    }
}

/// A member of the own class: a static, or a field of `this`.
fn own_target(
    alloc: Global,
    context: &Context,
    at: &ScopeTable,
    word: &Word,
    entry: FieldEntry,
) -> Result<Target, NoMemory>
    ensures { IfOk result (λ made. target_in made ≡ lowered.own_target (source_of context.now) (scope_by at.now) word.now entry) }
{
    if entry.fixed {
        static_target(alloc, context, Some(at.class), word)
    } else {
        let receiver = Box::new(alloc, ObjectCode::This)?;
        field_target(alloc, context, Some(at.class), word, receiver, word.place)
    }
}

/// What a word names.
fn word_target(
    alloc: Global,
    context: &Context,
    at: &ScopeTable,
    word: &Word,
) -> Result<Target, NoMemory>
    requires { IsDeclared context.now }
    ensures { IfOk result (λ made. target_in made ≡ lowered.word_target (source_of context.now) (scope_by at.now) word.now) }
{
    let text = word.text.text();
    match at.local(text) {
        Some(_) => Ok(Target::Name(word.text.copy(alloc)?)),
        None => match context.lookups.field_of(at.class, text) {
            None => Ok(Target::Nowhere),
            Some(entry) => own_target(alloc, context, at, word, entry),
        },
    }
}

/// What stands behind a dot.
fn dotted_target(
    alloc: Global,
    context: &Context,
    at: &ScopeTable,
    inner: &Expr,
    word: &Word,
) -> Result<Target, NoMemory>
    requires { IsDeclared context.now }
    ensures { IfOk result (λ made. target_in made ≡ lowered.target_code (source_of context.now) (scope_by at.now) (e.member word.now.place (expr_tree inner.now) word.now)) }
{
    match class_spelled(context.lookups, at, inner) {
        Some(class) => static_target(alloc, context, class, word),
        None => {
            let inside = boxed_expr(alloc, context, at, inner)?;
            let receiver = boxed_object(alloc, inside)?;
            let class = receiver_class(context, at, inner);
            field_target(alloc, context, class, word, receiver, inner.place)
        }
    }
}

/// Where what is assigned to an expression goes.
pub fn target_code(
    alloc: Global,
    context: &Context,
    at: &ScopeTable,
    target: &Expr,
) -> Result<Target, NoMemory>
    requires { IsDeclared context.now }
    ensures { IfOk result (λ made. target_in made ≡ lowered.target_code (source_of context.now) (scope_by at.now) (expr_tree target.now)) }
{
    match &target.body {
        ExprBody::Name(word) => word_target(alloc, context, at, word),
        ExprBody::Member(inner, word) => dotted_target(alloc, context, at, inner, word),
        _ => Ok(Target::Nowhere),
    }
}
