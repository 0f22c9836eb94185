#![tactic(auto, using(jh_rules::proofs::Judgements::find_steps, jh_ast::proofs::ExprSteps::expr_steps), unfolding(jh_rules::specs::Exprs::expr_type))]

ghost use Rattle.std.specs.Prelude.{◌≡◌, Option, Some, None};
ghost use Rattle.jh_ast.specs.Bare.{expr_tree, expr_body_tree};
ghost use Rattle.jh_rules.specs.Faults.{Judged};
ghost use Rattle.jh_rules.specs.Found.{Finds, asked_of};
ghost use Rattle.jh_rules.specs.Rules as rules;
ghost use Rattle.jh_rules.specs.Exprs as exprs;
ghost use Rattle.jh_symbols.specs.scopes.Lookings.{declared_by, scope_by};
ghost use Rattle.jh_symbols.specs.scopes.Asking as asking;

use crate::scopes::{Lookups, ScopeTable};
use jh_ast::{Expr, ExprBody, Op, Word};
use jh_name::Place;
use jh_rules::{
    FieldEntry, Found, Ty, after, both, class_of, fits, given, is_boolean, is_int, is_literal,
    needs, right, stop, wrong,
};

/// That a type is int.
fn needs_int(expr: &Expr, ty: Ty) -> Found<Ty>
    ensures { Finds result (rules.rule_18 (expr_tree expr.now) ty) }
{
    needs(is_int(ty), 18, expr.place, ty)
}

/// That a type is boolean.
fn needs_boolean(expr: &Expr, ty: Ty) -> Found<Ty>
    ensures { Finds result (rules.rule_20 (expr_tree expr.now) ty) }
{
    needs(is_boolean(ty), 20, expr.place, ty)
}

/// An operand that is to be int.
fn as_int(expr: &Expr, found: Found<Ty>) -> Found<Ty>
    ensures { (j : Judged Ty) → Finds found j → Finds result (asked_of j (rules.rule_18 (expr_tree expr.now))) }
{
    match found.known {
        None => stop(found),
        Some(ty) => after(found, needs_int(expr, ty)),
    }
}

/// An operand or condition that is to be boolean.
pub fn as_boolean(expr: &Expr, found: Found<Ty>) -> Found<Ty>
    ensures { (j : Judged Ty) → Finds found j → Finds result (asked_of j (rules.rule_20 (expr_tree expr.now))) }
{
    match found.known {
        None => stop(found),
        Some(ty) => after(found, needs_boolean(expr, ty)),
    }
}

/// A type in place of two that are known.
fn instead(found: Found<(Ty, Ty)>, ty: Ty) -> Found<Ty>
    ensures { (j : Judged (Ty × Ty)) → Finds found j → Finds result (asked_of j (λ u. Rattle.jh_rules.specs.Faults.right ty)) }
{
    match found.known {
        None => stop(found),
        Some(_) => after(found, right(ty)),
    }
}

/// What a field, static or specification variable of a class is, where one is there and wanted.
fn entry_type(entry: Option<FieldEntry>, fixed: bool, place: Place) -> Found<Ty>
    ensures { Finds result (asking.entry_type entry fixed place) }
{
    match entry {
        None => wrong(15, place),
        Some(entry) => {
            let is_wanted = if fixed { entry.fixed } else { !entry.fixed };
            if is_wanted {
                given(entry.ty)
            } else {
                wrong(15, place)
            }
        }
    }
}

/// A member of what stands before a dot.
fn member_of(
    lookups: &Lookups,
    class: Option<usize>,
    fixed: bool,
    place: Place,
    text: &str,
) -> Found<Ty>
    ensures { Finds result (rules.rule_15 (declared_by lookups.now) class fixed place text.now) }
{
    match class {
        None => wrong(15, place),
        Some(class) => entry_type(lookups.field_of(class, text), fixed, place),
    }
}

/// A field or static of the own class.
fn own_field(lookups: &Lookups, at: &ScopeTable, word: &Word, entry: FieldEntry) -> Found<Ty>
    ensures { Finds result (exprs.field_type (declared_by lookups.now) (scope_by at.now) word.now entry) }
{
    if entry.fixed || !at.fixed {
        given(entry.ty)
    } else {
        wrong(14, word.place)
    }
}

/// What a name of code is.
fn name_type(lookups: &Lookups, at: &ScopeTable, word: &Word) -> Found<Ty>
    ensures { Finds result (exprs.name_type (declared_by lookups.now) (scope_by at.now) word.now) }
{
    match at.local(word.text.text()) {
        Some(local) => given(local.ty),
        None => match lookups.field_of(at.class, word.text.text()) {
            None => wrong(13, word.place),
            Some(entry) => own_field(lookups, at, word, entry),
        },
    }
}

/// The class that a word names as a receiver.
fn class_word(lookups: &Lookups, at: &ScopeTable, word: &Word) -> Option<Option<usize>>
    ensures { result ≡ exprs.class_word (declared_by lookups.now) (scope_by at.now) word.now }
{
    let text = word.text.text();
    if at.local(text).is_some() || lookups.field_of(at.class, text).is_some() {
        return None;
    }
    match lookups.class_named(text) {
        Some(class) => Some(Some(class)),
        None => { if text == "Object" { Some(None) } else { None } }
    }
}

/// The class that an expression names as a receiver.
pub fn class_spelled(lookups: &Lookups, at: &ScopeTable, expr: &Expr) -> Option<Option<usize>>
    ensures { result ≡ exprs.class_spelled (declared_by lookups.now) (scope_by at.now) (expr_tree expr.now) }
{
    match &expr.body {
        ExprBody::Name(word) => class_word(lookups, at, word),
        _ => None,
    }
}

/// The class of a value before a dot, where no static is wanted.
pub(crate) fn value_class(
    lookups: &Lookups,
    at: &ScopeTable,
    found: Found<Ty>,
) -> Found<(Option<usize>, bool)>
    ensures { (j : Judged Ty) → Finds found j → Finds result (exprs.receiver (declared_by lookups.now) (scope_by at.now) None j) }
{
    match found.known {
        None => stop(found),
        Some(ty) => after(found, right((class_of(ty), false))),
    }
}

/// A member of a value.
fn value_member(
    lookups: &Lookups,
    at: &ScopeTable,
    found: Found<Ty>,
    place: Place,
    text: &str,
) -> Found<Ty>
    ensures { (j : Judged Ty) → Finds found j → Finds result (asking.member (declared_by lookups.now) (scope_by at.now) None j place text.now) }
{
    let class = value_class(lookups, at, found);
    match class.known {
        None => stop(class),
        Some((number, fixed)) => after(class, member_of(lookups, number, fixed, place, text)),
    }
}

/// That a product has a literal operand.
fn needs_literal(place: Place, left: &Expr, right: &Expr) -> Found<Ty>
    ensures { Finds result (rules.rule_19 place (expr_tree left.now) (expr_tree right.now)) }
{
    let has_literal = is_literal(left) || is_literal(right);
    needs(has_literal, 19, place, Ty::Int)
}

/// That one of two types fits the other.
fn needs_alike(place: Place, left: Ty, right: Ty) -> Found<Ty>
    ensures { Finds result (rules.rule_21 place left right) }
{
    let is_alike = fits(left, right) || fits(right, left);
    needs(is_alike, 21, place, Ty::Boolean)
}

/// Two operands of which one is to fit the other.
fn alike(place: Place, left: Found<Ty>, right: Found<Ty>) -> Found<Ty>
    ensures { (j m : Judged Ty) → Finds left j → Finds right m → Finds result (asking.alike place j m) }
{
    let found = both(left, right);
    match found.known {
        None => stop(found),
        Some((first, second)) => after(found, needs_alike(place, first, second)),
    }
}

/// Two operands that are to be int.
fn ints(left: &Expr, first: Found<Ty>, right: &Expr, second: Found<Ty>, ty: Ty) -> Found<Ty>
    ensures { (j m : Judged Ty) → Finds first j → Finds second m → Finds result (asking.two rules.rule_18 (expr_tree left.now) j (expr_tree right.now) m ty) }
{
    instead(both(as_int(left, first), as_int(right, second)), ty)
}

/// Two operands that are to be boolean.
fn booleans(left: &Expr, first: Found<Ty>, right: &Expr, second: Found<Ty>, ty: Ty) -> Found<Ty>
    ensures { (j m : Judged Ty) → Finds first j → Finds second m → Finds result (asking.two rules.rule_20 (expr_tree left.now) j (expr_tree right.now) m ty) }
{
    instead(both(as_boolean(left, first), as_boolean(right, second)), ty)
}

/// That a product has a literal, where both operands are known.
fn known_literal(
    place: Place,
    left: &Expr,
    first: Found<Ty>,
    right: &Expr,
    second: Found<Ty>,
) -> Found<Ty>
    ensures { (j m : Judged Ty) → Finds first j → Finds second m → Finds result (asking.literal_of place (expr_tree left.now) j (expr_tree right.now) m) }
{
    if first.known.is_some() && second.known.is_some() {
        needs_literal(place, left, right)
    } else {
        given(None)
    }
}

/// A product.
fn product(
    place: Place,
    left: &Expr,
    first: Found<Ty>,
    right: &Expr,
    second: Found<Ty>,
) -> Found<Ty>
    ensures { (j m : Judged Ty) → Finds first j → Finds second m → Finds result (asking.product place (expr_tree left.now) j (expr_tree right.now) m) }
{
    let operands = ints(left, first, right, second, Ty::Int);
    let literal = known_literal(place, left, first, right, second);
    instead(both(operands, literal), Ty::Int)
}

/// What is found of two operands with an operator between them.
fn binary_type(
    lookups: &Lookups,
    at: &ScopeTable,
    place: Place,
    op: Op,
    left: &Expr,
    first: Found<Ty>,
    right: &Expr,
    second: Found<Ty>,
) -> Found<Ty>
    ensures { (j m : Judged Ty) → Finds first j → Finds second m → Finds result (exprs.binary_type (declared_by lookups.now) (scope_by at.now) place op (expr_tree left.now) j (expr_tree right.now) m) }
{
    match op {
        Op::Or => booleans(left, first, right, second, Ty::Boolean),
        Op::And => booleans(left, first, right, second, Ty::Boolean),
        Op::Equal => alike(place, first, second),
        Op::NotEqual => alike(place, first, second),
        Op::Less => ints(left, first, right, second, Ty::Boolean),
        Op::LessEq => ints(left, first, right, second, Ty::Boolean),
        Op::Greater => ints(left, first, right, second, Ty::Boolean),
        Op::GreaterEq => ints(left, first, right, second, Ty::Boolean),
        Op::Add => ints(left, first, right, second, Ty::Int),
        Op::Sub => ints(left, first, right, second, Ty::Int),
        Op::Mul => product(place, left, first, right, second),
    }
}

/// What is found of an expression.
#[cycle(expr_type)]
pub fn expr_type(lookups: &Lookups, at: &ScopeTable, expr: &Expr) -> Found<Ty>
    ensures { Finds result (exprs.expr_type (declared_by lookups.now) (scope_by at.now) (expr_tree expr.now)) }
{
    match &expr.body {
        ExprBody::Null => right(Ty::Null),
        ExprBody::True => right(Ty::Boolean),
        ExprBody::False => right(Ty::Boolean),
        ExprBody::Number(_) => right(Ty::Int),
        ExprBody::This => needs(!at.fixed, 14, expr.place, Ty::Class(at.class)),
        ExprBody::Name(word) => name_type(lookups, at, word),
        ExprBody::Member(of, word) => match class_spelled(lookups, at, of) {
            Some(class) => member_of(lookups, class, true, of.place, word.text.text()),
            None => value_member(
                lookups,
                at,
                expr_type(lookups, at, of),
                of.place,
                word.text.text(),
            ),
        },
        ExprBody::Not(inner) => as_boolean(inner, expr_type(lookups, at, inner)),
        ExprBody::Minus(inner) => as_int(inner, expr_type(lookups, at, inner)),
        ExprBody::Binary(op, left, right) => {
            binary_type(
                lookups,
                at,
                expr.place,
                *op,
                left,
                expr_type(lookups, at, left),
                right,
                expr_type(lookups, at, right),
            )
        }
    }
}
