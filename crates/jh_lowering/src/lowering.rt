#![tactic(auto, using(jh_type::proofs::method_bodies::Scopings::scope_steps, jh_ast::proofs::StmtSteps::stmt_steps, jh_semantics::proofs::typed_code::CodeSteps::code_steps), unfolding(jh_semantics::specs::LoweredStmts::stmt_code, jh_ast::specs::Bare::rhs_tree, jh_semantics::specs::typed_code::Statements::target_in))]

ghost use Rattle.std.specs.Prelude.{◌≡◌, ◌++◌, ◌∷◌, [], map, option_map, IfOk, OnOk};
ghost use Rattle.jh_ast.specs.Bare.{call_tree, expr_tree, labelled_part, part_trees, rhs_tree, spec_part, stmt_tree, stmt_trees};
ghost use Rattle.jh_rules.specs.Scopes as scopes;
ghost use Rattle.jh_symbols.specs.scopes.Lookings.{declared_by, scope_by};
ghost use Rattle.jh_type.specs.method_bodies.Scoping as scoping;
ghost use Rattle.jh_semantics.specs.Code as c;
ghost use Rattle.jh_semantics.specs.Lowered as exprs;
ghost use Rattle.jh_semantics.specs.LoweredStmts as lowered;
ghost use Rattle.jh_semantics.specs.typed_code.Codes.{truth_code};
ghost use Rattle.jh_lowering.specs.Lowering.{IsDeclared, boxed_code, source_of};
ghost use Rattle.jh_semantics.specs.typed_code.Statements.{claim_in, code_in, codes_in, target_in};

use crate::calls::call_code;
use crate::context::Context;
use crate::expressions::boxed_expr;
use crate::making::{BoxedCode, boxed, boxed_truth, out_of_box};
use crate::parts::{default_code, labelled_claim, labelled_claims, local_code};
use crate::targets::target_code;
use jh_ast::{Call, Expr, Labelled, Param, Rhs, Spec, Stmt, StmtBody, Word};
use jh_name::{NoMemory, Place, Row};
use jh_semantics::typed_code::{Claim, Code, Target, TruthCode};
use jh_symbols::scopes::ScopeTable;
use jh_type::method_bodies::{add_label, add_labels};
use std::alloc::Global;

/// An assignment of a value.
fn assigned(alloc: Global, target: Box<Target>, value: BoxedCode) -> Result<Box<Code>, NoMemory>
    ensures { (p : _) → IfOk result (λ made. code_in p made.value ≡ c.assign (target_in target.value) (boxed_code value)) }
{
    let code = Code::Assign(Box::into_inner(target), out_of_box(value));
    boxed(alloc, code)
}

/// A new object of the class that a word names.
fn new_object(
    alloc: Global,
    place: Place,
    target: Box<Target>,
    word: &Word,
) -> Result<Box<Code>, NoMemory>
    ensures { (p : _) → IfOk result (λ made. code_in p made.value ≡ c.new_object place (target_in target.value) word.now.text.text) }
{
    let class = word.text.copy(alloc)?;
    let code = Code::New(place, Box::into_inner(target), class);
    boxed(alloc, code)
}

/// An assignment, by its right side.
fn rhs_code(
    alloc: Global,
    context: &Context,
    at: &ScopeTable,
    place: Place,
    target: Box<Target>,
    rhs: &Rhs,
) -> Result<Box<Code>, NoMemory>
    requires { IsDeclared context.now }
    ensures { IfOk result (λ made. code_in (source_of context.now) made.value ≡ lowered.rhs_code (source_of context.now) place (scope_by at.now) (target_in target.value) (rhs_tree rhs.now)) }
{
    match rhs {
        Rhs::Value(expr) => {
            let value = boxed_expr(alloc, context, at, expr)?;
            assigned(alloc, target, value)
        }
        Rhs::Call(call) => call_code(alloc, context, at, place, target, call),
        Rhs::New(word) => new_object(alloc, place, target, word),
    }
}

/// A declaration; one without a value gives the default.
fn declaration(
    alloc: Global,
    context: &Context,
    at: &ScopeTable,
    place: Place,
    param: &Param,
    rhs: &Option<Rhs>,
) -> Result<Box<Code>, NoMemory>
    requires { IsDeclared context.now }
    ensures { IfOk result (λ made. code_in (source_of context.now) made.value ≡ lowered.declaration_code (source_of context.now) place (scope_by at.now) (lowered.local_code (source_of context.now) param.now) (option_map rhs_tree rhs.now)) }
{
    let local = local_code(alloc, context, param)?;
    let ty = local.ty;
    let target = Box::new(alloc, Target::New(local))?;
    match rhs {
        None => {
            let value = default_code(alloc, ty)?;
            assigned(alloc, target, value)
        }
        Some(rhs) => rhs_code(alloc, context, at, place, target, rhs),
    }
}

/// An assignment.
fn assignment(
    alloc: Global,
    context: &Context,
    at: &ScopeTable,
    place: Place,
    expr: &Expr,
    rhs: &Rhs,
) -> Result<Box<Code>, NoMemory>
    requires { IsDeclared context.now }
    ensures { IfOk result (λ made. code_in (source_of context.now) made.value ≡ lowered.rhs_code (source_of context.now) place (scope_by at.now) (lowered.target_code (source_of context.now) (scope_by at.now) (expr_tree expr.now)) (rhs_tree rhs.now)) }
{
    let target = target_code(alloc, context, at, expr)?;
    let target = Box::new(alloc, target)?;
    rhs_code(alloc, context, at, place, target, rhs)
}

/// A call that stands alone.
fn call_alone(
    alloc: Global,
    context: &Context,
    at: &ScopeTable,
    place: Place,
    call: &Call,
) -> Result<Box<Code>, NoMemory>
    requires { IsDeclared context.now }
    ensures { IfOk result (λ made. code_in (source_of context.now) made.value ≡ lowered.call_code (source_of context.now) place (scope_by at.now) c.nowhere (call_tree call.now)) }
{
    let target = Box::new(alloc, Target::Nowhere)?;
    call_code(alloc, context, at, place, target, call)
}

/// The test of a branch or of a loop.
fn test_code(
    alloc: Global,
    context: &Context,
    at: &ScopeTable,
    expr: &Expr,
) -> Result<Box<TruthCode>, NoMemory>
    requires { IsDeclared context.now }
    ensures { IfOk result (λ made. truth_code made.value ≡ exprs.as_truth (exprs.expr_code (source_of context.now) (expr_tree expr.now) (scope_by at.now))) }
{
    let code = boxed_expr(alloc, context, at, expr)?;
    boxed_truth(alloc, code)
}

/// A return.
fn return_code(
    alloc: Global,
    context: &Context,
    at: &ScopeTable,
    value: &Option<Expr>,
) -> Result<Box<Code>, NoMemory>
    requires { IsDeclared context.now }
    ensures { IfOk result (λ made. code_in (source_of context.now) made.value ≡ lowered.return_code (source_of context.now) (scope_by at.now) (option_map expr_tree value.now)) }
{
    match value {
        None => boxed(alloc, Code::Return(None)),
        Some(expr) => {
            let value = boxed_expr(alloc, context, at, expr)?;
            boxed(alloc, Code::Return(Some(out_of_box(value))))
        }
    }
}

/// An assertion.
fn assertion(alloc: Global, labelled: &Labelled) -> Result<Box<Code>, NoMemory>
    ensures { (p : _) → IfOk result (λ made. code_in p made.value ≡ c.assert (lowered.labelled_claim p (labelled_part labelled.now))) }
{
    let claim = labelled_claim(alloc, labelled)?;
    boxed(alloc, Code::Assert(claim))
}

/// A note.
fn note(alloc: Global, labelled: &Labelled) -> Result<Box<Code>, NoMemory>
    ensures { IfOk result (λ made. (p : _) → code_in p made.value ≡ c.note (lowered.labelled_claim p (labelled_part labelled.now))) }
{
    let claim = labelled_claim(alloc, labelled)?;
    boxed(alloc, Code::Note(claim))
}

/// A ghost assignment.
fn ghost_assignment(alloc: Global, left: &Spec, right: &Spec) -> Result<Box<Code>, NoMemory>
    ensures { (p : _) → IfOk result (λ made. code_in p made.value ≡ lowered.ghost_code left.now.place (lowered.ghost_target (lowered.spec_value p (spec_part left.now))) right.now.place (lowered.spec_value p (spec_part right.now))) }
{
    let code = Code::Ghost(left.place, left.number, right.place, right.number);
    boxed(alloc, code)
}

/// A block of some statements.
fn block(alloc: Global, parts: Vec<Code>) -> Result<Box<Code>, NoMemory>
    ensures { (p : _) → IfOk result (λ made. code_in p made.value ≡ c.block (codes_in p parts.items)) }
{
    boxed(alloc, Code::Block(Row::of(parts)))
}

/// A branch of its parts.
fn branch_of(
    alloc: Global,
    place: Place,
    test: Box<TruthCode>,
    first: Box<Code>,
    second: Vec<Code>,
) -> Result<Box<Code>, NoMemory>
    ensures { (p : _) → IfOk result (λ made. code_in p made.value ≡ c.branch place (truth_code test.value) (code_in p first.value) (codes_in p second.items)) }
{
    let code = Code::Branch(place, Box::into_inner(test), first, Row::of(second));
    boxed(alloc, code)
}

/// What stands before the body of a loop.
#[derive(Drop)]
struct Head {
    claims: Row<Claim>,
    test: Box<TruthCode>,
}

/// The invariants and the test of a loop.
fn loop_head(
    alloc: Global,
    context: &Context,
    at: &ScopeTable,
    invariants: &[Labelled],
    test: &Expr,
) -> Result<Head, NoMemory>
    requires { IsDeclared context.now }
    ensures claims { IfOk result (λ made. (p : _) → map (claim_in p) made.claims ≡ map (lowered.labelled_claim p) (map labelled_part invariants.now)) }
    ensures test { IfOk result (λ made. truth_code made.test.value ≡ exprs.as_truth (exprs.expr_code (source_of context.now) (expr_tree test.now) (scope_by at.now))) }
{
    let claims = labelled_claims(alloc, invariants)?;
    let test = test_code(alloc, context, at, test)?;
    Ok(Head { claims, test })
}

/// A loop of its head and its body.
fn loop_of(alloc: Global, place: Place, head: Head, body: Box<Code>) -> Result<Box<Code>, NoMemory>
    ensures { (p : _) → IfOk result (λ made. code_in p made.value ≡ c.loop place (map (claim_in p) head.claims) (truth_code head.test.value) (code_in p body.value)) }
{
    let code = Code::Loop(place, head.claims, Box::into_inner(head.test), body);
    boxed(alloc, code)
}

/// Adds a statement.
fn push_code(made: &mut Vec<Code>, code: Box<Code>) -> Result<(), NoMemory>
    ensures { OnOk result (made.new.items ≡ made.old.items ++ code.value ∷ []) }
{
    made.push(Box::into_inner(code))?;
    Ok(())
}

/// One statement alone.
fn alone(alloc: Global, code: Box<Code>) -> Result<Vec<Code>, NoMemory>
    ensures { (p : _) → IfOk result (λ made. codes_in p made.items ≡ c.more (code_in p code.value) c.none) }
{
    let mut made = Vec::new(alloc);
    push_code(&mut made, code)?;
    Ok(made)
}

/// The code of some statements, each where the declarations before it are in scope. Behind them the scope is that of what
/// follows.
#[cycle(lower_one)]
pub fn lower_all(
    alloc: Global,
    context: &Context,
    at: &mut ScopeTable,
    stmts: &[Stmt],
) -> Result<Vec<Code>, NoMemory>
    requires { IsDeclared context.now }
    ensures code { IfOk result (λ made. codes_in (source_of context.now) made.items ≡ lowered.stmts_code (source_of context.now) (stmt_trees stmts.now) (scope_by at.old)) }
    ensures scope { OnOk result (scope_by at.new ≡ scoping.after_all (declared_by context.now.lookups.now) (scope_by at.old) (stmt_trees stmts.now)) }
    ensures undos { OnOk result (at.new.undos.items ≡ at.old.undos.items ++ scoping.undos_of (declared_by context.now.lookups.now) (scope_by at.old) (stmt_trees stmts.now)) }
{
    let mut made = Vec::new(alloc);
    for stmt in stmts.iter() {
        let code = lower_one(alloc, context, at, stmt)?;
        push_code(&mut made, code)?;
    }
    Ok(made)
}

/// The code of the statements of a block, whose locals go out of scope.
#[cycle(lower_one)]
fn lower_block(
    alloc: Global,
    context: &Context,
    at: &mut ScopeTable,
    stmts: &[Stmt],
) -> Result<Vec<Code>, NoMemory>
    requires { IsDeclared context.now }
    ensures code { IfOk result (λ made. codes_in (source_of context.now) made.items ≡ lowered.stmts_code (source_of context.now) (stmt_trees stmts.now) (scope_by at.old)) }
    ensures scope { OnOk result (scope_by at.new ≡ scoping.text_after (scope_by at.old) (stmt_trees stmts.now)) }
    ensures undos { OnOk result (at.new.undos.items ≡ at.old.undos.items) }
{
    let mark = at.mark();
    let made = lower_all(alloc, context, at, stmts)?;
    at.leave(mark)?;
    Ok(made)
}

/// The code of a part of a statement, whose local goes out of scope.
#[cycle(lower_one)]
fn lower_part(
    alloc: Global,
    context: &Context,
    at: &mut ScopeTable,
    stmt: &Stmt,
) -> Result<Box<Code>, NoMemory>
    requires { IsDeclared context.now }
    ensures code { IfOk result (λ made. code_in (source_of context.now) made.value ≡ lowered.stmt_code (source_of context.now) (stmt_tree stmt.now) (scope_by at.old)) }
    ensures scope { OnOk result (scope_by at.new ≡ scopes.text_behind (scope_by at.old) (stmt_tree stmt.now)) }
    ensures undos { OnOk result (at.new.undos.items ≡ at.old.undos.items) }
{
    let mark = at.mark();
    let made = lower_one(alloc, context, at, stmt)?;
    at.leave(mark)?;
    Ok(made)
}

/// The code of a second part, where there is one.
#[cycle(lower_one)]
fn lower_else(
    alloc: Global,
    context: &Context,
    at: &mut ScopeTable,
    part: &Option<Box<Stmt>>,
) -> Result<Vec<Code>, NoMemory>
    requires { IsDeclared context.now }
    ensures code { IfOk result (λ made. codes_in (source_of context.now) made.items ≡ lowered.stmts_code (source_of context.now) (part_trees part.now) (scope_by at.old)) }
    ensures scope { OnOk result (scope_by at.new ≡ scoping.text_after (scope_by at.old) (part_trees part.now)) }
    ensures undos { OnOk result (at.new.undos.items ≡ at.old.undos.items) }
{
    match part {
        None => Ok(Vec::new(alloc)),
        Some(stmt) => {
            let code = lower_part(alloc, context, at, stmt)?;
            let made = alone(alloc, code)?;
            Ok(made)
        }
    }
}

/// The code of a statement, in a box. Behind it the scope is that of the next one.
#[cycle(lower_one)]
fn lower_one(
    alloc: Global,
    context: &Context,
    at: &mut ScopeTable,
    stmt: &Stmt,
) -> Result<Box<Code>, NoMemory>
    requires { IsDeclared context.now }
    ensures code { IfOk result (λ made. code_in (source_of context.now) made.value ≡ lowered.stmt_code (source_of context.now) (stmt_tree stmt.now) (scope_by at.old)) }
    ensures scope { OnOk result (scope_by at.new ≡ scopes.behind (declared_by context.now.lookups.now) (scope_by at.old) (stmt_tree stmt.now)) }
    ensures undos { OnOk result (at.new.undos.items ≡ at.old.undos.items ++ scoping.undos_in (scope_by at.old) (stmt_tree stmt.now)) }
{
    match &stmt.body {
        StmtBody::Empty => boxed(alloc, Code::Empty),
        StmtBody::Block(stmts) => {
            let made = lower_block(alloc, context, at, stmts.items())?;
            block(alloc, made)
        }
        StmtBody::Local(param, rhs) => {
            let made = declaration(alloc, context, at, stmt.place, param, rhs)?;
            at.declare(context.lookups, param, false)?;
            Ok(made)
        }
        StmtBody::Assign(target, rhs) => assignment(alloc, context, at, stmt.place, target, rhs),
        StmtBody::Call(call) => call_alone(alloc, context, at, stmt.place, call),
        StmtBody::If(test, first, second) => {
            let test = test_code(alloc, context, at, test)?;
            let first = lower_part(alloc, context, at, first)?;
            let second = lower_else(alloc, context, at, second)?;
            branch_of(alloc, stmt.place, test, first, second)
        }
        StmtBody::While(invariants, test, body) => {
            let head = loop_head(alloc, context, at, invariants.items(), test)?;
            add_labels(at, invariants.items())?;
            let body = lower_part(alloc, context, at, body)?;
            loop_of(alloc, stmt.place, head, body)
        }
        StmtBody::Return(value) => return_code(alloc, context, at, value),
        StmtBody::Assert(labelled) => assertion(alloc, labelled),
        StmtBody::Note(labelled) => {
            let made = note(alloc, labelled)?;
            add_label(at, labelled)?;
            Ok(made)
        }
        StmtBody::Ghost(left, right) => ghost_assignment(alloc, left, right),
    }
}
