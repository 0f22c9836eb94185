#![tactic(auto, using(crate::proofs::method_bodies::Leasts::least_steps, crate::proofs::method_bodies::Scopings::scope_steps, jh_ast::proofs::StmtSteps::stmt_steps), unfolding(jh_rules::specs::Found::least, jh_ast::specs::Bare::method_part, jh_rules::specs::Statements::stmt_faults, jh_rules::specs::Statements::all_faults))]

ghost use Rattle.std.specs.Prelude.{◌≡◌, false, ◌++◌, map, option_map, IfOk, OnOk};
ghost use Rattle.jh_ast.specs.Bare.{expr_tree, rhs_tree, labelled_part, stmt_tree, stmt_trees, part_trees, method_part};
ghost use Rattle.jh_rules.specs.Names.{label_of};
ghost use Rattle.jh_rules.specs.Found.{least};
ghost use Rattle.jh_rules.specs.Scopes as scopes;
ghost use Rattle.jh_rules.specs.Statements as statements;
ghost use Rattle.jh_symbols.specs.scopes.Lookings.{declared_by, scope_by};
ghost use Rattle.jh_type.specs.method_bodies.Parts as parts;
ghost use Rattle.jh_type.specs.method_bodies.Scoping as scoping;

use crate::method_bodies::assigning::{assign_faults, return_faults, some_rhs_faults};
use crate::method_bodies::declaring::declared_faults;
use crate::method_bodies::specifying::{
    add_label, add_labels, ghost_faults, invariant_faults, labelled_faults,
};
use jh_ast::{Expr, Labelled, Method, Param, Rhs, Stmt, StmtBody};
use jh_name::NoMemory;
use jh_rules::{Fault, lesser};
use jh_symbols::scopes::{Lookups, ScopeTable, as_boolean, call_type, expr_type, type_of};
use std::alloc::Global;

/// The least fault of a condition.
fn condition_faults(lookups: &Lookups, at: &ScopeTable, expr: &Expr) -> Option<Fault>
    ensures { result ≡ least (parts.condition (declared_by lookups.now) (scope_by at.now) (expr_tree expr.now)) }
{
    as_boolean(expr, expr_type(lookups, at, expr)).least
}

/// The least fault of the declaration of a local, which is declared.
fn local_faults(
    lookups: &Lookups,
    at: &mut ScopeTable,
    param: &Param,
    rhs: &Option<Rhs>,
) -> Result<Option<Fault>, NoMemory>
    ensures found { IfOk result (λ found. found ≡ least (parts.local (declared_by lookups.now) (scope_by at.old) param.now (option_map rhs_tree rhs.now))) }
    ensures scope { OnOk result (scope_by at.new ≡ scopes.declare (declared_by lookups.now) false (scope_by at.old) param.now) }
    ensures undos { OnOk result (at.new.undos.items ≡ at.old.undos.items ++ parts.local_undos (scope_by at.old) param.now) }
{
    let value = some_rhs_faults(lookups, at, type_of(lookups, &param.jtype), rhs);
    let declared = declared_faults(lookups, at, param);
    at.declare(lookups, param, false)?;
    Ok(lesser(value, declared))
}

/// The least fault of the invariants and the condition of a loop, whose labels are taken in.
fn loop_faults(
    alloc: Global,
    lookups: &Lookups,
    at: &mut ScopeTable,
    invariants: &[Labelled],
    condition: &Expr,
) -> Result<Option<Fault>, NoMemory>
    ensures found { IfOk result (λ found. found ≡ least (parts.loop_head (declared_by lookups.now) (scope_by at.old) (map labelled_part invariants.now) (expr_tree condition.now))) }
    ensures scope { OnOk result (scope_by at.new ≡ scopes.in_loop (scope_by at.old) (map labelled_part invariants.now)) }
    ensures undos { OnOk result (at.new.undos.items ≡ at.old.undos.items) }
{
    let found = invariant_faults(alloc, lookups, at, invariants)?;
    let test = condition_faults(lookups, at, condition);
    add_labels(at, invariants)?;
    Ok(lesser(found, test))
}

/// The least fault of a note, whose label is taken in.
fn note_faults(
    alloc: Global,
    lookups: &Lookups,
    at: &mut ScopeTable,
    labelled: &Labelled,
) -> Result<Option<Fault>, NoMemory>
    ensures found { IfOk result (λ found. found ≡ least (statements.labelled_faults (declared_by lookups.now) (scope_by at.old) (labelled_part labelled.now))) }
    ensures scope { OnOk result (scope_by at.new ≡ scoping.labelled (scope_by at.old) (label_of (labelled_part labelled.now))) }
    ensures undos { OnOk result (at.new.undos.items ≡ at.old.undos.items) }
{
    let found = labelled_faults(alloc, lookups, at, labelled)?;
    add_label(at, labelled)?;
    Ok(found)
}

/// The least fault of some statements, one after the other.
#[cycle(stmt_faults)]
pub fn all_faults(
    alloc: Global,
    lookups: &Lookups,
    method: &Method,
    at: &mut ScopeTable,
    stmts: &[Stmt],
) -> Result<Option<Fault>, NoMemory>
    ensures found { IfOk result (λ found. found ≡ least (statements.all_faults (declared_by lookups.now) (method_part method.now) (stmt_trees stmts.now) (scope_by at.old))) }
    ensures scope { OnOk result (scope_by at.new ≡ scoping.after_all (declared_by lookups.now) (scope_by at.old) (stmt_trees stmts.now)) }
    ensures undos { OnOk result (at.new.undos.items ≡ at.old.undos.items ++ scoping.undos_of (declared_by lookups.now) (scope_by at.old) (stmt_trees stmts.now)) }
{
    let mut found = None;
    for stmt in stmts.iter() {
        let next = stmt_faults(alloc, lookups, method, at, stmt)?;
        found = lesser(found, next);
    }
    Ok(found)
}

/// The least fault of the statements of a block, whose locals go out of scope.
#[cycle(stmt_faults)]
fn block_faults(
    alloc: Global,
    lookups: &Lookups,
    method: &Method,
    at: &mut ScopeTable,
    stmts: &[Stmt],
) -> Result<Option<Fault>, NoMemory>
    ensures found { IfOk result (λ found. found ≡ least (statements.all_faults (declared_by lookups.now) (method_part method.now) (stmt_trees stmts.now) (scope_by at.old))) }
    ensures scope { OnOk result (scope_by at.new ≡ scoping.text_after (scope_by at.old) (stmt_trees stmts.now)) }
    ensures undos { OnOk result (at.new.undos.items ≡ at.old.undos.items) }
{
    let mark = at.mark();
    let found = all_faults(alloc, lookups, method, at, stmts)?;
    at.leave(mark)?;
    Ok(found)
}

/// The least fault of a part of a statement, whose local goes out of scope.
#[cycle(stmt_faults)]
fn part_faults(
    alloc: Global,
    lookups: &Lookups,
    method: &Method,
    at: &mut ScopeTable,
    stmt: &Stmt,
) -> Result<Option<Fault>, NoMemory>
    ensures found { IfOk result (λ found. found ≡ least (statements.stmt_faults (declared_by lookups.now) (method_part method.now) (stmt_tree stmt.now) (scope_by at.old))) }
    ensures scope { OnOk result (scope_by at.new ≡ scopes.text_behind (scope_by at.old) (stmt_tree stmt.now)) }
    ensures undos { OnOk result (at.new.undos.items ≡ at.old.undos.items) }
{
    let mark = at.mark();
    let found = stmt_faults(alloc, lookups, method, at, stmt)?;
    at.leave(mark)?;
    Ok(found)
}

/// The least fault of a second part, where there is one.
#[cycle(stmt_faults)]
fn else_faults(
    alloc: Global,
    lookups: &Lookups,
    method: &Method,
    at: &mut ScopeTable,
    part: &Option<Box<Stmt>>,
) -> Result<Option<Fault>, NoMemory>
    ensures found { IfOk result (λ found. found ≡ least (statements.all_faults (declared_by lookups.now) (method_part method.now) (part_trees part.now) (scope_by at.old))) }
    ensures scope { OnOk result (scope_by at.new ≡ scoping.text_after (scope_by at.old) (part_trees part.now)) }
    ensures undos { OnOk result (at.new.undos.items ≡ at.old.undos.items) }
{
    match part {
        None => Ok(None),
        Some(stmt) => part_faults(alloc, lookups, method, at, stmt),
    }
}

/// The least fault of a statement. Behind it the scope is that of the next one.
#[cycle(stmt_faults)]
fn stmt_faults(
    alloc: Global,
    lookups: &Lookups,
    method: &Method,
    at: &mut ScopeTable,
    stmt: &Stmt,
) -> Result<Option<Fault>, NoMemory>
    ensures found { IfOk result (λ found. found ≡ least (statements.stmt_faults (declared_by lookups.now) (method_part method.now) (stmt_tree stmt.now) (scope_by at.old))) }
    ensures scope { OnOk result (scope_by at.new ≡ scopes.behind (declared_by lookups.now) (scope_by at.old) (stmt_tree stmt.now)) }
    ensures undos { OnOk result (at.new.undos.items ≡ at.old.undos.items ++ scoping.undos_in (scope_by at.old) (stmt_tree stmt.now)) }
{
    match &stmt.body {
        StmtBody::Empty => Ok(None),
        StmtBody::Block(stmts) => {
            let found = block_faults(alloc, lookups, method, at, stmts.items())?;
            Ok(found)
        }
        StmtBody::Local(param, rhs) => {
            let found = local_faults(lookups, at, param, rhs)?;
            Ok(found)
        }
        StmtBody::Assign(target, rhs) => Ok(assign_faults(lookups, at, stmt.place, target, rhs)),
        StmtBody::Call(call) => Ok(call_type(lookups, at, call).least),
        StmtBody::If(condition, first, second) => {
            let test = condition_faults(lookups, at, condition);
            let one = part_faults(alloc, lookups, method, at, first)?;
            let other = else_faults(alloc, lookups, method, at, second)?;
            Ok(lesser(lesser(test, one), other))
        }
        StmtBody::While(invariants, condition, body) => {
            let head = loop_faults(alloc, lookups, at, invariants.items(), condition)?;
            let inner = part_faults(alloc, lookups, method, at, body)?;
            Ok(lesser(head, inner))
        }
        StmtBody::Return(value) => {
            Ok(return_faults(lookups, at, stmt.place, &method.result, value))
        }
        StmtBody::Assert(labelled) => {
            let found = labelled_faults(alloc, lookups, at, labelled)?;
            Ok(found)
        }
        StmtBody::Note(labelled) => {
            let found = note_faults(alloc, lookups, at, labelled)?;
            Ok(found)
        }
        StmtBody::Ghost(left, right) => {
            let found = ghost_faults(alloc, lookups, at, stmt.place, left, right)?;
            Ok(found)
        }
    }
}
