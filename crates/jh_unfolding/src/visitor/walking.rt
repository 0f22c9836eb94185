#![tactic(auto, using(jh_type::proofs::method_bodies::Scopings::scope_steps, jh_ast::proofs::StmtSteps::stmt_steps), unfolding(crate::specs::visitor::Chains::Chain, jh_vars::specs::Statements::inner_statements))]

ghost use Rattle.std.specs.Prelude.{◌≡◌, ◌++◌, OnOk};
ghost use Rattle.jh_ast.specs.Bare.{stmt_tree, stmt_trees, part_trees};
ghost use Rattle.jh_rules.specs.Scopes as scopes;
ghost use Rattle.jh_symbols.specs.scopes.Lookings.{declared_by, scope_by};
ghost use Rattle.jh_type.specs.method_bodies.Scoping as scoping;
ghost use Rattle.jh_vars.specs.Statements.{statements_in, inner_statements, all_statements};
ghost use Rattle.jh_unfolding.specs.visitor.Chains.{Chain};

use crate::visitor::visiting::Visit;
use jh_ast::{Stmt, StmtBody};
use jh_name::NoMemory;
use jh_symbols::scopes::{Lookups, ScopeTable};
use jh_type::method_bodies::{add_label, add_labels};

/// Visits some statements and those inside them, each in its scope. Behind them the scope is that of what follows.
#[cycle(visit_one)]
pub fn visit_all<V: Visit>(
    visitor: &mut V,
    lookups: &Lookups,
    at: &mut ScopeTable,
    stmts: &[Stmt],
) -> Result<(), NoMemory>
    requires { V.ready visitor.old }
    ensures ready { OnOk result (V.ready visitor.new) }
    ensures visited { OnOk result (Chain V.step visitor.old visitor.new (all_statements (declared_by lookups.now) (stmt_trees stmts.now) (scope_by at.old))) }
    ensures scope { OnOk result (scope_by at.new ≡ scoping.after_all (declared_by lookups.now) (scope_by at.old) (stmt_trees stmts.now)) }
    ensures undos { OnOk result (at.new.undos.items ≡ at.old.undos.items ++ scoping.undos_of (declared_by lookups.now) (scope_by at.old) (stmt_trees stmts.now)) }
{
    for stmt in stmts.iter() {
        visit_one(visitor, lookups, at, stmt)?;
    }
    Ok(())
}

/// Visits the statements of a block, whose locals go out of scope.
#[cycle(visit_one)]
fn visit_block<V: Visit>(
    visitor: &mut V,
    lookups: &Lookups,
    at: &mut ScopeTable,
    stmts: &[Stmt],
) -> Result<(), NoMemory>
    requires { V.ready visitor.old }
    ensures ready { OnOk result (V.ready visitor.new) }
    ensures visited { OnOk result (Chain V.step visitor.old visitor.new (all_statements (declared_by lookups.now) (stmt_trees stmts.now) (scope_by at.old))) }
    ensures scope { OnOk result (scope_by at.new ≡ scoping.text_after (scope_by at.old) (stmt_trees stmts.now)) }
    ensures undos { OnOk result (at.new.undos.items ≡ at.old.undos.items) }
{
    let mark = at.mark();
    visit_all(visitor, lookups, at, stmts)?;
    at.leave(mark)?;
    Ok(())
}

/// Visits a part of a statement, whose local goes out of scope.
#[cycle(visit_one)]
fn visit_part<V: Visit>(
    visitor: &mut V,
    lookups: &Lookups,
    at: &mut ScopeTable,
    stmt: &Stmt,
) -> Result<(), NoMemory>
    requires { V.ready visitor.old }
    ensures ready { OnOk result (V.ready visitor.new) }
    ensures visited { OnOk result (Chain V.step visitor.old visitor.new (statements_in (declared_by lookups.now) (stmt_tree stmt.now) (scope_by at.old))) }
    ensures scope { OnOk result (scope_by at.new ≡ scopes.text_behind (scope_by at.old) (stmt_tree stmt.now)) }
    ensures undos { OnOk result (at.new.undos.items ≡ at.old.undos.items) }
{
    let mark = at.mark();
    visit_one(visitor, lookups, at, stmt)?;
    at.leave(mark)?;
    Ok(())
}

/// Visits a second part, where there is one.
#[cycle(visit_one)]
fn visit_else<V: Visit>(
    visitor: &mut V,
    lookups: &Lookups,
    at: &mut ScopeTable,
    part: &Option<Box<Stmt>>,
) -> Result<(), NoMemory>
    requires { V.ready visitor.old }
    ensures ready { OnOk result (V.ready visitor.new) }
    ensures visited { OnOk result (Chain V.step visitor.old visitor.new (all_statements (declared_by lookups.now) (part_trees part.now) (scope_by at.old))) }
    ensures scope { OnOk result (scope_by at.new ≡ scoping.text_after (scope_by at.old) (part_trees part.now)) }
    ensures undos { OnOk result (at.new.undos.items ≡ at.old.undos.items) }
{
    match part {
        None => Ok(()),
        Some(stmt) => visit_part(visitor, lookups, at, stmt),
    }
}

/// Visits the statements inside a statement. Behind it the scope is that of the next one.
#[cycle(visit_one)]
fn visit_inside<V: Visit>(
    visitor: &mut V,
    lookups: &Lookups,
    at: &mut ScopeTable,
    stmt: &Stmt,
) -> Result<(), NoMemory>
    requires { V.ready visitor.old }
    ensures ready { OnOk result (V.ready visitor.new) }
    ensures visited { OnOk result (Chain V.step visitor.old visitor.new (inner_statements (declared_by lookups.now) (stmt_tree stmt.now) (scope_by at.old))) }
    ensures scope { OnOk result (scope_by at.new ≡ scopes.behind (declared_by lookups.now) (scope_by at.old) (stmt_tree stmt.now)) }
    ensures undos { OnOk result (at.new.undos.items ≡ at.old.undos.items ++ scoping.undos_in (scope_by at.old) (stmt_tree stmt.now)) }
{
    match &stmt.body {
        StmtBody::Empty => Ok(()),
        StmtBody::Block(stmts) => {
            visit_block(visitor, lookups, at, stmts.items())?;
            Ok(())
        }
        StmtBody::Local(param, _) => {
            at.declare(lookups, param, false)?;
            Ok(())
        }
        StmtBody::Assign(_, _) => Ok(()),
        StmtBody::Call(_) => Ok(()),
        StmtBody::If(_, first, second) => {
            visit_part(visitor, lookups, at, first)?;
            visit_else(visitor, lookups, at, second)?;
            Ok(())
        }
        StmtBody::While(invariants, _, body) => {
            add_labels(at, invariants.items())?;
            visit_part(visitor, lookups, at, body)?;
            Ok(())
        }
        StmtBody::Return(_) => Ok(()),
        StmtBody::Assert(_) => Ok(()),
        StmtBody::Note(labelled) => {
            add_label(at, labelled)?;
            Ok(())
        }
        StmtBody::Ghost(_, _) => Ok(()),
    }
}

/// Visits a statement and those inside it, each in its scope.
#[cycle(visit_one)]
fn visit_one<V: Visit>(
    visitor: &mut V,
    lookups: &Lookups,
    at: &mut ScopeTable,
    stmt: &Stmt,
) -> Result<(), NoMemory>
    requires { V.ready visitor.old }
    ensures ready { OnOk result (V.ready visitor.new) }
    ensures visited { OnOk result (Chain V.step visitor.old visitor.new (statements_in (declared_by lookups.now) (stmt_tree stmt.now) (scope_by at.old))) }
    ensures scope { OnOk result (scope_by at.new ≡ scopes.behind (declared_by lookups.now) (scope_by at.old) (stmt_tree stmt.now)) }
    ensures undos { OnOk result (at.new.undos.items ≡ at.old.undos.items ++ scoping.undos_in (scope_by at.old) (stmt_tree stmt.now)) }
{
    visitor.visit(at, stmt)?;
    visit_inside(visitor, lookups, at, stmt)?;
    Ok(())
}
