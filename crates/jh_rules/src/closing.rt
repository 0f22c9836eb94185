#![tactic(auto, using(jh_ast::proofs::StmtSteps::stmt_steps, crate::proofs::Ends::end_steps), unfolding(crate::specs::Scopes::is_closed, crate::specs::Scopes::is_closed_part, crate::specs::Scopes::ends_closed))]

ghost use Rattle.std.specs.Prelude.{◌≡◌};
ghost use Rattle.jh_ast.specs.Bare.{stmt_tree, stmt_trees, part_trees};
ghost use Rattle.jh_rules.specs.Scopes as scopes;

use jh_ast::{Stmt, StmtBody};

/// Whether a statement always returns.
#[cycle(closed)]
pub fn is_closed(stmt: &Stmt) -> bool
    ensures { result ≡ scopes.is_closed (stmt_tree stmt.now) }
{
    match &stmt.body {
        StmtBody::Block(stmts) => ends_closed(stmts.items()),
        StmtBody::If(_, first, second) => is_closed(first) && is_closed_part(second),
        StmtBody::Return(_) => true,
        StmtBody::Empty => false,
        StmtBody::Local(_, _) => false,
        StmtBody::Assign(_, _) => false,
        StmtBody::Call(_) => false,
        StmtBody::While(_, _, _) => false,
        StmtBody::Assert(_) => false,
        StmtBody::Note(_) => false,
        StmtBody::Ghost(_, _) => false,
    }
}

/// Whether there is a second part and it is closed.
#[cycle(closed)]
fn is_closed_part(part: &Option<Box<Stmt>>) -> bool
    ensures { result ≡ scopes.is_closed_part (part_trees part.now) }
{
    match part {
        None => false,
        Some(stmt) => is_closed(stmt),
    }
}

/// Whether the last of a list of statements is closed.
#[cycle(closed)]
pub fn ends_closed(stmts: &[Stmt]) -> bool
    ensures { result ≡ scopes.ends_closed (stmt_trees stmts.now) }
{
    match stmts {
        [] => false,
        [.., last] => is_closed(last),
    }
}
