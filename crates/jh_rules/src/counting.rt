#![tactic(auto, using(jh_ast::proofs::StmtSteps::stmt_steps, crate::proofs::Counts::count_steps), unfolding(crate::specs::Scopes::count))]

ghost use Rattle.std.specs.Prelude.{◌≡◌, ◌+◌, ◌-◌, ◌^◌, min};
ghost use Rattle.jh_ast.specs.Bare.{stmt_tree, stmt_trees, part_trees};
ghost use Rattle.jh_rules.specs.Scopes as scopes;

use jh_ast::{Stmt, StmtBody};

/// The number of statements in a statement, itself, blocks and parts included; the greatest u64 where there
/// are more.
#[cycle(counted)]
pub fn count(stmt: &Stmt) -> u64
    ensures { result ≡ min (scopes.count (stmt_tree stmt.now)) (2 ^ 64 - 1) }
{
    match &stmt.body {
        StmtBody::Block(stmts) => all_counted(stmts.items()).saturating_add(1),
        StmtBody::If(_, first, second) => count(first)
            .saturating_add(part_counted(second))
            .saturating_add(1),
        StmtBody::While(_, _, body) => count(body).saturating_add(1),
        StmtBody::Empty => 1,
        StmtBody::Local(_, _) => 1,
        StmtBody::Assign(_, _) => 1,
        StmtBody::Call(_) => 1,
        StmtBody::Return(_) => 1,
        StmtBody::Assert(_) => 1,
        StmtBody::Note(_) => 1,
        StmtBody::Ghost(_, _) => 1,
    }
}

/// That of a second part, where there is one.
#[cycle(counted)]
fn part_counted(part: &Option<Box<Stmt>>) -> u64
    ensures { result ≡ min (scopes.all_counted (part_trees part.now)) (2 ^ 64 - 1) }
{
    match part {
        None => 0,
        Some(stmt) => count(stmt),
    }
}

/// That of a list of statements.
#[cycle(counted)]
pub fn all_counted(stmts: &[Stmt]) -> u64
    ensures { result ≡ min (scopes.all_counted (stmt_trees stmts.now)) (2 ^ 64 - 1) }
{
    let mut total = 0_u64;
    for stmt in stmts.iter() {
        total = total.saturating_add(count(stmt));
    }
    total
}
