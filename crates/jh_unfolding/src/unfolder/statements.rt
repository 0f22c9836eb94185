#![tactic(auto, using(jh_ast::proofs::StmtSteps::stmt_steps, crate::proofs::unfolder::Addings::adds_steps))]

ghost use Rattle.std.specs.Prelude.{◌≡◌, OnOk};
ghost use Rattle.jh_ast.specs.Bare.{spec_part, stmt_tree};
ghost use Rattle.jh_symbols.specs.scopes.Lookings.{scope_by};
ghost use Rattle.jh_vars.specs.Opened as opened;
ghost use Rattle.jh_unfolding.specs.unfolder.Adding.{program_of, IsReady, Adds, Unfolds};

use crate::unfolder::formulas::{Gathered, add_formula, add_labelled, inside};
use crate::visitor::Visit;
use jh_ast::{Spec, Stmt, StmtBody};
use jh_definitions::jh_resolution::Context;
use jh_name::{Kind, NoMemory};
use jh_symbols::scopes::ScopeTable;

/// Adds both formulas of a ghost assignment.
fn add_ghost(
    gathered: &mut Gathered,
    context: &Context,
    at: &ScopeTable,
    left: &Spec,
    right: &Spec,
) -> Result<(), NoMemory>
    requires { IsReady gathered.old.table context.now }
    ensures ready { OnOk result (IsReady gathered.new.table context.now) }
    ensures adds { OnOk result (Adds (program_of context.now) gathered.old gathered.new (opened.ghost_values (program_of context.now) (scope_by at.now) (spec_part left.now) (spec_part right.now))) }
{
    let spot = inside(at, Kind::Obj);
    add_formula(gathered, context, &spot, left)?;
    add_formula(gathered, context, &spot, right)?;
    Ok(())
}

/// Adds the formulas of a statement itself.
fn add_statement(
    gathered: &mut Gathered,
    context: &Context,
    at: &ScopeTable,
    stmt: &Stmt,
) -> Result<(), NoMemory>
    requires { IsReady gathered.old.table context.now }
    ensures ready { OnOk result (IsReady gathered.new.table context.now) }
    ensures adds { OnOk result (Adds (program_of context.now) gathered.old gathered.new (opened.stmt_values (program_of context.now) (scope_by at.now) (stmt_tree stmt.now))) }
{
    let spot = inside(at, Kind::Obj);
    match &stmt.body {
        StmtBody::Empty => Ok(()),
        StmtBody::Block(_) => Ok(()),
        StmtBody::Local(_, _) => Ok(()),
        StmtBody::Assign(_, _) => Ok(()),
        StmtBody::Call(_) => Ok(()),
        StmtBody::If(_, _, _) => Ok(()),
        StmtBody::While(invariants, _, _) => {
            add_labelled(gathered, context, &spot, invariants.items())
        }
        StmtBody::Return(_) => Ok(()),
        StmtBody::Assert(labelled) => add_formula(gathered, context, &spot, &labelled.body),
        StmtBody::Note(labelled) => add_formula(gathered, context, &spot, &labelled.body),
        StmtBody::Ghost(left, right) => add_ghost(gathered, context, at, left, right),
    }
}

/// What goes from statement to statement and gathers the formulas.
#[derive(Drop)]
pub struct Unfolding<'a> {
    pub context: Context<'a>,
    pub gathered: Gathered,
}

impl Visit for Unfolding<'_> {
    ghost use Rattle.jh_unfolding.specs.unfolder.Adding.{IsReady, Unfolds};

    ghost ready = { λ x. IsReady x.gathered.table x.context };

    ghost step = { Unfolds };

    fn visit(&mut self, at: &ScopeTable, stmt: &Stmt) -> Result<(), NoMemory> {
        add_statement(&mut self.gathered, &self.context, at, stmt)
    }
}
