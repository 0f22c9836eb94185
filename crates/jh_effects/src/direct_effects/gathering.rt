#![tactic(auto, using(jh_ast::proofs::StmtSteps::stmt_steps, crate::proofs::direct_effects::Adding::adds_steps))]

ghost use Rattle.std.specs.Prelude.{◌≡◌, ◌∷◌, [], ℕ, option_map, IfOk, OnOk};
ghost use Rattle.std.specs.List.{flat_map};
ghost use Rattle.std.specs.Option.{option_map_or};
ghost use Rattle.jh_ast.specs.Bare.{rhs_tree, stmt_tree, method_part};
ghost use Rattle.jh_ast.specs.Programs.{ProgramTree};
ghost use Rattle.jh_rules.specs.Names.{declared_in};
ghost use Rattle.jh_symbols.specs.scopes.Lookings.{declared_by, scope_by};
ghost use Rattle.jh_vars.specs.Statements.{method_statements};
ghost use Rattle.jh_vars.specs.Written as w;
ghost use Rattle.jh_effects.specs.direct_effects.Effects.{Adds, writes_in, calls_in, rhs_written, rhs_called, stmt_written, stmt_called};

use crate::direct_effects::assigning::{add_call, add_ghost, add_rhs, add_target};
use crate::direct_effects::effects::Effects;
use jh_ast::{Method, Rhs, Stmt, StmtBody};
use jh_name::NoMemory;
use jh_symbols::scopes::{Lookups, ScopeTable};
use jh_unfolding::visitor::{Visit, entry, visit_all};
use std::alloc::Global;

/// Adds the effects of the first value of a local, where it has one.
fn add_first(
    effects: &mut Effects,
    lookups: &Lookups,
    at: &ScopeTable,
    rhs: &Option<Rhs>,
) -> Result<(), NoMemory>
    ensures { OnOk result (Adds effects.old effects.new (option_map_or (rhs_written (declared_by lookups.now)) (option_map rhs_tree rhs.now) []) (option_map_or (rhs_called (declared_by lookups.now) (scope_by at.now)) (option_map rhs_tree rhs.now) [])) }
{
    match rhs {
        None => Ok(()),
        Some(rhs) => add_rhs(effects, lookups, at, rhs),
    }
}

/// Adds what a statement assigns and calls itself.
fn add_statement(
    effects: &mut Effects,
    lookups: &Lookups,
    at: &ScopeTable,
    stmt: &Stmt,
) -> Result<(), NoMemory>
    ensures { OnOk result (Adds effects.old effects.new (stmt_written (declared_by lookups.now) (scope_by at.now) (stmt_tree stmt.now)) (stmt_called (declared_by lookups.now) (scope_by at.now) (stmt_tree stmt.now))) }
{
    match &stmt.body {
        StmtBody::Empty => Ok(()),
        StmtBody::Block(_) => Ok(()),
        StmtBody::Local(_, rhs) => add_first(effects, lookups, at, rhs),
        StmtBody::Assign(target, rhs) => {
            add_target(effects, lookups, at, target)?;
            add_rhs(effects, lookups, at, rhs)
        }
        StmtBody::Call(call) => add_call(effects, lookups, at, call),
        StmtBody::If(_, _, _) => Ok(()),
        StmtBody::While(_, _, _) => Ok(()),
        StmtBody::Return(_) => Ok(()),
        StmtBody::Assert(_) => Ok(()),
        StmtBody::Note(_) => Ok(()),
        StmtBody::Ghost(left, _) => add_ghost(effects, lookups, at, &left.body),
    }
}

/// What goes from statement to statement and gathers what is assigned and called.
#[derive(Drop)]
pub struct Gathering<'a> {
    pub lookups: &'a Lookups,
    pub effects: Effects,
}

impl Visit for Gathering<'_> {
    ghost use Rattle.jh_effects.specs.direct_effects.Effects.{Gathers};

    ghost ready = { λ x. Unit {0} };

    ghost step = { Gathers };

    fn visit(&mut self, at: &ScopeTable, stmt: &Stmt) -> Result<(), NoMemory> {
        add_statement(&mut self.effects, self.lookups, at, stmt)
    }
}

/// What the statements of a method assign and call themselves.
pub fn effects_of(
    alloc: Global,
    lookups: &Lookups,
    class: usize,
    method: &Method,
) -> Result<Effects, NoMemory>
    ensures writes { IfOk result (λ made. (p : ProgramTree) → declared_by lookups.now ≡ declared_in p → writes_in made.writes.items ≡ flat_map (w.writes_of p) (method_statements p class (method_part method.now))) }
    ensures calls { IfOk result (λ made. (p : ProgramTree) → declared_by lookups.now ≡ declared_in p → calls_in made.calls.items ≡ flat_map (w.called_by p) (method_statements p class (method_part method.now))) }
{
    let mut at = entry(alloc, lookups, class, method)?;
    let mut gathering = Gathering {
        lookups,
        effects: Effects {
            writes: Vec::new(alloc),
            calls: Vec::new(alloc),
        },
    };
    visit_all(&mut gathering, lookups, &mut at, method.body.items())?;
    let Gathering {
        lookups: _lookups,
        effects,
    } = gathering;
    Ok(effects)
}
