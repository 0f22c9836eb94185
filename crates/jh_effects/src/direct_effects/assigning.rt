#![tactic(auto, using(jh_ast::proofs::ExprSteps::expr_steps, jh_ast::proofs::FormSteps::form_steps, crate::proofs::direct_effects::Adding::adds_steps), unfolding(jh_ast::specs::Bare::rhs_tree))]

ghost use Rattle.std.specs.Prelude.{◌≡◌, ◌∷◌, [], option_map, OnOk};
ghost use Rattle.jh_ast.specs.Bare.{expr_tree, form_tree, call_tree, rhs_tree};
ghost use Rattle.jh_symbols.specs.scopes.Lookings.{declared_by, scope_by};
ghost use Rattle.jh_vars.specs.States.{called};
ghost use Rattle.jh_effects.specs.direct_effects.Effects.{Adds, class_before, named_writes, target_written, called_in, class_written, rhs_written, rhs_called, some_written, ghost_written};

use crate::direct_effects::effects::{Effects, Write};
use jh_ast::{Call, Expr, ExprBody, Rhs, SpecBody, SpecTree, Word};
use jh_definitions::jh_resolution::own_name;
use jh_name::NoMemory;
use jh_rules::{StateEntry, class_of};
use jh_symbols::scopes::{Lookups, ScopeTable, class_spelled, expr_type};
use jh_type::formula_kinds::{state_named, state_spelled};

/// The class of what stands before a dot: one that is spelled, or that of a value.
fn class_before(lookups: &Lookups, at: &ScopeTable, expr: &Expr) -> Option<usize>
    ensures { result ≡ class_before (declared_by lookups.now) (scope_by at.now) (expr_tree expr.now) }
{
    match class_spelled(lookups, at, expr) {
        Some(class) => class,
        None => match expr_type(lookups, at, expr).known {
            None => None,
            Some(ty) => class_of(ty),
        },
    }
}

/// Adds what an assignment to an expression assigns.
pub fn add_target(
    effects: &mut Effects,
    lookups: &Lookups,
    at: &ScopeTable,
    target: &Expr,
) -> Result<(), NoMemory>
    ensures { OnOk result (Adds effects.old effects.new (target_written (declared_by lookups.now) (scope_by at.now) (expr_tree target.now)) []) }
{
    match &target.body {
        ExprBody::Null => Ok(()),
        ExprBody::True => Ok(()),
        ExprBody::False => Ok(()),
        ExprBody::Number(_) => Ok(()),
        ExprBody::This => Ok(()),
        ExprBody::Name(word) => add_named(effects, at, word),
        ExprBody::Member(inner, word) => effects.write_state(
            at.alloc,
            class_before(lookups, at, inner),
            word.text.text(),
        ),
        ExprBody::Not(_) => Ok(()),
        ExprBody::Minus(_) => Ok(()),
        ExprBody::Binary(_, _, _) => Ok(()),
    }
}

/// Adds a member of the own class, unless the word names a parameter or local.
fn add_named(effects: &mut Effects, at: &ScopeTable, word: &Word) -> Result<(), NoMemory>
    ensures { OnOk result (Adds effects.old effects.new (named_writes (scope_by at.now) word.now) []) }
{
    let text = word.text.text();
    if at.local(text).is_some() {
        return Ok(());
    }
    effects.write_state(at.alloc, Some(at.class), text)
}

/// Adds the method that a call calls.
pub fn add_call(
    effects: &mut Effects,
    lookups: &Lookups,
    at: &ScopeTable,
    call: &Call,
) -> Result<(), NoMemory>
    ensures { OnOk result (Adds effects.old effects.new [] (called_in (declared_by lookups.now) (scope_by at.now) (call_tree call.now))) }
{
    let class = match &call.receiver {
        None => Some(at.class),
        Some(expr) => class_before(lookups, at, expr),
    };
    effects.call(at.alloc, class, call.method.text.text())
}

/// Adds that an object of a class is made, or one of no class.
fn add_new(effects: &mut Effects, class: Option<usize>) -> Result<(), NoMemory>
    ensures { OnOk result (Adds effects.old effects.new (class_written class) []) }
{
    effects.write(Write::Allocated)?;
    match class {
        None => effects.write(Write::PlainObjects),
        Some(class) => effects.write(Write::Objects(class)),
    }
}

/// Adds what is assigned and called by what is assigned.
pub fn add_rhs(
    effects: &mut Effects,
    lookups: &Lookups,
    at: &ScopeTable,
    rhs: &Rhs,
) -> Result<(), NoMemory>
    ensures { OnOk result (Adds effects.old effects.new (rhs_written (declared_by lookups.now) (rhs_tree rhs.now)) (rhs_called (declared_by lookups.now) (scope_by at.now) (rhs_tree rhs.now))) }
{
    match rhs {
        Rhs::Value(_) => Ok(()),
        Rhs::Call(call) => add_call(effects, lookups, at, call),
        Rhs::New(word) => add_new(effects, lookups.class_named(word.text.text())),
    }
}

/// Adds a piece of state that a word names.
fn add_state(
    effects: &mut Effects,
    at: &ScopeTable,
    state: Option<StateEntry>,
    text: &str,
) -> Result<(), NoMemory>
    ensures { OnOk result (Adds effects.old effects.new (some_written (option_map (called text.now) state)) []) }
{
    match state {
        None => Ok(()),
        Some(state) => effects.write_state(at.alloc, Some(state.class), own_name(text)),
    }
}

/// Adds the ghost variable that is assigned.
pub fn add_ghost(
    effects: &mut Effects,
    lookups: &Lookups,
    at: &ScopeTable,
    target: &SpecTree,
) -> Result<(), NoMemory>
    ensures { OnOk result (Adds effects.old effects.new (ghost_written (declared_by lookups.now) (scope_by at.now) (form_tree target.now)) []) }
{
    match &target.body {
        SpecBody::Name(word) => {
            let text = word.text.text();
            add_state(effects, at, state_spelled(lookups, at.class, text), text)
        }
        SpecBody::Member(_, word) => {
            let text = word.text.text();
            add_state(effects, at, state_named(lookups, at.class, text), text)
        }
        SpecBody::Null => Ok(()),
        SpecBody::True => Ok(()),
        SpecBody::False => Ok(()),
        SpecBody::Univ => Ok(()),
        SpecBody::Number(_) => Ok(()),
        SpecBody::Not(_) => Ok(()),
        SpecBody::Minus(_) => Ok(()),
        SpecBody::Old(_) => Ok(()),
        SpecBody::Card(_) => Ok(()),
        SpecBody::Binary(_, _, _) => Ok(()),
        SpecBody::Dvd(_, _) => Ok(()),
        SpecBody::All(_, _) => Ok(()),
        SpecBody::Ex(_, _) => Ok(()),
        SpecBody::Tree(_) => Ok(()),
        SpecBody::Rtrancl(_, _, _, _, _) => Ok(()),
        SpecBody::Braces(_) => Ok(()),
        SpecBody::Compr(_, _) => Ok(()),
    }
}
