#![tactic(auto, unfolding(jh_ast::specs::Bare::method_part, jh_vars::specs::Opened::in_method))]

ghost use Rattle.std.specs.Prelude.{◌≡◌, ◌++◌, option_map, OnOk};
ghost use Rattle.std.specs.List.{flat_map};
ghost use Rattle.jh_ast.specs.Bare.{spec_part, stmt_trees, method_part};
ghost use Rattle.jh_rules.specs.Names.{kind_of_word};
ghost use Rattle.jh_symbols.specs.scopes.Lookings.{declared_by, scope_by};
ghost use Rattle.jh_vars.specs.Opened as opened;
ghost use Rattle.jh_vars.specs.Statements.{all_statements};
ghost use Rattle.jh_unfolding.specs.unfolder.Adding.{program_of, IsReady, Adds, Unfolds};

use crate::unfolder::formulas::{Gathered, add_some, inside};
use crate::unfolder::statements::Unfolding;
use crate::visitor::{entry, visit_all};
use jh_ast::{Method, Stmt};
use jh_definitions::jh_resolution::Context;
use jh_name::NoMemory;
use jh_symbols::scopes::{ScopeTable, kind_of_word};
use std::alloc::Global;

/// Adds `requires` and `ensures` of a method.
fn add_contract(visitor: &mut Unfolding, at: &ScopeTable, method: &Method) -> Result<(), NoMemory>
    requires { IsReady visitor.old.gathered.table visitor.old.context }
    ensures ready { OnOk result (IsReady visitor.new.gathered.table visitor.new.context) }
    ensures context { OnOk result (visitor.new.context ≡ visitor.old.context) }
    ensures adds { OnOk result (Adds (program_of visitor.old.context) visitor.old.gathered visitor.new.gathered (opened.valued_some (program_of visitor.old.context) (opened.inside (kind_of_word method.now.result) (scope_by at.now)) (option_map spec_part method.now.pre) ++ opened.valued_some (program_of visitor.old.context) (opened.inside (kind_of_word method.now.result) (scope_by at.now)) (option_map spec_part method.now.post))) }
{
    let spot = inside(at, kind_of_word(&method.result));
    add_some(&mut visitor.gathered, &visitor.context, &spot, &method.pre)?;
    add_some(&mut visitor.gathered, &visitor.context, &spot, &method.post)?;
    Ok(())
}

/// Adds the formulas of the statements of a method.
fn add_body(visitor: &mut Unfolding, at: &mut ScopeTable, body: &[Stmt]) -> Result<(), NoMemory>
    requires { IsReady visitor.old.gathered.table visitor.old.context }
    ensures ready { OnOk result (IsReady visitor.new.gathered.table visitor.new.context) }
    ensures context { OnOk result (visitor.new.context ≡ visitor.old.context) }
    ensures adds { OnOk result (Adds (program_of visitor.old.context) visitor.old.gathered visitor.new.gathered (flat_map (opened.values_of (program_of visitor.old.context)) (all_statements (declared_by visitor.old.context.lookups.now) (stmt_trees body.now) (scope_by at.old)))) }
{
    let lookups = visitor.context.lookups;
    visit_all(visitor, lookups, at, body)?;
    Ok(())
}

/// Adds the formulas of a method.
pub fn add_method(
    alloc: Global,
    visitor: &mut Unfolding,
    class: usize,
    method: &Method,
) -> Result<(), NoMemory>
    requires { IsReady visitor.old.gathered.table visitor.old.context }
    ensures ready { OnOk result (IsReady visitor.new.gathered.table visitor.new.context) }
    ensures context { OnOk result (visitor.new.context ≡ visitor.old.context) }
    ensures adds { OnOk result (Adds (program_of visitor.old.context) visitor.old.gathered visitor.new.gathered (opened.in_method (program_of visitor.old.context) class (method_part method.now))) }
{
    let mut at = entry(alloc, visitor.context.lookups, class, method)?;
    add_contract(visitor, &at, method)?;
    add_body(visitor, &mut at, method.body.items())?;
    Ok(())
}
