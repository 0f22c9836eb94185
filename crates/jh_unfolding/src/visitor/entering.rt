#![tactic(auto, unfolding(jh_ast::specs::Bare::method_part))]

ghost use Rattle.std.specs.Prelude.{◌≡◌, [], IfOk, OnOk};
ghost use Rattle.jh_ast.specs.Bare.{method_part};
ghost use Rattle.jh_ast.specs.Programs.{ProgramTree};
ghost use Rattle.jh_rules.specs.Names.{declared_in};
ghost use Rattle.jh_rules.specs.Scopes as scopes;
ghost use Rattle.jh_symbols.specs.scopes.Lookings.{declared_by, scope_by};
ghost use Rattle.jh_vars.specs.Statements.{entry_scope};

use jh_ast::{Method, Param};
use jh_name::NoMemory;
use jh_symbols::scopes::{Lookups, ScopeTable};
use jh_type::method_bodies::outermost;
use std::alloc::Global;

/// Declares parameters, each where those before it are.
fn declare_all(lookups: &Lookups, at: &mut ScopeTable, params: &[Param]) -> Result<(), NoMemory>
    ensures { OnOk result (scope_by at.new ≡ scopes.declare_all (declared_by lookups.now) (scope_by at.old) params.now) }
{
    for param in params.iter() {
        at.declare(lookups, param, true)?;
    }
    Ok(())
}

/// The scope of the first statement of a method.
pub fn entry(
    alloc: Global,
    lookups: &Lookups,
    class: usize,
    method: &Method,
) -> Result<ScopeTable, NoMemory>
    ensures { IfOk result (λ at. (p : ProgramTree) → declared_by lookups.now ≡ declared_in p → scope_by at ≡ entry_scope p class (method_part method.now)) }
{
    let mut at = outermost(alloc, class, method.fixed);
    declare_all(lookups, &mut at, method.params.items())?;
    Ok(at)
}
