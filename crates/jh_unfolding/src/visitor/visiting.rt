ghost use Rattle.std.specs.Prelude.{OnOk};
ghost use Rattle.jh_ast.specs.Bare.{stmt_tree};
ghost use Rattle.jh_symbols.specs.scopes.Lookings.{scope_by};
ghost use Rattle.jh_vars.specs.Statements.{InScope, standing};

use jh_ast::Stmt;
use jh_name::NoMemory;
use jh_symbols::scopes::ScopeTable;

/// What goes from statement to statement.
pub trait Visit {
    /// That it can go on.
    ghost ready: { Self → Type 0 };

    /// What it may become by the visit of a statement.
    ghost step: { Self → Self → InScope → Type 0 };

    /// Visits a statement, and not those inside it.
    fn visit(&mut self, at: &ScopeTable, stmt: &Stmt) -> Result<(), NoMemory>
        requires { ready self.old }
        ensures ready { OnOk result (ready self.new) }
        ensures visited { OnOk result (step self.old self.new (standing (scope_by at.now) (stmt_tree stmt.now))) };
}
