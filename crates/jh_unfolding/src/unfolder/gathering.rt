ghost use Rattle.std.specs.Prelude.{◌≡◌, ℕ, List, [], None, IfOk, OnOk};
ghost use Rattle.jh_rules.specs.Names.{declared_in};
ghost use Rattle.jh_symbols.specs.scopes.Lookings.{declared_by, scope_by};
ghost use Rattle.jh_definitions.specs.expansion.Opening.{source_of};
ghost use Rattle.jh_definitions.specs.dependency_order.Answered.{AreOrdered};
ghost use Rattle.jh_arena.specs.table.Nodes.{nodes};
ghost use Rattle.jh_unfolding.specs.unfolder.Adding.{program_of, IsReady, AreKnown};
ghost use Rattle.jh_unfolding.specs.unfolder.Holding.{AreOpened};

use crate::unfolder::classes::add_classes;
use crate::unfolder::formulas::Gathered;
use crate::unfolder::places::Places;
use crate::unfolder::statements::Unfolding;
use jh_arena::table::Table;
use jh_ast::Class;
use jh_definitions::expansion::{Definition, opened};
use jh_definitions::jh_resolution::Context;
use jh_name::NoMemory;
use jh_symbols::member_numbers::Numbers;
use jh_symbols::scopes::{Lookups, ScopeTable};
use jh_type::method_bodies::outermost;
use std::alloc::Global;

/// A table and what the variables of a program stand for in it.
#[derive(Drop)]
struct Begun {
    table: Table,
    meanings: Numbers,
}

/// Opens the definitions of a program, in an order in which each reads only those before it.
fn begin(
    alloc: Global,
    lookups: &Lookups,
    classes: &[Class],
    at: &ScopeTable,
    definitions: &[Definition],
) -> Result<Begun, NoMemory>
    requires declared { declared_by lookups.now ≡ declared_in (source_of classes.now) }
    requires outside { (x : List ℕ) → (scope_by at.now).local x ≡ None }
    requires ordered { AreOrdered (source_of classes.now) definitions.now }
    ensures { IfOk result (λ made. AreKnown (source_of classes.now) (nodes made.table) made.meanings) }
{
    let mut table = Table::new(alloc)?;
    let meanings = opened(&mut table, lookups, classes, at, definitions)?;
    Ok(Begun { table, meanings })
}

/// The formulas of a program, over what its variables stand for in a table.
fn gather_in(
    alloc: Global,
    context: Context,
    at: &ScopeTable,
    table: Table,
) -> Result<Gathered, NoMemory>
    requires ready { IsReady table context }
    requires outside { (x : List ℕ) → (scope_by at.now).local x ≡ None }
    ensures { IfOk result (λ made. AreOpened (program_of context.entry) made.table made.places) }
{
    let places = Places::new(alloc);
    let mut visitor = Unfolding {
        context,
        gathered: Gathered { table, places },
    };
    add_classes(alloc, &mut visitor, at, context.classes)?;
    let Unfolding {
        context: _context,
        gathered,
    } = visitor;
    Ok(gathered)
}

/// The formulas of a program, over its definitions in an order in which each reads only those before it.
pub fn gather(
    alloc: Global,
    lookups: &Lookups,
    classes: &[Class],
    definitions: &[Definition],
) -> Result<Gathered, NoMemory>
    requires declared { declared_by lookups.now ≡ declared_in (source_of classes.now) }
    requires ordered { AreOrdered (source_of classes.now) definitions.now }
    ensures { IfOk result (λ made. AreOpened (source_of classes.now) made.table made.places) }
{
    let at = outermost(alloc, 0, true);
    let begun = begin(alloc, lookups, classes, &at, definitions)?;
    let Begun { table, meanings } = begun;
    let context = Context {
        lookups,
        classes,
        meanings: &meanings,
    };
    gather_in(alloc, context, &at, table)
}
