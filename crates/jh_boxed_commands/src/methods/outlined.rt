#![tactic(auto, using(jh_arena::proofs::table::Listed::growth_steps))]

ghost use Rattle.std.specs.Prelude.{◌≡◌, None, Some, IfOk};
ghost use Rattle.jh_arena.specs.table.Growth.{Extends};
ghost use Rattle.jh_semantics.specs.typed_code.Statements.{method_in};
ghost use Rattle.jh_semantics.specs.Program.{Method};
ghost use Rattle.jh_outline.specs.jh_method_commands.environment.Outlines.{IsCallable, IsOutline, callee_of, program_in, source_of, writes_in};
ghost use Rattle.jh_boxed_commands.specs.methods.Methods.{IsCommandOf};

use crate::commands::{MethodCommand, boxed_command};
use jh_arena::table::Table;
use jh_export::boxed_formula;
use jh_name::NoMemory;
use jh_outline::jh_method_commands::commands::of_method;
use jh_outline::jh_method_commands::environment::{Callable, Outline};

/// The command of a method of an outline.
fn boxed(
    table: &mut Table,
    outline: &Outline<'_>,
    method: &Callable<'_>,
) -> Result<MethodCommand, NoMemory>
    requires outline { IsOutline table.old outline.now }
    requires method { IsCallable outline.now method.now }
    ensures command { IfOk result (λ made. IsCommandOf (program_in outline.now) (writes_in outline.now) (callee_of method.now) (method_in (source_of outline.now) method.now.code.now) made) }
    ensures grows { Extends table.old table.new }
{
    let made = of_method(table, outline, method)?;
    let body = boxed_command(table, &made.body)?;
    let returned = boxed_formula(table, made.returned)?;
    Ok(MethodCommand { body, returned })
}

/// The command of the method of a class and a name, which is there.
pub(crate) fn boxed_method(
    table: &mut Table,
    outline: &Outline<'_>,
    class: usize,
    name: &str,
) -> Result<MethodCommand, NoMemory>
    requires outline { IsOutline table.old outline.now }
    requires there { (program_in outline.now).method (record { class = class; name = name.now }) ≡ None → ⊥ }
    ensures command { IfOk result (λ made. (code : Method) × ((program_in outline.now).method (record { class = class; name = name.now }) ≡ Some code) × IsCommandOf (program_in outline.now) (writes_in outline.now) (record { class = class; name = name.now }) code made) }
    ensures grows { Extends table.old table.new }
{
    match outline.callable(class, name) {
        None => unreachable!(),
        Some(method) => boxed(table, outline, &method),
    }
}
