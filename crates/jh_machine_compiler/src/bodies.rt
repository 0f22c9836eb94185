#![tactic(auto, using(crate::proofs::BodySteps::body_steps))]

ghost use Rattle.std.specs.Prelude.{List, IfOk, map};
ghost use Rattle.jh_name.specs.declared.naming.Name.{Name};
ghost use Rattle.jh_arena.specs.table.Entries.{Listing};
ghost use Rattle.jh_ast.specs.Programs.{ProgramTree};
ghost use Rattle.jh_arena.specs.table.Growth.{Grows, Extends};
ghost use Rattle.jh_semantics.specs.Program.{Program};
ghost use Rattle.jh_semantics.specs.typed_code.Statements.{method_in};
ghost use Rattle.jh_command_statements.specs.checks.Told.{AreFormulas};
ghost use Rattle.jh_machine_code.specs.code.Steps.{AreBodies};
ghost use Rattle.jh_machine_compiler.specs.Lasting.{HasParams, MakesBody, MakesBodies};
ghost use Rattle.jh_machine_compiler.specs.Sources.{numbered_in, HasMethods};

use crate::source::Source;
use crate::steps::steps_of;
use jh_arena::table::Table;
use jh_machine_code::code::Body;
use jh_machine_code::entry_state::{steps_recall, steps_that_recall_nothing};
use jh_machine_code::numbering::name_number;
use jh_name::{NoMemory, Row};
use jh_semantics::typed_code::{Local, MethodCode};
use jh_store::memory::Names;
use std::alloc::Global;

/// The numbers of the names of parameters.
fn params_of(alloc: Global, names: &mut Names, params: &[Local]) -> Result<Row<usize>, NoMemory>
    ensures are { IfOk result (HasParams names.new params.now) }
    ensures grows { Grows names.old names.new }
{
    let mut made = Vec::new(alloc);
    for param in params {
        let number = name_number(alloc, names, &param.name)?;
        made.push(number)?;
    }
    Ok(Row::of(made))
}

/// The body of a method, which keeps the state at its entry where its formulas may read it.
fn body_of(
    alloc: Global,
    source: &Source<'_>,
    names: &mut Names,
    table: &mut Table,
    method: &MethodCode,
) -> Result<Body, NoMemory>
    ensures is { IfOk result (λ made. (p : ProgramTree) → AreFormulas p table.old source.now.formulas.now → MakesBody (numbered_in source.now) names.new table.new (method_in p method.now) made) }
    ensures names { Grows names.old names.new }
    ensures table { Extends table.old table.new }
{
    let params = params_of(alloc, names, method.params.items())?;
    let steps = steps_of(alloc, source, names, table, method.body.items())?;
    let keeps_entry = steps_recall(table, steps.items());
    steps_that_recall_nothing();
    Ok(Body {
        params,
        steps,
        keeps_entry,
    })
}

/// The bodies of the methods of a source, each at the method's number.
fn all_bodies(
    alloc: Global,
    source: &Source<'_>,
    names: &mut Names,
    table: &mut Table,
) -> Result<Vec<Body>, NoMemory>
    ensures are { IfOk result (λ made. (p : ProgramTree) → AreFormulas p table.old source.now.formulas.now → MakesBodies (numbered_in source.now) names.new table.new (map (method_in p) source.now.methods.now) made.items) }
    ensures names { Grows names.old names.new }
    ensures table { Extends table.old table.new }
{
    let mut made = Vec::new(alloc);
    for method in source.methods {
        let body = body_of(alloc, source, names, table, method)?;
        made.push(body)?;
    }
    Ok(made)
}

/// The bodies of the methods of a source, each at the method's number. They are those of every program that has these
/// methods, also when names get further numbers and the table further nodes.
pub fn bodies_of(
    alloc: Global,
    source: &Source<'_>,
    names: &mut Names,
    table: &mut Table,
) -> Result<Vec<Body>, NoMemory>
    ensures bodies { IfOk result (λ made. (p : ProgramTree) (q : Program) → AreFormulas p table.old source.now.formulas.now → HasMethods p source.now q → (later : List Name) (u : Listing) → Grows names.new later → Extends table.new u → AreBodies later u (numbered_in source.now) made.items q) }
    ensures names { Grows names.old names.new }
    ensures table { Extends table.old table.new }
{
    all_bodies(alloc, source, names, table)
}
