ghost use Rattle.std.specs.Prelude.{◌≡◌, IfOk};
ghost use Rattle.jh_arena.specs.table.Growth.{Grows, Extends};
ghost use Rattle.jh_machine_compiler.specs.jh_command_statements.checks.Told.{AreFormulas};
ghost use Rattle.jh_outline.specs.jh_method_commands.environment.Outlines.{program_in, source_of};
ghost use Rattle.jh_run.specs.preparation.Ready.{IsReady, HasSteps};

use jh_arena::table::Table;
use jh_exec::jh_machine_code::code::Body;
use jh_exec::jh_machine_code::numbering::text_number;
use jh_heap_layout::layout::places_of;
use jh_heap_layout::loading::Places;
use jh_machine::slots::{homes_of, locals_of};
use jh_machine_compiler::{Source, bodies_of};
use jh_name::NoMemory;
use jh_outline::jh_method_commands::environment::Outline;
use jh_store::memory::Names;
use jh_store::state_pairs::Home;
use std::alloc::Global;

/// What a run needs of a program, beside the table of its formulas: the names by their numbers, the bodies of the methods at
/// the methods' numbers, where the names of the table have their values, which names are no state, where memory has what heaps
/// list, and the number of `this`.
#[derive(Drop)]
pub struct Ready {
    pub names: Names,
    pub methods: Vec<Body>,
    pub homes: Vec<Home>,
    pub locals: Vec<usize>,
    pub places: Places,
    pub this: usize,
}

/// The bodies of the methods, the places of what heaps list, and the number of `this`.
#[derive(Drop)]
struct Steps {
    methods: Vec<Body>,
    places: Places,
    this: usize,
}

/// All but what hangs on the names at the end.
fn steps_of(
    alloc: Global,
    outline: &Outline<'_>,
    names: &mut Names,
    table: &mut Table,
) -> Result<Steps, NoMemory>
    requires { AreFormulas (source_of outline.now) table.old outline.now.formulas.now }
    ensures steps { IfOk result (λ made. HasSteps outline.now names.new table.new made.methods.items made.places made.this) }
    ensures grows { Extends table.old table.new }
{
    let source = Source {
        formulas: outline.formulas,
        numbers: outline.numbers,
        methods: outline.methods,
    };
    let methods = bodies_of(alloc, &source, names, table)?;
    let places = places_of(alloc, names, outline.classes, outline.members)?;
    let this = text_number(alloc, names, "this")?;
    Ok(Steps {
        methods,
        places,
        this,
    })
}

/// What a run needs of a program. What the table held stays in its place, after any answer.
pub fn ready_of(alloc: Global, outline: &Outline<'_>, table: &mut Table) -> Result<Ready, NoMemory>
    requires { AreFormulas (source_of outline.now) table.old outline.now.formulas.now }
    ensures ready { IfOk result (IsReady outline.now table.new) }
    ensures grows { Extends table.old table.new }
{
    let mut names = Names::new(alloc);
    let Steps {
        methods,
        places,
        this,
    } = steps_of(alloc, outline, &mut names, table)?;
    let homes = homes_of(alloc, table, &mut names)?;
    let locals = locals_of(alloc, &names)?;
    Ok(Ready {
        names,
        methods,
        homes,
        locals,
        places,
        this,
    })
}
