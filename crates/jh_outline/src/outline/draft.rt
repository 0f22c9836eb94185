ghost use Rattle.std.specs.Prelude.{◌≡◌, ◌+◌, map, length, IfOk};
ghost use Rattle.jh_arena.specs.table.Growth.{Extends};
ghost use Rattle.jh_semantics.specs.Program.{Program};
ghost use Rattle.jh_logic.specs.jh_guard.Items.{items, sorted_item};
ghost use Rattle.jh_state_facts.specs.changes.Added.{sorted_in};
ghost use Rattle.jh_state_facts.specs.well_formedness.States.{members_in};
ghost use Rattle.jh_lowering.specs.Lowering.{IsDeclared, source_of};
ghost use Rattle.jh_semantics.specs.typed_code.Statements.{method_in};
ghost use Rattle.jh_effects.specs.declared.written_state.places.MethodPlaces.{MethodPlaces};
ghost use Rattle.jh_outline.specs.outline.Listing.{code_of, framed_for, places_of};
ghost use Rattle.jh_outline.specs.outline.Drafts.{AreStateFacts, IsDeclaredOf, IsDraft, IsTabled, Lends};

use crate::declarations::{class_texts, invariants, members};
use crate::outline::listing::{codes_of, framed_of, rows_of};
use jh_arena::table::Table;
use jh_ast::Program as Source;
use jh_effects::written_state::{MethodPlaces, Methods, methods_of};
use jh_lowering::Context;
use jh_method_commands::environment::Outline;
use jh_name::{NoMemory, Row, Text};
use jh_semantics::typed_code::{Claim, MethodCode};
use jh_state_facts::changes::{SortedName, state_names};
use jh_state_facts::well_formedness::{Member, StateFacts, state_facts};
use jh_symbols::member_numbers::Numbers;
use std::alloc::Global;

/// The texts of the classes of a program, its members and its invariants.
#[derive(Drop)]
pub struct Declared {
    pub classes: Vec<Text>,
    pub members: Vec<Member>,
    pub invariants: Vec<Claim>,
}

/// The methods of a program by their numbers: their code, the places of what they may write and name, and those of the
/// members that are framed.
#[derive(Drop)]
pub struct Tabled {
    pub numbers: Numbers,
    pub methods: Vec<MethodCode>,
    pub written: Vec<Row<usize>>,
    pub modified: Vec<Row<usize>>,
    pub framed: Vec<Row<usize>>,
}

/// What an outline lends.
#[derive(Drop)]
pub struct Draft {
    pub declared: Declared,
    pub tabled: Tabled,
    pub facts: StateFacts,
}

/// The classes, members and invariants of a program.
fn declared_of(alloc: Global, context: &Context) -> Result<Declared, NoMemory>
    requires { IsDeclared context.now }
    ensures { IfOk result (IsDeclaredOf (source_of context.now)) }
{
    let classes = class_texts(alloc, context.program)?;
    let members = members(alloc, context)?;
    let invariants = invariants(alloc, context.program)?;
    Ok(Declared {
        classes,
        members,
        invariants,
    })
}

/// The methods of a list by their numbers.
fn tabled_list(
    alloc: Global,
    context: &Context,
    written: &MethodPlaces,
    modified: &MethodPlaces,
    methods: Methods<'_>,
    sets: usize,
    members: usize,
) -> Result<Tabled, NoMemory>
    requires { IsDeclared context.now }
    ensures numbers { IfOk result (λ made. made.numbers ≡ methods.entry.numbers) }
    ensures codes { IfOk result (λ made. map (method_in (source_of context.now)) made.methods.items ≡ map (code_of (source_of context.now)) methods.entry.list.items) }
    ensures writes { IfOk result (λ made. made.written.items ≡ map (places_of written.now) methods.entry.list.items) }
    ensures names { IfOk result (λ made. made.modified.items ≡ map (places_of modified.now) methods.entry.list.items) }
    ensures frames { IfOk result (λ made. made.framed.items ≡ map (framed_for written.now modified.now sets members) methods.entry.list.items) }
{
    let Methods { list, numbers } = methods;
    let codes = codes_of(alloc, context, list.as_slice())?;
    let rows = rows_of(alloc, written, list.as_slice())?;
    let named = rows_of(alloc, modified, list.as_slice())?;
    let framed = framed_of(alloc, written, modified, list.as_slice(), sets, members)?;
    Ok(Tabled {
        numbers,
        methods: codes,
        written: rows,
        modified: named,
        framed,
    })
}

/// How many sets of objects there are: `alloc`, those of the classes, and `Object`.
fn count_sets(classes: usize) -> Result<usize, NoMemory>
    ensures { IfOk result (λ made. made ≡ classes + 2) }
{
    match classes.checked_add(2) {
        None => Err(NoMemory),
        Some(sets) => Ok(sets),
    }
}

/// The methods of a program by their numbers.
fn tables_of(
    alloc: Global,
    context: &Context,
    written: &MethodPlaces,
    modified: &MethodPlaces,
    declared: &Declared,
) -> Result<Tabled, NoMemory>
    requires { IsDeclared context.now }
    ensures { IfOk result (IsTabled (source_of context.now) written.now modified.now declared.now) }
{
    let sets = count_sets(declared.classes.len())?;
    let methods = methods_of(alloc, context.program)?;
    tabled_list(
        alloc,
        context,
        written,
        modified,
        methods,
        sets,
        declared.members.len(),
    )
}

/// The facts of each state of a program.
fn facts_of(table: &mut Table, declared: &Declared) -> Result<StateFacts, NoMemory>
    ensures facts { IfOk result (AreStateFacts table.new declared.now) }
    ensures grows { Extends table.old table.new }
{
    state_facts(
        table,
        declared.classes.as_slice(),
        declared.members.as_slice(),
    )
}

/// The draft of a program, from the places of what its methods may write and of what their `modifies` name.
pub fn draft_of(
    alloc: Global,
    table: &mut Table,
    context: &Context,
    written: &MethodPlaces,
    modified: &MethodPlaces,
) -> Result<Draft, NoMemory>
    requires { IsDeclared context.now }
    ensures draft { IfOk result (IsDraft (source_of context.now) written.now modified.now table.new) }
    ensures grows { Extends table.old table.new }
{
    let declared = declared_of(alloc, context)?;
    let tabled = tables_of(alloc, context, written, modified, &declared)?;
    let facts = facts_of(table, &declared)?;
    Ok(Draft {
        declared,
        tabled,
        facts,
    })
}

impl Draft {
    /// The names of all state in their order.
    pub fn state(&self, alloc: Global) -> Result<Vec<SortedName<'_>>, NoMemory>
        ensures { IfOk result (λ made. (p : Program) → p.classes ≡ self.now.declared.classes.items → p.members ≡ members_in self.now.declared.classes.items self.now.declared.members.items → sorted_in made.items ≡ map sorted_item (items p)) }
    {
        state_names(
            alloc,
            self.declared.classes.as_slice(),
            self.declared.members.as_slice(),
        )
    }

    /// The outline of the program, with the names of all state and the nodes of its formulas.
    pub fn outline<'a>(
        &'a self,
        source: &'a Source,
        state: &'a [SortedName<'a>],
        formulas: &'a [Option<usize>],
    ) -> Outline<'a>
        ensures lends { Lends self.now result }
        ensures source { result.source.now ≡ source.now }
        ensures state { result.state.now ≡ state.now }
        ensures formulas { result.formulas.now ≡ formulas.now }
    {
        Outline {
            source,
            classes: self.declared.classes.as_slice(),
            members: self.declared.members.as_slice(),
            invariants: self.declared.invariants.as_slice(),
            numbers: &self.tabled.numbers,
            methods: self.tabled.methods.as_slice(),
            written: self.tabled.written.as_slice(),
            modified: self.tabled.modified.as_slice(),
            framed: self.tabled.framed.as_slice(),
            facts: &self.facts,
            state,
            formulas,
        }
    }
}
