#![tactic(auto, using(crate::proofs::written_state::Adding::adds_steps))]

ghost use Rattle.std.specs.Prelude.{◌≡◌, ◌<◌, ◌+◌, ◌++◌, ℕ, Some, length, slice_get, IfOk, OnOk};
ghost use Rattle.jh_ast.specs.Bare.{method_part, program_tree};
ghost use Rattle.jh_ast.specs.Programs.{MethodPart};
ghost use Rattle.jh_symbols.specs.scopes.Lookings.{declared_by};
ghost use Rattle.jh_definitions.specs.declared.expansion.opening.Definition.{Definition};
ghost use Rattle.jh_definitions.specs.expansion.Opening.{AreDefinitions, IsDefinition, defined_by};
ghost use Rattle.jh_definitions.specs.dependency_order.Answered.{AreOrdered};
ghost use Rattle.jh_name.specs.declared.place.Place.{Place};
ghost use Rattle.jh_rules.specs.Breaks.{Breaks};
ghost use Rattle.jh_rules.specs.Names.{declared_in};
ghost use Rattle.jh_vars.specs.Reading.{IsAcyclic};
ghost use Rattle.jh_vars.specs.Written as w;
ghost use Rattle.jh_effects.specs.written_state.Arising.{ArePlaces};
ghost use Rattle.jh_effects.specs.written_state.Methods.{Adds, AreMethods, callee_of, callees, gathered_from, places_in};
ghost use Rattle.jh_effects.specs.modified_state.Modifying.{AreCounted, AreAllCounted, given_named, link_named, given_read, link_read, variables_of};

use crate::modified_state::naming::{add_states, states_named};
use crate::written_state::{
    Flow, Listed, MethodPlaces, Methods, first_places, key_list, methods_of,
};
use jh_ast::Program;
use jh_definitions::dependency_order::{Opening, in_order};
use jh_definitions::expansion::Definition;
use jh_definitions::reads::{Reading, add_reads};
use jh_name::NoMemory;
use jh_symbols::declarations::lookups_of;
use jh_symbols::member_numbers::Numbers;
use jh_symbols::scopes::Lookups;
use jh_type::checker::Typed;
use std::alloc::Global;

/// A sum, which fits where there is memory for so many things.
fn sum(left: usize, right: usize) -> Result<usize, NoMemory>
    ensures { IfOk result (λ made. made ≡ left + right) }
{
    match left.checked_add(right) {
        None => Err(NoMemory),
        Some(made) => Ok(made),
    }
}

/// The numbers of definitions: their places, from a number on.
fn count_definitions(
    alloc: Global,
    classes: usize,
    definitions: &[Definition],
    start: usize,
) -> Result<Numbers, NoMemory>
    requires { (k : ℕ) (d : Definition) → slice_get definitions.now k ≡ Some d → d.class < classes }
    ensures counted { IfOk result (λ made. AreCounted start made definitions.now) }
    ensures all { IfOk result (λ made. AreAllCounted made definitions.now) }
{
    let mut numbers = Numbers::none(alloc, classes)?;
    for at in 0..definitions.len() {
        let definition = &definitions[at];
        let number = sum(start, at)?;
        numbers.put(alloc, definition.class, definition.word.text.text(), number)?;
    }
    Ok(numbers)
}

/// Adds the state that a method names.
fn add_method(
    alloc: Global,
    flow: &mut Flow,
    program: &Program,
    lookups: &Lookups,
    numbers: &Numbers,
    number: usize,
    listed: &Listed,
) -> Result<(), NoMemory>
    requires declared { declared_by lookups.now ≡ declared_in (program_tree program.now) }
    requires sound { w.part_of (program_tree program.now) (callee_of listed.now) ≡ Some (method_part listed.now.method.now) }
    ensures { OnOk result (Adds flow.old flow.new (given_named (program_tree program.now) number (callee_of listed.now)) (link_named (program_tree program.now) numbers.now number (callee_of listed.now))) }
{
    let named = states_named(alloc, lookups, listed.class, listed.method.modifies.items())?;
    add_states(
        alloc,
        flow,
        program,
        numbers,
        false,
        number,
        named.as_slice(),
    )
}

/// Adds the state that a definition reads.
fn add_definition(
    alloc: Global,
    flow: &mut Flow,
    program: &Program,
    lookups: &Lookups,
    numbers: &Numbers,
    number: usize,
    definition: &Definition,
) -> Result<(), NoMemory>
    requires declared { declared_by lookups.now ≡ declared_in (program_tree program.now) }
    requires sound { IsDefinition (program_tree program.now) definition.now }
    ensures { OnOk result (Adds flow.old flow.new (given_read (program_tree program.now) number (defined_by definition.now)) (link_read (program_tree program.now) numbers.now number (defined_by definition.now))) }
{
    let mut reads = Vec::new(alloc);
    let at = Reading {
        lookups,
        class: definition.class,
        bound: &[],
    };
    add_reads(alloc, &mut reads, &at, definition.body)?;
    add_states(
        alloc,
        flow,
        program,
        numbers,
        true,
        number,
        reads.as_slice(),
    )
}

/// Adds the state that methods name.
fn add_methods(
    alloc: Global,
    flow: &mut Flow,
    program: &Program,
    lookups: &Lookups,
    numbers: &Numbers,
    list: &[Listed],
) -> Result<(), NoMemory>
    requires declared { declared_by lookups.now ≡ declared_in (program_tree program.now) }
    requires sound { AreMethods (program_tree program.now) list.now }
    ensures { OnOk result (Adds flow.old flow.new (gathered_from (given_named (program_tree program.now)) 0 (callees list.now)) (gathered_from (link_named (program_tree program.now) numbers.now) 0 (callees list.now))) }
{
    for number in 0..list.len() {
        add_method(
            alloc,
            flow,
            program,
            lookups,
            numbers,
            number,
            &list[number],
        )?;
    }
    Ok(())
}

/// Adds the state that definitions read, whose numbers are their places from a number on.
fn add_definitions(
    alloc: Global,
    flow: &mut Flow,
    program: &Program,
    lookups: &Lookups,
    numbers: &Numbers,
    start: usize,
    definitions: &[Definition],
) -> Result<(), NoMemory>
    requires declared { declared_by lookups.now ≡ declared_in (program_tree program.now) }
    requires sound { AreDefinitions (program_tree program.now) definitions.now }
    ensures { OnOk result (Adds flow.old flow.new (gathered_from (given_read (program_tree program.now)) start (variables_of definitions.now)) (gathered_from (link_read (program_tree program.now) numbers.now) start (variables_of definitions.now))) }
{
    for at in 0..definitions.len() {
        let number = sum(start, at)?;
        add_definition(
            alloc,
            flow,
            program,
            lookups,
            numbers,
            number,
            &definitions[at],
        )?;
    }
    Ok(())
}

/// What methods name and definitions read: methods come first, by their numbers, and then definitions.
fn flow_of(
    alloc: Global,
    program: &Program,
    lookups: &Lookups,
    list: &[Listed],
    numbers: &Numbers,
    definitions: &[Definition],
) -> Result<Flow, NoMemory>
    requires declared { declared_by lookups.now ≡ declared_in (program_tree program.now) }
    requires methods { AreMethods (program_tree program.now) list.now }
    requires definitions { AreDefinitions (program_tree program.now) definitions.now }
    ensures given { IfOk result (λ made. made.given.items ≡ gathered_from (given_named (program_tree program.now)) 0 (callees list.now) ++ gathered_from (given_read (program_tree program.now)) (length list.now) (variables_of definitions.now)) }
    ensures links { IfOk result (λ made. made.links.items ≡ gathered_from (link_named (program_tree program.now) numbers.now) 0 (callees list.now) ++ gathered_from (link_read (program_tree program.now) numbers.now) (length list.now) (variables_of definitions.now)) }
{
    let mut flow = Flow {
        given: Vec::new(alloc),
        links: Vec::new(alloc),
    };
    add_methods(alloc, &mut flow, program, lookups, numbers, list)?;
    add_definitions(
        alloc,
        &mut flow,
        program,
        lookups,
        numbers,
        list.len(),
        definitions,
    )?;
    Ok(flow)
}

/// The places of what methods name, over the definitions of their program.
fn modified_over(
    alloc: Global,
    program: &Program,
    lookups: &Lookups,
    definitions: &[Definition],
) -> Result<MethodPlaces, NoMemory>
    requires declared { declared_by lookups.now ≡ declared_in (program_tree program.now) }
    requires ordered { AreOrdered (program_tree program.now) definitions.now }
    ensures { IfOk result (λ made. (m : w.Callee) (part : MethodPart) → w.part_of (program_tree program.now) m ≡ Some part → ArePlaces (w.Names (program_tree program.now) (w.named_by (program_tree program.now) m.class part)) (w.all_state (program_tree program.now)) (places_in made m)) }
{
    let methods = methods_of(alloc, program)?;
    let list = methods.list.as_slice();
    let counted = count_definitions(
        alloc,
        program.classes.items().len(),
        definitions,
        list.len(),
    )?;
    let flow = flow_of(alloc, program, lookups, list, &counted, definitions)?;
    let things = sum(list.len(), definitions.len())?;
    let rows = first_places(alloc, flow, things, list.len(), key_list(alloc, program)?)?;
    let Methods {
        list: _list,
        numbers,
    } = methods;
    Ok(MethodPlaces { numbers, rows })
}

/// The places of what methods name, of a program that breaks no type rule and whose definitions don't read themselves.
fn modified_by(
    alloc: Global,
    program: &Program,
    lookups: &Lookups,
) -> Result<MethodPlaces, NoMemory>
    requires declared { declared_by lookups.now ≡ declared_in (program_tree program.now) }
    requires typed { (rule : ℕ) (place : Place) → Breaks (program_tree program.now) rule place → ⊥ }
    requires acyclic { IsAcyclic (program_tree program.now) }
    ensures { IfOk result (λ made. (m : w.Callee) (part : MethodPart) → w.part_of (program_tree program.now) m ≡ Some part → ArePlaces (w.Names (program_tree program.now) (w.named_by (program_tree program.now) m.class part)) (w.all_state (program_tree program.now)) (places_in made m)) }
{
    match in_order(alloc, lookups, program.classes.items())? {
        Opening::Cyclic(_word) => unreachable!(),
        Opening::Ordered(definitions) => {
            modified_over(alloc, program, lookups, definitions.as_slice())
        }
    }
}

/// The state that `modifies` of each method names, where a variable with a definition stands for all that the
/// definition reads, through others too: its places in the list of the state names. Each method is walked from, so the
/// time is in proportion to the program and, for each method, to the definitions that it reaches and what they read.
pub fn modified(alloc: Global, typed: &Typed) -> Result<MethodPlaces, NoMemory>
    requires { IsAcyclic (program_tree typed.now) }
    ensures { IfOk result (λ made. (m : w.Callee) (part : MethodPart) → w.part_of (program_tree typed.now) m ≡ Some part → ArePlaces (w.Names (program_tree typed.now) (w.named_by (program_tree typed.now) m.class part)) (w.all_state (program_tree typed.now)) (places_in made m)) }
{
    let program = typed.program();
    let lookups = lookups_of(alloc, program)?;
    modified_by(alloc, program, &lookups)
}
