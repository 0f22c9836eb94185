#![tactic(auto, using(crate::proofs::written_state::Adding::adds_steps))]

ghost use Rattle.std.specs.Prelude.{◌≡◌, [], Some, IfOk, OnOk};
ghost use Rattle.jh_ast.specs.Bare.{method_part, program_tree};
ghost use Rattle.jh_effects.specs.direct_effects.Effects.{writes_in, calls_in, written_of};
ghost use Rattle.jh_symbols.specs.scopes.Lookings.{declared_by};
ghost use Rattle.jh_rules.specs.Names.{declared_in};
ghost use Rattle.jh_vars.specs.Written as w;
ghost use Rattle.jh_effects.specs.written_state.Arising.{ArePlaces};
ghost use Rattle.jh_effects.specs.written_state.Keys as keying;
ghost use Rattle.jh_effects.specs.written_state.Methods.{Adds, AreMethods, callee_of, callees, given_to, links_to, given_by, links_by, gathered_from, places_in};

use crate::direct_effects::{Callee, Write, effects_of};
use crate::written_state::arising::all_places;
use crate::written_state::flow::{Flow, Given, Key, Link};
use crate::written_state::keys::{class_text, key_list, member_key, set_key};
use crate::written_state::methods::{Listed, Methods, methods_of};
use crate::written_state::places::MethodPlaces;
use jh_ast::Program;
use jh_name::NoMemory;
use jh_symbols::declarations::lookups_of;
use jh_symbols::member_numbers::Numbers;
use jh_symbols::scopes::Lookups;
use std::alloc::Global;

/// The key of what is assigned.
fn key_of(alloc: Global, program: &Program, write: &Write) -> Result<Key, NoMemory>
    ensures { IfOk result (λ made. made ≡ keying.key_of (program_tree program.now) (written_of write.now)) }
{
    match write {
        Write::Allocated => set_key(alloc, "alloc", None),
        Write::Objects(class) => set_key(alloc, class_text(program, *class), Some(*class)),
        Write::PlainObjects => set_key(alloc, "Object", None),
        Write::State(class, text) => member_key(alloc, program, *class, text.text()),
    }
}

/// Gives a thing what is assigned.
fn give_all(
    alloc: Global,
    flow: &mut Flow,
    program: &Program,
    of: usize,
    writes: &[Write],
) -> Result<(), NoMemory>
    ensures { OnOk result (Adds flow.old flow.new (given_to (program_tree program.now) of (writes_in writes.now)) []) }
{
    for write in writes {
        let what = key_of(alloc, program, write)?;
        flow.given.push(Given { of, what })?;
    }
    Ok(())
}

/// Links the methods that are called to one that calls them.
fn link_all(flow: &mut Flow, numbers: &Numbers, to: usize, calls: &[Callee]) -> Result<(), NoMemory>
    ensures { OnOk result (Adds flow.old flow.new [] (links_to numbers.now to (calls_in calls.now))) }
{
    for call in calls {
        match numbers.number(call.class, call.name.text()) {
            None => {}
            Some(from) => flow.links.push(Link { from, to })?,
        }
    }
    Ok(())
}

/// Adds what a method assigns and calls itself.
fn add_method(
    alloc: Global,
    flow: &mut Flow,
    program: &Program,
    lookups: &Lookups,
    numbers: &Numbers,
    number: usize,
    listed: &Listed,
) -> Result<(), NoMemory>
    requires declared { declared_by lookups.now ≡ declared_in (program_tree program.now) }
    requires sound { w.part_of (program_tree program.now) (callee_of listed.now) ≡ Some (method_part listed.now.method.now) }
    ensures { OnOk result (Adds flow.old flow.new (given_by (program_tree program.now) number (callee_of listed.now)) (links_by (program_tree program.now) numbers.now number (callee_of listed.now))) }
{
    let effects = effects_of(alloc, lookups, listed.class, listed.method)?;
    give_all(alloc, flow, program, number, effects.writes.as_slice())?;
    link_all(flow, numbers, number, effects.calls.as_slice())
}

/// What all methods assign and call themselves.
fn flow_of(
    alloc: Global,
    program: &Program,
    lookups: &Lookups,
    methods: &Methods,
) -> Result<Flow, NoMemory>
    requires declared { declared_by lookups.now ≡ declared_in (program_tree program.now) }
    requires sound { AreMethods (program_tree program.now) methods.now.list.items }
    ensures given { IfOk result (λ made. made.given.items ≡ gathered_from (given_by (program_tree program.now)) 0 (callees methods.now.list.items)) }
    ensures links { IfOk result (λ made. made.links.items ≡ gathered_from (links_by (program_tree program.now) methods.now.numbers) 0 (callees methods.now.list.items)) }
{
    let mut flow = Flow {
        given: Vec::new(alloc),
        links: Vec::new(alloc),
    };
    let list = methods.list.as_slice();
    for number in 0..list.len() {
        add_method(
            alloc,
            &mut flow,
            program,
            lookups,
            &methods.numbers,
            number,
            &list[number],
        )?;
    }
    Ok(flow)
}

/// The state that each method of a program may write, itself or by the methods that it calls, at any depth: its places
/// in the list of the state names. The time is in proportion to the program and to all the answers.
pub fn written(alloc: Global, program: &Program) -> Result<MethodPlaces, NoMemory>
    ensures { IfOk result (λ made. (m : w.Callee) → ArePlaces (w.MayWrite (program_tree program.now) m) (w.all_state (program_tree program.now)) (places_in made m)) }
{
    let lookups = lookups_of(alloc, program)?;
    let methods = methods_of(alloc, program)?;
    let flow = flow_of(alloc, program, &lookups, &methods)?;
    let list = key_list(alloc, program)?;
    let rows = all_places(alloc, flow, methods.list.as_slice().len(), list)?;
    let Methods {
        list: _list,
        numbers,
    } = methods;
    Ok(MethodPlaces { numbers, rows })
}
