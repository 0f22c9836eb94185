#![tactic(auto, unfolding(jh_ast::specs::Bare::program_tree, jh_ast::specs::Bare::class_part))]

ghost use Rattle.std.specs.Prelude.{◌≡◌, map, false, IfOk, Some};
ghost use Rattle.jh_ast.specs.Bare.{program_tree};
ghost use Rattle.jh_vars.specs.Resolved.{own};
ghost use Rattle.jh_vars.specs.States as states;
ghost use Rattle.jh_vars.specs.Written.{all_state};
ghost use Rattle.jh_vars.specs.Written as w;
ghost use Rattle.jh_effects.specs.written_state.Keys.{key_of, key_of_state};

use crate::written_state::flow::Key;
use jh_ast::Program;
use jh_name::{NoMemory, name};
use jh_vars::state_names::{StateName, state_list};
use std::alloc::Global;

/// The text of the class of a number.
pub fn class_text(program: &Program, number: usize) -> &str
    ensures { result.now ≡ states.class_text (program_tree program.now) number }
{
    match program.classes.items().get(number) {
        None => "",
        Some(class) => class.name.text.text(),
    }
}

/// The key of a set of objects: those of a class, or others.
pub fn set_key(alloc: Global, text: &str, class: Option<usize>) -> Result<Key, NoMemory>
    ensures { IfOk result (λ made. made ≡ record { class = class; is_member = false; name = own text.now 0 }) }
{
    Ok(Key {
        class,
        is_member: false,
        name: name(alloc, text, 0)?,
    })
}

/// The key of a member of a class.
pub fn member_key(
    alloc: Global,
    program: &Program,
    class: usize,
    text: &str,
) -> Result<Key, NoMemory>
    ensures { IfOk result (λ made. made ≡ key_of (program_tree program.now) (w.state class text.now)) }
{
    let mut full = String::from_str(alloc, class_text(program, class))?;
    full.push_str(".")?;
    full.push_str(text)?;
    Ok(Key {
        class: Some(class),
        is_member: true,
        name: name(alloc, full.as_str(), 0)?,
    })
}

/// The key of what stands in the list of the state names.
fn key_of_state(state: StateName) -> Key
    ensures { result ≡ key_of_state state }
{
    let StateName {
        name,
        sort: _sort,
        kind: _kind,
        class,
        is_member,
        is_ghost: _is_ghost,
    } = state;
    Key {
        class,
        is_member,
        name,
    }
}

/// The keys of states.
fn keys_of(alloc: Global, states: Vec<StateName>) -> Result<Vec<Key>, NoMemory>
    ensures { IfOk result (λ made. made.items ≡ map key_of_state states.items) }
{
    let mut made = Vec::new(alloc);
    for state in states {
        made.push(key_of_state(state))?;
    }
    Ok(made)
}

/// The keys of the state names of a program, in their order.
pub fn key_list(alloc: Global, program: &Program) -> Result<Vec<Key>, NoMemory>
    ensures { IfOk result (λ made. made.items ≡ map (key_of (program_tree program.now)) (all_state (program_tree program.now))) }
{
    let states = state_list(alloc, program)?;
    keys_of(alloc, states)
}
