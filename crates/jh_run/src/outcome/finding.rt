#![tactic(auto, unfolding(jh_ast::specs::Bare::class_part, jh_ast::specs::Bare::method_part, jh_ast::specs::Bare::program_tree))]

ghost use Rattle.std.specs.Prelude.{◌≡◌, Some, IfOk};
ghost use Rattle.std.specs.List.{list_any};
ghost use Rattle.jh_ast.specs.Bare.{method_part, program_tree};
ghost use Rattle.jh_ast.specs.declared.program.Method.{Method};
ghost use Rattle.jh_rules.specs.Words.{same_text, text_of};
ghost use Rattle.jh_run.specs.outcome.Outcomes.{has_method, is_method_in};

use jh_ast::{Method, Program};
use jh_name::NoMemory;
use jh_symbols::declarations::lookups_of;
use std::alloc::Global;

/// Whether a method has this name.
fn is_named(method: &Method, name: &str) -> bool
    ensures { result ≡ same_text (text_of (method_part method.now).name) name.now }
{
    method.name.text.text() == name
}

/// Whether one of the methods has this name.
fn is_among(methods: &[Method], name: &str) -> bool
    ensures { result ≡ list_any (λ (method : Method). same_text (text_of (method_part method).name) name.now) methods.now }
{
    methods.iter().any(|method| is_named(method, name))
}

/// Whether the class of a number has a method of this name.
fn has_in_class(program: &Program, class: usize, name: &str) -> bool
    ensures { result ≡ is_method_in (program_tree program.now) name.now (Some class) }
{
    match program.classes.items().get(class) {
        None => false,
        Some(class) => is_among(class.methods.items(), name),
    }
}

/// Whether a program has a method of this name in a class of that name.
pub fn has_method(
    alloc: Global,
    program: &Program,
    class: &str,
    name: &str,
) -> Result<bool, NoMemory>
    ensures { IfOk result (λ there. there ≡ has_method (program_tree program.now) class.now name.now) }
{
    let lookups = lookups_of(alloc, program)?;
    match lookups.class_named(class) {
        None => Ok(false),
        Some(class) => Ok(has_in_class(program, class, name)),
    }
}
