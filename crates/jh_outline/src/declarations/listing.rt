#![tactic(auto, unfolding(jh_ast::specs::Bare::class_part, jh_ast::specs::Bare::method_part, jh_ast::specs::Bare::program_tree))]

ghost use Rattle.std.specs.Prelude.{◌≡◌, ◌++◌, map, IfOk, OnOk};
ghost use Rattle.jh_ast.specs.Bare.{class_part, method_part};
ghost use Rattle.jh_vars.specs.Written.{Callee};
ghost use Rattle.jh_semantics.specs.LoweredProgram as lowered;
ghost use Rattle.jh_lowering.specs.Lowering.{IsDeclared, source_of};
ghost use Rattle.jh_outline.specs.declarations.Methods.{found, known_in, known_of, methods_from, methods_of};

use crate::declarations::classes::copied;
use jh_ast::{Class, Method};
use jh_lowering::{Context, method_code};
use jh_name::{NoMemory, Text};
use jh_semantics::typed_code::MethodCode;
use std::alloc::Global;

/// The code of a method, with the number of its class and its own name.
#[derive(Drop)]
pub struct ClassMethod {
    pub class: usize,
    pub name: Text,
    pub code: MethodCode,
}

/// A method of a class.
fn class_method(
    alloc: Global,
    context: &Context,
    class: usize,
    method: &Method,
) -> Result<ClassMethod, NoMemory>
    requires { IsDeclared context.now }
    ensures { IfOk result (λ made. known_in (source_of context.now) made ≡ known_of (source_of context.now) class (method_part method.now)) }
{
    let name = copied(alloc, method.name.text.text())?;
    let code = method_code(alloc, context, class, method)?;
    Ok(ClassMethod { class, name, code })
}

/// Adds the methods of a class.
fn push_methods(
    alloc: Global,
    context: &Context,
    class: usize,
    methods: &[Method],
    made: &mut Vec<ClassMethod>,
) -> Result<(), NoMemory>
    requires { IsDeclared context.now }
    ensures { OnOk result (map (known_in (source_of context.now)) made.new.items ≡ map (known_in (source_of context.now)) made.old.items ++ map (known_of (source_of context.now) class) (map method_part methods.now)) }
{
    for method in methods.iter() {
        let known = class_method(alloc, context, class, method)?;
        made.push(known)?;
    }
    Ok(())
}

/// The methods of some classes, which are those of the program from its first on.
fn methods_in(
    alloc: Global,
    context: &Context,
    classes: &[Class],
) -> Result<Vec<ClassMethod>, NoMemory>
    requires { IsDeclared context.now }
    ensures { IfOk result (λ made. map (known_in (source_of context.now)) made.items ≡ methods_from (source_of context.now) 0 (map class_part classes.now)) }
{
    let mut made = Vec::new(alloc);
    for class in 0..classes.len() {
        push_methods(
            alloc,
            context,
            class,
            classes[class].methods.items(),
            &mut made,
        )?;
    }
    Ok(made)
}

/// The code of the methods of a program, class by class in the order of the text. The method of a callee is the first
/// that has its class and its name.
pub fn methods(alloc: Global, context: &Context) -> Result<Vec<ClassMethod>, NoMemory>
    requires { IsDeclared context.now }
    ensures list { IfOk result (λ made. map (known_in (source_of context.now)) made.items ≡ methods_of (source_of context.now)) }
    ensures found { IfOk result (λ made. (m : Callee) → found m (map (known_in (source_of context.now)) made.items) ≡ (lowered.program_of (source_of context.now)).method m) }
{
    methods_in(alloc, context, context.program.classes.items())
}
