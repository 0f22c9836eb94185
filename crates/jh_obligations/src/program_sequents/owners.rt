#![tactic(auto, unfolding(jh_ast::specs::Bare::class_part, jh_ast::specs::Bare::method_part, jh_ast::specs::Bare::program_tree))]

ghost use Rattle.std.specs.Prelude.{◌≡◌, ◌++◌, ◌∷◌, [], map, IfOk, OnOk};
ghost use Rattle.jh_ast.specs.Bare.{method_part, program_tree};
ghost use Rattle.jh_outline.specs.jh_effects.written_state.Methods.{gathered_from};
ghost use Rattle.jh_obligations.specs.program_sequents.Owing.{method_owing, owing_in, owing_of};

use jh_ast::{Method, Program};
use jh_name::{MethodId, NoMemory};
use std::alloc::Global;

/// A method by its number, with its own name.
#[derive(Clone, Copy)]
pub struct Owner<'a> {
    pub id: MethodId,
    pub name: &'a str,
}

/// A number as a number of 32 bits.
fn narrow(number: usize) -> Result<u32, NoMemory>
    ensures { IfOk result (λ made. made ≡ number) }
{
    match u32::try_from(number) {
        Err(_) => Err(NoMemory),
        Ok(made) => Ok(made),
    }
}

/// The method of these numbers.
fn owner_of(class: usize, number: usize, method: &Method) -> Result<Owner<'_>, NoMemory>
    ensures { IfOk result (λ made. owing_in made ∷ [] ≡ method_owing class number (method_part method.now)) }
{
    let class = narrow(class)?;
    let number = narrow(number)?;
    Ok(Owner {
        id: MethodId {
            class,
            method: number,
        },
        name: method.name.text.text(),
    })
}

/// Adds the methods of a class.
fn push_methods<'a>(
    class: usize,
    methods: &'a [Method],
    made: &mut Vec<Owner<'a>>,
) -> Result<(), NoMemory>
    ensures { OnOk result (map owing_in made.new.items ≡ map owing_in made.old.items ++ gathered_from (method_owing class) 0 (map method_part methods.now)) }
{
    for number in 0..methods.len() {
        made.push(owner_of(class, number, &methods[number])?)?;
    }
    Ok(())
}

/// The methods of a program in the order of the text.
pub fn owners(alloc: Global, program: &Program) -> Result<Vec<Owner<'_>>, NoMemory>
    ensures { IfOk result (λ made. map owing_in made.items ≡ owing_of (program_tree program.now)) }
{
    let classes = program.classes.items();
    let mut made = Vec::new(alloc);
    for class in 0..classes.len() {
        push_methods(class, classes[class].methods.items(), &mut made)?;
    }
    Ok(made)
}
