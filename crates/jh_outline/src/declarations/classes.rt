#![tactic(auto, unfolding(jh_ast::specs::Bare::class_part, jh_ast::specs::Bare::program_tree))]

ghost use Rattle.std.specs.Prelude.{◌≡◌, map, IfOk};
ghost use Rattle.jh_ast.specs.Bare.{class_part, program_tree};
ghost use Rattle.jh_rules.specs.Words.{text_of};
ghost use Rattle.jh_semantics.specs.LoweredProgram as lowered;

use jh_ast::{Class, Program};
use jh_name::{NoMemory, Text};
use std::alloc::Global;

/// A text of its own.
pub(crate) fn copied(alloc: Global, text: &str) -> Result<Text, NoMemory>
    ensures { IfOk result (λ made. made ≡ text.now) }
{
    Ok(Text::of(String::from_str(alloc, text)?))
}

/// The texts of some classes.
fn texts_of(alloc: Global, classes: &[Class]) -> Result<Vec<Text>, NoMemory>
    ensures { IfOk result (λ made. made.items ≡ map (λ c. text_of c.name) (map class_part classes.now)) }
{
    let mut texts = Vec::new(alloc);
    for class in classes.iter() {
        texts.push(copied(alloc, class.name.text.text())?)?;
    }
    Ok(texts)
}

/// The texts of the classes of a program, by their numbers.
pub fn class_texts(alloc: Global, program: &Program) -> Result<Vec<Text>, NoMemory>
    ensures { IfOk result (λ made. made.items ≡ (lowered.program_of (program_tree program.now)).classes) }
{
    texts_of(alloc, program.classes.items())
}
