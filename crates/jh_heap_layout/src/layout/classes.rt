ghost use Rattle.std.specs.Prelude.{◌≡◌, IfOk};
ghost use Rattle.jh_semantics.specs.Program as runs;
ghost use Rattle.jh_semantics.specs.WellFormed.{all_classes};
ghost use Rattle.jh_heap.specs.text.Held.{texts_in};

use jh_name::{NoMemory, Text};
use std::alloc::Global;

/// The text of the class of a number.
pub(crate) fn class_at(classes: &[Text], number: usize) -> &str
    ensures { result.now ≡ runs.class_at classes.now number }
{
    match classes.get(number) {
        None => "",
        Some(class) => class.text(),
    }
}

/// The texts of the classes, with that of the plain objects as the last.
pub(crate) fn all_texts<'a>(alloc: Global, classes: &'a [Text]) -> Result<Vec<&'a str>, NoMemory>
    ensures { IfOk result (λ made. texts_in made.items ≡ all_classes classes.now) }
{
    let mut made = Vec::new(alloc);
    for class in classes {
        made.push(class.text())?;
    }
    made.push("Object")?;
    Ok(made)
}
