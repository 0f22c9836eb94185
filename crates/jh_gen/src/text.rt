ghost use Rattle.std.specs.Prelude.{◌≡◌, ◌++◌, IfOk, OnOk, string_bytes};
ghost use Rattle.jh_gen.specs.Generated as spec;

use crate::method::add_method;
use jh_name::NoMemory;
use std::alloc::Global;

/// Adds what stands before the methods.
fn add_first_lines(text: &mut String) -> Result<(), NoMemory>
    ensures { OnOk result (string_bytes text.new ≡ string_bytes text.old ++ spec.text_of spec.first_lines) }
{
    text.push_str(
        "class Cell { int f; }
class Gen {
static Object a;
static Object b;
static int n;
",
    )?;
    Ok(())
}

/// Adds the methods, each on a line of its own.
fn add_methods(text: &mut String, seed: u64, methods: u32) -> Result<(), NoMemory>
    ensures { OnOk result (string_bytes text.new ≡ string_bytes text.old ++ spec.text_of (spec.method_lines seed methods)) }
{
    for done in 0..u64::from(methods) {
        add_method(text, seed, done + 1)?;
    }
    Ok(())
}

/// The source of a seed with so many methods: two classes, with the methods in the second. Which kind a method is of, and which number it writes, hangs
/// on the seed and on the method's place.
#[tactic(auto, unfolding(crate::specs::Generated::source))]
pub fn source_of(alloc: Global, seed: u64, methods: u32) -> Result<Vec<u8>, NoMemory>
    ensures source { IfOk result (λ text. text.items ≡ spec.source seed methods) }
{
    let mut text = String::new(alloc);
    add_first_lines(&mut text)?;
    add_methods(&mut text, seed, methods)?;
    text.push_str("}\n")?;
    Ok(text.into_bytes())
}
