ghost use Rattle.std.specs.Prelude.{◌≡◌, ◌++◌, OnOk};
ghost use Rattle.jh_ast.specs.Bare.{form_tree, form_trees};
ghost use Rattle.jh_definitions.specs.reads.Listed.{states_in, reads_at, all_reads_at, reads_under};

use crate::reads::naming::{Read, Reading, add_fields, add_name, add_path};
use jh_ast::{SpecBody, SpecTree, Word};
use jh_name::NoMemory;
use jh_resolution::under;
use std::alloc::Global;
use std::slice::from_ref;

/// Adds what some formulas read.
#[cycle(reads)]
fn add_all(
    alloc: Global,
    made: &mut Vec<Read>,
    at: &Reading,
    forms: &[SpecTree],
) -> Result<(), NoMemory>
    ensures { OnOk result (states_in made.new.items ≡ states_in made.old.items ++ all_reads_at at.now (form_trees forms.now)) }
{
    for form in forms {
        add_reads(alloc, made, at, form)?;
    }
    Ok(())
}

/// Adds what a formula under a binder of some words reads.
#[cycle(reads)]
fn add_under(
    alloc: Global,
    made: &mut Vec<Read>,
    at: &Reading,
    words: &[Word],
    form: &SpecTree,
) -> Result<(), NoMemory>
    ensures { OnOk result (states_in made.new.items ≡ states_in made.old.items ++ reads_under at.now words.now (form_tree form.now)) }
{
    let bound = under(alloc, at.bound, words)?;
    add_reads(
        alloc,
        made,
        &Reading {
            bound: bound.as_slice(),
            ..*at
        },
        form,
    )
}

/// Adds the fields, statics and variables that a formula outside methods reads, in the order of the text.
#[cycle(reads)]
pub fn add_reads(
    alloc: Global,
    made: &mut Vec<Read>,
    at: &Reading,
    form: &SpecTree,
) -> Result<(), NoMemory>
    ensures { OnOk result (states_in made.new.items ≡ states_in made.old.items ++ reads_at at.now (form_tree form.now)) }
{
    match &form.body {
        SpecBody::Null => Ok(()),
        SpecBody::True => Ok(()),
        SpecBody::False => Ok(()),
        SpecBody::Univ => Ok(()),
        SpecBody::Number(_) => Ok(()),
        SpecBody::Name(word) => add_name(alloc, made, at, word),
        SpecBody::Member(inner, word) => {
            add_reads(alloc, made, at, inner)?;
            add_fields(alloc, made, at, from_ref(word))
        }
        SpecBody::Not(inner) => add_reads(alloc, made, at, inner),
        SpecBody::Minus(inner) => add_reads(alloc, made, at, inner),
        SpecBody::Old(inner) => add_reads(alloc, made, at, inner),
        SpecBody::Card(inner) => add_reads(alloc, made, at, inner),
        SpecBody::Binary(_, left, right) => {
            add_reads(alloc, made, at, left)?;
            add_reads(alloc, made, at, right)
        }
        SpecBody::Dvd(_, inner) => add_reads(alloc, made, at, inner),
        SpecBody::All(words, inner) => add_under(alloc, made, at, words.items(), inner),
        SpecBody::Ex(words, inner) => add_under(alloc, made, at, words.items(), inner),
        SpecBody::Tree(words) => add_fields(alloc, made, at, words.items()),
        SpecBody::Rtrancl(first, second, body, left, right) => {
            add_path(alloc, made, at, first, second, body)?;
            add_reads(alloc, made, at, left)?;
            add_reads(alloc, made, at, right)
        }
        SpecBody::Braces(forms) => add_all(alloc, made, at, forms.items()),
        SpecBody::Compr(word, inner) => add_under(alloc, made, at, from_ref(word), inner),
    }
}
