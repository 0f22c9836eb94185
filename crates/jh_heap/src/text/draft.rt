ghost use Rattle.std.specs.Prelude.{◌≡◌, None, option_map, map, replicate, IfOk};
ghost use Rattle.jh_semantics.specs.Heaps as h;
ghost use Rattle.jh_heap.specs.text.Drafts as drafts;
ghost use Rattle.jh_heap.specs.text.Outlines as outlines;
ghost use Rattle.jh_heap.specs.text.Reading as spec;
ghost use Rattle.jh_heap.specs.text.Held.{draft_in, given_in, outline_in};

use crate::text::outline::Outline;
use jh_name::{NoMemory, Row};
use jh_store::heaps::Cell;
use std::alloc::Global;

/// What the lines of a text have given so far: the greatest object, how far the lines have come, and what was given of each class,
/// static, field at an object, of `this` and of each parameter.
#[derive(Drop)]
pub(crate) struct Draft {
    pub greatest: u8,
    pub stage: usize,
    pub classes: Vec<Option<Row<u32>>>,
    pub statics: Vec<Option<Cell>>,
    pub fields: Vec<Vec<Option<Cell>>>,
    pub this: Option<u32>,
    pub arguments: Vec<Option<Cell>>,
}

/// Before the first line.
pub(crate) fn empty_draft(alloc: Global) -> Draft
    ensures { draft_in result ≡ drafts.empty_draft }
{
    Draft {
        greatest: 0,
        stage: 0,
        classes: Vec::new(alloc),
        statics: Vec::new(alloc),
        fields: Vec::new(alloc),
        this: None,
        arguments: Vec::new(alloc),
    }
}

/// So many classes of which nothing was given.
fn no_classes(alloc: Global, count: usize) -> Result<Vec<Option<Row<u32>>>, NoMemory>
    ensures { IfOk result (λ made. made.items ≡ drafts.nothing count) }
{
    let mut made = Vec::new(alloc);
    for _place in 0..count {
        made.push(None)?;
    }
    Ok(made)
}

/// So many places at which no value was given.
fn no_cells(alloc: Global, count: usize) -> Result<Vec<Option<Cell>>, NoMemory>
    ensures { IfOk result (λ made. given_in made.items ≡ drafts.nothing count) }
{
    let mut made = Vec::new(alloc);
    for _place in 0..count {
        made.push(None)?;
    }
    Ok(made)
}

/// So many fields of which nothing was given at so many objects.
fn no_fields(
    alloc: Global,
    count: usize,
    objects: usize,
) -> Result<Vec<Vec<Option<Cell>>>, NoMemory>
    ensures { IfOk result (λ made. map (λ row. given_in row.items) made.items ≡ replicate count (drafts.nothing objects)) }
{
    let mut made = Vec::new(alloc);
    for _place in 0..count {
        made.push(no_cells(alloc, objects)?)?;
    }
    Ok(made)
}

/// What is given behind the first line.
pub(crate) fn first_draft(
    alloc: Global,
    outline: &Outline<'_>,
    greatest: u8,
) -> Result<Draft, NoMemory>
    ensures { IfOk result (λ made. draft_in made ≡ spec.first_draft (outline_in outline.now) greatest) }
{
    let classes = no_classes(alloc, outline.classes.len())?;
    let statics = no_cells(alloc, outline.statics.len())?;
    let fields = no_fields(alloc, outline.fields.len(), usize::from(greatest) + 1)?;
    let arguments = no_cells(alloc, outline.params.len())?;
    Ok(Draft {
        greatest,
        stage: 1,
        classes,
        statics,
        fields,
        this: None,
        arguments,
    })
}
