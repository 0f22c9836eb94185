ghost use Rattle.std.specs.Prelude.{◌≡◌, ◌++◌, option_map, IfOk, OnOk, string_bytes};
ghost use Rattle.jh_store.specs.heaps.Cells.{cell_in, heap_in};
ghost use Rattle.jh_heap_layout.specs.jh_heap.text.Held.{outline_in};
ghost use Rattle.jh_run.specs.outcome.Texts.{answered_text, result_line};

use crate::runner::Answered;
use jh_heap_layout::jh_heap::text::{Outline, add_cell, write_heap};
use jh_name::NoMemory;
use jh_store::heaps::Cell;
use std::alloc::Global;

/// Adds the line of a result.
fn add_result(text: &mut String, cell: &Cell) -> Result<(), NoMemory>
    ensures { OnOk result (string_bytes text.new ≡ string_bytes text.old ++ result_line (cell_in cell.now)) }
{
    text.push_str("result ")?;
    add_cell(text, cell)?;
    text.push_str("\n")?;
    Ok(())
}

/// The result, where there is one, and the heap.
pub(crate) fn text_of(
    alloc: Global,
    outline: &Outline<'_>,
    answered: &Answered,
) -> Result<String, NoMemory>
    ensures { IfOk result (λ text. string_bytes text ≡ answered_text (outline_in outline.now) (heap_in answered.now.heap) (option_map cell_in answered.now.result)) }
{
    let heap = write_heap(alloc, outline, &answered.heap)?;
    let mut text = String::new(alloc);
    if let Some(cell) = &answered.result {
        add_result(&mut text, cell)?;
    }
    text.push_str(heap.as_str())?;
    Ok(text)
}
