ghost use Rattle.jh_fca.specs.local_form.Named.{is_whole_update};

use jh_arena::table::{Shape, Table};
use jh_normal_forms::parts::PartTest;

/// Asks for the updates that hold no variable bound outside them.
#[derive(Clone, Copy)]
pub(crate) struct WholeUpdates;

impl PartTest for WholeUpdates {
    ghost test = { λ test. is_whole_update };

    fn asks(&self, table: &Table, node: usize) -> bool {
        match table.shape(node) {
            Shape::Update(_, _, _) => table.is_closed(node),
            _ => false,
        }
    }
}
