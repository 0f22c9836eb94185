use jh_arena::makers::free_object;
use jh_arena::table::Table;
use jh_name::{NoMemory, name};

/// The node of the constant of a turn.
pub fn constant(table: &mut Table, turn: u32) -> Result<usize, NoMemory> {
    let named = name(table.alloc(), "c", turn)?;
    free_object(table, &named)
}
