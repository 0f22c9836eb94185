//! The memory of a run: what each name of a program has, by the name's number.

mod field;
mod lists;
mod memory;
mod names;
mod slot;

pub use field::FieldValues;
pub use memory::Memory;
pub use names::Names;
