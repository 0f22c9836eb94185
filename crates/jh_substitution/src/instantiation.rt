//! A term for the variable of a binder, where the term may have loose bound variables of its own.

mod laws;
mod putting;

pub use laws::put_keeps_meaning;
pub use putting::put;
