//! Heaps put into the memory of a run, and taken out of it.

mod fields;
mod loading;
mod places;
mod sets;
mod unloading;

pub use loading::load;
pub use places::{Place, Places};
pub use unloading::unload;
