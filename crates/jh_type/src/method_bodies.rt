//! The faults in methods, statement by statement.

mod assigning;
mod declaring;
mod faulting;
mod methods;
mod specifying;
mod statements;

pub use declaring::word_fault;
pub use faulting::broken;
pub use methods::{method_faults, outermost};
pub use specifying::{add_label, add_labels};
