//! The state names of a program in their order.

mod listing;
mod pieces;
mod state;

pub use listing::state_list;
pub use state::StateName;
