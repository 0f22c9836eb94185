//! The state that each method may write, itself or by the methods that it calls.

mod arising;
mod choosing;
mod flow;
mod keys;
mod methods;
mod numbering;
mod places;
mod reaching;
mod rows;
mod writing;

pub use arising::all_places;
pub use flow::{Flow, Given, Key, Link};
pub use keys::{key_list, member_key};
pub use methods::{Listed, Methods, methods_of};
pub use places::MethodPlaces;
pub use reaching::first_places;
pub use writing::written;
