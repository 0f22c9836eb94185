//! The commands of statements that hold no others and call nothing, over the nodes of a table.

mod assigning;
mod creating;
mod ghosts;
mod lefts;
mod setting;
mod testing;
mod values;

pub use assigning::{push_assign, push_return};
pub use creating::push_new;
pub use ghosts::Left;
pub use lefts::left_of;
pub use setting::{class_before_dot, kind_value, push_ghost};
pub use testing::push_test;
pub use values::value_node;
