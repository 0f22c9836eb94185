//! Derived fields eliminated: what is said of a field by its constraint is said without the field.

mod laws;

pub use laws::{
    eliminated_has_shape, eliminated_is_exact, eliminated_is_valid, eliminated_may_stand,
};
