//! What names are declared as, and numbers for the members of classes.
#![tactic(auto)]

pub mod declarations;
pub mod member_numbers;
pub mod scopes;
