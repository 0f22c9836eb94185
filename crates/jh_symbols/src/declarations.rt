//! The tables of what a program declares.

mod entries;
mod labels;
mod members;
mod numbers;
mod putting;
mod states;
mod tables;

pub use tables::lookups_of;
