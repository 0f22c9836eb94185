//! The report on a program, made method by method.

mod line;
mod report;

pub use report::Report;
