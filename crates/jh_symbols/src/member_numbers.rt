//! Numbers of the members of classes, by the number of the class and the own name of the member.

mod numbers;

pub use numbers::Numbers;
