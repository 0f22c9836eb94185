/// Two nodes, by their numbers, that are said to be equal.
#[derive(Clone, Copy, PartialEq, Eq)]
pub struct Equation {
    pub left: usize,
    pub right: usize,
}
