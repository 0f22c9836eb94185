/// A place in a source. Lines and columns count from 1; a column counts the bytes since the line
/// feed before it, so the first byte of a line has column 1.
#[derive(Clone, Copy, Debug, PartialEq, Eq, PartialOrd, Ord, Hash)]
pub struct Place {
    pub line: u32,
    pub column: u32,
}

/// The kinds of values that a field or a variable can hold.
#[derive(Clone, Copy, PartialEq, Eq, Hash)]
pub enum Kind {
    Obj,
    Int,
    Bool,
    Set,
}

/// The sorts of terms: the kinds, and whole fields.
#[derive(Clone, Copy, PartialEq, Eq, Hash)]
pub enum Sort {
    Obj,
    Int,
    Bool,
    Set,
    Field,
}

/// A method of a program: the number of its class in the source, and its number in the class, both
/// from 0.
#[derive(Clone, Copy, PartialEq, Eq, Hash)]
pub struct MethodId {
    pub class: u32,
    pub method: u32,
}
