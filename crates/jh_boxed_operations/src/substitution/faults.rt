use std::error::Error;
use std::fmt;

/// Why a value could not be put for a name.
#[derive(Clone, Copy, Debug, PartialEq, Eq)]
pub enum FormFault {
    /// Memory ran out.
    Memory,
    /// The name stands at a sort other than the value's.
    IllSorted,
}

impl fmt::Display for FormFault {
    fn fmt<W: fmt::Write>(&self, f: &mut fmt::Formatter<W>) -> fmt::Result {
        match self {
            FormFault::Memory => write!(f, "no memory"),
            FormFault::IllSorted => write!(f, "the name stands at another sort"),
        }
    }
}

impl Error for FormFault {}
