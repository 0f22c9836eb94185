use jh_name::{Kind, Name};

/// The left side of a ghost assignment: a name, or the field of an object, at a kind.
#[derive(Drop)]
pub enum Left {
    Name(Kind, Name),
    Read(Kind, Name, usize),
    Nothing,
}
