use jh_name::{Kind, Name, Sort};

/// A name of the state: its name, at turn 0, and the sort at which it stands; the kind of its values, where a set of
/// objects is of kind Set; the number of the class whose member it is, or whose objects it holds; whether it is a
/// member of a class, or else a set of objects; and whether it is a ghost variable.
#[derive(Drop)]
pub struct StateName {
    pub name: Name,
    pub sort: Sort,
    pub kind: Kind,
    pub class: Option<usize>,
    pub is_member: bool,
    pub is_ghost: bool,
}
