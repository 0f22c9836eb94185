use jh_name::Kind;

/// Where a memory has a static or a field: the number of its name; and the kind of its values.
#[derive(Clone, Copy)]
pub struct Place {
    pub number: usize,
    pub kind: Kind,
}

/// Where a memory has what a heap lists: the numbers of the set of all objects and of the classes, with that of the plain objects
/// as the last, and the places of the statics and of the fields, all in the order of the source.
#[derive(Drop)]
pub struct Places {
    pub all: usize,
    pub classes: Vec<usize>,
    pub statics: Vec<Place>,
    pub fields: Vec<Place>,
}
