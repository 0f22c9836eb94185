use jh_name::Row;

/// Where an element stands. Elements of one class are one object, and elements of two classes are two.
#[derive(Clone, Copy)]
pub struct Spot {
    pub class: u32,
    /// The region of the object: the sets in which it lies are those whose bits are 1.
    pub region: u64,
}

/// A whole number: plus minus minus, each in binary digits, the least first.
#[derive(Drop)]
pub struct Whole {
    pub plus: Row<bool>,
    pub minus: Row<bool>,
}

/// All that matters for the truth of a query. Region r is the set of the objects that lie in exactly the
/// sets whose bits are 1 in r.
#[derive(Drop)]
pub struct Sizes {
    /// How many objects of each region are no element, in binary digits, the least first.
    pub rest: Row<Row<bool>>,
    /// Where each element stands.
    pub spots: Row<Spot>,
    pub numbers: Row<Whole>,
    pub flags: Row<bool>,
}
