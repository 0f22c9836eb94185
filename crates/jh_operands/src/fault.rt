use jh_name::Place;

/// Why an expression has no value: null was dereferenced at a place, or the exact value of the arithmetic at a place leaves
/// `i64`.
#[derive(Clone, Copy, PartialEq, Eq)]
pub enum Fault {
    Null(Place),
    Overflow(Place),
}
