use jh_closure::structures::Literal;
use jh_derivation_rules::Derivation;
use jh_name::Row;

/// Literals of a branch, in the order in which they were found.
#[derive(Drop)]
pub struct Branch {
    pub literals: Row<Literal>,
}

/// A branch that is closed: its decisions, in order, and literals that explain why.
#[derive(Drop)]
pub struct Closed {
    pub decisions: Row<Literal>,
    pub explanation: Row<Literal>,
}

/// Why the ground search doesn't prove a sequent.
#[derive(Drop)]
pub enum LocalCause {
    /// This is a ground model of the instances.
    Open(Branch),
    /// There can be so many instances, which is more than MOST_INSTANCES.
    TooMany(u128),
    /// So many branches of one search are closed, and it isn't finished.
    Budget(Row<Closed>),
}

/// What the ground search says of a sequent.
#[derive(Drop)]
pub enum Searched {
    /// The instances have no ground model, and this derivation closes the sequent.
    Proved(Derivation),
    /// No proof was found.
    Unproved(LocalCause),
}

fn can_be_shared<T: Send + Sync>(_value: &T) {}

/// What is said of a sequent can be moved to threads and shared by them. It does nothing.
pub fn searched_can_be_shared(searched: &Searched) {
    can_be_shared(searched);
}
