use jh_form::Formula;

/// An atom, and whether it is said to hold. Which structures meet it is said by `Meets` of specs/Literals.
#[derive(Drop)]
pub struct Literal {
    pub atom: Formula,
    pub holds: bool,
}

fn can_be_shared<T: Send + Sync>(_value: &T) {}

/// Literals can be moved to threads and shared by them. It does nothing.
pub fn literals_can_be_shared(literal: &Literal) {
    can_be_shared(literal);
}
