use jh_form::{Formula, Mark};
use jh_name::{MethodId, Name, Row};

/// A hypothesis, with the name under which it is known.
#[derive(Drop)]
pub struct Hyp {
    pub name: Option<Name>,
    pub fact: Formula,
}

/// A proof obligation of a method: where the hypotheses are true, the goal is to be true.
#[derive(Drop)]
pub struct Sequent {
    pub method: MethodId,
    pub mark: Mark,
    pub hyps: Row<Hyp>,
    pub goal: Formula,
}

fn can_be_shared<T: Send + Sync>(_value: &T) {}

/// Sequents can be moved to threads and shared by them. It does nothing.
pub fn sequents_can_be_shared(sequent: &Sequent) {
    can_be_shared(sequent);
}
