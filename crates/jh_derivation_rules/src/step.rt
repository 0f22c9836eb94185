use jh_form::{FieldTerm, Formula, Term, Value};
use jh_name::{Kind, Name, Row};

/// The field of which a field is the update, at one object: as the last of the axioms on reachability takes it.
#[derive(Drop)]
pub struct Base {
    /// The place of the field in the list of fields.
    pub place: u32,
    pub field: FieldTerm,
    pub at: Term,
    pub value: Term,
}

/// A step of a derivation, with its operands: it closes its branch, or it adds facts and goes on in one branch
/// or in two. Which formulas have to be facts and which are added is said by `rule_of` of specs/Rules.
#[derive(Drop)]
pub enum DerivStep {
    /// False is a fact.
    Absurd,
    /// A fact, and its negation is one too.
    Pair(Formula),
    /// A fact that no structure meets: something isn't itself, or two different constants are equal.
    Reflexive(Formula),
    /// From t = u to u = t.
    Symmetric(Value, Value),
    /// From t = u and u = w to t = w.
    Transitive(Value, Value, Value),
    /// From t = u to f t = f u, read at a kind.
    Read(Kind, FieldTerm, Term, Term),
    /// From a fact and t = u to a formula that is the fact with some t exchanged for u.
    Replace(Formula, Formula, Value, Value),
    /// Both parts of a conjunction.
    And(Formula),
    /// A branch for each part of a disjunction.
    Or(Formula),
    /// A branch for the negated premise of an implication, and one for its conclusion.
    Implies(Formula),
    /// A branch in which both sides of an equivalence are true, and one in which neither is.
    Iff(Formula),
    /// A negation, pushed one level in.
    Not(Formula),
    /// An instance of a universal fact at a closed term.
    All(Formula, Term),
    /// The body of an existential fact for a name that occurs in no fact.
    Exists(Formula, Name),
    /// A branch for any formula, and one for its negation.
    Cut(Formula),
    /// What an update gives at each object.
    Update(FieldTerm),
    /// An axiom on reachability, by its number.
    Axiom(u8, Row<FieldTerm>, Option<Base>),
    /// A relation of sets, or its negation, opened once.
    Open(Formula),
}

/// A derivation: a tree of steps, kept as their list, the root first and each left branch before the right one.
#[derive(Drop)]
pub struct Derivation {
    pub steps: Row<DerivStep>,
}

fn can_be_shared<T: Send + Sync>(_value: &T) {}

/// Derivations, their steps and bases can be moved to threads and shared by them. It does nothing.
pub fn derivations_can_be_shared(derivation: &Derivation, step: &DerivStep, base: &Base) {
    can_be_shared(derivation);
    can_be_shared(step);
    can_be_shared(base);
}
