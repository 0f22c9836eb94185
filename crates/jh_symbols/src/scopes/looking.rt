ghost use Rattle.std.specs.Prelude.{◌≡◌, option_copied};
ghost use Rattle.jh_symbols.specs.scopes.Lookings.{declared_by};
ghost use Rattle.jh_symbols.specs.scopes.Lookings as lookings;

use indexmap::IndexMap;
use jh_name::Place;
use jh_rules::{FieldEntry, MethodEntry, StateEntry};

/// What a member of a class is: a field or static, as code and as formulas see it, a method, or a
/// specification variable.
#[derive(Drop)]
pub enum MemberEntry {
    Field(FieldEntry, StateEntry),
    Method(MethodEntry),
    Variable(StateEntry),
}

/// A member of a class, with the place of its name.
#[derive(Drop)]
pub struct Member {
    pub place: Place,
    pub entry: MemberEntry,
}

/// The members of a class by their names.
#[derive(Drop)]
pub struct Members {
    pub names: IndexMap<String, Member>,
}

/// What a program declares: the numbers of its classes by their names, their members, the first and the last
/// class's state of each name, and the names of its invariants.
#[derive(Drop)]
pub struct Lookups {
    pub classes: IndexMap<String, usize>,
    pub members: Vec<Members>,
    pub first_states: IndexMap<String, StateEntry>,
    pub last_states: IndexMap<String, StateEntry>,
    pub invariants: IndexMap<String, bool>,
}

/// What a member is as a field or static of code.
fn field_in(member: &Member) -> Option<FieldEntry>
    ensures { result ≡ lookings.field_in member.now }
{
    match &member.entry {
        MemberEntry::Field(field, _) => Some(*field),
        MemberEntry::Method(_) => None,
        MemberEntry::Variable(_) => None,
    }
}

/// What a member is as a method.
fn method_in(member: &Member) -> Option<&MethodEntry>
    ensures { option_copied result ≡ lookings.method_in member.now }
{
    match &member.entry {
        MemberEntry::Field(_, _) => None,
        MemberEntry::Method(method) => Some(method),
        MemberEntry::Variable(_) => None,
    }
}

/// What a member is as a field, static or specification variable of formulas.
pub fn state_in(member: &Member) -> Option<StateEntry>
    ensures { result ≡ lookings.state_in member.now }
{
    match &member.entry {
        MemberEntry::Field(_, state) => Some(*state),
        MemberEntry::Method(_) => None,
        MemberEntry::Variable(state) => Some(*state),
    }
}

/// The state of a name where its first class is its last.
fn only_of(first: Option<StateEntry>, last: Option<StateEntry>) -> Option<StateEntry>
    ensures { result ≡ lookings.only_of first last }
{
    match first {
        None => None,
        Some(state) => match last {
            None => None,
            Some(other) => {
                if state.class == other.class {
                    Some(state)
                } else {
                    None
                }
            }
        },
    }
}

impl Lookups {
    /// The number of the class of a name.
    pub fn class_named(&self, text: &str) -> Option<usize>
        ensures { result ≡ (declared_by self.now).class_named text.now }
    {
        self.classes.get(text).copied()
    }

    /// The member of a name in a class.
    pub fn member(&self, class: usize, text: &str) -> Option<&Member>
        ensures { option_copied result ≡ lookings.member_by self.now class text.now }
    {
        match self.members.get(class) {
            None => None,
            Some(members) => members.names.get(text),
        }
    }

    /// The field or static of a name in a class.
    pub fn field_of(&self, class: usize, text: &str) -> Option<FieldEntry>
        ensures { result ≡ (declared_by self.now).field_of class text.now }
    {
        match self.member(class, text) {
            None => None,
            Some(member) => field_in(member),
        }
    }

    /// The method of a name in a class.
    pub fn method_of(&self, class: usize, text: &str) -> Option<&MethodEntry>
        ensures { option_copied result ≡ (declared_by self.now).method_of class text.now }
    {
        match self.member(class, text) {
            None => None,
            Some(member) => method_in(member),
        }
    }

    /// The field, static or specification variable of a name in a class.
    pub fn state_of(&self, class: usize, text: &str) -> Option<StateEntry>
        ensures { result ≡ (declared_by self.now).state_of class text.now }
    {
        match self.member(class, text) {
            None => None,
            Some(member) => state_in(member),
        }
    }

    /// The field, static or specification variable that a name names in one class alone.
    pub fn only_state(&self, text: &str) -> Option<StateEntry>
        ensures { result ≡ (declared_by self.now).only_state text.now }
    {
        let first = self.first_states.get(text).copied();
        let last = self.last_states.get(text).copied();
        only_of(first, last)
    }

    /// Whether an invariant has this name.
    pub fn is_invariant(&self, text: &str) -> bool
        ensures { result ≡ (declared_by self.now).is_invariant text.now }
    {
        self.invariants.get(text).is_some()
    }
}
