use jh_name::Name;

/// A piece of state: the class whose member it is, or whose objects it holds, where there is one; whether it is a
/// member of a class, or else a set of objects; and its name. Two pieces of state differ in one of these.
#[derive(PartialEq, Eq, Hash, Drop)]
pub struct Key {
    pub class: Option<usize>,
    pub is_member: bool,
    pub name: Name,
}

/// That a thing has a piece of state.
#[derive(Drop)]
pub struct Given {
    pub of: usize,
    pub what: Key,
}

/// That what one thing has another has as well.
#[derive(Clone, Copy)]
pub struct Link {
    pub from: usize,
    pub to: usize,
}

/// What things have of the state by themselves, and from which others they have more.
#[derive(Drop)]
pub struct Flow {
    pub given: Vec<Given>,
    pub links: Vec<Link>,
}
