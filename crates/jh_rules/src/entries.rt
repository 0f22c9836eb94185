use crate::Ty;
use jh_ast::jh_name::{Kind, Row};

/// What a field or static is: static or not, and its type where the type word is known.
#[derive(Clone, Copy, PartialEq, Eq)]
pub struct FieldEntry {
    pub fixed: bool,
    pub ty: Option<Ty>,
}

/// What a parameter or local is: its type where the type word is known, and whether it is a parameter.
#[derive(Clone, Copy, PartialEq, Eq)]
pub struct LocalEntry {
    pub ty: Option<Ty>,
    pub is_param: bool,
}

/// What a field, static or specification variable is: the number of its class, its kind where its type word
/// is known, and whether it is static, a specification variable, a ghost variable, and whether it has a
/// definition.
#[derive(Clone, Copy, PartialEq, Eq)]
pub struct StateEntry {
    pub class: usize,
    pub kind: Option<Kind>,
    pub fixed: bool,
    pub is_variable: bool,
    pub is_ghost: bool,
    pub is_defined: bool,
}

/// What a method is: static or not, the type of its result, and those of its parameters, each where the
/// type word is known.
#[derive(Drop)]
pub struct MethodEntry {
    pub fixed: bool,
    pub result: Option<Ty>,
    pub params: Row<Option<Ty>>,
}

/// The sorts of the declarations of a name in a method.
#[derive(Clone, Copy, PartialEq, Eq)]
pub struct Sorts {
    pub objects: bool,
    pub numbers: bool,
    pub truths: bool,
}
