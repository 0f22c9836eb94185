use crate::{Expr, JType, Labelled, Param, Spec, Stmt, Word};
use jh_name::{Kind, Place, Row};

/// A source: its classes in the order of the text.
#[derive(Drop)]
pub struct Program {
    pub classes: Row<Class>,
}

/// A class. Each list is in the order of the text.
#[derive(Drop)]
pub struct Class {
    pub name: Word,
    pub fields: Row<Field>,
    pub methods: Row<Method>,
    pub vars: Row<SpecVar>,
    pub defs: Row<VarDef>,
    pub invariants: Row<Labelled>,
}

/// A field of each object, or one of the class where it is `fixed` (static).
#[derive(Drop)]
pub struct Field {
    pub name: Word,
    pub jtype: JType,
    pub fixed: bool,
    pub init: Option<Expr>,
}

/// A specification variable: ghost state, or one that a definition explains. Where it is `fixed` (static)
/// there is one of the class, else one of each object.
#[derive(Drop)]
pub struct SpecVar {
    pub name: Word,
    pub kind: Kind,
    pub fixed: bool,
    pub is_ghost: bool,
    pub init: Option<Spec>,
}

/// The definition of a specification variable.
#[derive(Drop)]
pub struct VarDef {
    pub name: Word,
    pub body: Spec,
}

/// A method: `fixed` means static, `end` is the place of its closing brace.
#[derive(Drop)]
pub struct Method {
    pub name: Word,
    pub public: bool,
    pub fixed: bool,
    pub result: JType,
    pub params: Row<Param>,
    pub pre: Option<Spec>,
    pub modifies: Row<Word>,
    pub post: Option<Spec>,
    pub body: Row<Stmt>,
    pub end: Place,
}
