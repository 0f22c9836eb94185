//! The syntax tree of a source. Names are unresolved: a word keeps its text and its place.
//!
//! Contracts speak of trees without memory: `specs/Exprs`, `Forms`, `Stmts` and `Programs` hold them, and `specs/Bare`
//! says which tree a value is.
#![tactic(auto)]

pub use jh_name;

mod expr;
mod program;
mod spec;
mod stmt;
mod word;

pub use expr::{Expr, ExprBody, Op};
pub use program::{Class, Field, Method, Program, SpecVar, VarDef};
pub use spec::{Labelled, Spec, SpecBody, SpecOp, SpecTree};
pub use stmt::{Call, Rhs, Stmt, StmtBody};
pub use word::{JType, Param, Word};
