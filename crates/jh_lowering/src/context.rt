use jh_ast::Program;
use jh_symbols::scopes::Lookups;

/// What the names of code are resolved by: the program, and what it declares.
#[derive(Clone, Copy)]
pub struct Context<'a> {
    pub program: &'a Program,
    pub lookups: &'a Lookups,
}
