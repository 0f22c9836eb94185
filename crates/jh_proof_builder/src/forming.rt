use crate::nodes::{are_formulas, is_closed_object, is_formula};
use jh_arena::table::Table;
use jh_derivation_steps::jh_substitution::rewriting::open;
use jh_name::NoMemory;

/// The node of the negation of a formula. The answer is want of memory where it is none.
pub fn negation(table: &mut Table, a: usize) -> Result<usize, NoMemory> {
    if is_formula(table, a) {
        jh_arena::makers::negation(table, a)
    } else {
        Err(NoMemory)
    }
}

/// The node of two formulas joined by And. The answer is want of memory where one is none.
pub fn conjunction(table: &mut Table, a: usize, b: usize) -> Result<usize, NoMemory> {
    if are_formulas(table, a, b) {
        jh_arena::makers::conjunction(table, a, b)
    } else {
        Err(NoMemory)
    }
}

/// The node of two formulas joined by Or. The answer is want of memory where one is none.
pub fn disjunction(table: &mut Table, a: usize, b: usize) -> Result<usize, NoMemory> {
    if are_formulas(table, a, b) {
        jh_arena::makers::disjunction(table, a, b)
    } else {
        Err(NoMemory)
    }
}

/// The node of that two formulas are equivalent. The answer is want of memory where one is none.
pub fn equivalence(table: &mut Table, a: usize, b: usize) -> Result<usize, NoMemory> {
    if are_formulas(table, a, b) {
        jh_arena::makers::equivalence(table, a, b)
    } else {
        Err(NoMemory)
    }
}

/// The node of that a formula is true of all objects. The answer is want of memory where it is none.
pub fn universal(table: &mut Table, a: usize) -> Result<usize, NoMemory> {
    if is_formula(table, a) {
        jh_arena::makers::for_all(table, a)
    } else {
        Err(NoMemory)
    }
}

/// The node of that a formula is true of some object. The answer is want of memory where it is none.
pub fn existence(table: &mut Table, a: usize) -> Result<usize, NoMemory> {
    if is_formula(table, a) {
        jh_arena::makers::for_some(table, a)
    } else {
        Err(NoMemory)
    }
}

/// The node of a binder's body with a closed term for the binder's variable. The answer is want of memory where these are none.
pub fn opened(table: &mut Table, body: usize, with: usize) -> Result<usize, NoMemory> {
    if !is_formula(table, body) {
        return Err(NoMemory);
    }
    if is_closed_object(table, with) {
        open(table, body, with)
    } else {
        Err(NoMemory)
    }
}
