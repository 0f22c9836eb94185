use crate::forming::negation;
use jh_arena::table::Table;
use jh_name::NoMemory;

/// What is said of a formula that is a node: that it holds, or that it doesn't.
#[derive(Clone, Copy)]
pub struct Stated {
    pub formula: usize,
    pub holds: bool,
}

/// That a formula holds.
pub fn asserted(formula: usize) -> Stated {
    Stated {
        formula,
        holds: true,
    }
}

/// That a formula doesn't hold.
pub fn denied(formula: usize) -> Stated {
    Stated {
        formula,
        holds: false,
    }
}

/// The node of the fact that says it: the formula itself, or its negation.
pub fn stated_node(table: &mut Table, said: Stated) -> Result<usize, NoMemory> {
    if said.holds {
        Ok(said.formula)
    } else {
        negation(table, said.formula)
    }
}
