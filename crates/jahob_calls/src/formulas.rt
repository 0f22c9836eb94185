//! Calls over boxed formulas.
#![tactic(auto, using(jh_form::proofs::Steps::tree_steps), unfolding(jh_form::specs::Closed::is_closed_value, jh_form::specs::Closed::is_closed_term))]

use crate::Called;
use jh_boxed_calls::formulas::{copy, open, subst};
use jh_form::{Formula, Term, Value};
use jh_name::name;
use jh_reach::axioms;
use std::alloc::Global;

fn answers_subst(alloc: Global) -> bool {
    match name(alloc, "A.x", 0) {
        Ok(name) => subst(alloc, &Formula::True, &name, &Value::Obj(Term::Null)).is_ok(),
        Err(_) => false,
    }
}

/// Makes them.
pub fn all_called(alloc: Global) -> [Called; 4] {
    [
        Called::of("copy", copy(alloc, &Formula::True).is_ok()),
        Called::of("open", open(alloc, &Formula::True, &Term::Null).is_ok()),
        Called::of("subst", answers_subst(alloc)),
        Called::of("axioms", axioms(alloc, &[]).is_ok()),
    ]
}
