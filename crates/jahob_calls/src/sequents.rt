//! Calls over boxed sequents.

use crate::Called;
use jh_boxed_calls::sequents::{bapa_of, prove};
use jh_form::{Formula, Mark, MarkKind};
use jh_name::options::Options;
use jh_name::{MethodId, Place, Row};
use jh_seq::sequent::Sequent;
use std::alloc::Global;

/// A sequent without hypotheses whose goal is false.
fn unprovable(alloc: Global) -> Sequent {
    Sequent {
        method: MethodId {
            class: 0,
            method: 0,
        },
        mark: Mark {
            kind: MarkKind::Post,
            place: Place { line: 1, column: 1 },
            name: None,
            from: Row::of(Vec::new(alloc)),
        },
        hyps: Row::of(Vec::new(alloc)),
        goal: Formula::False,
    }
}

fn answers_bapa_of(alloc: Global) -> bool {
    let sequent = unprovable(alloc);
    bapa_of(alloc, &sequent).is_ok()
}

fn answers_prove(alloc: Global) -> bool {
    let sequent = unprovable(alloc);
    let options = Options {
        rounds: 1,
        leaves: 1,
    };
    prove(alloc, &sequent, options).is_ok()
}

/// Makes them.
pub fn all_called(alloc: Global) -> [Called; 2] {
    [
        Called::of("bapa_of", answers_bapa_of(alloc)),
        Called::of("prove", answers_prove(alloc)),
    ]
}
