use crate::instance_steps::counting::{Counts, count_in, sum};
use jh_arena::table::Table;
use jh_name::NoMemory;
use jh_proof_builder::{MOST_NESTED, Stated, asserted, denied};

/// What an entry comes from: a fact, or one half of a fact that is an equivalence. The normal form of an equivalence is two formulas
/// joined by And; each is two formulas joined by Or.
#[derive(Clone, Copy)]
pub(crate) enum Piece {
    Whole(Stated),
    Half(Half),
}

/// A half of an equivalence that holds or doesn't.
#[derive(Clone, Copy)]
pub(crate) struct Half {
    pub(crate) whole: Stated,
    pub(crate) left: usize,
    pub(crate) right: usize,
    pub(crate) is_first: bool,
}

/// The two formulas of a half, in the order in which they stand in the normal form.
pub(crate) fn sides(half: Half) -> (Stated, Stated) {
    if half.whole.holds {
        if half.is_first {
            (denied(half.left), asserted(half.right))
        } else {
            (denied(half.right), asserted(half.left))
        }
    } else if half.is_first {
        (asserted(half.left), asserted(half.right))
    } else {
        (denied(half.left), denied(half.right))
    }
}

/// The two halves of an equivalence.
pub(crate) fn halves(whole: Stated, left: usize, right: usize) -> (Half, Half) {
    (
        Half {
            whole,
            left,
            right,
            is_first: true,
        },
        Half {
            whole,
            left,
            right,
            is_first: false,
        },
    )
}

/// How many constants and variables a formula has.
pub(crate) fn counts_of(table: &Table, said: Stated, under_each: bool) -> Result<Counts, NoMemory> {
    count_in(table, said, under_each, MOST_NESTED)
}

/// How many constants and variables a half has.
pub(crate) fn counts_of_half(
    table: &Table,
    half: Half,
    under_each: bool,
) -> Result<Counts, NoMemory> {
    let (first, second) = sides(half);
    let left = counts_of(table, first, under_each)?;
    let right = counts_of(table, second, under_each)?;
    Ok(sum(left, right))
}

/// How many constants and variables a piece has.
pub(crate) fn counts_of_piece(table: &Table, piece: Piece) -> Result<Counts, NoMemory> {
    match piece {
        Piece::Whole(said) => counts_of(table, said, false),
        Piece::Half(half) => counts_of_half(table, half, false),
    }
}
