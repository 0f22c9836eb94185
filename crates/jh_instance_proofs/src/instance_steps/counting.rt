use jh_arena::table::Table;
use jh_name::NoMemory;
use jh_proof_builder::{Form, Stated, form_of};

/// How many constants stand for what is said to be there, and how many quantifiers are pulled to the front.
#[derive(Clone, Copy)]
pub(crate) struct Counts {
    pub(crate) constants: u32,
    pub(crate) variables: usize,
}

/// None.
pub(crate) const NONE: Counts = Counts {
    constants: 0,
    variables: 0,
};

/// Two counts added up, where they aren't too great.
pub(crate) fn sum(first: Counts, second: Counts) -> Counts {
    Counts {
        constants: first.constants.saturating_add(second.constants),
        variables: first.variables.saturating_add(second.variables),
    }
}

/// One constant.
pub(crate) const ONE_CONSTANT: Counts = Counts {
    constants: 1,
    variables: 0,
};

/// One variable.
pub(crate) const ONE_VARIABLE: Counts = Counts {
    constants: 0,
    variables: 1,
};

/// How many constants and variables a formula has in its normal form, seen at most so many levels deep. Under a universal nothing gives
/// way to a constant, and what isn't pulled out of what is said to be there isn't counted.
#[cycle(count_in)]
pub(crate) fn count_in(
    table: &Table,
    said: Stated,
    under_each: bool,
    levels: u64,
) -> Result<Counts, NoMemory> {
    if levels == 0 {
        return Err(NoMemory);
    }
    let below = levels - 1;
    match form_of(table, said) {
        Form::Same(inside) => count_in(table, inside, under_each, below),
        Form::Both(first, second) => counts_of_two(table, first, second, under_each, below),
        Form::Either(first, second) => counts_of_two(table, first, second, under_each, below),
        Form::Alike(a, b) => counts_of_halves(table, a, b, under_each, below),
        Form::Each(body) => Ok(sum(ONE_VARIABLE, count_in(table, body, true, below)?)),
        Form::Some(body) => if under_each {
            Ok(NONE)
        } else {
            Ok(sum(ONE_CONSTANT, count_in(table, body, false, below)?))
        },
        Form::Literal => Ok(NONE),
    }
}

/// The same of two formulas.
#[cycle(count_in)]
fn counts_of_two(
    table: &Table,
    first: Stated,
    second: Stated,
    under_each: bool,
    levels: u64,
) -> Result<Counts, NoMemory> {
    let left = count_in(table, first, under_each, levels)?;
    let right = count_in(table, second, under_each, levels)?;
    Ok(sum(left, right))
}

/// The same of an equivalence, in whose normal form each side stands twice, with both signs.
#[cycle(count_in)]
fn counts_of_halves(
    table: &Table,
    a: usize,
    b: usize,
    under_each: bool,
    levels: u64,
) -> Result<Counts, NoMemory> {
    let holding = counts_of_two(
        table,
        jh_proof_builder::asserted(a),
        jh_proof_builder::asserted(b),
        under_each,
        levels,
    )?;
    let failing = counts_of_two(
        table,
        jh_proof_builder::denied(a),
        jh_proof_builder::denied(b),
        under_each,
        levels,
    )?;
    Ok(sum(holding, failing))
}
