ghost use Rattle.std.specs.Ordering.{int_eq};
ghost use Rattle.std.specs.Prelude.{◌≡◌, ◌||◌, not, ◌+ℤ◌, ◌-ℤ◌, ◌*ℤ◌, neg_ℤ, IfOk, IfErr, FitsSigned};
ghost use Rattle.std.specs.Int.{w128};
ghost use Rattle.jh_sem.specs.declared.answer.SemError.TheVariants.{Memory};
ghost use Rattle.jh_form.specs.Meaning.{agree, divides_number};

use jh_name::NoMemory;
use std::alloc::AllocFailed;

/// Why a formula or a term has no answer.
#[derive(Clone, Copy, PartialEq, Eq)]
pub enum SemError {
    /// Some number term in it has a value outside `i128` for some objects in place of its bound variables.
    Wide,
    /// Memory ran out, or it nests too deep for the stack.
    Memory,
}

impl From<NoMemory> for SemError {
    ghost from_gives = { λ _ e. e ≡ Memory };

    fn from(_error: NoMemory) -> SemError {
        SemError::Memory
    }
}

impl<T: Drop> From<AllocFailed<T>> for SemError {
    ghost from_gives = { λ _ e. e ≡ Memory };

    fn from(_error: AllocFailed<T>) -> SemError {
        SemError::Memory
    }
}

/// The sum of two numbers, unless it leaves `i128`.
pub(crate) fn added(left: &i128, right: &i128) -> Result<i128, SemError>
    ensures value { IfOk result (λ sum. sum ≡ left.now +ℤ right.now) }
    ensures wide { IfErr result (λ e. FitsSigned w128 (left.now +ℤ right.now) → ⊥) }
{
    match left.checked_add(*right) {
        Some(number) => Ok(number),
        None => Err(SemError::Wide),
    }
}

/// The difference of two numbers, unless it leaves `i128`.
pub(crate) fn subtracted(left: &i128, right: &i128) -> Result<i128, SemError>
    ensures value { IfOk result (λ sum. sum ≡ left.now -ℤ right.now) }
    ensures wide { IfErr result (λ e. FitsSigned w128 (left.now -ℤ right.now) → ⊥) }
{
    match left.checked_sub(*right) {
        Some(number) => Ok(number),
        None => Err(SemError::Wide),
    }
}

/// A number with the other sign, unless it leaves `i128`.
pub(crate) fn negated(number: &i128) -> Result<i128, SemError>
    ensures value { IfOk result (λ made. made ≡ neg_ℤ number.now) }
    ensures wide { IfErr result (λ e. FitsSigned w128 (neg_ℤ number.now) → ⊥) }
{
    match number.checked_neg() {
        Some(number) => Ok(number),
        None => Err(SemError::Wide),
    }
}

/// A number times a constant, unless it leaves `i128`.
pub(crate) fn scaled(factor: &i64, number: &i128) -> Result<i128, SemError>
    ensures value { IfOk result (λ made. made ≡ factor.now *ℤ number.now) }
    ensures wide { IfErr result (λ e. FitsSigned w128 (factor.now *ℤ number.now) → ⊥) }
{
    match i128::from(*factor).checked_mul(*number) {
        Some(number) => Ok(number),
        None => Err(SemError::Wide),
    }
}

/// Whether a constant divides a number: some whole number times the constant is the number.
pub(crate) fn divides(factor: i64, number: i128) -> bool
    ensures { result ≡ divides_number factor number }
{
    let factor = factor.unsigned_abs() as u128;
    let size = number.unsigned_abs();
    if factor == 0 {
        size == 0
    } else {
        size % factor == 0
    }
}

/// Whether two truths are the same.
pub(crate) fn agree(left: bool, right: bool) -> bool
    ensures { result ≡ agree left right }
{
    if left { right } else { !right }
}

/// Whether two numbers are the same.
pub(crate) fn equal(left: i128, right: i128) -> bool
    ensures { result ≡ int_eq left right }
{
    left == right
}

/// Whether the second is true where the first is.
pub(crate) fn follows(left: bool, right: bool) -> bool
    ensures { result ≡ (not left || right) }
{
    !left || right
}
