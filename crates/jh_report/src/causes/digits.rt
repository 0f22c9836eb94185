ghost use Rattle.std.specs.Prelude.{◌≡◌, ◌+◌, ◌*◌, ℕ, List, IfOk, ◌++◌, ◌^◌, nat_lt, if◌then◌else◌, Some, None, string_bytes, OnOk};
ghost use Rattle.jh_query.specs.queries.Sizing.{spelled};
ghost use Rattle.jh_report.specs.causes.Digits as spec;

use jh_name::NoMemory;

/// A number with a binary digit behind it, where it lies in `u128`.
fn with_digit(number: u128, digit: bool) -> Option<u128>
    ensures { result ≡ (if nat_lt ((if digit then 1 else 0) + 2 * number) (2 ^ 128) then Some ((if digit then 1 else 0) + 2 * number) else None) }
{
    let double = number.checked_mul(2)?;
    if digit {
        double.checked_add(1)
    } else {
        Some(double)
    }
}

/// The number that digits spell, where it lies in `u128`.
fn value_of(digits: &[bool]) -> Option<u128>
    ensures { result ≡ (if nat_lt (spelled digits.now) (2 ^ 128) then Some (spelled digits.now) else None) }
{
    let mut value = 0;
    let mut at = digits.len();
    'digits: while at > 0 {
        at -= 1;
        match with_digit(value, digits[at]) {
            Some(more) => value = more,
            None => return None,
        }
    }
    Some(value)
}

/// Adds a binary digit where it is no zero in front; the answer says whether it is none.
fn add_digit(text: &mut String, started: bool, digit: bool) -> Result<bool, NoMemory>
    ensures { (front shown : List ℕ) → string_bytes text.old ≡ front ++ shown → started ≡ spec.is_text shown → IfOk result (λ more. (string_bytes text.new ≡ front ++ spec.with_digit shown digit) × (more ≡ spec.is_text (spec.with_digit shown digit))) }
{
    if digit {
        text.push_str("1")?;
        return Ok(true);
    }
    if started {
        text.push_str("0")?;
    }
    Ok(started)
}

/// Adds binary digits, the greatest first, without zeros in front.
fn add_binary(text: &mut String, digits: &[bool]) -> Result<(), NoMemory>
    ensures { OnOk result (string_bytes text.new ≡ string_bytes text.old ++ spec.binary digits.now) }
{
    let mut started = false;
    let mut at = digits.len();
    'digits: while at > 0 {
        at -= 1;
        started = add_digit(text, started, digits[at])?;
    }
    Ok(())
}

/// Adds the number that digits spell: in decimal where it is below 2 to the power of 128, and else its binary digits.
pub(crate) fn add_digits(text: &mut String, digits: &[bool]) -> Result<(), NoMemory>
    ensures { OnOk result (string_bytes text.new ≡ string_bytes text.old ++ spec.digits_text digits.now) }
{
    match value_of(digits) {
        Some(value) => {
            write!(text, "{value}")?;
            Ok(())
        }
        None => {
            text.push_str("0b")?;
            add_binary(text, digits)
        }
    }
}
