#![tactic(auto, unfolding(crate::specs::lines::Bytes::natural_of, crate::specs::lines::Bytes::negative_of, crate::specs::lines::Bytes::integer_of, crate::specs::lines::Bytes::objects_of))]

ghost use Rattle.std.specs.Prelude.{◌≡◌, ◌≤◌, ◌+◌, ◌^◌, true, map, option_map, MatchOption, IfOk};
ghost use Rattle.jh_heap.specs.lines.Bytes as spec;

use crate::lines::bytes::split;
use jh_name::{NoMemory, Row};
use std::alloc::Global;

/// Whether all bytes are digits.
fn are_digits(word: &[u8]) -> bool
    ensures { result ≡ spec.are_digits word.now }
{
    word.iter().all(|byte| 47 < *byte && *byte < 58)
}

/// Whether bytes are digits, at least one, without a 0 before others.
fn is_numeral(word: &[u8]) -> bool
    ensures { result ≡ spec.is_numeral word.now }
{
    match word {
        [] => false,
        [first, ..] => are_digits(word) && (word.len() == 1 || 48 < *first),
    }
}

/// A number that with one more digit is beyond 64 bits.
const MANY: u64 = 922_337_203_685_477_580;

/// The number that digits write, where it isn't far beyond 64 bits.
#[tactic(auto, using(crate::proofs::lines::Numerals::value_next, crate::proofs::lines::Numerals::value_beyond))]
fn numeral_value(word: &[u8]) -> Option<u64>
    requires { spec.are_digits word.now ≡ true }
    ensures { MatchOption result (2 ^ 63 + 1 ≤ spec.numeral_value word.now) (λ value. spec.numeral_value word.now ≡ value) }
{
    let mut value = 0;
    for byte in word.iter() {
        if value > MANY {
            return None;
        }
        value = 10 * value + u64::from(*byte - 48);
    }
    Some(value)
}

/// The number that isn't negative and that bytes spell, where they do.
pub(crate) fn natural_of(word: &[u8]) -> Option<u64>
    ensures { result ≡ spec.natural_of word.now }
{
    if !is_numeral(word) {
        return None;
    }
    match numeral_value(word) {
        None => None,
        Some(value) => { if value < 1 << 63 { Some(value) } else { None } }
    }
}

/// The negative number whose digits bytes spell, where they do.
fn negative_of(word: &[u8]) -> Option<i64>
    ensures { result ≡ spec.negative_of word.now }
{
    if !is_numeral(word) {
        return None;
    }
    match numeral_value(word) {
        None => None,
        Some(value) => {
            if 0 < value && value <= 1 << 63 {
                Some((-(value as i128)) as i64)
            } else {
                None
            }
        }
    }
}

/// The number that bytes spell, where they do.
pub(crate) fn integer_of(word: &[u8]) -> Option<i64>
    ensures { result ≡ spec.integer_of word.now }
{
    match word {
        [b'-', rest @ ..] => negative_of(rest),
        _ => match natural_of(word) {
            None => None,
            Some(value) => Some(value as i64),
        },
    }
}

/// The numbers that words spell, where they do and each is greater than the one before it.
fn ascending_of(alloc: Global, words: &[&[u8]]) -> Result<Option<Vec<u64>>, NoMemory>
    ensures { IfOk result (λ found. option_map (λ made. made.items) found ≡ spec.ascending_from None (map (λ word. word.now) words.now)) }
{
    let mut made = Vec::new(alloc);
    let mut least = None;
    for word in words.iter() {
        match natural_of(word) {
            None => return Ok(None),
            Some(value) => {
                if !is_beyond(least, value) {
                    return Ok(None);
                }
                made.push(value)?;
                least = Some(value);
            }
        }
    }
    Ok(Some(made))
}

/// Whether a number is greater than the one before it.
fn is_beyond(least: Option<u64>, value: u64) -> bool
    ensures { result ≡ spec.is_beyond least value }
{
    match least {
        None => true,
        Some(least) => least < value,
    }
}

/// The objects that bytes spell with a space between each two, where they do and ascend.
pub(crate) fn objects_of(alloc: Global, bytes: &[u8]) -> Result<Option<Row<u64>>, NoMemory>
    ensures { IfOk result (λ found. found ≡ spec.objects_of bytes.now) }
{
    let words = split(alloc, b' ', bytes)?;
    match ascending_of(alloc, &words)? {
        None => Ok(None),
        Some(made) => Ok(Some(Row::of(made))),
    }
}
