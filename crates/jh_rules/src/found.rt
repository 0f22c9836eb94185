#![tactic(auto, using(crate::proofs::Judgements::find_steps), unfolding(crate::specs::Found::least, crate::specs::Found::is_less))]

ghost use Rattle.std.specs.Prelude.{◌≡◌, Some, None, Option};
ghost use Rattle.jh_rules.specs.Faults.{Judged, needs, right, wrong, given, both};
ghost use Rattle.jh_rules.specs.Found.{Finds, is_less, lesser, asked_of};

use crate::Fault;
use jh_ast::jh_name::Place;

/// What is found of a part of a program: the least fault in it, and what is known of it where nothing in it
/// is wrong.
#[derive(Clone, Copy, PartialEq, Eq)]
pub struct Found<T> {
    pub least: Option<Fault>,
    pub known: Option<T>,
}

/// Whether a fault is less than another: earlier in the text, or of a lesser rule at the same place.
fn is_less(left: Fault, right: Fault) -> bool
    ensures { result ≡ is_less left right }
{
    left.place.line < right.place.line
        || (left.place.line == right.place.line
            && (left.place.column < right.place.column
                || (left.place.column == right.place.column && left.rule < right.rule)))
}

/// The lesser of two faults, where there are any.
pub fn lesser(left: Option<Fault>, right: Option<Fault>) -> Option<Fault>
    ensures { result ≡ lesser left right }
{
    match left {
        None => right,
        Some(first) => match right {
            None => left,
            Some(second) => { if is_less(second, first) { right } else { left } }
        },
    }
}

/// Something known, and nothing wrong.
pub fn right<T: Copy>(known: T) -> Found<T>
    ensures { Finds result (right known) }
{
    Found {
        least: None,
        known: Some(known),
    }
}

/// What is known where it is, and nothing wrong here.
pub fn given<T: Copy>(known: Option<T>) -> Found<T>
    ensures { Finds result (given known) }
{
    Found { least: None, known }
}

/// A broken rule.
pub fn wrong<T: Copy>(rule: u8, place: Place) -> Found<T>
    ensures { Finds result (wrong rule place) }
{
    Found {
        least: Some(Fault { place, rule }),
        known: None,
    }
}

/// What is known where the test holds, and else a broken rule.
pub fn needs<T: Copy>(test: bool, rule: u8, place: Place, known: T) -> Found<T>
    ensures { Finds result (needs test rule place known) }
{
    if test {
        right(known)
    } else {
        wrong(rule, place)
    }
}

/// What is found of a part that is known and of what is asked of it.
pub fn after<T: Copy, U: Copy>(found: Found<T>, rule: Found<U>) -> Found<U>
    ensures { (a : Judged T) (f : T → Judged U) (x : T) → Finds found a → found.known ≡ Some x → Finds rule (f x) → Finds result (asked_of a f) }
{
    Found {
        least: lesser(found.least, rule.least),
        known: rule.known,
    }
}

/// What is found of a part that isn't known: of it nothing further is asked.
pub fn stop<T: Copy, U: Copy>(found: Found<T>) -> Found<U>
    ensures { (a : Judged T) (f : T → Judged U) → Finds found a → found.known ≡ None → Finds result (asked_of a f) }
{
    Found {
        least: found.least,
        known: None,
    }
}

/// Two things where both are known.
fn pair_of<T: Copy, U: Copy>(left: Option<T>, right: Option<U>) -> Option<(T, U)>
    ensures { result ≡ Rattle.jh_rules.specs.Faults.pair_of left right }
{
    match left {
        None => None,
        Some(first) => match right {
            None => None,
            Some(second) => Some((first, second)),
        },
    }
}

/// What is found of two parts.
pub fn both<T: Copy, U: Copy>(left: Found<T>, right: Found<U>) -> Found<(T, U)>
    ensures { (a : Judged T) (b : Judged U) → Finds left a → Finds right b → Finds result (both a b) }
{
    Found {
        least: lesser(left.least, right.least),
        known: pair_of(left.known, right.known),
    }
}
