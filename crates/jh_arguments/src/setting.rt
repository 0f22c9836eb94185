//! The options, and the numbers that are given for them.
#![tactic(auto)]

ghost use Rattle.std.specs.Prelude.{◌≡◌, ◌≤◌, ◌<◌, ◌^◌, true, map, option_map, IfSome, MatchOption};
ghost use Rattle.std.specs.Str.Parse.{digits_value};
ghost use Rattle.jh_arguments.specs.Arguments as spec;
ghost use Rattle.jh_arguments.specs.Held.{are_among_in, are_once_in, given_in, has_in, is_among_in, setting_in};

use crate::reader::Given;

/// An option, with the least and the greatest number that may be given for it, and the one that is meant where it isn't given.
#[derive(Clone, Copy)]
pub struct Setting {
    pub name: &'static str,
    pub least: u64,
    pub most: u64,
    pub default: u64,
}

/// How many sequents are proved at a time.
pub fn workers() -> Setting
    ensures { setting_in result ≡ spec.workers }
{
    Setting {
        name: "workers",
        least: 1,
        most: 16,
        default: 1,
    }
}

/// How many rounds the search for a proof takes.
pub fn rounds() -> Setting
    ensures { setting_in result ≡ spec.rounds }
{
    Setting {
        name: "rounds",
        least: 1,
        most: 4,
        default: 1,
    }
}

/// How many branches the search for a proof may close.
pub fn leaves() -> Setting
    ensures { setting_in result ≡ spec.leaves }
{
    Setting {
        name: "leaves",
        least: 1,
        most: 100_000,
        default: 5_000,
    }
}

/// How many steps a run may take.
pub fn steps() -> Setting
    ensures { setting_in result ≡ spec.steps }
{
    Setting {
        name: "steps",
        least: 0,
        most: 1_000_000,
        default: 10_000,
    }
}

/// The option of a name.
pub fn setting_named(name: &str) -> Option<Setting>
    ensures { IfSome result (λ setting. setting.most < 2 ^ 32) }
{
    match name {
        "workers" => Some(workers()),
        "rounds" => Some(rounds()),
        "leaves" => Some(leaves()),
        "steps" => Some(steps()),
        _ => None,
    }
}

/// Whether all bytes are digits.
fn are_digits(bytes: &[u8]) -> bool
    ensures { result ≡ spec.are_digits bytes.now }
{
    bytes.iter().all(|byte| 48 <= *byte && *byte <= 57)
}

/// Whether a word is 1 to 18 digits.
fn is_number(word: &str) -> bool
    ensures { result ≡ spec.is_number word.now }
{
    1 <= word.len() && word.len() <= 18 && are_digits(word.as_bytes())
}

/// The number that digits write, where it is one of 64 bits.
fn value_of(word: &str) -> Option<u64>
    requires { spec.is_number word.now ≡ true }
    ensures { MatchOption result (2 ^ 64 ≤ digits_value 10 word.now) (λ number. number ≡ digits_value 10 word.now) }
{
    match word.parse::<u64>() {
        Ok(number) => Some(number),
        Err(_) => None,
    }
}

/// The number that a word is.
pub fn number_in(word: &str) -> Option<u64>
    ensures { result ≡ spec.number_in word.now }
{
    if !is_number(word) {
        return None;
    }
    value_of(word)
}

/// A number of methods, where a source may have so many.
fn methods_within(number: u64) -> Option<u64>
    ensures methods { result ≡ spec.methods_within number }
    ensures few { IfSome result (λ methods. methods ≤ 200) }
{
    if 1 <= number && number <= 200 {
        Some(number)
    } else {
        None
    }
}

/// The number of methods that a word is, where a source may have so many.
pub fn methods_in(word: &str) -> Option<u64>
    ensures methods { result ≡ spec.methods_in word.now }
    ensures few { IfSome result (λ methods. methods ≤ 200) }
{
    match number_in(word) {
        Some(number) => methods_within(number),
        None => None,
    }
}

/// A number, where it may be given for an option.
fn within(setting: &Setting, number: u64) -> Option<u64>
    ensures { result ≡ spec.number_within (setting_in setting.now) number }
{
    if setting.least <= number && number <= setting.most {
        Some(number)
    } else {
        None
    }
}

/// The number that a word is for an option.
pub fn number_for(setting: &Setting, word: &str) -> Option<u64>
    requires { setting.now.most < 2 ^ 32 }
    ensures { result ≡ spec.number_for (setting_in setting.now) word.now }
{
    if !is_number(word) {
        return None;
    }
    match value_of(word) {
        Some(number) => within(setting, number),
        None => None,
    }
}

/// Whether an option is one of those that are given.
pub fn has(options: &[Given<'_>], name: &str) -> bool
    ensures { result ≡ has_in name.now options.now }
{
    options.iter().any(|given| given.name == name)
}

/// The first value that is given for an option.
fn value_for<'a>(options: &[Given<'a>], name: &str) -> Option<&'a str>
    ensures { option_map (λ value. value.now) result ≡ spec.value_for name.now (map given_in options.now) }
{
    for given in options.iter() {
        if given.name == name {
            return Some(given.value);
        }
    }
    None
}

/// The number that is meant for an option, where those that are given allow one.
pub fn number_of(setting: &Setting, options: &[Given<'_>]) -> Option<u64>
    requires most { setting.now.most < 2 ^ 32 }
    requires default { setting.now.default ≤ setting.now.most }
    ensures number { result ≡ spec.number_of (setting_in setting.now) (map given_in options.now) }
    ensures within { IfSome result (λ number. number ≤ setting.now.most) }
{
    match value_for(options, setting.name) {
        None => Some(setting.default),
        Some(value) => number_for(setting, value),
    }
}

/// Whether a name is one of some.
fn is_among(names: &[&str], name: &str) -> bool
    ensures { result ≡ is_among_in names.now name.now }
{
    names.iter().any(|other| name == *other)
}

/// Whether each option that is given is one of these.
fn are_among(names: &[&str], options: &[Given<'_>]) -> bool
    ensures { result ≡ are_among_in names.now options.now }
{
    options.iter().all(|given| is_among(names, given.name))
}

/// Whether none is given twice. It goes no deeper than to the first that is given again.
fn are_once(options: &[Given<'_>]) -> bool
    ensures { result ≡ are_once_in options.now }
{
    match options {
        [] => true,
        [given, behind @ ..] => !has(behind, given.name) && are_once(behind),
    }
}

/// Whether each option that is given is one of these, and none is given twice.
#[tactic(auto, using(crate::proofs::Lists::both_so, crate::proofs::Lists::first_not))]
pub fn are_options(names: &[&str], options: &[Given<'_>]) -> bool
    ensures { result ≡ spec.are_options (map (λ name. name.now) names.now) (map given_in options.now) }
{
    are_among(names, options) && are_once(options)
}
