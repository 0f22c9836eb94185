//! What kind of word a word is.
#![tactic(auto)]

ghost use Rattle.std.specs.Prelude.{◌≡◌, option_map};
ghost use Rattle.jh_arguments.specs.Arguments as spec;
ghost use Rattle.jh_arguments.specs.Held.{shape_in};

/// What kind of word a word is.
#[derive(Clone, Copy)]
pub(crate) enum Shape<'a> {
    /// `--name`, an option whose value is the next word.
    Named(&'a str),
    /// `--name=value`.
    Valued(&'a str, &'a str),
    /// `--`, which ends the options.
    End,
    /// Any other word that begins with `-`.
    Dashed,
    /// A word that doesn't begin with `-`.
    Plain,
}

/// What follows a hyphen at the beginning of a text.
fn after_hyphen(text: &str) -> Option<&str>
    ensures { option_map (λ rest. rest.now) result ≡ spec.after_hyphen text.now }
{
    text.strip_prefix('-')
}

pub(crate) fn begins_with_hyphen(word: &str) -> bool
    ensures { result ≡ spec.begins_with_hyphen word.now }
{
    after_hyphen(word).is_some()
}

/// What stands before the first equals sign of a text and what stands behind it.
fn cut_at_equals(text: &str) -> Option<(&str, &str)>
    ensures { option_map (λ p. (p.0.now, p.1.now)) result ≡ spec.cut_at 61 text.now }
{
    text.split_once('=')
}

/// What stands before the first dot of a text and what stands behind it.
pub fn cut_at_dot(text: &str) -> Option<(&str, &str)>
    ensures { option_map (λ p. (p.0.now, p.1.now)) result ≡ spec.cut_at 46 text.now }
{
    text.split_once('.')
}

/// What kind of word is `--` with a text behind it.
fn long_shape(text: &str) -> Shape<'_>
    ensures { shape_in result ≡ spec.long_shape text.now }
{
    if text.is_empty() {
        return Shape::End;
    }
    match cut_at_equals(text) {
        None => Shape::Named(text),
        Some((name, value)) => Shape::Valued(name, value),
    }
}

/// What kind of word a word is.
pub(crate) fn shape_of(word: &str) -> Shape<'_>
    ensures { shape_in result ≡ spec.shape word.now }
{
    match after_hyphen(word) {
        None => Shape::Plain,
        Some(rest) => match after_hyphen(rest) {
            None => Shape::Dashed,
            Some(text) => long_shape(text),
        },
    }
}
