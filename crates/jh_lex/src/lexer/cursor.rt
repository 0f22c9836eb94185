ghost use Rattle.std.specs.Prelude.{◌≡◌, ◌+◌, ◌<◌, ◌≤◌, ◌^◌, length, take, drop};
ghost use Rattle.std.specs.Char.{len_utf8};
ghost use Rattle.jh_lex.specs.lexer.Places.{start, after, after_character, byte_count, IsShort};

use jh_name::Place;

/// What is still to be read of a text, and the place where it begins.
#[derive(Clone, Copy)]
pub(crate) struct Cursor<'a> {
    pub(crate) rest: &'a [char],
    pub(crate) place: Place,
    ghost short: { IsShort place rest.now },
}

/// The place behind a character.
fn after_character(place: Place, c: char) -> Place
    requires line { place.line + 1 < 2 ^ 32 }
    requires column { place.column + len_utf8 c < 2 ^ 32 }
    ensures { result ≡ after_character place c }
{
    if c == '\n' {
        Place {
            line: place.line + 1,
            column: 1,
        }
    } else {
        Place {
            line: place.line,
            column: place.column + c.len_utf8() as u32,
        }
    }
}

/// The place behind characters of which the first stands at this place.
fn after(place: Place, text: &[char]) -> Place
    requires { IsShort place text.now }
    ensures { result ≡ after place text.now }
{
    let mut at = place;
    for c in text {
        at = after_character(at, *c);
    }
    at
}

impl<'a> Cursor<'a> {
    /// The beginning of a source.
    pub(crate) fn start(text: &'a [char]) -> Cursor<'a>
        requires { byte_count text.now + 2 ≤ 2 ^ 32 }
        ensures rest { result.rest.now ≡ text.now }
        ensures place { result.place ≡ start }
    {
        Cursor {
            rest: text,
            place: Place { line: 1, column: 1 },
        }
    }

    /// The cursor behind `n` characters.
    pub(crate) fn skip(self, n: usize) -> Cursor<'a>
        requires { n ≤ length self.rest.now }
        ensures rest { result.rest.now ≡ drop n self.entry.rest.now }
        ensures place { result.place ≡ after self.entry.place (take n self.entry.rest.now) }
    {
        let (front, rest) = self.rest.split_at(n);
        Cursor {
            rest,
            place: after(self.place, front),
        }
    }

    /// The first `n` characters alone.
    pub(crate) fn cut(self, n: usize) -> Cursor<'a>
        requires { n ≤ length self.rest.now }
        ensures rest { result.rest.now ≡ take n self.entry.rest.now }
        ensures place { result.place ≡ self.entry.place }
    {
        let (front, _) = self.rest.split_at(n);
        Cursor {
            rest: front,
            place: self.place,
        }
    }
}
