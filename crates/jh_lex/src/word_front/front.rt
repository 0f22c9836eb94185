ghost use Rattle.std.specs.Prelude.{◌≡◌, ◌+◌, ◌<◌, ◌≤◌, length};
ghost use Rattle.std.specs.List.{prefix_len};
ghost use Rattle.jh_lex.specs.word_front.Characters.{continues_word};
ghost use Rattle.jh_lex.specs.word_front.Lengths.{word_length, right_length, qualified_length};

use crate::word_front::character::{continues_word, starts_word};

/// How many characters at the front continue a word.
fn front_len(text: &[char]) -> usize
    ensures value { result ≡ prefix_len continues_word text.now }
    ensures within { result ≤ length text.now }
{
    for (i, c) in text.iter().enumerate() {
        if !continues_word(*c) {
            return i;
        }
    }
    text.len()
}

/// How many characters the word at the front has: 0 where there is none.
#[tactic(auto, using(crate::proofs::word_front::Counts::word_rules))]
pub fn word_len(text: &[char]) -> usize
    ensures value { result ≡ word_length text.now }
    ensures within { result ≤ length text.now }
{
    if text.is_empty() || !starts_word(text[0]) {
        return 0;
    }
    1 + front_len(&text[1..])
}

/// How many characters the word has that is the right half of a qualified word, whose left half has
/// `n` characters: 0 where no qualified word is at the front, or there are none of them.
fn right_len(qualified: bool, n: usize, text: &[char]) -> usize
    requires { n ≤ length text.now }
    ensures value { result ≡ right_length qualified n text.now }
    ensures within { 0 < result → n + 1 + result ≤ length text.now }
{
    if qualified && n < text.len() && text[n] == '.' {
        word_len(&text[n + 1..])
    } else {
        0
    }
}

/// How many characters the qualified word or the word at the front has, where the word at the front
/// has `n`. `qualified` says whether there are qualified words.
pub fn qualified_len(qualified: bool, n: usize, text: &[char]) -> usize
    requires { n ≤ length text.now }
    ensures value { result ≡ qualified_length qualified n text.now }
    ensures within { result ≤ length text.now }
{
    let right = right_len(qualified, n, text);
    if right > 0 { n + 1 + right } else { n }
}
