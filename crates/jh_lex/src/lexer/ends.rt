ghost use Rattle.std.specs.Prelude.{◌≡◌, ◌+◌, ◌≤◌, ◌==◌, length, IfSome};
ghost use Rattle.std.specs.List.{position};
ghost use Rattle.jh_lex.specs.lexer.Ends.{close_at, quote_at, line_length};

/// How many characters stand before the first `*/`.
pub(crate) fn close_at(text: &[char]) -> Option<usize>
    ensures value { result ≡ close_at text.now }
    ensures within { IfSome result (λ n. n + 2 ≤ length text.now) }
{
    for (i, c) in text.iter().enumerate() {
        if *c == '*' && i + 1 < text.len() && text[i + 1] == '/' {
            return Some(i);
        }
    }
    None
}

/// How many characters stand before the first quote.
pub(crate) fn quote_at(text: &[char]) -> Option<usize>
    ensures { result ≡ quote_at text.now }
{
    text.iter().position(|c| *c == '"')
}

/// How many characters stand before the first line feed.
fn line_feed_at(text: &[char]) -> Option<usize>
    ensures { result ≡ position (λ c. c == 10) text.now }
{
    text.iter().position(|c| *c == '\n')
}

/// How many characters the line still has.
pub(crate) fn line_len(text: &[char]) -> usize
    ensures { result ≡ line_length text.now }
{
    line_feed_at(text).unwrap_or(text.len())
}
