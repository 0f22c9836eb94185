ghost use Rattle.std.specs.Prelude.{◌≡◌, Some, None};
ghost use Rattle.std.specs.Option.{MatchOption};
ghost use Rattle.jh_rules.specs.Names as names;
ghost use Rattle.jh_rules.specs.Words as words;

/// The two halves of a qualified word.
fn halves(text: &str) -> Option<(&str, &str)>
    ensures { MatchOption result (words.halves text.now ≡ None) (λ h. words.halves text.now ≡ Some (h.0.now, h.1.now)) }
{
    text.split_once('.')
}

/// The own name in a qualified word, or the whole of a plain one.
pub fn own_name(text: &str) -> &str
    ensures { result.now ≡ names.own_name text.now }
{
    match halves(text) {
        None => text,
        Some((_class, own)) => own,
    }
}
