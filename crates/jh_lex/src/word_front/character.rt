ghost use Rattle.std.specs.Prelude.{◌≡◌};
ghost use Rattle.jh_lex.specs.word_front.Characters.{starts_word, continues_word};

/// Whether a word may begin with the character.
pub fn starts_word(c: char) -> bool
    ensures { result ≡ starts_word c }
{
    unicode_ident::is_xid_start(c) || c == '_'
}

/// Whether a word may go on with the character.
pub(crate) fn continues_word(c: char) -> bool
    ensures { result ≡ continues_word c }
{
    unicode_ident::is_xid_continue(c)
}
