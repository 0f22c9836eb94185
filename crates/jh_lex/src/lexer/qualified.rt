ghost use Rattle.std.specs.Prelude.{◌≡◌, ◌≢◌, ◌++◌, ◌∷◌, MatchOption};
ghost use Rattle.jh_lex.specs.lexer.Shapes.{HasNoDot, IsWordText, IsQualifiedName};

use jh_name::Name;

/// What stands before the first dot of a name and what stands after it; none where it holds no dot. Of a qualified word these
/// are its two words.
pub fn halves(name: &Name) -> Option<(&str, &str)>
    ensures parts { MatchOption result (HasNoDot name.now.text) (λ parts. (name.now.text ≡ parts.0.now ++ 46 ∷ parts.1.now) × HasNoDot parts.0.now) }
    ensures words { IsQualifiedName name.now → MatchOption result ⊥ (λ parts. IsWordText parts.0.now × IsWordText parts.1.now) }
{
    name.text().split_once('.')
}
