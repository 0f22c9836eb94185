ghost use Rattle.std.specs.Prelude.{◌≡◌, ◌∷◌, ◌++◌, map, OnOk, IfOk};
ghost use Rattle.jh_rules.specs.Words.{is_one_of, text_of};

use jh_ast::Word;
use jh_name::{NoMemory, Text};
use std::alloc::Global;

/// Whether a name is one of some bound names.
pub fn is_bound(text: &str, bound: &[Text]) -> bool
    ensures { result ≡ is_one_of text.now bound.now }
{
    bound.iter().any(|name| text == name.text())
}

/// Adds the names of some words.
fn add_words(alloc: Global, made: &mut Vec<Text>, words: &[Word]) -> Result<(), NoMemory>
    ensures { OnOk result (made.new.items ≡ made.old.items ++ map text_of words.now) }
{
    for word in words.iter() {
        let text = String::from_str(alloc, word.text.text())?;
        made.push(Text::of(text))?;
    }
    Ok(())
}

/// Adds some names.
fn add_names(alloc: Global, made: &mut Vec<Text>, names: &[Text]) -> Result<(), NoMemory>
    ensures { OnOk result (made.new.items ≡ made.old.items ++ names.now) }
{
    for name in names.iter() {
        let text = String::from_str(alloc, name.text())?;
        made.push(Text::of(text))?;
    }
    Ok(())
}

/// The names that are bound under a binder of some words.
pub fn bound_under(alloc: Global, words: &[Word], bound: &[Text]) -> Result<Vec<Text>, NoMemory>
    ensures { IfOk result (λ made. made.items ≡ map text_of words.now ++ bound.now) }
{
    let mut made = Vec::new(alloc);
    add_words(alloc, &mut made, words)?;
    add_names(alloc, &mut made, bound)?;
    Ok(made)
}

/// The names that are bound under a binder of one word.
pub fn bound_by(alloc: Global, word: &Word, bound: &[Text]) -> Result<Vec<Text>, NoMemory>
    ensures { IfOk result (λ made. made.items ≡ text_of word.now ∷ bound.now) }
{
    let mut made = Vec::new(alloc);
    let text = String::from_str(alloc, word.text.text())?;
    made.push(Text::of(text))?;
    add_names(alloc, &mut made, bound)?;
    Ok(made)
}
