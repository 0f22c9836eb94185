#![tactic(auto, unfolding(jh_vars::specs::Opened::uses_this))]

ghost use Rattle.std.specs.Prelude.{◌≡◌, ◌||◌, ◌++◌, ◌∷◌, [], not, false, map, codes, IfOk};
ghost use Rattle.std.specs.Option.{option_map_or};
ghost use Rattle.jh_ast.specs.Bare.{form_tree, form_trees};
ghost use Rattle.jh_rules.specs.Names.{declared_in};
ghost use Rattle.jh_rules.specs.Words.{is_one_of, same_text, text_of};
ghost use Rattle.jh_rules.specs.declared.entries.StateEntry.{StateEntry};
ghost use Rattle.jh_symbols.specs.scopes.Lookings.{declared_by};
ghost use Rattle.jh_vars.specs.Opened as opened;
ghost use Rattle.jh_definitions.specs.jh_resolution.Spots.{texts_of};
ghost use Rattle.jh_unfolding.specs.unfolder.Adding.{program_of};

use jh_ast::{SpecBody, SpecTree, Word};
use jh_definitions::jh_resolution::{Context, under};
use jh_name::NoMemory;
use jh_rules::StateEntry;
use jh_type::formula_kinds::state_spelled;
use std::alloc::Global;
use std::slice::from_ref;

/// Where a formula outside methods stands: the program, its class and the bound names, the outermost first.
#[derive(Clone, Copy)]
pub struct Using<'a> {
    pub context: &'a Context<'a>,
    pub class: usize,
    pub bound: &'a [&'a Word],
}

/// Whether a text is a bound name.
fn is_bound(bound: &[&Word], text: &str) -> bool
    ensures { result ≡ is_one_of text.now (texts_of bound.now) }
{
    for word in bound {
        if text == word.text.text() {
            return true;
        }
    }
    false
}

/// Whether a text is `this`.
fn is_this(text: &str) -> bool
    ensures { result ≡ same_text text.now (codes "this") }
{
    text == "this"
}

/// Whether one or the other.
fn either(first: bool, second: bool) -> bool
    ensures { result ≡ (first || second) }
{
    first || second
}

/// Whether a text is a name that is no member in any class, `this` aside.
fn is_special(text: &str) -> bool
    ensures { result ≡ is_one_of text.now (codes "result" ∷ codes "alloc" ∷ codes "Object" ∷ codes "Object.alloc" ∷ []) }
{
    text == "result" || text == "alloc" || text == "Object" || text == "Object.alloc"
}

/// Whether there is one of a piece of state for each object.
fn is_of_object(state: Option<StateEntry>) -> bool
    ensures { result ≡ option_map_or (λ (s : StateEntry). not s.fixed) state false }
{
    match state {
        None => false,
        Some(state) => !state.fixed,
    }
}

/// Whether a name uses `this`, spelled or not.
fn name_uses(at: &Using, word: &Word) -> bool
    requires { declared_by at.now.context.now.lookups.now ≡ declared_in (program_of at.now.context.now) }
    ensures { result ≡ opened.name_uses (program_of at.now.context.now) at.now.class (texts_of at.now.bound.now) word.now }
{
    let text = word.text.text();
    if is_bound(at.bound, text) {
        return false;
    }
    if is_this(text) {
        return true;
    }
    if is_special(text) {
        return false;
    }
    is_of_object(state_spelled(at.context.lookups, at.class, text))
}

/// Whether one of some formulas uses `this`.
#[cycle(uses_this)]
fn one_uses(alloc: Global, at: &Using, forms: &[SpecTree]) -> Result<bool, NoMemory>
    requires { declared_by at.now.context.now.lookups.now ≡ declared_in (program_of at.now.context.now) }
    ensures { IfOk result (λ uses. uses ≡ opened.one_uses_this (program_of at.now.context.now) (form_trees forms.now) at.now.class (texts_of at.now.bound.now)) }
{
    let mut found = false;
    for form in forms {
        let next = uses_this(alloc, at, form)?;
        found = either(found, next);
    }
    Ok(found)
}

/// Whether a formula under a binder of some words uses `this`.
#[cycle(uses_this)]
fn uses_under(alloc: Global, at: &Using, words: &[Word], form: &SpecTree) -> Result<bool, NoMemory>
    requires { declared_by at.now.context.now.lookups.now ≡ declared_in (program_of at.now.context.now) }
    ensures { IfOk result (λ uses. uses ≡ opened.uses_this (program_of at.now.context.now) (form_tree form.now) at.now.class (texts_of at.now.bound.now ++ map text_of words.now)) }
{
    let bound = under(alloc, at.bound, words)?;
    uses_this(
        alloc,
        &Using {
            bound: bound.as_slice(),
            ..*at
        },
        form,
    )
}

/// Whether a formula outside methods uses `this` as it is written, spelled or not.
#[cycle(uses_this)]
pub fn uses_this(alloc: Global, at: &Using, form: &SpecTree) -> Result<bool, NoMemory>
    requires { declared_by at.now.context.now.lookups.now ≡ declared_in (program_of at.now.context.now) }
    ensures { IfOk result (λ uses. uses ≡ opened.uses_this (program_of at.now.context.now) (form_tree form.now) at.now.class (texts_of at.now.bound.now)) }
{
    match &form.body {
        SpecBody::Null => Ok(false),
        SpecBody::True => Ok(false),
        SpecBody::False => Ok(false),
        SpecBody::Univ => Ok(false),
        SpecBody::Number(_) => Ok(false),
        SpecBody::Name(word) => Ok(name_uses(at, word)),
        SpecBody::Member(inner, _) => uses_this(alloc, at, inner),
        SpecBody::Not(inner) => uses_this(alloc, at, inner),
        SpecBody::Minus(inner) => uses_this(alloc, at, inner),
        SpecBody::Old(inner) => uses_this(alloc, at, inner),
        SpecBody::Card(inner) => uses_this(alloc, at, inner),
        SpecBody::Binary(_, left, right) => {
            let first = uses_this(alloc, at, left)?;
            let second = uses_this(alloc, at, right)?;
            Ok(either(first, second))
        }
        SpecBody::Dvd(_, inner) => uses_this(alloc, at, inner),
        SpecBody::All(words, inner) => uses_under(alloc, at, words.items(), inner),
        SpecBody::Ex(words, inner) => uses_under(alloc, at, words.items(), inner),
        SpecBody::Tree(_) => Ok(false),
        SpecBody::Rtrancl(_, _, _, left, right) => {
            let first = uses_this(alloc, at, left)?;
            let second = uses_this(alloc, at, right)?;
            Ok(either(first, second))
        }
        SpecBody::Braces(forms) => one_uses(alloc, at, forms.items()),
        SpecBody::Compr(word, inner) => uses_under(alloc, at, from_ref(word), inner),
    }
}
