#![tactic(auto, using(jh_rules::proofs::Judgements::find_steps, jh_ast::proofs::FormSteps::form_steps, crate::proofs::formula_kinds::Steps::kind_steps), unfolding(jh_rules::specs::Formulas::equations))]

ghost use Rattle.std.specs.Prelude.{◌≡◌, ◌&&◌, option_copied, IfOk, OnOk};
ghost use Rattle.jh_ast.specs.Bare.{form_tree};
ghost use Rattle.jh_rules.specs.Found.{Finds};
ghost use Rattle.jh_rules.specs.Formulas as forms;
ghost use Rattle.jh_rules.specs.Words.{text_of};
ghost use Rattle.jh_symbols.specs.scopes.Lookings.{declared_by};
ghost use Rattle.jh_type.specs.formula_kinds.Parts as parts;

use crate::formula_kinds::fields::fields_kind;
use jh_ast::{SpecBody, SpecOp, SpecTree, Word};
use jh_name::{Kind, NoMemory, Place, Row};
use jh_rules::{Found, wrong};
use jh_symbols::scopes::Lookups;
use std::alloc::Global;

/// A word once more.
fn copied(alloc: Global, word: &Word) -> Result<Word, NoMemory>
    ensures { IfOk result (λ made. made ≡ word.now) }
{
    let text = word.text.copy(alloc)?;
    Ok(Word {
        text,
        place: word.place,
    })
}

/// Whether a formula is a name.
fn is_name(text: &str, form: &SpecTree) -> bool
    ensures { result ≡ parts.is_name text.now (form_tree form.now) }
{
    match &form.body {
        SpecBody::Name(word) => word.text.text() == text,
        _ => false,
    }
}

/// The field of a read of a name.
fn read_word<'a>(text: &str, form: &'a SpecTree) -> Option<&'a Word>
    ensures { option_copied result ≡ parts.read_word text.now (form_tree form.now) }
{
    match &form.body {
        SpecBody::Member(of, word) => { if is_name(text, of) { Some(word) } else { None } }
        _ => None,
    }
}

/// The field of an equation of a read of the first name and the second name.
fn equation_word<'a>(
    first: &str,
    second: &str,
    left: &'a SpecTree,
    right: &SpecTree,
) -> Option<&'a Word>
    ensures { parts.listed_word (option_copied result) ≡ parts.equation first.now second.now (form_tree left.now) (form_tree right.now) }
{
    match read_word(first, left) {
        None => None,
        Some(word) => {
            if is_name(second, right) {
                Some(word)
            } else {
                None
            }
        }
    }
}

/// Gathers the field of an equation.
fn equation(
    alloc: Global,
    first: &str,
    second: &str,
    left: &SpecTree,
    right: &SpecTree,
    made: &mut Vec<Word>,
) -> Result<bool, NoMemory>
    ensures { IfOk result (λ good. parts.Gathered (parts.equation first.now second.now (form_tree left.now) (form_tree right.now)) made.old.items made.new.items good) }
{
    match equation_word(first, second, left, right) {
        None => Ok(false),
        Some(word) => {
            made.push(copied(alloc, word)?)?;
            Ok(true)
        }
    }
}

/// Whether an operator is `|`.
fn is_or(op: SpecOp) -> bool
    ensures { result ≡ parts.is_or op }
{
    matches!(op, SpecOp::Or)
}

/// Whether an operator is `=`.
fn is_equal(op: SpecOp) -> bool
    ensures { result ≡ parts.is_equal op }
{
    matches!(op, SpecOp::Equal)
}

/// Whether both parts are what is gathered.
fn both_good(good: bool, more: bool) -> bool
    ensures { result ≡ good && more }
{
    good && more
}

/// Gathers the fields of equations that are joined by `|`, where a formula is that.
#[cycle(gather)]
fn gather(
    alloc: Global,
    first: &str,
    second: &str,
    form: &SpecTree,
    made: &mut Vec<Word>,
) -> Result<bool, NoMemory>
    ensures { IfOk result (λ good. parts.Gathered (forms.equations first.now second.now (form_tree form.now)) made.old.items made.new.items good) }
{
    match &form.body {
        SpecBody::Binary(op, left, right) => {
            if is_or(*op) {
                let good = gather(alloc, first, second, left, made)?;
                let more = gather(alloc, first, second, right, made)?;
                Ok(both_good(good, more))
            } else if is_equal(*op) {
                equation(alloc, first, second, left, right, made)
            } else {
                Ok(false)
            }
        }
        SpecBody::Null => Ok(false),
        SpecBody::True => Ok(false),
        SpecBody::False => Ok(false),
        SpecBody::Univ => Ok(false),
        SpecBody::Number(_) => Ok(false),
        SpecBody::Name(_) => Ok(false),
        SpecBody::Member(_, _) => Ok(false),
        SpecBody::Not(_) => Ok(false),
        SpecBody::Minus(_) => Ok(false),
        SpecBody::Old(_) => Ok(false),
        SpecBody::Card(_) => Ok(false),
        SpecBody::Dvd(_, _) => Ok(false),
        SpecBody::All(_, _) => Ok(false),
        SpecBody::Ex(_, _) => Ok(false),
        SpecBody::Tree(_) => Ok(false),
        SpecBody::Rtrancl(_, _, _, _, _) => Ok(false),
        SpecBody::Braces(_) => Ok(false),
        SpecBody::Compr(_, _) => Ok(false),
    }
}

/// The fields of a body of equations of reads of the first name and the second name, joined by `|`, where it
/// is one.
pub fn equation_fields(
    alloc: Global,
    first: &Word,
    second: &Word,
    body: &SpecTree,
) -> Result<Option<Row<Word>>, NoMemory>
    ensures { IfOk result (λ fields. fields ≡ forms.equations (text_of first.now) (text_of second.now) (form_tree body.now)) }
{
    let mut made = Vec::new(alloc);
    let good = gather(
        alloc,
        first.text.text(),
        second.text.text(),
        body,
        &mut made,
    )?;
    if good {
        Ok(Some(Row::of(made)))
    } else {
        Ok(None)
    }
}

/// The fields of a body of equations over its own two names, where it is one.
fn body_fields(
    alloc: Global,
    first: &Word,
    second: &Word,
    body: &SpecTree,
) -> Result<Option<Row<Word>>, NoMemory>
    ensures { IfOk result (λ fields. fields ≡ parts.body_fields (text_of first.now) (text_of second.now) (form_tree body.now)) }
{
    if first.text.text() == second.text.text() {
        return Ok(None);
    }
    equation_fields(alloc, first, second, body)
}

/// What is found of the body of a path.
pub fn path_fields(
    alloc: Global,
    lookups: &Lookups,
    class: usize,
    place: Place,
    first: &Word,
    second: &Word,
    body: &SpecTree,
) -> Result<Found<Kind>, NoMemory>
    ensures { IfOk result (λ found. Finds found (parts.path_fields (declared_by lookups.now) class place (text_of first.now) (text_of second.now) (form_tree body.now))) }
{
    match body_fields(alloc, first, second, body)? {
        None => Ok(wrong(30, place)),
        Some(words) => Ok(fields_kind(lookups, class, place, words.items())),
    }
}
