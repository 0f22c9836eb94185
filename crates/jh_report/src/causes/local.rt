ghost use Rattle.std.specs.Prelude.{◌≡◌, ◌<◌, ◌++◌, ◌∷◌, [], List, ℕ, length, map, Some, slice_get, string_bytes, IfOk, OnOk};
ghost use Rattle.jh_form.specs.Bare.{field_tree, term_tree};
ghost use Rattle.jh_closure.specs.structures.Literals.{LiteralTree, literal_tree};
ghost use Rattle.jh_report.specs.causes.LocalCauses as spec;
ghost use Rattle.jh_report.specs.causes.Pieces.{Holds};

use crate::causes::pieces::Pieces;
use jh_closure::structures::Literal;
use jh_form::{FieldTerm, Formula, Term};
use jh_name::{Name, NoMemory};
use std::alloc::Global;

/// How many equalities a line shows at most.
pub const MOST_SHOWN: usize = 20;

/// Adds a name, with its turn where it has one.
fn add_name(text: &mut String, name: &Name) -> Result<(), NoMemory>
    ensures { OnOk result (string_bytes text.new ≡ string_bytes text.old ++ spec.name_text name.now) }
{
    text.push_str(name.text())?;
    if name.turn() != 0 {
        let turn = name.turn();
        write!(text, "@{turn}")?;
    }
    Ok(())
}

/// Adds a field that is a name.
#[tactic(auto, unfolding(jh_form::specs::Bare::field_tree))]
fn add_field(text: &mut String, field: &FieldTerm) -> Result<(), NoMemory>
    ensures { OnOk result (string_bytes text.new ≡ string_bytes text.old ++ spec.field_text (field_tree field.now)) }
{
    match field {
        FieldTerm::Free(name) => add_name(text, name),
        FieldTerm::Update(_, _, _) => Ok(()),
    }
}

/// Adds a term for an object.
#[cycle(add_term)]
#[tactic(auto, unfolding(jh_form::specs::Bare::term_tree))]
fn add_term(text: &mut String, term: &Term) -> Result<(), NoMemory>
    ensures { OnOk result (string_bytes text.new ≡ string_bytes text.old ++ spec.term_text (term_tree term.now)) }
{
    match term {
        Term::Bound(number) => {
            write!(text, "#{number}")?;
            Ok(())
        }
        Term::Free(name) => add_name(text, name),
        Term::Null => {
            text.push_str("null")?;
            Ok(())
        }
        Term::Read(field, object) => {
            add_term(text, object)?;
            text.push_str("..")?;
            add_field(text, field)
        }
    }
}

/// Adds an equality of objects.
fn add_sides(text: &mut String, left: &Term, right: &Term) -> Result<(), NoMemory>
    ensures { OnOk result (string_bytes text.new ≡ string_bytes text.old ++ spec.sides_text (term_tree left.now) (term_tree right.now)) }
{
    add_term(text, left)?;
    text.push_str(" = ")?;
    add_term(text, right)
}

/// Adds an equality of objects as a piece.
fn add_equality(
    alloc: Global,
    pieces: &mut Pieces,
    left: &Term,
    right: &Term,
) -> Result<(), NoMemory>
    ensures { OnOk result ((ps : List (List ℕ)) → Holds pieces.old ps → Holds pieces.new (ps ++ spec.sides_text (term_tree left.now) (term_tree right.now) ∷ [])) }
{
    let mut piece = String::new(alloc);
    add_sides(&mut piece, left, right)?;
    pieces.add(piece.as_str())
}

/// Adds a literal where it is an equality of objects that holds, and answers how many more may be shown.
#[tactic(auto, unfolding(jh_form::specs::Bare::formula_tree, jh_closure::specs::structures::Literals::literal_tree))]
fn add_literal(
    alloc: Global,
    pieces: &mut Pieces,
    left: usize,
    literal: &Literal,
) -> Result<usize, NoMemory>
    ensures { (ps : List (List ℕ)) (rest : List LiteralTree) → Holds pieces.old ps → IfOk result (λ more. (done : List (List ℕ)) × Holds pieces.new done × (done ++ spec.equalities more rest ≡ ps ++ spec.equalities left (literal_tree literal.now ∷ rest))) }
{
    if left == 0 || !literal.holds {
        return Ok(left);
    }
    match &literal.atom {
        Formula::EqObj(first, second) => {
            add_equality(alloc, pieces, first, second)?;
            Ok(left - 1)
        }
        _ => Ok(left),
    }
}

/// The literal at a place.
fn literal_at(literals: &[Literal], place: usize) -> &Literal
    requires { place < length literals.now }
    ensures { slice_get literals.now place ≡ Some result.now }
{
    &literals[place]
}

/// The first equalities of objects among literals that hold.
fn equalities_of(alloc: Global, literals: &[Literal]) -> Result<Pieces, NoMemory>
    ensures { IfOk result (λ made. Holds made (spec.equalities spec.most_shown (map literal_tree literals.now))) }
{
    let mut pieces = Pieces::new(alloc);
    let mut left = MOST_SHOWN;
    for place in 0..literals.len() {
        left = add_literal(alloc, &mut pieces, left, literal_at(literals, place))?;
    }
    Ok(pieces)
}

/// Adds the line for a sequent whose instances have a ground model with these literals: its first equalities of objects that hold.
pub fn add_open(alloc: Global, text: &mut String, literals: &[Literal]) -> Result<(), NoMemory>
    ensures { OnOk result (string_bytes text.new ≡ string_bytes text.old ++ spec.open_line (map literal_tree literals.now)) }
{
    let pieces = equalities_of(alloc, literals)?;
    let joined = pieces.text.as_str();
    writeln!(text, "  local open: {joined}")?;
    Ok(())
}

/// Adds the line for a sequent that can have so many instances, which is more than are made.
pub fn add_too_many(text: &mut String, count: u128) -> Result<(), NoMemory>
    ensures { OnOk result (string_bytes text.new ≡ string_bytes text.old ++ spec.too_many_line count) }
{
    writeln!(text, "  local too many: {count}")?;
    Ok(())
}

/// Adds the line for a sequent whose search ended when so many branches were closed.
pub fn add_budget(text: &mut String, count: usize) -> Result<(), NoMemory>
    ensures { OnOk result (string_bytes text.new ≡ string_bytes text.old ++ spec.budget_line count) }
{
    writeln!(text, "  local budget: {count}")?;
    Ok(())
}
