ghost use Rattle.std.specs.Prelude.{◌≡◌, ◌↔◌, ◌<◌, ℕ, None, Some, IfOk, IsTrue, length, not, slice_get, take};
ghost use Rattle.jh_closure.specs.congruence_closure.Nodes.{Has};
ghost use Rattle.jh_arena.specs.table.Nodes.{nodes};
ghost use Rattle.jh_form.specs.Tree.{FormulaTree};
ghost use Rattle.jh_form.specs.Tree as t;
ghost use Rattle.jh_models.specs.ground_models.Truths.{IsFalse};
ghost use Rattle.jh_propagation.specs.trail.Forms.{AreTwoParts, IsForm};
ghost use Rattle.jh_propagation.specs.trail.Listing.{StandsAt, picked};
ghost use Rattle.jh_propagation.specs.trail.Looks.{IsSought};
ghost use Rattle.jh_propagation.specs.trail.Saying.{IsTruth, literals_at, supposed, truth_at};
ghost use Rattle.jh_propagation.specs.declared.trail.forms.Form.TheVariants.{Literal};

use crate::trail::decided::{is_one, opposite};
use crate::trail::forms::{Form, form_at};
use crate::trail::{Decided, Trail};
use jh_arena::table::Table;
use jh_name::{NoMemory, Row};

/// Whether the opposite of this literal is the one that is supposed.
pub(crate) fn is_supposed(except: Option<Decided>, literal: Decided) -> bool
    ensures { IsTrue result ↔ (except ≡ Some literal) }
{
    match except {
        Some(other) => is_one(other, literal),
        None => false,
    }
}

/// The place of a literal, where it is before a place.
fn place_before(trail: &Trail, before: usize, literal: Decided) -> Option<usize>
    ensures found { (p : ℕ) → result ≡ Some p → (p < before) × (slice_get trail.now p ≡ Some literal) }
    ensures none { result ≡ None → Has (take before trail.now) literal → ⊥ }
{
    match trail.place(literal.atom) {
        Some(place) => placed_before(trail, before, literal, place),
        None => None,
    }
}

/// This place of the literal on the atom of a literal, where it is before a place and says the same.
fn placed_before(trail: &Trail, before: usize, literal: Decided, place: usize) -> Option<usize>
    requires { (p : ℕ) → (Some place ≡ Some p) ↔ StandsAt trail.now literal.atom p }
    ensures found { (p : ℕ) → result ≡ Some p → (p < before) × (slice_get trail.now p ≡ Some literal) }
    ensures none { result ≡ None → Has (take before trail.now) literal → ⊥ }
{
    if place >= before {
        return None;
    }
    if is_one(trail.literal(place), literal) {
        Some(place)
    } else {
        None
    }
}

/// Adds the place of a literal that makes a literal false, where there is one.
fn sought_literal(
    table: &Table,
    trail: &Trail,
    except: Option<Decided>,
    before: usize,
    literal: Decided,
    places: &mut Vec<usize>,
) -> Result<bool, NoMemory>
    ensures { IfOk result (λ found. (i : FormulaTree) → IsForm (nodes table.now) i (Literal literal) → IsSought (nodes table.now) trail.now except before i places.old.items places.new.items found) }
{
    table.nodes_differ();
    if is_supposed(except, literal) {
        return Ok(true);
    }
    match place_before(trail, before, opposite(literal)) {
        Some(place) => {
            places.push(place)?;
            Ok(true)
        }
        None => Ok(false),
    }
}

/// Adds the places of literals that make an instance false, and answers whether there are such.
#[cycle(sought)]
fn sought_in(
    table: &Table,
    trail: &Trail,
    except: Option<Decided>,
    before: usize,
    node: usize,
    places: &mut Vec<usize>,
) -> Result<bool, NoMemory>
    requires { IsTruth (nodes table.now) node }
    ensures { IfOk result (λ found. IsSought (nodes table.now) trail.now except before (truth_at (nodes table.now) node) places.old.items places.new.items found) }
{
    match form_at(table, node) {
        Form::Known(holds) => Ok(!holds),
        Form::Literal(literal) => sought_literal(table, trail, except, before, literal, places),
        Form::And(a, b) => sought_and(table, trail, except, before, node, a, b, places),
        Form::Or(a, b) => sought_or(table, trail, except, before, node, a, b, places),
    }
}

/// The same of two instances joined by And: the first that is false is enough.
#[cycle(sought)]
fn sought_and(
    table: &Table,
    trail: &Trail,
    except: Option<Decided>,
    before: usize,
    node: usize,
    a: usize,
    b: usize,
    places: &mut Vec<usize>,
) -> Result<bool, NoMemory>
    requires { AreTwoParts (nodes table.now) node a b }
    ensures { IfOk result (λ found. IsSought (nodes table.now) trail.now except before (t.and (truth_at (nodes table.now) a) (truth_at (nodes table.now) b)) places.old.items places.new.items found) }
{
    if sought_in(table, trail, except, before, a, places)? {
        return Ok(true);
    }
    sought_in(table, trail, except, before, b, places)
}

/// The same of two instances joined by Or: both have to be false.
#[cycle(sought)]
fn sought_or(
    table: &Table,
    trail: &Trail,
    except: Option<Decided>,
    before: usize,
    node: usize,
    a: usize,
    b: usize,
    places: &mut Vec<usize>,
) -> Result<bool, NoMemory>
    requires { AreTwoParts (nodes table.now) node a b }
    ensures { IfOk result (λ found. IsSought (nodes table.now) trail.now except before (t.or (truth_at (nodes table.now) a) (truth_at (nodes table.now) b)) places.old.items places.new.items found) }
{
    let count = places.as_slice().len();
    if !sought_in(table, trail, except, before, a, places)? {
        return Ok(false);
    }
    if !sought_in(table, trail, except, before, b, places)? {
        places.truncate(count);
        return Ok(false);
    }
    Ok(true)
}

/// Places of literals that make an instance false by its connectives alone, where the literals before a place do, with the opposite
/// of one put to them where there is one. Of an And the first part that is false is looked at, of an Or both. The answer is want of
/// memory where the tree nests deeper than MOST_LEVELS; no part of it is looked at then.
pub fn reason(
    table: &Table,
    trail: &Trail,
    instance: usize,
    except: Option<Decided>,
    before: usize,
) -> Result<Row<usize>, NoMemory>
    requires formula { IsTruth (nodes table.now) instance }
    requires is_false { IsFalse (literals_at (nodes table.now) (supposed except (take before trail.now))) (truth_at (nodes table.now) instance) }
    ensures below { IfOk result (λ places. (p : ℕ) → Has places p → p < before) }
    ensures inside { IfOk result (λ places. (p : ℕ) → Has places p → p < length trail.now) }
    ensures makes { IfOk result (λ places. IsFalse (literals_at (nodes table.now) (supposed except (picked trail.now places))) (truth_at (nodes table.now) instance)) }
{
    if !table.is_shallow(instance) {
        return Err(NoMemory);
    }
    let mut places = Vec::new(table.alloc());
    sought_in(table, trail, except, before, instance, &mut places)?;
    Ok(Row::of(places))
}
