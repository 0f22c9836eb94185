#![tactic(auto, using(jh_rules::proofs::Judgements::find_steps, jh_ast::proofs::FormSteps::form_steps, crate::proofs::formula_kinds::Steps::kind_steps))]

ghost use Rattle.jh_name.specs.declared.place.Kind.TheVariants as variants;
ghost use Rattle.jh_rules.specs.Faults as faults;
ghost use Rattle.jh_ast.specs.Forms as trees;
ghost use Rattle.jh_rules.specs.Kinds as kinds;
ghost use Rattle.std.specs.Prelude.{◌≡◌, ◌&&◌, Option, Some, None};
ghost use Rattle.jh_name.specs.declared.place.Kind.{Kind};
ghost use Rattle.jh_ast.specs.Bare.{form_tree};
ghost use Rattle.jh_rules.specs.Faults.{Judged};
ghost use Rattle.jh_rules.specs.Found.{Finds, asked_of};
ghost use Rattle.jh_rules.specs.Rules as rules;
ghost use Rattle.jh_rules.specs.Formulas as forms;
ghost use Rattle.jh_rules.specs.declared.entries.StateEntry.{StateEntry};
ghost use Rattle.jh_symbols.specs.scopes.Lookings.{declared_by};
ghost use Rattle.jh_type.specs.formula_kinds.Parts as parts;

use jh_ast::{SpecBody, SpecOp, SpecTree};
use jh_name::{Kind, Place};
use jh_rules::{
    Found, StateEntry, after, both, given, is_number, is_number_or_set, is_obj, is_set, is_truth,
    needs, right, same_kind, stop, wrong,
};
use jh_symbols::scopes::Lookups;

/// Which kinds are wanted of an operand.
#[derive(Clone, Copy)]
pub enum Wanted {
    Obj,
    Number,
    Truth,
    Set,
    NumberOrSet,
    Any,
}

/// Whether a kind is wanted.
fn passes(wanted: Wanted, kind: Kind) -> bool
    ensures { result ≡ parts.passes wanted kind }
{
    match wanted {
        Wanted::Obj => is_obj(kind),
        Wanted::Number => is_number(kind),
        Wanted::Truth => is_truth(kind),
        Wanted::Set => is_set(kind),
        Wanted::NumberOrSet => is_number_or_set(kind),
        Wanted::Any => true,
    }
}

/// That an operand is of a kind that is wanted.
pub fn needs_kind(form: &SpecTree, good: bool, kind: Kind) -> Found<Kind>
    ensures { Finds result (rules.rule_28 good (trees.place_of (form_tree form.now)) kind) }
{
    needs(good, 28, form.place, kind)
}

/// A kind in place of what is known.
pub fn instead<T: Copy>(found: Found<T>, kind: Kind) -> Found<Kind>
    ensures { (j : Judged T) → Finds found j → Finds result (asked_of j (λ u. faults.right kind)) }
{
    match found.known {
        None => stop(found),
        Some(_) => after(found, right(kind)),
    }
}

/// One operand.
pub fn one(wanted: Wanted, form: &SpecTree, found: Found<Kind>, kind: Kind) -> Found<Kind>
    ensures { (j : Judged Kind) → Finds found j → Finds result (parts.one wanted (form_tree form.now) j kind) }
{
    match found.known {
        None => stop(found),
        Some(known) => after(found, needs_kind(form, passes(wanted, known), kind)),
    }
}

/// The operand of `-` alone.
pub fn complement(form: &SpecTree, found: Found<Kind>) -> Found<Kind>
    ensures { (j : Judged Kind) → Finds found j → Finds result (parts.complement (form_tree form.now) j) }
{
    match found.known {
        None => stop(found),
        Some(known) => after(found, needs_kind(form, is_number_or_set(known), known)),
    }
}

/// Whether two kinds are wanted.
fn both_pass(first: Wanted, left: Kind, second: Wanted, right: Kind) -> bool
    ensures { result ≡ parts.passes first left && parts.passes second right }
{
    passes(first, left) && passes(second, right)
}

/// Two operands, each of its own kind.
pub fn two(
    first: Wanted,
    second: Wanted,
    form: &SpecTree,
    left: Found<Kind>,
    right: Found<Kind>,
    kind: Kind,
) -> Found<Kind>
    ensures { (j m : Judged Kind) → Finds left j → Finds right m → Finds result (parts.two first second (form_tree form.now) j m kind) }
{
    let found = both(left, right);
    match found.known {
        None => stop(found),
        Some((one, other)) => {
            after(
                found,
                needs_kind(form, both_pass(first, one, second, other), kind),
            )
        }
    }
}

/// A kind, or the one of an operand.
fn instead_of(kind: Option<Kind>, other: Kind) -> Kind
    ensures { result ≡ parts.instead_of kind other }
{
    match kind {
        None => other,
        Some(kind) => kind,
    }
}

/// Whether two kinds are one that is wanted.
fn both_alike(wanted: Wanted, left: Kind, right: Kind) -> bool
    ensures { result ≡ kinds.same_kind left right && parts.passes wanted left }
{
    same_kind(left, right) && passes(wanted, left)
}

/// Two operands of one kind.
fn alike(
    form: &SpecTree,
    left: Found<Kind>,
    right: Found<Kind>,
    wanted: Wanted,
    kind: Option<Kind>,
) -> Found<Kind>
    ensures { (j m : Judged Kind) → Finds left j → Finds right m → Finds result (parts.alike (form_tree form.now) j m wanted kind) }
{
    let found = both(left, right);
    match found.known {
        None => stop(found),
        Some((one, other)) => {
            after(
                found,
                needs_kind(form, both_alike(wanted, one, other), instead_of(kind, one)),
            )
        }
    }
}

/// Whether a formula is a number literal.
fn is_plain_number(form: &SpecTree) -> bool
    ensures { result ≡ parts.is_plain_number (form_tree form.now) }
{
    match &form.body {
        SpecBody::Number(_) => true,
        _ => false,
    }
}

/// Whether a formula is a number literal, plain or negated.
fn is_number_literal(form: &SpecTree) -> bool
    ensures { result ≡ rules.is_number_literal (form_tree form.now) }
{
    match &form.body {
        SpecBody::Number(_) => true,
        SpecBody::Minus(inner) => is_plain_number(inner),
        _ => false,
    }
}

/// That nothing is broken.
pub fn unless(broken: bool, rule: u8, place: Place) -> Found<()>
    ensures { Finds result (faults.needs_none (faults.broken rule place broken)) }
{
    if broken {
        wrong(rule, place)
    } else {
        right(())
    }
}

/// That a product has a literal.
fn needs_literal(place: Place, left: &SpecTree, right: &SpecTree) -> Found<()>
    ensures { Finds result (faults.needs_none (rules.rule_29_product place (form_tree left.now) (form_tree right.now))) }
{
    let has_literal = is_number_literal(left) || is_number_literal(right);
    unless(!has_literal, 29, place)
}

/// That a product has a literal, where both operands are known.
fn known_literal(
    place: Place,
    left: &SpecTree,
    first: Found<Kind>,
    right: &SpecTree,
    second: Found<Kind>,
) -> Found<()>
    ensures { (j m : Judged Kind) → Finds first j → Finds second m → Finds result (parts.literal_of place (form_tree left.now) j (form_tree right.now) m) }
{
    if first.known.is_some() && second.known.is_some() {
        needs_literal(place, left, right)
    } else {
        given(None)
    }
}

/// A product.
fn product(
    place: Place,
    left: &SpecTree,
    first: Found<Kind>,
    right: &SpecTree,
    second: Found<Kind>,
) -> Found<Kind>
    ensures { (j m : Judged Kind) → Finds first j → Finds second m → Finds result (parts.product place (form_tree left.now) j (form_tree right.now) m) }
{
    let literal = known_literal(place, left, first, right, second);
    let operands = two(
        Wanted::Number,
        Wanted::Number,
        left,
        first,
        second,
        Kind::Int,
    );
    instead(both(literal, operands), Kind::Int)
}

/// What is found of two operands with an operator between them.
pub fn binary_kind(
    lookups: &Lookups,
    place: Place,
    op: SpecOp,
    left: &SpecTree,
    first: Found<Kind>,
    right: &SpecTree,
    second: Found<Kind>,
) -> Found<Kind>
    ensures { (j m : Judged Kind) → Finds first j → Finds second m → Finds result (forms.binary_kind (declared_by lookups.now) place op (form_tree left.now) j (form_tree right.now) m) }
{
    match op {
        SpecOp::Implies => two(
            Wanted::Truth,
            Wanted::Truth,
            left,
            first,
            second,
            Kind::Bool,
        ),
        SpecOp::Or => two(
            Wanted::Truth,
            Wanted::Truth,
            left,
            first,
            second,
            Kind::Bool,
        ),
        SpecOp::And => two(
            Wanted::Truth,
            Wanted::Truth,
            left,
            first,
            second,
            Kind::Bool,
        ),
        SpecOp::Equal => alike(left, first, second, Wanted::Any, Some(Kind::Bool)),
        SpecOp::NotEqual => alike(left, first, second, Wanted::Any, Some(Kind::Bool)),
        SpecOp::Elem => two(Wanted::Obj, Wanted::Set, left, first, second, Kind::Bool),
        SpecOp::NotElem => two(Wanted::Obj, Wanted::Set, left, first, second, Kind::Bool),
        SpecOp::Less => two(
            Wanted::Number,
            Wanted::Number,
            left,
            first,
            second,
            Kind::Bool,
        ),
        SpecOp::Greater => two(
            Wanted::Number,
            Wanted::Number,
            left,
            first,
            second,
            Kind::Bool,
        ),
        SpecOp::LessEq => alike(left, first, second, Wanted::NumberOrSet, Some(Kind::Bool)),
        SpecOp::GreaterEq => alike(left, first, second, Wanted::NumberOrSet, Some(Kind::Bool)),
        SpecOp::Union => two(Wanted::Set, Wanted::Set, left, first, second, Kind::Set),
        SpecOp::Inter => two(Wanted::Set, Wanted::Set, left, first, second, Kind::Set),
        SpecOp::Add => two(
            Wanted::Number,
            Wanted::Number,
            left,
            first,
            second,
            Kind::Int,
        ),
        SpecOp::Sub => alike(left, first, second, Wanted::NumberOrSet, None),
        SpecOp::Mul => product(place, left, first, right, second),
    }
}

/// A field of an object of a known kind.
fn read_of(form: &SpecTree, kind: Kind, field: StateEntry) -> Found<Kind>
    ensures { Finds result (parts.read_of (form_tree form.now) kind field) }
{
    if is_obj(kind) {
        given(field.kind)
    } else {
        wrong(28, form.place)
    }
}

/// A field of an object.
pub fn read(form: &SpecTree, object: Found<Kind>, field: Found<StateEntry>) -> Found<Kind>
    ensures { (j : Judged Kind) (m : Judged StateEntry) → Finds object j → Finds field m → Finds result (parts.read (form_tree form.now) j m) }
{
    let found = both(object, field);
    match found.known {
        None => stop(found),
        Some((kind, entry)) => after(found, read_of(form, kind, entry)),
    }
}

/// What is found behind something of which nothing is known.
pub fn behind(first: Found<()>, second: Found<Kind>) -> Found<Kind>
    ensures { (j : Judged (Unit {0})) (m : Judged Kind) → Finds first j → Finds second m → Finds result (parts.behind j m) }
{
    let found = both(first, second);
    match found.known {
        None => stop(found),
        Some((_, kind)) => after(found, right(kind)),
    }
}

/// Whether a number is 0.
fn is_zero(number: &i64) -> bool
    ensures { result ≡ parts.is_zero number.now }
{
    *number == 0
}

/// That a number is to be one, at the place of the whole.
fn number_at(place: Place, found: Found<Kind>) -> Found<Kind>
    ensures { (j : Judged Kind) → Finds found j → Finds result (asked_of j (λ u. rules.rule_28 (kinds.is_number u) place variants.Bool)) }
{
    match found.known {
        None => stop(found),
        Some(kind) => after(found, needs(is_number(kind), 28, place, Kind::Bool)),
    }
}

/// A multiple of a number.
pub fn multiple(place: Place, number: &i64, found: Found<Kind>) -> Found<Kind>
    ensures { (j : Judged Kind) → Finds found j → Finds result (parts.multiple place number.now j) }
{
    let zero = unless(is_zero(number), 29, place);
    instead(both(zero, number_at(place, found)), Kind::Bool)
}

/// A path along fields between two ends.
pub fn path(
    fields: Found<Kind>,
    form: &SpecTree,
    left: Found<Kind>,
    right: Found<Kind>,
) -> Found<Kind>
    ensures { (i j m : Judged Kind) → Finds fields i → Finds left j → Finds right m → Finds result (parts.path i (form_tree form.now) j m) }
{
    let ends = two(Wanted::Obj, Wanted::Obj, form, left, right, Kind::Bool);
    instead(both(fields, ends), Kind::Bool)
}
