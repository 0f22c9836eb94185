#![tactic(auto, using(crate::proofs::terms::TermSteps::truth_steps, crate::proofs::terms::CheckSteps::check_steps, jh_arena::proofs::table::Listed::growth_steps))]

ghost use Rattle.std.specs.Prelude.{◌≡◌, ◌++◌, IfOk, OnOk, Some, slice_get};
ghost use Rattle.jh_form.specs.Tree.{of_truth};
ghost use Rattle.jh_form.specs.Tree as t;
ghost use Rattle.jh_arena.specs.table.Growth.{Extends};
ghost use Rattle.jh_arena.specs.table.Nodes.{nodes};
ghost use Rattle.jh_guard.specs.Terms as terms;
ghost use Rattle.jh_semantics.specs.typed_code.Codes.{truth_code, object_code, number_code};
ghost use Rattle.jh_command_terms.specs.terms.Checks.{AddsChecks};

use crate::terms::checks::{CheckNode, guard_from};
use crate::terms::names::{field_node, truth_node};
use crate::terms::numbers::number_term;
use crate::terms::objects::{object_term, receiver_term};
use jh_arena::table::{Shape, Table};
use jh_name::NoMemory;
use jh_semantics::typed_code::{NumberCode, ObjectCode, TruthCode};

/// The node of a literal.
fn literal(table: &mut Table, is_true: bool) -> Result<usize, NoMemory>
    ensures node { IfOk result (λ made. slice_get (nodes table.new) made ≡ Some (of_truth (terms.literal_formula is_true))) }
    ensures grows { Extends table.old table.new }
{
    if is_true {
        table.make(Shape::True)
    } else {
        table.make(Shape::False)
    }
}

/// The nodes of the terms of two expressions for objects. Their checks are added.
fn two_objects(
    table: &mut Table,
    checks: &mut Vec<CheckNode>,
    left: &ObjectCode,
    right: &ObjectCode,
) -> Result<(usize, usize), NoMemory>
    ensures nodes { IfOk result (λ made. (slice_get (nodes table.new) made.0 ≡ Some (t.of_object (terms.object_term (object_code left.now)))) × (slice_get (nodes table.new) made.1 ≡ Some (t.of_object (terms.object_term (object_code right.now))))) }
    ensures checks { OnOk result (AddsChecks table.new checks.old.items checks.new.items (terms.object_checks (object_code left.now) ++ terms.object_checks (object_code right.now))) }
    ensures grows { Extends table.old table.new }
{
    let left = object_term(table, checks, left)?;
    let right = object_term(table, checks, right)?;
    Ok((left, right))
}

/// The nodes of the terms of two expressions for numbers. Their checks are added.
fn two_numbers(
    table: &mut Table,
    checks: &mut Vec<CheckNode>,
    left: &NumberCode,
    right: &NumberCode,
) -> Result<(usize, usize), NoMemory>
    ensures nodes { IfOk result (λ made. (slice_get (nodes table.new) made.0 ≡ Some (t.of_number (terms.number_term (number_code left.now)))) × (slice_get (nodes table.new) made.1 ≡ Some (t.of_number (terms.number_term (number_code right.now))))) }
    ensures checks { OnOk result (AddsChecks table.new checks.old.items checks.new.items (terms.number_checks (number_code left.now) ++ terms.number_checks (number_code right.now))) }
    ensures grows { Extends table.old table.new }
{
    let left = number_term(table, checks, left)?;
    let right = number_term(table, checks, right)?;
    Ok((left, right))
}

/// The node of the formula of an expression for a truth. Its checks are added; those under the right operand of `&&`
/// ask for the left one, of `||` for its opposite.
pub fn truth_term(
    table: &mut Table,
    checks: &mut Vec<CheckNode>,
    code: &TruthCode,
) -> Result<usize, NoMemory>
    ensures node { IfOk result (λ made. slice_get (nodes table.new) made ≡ Some (of_truth (terms.truth_formula (truth_code code.now)))) }
    ensures checks { OnOk result (AddsChecks table.new checks.old.items checks.new.items (terms.truth_checks (truth_code code.now))) }
    ensures grows { Extends table.old table.new }
{
    match code {
        TruthCode::Literal(is_true) => literal(table, *is_true),
        TruthCode::Name(name) => truth_node(table, name),
        TruthCode::Read(field, receiver, place) => {
            let receiver = receiver_term(table, checks, receiver, *place)?;
            let field = field_node(table, field)?;
            table.make(Shape::ReadTruth(field, receiver))
        }
        TruthCode::Not(inner) => {
            let inner = truth_term(table, checks, inner)?;
            table.make(Shape::Negation(inner))
        }
        TruthCode::And(left, right) => {
            let left = truth_term(table, checks, left)?;
            let start = checks.as_slice().len();
            let right = truth_term(table, checks, right)?;
            guard_from(table, checks, start, left)?;
            table.make(Shape::And(left, right))
        }
        TruthCode::Or(left, right) => {
            let left = truth_term(table, checks, left)?;
            let opposite = table.make(Shape::Negation(left))?;
            let start = checks.as_slice().len();
            let right = truth_term(table, checks, right)?;
            guard_from(table, checks, start, opposite)?;
            table.make(Shape::Or(left, right))
        }
        TruthCode::SameObject(left, right) => {
            let (left, right) = two_objects(table, checks, left, right)?;
            table.make(Shape::EqObject(left, right))
        }
        TruthCode::SameNumber(left, right) => {
            let (left, right) = two_numbers(table, checks, left, right)?;
            table.make(Shape::EqNumber(left, right))
        }
        TruthCode::SameTruth(left, right) => {
            let left = truth_term(table, checks, left)?;
            let right = truth_term(table, checks, right)?;
            table.make(Shape::Iff(left, right))
        }
        TruthCode::Less(left, right) => {
            let (left, right) = two_numbers(table, checks, left, right)?;
            table.make(Shape::Less(left, right))
        }
        TruthCode::LessEq(left, right) => {
            let (left, right) = two_numbers(table, checks, left, right)?;
            table.make(Shape::LessEqual(left, right))
        }
        TruthCode::Greater(left, right) => {
            let (left, right) = two_numbers(table, checks, left, right)?;
            table.make(Shape::Less(right, left))
        }
        TruthCode::GreaterEq(left, right) => {
            let (left, right) = two_numbers(table, checks, left, right)?;
            table.make(Shape::LessEqual(right, left))
        }
    }
}
