#![tactic(auto, using(crate::proofs::terms::TermSteps::number_steps, crate::proofs::terms::CheckSteps::check_steps, jh_arena::proofs::table::Listed::growth_steps))]

ghost use Rattle.std.specs.Prelude.{◌≡◌, IfOk, OnOk, Some, slice_get};
ghost use Rattle.jh_form.specs.Tree.{of_number};
ghost use Rattle.jh_arena.specs.table.Growth.{Extends};
ghost use Rattle.jh_arena.specs.table.Nodes.{nodes};
ghost use Rattle.jh_guard.specs.Terms as terms;
ghost use Rattle.jh_semantics.specs.typed_code.Codes.{number_code};
ghost use Rattle.jh_command_terms.specs.terms.Checks.{AddsChecks};

use crate::terms::checks::CheckNode;
use crate::terms::names::{field_node, number_node};
use crate::terms::objects::receiver_term;
use jh_arena::table::{Shape, Table};
use jh_name::NoMemory;
use jh_semantics::typed_code::NumberCode;

/// The node of the term of an expression for a number. Its checks are added.
pub fn number_term(
    table: &mut Table,
    checks: &mut Vec<CheckNode>,
    code: &NumberCode,
) -> Result<usize, NoMemory>
    ensures node { IfOk result (λ made. slice_get (nodes table.new) made ≡ Some (of_number (terms.number_term (number_code code.now)))) }
    ensures checks { OnOk result (AddsChecks table.new checks.old.items checks.new.items (terms.number_checks (number_code code.now))) }
    ensures grows { Extends table.old table.new }
{
    match code {
        NumberCode::Const(number) => table.make(Shape::Const(*number)),
        NumberCode::Name(name) => number_node(table, name),
        NumberCode::Read(field, receiver, place) => {
            let receiver = receiver_term(table, checks, receiver, *place)?;
            let field = field_node(table, field)?;
            table.make(Shape::ReadNumber(field, receiver))
        }
        NumberCode::Add(_, left, right) => {
            let left = number_term(table, checks, left)?;
            let right = number_term(table, checks, right)?;
            table.make(Shape::Add(left, right))
        }
        NumberCode::Sub(_, left, right) => {
            let left = number_term(table, checks, left)?;
            let right = number_term(table, checks, right)?;
            table.make(Shape::Sub(left, right))
        }
        NumberCode::Minus(_, inner) => {
            let inner = number_term(table, checks, inner)?;
            table.make(Shape::Neg(inner))
        }
        NumberCode::Times(_, number, inner) => {
            let inner = number_term(table, checks, inner)?;
            table.make(Shape::Scale(*number, inner))
        }
    }
}
