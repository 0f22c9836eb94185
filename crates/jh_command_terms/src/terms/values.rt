#![tactic(auto, using(crate::proofs::terms::CheckSteps::check_steps, jh_arena::proofs::table::Listed::growth_steps), unfolding(jh_semantics::specs::typed_code::Codes::any_code, jh_semantics::specs::typed_code::Statements::target_in, crate::specs::terms::Checks::IsReceiver))]

ghost use Rattle.std.specs.Prelude.{◌≡◌, IfOk, OnOk, Some, slice_get};
ghost use Rattle.jh_arena.specs.table.Growth.{Extends};
ghost use Rattle.jh_arena.specs.table.Nodes.{nodes};
ghost use Rattle.jh_guard.specs.Terms as terms;
ghost use Rattle.jh_guard.specs.Steps.{target_checks};
ghost use Rattle.jh_semantics.specs.typed_code.Codes.{any_code};
ghost use Rattle.jh_semantics.specs.typed_code.Statements.{target_in};
ghost use Rattle.jh_command_terms.specs.terms.Checks.{AddsChecks, IsReceiver};

use crate::terms::checks::CheckNode;
use crate::terms::numbers::number_term;
use crate::terms::objects::object_term;
use crate::terms::truths::truth_term;
use jh_arena::table::Table;
use jh_name::NoMemory;
use jh_semantics::typed_code::{AnyCode, Target};

/// The node of the value of an expression. Its checks are added.
pub fn value_term(
    table: &mut Table,
    checks: &mut Vec<CheckNode>,
    code: &AnyCode,
) -> Result<usize, NoMemory>
    ensures node { IfOk result (λ made. slice_get (nodes table.new) made ≡ Some (terms.value_term (any_code code.now))) }
    ensures checks { OnOk result (AddsChecks table.new checks.old.items checks.new.items (terms.value_checks (any_code code.now))) }
    ensures grows { Extends table.old table.new }
{
    match code {
        AnyCode::Object(code) => object_term(table, checks, code),
        AnyCode::Number(code) => number_term(table, checks, code),
        AnyCode::Truth(code) => truth_term(table, checks, code),
    }
}

/// The node of the receiver of a target that is a field, or none. Its checks are added; that it isn't null is none of
/// them.
pub fn target_term(
    table: &mut Table,
    checks: &mut Vec<CheckNode>,
    target: &Target,
) -> Result<Option<usize>, NoMemory>
    ensures node { IfOk result (λ made. IsReceiver table.new made (target_in target.now)) }
    ensures checks { OnOk result (AddsChecks table.new checks.old.items checks.new.items (target_checks (target_in target.now))) }
    ensures grows { Extends table.old table.new }
{
    match target {
        Target::Nowhere => Ok(None),
        Target::New(_) => Ok(None),
        Target::Name(_) => Ok(None),
        Target::Field(_, receiver, _) => {
            let receiver = object_term(table, checks, receiver)?;
            Ok(Some(receiver))
        }
    }
}
