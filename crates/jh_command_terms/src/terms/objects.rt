#![tactic(auto, using(crate::proofs::terms::TermSteps::object_steps, crate::proofs::terms::CheckSteps::check_steps, jh_arena::proofs::table::Listed::growth_steps))]

ghost use Rattle.std.specs.Prelude.{◌≡◌, IfOk, OnOk, Some, slice_get};
ghost use Rattle.jh_form.specs.Tree.{of_object};
ghost use Rattle.jh_arena.specs.table.Growth.{Extends};
ghost use Rattle.jh_arena.specs.table.Nodes.{nodes};
ghost use Rattle.jh_guard.specs.Terms as terms;
ghost use Rattle.jh_semantics.specs.typed_code.Codes.{object_code};
ghost use Rattle.jh_command_terms.specs.terms.Checks.{AddsChecks};

use crate::terms::checks::{CheckNode, push_not_null};
use crate::terms::names::{field_node, object_node, object_of_text};
use jh_arena::table::{Shape, Table};
use jh_name::{NoMemory, Place};
use jh_semantics::typed_code::ObjectCode;

/// Adds the check of a receiver, whose node is given: that it isn't null. `this` needs none.
pub fn check_receiver(
    table: &mut Table,
    checks: &mut Vec<CheckNode>,
    receiver: &ObjectCode,
    node: usize,
    place: Place,
) -> Result<(), NoMemory>
    requires { slice_get (nodes table.old) node ≡ Some (of_object (terms.object_term (object_code receiver.now))) }
    ensures checks { OnOk result (AddsChecks table.new checks.old.items checks.new.items (terms.receiver_checks (object_code receiver.now) place)) }
    ensures grows { Extends table.old table.new }
{
    match receiver {
        ObjectCode::Null => push_not_null(table, checks, node, place),
        ObjectCode::This => Ok(()),
        ObjectCode::Name(_) => push_not_null(table, checks, node, place),
        ObjectCode::Read(_, _, _) => push_not_null(table, checks, node, place),
    }
}

/// The node of the term of an expression for an object. Its checks are added.
#[cycle(object_term)]
pub fn object_term(
    table: &mut Table,
    checks: &mut Vec<CheckNode>,
    code: &ObjectCode,
) -> Result<usize, NoMemory>
    ensures node { IfOk result (λ made. slice_get (nodes table.new) made ≡ Some (of_object (terms.object_term (object_code code.now)))) }
    ensures checks { OnOk result (AddsChecks table.new checks.old.items checks.new.items (terms.object_checks (object_code code.now))) }
    ensures grows { Extends table.old table.new }
{
    match code {
        ObjectCode::Null => table.make(Shape::Null),
        ObjectCode::This => object_of_text(table, "this"),
        ObjectCode::Name(name) => object_node(table, name),
        ObjectCode::Read(field, receiver, place) => {
            let receiver = receiver_term(table, checks, receiver, *place)?;
            let field = field_node(table, field)?;
            table.make(Shape::ReadObject(field, receiver))
        }
    }
}

/// The node of the term of a receiver. Its checks are added, and that it isn't null.
#[cycle(object_term)]
pub(crate) fn receiver_term(
    table: &mut Table,
    checks: &mut Vec<CheckNode>,
    receiver: &ObjectCode,
    place: Place,
) -> Result<usize, NoMemory>
    ensures node { IfOk result (λ made. slice_get (nodes table.new) made ≡ Some (of_object (terms.object_term (object_code receiver.now)))) }
    ensures checks { OnOk result (AddsChecks table.new checks.old.items checks.new.items (terms.read_checks (object_code receiver.now) place)) }
    ensures grows { Extends table.old table.new }
{
    let node = object_term(table, checks, receiver)?;
    check_receiver(table, checks, receiver, node, place)?;
    Ok(node)
}
