#![tactic(auto, using(jh_arena::proofs::table::Listed::growth_steps))]

ghost use Rattle.std.specs.Prelude.{◌≡◌, IfOk, Some, slice_get};
ghost use Rattle.jh_form.specs.Tree.{of_truth};
ghost use Rattle.jh_arena.specs.table.Growth.{Extends};
ghost use Rattle.jh_arena.specs.table.Nodes.{nodes};
ghost use Rattle.jh_method_commands.specs.commands.Made as made;

use crate::environment::Outline;
use jh_arena::table::Table;
use jh_name::NoMemory;
use jh_state_facts::well_formedness::{Known, well_formed};

/// The node of that the state is well formed, with these locals in scope.
pub(crate) fn formed_node(
    table: &mut Table,
    outline: &Outline<'_>,
    this: Option<usize>,
    scope: &[Known<'_>],
) -> Result<usize, NoMemory>
    requires { made.Outlined table.old outline.now }
    ensures node { IfOk result (λ node. slice_get (nodes table.new) node ≡ Some (of_truth (made.formed_in outline.now this scope.now))) }
    ensures grows { Extends table.old table.new }
{
    well_formed(
        table,
        outline.classes,
        outline.members,
        outline.facts,
        scope,
        this,
    )
}
