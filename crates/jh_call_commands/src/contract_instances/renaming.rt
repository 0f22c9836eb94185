ghost use Rattle.std.specs.Prelude.{◌≡◌, ◌<◌, true, Bool, IfOk, Some, length, slice_get};
ghost use Rattle.jh_form.specs.Tree.{FormulaTree, of_truth};
ghost use Rattle.jh_arena.specs.table.Entries.{is_truth, the_name, the_truth};
ghost use Rattle.jh_arena.specs.table.Growth.{Extends};
ghost use Rattle.jh_arena.specs.table.Nodes.{nodes};
ghost use Rattle.jh_substitution.specs.rewriting.Rewritten.{leaves_alone};
ghost use Rattle.jh_semantics.specs.Code.{Text};
ghost use Rattle.jh_guard.specs.Calls.{renaming_by, renamed_by};
ghost use Rattle.jh_call_commands.specs.contract_instances.Calling as call;

use crate::contract_instances::calling::{Calling, turn_at};
use jh_arena::table::{Shape, Table};
use jh_name::{NoMemory, name};
use jh_substitution::rewriting::{LeafRules, walked};

/// The rules by which each name is exchanged for the one that stands for it at a call.
#[derive(Clone, Copy)]
struct AtCall<'a> {
    calling: Calling<'a>,
}

impl LeafRules for AtCall<'_> {
    ghost rewriting = { λ rules t. leaves_alone (renaming_by (call.name_at rules.calling)) };

    ghost ready = { λ rules t. Unit {0} };

    fn leaf(
        &self,
        table: &mut Table,
        node: usize,
        shape: Shape,
        _depth: u32,
    ) -> Result<usize, NoMemory> {
        match name_in(shape) {
            None => Ok(node),
            Some(number) => {
                let made = called_name(table, number, &self.calling)?;
                table.make(with_name(shape, made))
            }
        }
    }

    fn whole(
        &self,
        _table: &mut Table,
        _node: usize,
        _shape: Shape,
        _depth: u32,
    ) -> Result<Option<usize>, NoMemory> {
        Ok(None)
    }

    ghost stays = { λ rules. call.renaming-stays (call.name_at rules.calling) };
}

/// The number of a free name.
#[tactic(auto, unfolding(crate::specs::contract_instances::Calling::name_in))]
fn name_in(shape: Shape) -> Option<usize>
    ensures { result ≡ call.name_in shape }
{
    match shape {
        Shape::FreeObject(name) => Some(name),
        Shape::FreeNumber(name) => Some(name),
        Shape::FreeTruth(name) => Some(name),
        Shape::FreeSet(name) => Some(name),
        Shape::FreeField(name) => Some(name),
        _ => None,
    }
}

/// The free name of this number, at the sort of a free name.
#[tactic(auto, unfolding(crate::specs::contract_instances::Calling::with_name))]
fn with_name(shape: Shape, number: usize) -> Shape
    ensures { result ≡ call.with_name shape number }
{
    match shape {
        Shape::FreeObject(_) => Shape::FreeObject(number),
        Shape::FreeNumber(_) => Shape::FreeNumber(number),
        Shape::FreeTruth(_) => Shape::FreeTruth(number),
        Shape::FreeSet(_) => Shape::FreeSet(number),
        Shape::FreeField(_) => Shape::FreeField(number),
        other => other,
    }
}

/// The number of the name that stands at a call for the name of a number.
fn called_name(table: &mut Table, number: usize, calling: &Calling<'_>) -> Result<usize, NoMemory>
    requires { number < length table.old.pools.names }
    ensures name { IfOk result (λ made. slice_get table.new.pools.names made ≡ Some (call.name_at calling.now (the_name (slice_get table.old.pools.names number)))) }
    ensures grows { Extends table.old table.new }
{
    let turn = turn_at(calling, table.name_at(number))?;
    let called = name(table.alloc(), table.name_at(number).text(), turn)?;
    table.name(&called)
}

/// The node of a formula of a contract at a call: each name is exchanged for the one that stands for it there, at every
/// sort, all at once; names in labels stay. The answer is want of memory where the formula nests deeper than a walk goes.
pub fn at_call(table: &mut Table, formula: usize, calling: Calling<'_>) -> Result<usize, NoMemory>
    requires { is_truth (slice_get (nodes table.old) formula) ≡ true }
    ensures tree { IfOk result (λ made. slice_get (nodes table.new) made ≡ Some (of_truth (renamed_by (call.name_at calling.entry) (the_truth (slice_get (nodes table.old) formula))))) }
    ensures grows { Extends table.old table.new }
{
    walked(table, &AtCall { calling }, formula, 0)
}
