ghost use Rattle.std.specs.Prelude.{◌≡◌, true, IfOk, Some, slice_get};
ghost use Rattle.jh_form.specs.Tree.{of_truth};
ghost use Rattle.jh_wp.specs.Renamed.{renamed, renaming};
ghost use Rattle.jh_arena.specs.table.Entries.{is_truth, the_name, the_truth};
ghost use Rattle.jh_arena.specs.table.Growth.{Extends};
ghost use Rattle.jh_arena.specs.table.Nodes.{nodes};
ghost use Rattle.jh_substitution.specs.rewriting.Rewritten.{leaves_alone};
ghost use Rattle.jh_weakest.specs.precondition.Names.{AreNamed, is_named, with_name, renaming-stays};

use crate::precondition::standing::standing;
use jh_arena::table::{Shape, Table};
use jh_name::{Name, NoMemory};
use jh_substitution::rewriting::{LeafRules, walked};

/// The rules by which one name stands for another at every sort, each by its number.
#[derive(Clone, Copy)]
struct Renaming {
    name: usize,
    with: usize,
}

impl LeafRules for Renaming {
    ghost rewriting = { λ rules t. leaves_alone (renaming (the_name (slice_get t.pools.names rules.name)) (the_name (slice_get t.pools.names rules.with))) };

    ghost ready = { λ rules t. AreNamed rules.name rules.with t };

    fn leaf(
        &self,
        table: &mut Table,
        node: usize,
        shape: Shape,
        _depth: u32,
    ) -> Result<usize, NoMemory> {
        table.nodes_differ();
        if is_named(shape, self.name) {
            table.make(with_name(shape, self.with))
        } else {
            Ok(node)
        }
    }

    fn whole(
        &self,
        table: &mut Table,
        node: usize,
        _shape: Shape,
        _depth: u32,
    ) -> Result<Option<usize>, NoMemory> {
        if table.may_hold(node, self.name) {
            Ok(None)
        } else {
            Ok(Some(node))
        }
    }

    ghost stays = { λ rules. renaming-stays rules.name rules.with };
}

/// Whether a shape is the free name of this number.
#[tactic(auto, unfolding(crate::specs::precondition::Names::is_named))]
fn is_named(shape: Shape, number: usize) -> bool
    ensures { result ≡ is_named shape number }
{
    match shape {
        Shape::FreeObject(name) => name == number,
        Shape::FreeNumber(name) => name == number,
        Shape::FreeTruth(name) => name == number,
        Shape::FreeSet(name) => name == number,
        Shape::FreeField(name) => name == number,
        _ => false,
    }
}

/// The free name of this number, at the sort of a free name.
#[tactic(auto, unfolding(crate::specs::precondition::Names::with_name))]
fn with_name(shape: Shape, number: usize) -> Shape
    ensures { result ≡ with_name shape number }
{
    match shape {
        Shape::FreeObject(_) => Shape::FreeObject(number),
        Shape::FreeNumber(_) => Shape::FreeNumber(number),
        Shape::FreeTruth(_) => Shape::FreeTruth(number),
        Shape::FreeSet(_) => Shape::FreeSet(number),
        Shape::FreeField(_) => Shape::FreeField(number),
        other => other,
    }
}

/// The node of a formula with one name for another, at every sort; names in labels stay. Where the name doesn't
/// stand in the formula, nothing is made, however deep it is. Otherwise the answer is want of memory where the
/// formula nests deeper than a walk goes.
pub fn rename(
    table: &mut Table,
    formula: usize,
    name: &Name,
    with: &Name,
) -> Result<usize, NoMemory>
    requires formula { is_truth (slice_get (nodes table.old) formula) ≡ true }
    ensures tree { IfOk result (λ made. slice_get (nodes table.new) made ≡ Some (of_truth (renamed (the_truth (slice_get (nodes table.old) formula)) name.now with.now))) }
    ensures grows { Extends table.old table.new }
{
    match standing(table, formula, name) {
        None => Ok(formula),
        Some(number) => {
            let with = table.name(with)?;
            walked(table, &Renaming { name: number, with }, formula, 0)
        }
    }
}
