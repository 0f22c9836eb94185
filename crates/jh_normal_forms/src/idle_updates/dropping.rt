ghost use Rattle.std.specs.Prelude.{◌≡◌, ℕ, List, true, IfOk, Some, slice_get};
ghost use Rattle.jh_form.specs.Tree.{of_field, of_truth};
ghost use Rattle.jh_form.specs.Tree as t;
ghost use Rattle.jh_form.specs.Meaning.{Interp, truth};
ghost use Rattle.jh_arena.specs.table.Entries.{is_truth, the_field, the_object, the_truth, the_value};
ghost use Rattle.jh_arena.specs.table.Growth.{Extends};
ghost use Rattle.jh_arena.specs.table.Nodes.{nodes, fits_in};
ghost use Rattle.jh_normal_forms.specs.idle_updates.Dropped.{without_field_value, dropping, dropped};

use crate::rebuilding::{BuildRules, Polarity, rebuild};
use jh_arena::table::{Shape, Table};
use jh_name::{NoMemory, Sort};

/// The rule that drops updates whose value is a whole field.
#[derive(Clone, Copy)]
struct Dropping;

/// An update, or the field that it updates where it changes nothing.
fn update(table: &mut Table, field: usize, at: usize, value: usize) -> Result<usize, NoMemory>
    requires fits { fits_in table.old (Shape.Update field at value) ≡ true }
    ensures node { IfOk result (λ made. slice_get (nodes table.new) made ≡ Some (of_field (without_field_value (t.update (the_field (slice_get (nodes table.old) field)) (the_object (slice_get (nodes table.old) at)) (the_value (slice_get (nodes table.old) value)))))) }
    ensures grows { Extends table.old table.new }
{
    match table.sort(value) {
        Sort::Field => Ok(field),
        _ => table.make(Shape::Update(field, at, value)),
    }
}

impl BuildRules for Dropping {
    ghost rule = { λ rules. dropping };

    fn made(
        &self,
        table: &mut Table,
        shape: Shape,
        _polarity: Polarity,
    ) -> Result<usize, NoMemory> {
        match shape {
            Shape::Update(field, at, value) => update(table, field, at, value),
            _ => table.make(shape),
        }
    }
}

/// The node of a formula without the updates whose value is a whole field: they change nothing. It means what the formula means.
/// What the table held stays in its place, after any answer. The answer is want of memory where the tree nests deeper than
/// MOST_LEVELS.
pub fn dropped(table: &mut Table, formula: usize) -> Result<usize, NoMemory>
    requires formula { is_truth (slice_get (nodes table.old) formula) ≡ true }
    ensures tree { IfOk result (λ made. slice_get (nodes table.new) made ≡ Some (of_truth (dropped (the_truth (slice_get (nodes table.old) formula))))) }
    ensures meaning { IfOk result (λ made. (m : Interp) (e : List ℕ) → truth (the_truth (slice_get (nodes table.new) made)) m e ≡ truth (the_truth (slice_get (nodes table.old) formula)) m e) }
    ensures grows { Extends table.old table.new }
{
    rebuild(table, &Dropping, formula, Polarity::Both)
}
