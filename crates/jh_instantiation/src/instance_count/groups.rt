#![tactic(auto, using(jh_arena::proofs::table::Listed::growth_steps))]

ghost use Rattle.std.specs.Prelude.{◌≡◌, ◌*◌, ◌^◌, ◌==◌, ◌++◌, ℕ, List, if◌then◌else◌, replicate, true, IfOk, OnOk, slice_get};
ghost use Rattle.jh_form.specs.Tree.{FormulaTree};
ghost use Rattle.jh_form.specs.Tree as t;
ghost use Rattle.jh_arena.specs.table.Entries.{Listing, is_truth};
ghost use Rattle.jh_arena.specs.table.Growth.{Extends};
ghost use Rattle.jh_arena.specs.table.Nodes.{nodes};
ghost use Rattle.jh_query.specs.queries.Size.{capped};
ghost use Rattle.jh_inst.specs.instances.Count as spec;
ghost use Rattle.jh_inst.specs.instances.Prenex as prenex;
ghost use Rattle.jh_inst.specs.instances.Rounds.{put_at};
ghost use Rattle.jh_instantiation.specs.skolem_constants.Standing.{IsFormula};
ghost use Rattle.jh_instantiation.specs.instance_count.Grouping.{IsGroup, AreGroups};

use crate::instance_count::capped::times;
use crate::instance_count::powers::power;
use crate::instance_count::weighing::added_terms;
use crate::skolem_constants::{in_front, put_one, settle};
use jh_arena::makers::null;
use jh_arena::table::Table;
use jh_name::NoMemory;

/// So many universals of one shape, and how many variables they have.
#[derive(Clone, Copy)]
pub(crate) struct Group {
    pub(crate) node: usize,
    pub(crate) variables: usize,
    pub(crate) many: u128,
}

/// Adds so many formulas of one shape to the groups, where they are universals.
pub(crate) fn add_group(
    table: &Table,
    groups: &mut Vec<Group>,
    node: usize,
    many: u128,
) -> Result<(), NoMemory>
    requires there { is_truth (slice_get (nodes table.now) node) ≡ true }
    ensures { (gs : List spec.Group) (a : FormulaTree) (n : ℕ) → AreGroups table.now groups.old.items gs → IsFormula table.now node a → many ≡ capped n → OnOk result (AreGroups table.now groups.new.items (gs ++ spec.group a n)) }
{
    let variables = in_front(table, node)?;
    if variables != 0 {
        groups.push(Group {
            node,
            variables,
            many,
        })?;
    }
    Ok(())
}

/// A universal put at null for so many variables.
fn put_at_null(table: &mut Table, node: usize, variables: usize) -> Result<usize, NoMemory>
    requires there { is_truth (slice_get (nodes table.old) node) ≡ true }
    ensures node { (a : FormulaTree) → IsFormula table.old node a → IfOk result (λ made. IsFormula table.new made (put_at a (replicate variables t.null))) }
    ensures grows { Extends table.old table.new }
{
    let null = null(table)?;
    let mut made = node;
    for _turn in 0..variables {
        made = put_one(table, made, null)?;
    }
    Ok(made)
}

/// What a put of a universal leaves.
fn left_by(table: &mut Table, node: usize, variables: usize) -> Result<usize, NoMemory>
    requires there { is_truth (slice_get (nodes table.old) node) ≡ true }
    ensures node { (a : FormulaTree) → IsFormula table.old node a → variables ≡ prenex.in_front a → IfOk result (λ made. IsFormula table.new made (spec.left_by a)) }
    ensures grows { Extends table.old table.new }
{
    let put = put_at_null(table, node, variables)?;
    let left = settle(table, put, 0)?;
    Ok(left.node)
}

impl Group {
    /// How many puts there are at so many terms.
    pub(crate) fn puts(self, terms: u128) -> u128
        ensures { (t : Listing) (g : spec.Group) (n : ℕ) → IsGroup t self g → terms ≡ capped n → result ≡ capped (spec.group_puts n g) }
    {
        times(self.many, power(terms, self.variables))
    }

    /// How many terms it adds.
    pub(crate) fn added(self, table: &Table, terms: u128) -> Result<u128, NoMemory>
        requires there { is_truth (slice_get (nodes table.now) self.node) ≡ true }
        ensures { (g : spec.Group) (n : ℕ) → IsGroup table.now self g → terms ≡ capped n → IfOk result (λ made. made ≡ capped (spec.group_terms n g)) }
    {
        let each = added_terms(table, terms, self.node)?;
        Ok(times(self.many, each))
    }

    /// Adds to the groups what its puts leave, where that are universals.
    pub(crate) fn add_left(
        self,
        table: &mut Table,
        groups: &mut Vec<Group>,
        terms: u128,
    ) -> Result<(), NoMemory>
        requires there { (g : spec.Group) × IsGroup table.old self g }
        ensures left { (gs : List spec.Group) (g : spec.Group) (n : ℕ) → AreGroups table.old groups.old.items gs → IsGroup table.old self g → terms ≡ capped n → OnOk result (AreGroups table.new groups.new.items (gs ++ spec.group_left n g)) }
        ensures grows { Extends table.old table.new }
    {
        let many = self.puts(terms);
        let left = left_by(table, self.node, self.variables)?;
        add_group(table, groups, left, many)
    }

    /// How many puts the last pass has.
    pub(crate) fn last_puts(self, terms: u128) -> u128
        ensures { (t : Listing) (g : spec.Group) (n : ℕ) → IsGroup t self g → terms ≡ capped n → result ≡ capped (spec.last_count n g) }
    {
        if self.variables == 1 {
            times(self.many, terms)
        } else {
            0
        }
    }
}
