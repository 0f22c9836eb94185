ghost use Rattle.std.specs.Prelude.{◌≡◌, ℕ, List, true, if◌then◌else◌, IfOk, Some, slice_get};
ghost use Rattle.jh_form.specs.Tree.{of_truth};
ghost use Rattle.jh_form.specs.Meaning.{Interp, truth};
ghost use Rattle.jh_arena.specs.table.Entries.{is_truth, the_truth};
ghost use Rattle.jh_arena.specs.table.Growth.{Extends};
ghost use Rattle.jh_arena.specs.table.Nodes.{nodes, fits_in, tree_in};
ghost use Rattle.jh_normal_forms.specs.rebuilding.Sound.{StandsIn};
ghost use Rattle.jh_fca.specs.cutting.Cut.{holds_foreign, instead_of, cutting, cut};
ghost use Rattle.jh_fca.specs.cutting.Leaves.{cut_leaf, sign};

use crate::cutting::asking::holds_foreign;
use crate::cutting::folding::{and_of, iff_of, implies_of, negation_of, or_of};
use crate::cutting::iffs::iffs_opened;
use crate::cutting::quantified::{all_of, ex_of, mark_of};
use jh_arena::makers::{falsehood, truth};
use jh_arena::table::{Shape, Table};
use jh_name::{NoMemory, Sort};
use jh_normal_forms::rebuilding::{BuildRules, Polarity, rebuild};

/// The rule that cuts.
#[derive(Clone, Copy)]
struct Cutting;

/// What stands for an atom that is cut.
fn instead_of(table: &mut Table, node: usize, polarity: Polarity) -> Result<usize, NoMemory>
    requires there { is_truth (slice_get (nodes table.old) node) ≡ true }
    ensures node { IfOk result (λ made. slice_get (nodes table.new) made ≡ Some (of_truth (instead_of (the_truth (slice_get (nodes table.old) node)) polarity))) }
    ensures grows { Extends table.old table.new }
{
    match polarity {
        Polarity::Positive => falsehood(table),
        Polarity::Negative => truth(table),
        Polarity::Both => Ok(node),
    }
}

/// An atom, or what stands for it where it has no local form.
fn atom(table: &mut Table, node: usize, polarity: Polarity) -> Result<usize, NoMemory>
    requires there { is_truth (slice_get (nodes table.old) node) ≡ true }
    ensures node { IfOk result (λ made. slice_get (nodes table.new) made ≡ Some (of_truth (if holds_foreign (the_truth (slice_get (nodes table.old) node)) then instead_of (the_truth (slice_get (nodes table.old) node)) polarity else the_truth (slice_get (nodes table.old) node)))) }
    ensures grows { Extends table.old table.new }
{
    let foreign = holds_foreign(table, node)?;
    if foreign {
        instead_of(table, node, polarity)
    } else {
        Ok(node)
    }
}

/// What is no connective, cut where it is an atom.
fn leaf(table: &mut Table, shape: Shape, polarity: Polarity) -> Result<usize, NoMemory>
    requires fits { fits_in table.old shape ≡ true }
    ensures node { IfOk result (λ made. slice_get (nodes table.new) made ≡ Some (cut_leaf (tree_in table.old shape) polarity)) }
    ensures grows { Extends table.old table.new }
{
    let node = table.make(shape)?;
    match table.sort(node) {
        Sort::Bool => atom(table, node, polarity),
        _ => Ok(node),
    }
}

impl BuildRules for Cutting {
    ghost rule = { λ rules. cutting };

    fn made(&self, table: &mut Table, shape: Shape, polarity: Polarity) -> Result<usize, NoMemory> {
        match shape {
            Shape::Negation(a) => negation_of(table, a),
            Shape::And(a, b) => and_of(table, a, b),
            Shape::Or(a, b) => or_of(table, a, b),
            Shape::Implies(a, b) => implies_of(table, a, b),
            Shape::Iff(a, b) => iff_of(table, a, b),
            Shape::All(a) => all_of(table, a),
            Shape::Ex(a) => ex_of(table, a),
            Shape::Mark(label, a) => mark_of(table, label, a),
            _ => leaf(table, shape, polarity),
        }
    }
}

/// How a goal and a hypothesis stand.
fn polarity_of(positive: bool) -> Polarity
    ensures { result ≡ sign positive }
{
    if positive {
        Polarity::Positive
    } else {
        Polarity::Negative
    }
}

/// The node of what is left of a goal, where the flag says so, and else of a hypothesis, with what has no local form cut. Where what
/// is left of a goal is true, so is the goal; where a hypothesis is true, so is what is left of it. What the table held stays in
/// its place, after any answer. The answer is want of memory where the tree nests deeper than MOST_LEVELS.
pub fn cut(table: &mut Table, formula: usize, positive: bool) -> Result<usize, NoMemory>
    requires formula { is_truth (slice_get (nodes table.old) formula) ≡ true }
    ensures tree { IfOk result (λ made. slice_get (nodes table.new) made ≡ Some (of_truth (cut (the_truth (slice_get (nodes table.old) formula)) (sign positive)))) }
    ensures meaning { IfOk result (λ made. (m : Interp) (e : List ℕ) → StandsIn (sign positive) (truth (the_truth (slice_get (nodes table.new) made)) m e) (truth (the_truth (slice_get (nodes table.old) formula)) m e)) }
    ensures grows { Extends table.old table.new }
{
    let opened = iffs_opened(table, formula)?;
    rebuild(table, &Cutting, opened, polarity_of(positive))
}
