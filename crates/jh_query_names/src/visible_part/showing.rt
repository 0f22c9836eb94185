ghost use Rattle.std.specs.Prelude.{◌≡◌, ◌<◌, ◌&&◌, not, true, IfOk, OnOk, Some, slice_get};
ghost use Rattle.jh_form.specs.Tree.{of_truth};
ghost use Rattle.jh_form.specs.Tree as t;
ghost use Rattle.jh_arena.specs.table.Entries.{is_truth, the_truth};
ghost use Rattle.jh_arena.specs.table.Growth.{Extends};
ghost use Rattle.jh_arena.specs.table.Nodes.{nodes, tree_in, fits_in};
ghost use Rattle.jh_arena.specs.table.Parts.{ArePartsBelow};
ghost use Rattle.jh_approx.specs.definition.Shown.{shown, is_sayable, negation_of};
ghost use Rattle.jh_query_names.specs.visible_part.Folding.{joined};
ghost use Rattle.jh_query_names.specs.visible_part.Memos.{found};
ghost use Rattle.jh_query_names.specs.visible_part.Showing.{IsMade, IsShownAt, HoldsShown, turned};

use crate::visible_part::folding::{Connective, join, negated};
use crate::visible_part::leaves::{is_replaced, leaf};
use crate::visible_part::memo::{Made, Memo, Signed};
use jh_arena::table::{Shape, Table};
use jh_name::NoMemory;

/// What is shown of a formula: as it is noted, or else by its shape, which is noted.
#[cycle(showing)]
fn shown_of(table: &mut Table, memo: &mut Memo, formula: Signed) -> Result<Made, NoMemory>
    requires formula { is_truth (slice_get (nodes table.old) formula.node) ≡ true }
    requires memo { HoldsShown (nodes table.old) (found memo.old.answers) }
    ensures shown { IfOk result (λ made. IsShownAt (nodes table.new) formula made) }
    ensures grows { Extends table.old table.new }
    ensures memo { OnOk result (HoldsShown (nodes table.new) (found memo.new.answers)) }
{
    match memo.known(formula) {
        Some(answer) => Ok(answer),
        None => {
            let shape = table.shape(formula.node);
            let answer = shown_shape(table, memo, formula, shape)?;
            memo.note(formula, answer)?;
            Ok(answer)
        }
    }
}

/// What is shown of a shape.
#[cycle(showing)]
fn shown_shape(
    table: &mut Table,
    memo: &mut Memo,
    formula: Signed,
    shape: Shape,
) -> Result<Made, NoMemory>
    requires there { slice_get (nodes table.old) formula.node ≡ Some (tree_in table.old shape) }
    requires formula { is_truth (slice_get (nodes table.old) formula.node) ≡ true }
    requires fits { fits_in table.old shape ≡ true }
    requires below { ArePartsBelow formula.node table.old.pools.lists shape }
    requires memo { HoldsShown (nodes table.old) (found memo.old.answers) }
    ensures shown { IfOk result (λ made. IsShownAt (nodes table.new) formula made) }
    ensures grows { Extends table.old table.new }
    ensures memo { OnOk result (HoldsShown (nodes table.new) (found memo.new.answers)) }
{
    let node = formula.node;
    let positive = formula.positive;
    match shape {
        Shape::Negation(a) => negated_part(table, memo, node, a, positive),
        Shape::And(a, b) => both(table, memo, node, Connective::And, a, positive, b, positive),
        Shape::Or(a, b) => both(table, memo, node, Connective::Or, a, positive, b, positive),
        Shape::Implies(a, b) => {
            both(
                table,
                memo,
                node,
                Connective::Implies,
                a,
                !positive,
                b,
                positive,
            )
        }
        Shape::Iff(a, b) => equivalence(table, memo, node, a, b, positive),
        Shape::Mark(_, a) => shown_of(table, memo, Signed { node: a, positive }),
        _ => leaf(table, node, positive, is_replaced(shape)),
    }
}

/// The negation of what is shown of a formula that stands the other way.
#[cycle(showing)]
fn negated_part(
    table: &mut Table,
    memo: &mut Memo,
    node: usize,
    a: usize,
    positive: bool,
) -> Result<Made, NoMemory>
    requires a { is_truth (slice_get (nodes table.old) a) ≡ true }
    requires below { a < node }
    requires memo { HoldsShown (nodes table.old) (found memo.old.answers) }
    ensures made { IfOk result (λ made. IsMade (nodes table.new) made (negation_of (shown (the_truth (slice_get (nodes table.old) a)) (not positive))) (is_sayable (the_truth (slice_get (nodes table.old) a)))) }
    ensures grows { Extends table.old table.new }
    ensures memo { OnOk result (HoldsShown (nodes table.new) (found memo.new.answers)) }
{
    let part = shown_of(
        table,
        memo,
        Signed {
            node: a,
            positive: !positive,
        },
    )?;
    let made = negated(table, part.node)?;
    Ok(Made {
        node: made,
        sayable: part.sayable,
    })
}

fn both_sayable(left: bool, right: bool) -> bool
    ensures { result ≡ (left && right) }
{
    left && right
}

/// What is shown of two formulas, each with its sign, joined.
#[cycle(showing)]
fn both(
    table: &mut Table,
    memo: &mut Memo,
    node: usize,
    connective: Connective,
    a: usize,
    first: bool,
    b: usize,
    second: bool,
) -> Result<Made, NoMemory>
    requires a { is_truth (slice_get (nodes table.old) a) ≡ true }
    requires b { is_truth (slice_get (nodes table.old) b) ≡ true }
    requires below { (a < node) × (b < node) }
    requires memo { HoldsShown (nodes table.old) (found memo.old.answers) }
    ensures made { IfOk result (λ made. IsMade (nodes table.new) made (joined connective (shown (the_truth (slice_get (nodes table.old) a)) first) (shown (the_truth (slice_get (nodes table.old) b)) second)) (is_sayable (the_truth (slice_get (nodes table.old) a)) && is_sayable (the_truth (slice_get (nodes table.old) b)))) }
    ensures grows { Extends table.old table.new }
    ensures memo { OnOk result (HoldsShown (nodes table.new) (found memo.new.answers)) }
{
    let left = shown_of(
        table,
        memo,
        Signed {
            node: a,
            positive: first,
        },
    )?;
    let right = shown_of(
        table,
        memo,
        Signed {
            node: b,
            positive: second,
        },
    )?;
    let made = join(table, connective, left.node, right.node)?;
    Ok(Made {
        node: made,
        sayable: both_sayable(left.sayable, right.sayable),
    })
}

/// What is shown of an equivalence: it stays one where a query can say both sides, and else is two implications.
#[cycle(showing)]
fn equivalence(
    table: &mut Table,
    memo: &mut Memo,
    node: usize,
    a: usize,
    b: usize,
    positive: bool,
) -> Result<Made, NoMemory>
    requires a { is_truth (slice_get (nodes table.old) a) ≡ true }
    requires b { is_truth (slice_get (nodes table.old) b) ≡ true }
    requires below { (a < node) × (b < node) }
    requires memo { HoldsShown (nodes table.old) (found memo.old.answers) }
    ensures made { IfOk result (λ made. IsMade (nodes table.new) made (shown (t.iff (the_truth (slice_get (nodes table.old) a)) (the_truth (slice_get (nodes table.old) b))) positive) (is_sayable (the_truth (slice_get (nodes table.old) a)) && is_sayable (the_truth (slice_get (nodes table.old) b)))) }
    ensures grows { Extends table.old table.new }
    ensures memo { OnOk result (HoldsShown (nodes table.new) (found memo.new.answers)) }
{
    let joined = both(table, memo, node, Connective::Iff, a, positive, b, positive)?;
    let whole = joined.sayable;
    if whole {
        Ok(joined)
    } else {
        turned(table, memo, node, a, b, positive)
    }
}

/// What is shown of the two implications of an equivalence.
#[cycle(showing)]
fn turned(
    table: &mut Table,
    memo: &mut Memo,
    node: usize,
    a: usize,
    b: usize,
    positive: bool,
) -> Result<Made, NoMemory>
    requires a { is_truth (slice_get (nodes table.old) a) ≡ true }
    requires b { is_truth (slice_get (nodes table.old) b) ≡ true }
    requires below { (a < node) × (b < node) }
    requires memo { HoldsShown (nodes table.old) (found memo.old.answers) }
    ensures made { IfOk result (λ made. IsMade (nodes table.new) made (turned (the_truth (slice_get (nodes table.old) a)) (the_truth (slice_get (nodes table.old) b)) positive) (is_sayable (the_truth (slice_get (nodes table.old) a)) && is_sayable (the_truth (slice_get (nodes table.old) b)))) }
    ensures grows { Extends table.old table.new }
    ensures memo { OnOk result (HoldsShown (nodes table.new) (found memo.new.answers)) }
{
    let left = both(
        table,
        memo,
        node,
        Connective::Implies,
        a,
        !positive,
        b,
        positive,
    )?;
    let right = both(
        table,
        memo,
        node,
        Connective::Implies,
        b,
        !positive,
        a,
        positive,
    )?;
    let made = join(table, Connective::And, left.node, right.node)?;
    Ok(Made {
        node: made,
        sayable: left.sayable,
    })
}

/// The node of what a query can say of a formula, which stands positively in its sequent, as its goal does, or negatively,
/// as its hypotheses do. What the table held stays in its place, after any answer. The time is in proportion to the parts
/// that are connectives, each counted once for each sign with which it is met, beside what the memo has already; what
/// stands inside atoms isn't looked at. The answer is want of memory where the tree nests deeper than MOST_LEVELS.
pub fn shown(
    table: &mut Table,
    memo: &mut Memo,
    formula: usize,
    positive: bool,
) -> Result<usize, NoMemory>
    requires formula { is_truth (slice_get (nodes table.old) formula) ≡ true }
    requires memo { HoldsShown (nodes table.old) (found memo.old.answers) }
    ensures tree { IfOk result (λ made. slice_get (nodes table.new) made ≡ Some (of_truth (shown (the_truth (slice_get (nodes table.old) formula)) positive))) }
    ensures grows { Extends table.old table.new }
    ensures memo { OnOk result (HoldsShown (nodes table.new) (found memo.new.answers)) }
{
    if !table.is_shallow(formula) {
        return Err(NoMemory);
    }
    let made = shown_of(
        table,
        memo,
        Signed {
            node: formula,
            positive,
        },
    )?;
    Ok(made.node)
}
