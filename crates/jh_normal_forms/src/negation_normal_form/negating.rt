ghost use Rattle.std.specs.Prelude.{◌≡◌, ◌<◌, ◌≤◌, ℕ, List, true, is_some, Some, IfOk, OnOk, slice_get};
ghost use Rattle.jh_form.specs.Tree.{of_truth};
ghost use Rattle.jh_form.specs.Tree as t;
ghost use Rattle.jh_form.specs.Meaning.{Interp, truth};
ghost use Rattle.jh_boxed.specs.Sizes.{value_depth};
ghost use Rattle.jh_arena.specs.table.Entries.{is_truth, the_truth, the_value, the_mark};
ghost use Rattle.jh_arena.specs.table.Growth.{Extends};
ghost use Rattle.jh_arena.specs.table.Nodes.{nodes, tree_in, fits_in};
ghost use Rattle.jh_arena.specs.table.Parts.{ArePartsBelow};
ghost use Rattle.jh_normal_forms.specs.negation_normal_form.Normal.{normal, is_normal, signed};
ghost use Rattle.jh_normal_forms.specs.negation_normal_form.Negating.{IsNormalised, HoldsNormal, joined, quantified, opened_second, literal};
ghost use Rattle.jh_normal_forms.specs.negation_normal_form.Memos.{found};

use crate::negation_normal_form::memo::{Memo, Signed};
use jh_arena::makers::{conjunction, disjunction, for_all, for_some, negation};
use jh_arena::table::{Shape, Table};
use jh_name::NoMemory;

/// The answer for a formula that was met before with this sign, or else that of its shape, which is noted.
#[cycle(normalised)]
fn normalised(table: &mut Table, memo: &mut Memo, formula: Signed) -> Result<usize, NoMemory>
    requires formula { is_truth (slice_get (nodes table.old) formula.node) ≡ true }
    requires memo { HoldsNormal (nodes table.old) (found memo.old.answers) }
    ensures node { IfOk result (λ made. IsNormalised (nodes table.new) formula.node formula.positive made) }
    ensures grows { Extends table.old table.new }
    ensures memo { OnOk result (HoldsNormal (nodes table.new) (found memo.new.answers)) }
{
    match memo.known(formula) {
        Some(answer) => Ok(answer),
        None => {
            let shape = table.shape(formula.node);
            let answer = normalised_shape(table, memo, formula, shape)?;
            memo.note(formula, answer)?;
            Ok(answer)
        }
    }
}

/// The negation normal form of a shape.
#[cycle(normalised)]
fn normalised_shape(
    table: &mut Table,
    memo: &mut Memo,
    formula: Signed,
    shape: Shape,
) -> Result<usize, NoMemory>
    requires there { slice_get (nodes table.old) formula.node ≡ Some (tree_in table.old shape) }
    requires formula { is_truth (slice_get (nodes table.old) formula.node) ≡ true }
    requires fits { fits_in table.old shape ≡ true }
    requires below { ArePartsBelow formula.node table.old.pools.lists shape }
    requires memo { HoldsNormal (nodes table.old) (found memo.old.answers) }
    ensures node { IfOk result (λ made. IsNormalised (nodes table.new) formula.node formula.positive made) }
    ensures grows { Extends table.old table.new }
    ensures memo { OnOk result (HoldsNormal (nodes table.new) (found memo.new.answers)) }
{
    let positive = formula.positive;
    match shape {
        Shape::Negation(a) => normalised(
            table,
            memo,
            Signed {
                node: a,
                positive: !positive,
            },
        ),
        Shape::And(a, b) => both(
            table,
            memo,
            formula.node,
            a,
            positive,
            b,
            positive,
            positive,
        ),
        Shape::Or(a, b) => both(
            table,
            memo,
            formula.node,
            a,
            positive,
            b,
            positive,
            !positive,
        ),
        Shape::Implies(a, b) => {
            both(
                table,
                memo,
                formula.node,
                a,
                !positive,
                b,
                positive,
                !positive,
            )
        }
        Shape::Iff(a, b) => opened(table, memo, formula.node, a, b, positive),
        Shape::All(a) => bound(table, memo, formula.node, a, positive, positive),
        Shape::Ex(a) => bound(table, memo, formula.node, a, positive, !positive),
        Shape::Mark(label, a) => labelled(table, memo, formula.node, label, a, positive),
        _ => literal(table, formula.node, positive),
    }
}

/// Two formulas, each with its sign, joined by And or by Or.
#[cycle(normalised)]
fn both(
    table: &mut Table,
    memo: &mut Memo,
    node: usize,
    a: usize,
    first: bool,
    b: usize,
    second: bool,
    conjoined: bool,
) -> Result<usize, NoMemory>
    requires a { is_truth (slice_get (nodes table.old) a) ≡ true }
    requires b { is_truth (slice_get (nodes table.old) b) ≡ true }
    requires below { (a < node) × (b < node) }
    requires memo { HoldsNormal (nodes table.old) (found memo.old.answers) }
    ensures node { IfOk result (λ made. slice_get (nodes table.new) made ≡ Some (of_truth (joined conjoined (normal (the_truth (slice_get (nodes table.old) a)) first) (normal (the_truth (slice_get (nodes table.old) b)) second)))) }
    ensures grows { Extends table.old table.new }
    ensures memo { OnOk result (HoldsNormal (nodes table.new) (found memo.new.answers)) }
{
    let left = normalised(
        table,
        memo,
        Signed {
            node: a,
            positive: first,
        },
    )?;
    let right = normalised(
        table,
        memo,
        Signed {
            node: b,
            positive: second,
        },
    )?;
    join(table, left, right, conjoined)
}

/// Two formulas joined by And or by Or.
fn join(table: &mut Table, a: usize, b: usize, conjoined: bool) -> Result<usize, NoMemory>
    requires a { is_truth (slice_get (nodes table.old) a) ≡ true }
    requires b { is_truth (slice_get (nodes table.old) b) ≡ true }
    ensures node { IfOk result (λ made. slice_get (nodes table.new) made ≡ Some (of_truth (joined conjoined (the_truth (slice_get (nodes table.old) a)) (the_truth (slice_get (nodes table.old) b))))) }
    ensures grows { Extends table.old table.new }
{
    if conjoined {
        conjunction(table, a, b)
    } else {
        disjunction(table, a, b)
    }
}

/// An equivalence opened, or its negation.
#[cycle(normalised)]
fn opened(
    table: &mut Table,
    memo: &mut Memo,
    node: usize,
    a: usize,
    b: usize,
    positive: bool,
) -> Result<usize, NoMemory>
    requires a { is_truth (slice_get (nodes table.old) a) ≡ true }
    requires b { is_truth (slice_get (nodes table.old) b) ≡ true }
    requires below { (a < node) × (b < node) }
    requires memo { HoldsNormal (nodes table.old) (found memo.old.answers) }
    ensures node { IfOk result (λ made. slice_get (nodes table.new) made ≡ Some (of_truth (normal (t.iff (the_truth (slice_get (nodes table.old) a)) (the_truth (slice_get (nodes table.old) b))) positive))) }
    ensures grows { Extends table.old table.new }
    ensures memo { OnOk result (HoldsNormal (nodes table.new) (found memo.new.answers)) }
{
    let left = both(table, memo, node, a, !positive, b, true, false)?;
    let right = opened_right(table, memo, node, a, b, positive)?;
    conjunction(table, left, right)
}

/// The second part of an equivalence that is opened, or of its negation.
#[cycle(normalised)]
fn opened_right(
    table: &mut Table,
    memo: &mut Memo,
    node: usize,
    a: usize,
    b: usize,
    positive: bool,
) -> Result<usize, NoMemory>
    requires a { is_truth (slice_get (nodes table.old) a) ≡ true }
    requires b { is_truth (slice_get (nodes table.old) b) ≡ true }
    requires below { (a < node) × (b < node) }
    requires memo { HoldsNormal (nodes table.old) (found memo.old.answers) }
    ensures node { IfOk result (λ made. slice_get (nodes table.new) made ≡ Some (of_truth (opened_second (the_truth (slice_get (nodes table.old) a)) (the_truth (slice_get (nodes table.old) b)) positive))) }
    ensures grows { Extends table.old table.new }
    ensures memo { OnOk result (HoldsNormal (nodes table.new) (found memo.new.answers)) }
{
    if positive {
        both(table, memo, node, b, false, a, true, false)
    } else {
        both(table, memo, node, a, false, b, false, false)
    }
}

/// A quantifier over a formula with its sign.
#[cycle(normalised)]
fn bound(
    table: &mut Table,
    memo: &mut Memo,
    node: usize,
    a: usize,
    positive: bool,
    universal: bool,
) -> Result<usize, NoMemory>
    requires a { is_truth (slice_get (nodes table.old) a) ≡ true }
    requires below { a < node }
    requires memo { HoldsNormal (nodes table.old) (found memo.old.answers) }
    ensures node { IfOk result (λ made. slice_get (nodes table.new) made ≡ Some (of_truth (quantified universal (normal (the_truth (slice_get (nodes table.old) a)) positive)))) }
    ensures grows { Extends table.old table.new }
    ensures memo { OnOk result (HoldsNormal (nodes table.new) (found memo.new.answers)) }
{
    let body = normalised(table, memo, Signed { node: a, positive })?;
    quantify(table, body, universal)
}

/// A formula said of all objects, or of some object.
fn quantify(table: &mut Table, a: usize, universal: bool) -> Result<usize, NoMemory>
    requires a { is_truth (slice_get (nodes table.old) a) ≡ true }
    ensures node { IfOk result (λ made. slice_get (nodes table.new) made ≡ Some (of_truth (quantified universal (the_truth (slice_get (nodes table.old) a))))) }
    ensures grows { Extends table.old table.new }
{
    if universal {
        for_all(table, a)
    } else {
        for_some(table, a)
    }
}

/// A label over a formula with its sign.
#[cycle(normalised)]
fn labelled(
    table: &mut Table,
    memo: &mut Memo,
    node: usize,
    label: usize,
    a: usize,
    positive: bool,
) -> Result<usize, NoMemory>
    requires label { is_some (slice_get table.old.pools.marks label) ≡ true }
    requires a { is_truth (slice_get (nodes table.old) a) ≡ true }
    requires below { a < node }
    requires memo { HoldsNormal (nodes table.old) (found memo.old.answers) }
    ensures node { IfOk result (λ made. slice_get (nodes table.new) made ≡ Some (of_truth (t.mark (the_mark (slice_get table.old.pools.marks label)) (normal (the_truth (slice_get (nodes table.old) a)) positive)))) }
    ensures grows { Extends table.old table.new }
    ensures memo { OnOk result (HoldsNormal (nodes table.new) (found memo.new.answers)) }
{
    let body = normalised(table, memo, Signed { node: a, positive })?;
    table.make(Shape::Mark(label, body))
}

/// A formula, or its negation.
fn literal(table: &mut Table, a: usize, positive: bool) -> Result<usize, NoMemory>
    requires a { is_truth (slice_get (nodes table.old) a) ≡ true }
    ensures node { IfOk result (λ made. slice_get (nodes table.new) made ≡ Some (of_truth (literal (the_truth (slice_get (nodes table.old) a)) positive))) }
    ensures grows { Extends table.old table.new }
{
    if positive { Ok(a) } else { negation(table, a) }
}

/// The node of the negation normal form of a formula, where the flag says so, and else of that of its negation. What the
/// table held stays in its place, after any answer. The time is in proportion to the parts that are formulas, each
/// counted once for each sign with which it is met; formulas inside terms stay as they are. The answer is want of memory
/// where the tree nests deeper than MOST_LEVELS; no part of it is looked at then.
pub fn negation_normal(table: &mut Table, formula: usize, positive: bool) -> Result<usize, NoMemory>
    requires formula { is_truth (slice_get (nodes table.old) formula) ≡ true }
    ensures tree { IfOk result (λ made. slice_get (nodes table.new) made ≡ Some (of_truth (normal (the_truth (slice_get (nodes table.old) formula)) positive))) }
    ensures normal { IfOk result (λ made. is_normal (the_truth (slice_get (nodes table.new) made)) ≡ true) }
    ensures meaning { IfOk result (λ made. (m : Interp) (e : List ℕ) → truth (the_truth (slice_get (nodes table.new) made)) m e ≡ signed positive (truth (the_truth (slice_get (nodes table.old) formula)) m e)) }
    ensures shallow { IfOk result (λ made. value_depth (the_value (slice_get (nodes table.old) formula)) ≤ 10001) }
    ensures grows { Extends table.old table.new }
{
    if !table.is_shallow(formula) {
        return Err(NoMemory);
    }
    let mut memo = Memo::new(table.alloc());
    normalised(
        table,
        &mut memo,
        Signed {
            node: formula,
            positive,
        },
    )
}
