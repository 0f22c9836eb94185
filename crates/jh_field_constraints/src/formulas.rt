#![tactic(auto, using(jh_arena::proofs::table::Listed::growth_steps))]

ghost use Rattle.std.specs.Prelude.{◌≡◌, ◌<◌, true, not, is_some, Some, IfOk, OnOk, slice_get};
ghost use Rattle.jh_form.specs.Tree as t;
ghost use Rattle.jh_arena.specs.table.Entries.{is_truth, the_truth, the_mark};
ghost use Rattle.jh_arena.specs.table.Growth.{Extends};
ghost use Rattle.jh_arena.specs.table.Nodes.{nodes, tree_in, fits_in};
ghost use Rattle.jh_arena.specs.table.Parts.{ArePartsBelow};
ghost use Rattle.jh_fca.specs.elimination.Constraints.{Constraint};
ghost use Rattle.jh_fca.specs.elimination.Exchanged.{eliminated};
ghost use Rattle.jh_field_constraints.specs.Standing.{IsFormula, IsConstraint};
ghost use Rattle.jh_field_constraints.specs.Reading.{IsLocalAt};
ghost use Rattle.jh_field_constraints.specs.Memos.{found};
ghost use Rattle.jh_field_constraints.specs.Walking.{IsEliminated, HoldsEliminated, both_ways, joined, quantified_by};

use crate::constraints::NodeConstraint;
use crate::exchanging::atom_exchanged;
use crate::memo::{Memo, Signed};
use crate::naming::name_of;
use crate::reading::either_reads;
use jh_arena::makers::{conjunction, disjunction, for_all, for_some, implication, negation};
use jh_arena::table::{Shape, Table};
use jh_name::NoMemory;

/// What joins two formulas.
#[derive(Clone, Copy)]
pub(crate) enum Connective {
    And,
    Or,
    Implies,
}

/// Two formulas joined.
fn join(table: &mut Table, connective: Connective, a: usize, b: usize) -> Result<usize, NoMemory>
    requires a { is_truth (slice_get (nodes table.old) a) ≡ true }
    requires b { is_truth (slice_get (nodes table.old) b) ≡ true }
    ensures node { IfOk result (λ made. slice_get (nodes table.new) made ≡ Some (t.of_truth (joined connective (the_truth (slice_get (nodes table.old) a)) (the_truth (slice_get (nodes table.old) b))))) }
    ensures grows { Extends table.old table.new }
{
    match connective {
        Connective::And => conjunction(table, a, b),
        Connective::Or => disjunction(table, a, b),
        Connective::Implies => implication(table, a, b),
    }
}

/// A formula said of all objects, or of some object.
fn quantify(table: &mut Table, a: usize, universal: bool) -> Result<usize, NoMemory>
    requires a { is_truth (slice_get (nodes table.old) a) ≡ true }
    ensures node { IfOk result (λ made. slice_get (nodes table.new) made ≡ Some (t.of_truth (quantified_by universal (the_truth (slice_get (nodes table.old) a))))) }
    ensures grows { Extends table.old table.new }
{
    if universal {
        for_all(table, a)
    } else {
        for_some(table, a)
    }
}

/// The answer for a formula that was met before where it stands so, or else that of its shape, which is noted.
#[cycle(walked)]
fn walked(
    table: &mut Table,
    of: NodeConstraint,
    memo: &mut Memo,
    formula: Signed,
) -> Result<usize, NoMemory>
    requires of { (c : Constraint) × IsConstraint table.old of c }
    requires formula { IsLocalAt (nodes table.old) formula.node }
    requires memo { (c : Constraint) → IsConstraint table.old of c → HoldsEliminated c (nodes table.old) (found memo.old.answers) }
    ensures node { IfOk result (λ made. (c : Constraint) → IsConstraint table.old of c → IsEliminated c (nodes table.new) formula.node formula.positive made) }
    ensures grows { Extends table.old table.new }
    ensures memo { OnOk result ((c : Constraint) → IsConstraint table.old of c → HoldsEliminated c (nodes table.new) (found memo.new.answers)) }
{
    match memo.known(formula) {
        Some(answer) => Ok(answer),
        None => {
            let shape = table.shape(formula.node);
            let answer = walked_shape(table, of, memo, formula, shape)?;
            memo.note(formula, answer)?;
            Ok(answer)
        }
    }
}

/// A formula of this shape without reads of the field.
#[cycle(walked)]
fn walked_shape(
    table: &mut Table,
    of: NodeConstraint,
    memo: &mut Memo,
    formula: Signed,
    shape: Shape,
) -> Result<usize, NoMemory>
    requires of { (c : Constraint) × IsConstraint table.old of c }
    requires there { slice_get (nodes table.old) formula.node ≡ Some (tree_in table.old shape) }
    requires formula { IsLocalAt (nodes table.old) formula.node }
    requires fits { fits_in table.old shape ≡ true }
    requires below { ArePartsBelow formula.node table.old.pools.lists shape }
    requires memo { (c : Constraint) → IsConstraint table.old of c → HoldsEliminated c (nodes table.old) (found memo.old.answers) }
    ensures node { IfOk result (λ made. (c : Constraint) → IsConstraint table.old of c → IsEliminated c (nodes table.new) formula.node formula.positive made) }
    ensures grows { Extends table.old table.new }
    ensures memo { OnOk result ((c : Constraint) → IsConstraint table.old of c → HoldsEliminated c (nodes table.new) (found memo.new.answers)) }
{
    let node = formula.node;
    let positive = formula.positive;
    match shape {
        Shape::Negation(a) => negated(table, of, memo, node, a, positive),
        Shape::And(a, b) => {
            both(
                table,
                of,
                memo,
                node,
                Connective::And,
                a,
                positive,
                b,
                positive,
            )
        }
        Shape::Or(a, b) => both(
            table,
            of,
            memo,
            node,
            Connective::Or,
            a,
            positive,
            b,
            positive,
        ),
        Shape::Implies(a, b) => {
            both(
                table,
                of,
                memo,
                node,
                Connective::Implies,
                a,
                !positive,
                b,
                positive,
            )
        }
        Shape::Iff(a, b) => equivalent(table, of, memo, node, a, b, positive),
        Shape::All(a) => bound(table, of, memo, node, a, positive, true),
        Shape::Ex(a) => bound(table, of, memo, node, a, positive, false),
        Shape::Mark(label, a) => labelled(table, of, memo, node, label, a, positive),
        _ => atom_exchanged(table, of, node, positive),
    }
}

/// The negation of a formula, which stands the other way.
#[cycle(walked)]
fn negated(
    table: &mut Table,
    of: NodeConstraint,
    memo: &mut Memo,
    node: usize,
    a: usize,
    positive: bool,
) -> Result<usize, NoMemory>
    requires of { (c : Constraint) × IsConstraint table.old of c }
    requires a { IsLocalAt (nodes table.old) a }
    requires below { a < node }
    requires memo { (c : Constraint) → IsConstraint table.old of c → HoldsEliminated c (nodes table.old) (found memo.old.answers) }
    ensures node { IfOk result (λ made. (c : Constraint) → IsConstraint table.old of c → slice_get (nodes table.new) made ≡ Some (t.of_truth (t.negation (eliminated c (the_truth (slice_get (nodes table.old) a)) (not positive))))) }
    ensures grows { Extends table.old table.new }
    ensures memo { OnOk result ((c : Constraint) → IsConstraint table.old of c → HoldsEliminated c (nodes table.new) (found memo.new.answers)) }
{
    let inner = walked(
        table,
        of,
        memo,
        Signed {
            node: a,
            positive: !positive,
        },
    )?;
    negation(table, inner)
}

/// Two formulas, each as it stands, joined.
#[cycle(walked)]
fn both(
    table: &mut Table,
    of: NodeConstraint,
    memo: &mut Memo,
    node: usize,
    connective: Connective,
    a: usize,
    first: bool,
    b: usize,
    second: bool,
) -> Result<usize, NoMemory>
    requires of { (c : Constraint) × IsConstraint table.old of c }
    requires a { IsLocalAt (nodes table.old) a }
    requires b { IsLocalAt (nodes table.old) b }
    requires below { (a < node) × (b < node) }
    requires memo { (c : Constraint) → IsConstraint table.old of c → HoldsEliminated c (nodes table.old) (found memo.old.answers) }
    ensures node { IfOk result (λ made. (c : Constraint) → IsConstraint table.old of c → slice_get (nodes table.new) made ≡ Some (t.of_truth (joined connective (eliminated c (the_truth (slice_get (nodes table.old) a)) first) (eliminated c (the_truth (slice_get (nodes table.old) b)) second)))) }
    ensures grows { Extends table.old table.new }
    ensures memo { OnOk result ((c : Constraint) → IsConstraint table.old of c → HoldsEliminated c (nodes table.new) (found memo.new.answers)) }
{
    let left = walked(
        table,
        of,
        memo,
        Signed {
            node: a,
            positive: first,
        },
    )?;
    let right = walked(
        table,
        of,
        memo,
        Signed {
            node: b,
            positive: second,
        },
    )?;
    join(table, connective, left, right)
}

/// An equivalence, which is two implications where it stands round a read.
#[cycle(walked)]
fn equivalent(
    table: &mut Table,
    of: NodeConstraint,
    memo: &mut Memo,
    node: usize,
    a: usize,
    b: usize,
    positive: bool,
) -> Result<usize, NoMemory>
    requires of { (c : Constraint) × IsConstraint table.old of c }
    requires there { slice_get (nodes table.old) node ≡ Some (t.of_truth (t.iff (the_truth (slice_get (nodes table.old) a)) (the_truth (slice_get (nodes table.old) b)))) }
    requires a { IsLocalAt (nodes table.old) a }
    requires b { IsLocalAt (nodes table.old) b }
    requires below { (a < node) × (b < node) }
    requires memo { (c : Constraint) → IsConstraint table.old of c → HoldsEliminated c (nodes table.old) (found memo.old.answers) }
    ensures node { IfOk result (λ made. (c : Constraint) → IsConstraint table.old of c → slice_get (nodes table.new) made ≡ Some (t.of_truth (eliminated c (t.iff (the_truth (slice_get (nodes table.old) a)) (the_truth (slice_get (nodes table.old) b))) positive))) }
    ensures grows { Extends table.old table.new }
    ensures memo { OnOk result ((c : Constraint) → IsConstraint table.old of c → HoldsEliminated c (nodes table.new) (found memo.new.answers)) }
{
    let reads = either_reads(table, name_of(table, of.field), a, b)?;
    if reads {
        opened(table, of, memo, node, a, b, positive)
    } else {
        Ok(node)
    }
}

/// The two implications of an equivalence.
#[cycle(walked)]
fn opened(
    table: &mut Table,
    of: NodeConstraint,
    memo: &mut Memo,
    node: usize,
    a: usize,
    b: usize,
    positive: bool,
) -> Result<usize, NoMemory>
    requires of { (c : Constraint) × IsConstraint table.old of c }
    requires a { IsLocalAt (nodes table.old) a }
    requires b { IsLocalAt (nodes table.old) b }
    requires below { (a < node) × (b < node) }
    requires memo { (c : Constraint) → IsConstraint table.old of c → HoldsEliminated c (nodes table.old) (found memo.old.answers) }
    ensures node { IfOk result (λ made. (c : Constraint) → IsConstraint table.old of c → slice_get (nodes table.new) made ≡ Some (t.of_truth (both_ways c (the_truth (slice_get (nodes table.old) a)) (the_truth (slice_get (nodes table.old) b)) positive))) }
    ensures grows { Extends table.old table.new }
    ensures memo { OnOk result ((c : Constraint) → IsConstraint table.old of c → HoldsEliminated c (nodes table.new) (found memo.new.answers)) }
{
    let there = both(
        table,
        of,
        memo,
        node,
        Connective::Implies,
        a,
        !positive,
        b,
        positive,
    )?;
    let back = both(
        table,
        of,
        memo,
        node,
        Connective::Implies,
        b,
        !positive,
        a,
        positive,
    )?;
    conjunction(table, there, back)
}

/// A quantifier over a formula.
#[cycle(walked)]
fn bound(
    table: &mut Table,
    of: NodeConstraint,
    memo: &mut Memo,
    node: usize,
    a: usize,
    positive: bool,
    universal: bool,
) -> Result<usize, NoMemory>
    requires of { (c : Constraint) × IsConstraint table.old of c }
    requires a { IsLocalAt (nodes table.old) a }
    requires below { a < node }
    requires memo { (c : Constraint) → IsConstraint table.old of c → HoldsEliminated c (nodes table.old) (found memo.old.answers) }
    ensures node { IfOk result (λ made. (c : Constraint) → IsConstraint table.old of c → slice_get (nodes table.new) made ≡ Some (t.of_truth (quantified_by universal (eliminated c (the_truth (slice_get (nodes table.old) a)) positive)))) }
    ensures grows { Extends table.old table.new }
    ensures memo { OnOk result ((c : Constraint) → IsConstraint table.old of c → HoldsEliminated c (nodes table.new) (found memo.new.answers)) }
{
    let body = walked(table, of, memo, Signed { node: a, positive })?;
    quantify(table, body, universal)
}

/// A label over a formula.
#[cycle(walked)]
fn labelled(
    table: &mut Table,
    of: NodeConstraint,
    memo: &mut Memo,
    node: usize,
    label: usize,
    a: usize,
    positive: bool,
) -> Result<usize, NoMemory>
    requires of { (c : Constraint) × IsConstraint table.old of c }
    requires label { is_some (slice_get table.old.pools.marks label) ≡ true }
    requires a { IsLocalAt (nodes table.old) a }
    requires below { a < node }
    requires memo { (c : Constraint) → IsConstraint table.old of c → HoldsEliminated c (nodes table.old) (found memo.old.answers) }
    ensures node { IfOk result (λ made. (c : Constraint) → IsConstraint table.old of c → slice_get (nodes table.new) made ≡ Some (t.of_truth (t.mark (the_mark (slice_get table.old.pools.marks label)) (eliminated c (the_truth (slice_get (nodes table.old) a)) positive)))) }
    ensures grows { Extends table.old table.new }
    ensures memo { OnOk result ((c : Constraint) → IsConstraint table.old of c → HoldsEliminated c (nodes table.new) (found memo.new.answers)) }
{
    let body = walked(table, of, memo, Signed { node: a, positive })?;
    table.make(Shape::Mark(label, body))
}

/// The node of a formula of local shape whose reads of a field are exchanged, where the formula stands positively or negatively. The
/// answer is want of memory where the tree nests deeper than MOST_LEVELS; no part of it is looked at then.
pub(crate) fn eliminated(
    table: &mut Table,
    of: NodeConstraint,
    formula: usize,
    positive: bool,
) -> Result<usize, NoMemory>
    requires of { (c : Constraint) × IsConstraint table.old of c }
    requires formula { IsLocalAt (nodes table.old) formula }
    ensures node { IfOk result (λ made. (c : Constraint) → IsConstraint table.old of c → IsFormula table.new made (eliminated c (the_truth (slice_get (nodes table.old) formula)) positive)) }
    ensures grows { Extends table.old table.new }
{
    if !table.is_shallow(formula) {
        return Err(NoMemory);
    }
    let mut memo = Memo::new(table.alloc());
    walked(
        table,
        of,
        &mut memo,
        Signed {
            node: formula,
            positive,
        },
    )
}
