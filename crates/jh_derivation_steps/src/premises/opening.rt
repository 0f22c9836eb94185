#![tactic(auto, using(crate::proofs::premises::MakeSteps::make_steps, jh_arena::proofs::table::Listed::growth_steps))]

ghost use Rattle.std.specs.Prelude.{◌≡◌, true};
ghost use Rattle.jh_form.specs.Closed.{is_closed_term, is_closed_formula};
ghost use Rattle.jh_arena.specs.table.Growth.{Extends};
ghost use Rattle.jh_arena.specs.table.Nodes.{nodes};
ghost use Rattle.jh_derivation_rules.specs.Rules.{pushed, member_opened, relation_opened, negated, fact_opened};
ghost use Rattle.jh_derivation_steps.specs.premises.Nodes.{formula_at, term_at, set_at, option_formula, IsFormula, IsMade, IsTerm, IsSet, Makes};

use crate::premises::making;
use jh_arena::table::{Shape, Table};
use jh_name::NoMemory;
use jh_substitution::rewriting::open;

/// The node of a negation of a formula, pushed one level in, where there is one.
pub fn pushed(table: &mut Table, node: usize) -> Result<Option<usize>, NoMemory>
    requires node { IsFormula (nodes table.old) node }
    ensures made { Makes (nodes table.new) (pushed (formula_at (nodes table.old) node)) result }
    ensures grows { Extends table.old table.new }
{
    match table.shape(node) {
        Shape::Negation(a) => Ok(Some(a)),
        Shape::And(a, b) => Ok(Some(making::not_both(table, a, b)?)),
        Shape::Or(a, b) => Ok(Some(making::neither(table, a, b)?)),
        Shape::Implies(a, b) => Ok(Some(making::without(table, a, b)?)),
        Shape::Iff(a, b) => Ok(Some(making::unlike(table, a, b)?)),
        Shape::All(a) => Ok(Some(making::some_not(table, a)?)),
        Shape::Ex(a) => Ok(Some(making::never(table, a)?)),
        Shape::True => Ok(Some(table.make(Shape::False)?)),
        Shape::False => Ok(Some(table.make(Shape::True)?)),
        _ => Ok(None),
    }
}

/// The node of a membership in an operation or comprehension, by its definition, where the set is one.
fn member_opened(table: &mut Table, object: usize, set: usize) -> Result<Option<usize>, NoMemory>
    requires object { IsTerm (nodes table.old) object }
    requires set { IsSet (nodes table.old) set }
    requires closed { is_closed_term (term_at (nodes table.old) object) 0 ≡ true }
    ensures made { Makes (nodes table.new) (member_opened (term_at (nodes table.old) object) (set_at (nodes table.old) set)) result }
    ensures grows { Extends table.old table.new }
{
    match table.shape(set) {
        Shape::Empty => Ok(Some(table.make(Shape::False)?)),
        Shape::Univ => Ok(Some(table.make(Shape::True)?)),
        Shape::Single(a) => Ok(Some(table.make(Shape::EqObject(object, a))?)),
        Shape::Union(a, b) => Ok(Some(making::in_either(table, object, a, b)?)),
        Shape::Inter(a, b) => Ok(Some(making::in_both(table, object, a, b)?)),
        Shape::Diff(a, b) => Ok(Some(making::in_first(table, object, a, b)?)),
        Shape::Compl(a) => Ok(Some(making::outside(table, object, a)?)),
        Shape::Compr(a) => Ok(Some(open(table, a, object)?)),
        _ => Ok(None),
    }
}

/// The node of a relation of sets, opened once, where the formula is one.
fn relation_opened(table: &mut Table, node: usize) -> Result<Option<usize>, NoMemory>
    requires node { IsFormula (nodes table.old) node }
    requires closed { is_closed_formula (formula_at (nodes table.old) node) 0 ≡ true }
    ensures made { Makes (nodes table.new) (relation_opened (formula_at (nodes table.old) node)) result }
    ensures grows { Extends table.old table.new }
{
    match table.shape(node) {
        Shape::EqSet(a, b) => Ok(Some(making::same_members(table, a, b)?)),
        Shape::Subset(a, b) => Ok(Some(making::all_members(table, a, b)?)),
        Shape::Member(a, b) => member_opened(table, a, b),
        _ => Ok(None),
    }
}

/// The node of a relation of sets or of its negation, opened once inside, where the formula is one.
pub fn fact_opened(table: &mut Table, node: usize) -> Result<Option<usize>, NoMemory>
    requires formula { IsFormula (nodes table.old) node }
    requires closed { is_closed_formula (formula_at (nodes table.old) node) 0 ≡ true }
    ensures made { Makes (nodes table.new) (fact_opened (formula_at (nodes table.old) node)) result }
    ensures grows { Extends table.old table.new }
{
    match table.shape(node) {
        Shape::Negation(a) => negated(table, a),
        _ => relation_opened(table, node),
    }
}

/// The node of the negation of a relation that is opened, where the formula is one.
fn negated(table: &mut Table, node: usize) -> Result<Option<usize>, NoMemory>
    requires formula { IsFormula (nodes table.old) node }
    requires closed { is_closed_formula (formula_at (nodes table.old) node) 0 ≡ true }
    ensures made { Makes (nodes table.new) (negated (relation_opened (formula_at (nodes table.old) node))) result }
    ensures grows { Extends table.old table.new }
{
    let made = relation_opened(table, node)?;
    negation_of(table, made)
}

/// The node of the negation of a formula that may be missing.
fn negation_of(table: &mut Table, made: Option<usize>) -> Result<Option<usize>, NoMemory>
    requires made { IsMade (nodes table.old) made }
    ensures made { Makes (nodes table.new) (negated (option_formula (nodes table.old) made)) result }
    ensures grows { Extends table.old table.new }
{
    match made {
        Some(node) => Ok(Some(making::negation(table, node)?)),
        None => Ok(None),
    }
}
